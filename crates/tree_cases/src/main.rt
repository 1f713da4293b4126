// Puts questions 1 to 9 to each sheet of a stored list, and writes the number of the first no and the nodes of an accepted sheet.

#![tactic(auto)]

mod dump;
mod list;

ghost use Rattle.std.specs.Prelude.{◌<◌, ◌^◌};

use crate::dump::{print_nodes, put};
use crate::list::{Call, build_sheet, read_call};
use input::questions::first_refusal;
use reading::read_full;
use std::io;
use tree::memory::clear;
use tree::nodes::Tree;
use tree::store::store_nodes;

// One call: a line with the number, and for number 0 a line for each node.
#[tactic(auto, using(tree::specs::Accepted::storable))]
fn run_call(rt: &impl Print, call: &Call, sheet: &[u8], nodes: &mut [u8]) -> io::Result<()> {
    if let Err(refusal) = first_refusal(sheet, call.skip, call.start, nodes.len()) {
        return println!(rt; "{refusal}");
    }
    rt.write_all(b"0")?;
    let count = store_nodes(sheet, nodes);
    put(rt, count)?;
    rt.write_all(b"\n")?;
    print_nodes(rt, call, &Tree { sheet, nodes }, count)?;
    clear(nodes);
    Ok(())
}

// The calls of the input, up to one that it cuts off.
fn run_all(rt: &impl Print, input: &[u8], sheet: &mut [u8], nodes: &mut [u8]) -> io::Result<()> {
    let mut rest = input;
    while let Some((call, behind)) = read_call(rest) {
        let built = build_sheet(behind, call.pieces, sheet);
        if call.memory <= nodes.len() {
            run_call(rt, &call, &sheet[..built.len], &mut nodes[..call.memory])?;
        }
        rest = built.rest;
    }
    Ok(())
}

// The memories: S bytes for a sheet, and N for nodes.
fn run_in<const S: usize, const N: usize>(rt: &impl Print, input: &[u8]) -> io::Result<()>
    requires sheet_size { S < 2 ^ 63 }
    requires node_size { N < 2 ^ 63 }
{
    let mut sheet = [0u8; S];
    let mut nodes = [0u8; N];
    run_all(rt, input, &mut sheet, &mut nodes)
}

// Room for a sheet that is one byte too long, and for 65,536 nodes.
fn main(rt: HostRuntime) -> io::Result<()> {
    let mut input = [0u8; 131072];
    let n = read_full(&mut rt.reader(), &mut input)?;
    run_in::<1048577, 4194304>(&rt, &input[..n])
}
