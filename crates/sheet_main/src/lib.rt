// The program `sheet`: a sheet from standard input as Markdown, from node 0 without it, with the default skip list.

#![tactic(auto)]

ghost use Rattle.sheet_main.specs.Reply.{reply, Is};

use input::refusal::Refusal;
use md::call::serialize_md;
use reading::read_full;
use std::io;
use std::io::{Input, Read};
use text::buffer::front;

// The bytes of each of the three memories.
const MEMORY: usize = 65_536;

// Whether the input has a byte more.
fn has_more<R: Read>(input: &mut R) -> io::Result<bool> {
    let mut next = [0u8; 1];
    Ok(read_full(input, &mut next)? != 0)
}

// The answer to a sheet; number 1, and no call, where the input is longer than the sheet that was read.
#[tactic(auto, unfolding(crate::specs::Reply::reply, spec::specs::Call::refused))]
pub fn answer_to(
    sheet: &[u8],
    longer: bool,
    nodes: &mut [u8],
    text: &mut [u8],
) -> Result<usize, Refusal>
    ensures { Is (reply longer sheet.now nodes.old text.old) result nodes.new text.new }
{
    if longer {
        return Err(Refusal::SheetLength);
    }
    serialize_md(sheet, None, 0, false, nodes, text)
}

// The text with no line end added, or `no ` and the number in a line.
fn print_answer(rt: &impl Print, answer: Result<usize, Refusal>, text: &[u8]) -> io::Result<()> {
    match answer {
        Ok(n) => rt.write_all(front(text, n)),
        Err(refusal) => println!(rt; "no {refusal}"),
    }
}

// Reads at most as many bytes as the memory has, and asks for one more only where they are as many.
pub fn run(rt: &(impl Input + Print)) -> io::Result<()> {
    let mut sheet = [0u8; MEMORY];
    let mut nodes = [0u8; MEMORY];
    let mut text = [0u8; MEMORY];
    let mut input = rt.reader();
    let n = read_full(&mut input, &mut sheet)?;
    let longer = n == sheet.len() && has_more(&mut input)?;
    let answer = answer_to(&sheet[..n], longer, &mut nodes, &mut text);
    print_answer(rt, answer, &text)
}
