// Makes the calls of a stored list, with memories that hold other bytes before, and compares the answer and every byte of both
// memories with what the list says. Writes which stored calls differ, then how many calls were made and how many of them differ.
// tools/md_cases.py makes the list.

#![tactic(auto)]

mod list;

ghost use Rattle.std.specs.Prelude.{◌≡◌, ◌≤◌, ◌<◌, ◌^◌, length};

use input::refusal::Refusal;
use list::{Call, HEAD, read_call};
use md::call::serialize_md;
use reading::read_full;
use std::io;

// The bytes of each memory; a call is lent some of them.
const MEMORY: usize = 65_536;

// What the memories hold before a call.
const NODES_BEFORE: u8 = 0xAA;

const TEXT_BEFORE: u8 = 0x55;

// How much longer than the peak the larger room is.
const MORE: usize = 100;

fn is_filled(memory: &[u8], b: u8) -> bool {
    memory.iter().all(|x| *x == b)
}

// Whether the memory holds the text from its start and zeros behind.
fn holds(memory: &[u8], text: &[u8]) -> bool {
    memory
        .strip_prefix(text)
        .is_some_and(|behind| is_filled(behind, 0))
}

// Whether the memories are as the question that says no leaves them: untouched, or all zero after the last.
fn is_left(refusal: Refusal, nodes: &[u8], text: &[u8]) -> bool {
    if refusal == Refusal::TextMemory {
        return is_filled(nodes, 0) && is_filled(text, 0);
    }
    is_filled(nodes, NODES_BEFORE) && is_filled(text, TEXT_BEFORE)
}

// Whether a call gave what is expected.
fn is_right(
    answer: Result<usize, Refusal>,
    expected: Result<&[u8], u8>,
    nodes: &[u8],
    text: &[u8],
) -> bool {
    match (answer, expected) {
        (Ok(n), Ok(written)) => n == written.len() && is_filled(nodes, 0) && holds(text, written),
        (Err(refusal), Err(number)) => {
            refusal.number() == number && is_left(refusal, nodes, text)
        }
        _ => false,
    }
}

// Whether the call gives what is expected, in the first bytes of the memories: of the text memory, this room.
fn replay(
    call: &Call,
    room: usize,
    expected: Result<&[u8], u8>,
    nodes: &mut [u8],
    text: &mut [u8],
) -> bool {
    if nodes.len() < call.memory || text.len() < room {
        return false;
    }
    let nodes = &mut nodes[..call.memory];
    let text = &mut text[..room];
    nodes.fill(NODES_BEFORE);
    text.fill(TEXT_BEFORE);
    let answer = serialize_md(
        call.sheet,
        call.skip,
        call.start,
        call.with_node,
        nodes,
        text,
    );
    is_right(answer, expected, nodes, text)
}

// How many calls were made, and how many of them differ.
#[derive(Clone, Copy)]
struct Tally {
    calls: u64,
    differ: u64,
}

// A stored call. One that gives a text is made with its peak as the room, with more, and with one byte less.
fn replay_all(call: &Call, nodes: &mut [u8], text: &mut [u8]) -> Tally
    requires { call.now.room < 2 ^ 32 }
    ensures { (result.calls ≤ 3) × (result.differ ≤ 3) }
{
    let exact = u64::from(!replay(call, call.room, call.expected, nodes, text));
    if call.expected.is_err() {
        return Tally {
            calls: 1,
            differ: exact,
        };
    }
    let larger = u64::from(!replay(call, call.room + MORE, call.expected, nodes, text));
    if call.room == 0 {
        return Tally {
            calls: 2,
            differ: exact + larger,
        };
    }
    let no_room = Err(Refusal::TextMemory.number());
    let smaller = u64::from(!replay(call, call.room - 1, no_room, nodes, text));
    Tally {
        calls: 3,
        differ: exact + larger + smaller,
    }
}

// The calls of the list, or as many as there are heads of.
fn replay_list(
    rt: &impl Print,
    list: &[u8],
    zeros: &[u8],
    nodes: &mut [u8],
    text: &mut [u8],
) -> io::Result<()> {
    let Some((count, heads)) = list.split_first_chunk::<4>() else {
        return Ok(());
    };
    let count = u32::from_le_bytes(*count) as usize;
    let mut calls: u64 = 0;
    let mut differ: u64 = 0;
    for (k, head) in heads.chunks_exact(HEAD).take(count).enumerate() {
        let tally = replay_all(&read_call(list, head, zeros), nodes, text);
        calls += tally.calls;
        differ += tally.differ;
        if tally.differ != 0 {
            println!(rt; "stored call {k} differs")?;
        }
    }
    println!(rt; "{calls} calls, {differ} differ")
}

// As many bytes as a sheet may have, and one more.
fn space() -> [u8; 1048577]
    ensures { 1048577 ≡ length result }
{
    [0; 1048577]
}

fn main(rt: HostRuntime) -> io::Result<()> {
    let mut list = space();
    let zeros = space();
    let mut nodes = [0u8; MEMORY];
    let mut text = [0u8; MEMORY];
    let n = read_full(&mut rt.reader(), &mut list)?;
    replay_list(&rt, &list[..n], &zeros, &mut nodes, &mut text)
}
