// Replays the cases of standard input, a line each, on the leaf functions of normalized, marks and lists_links. A line has eleven fields with a
// blank between them: the Rust's file and function (or a part of one), the room of the text, three numbers, the text and two further byte strings in
// hexadecimal, the answer (a number, or F where there is no room or no number), the bytes that stand at the front of the text
// then. Writes each line whose answer or bytes are others, then how many lines there are and how many of them differ.
// tools/text_cases.py makes the lines.

#![tactic(auto)]

mod case;
mod leaf;
mod setup;

ghost use Rattle.std.specs.Prelude.{◌≡◌, ◌<◌, length, IfSome};

use case::{Line, decode};
use leaf::run;
use reading::read_full;
use setup::Case;
use std::io;
use text::buffer::{Full, Wrote};
use text::text::Text;

// No text of a case is longer.
const MEMORY: usize = 4096;

// What the leaf of a line answers, if the memory has the room. The text stands at the front of the memory.
fn answer_to(line: &Line, memory: &mut [u8], a: &mut [u8], b: &mut [u8]) -> Option<Wrote> {
    let len = decode(line.text, memory).len();
    let room = memory.get_mut(..line.room)?;
    if room.len() < len {
        return Some(Err(Full));
    }
    let mut text = Text { room, len };
    let case = Case {
        flags: line.flags,
        x: line.x,
        y: line.y,
        a: decode(line.a, a),
        b: decode(line.b, b),
    };
    Some(run(line.file, line.name, &mut text, case))
}

// Whether the leaf of a line answers and writes what the line says.
fn replay(line: &Line) -> bool {
    let mut memory = [0u8; MEMORY];
    let mut a = [0u8; MEMORY];
    let mut b = [0u8; MEMORY];
    answer_to(line, &mut memory, &mut a, &mut b) == Some(line.answer)
        && memory.starts_with(decode(line.expected, &mut a))
}

// The first line, and what stands behind it.
fn first_line(lines: &[u8]) -> Option<(&[u8], &[u8])>
    ensures { IfSome result (λ r. length r.1.now < length lines.now) }
{
    match lines.iter().position(|b| *b == b'\n') {
        Some(end) => Some((&lines[..end], &lines[end + 1..])),
        None if lines.is_empty() => None,
        None => Some((lines, b"")),
    }
}

// Replays all lines, and writes those that differ.
fn replay_lines(rt: &impl Print, lines: &[u8]) -> io::Result<()> {
    let mut count: u64 = 0;
    let mut differ: u64 = 0;
    let mut rest = lines;
    while let Some((line, behind)) = first_line(rest) {
        count += 1;
        if !replay(&Line::new(line)) {
            differ += 1;
            rt.write_all(line)?;
            rt.write_all(b"\n")?;
        }
        rest = behind;
    }
    println!(rt; "{count} cases, {differ} differ")
}

fn space() -> [u8; 524288]
    ensures { 524288 ≡ length result }
{
    [0; 524288]
}

fn main(rt: HostRuntime) -> io::Result<()> {
    let mut lines = space();
    let size = read_full(&mut rt.reader(), &mut lines)?;
    replay_lines(&rt, &lines[..size])
}
