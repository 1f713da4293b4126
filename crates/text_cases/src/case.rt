// A line of standard input as a stored case.
ghost use Rattle.std.specs.Prelude.{◌≤◌, ◌<◌, length, IfSome};

use text::buffer::{Full, Wrote};

// No number of a case is much larger.
const LARGE: usize = 1_000_000_000;

// A stored case. The byte strings are in hexadecimal.
#[derive(Clone, Copy)]
pub struct Line<'a> {
    pub file: &'a [u8],
    pub name: &'a [u8],
    pub room: usize,
    pub flags: usize,
    pub x: usize,
    pub y: usize,
    pub text: &'a [u8],
    pub a: &'a [u8],
    pub b: &'a [u8],
    pub answer: Wrote,
    pub expected: &'a [u8],
}

impl<'a> Line<'a> {
    // What the line does not have is empty.
    pub fn new(line: &'a [u8]) -> Line<'a> {
        let mut fields = line.split(|b| *b == b' ');
        Line {
            file: fields.next().unwrap_or(b""),
            name: fields.next().unwrap_or(b""),
            room: number(fields.next().unwrap_or(b"")),
            flags: number(fields.next().unwrap_or(b"")),
            x: number(fields.next().unwrap_or(b"")),
            y: number(fields.next().unwrap_or(b"")),
            text: fields.next().unwrap_or(b""),
            a: fields.next().unwrap_or(b""),
            b: fields.next().unwrap_or(b""),
            answer: answer(fields.next().unwrap_or(b"")),
            expected: fields.next().unwrap_or(b""),
        }
    }
}

fn answer(field: &[u8]) -> Wrote {
    match field {
        b"F" => Err(Full),
        _ => Ok(number(field)),
    }
}

// The number that a field says in decimal, of as many bytes as are digits and keep it small.
pub fn number(field: &[u8]) -> usize {
    let mut n: usize = 0;
    for b in field {
        if !b.is_ascii_digit() || LARGE < n {
            break;
        }
        n = n * 10 + usize::from(*b - b'0');
    }
    n
}

// The value of a hexadecimal digit.
fn digit(b: u8) -> Option<u8>
    ensures { IfSome result (λ d. d < 16) }
{
    match b {
        b'0'..=b'9' => Some(b - b'0'),
        b'a'..=b'f' => Some(b - b'a' + 10),
        _ => None,
    }
}

// The bytes that a field says in hexadecimal, as far as it does and `out` has room; they stand at the front of `out`.
pub fn decode<'a>(field: &[u8], out: &'a mut [u8]) -> &'a [u8]
    ensures { length result.now ≤ length out.old }
{
    let mut n = 0;
    for pair in field.chunks_exact(2) {
        let (Some(high), Some(low), Some(byte)) = (digit(pair[0]), digit(pair[1]), out.get_mut(n))
        else {
            break;
        };
        *byte = high * 16 + low;
        n += 1;
    }
    &out[..n]
}
