// The stored list: how many calls, a head for each, and the bytes that the heads point to.
ghost use Rattle.std.specs.Prelude.{◌≡◌, ◌+◌, ◌≤◌, ◌<◌, ◌^◌, length};

use tree::memory::read;

// The length of a head.
pub const HEAD: usize = 38;

// The flags of a head: the skip list is an own one, the start node is written too, the sheet is all zeros.
const OWN: u8 = 1;

const WITH_NODE: u8 = 2;

const ZEROS: u8 = 4;

// Where a head has its other parts. The last three are places and lengths in the list.
const NUMBER: usize = 1;

const START: usize = 2;

const MEMORY: usize = 6;

const ROOM: usize = 10;

const SHEET: usize = 14;

const SKIP_LIST: usize = 22;

const TEXT: usize = 30;

// A stored call, and what it gives: a text, whose peak is the room, or the number of the question that says no.
#[derive(Clone, Copy)]
pub struct Call<'a> {
    pub sheet: &'a [u8],
    pub skip: Option<&'a [u8]>,
    pub start: usize,
    pub with_node: bool,
    pub memory: usize,
    pub room: usize,
    pub expected: Result<&'a [u8], u8>,
}

// The call of a head; `zeros` are as many as a sheet may have, and one more.
pub fn read_call<'a>(list: &'a [u8], head: &[u8], zeros: &'a [u8]) -> Call<'a>
    requires { length head.now ≡ 38 }
    ensures { result.room < 2 ^ 32 }
{
    let flags = head[0];
    Call {
        sheet: if flags & ZEROS == 0 {
            pointed(list, head, SHEET)
        } else {
            part(zeros, 0, read::<4>(head, SHEET + 4))
        },
        skip: (flags & OWN != 0).then_some(pointed(list, head, SKIP_LIST)),
        start: read::<4>(head, START),
        with_node: flags & WITH_NODE != 0,
        memory: read::<4>(head, MEMORY),
        room: read::<4>(head, ROOM),
        expected: match head[NUMBER] {
            0 => Ok(pointed(list, head, TEXT)),
            number => Err(number),
        },
    }
}

// n bytes from `from` on, or none where there are fewer.
pub fn part(s: &[u8], from: usize, n: usize) -> &[u8] {
    s.get(from..).and_then(|rest| rest.get(..n)).unwrap_or(b"")
}

// The bytes of the list that the two numbers at `at` of a head point to.
pub fn pointed<'a>(list: &'a [u8], head: &[u8], at: usize) -> &'a [u8]
    requires { at + 8 ≤ length head.now }
{
    part(list, read::<4>(head, at), read::<4>(head, at + 4))
}
