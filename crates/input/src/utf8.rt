// Well-formed UTF-8.
ghost use Rattle.std.specs.Prelude.{◌≡◌, true, ◌+◌, ◌-◌, ◌<◌, ◌≤◌, length, take, drop};
ghost use Rattle.spec.specs.Bytes.{every};
ghost use Rattle.spec.specs.Utf8.{is_utf8};
ghost use Rattle.input.specs.Lead.{make, lead_of, next_of, is_ascii, Behind};

// What the first byte of a sequence says of the rest: how many bytes follow, and the range of the first of them.
#[derive(Clone, Copy)]
pub struct Lead {
    pub more: u8,
    pub low: u8,
    pub high: u8,
}

// Nothing is due.
const START: Lead = Lead {
    more: 0,
    low: 0x80,
    high: 0xBF,
};

// The rows of the Unicode Standard's Table 3-7; `None` where no sequence begins with the byte. They are read here and not by
// the library's `str::from_utf8`, so that an edit can change a row (`surrogate`), and blocks of ASCII are passed at once. The
// bytes that are met most come first: one match over all rows would be a jump through a table for each byte.
fn lead_of(b: u8) -> Option<Lead>
    ensures { result ≡ lead_of b }
{
    let (more, low, high) = if b < 0x80 {
        (0, 0x80, 0xBF)
    } else if b < 0xC2 {
        return None;
    } else if b < 0xE0 {
        (1, 0x80, 0xBF)
    } else if b < 0xF0 {
        match b {
            0xE0 => (2, 0xA0, 0xBF),
            0xED => (2, 0x80, 0x9F),
            _ => (2, 0x80, 0xBF),
        }
    } else {
        match b {
            0xF0 => (3, 0x90, 0xBF),
            0xF1..=0xF3 => (3, 0x80, 0xBF),
            0xF4 => (3, 0x80, 0x8F),
            _ => return None,
        }
    };
    Some(Lead { more, low, high })
}

// What is due behind a byte, where `due` is due before it; `None` where the byte is wrong.
fn next_byte(due: Lead, b: u8) -> Option<Lead>
    ensures { result ≡ next_of due b }
{
    if due.more == 0 {
        return lead_of(b);
    }
    if b < due.low || due.high < b {
        return None;
    }
    Some(Lead {
        more: due.more - 1,
        low: 0x80,
        high: 0xBF,
    })
}

// Whether all bytes are ASCII: without an early exit, so that many bytes can be tested at once.
fn is_ascii(s: &[u8]) -> bool
    ensures { result ≡ every is_ascii s.now }
{
    let mut all = true;
    for b in s {
        all = all & (*b < 0x80);
    }
    all
}

// What is due behind a part, where `before` is due before it; `None` where a byte is wrong. An ASCII byte where nothing is
// due leaves nothing due.
fn due_behind(before: Lead, part: &[u8]) -> Option<Lead>
    ensures { Behind before part.now result }
{
    let mut due = before;
    for b in part {
        if due.more == 0 && *b < 0x80 {
            continue;
        }
        due = next_byte(due, *b)?;
    }
    Some(due)
}

// `due_behind` for a block; one of 16 bytes of ASCII is skipped.
fn due_behind_block(before: Lead, block: &[u8]) -> Option<Lead>
    ensures { Behind before block.now result }
{
    if before.more == 0 && is_short_ascii(block, block.len()) {
        return Some(before);
    }
    due_behind(before, block)
}

// What is due at the end; `None` where a byte is wrong. The last block may be shorter than 16 bytes. One loop takes them all: where
// a block's length is a constant, the compiler takes more instructions for each byte.
fn due_at_end(s: &[u8]) -> Option<Lead>
    ensures { Behind (make 0 0x80 0xBF) s.now result }
{
    let mut due = START;
    let mut rest = s;
    while !rest.is_empty() {
        let (block, behind) = rest.split_at(rest.len().min(16));
        due = due_behind_block(due, block)?;
        rest = behind;
    }
    Some(due)
}

// `is_utf8` for bytes of which some are not ASCII.
fn is_well_formed(s: &[u8]) -> bool
    ensures { result ≡ is_utf8 s.now }
{
    match due_at_end(s) {
        Some(due) => due.more == 0,
        None => false,
    }
}

pub fn is_utf8(s: &[u8]) -> bool
    ensures { result ≡ is_utf8 s.now }
{
    is_ascii(s) || is_well_formed(s)
}

// Whether the first n bytes are more than 16, and known to be ASCII. The first block of 16 bytes is tested alone, so that a text
// that begins with other bytes is left at once; then all blocks are. The last may reach behind the first n, and where it would
// reach behind the end of `s`, nothing is known.
fn is_ascii_part(s: &[u8], n: usize) -> bool
    requires { n ≤ length s.now }
    ensures { result ≡ true → every is_ascii (take n s.now) ≡ true }
{
    let blocks = n.div_ceil(16);
    16 < n && blocks <= s.len() / 16 && is_ascii(&s[..16]) && is_ascii(&s[..blocks * 16])
}

// Whether the first n bytes are at most 16, and ASCII with those behind them up to 16.
fn is_short_ascii(s: &[u8], n: usize) -> bool
    ensures { result ≡ true → every is_ascii (take n s.now) ≡ true }
{
    match s.first_chunk::<16>() {
        Some(block) => n <= 16 && is_ascii(block),
        None => false,
    }
}

// `is_utf8` for the first n bytes. Most fields are short, and one block of 16 bytes, which may reach behind the first n, holds all
// of theirs.
pub fn is_utf8_part(s: &[u8], n: usize) -> bool
    requires { n ≤ length s.now }
    ensures { result ≡ is_utf8 (take n s.now) }
{
    is_short_ascii(s, n) || is_ascii_part(s, n) || is_well_formed(&s[..n])
}
