// The leaves of elements/table.rs.
ghost use Rattle.std.specs.Prelude.{◌≡◌, ◌+◌, ◌≤◌, length, false};
ghost use Rattle.spec.specs.Md.Elements.Table as def;
ghost use Rattle.marks.specs.Pipes.{bare_pipe, escaped_byte, PutBefore};
ghost use Rattle.text.specs.Texts.{WritesTo};
ghost use Rattle.text.specs.Trimmed.{Trimmed};

use crate::emphasis::backslashes;
use normalized::text_utils::trim_trailing_space;
use text::buffer::{Full, ends_with, ends_with_byte};
use text::text::Text;

// How long `<br>` is.
const BREAK_LEN: usize = 4;

// `\<br>` is text, `\\<br>` an escaped backslash and a line break.
pub fn ends_with_cell_break(s: &[u8]) -> bool
    ensures { result ≡ def.ends_with_cell_break s.now }
{
    if !ends_with(s, b"<br>") {
        return false;
    }
    let n = s.len() - BREAK_LEN;
    backslashes(&s[..n]) % 2 == 0
}

pub fn add_cell_block_break(text: &mut Text, linebreak: &[u8]) -> Result<(), Full>
    ensures { WritesTo text.old text.new result (def.add_cell_block_break linebreak.now) }
{
    text.len = trim_trailing_space(text.bytes());
    if (text.len == 0) | ends_with_cell_break(text.bytes()) {
        return Ok(());
    }
    text.push_all(linebreak)
}

// How long s is without the line breaks at its end and the blanks before each.
pub fn trim_trailing_cell_break(s: &[u8]) -> usize
    ensures { Trimmed s.now result (def.without_breaks (length s.now) s.now) }
{
    let mut rest = s;
    while ends_with_cell_break(rest) {
        let front = &rest[..rest.len() - BREAK_LEN];
        rest = &front[..trim_trailing_space(front)];
    }
    rest.len()
}

// Whether s ends with a pipe that has no backslash just before it.
fn ends_with_bare_pipe(s: &[u8]) -> bool
    ensures { result ≡ bare_pipe s.now }
{
    match s {
        [before @ .., last] if *last == b'|' => !ends_with_byte(before, b'\\'),
        _ => false,
    }
}

// How many backslashes the pipes of s gain.
fn count_bare_pipes(s: &[u8]) -> usize
    ensures { length s.now + result ≡ length (def.pipes_escaped false s.now) }
{
    (0..s.len())
        .filter(|i| ends_with_bare_pipe(&s[..*i + 1]))
        .count()
}

// Puts b before `at`, behind a backslash if it is escaped; answers with where they begin.
fn put_before(room: &mut [u8], at: usize, escaped: bool, b: u8) -> usize
    requires { (length (escaped_byte escaped b) ≤ at) × (at ≤ length room.old) }
    ensures { PutBefore room.old room.new at result (escaped_byte escaped b) }
{
    room[at - 1] = b;
    if escaped {
        room[at - 2] = b'\\';
        at - 2
    } else {
        at - 1
    }
}

// The bytes move up from the last on, so that no other memory is used.
pub fn escape_table_cell_inplace(text: &mut Text) -> Result<(), Full>
    ensures { WritesTo text.old text.new result def.escape_table_cell_inplace }
{
    let extra = count_bare_pipes(text.bytes());
    if extra == 0 {
        return Ok(());
    }
    if text.room.len() - text.len < extra {
        return Err(Full);
    }
    let mut at = text.len + extra;
    for i in (0..text.len).rev() {
        let bare = ends_with_bare_pipe(&text.bytes()[..i + 1]);
        let b = text.room[i];
        at = put_before(text.room, at, bare, b);
    }
    text.len += extra;
    Ok(())
}
