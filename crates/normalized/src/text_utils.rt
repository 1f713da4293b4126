// text_utils.rs. What each function writes is specs/Md/TextUtils.antt of the crate spec.
ghost use Rattle.std.specs.Prelude.{◌≡◌, ◌||◌, Ok};
ghost use Rattle.std.proofs.Math.Seq.{slice};
ghost use Rattle.spec.specs.Bytes.{ascii, ends_with, same};
ghost use Rattle.spec.specs.Md.LineBreak.{linebreak, double_linebreak};
ghost use Rattle.spec.specs.Out.{push};
ghost use Rattle.spec.specs.Md.TextUtils as def;
ghost use Rattle.spec.specs.declared.ctx.FormatOpts as Opts;
ghost use Rattle.text.specs.Trimmed.{Trimmed};
ghost use Rattle.text.specs.Texts.{WritesTo};

use text::buffer::{
    Full, all_in, drop_front, ends_with, ends_with_byte, ends_with_either, ends_with_white,
    trim_end_matches, trim_start_matches,
};
use text::class::{Blank, Digit, InWord, White};
use text::text::Text;

// An ordered-list marker like `3.` or `12)`.
pub fn is_ordered_list_marker(chunk: &[u8]) -> bool
    ensures { result ≡ def.is_ordered_list_marker chunk.now }
{
    if chunk.len() < 2 {
        return false;
    }
    if !ends_with_either(chunk, b'.', b')') {
        return false;
    }
    let n = chunk.len() - 1;
    all_in::<Digit>(&chunk[..n])
}

// The marker of a list item.
#[tactic(auto, using(input::proofs::Splitting::same_eq))]
fn is_marker(word: &[u8]) -> bool
    ensures { result ≡ same word.now (ascii "-") || (same word.now (ascii "+") || def.is_ordered_list_marker word.now) }
{
    word == b"-".as_slice() || word == b"+".as_slice() || is_ordered_list_marker(word)
}

fn before_marker(stem: &[u8]) -> usize
    ensures { Trimmed stem.now result (def.before_marker stem.now) }
{
    if !ends_with_byte(stem, b' ') {
        return stem.len();
    }
    let n = stem.len() - 1;
    let b = trim_end_matches::<InWord>(&stem[..n]);
    if is_marker(&stem[b..n]) {
        b
    } else {
        stem.len()
    }
}

fn at_indent(text: &[u8]) -> bool
    ensures { result ≡ def.at_indent text.now }
{
    let n = trim_end_matches::<Blank>(text);
    if n == 0 {
        return true;
    }
    ends_with_byte(&text[..n], b'\n')
}

// Whether the text ends with one to nine digits that begin a line or an item.
pub fn ends_with_marker_digits(text: &[u8]) -> bool
    ensures { result ≡ def.ends_with_marker_digits text.now }
{
    let n = trim_end_matches::<Digit>(text);
    let d = text.len() - n;
    if d < 1 {
        return false;
    }
    if 9 < d {
        return false;
    }
    let m = before_marker(&text[..n]);
    at_indent(&text[..m])
}

// Escapes a `!` at the end, so that a `[` behind it makes no image.
pub fn escape_trailing_bang(text: &mut Text) -> Result<(), Full>
    ensures { WritesTo text.old text.new result def.escape_trailing_bang }
{
    if !ends_with_byte(text.bytes(), b'!') {
        return Ok(());
    }
    text.insert_byte(text.len - 1, b'\\')
}

pub fn trim_trailing_space(s: &[u8]) -> usize
    ensures { Trimmed s.now result (def.trim_blanks s.now) }
{
    trim_end_matches::<Blank>(s)
}

pub fn add_linebreaks(text: &mut Text, linebreak: &[u8], end: &[u8]) -> Result<(), Full>
    ensures { WritesTo text.old text.new result (def.add_linebreaks linebreak.now end.now) }
{
    text.len = trim_trailing_space(text.bytes());
    for _ in 0..end.len() {
        if ends_with(text.bytes(), end) {
            return Ok(());
        }
        text.push_all(linebreak)?;
    }
    Ok(())
}

pub fn push_block_space(text: &mut Text) -> Result<(), Full>
    ensures { WritesTo text.old text.new result def.push_block_space }
{
    if (text.len == 0) | ends_with_white(text.bytes()) {
        return Ok(());
    }
    text.push_byte(b' ')
}

// Trims white bytes at both ends; the rest moves to the front.
pub fn trim_space(text: &mut Text)
    ensures { WritesTo text.old text.new (Ok tt) def.trim_space }
{
    let s = text.bytes();
    let n = trim_end_matches::<White>(s);
    let k = trim_start_matches::<White>(&s[..n]);
    drop_front(text.room, k, n - k);
    text.len = n - k;
}

// Appends a line break.
pub fn push_linebreak(text: &mut Text, br: bool) -> Result<(), Full>
    ensures { WritesTo text.old text.new result (push (linebreak br)) }
{
    text.push_all(if br { b"<br>" } else { b"\n" })
}

// Whether s ends with the line break that ends a block.
pub fn ends_with_double_linebreak(s: &[u8], br: bool) -> bool
    ensures { result ≡ ends_with (double_linebreak br) s.now }
{
    if br {
        ends_with(s, b"<br><br>")
    } else {
        ends_with(s, b"\n\n")
    }
}
