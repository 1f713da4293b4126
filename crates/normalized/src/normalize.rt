// push_normalized_text of text_utils.rs with push_escaped_chunk, for a text of another slice. Where words begin and end, and which
// escapes the first word has at the beginning of a line, says the layout; elsewhere each byte adds itself, a backslash and
// itself, or for the last of some white bytes a blank.
ghost use Rattle.std.specs.Prelude.{◌≡◌, List, ◌∷◌, ◌++◌, [], cond, ℕ, ◌+◌, ◌≤◌, ◌<◌, length, take, drop};
ghost use Rattle.std.proofs.Math.Seq.{slice};
ghost use Rattle.spec.specs.Bytes.{ascii};
ghost use Rattle.spec.specs.Out.{push};
ghost use Rattle.spec.specs.Md.TextUtils as def;
ghost use Rattle.spec.specs.declared.ctx.FormatOpts as Opts;
ghost use Rattle.text.specs.Flow.{added, flow, flow_before};
ghost use Rattle.text.specs.Texts.{WritesTo};
ghost use Rattle.text.specs.Writes.{Writes};
ghost use Rattle.normalized.specs.Layout.{Behind, front};

use crate::fast_copy::{
    Block, block_of, is_sign, is_verbatim, plain_blocks, push_block, push_part,
};
use crate::layout::{Layout, lay_out};
use spec::ctx::FormatOpts;
use text::buffer::{Full, Wrote};
use text::class::{ByteClass, Ordinary, White};
use text::text::Text;

// The byte behind the one at i; a blank where there is none.
pub fn next_of(s: &[u8], i: usize) -> u8
    requires { i < length s.now }
    ensures { Behind result (drop (i + 1) s.now) }
{
    if i + 1 < s.len() { s[i + 1] } else { b' ' }
}

// Appends a byte, behind a backslash if it is escaped.
pub fn push_escaped(text: &mut Text, escaped: bool, b: u8) -> Result<(), Full>
    ensures { WritesTo text.old text.new result (push (cond escaped (ascii "\\") [] ++ (b ∷ []))) }
{
    text.push_byte_if(b'\\', escaped)?;
    text.push_byte(b)
}

// Appends what b adds, `next` behind it: for a white byte a blank, if a word begins there.
pub fn push_byte_of(text: &mut Text, b: u8, next: u8, escape: bool) -> Result<(), Full>
    ensures { (rest : List ℕ) → Behind next rest → WritesTo text.old text.new result (push (added escape b rest)) }
{
    if Ordinary::has(b) {
        return text.push_byte(b);
    }
    if White::has(b) {
        return text.push_byte_if(b' ', !White::has(next));
    }
    push_escaped(text, escape & is_sign(b, next), b)
}

// Appends what the first n bytes of s add, byte by byte. Without the hints here and at its two callers, texts that go byte by byte
// take 3 in a hundred more instructions.
#[inline(always)]
fn push_each(text: &mut Text, s: &[u8], n: usize, escape: bool) -> Result<(), Full>
    requires { n ≤ length s.now }
    ensures { WritesTo text.old text.new result (push (flow_before escape (take n s.now) (drop n s.now))) }
{
    for i in 0..n {
        push_byte_of(text, s[i], next_of(s, i), escape)?;
    }
    Ok(())
}

// `push_each` for the text of `len` bytes in this room. Of a text of its own the length stays in a register from byte to byte; in
// the `Text` of the caller it is read and written for each, which takes 13 in a hundred more instructions and a fifth more time.
#[inline(always)]
fn push_each_in(room: &mut [u8], len: usize, s: &[u8], n: usize, escape: bool) -> Wrote
    requires { (len ≤ length room.old) × (n ≤ length s.now) }
    ensures { Writes (length room.old) room.new result (push (flow_before escape (take n s.now) (drop n s.now)) (take len room.old)) }
{
    let mut text = Text { room, len };
    push_each(&mut text, s, n, escape)?;
    Ok(text.len)
}

// Appends what the first n bytes of s add.
#[inline(always)]
fn push_bytes(text: &mut Text, s: &[u8], n: usize, escape: bool) -> Result<(), Full>
    requires { n ≤ length s.now }
    ensures { WritesTo text.old text.new result (push (flow_before escape (take n s.now) (drop n s.now))) }
{
    text.len = push_each_in(text.room, text.len, s, n, escape)?;
    Ok(())
}

// `push_bytes` without a branch where 16 bytes, signs aside, add themselves.
fn push_stretch(text: &mut Text, s: &[u8], n: usize, escape: bool) -> Result<(), Full>
    requires { n ≤ length s.now }
    ensures { WritesTo text.old text.new result (push (flow_before escape (take n s.now) (drop n s.now))) }
{
    if let Some(block) = s.first_chunk::<17>()
        && let Some(own) = s.first_chunk::<16>()
        && n == 16
        && 32 <= text.room.len() - text.len
    {
        let Block { signs, even } = block_of(block, escape);
        if even {
            text.len = push_block(own, text.room, text.len, signs);
            return Ok(());
        }
    }
    push_bytes(text, s, n, escape)
}

// Appends the first n bytes, if there are any. Between stretches there often are none: without the test, texts with many signs take
// 2 to 6 in a hundred more instructions.
fn push_some(text: &mut Text, s: &[u8], n: usize) -> Result<(), Full>
    requires { n ≤ length s.now }
    ensures { WritesTo text.old text.new result (push (take n s.now)) }
{
    if n != 0 {
        text.push_all(&s[..n])?;
    }
    Ok(())
}

// Appends what the bytes of s add: plain ones at once, the others in stretches.
fn push_flow(text: &mut Text, s: &[u8], escape: bool) -> Result<(), Full>
    ensures { WritesTo text.old text.new result (push (flow escape s.now)) }
{
    let mut rest = s;
    while !rest.is_empty() {
        let k = plain_blocks(rest, escape);
        push_some(text, rest, k)?;
        rest = &rest[k..];
        let n = rest.len().min(16);
        push_stretch(text, rest, n, escape)?;
        rest = &rest[n..];
    }
    Ok(())
}

// Appends what stands before the byte at `mark`.
fn push_front(text: &mut Text, s: &[u8], l: Layout, escape: bool) -> Result<(), Full>
    requires { (l.at ≤ l.mark) × (l.mark ≤ length s.now) }
    ensures { WritesTo text.old text.new result (push (front escape s.now l)) }
{
    let Layout {
        lead,
        at,
        mark,
        sign,
        ..
    } = l;
    text.push_byte_if(lead, lead != 0)?;
    push_bytes(text, &s[at..], mark - at, escape)?;
    text.push_byte_if(b'\\', sign)
}

// Appends a text, its words parted by blanks.
pub fn push_words(text: &mut Text, s: &[u8], opts: FormatOpts) -> Result<(), Full>
    ensures { WritesTo text.old text.new result (def.push_normalized_text s.now opts) }
{
    let l = lay_out(text.bytes(), s, opts);
    let escape = !opts.skip_escape;
    push_front(text, s, l, escape)?;
    push_flow(text, &s[l.mark..], escape)?;
    text.push_byte_if(b' ', l.last)
}

// `push_words` for the first n bytes: few are tested and copied with the bytes behind them, as one block. The options that matter
// are passed one by one: a record would be copied through memory.
pub fn push_text_part(
    text: &mut Text,
    s: &[u8],
    n: usize,
    inline: bool,
    skip_escape: bool,
    list_item: bool,
) -> Result<(), Full>
    requires { n ≤ length s.now }
    ensures { (opts : Opts.FormatOpts) → opts.inline ≡ inline → opts.skip_escape ≡ skip_escape → opts.list_item ≡ list_item → WritesTo text.old text.new result (def.push_normalized_text (take n s.now) opts) }
{
    if is_verbatim(text.bytes(), s, n, skip_escape, list_item) {
        return push_part(text, s, n);
    }
    let mut opts = FormatOpts::new();
    opts.inline = inline;
    opts.skip_escape = skip_escape;
    opts.list_item = list_item;
    // a new slice: the address of `s` itself would keep it in memory
    push_words(text, &s[..n], opts)
}

// Appends a text of another slice, its words parted by blanks.
pub fn push_normalized_text(
    text: &mut Text,
    new_text: &[u8],
    f_opts: FormatOpts,
) -> Result<(), Full>
    ensures { WritesTo text.old text.new result (def.push_normalized_text new_text.now f_opts) }
{
    let n = new_text.len();
    let FormatOpts {
        inline,
        skip_escape,
        list_item,
        ..
    } = f_opts;
    push_text_part(text, &new_text[..n], n, inline, skip_escape, list_item)
}
