// write_list_item_indented of elements/list.rs: a block that is written from column zero is appended line by line, indented.
ghost use Rattle.std.specs.Prelude.{◌≡◌, ◌+◌, ◌≤◌, max, length, take, drop};
ghost use Rattle.spec.specs.Bytes.{null, parts, split, trim_end};
ghost use Rattle.spec.specs.Out.{push};
ghost use Rattle.spec.specs.Md.Elements.List as def;
ghost use Rattle.lists_links.specs.Items.{item_of, line_byte, block_text, own_block, indented_block};
ghost use Rattle.text.specs.Source.{WritesIn};
ghost use Rattle.text.specs.Texts.{bytes, WritesTo};
ghost use Rattle.text.specs.Trimmed.{Trimmed};

use crate::list::{Item, push_line_start};
use normalized::text_utils::push_linebreak;
use text::buffer::{
    Full, Wrote, all_in, ends_with_byte, lift, trim_end_matches, trim_start_matches,
};
use text::class::{Blank, Only};
use text::text::Text;
use text::white_space::trim_end;

// Whether b goes on with a character.
#[tactic(auto, unfolding(spec::specs::Md::Elements::List::continuation))]
fn continues(b: u8) -> bool
    ensures { result ≡ def.continuation b }
{
    matches!(b, 128..=191)
}

// Where a character begins, at n or before it; at n where t has no byte there.
pub fn boundary(t: &[u8], n: usize) -> usize
    ensures { (result ≡ def.boundary n t.now) × (result ≤ n) }
{
    if t.len() <= n {
        return n;
    }
    match t[..n + 1].iter().rposition(|b| !continues(*b)) {
        Some(k) => k,
        None => 0,
    }
}

// How long t is, cut at n or before the character that n is inside of.
fn truncate(t: &[u8], n: usize) -> usize
    ensures { Trimmed t.now result (def.truncate n t.now) }
{
    if t.len() <= n {
        return t.len();
    }
    boundary(t, n)
}

// Whether a block can begin where t ends.
fn at_line_start(t: &[u8], item: Item) -> bool
    ensures { result ≡ def.at_line_start (item_of item) t.now }
{
    if t.len() == item.start {
        return true;
    }
    if t.len() < item.indent {
        return false;
    }
    let n = t.len() - item.indent;
    all_in::<Blank>(&t[n..]) & ends_with_byte(&t[..n], b'\n')
}

// Cuts White_Space at the end of t, but nothing of what stands before the item's content.
fn trim_item_end(t: &[u8], start: usize) -> usize
    ensures { Trimmed t.now result (def.truncate (max (length (trim_end t.now)) start) t.now) }
{
    truncate(t, trim_end(t).max(start))
}

// Goes to a line of its own behind other content.
fn own_line(text: &mut Text, item: Item) -> Result<(), Full>
    ensures { WritesTo text.old text.new result (def.own_line (item_of item)) }
{
    if at_line_start(text.bytes(), item) {
        return Ok(());
    }
    text.len = trim_item_end(text.bytes(), item.start);
    push_line_start(text, item)
}

// Appends a byte of a block; a line end with what begins the next line, which is `empty` or not.
fn push_line_byte(text: &mut Text, b: u8, empty: bool, item: Item) -> Result<(), Full>
    ensures { WritesTo text.old text.new result (push (line_byte (item_of item) empty b)) }
{
    match b {
        b'\n' if empty => push_linebreak(text, item.ctx.opts.table_cell),
        b'\n' => push_line_start(text, item),
        _ => text.push_byte(b),
    }
}

// Whether the first line of t is empty.
fn is_line_empty(t: &[u8]) -> bool
    ensures { result ≡ null (parts def.is_line_end t.now).0 }
{
    match t {
        [] => true,
        [b, ..] => *b == b'\n',
    }
}

// Appends the lines of a block.
fn push_lines(text: &mut Text, block: &[u8], item: Item) -> Result<(), Full>
    ensures { WritesTo text.old text.new result (push (def.block_lines (item_of item) (split def.is_line_end block.now))) }
{
    let mut rest = block;
    while let [b, behind @ ..] = rest {
        push_line_byte(text, *b, is_line_empty(behind), item)?;
        rest = behind;
    }
    Ok(())
}

// Appends a block without the line ends around it, on a line of its own.
fn push_own_block(text: &mut Text, block: &[u8], item: Item) -> Result<(), Full>
    ensures { WritesTo text.old text.new result (own_block (item_of item) block.now) }
{
    own_line(text, item)?;
    let begun = &block[trim_start_matches::<Only<b'\n'>>(block)..];
    push_lines(text, &begun[..trim_end_matches::<Only<b'\n'>>(begun)], item)
}

// Appends the block that stands from `base` on to the text of `len` bytes in the room before it.
fn push_block_from(memory: &mut [u8], base: usize, len: usize, item: Item) -> Wrote
    requires { (len ≤ base) × (base ≤ length memory.old) }
    ensures { WritesIn base memory.old memory.new result (own_block (item_of item) (drop base memory.old) (take len memory.old)) }
{
    let (room, block) = memory.split_at_mut(base);
    let mut text = Text { room, len };
    push_own_block(&mut text, block, item)?;
    Ok(text.len)
}

// The last step of write_list_item_indented: the block is the n bytes behind the text. It goes to the end of the room, and is
// appended from there, line by line.
pub fn push_indented(text: &mut Text, n: usize, item: Item) -> Result<(), Full>
    requires { text.old.len + n ≤ length text.old.room.now }
    ensures { WritesTo text.old text.new result (indented_block (item_of item) (take n (drop text.old.len text.old.room.now))) }
{
    let base = text.room.len() - n;
    lift(text.room, text.len, n, base);
    text.len = push_block_from(text.room, base, text.len, item)?;
    Ok(())
}
