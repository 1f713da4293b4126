// push_title of text_utils.rs. A title that holds a quote mark is a text of its own behind the text; it is lifted to the end of
// the room and appended from there.
ghost use Rattle.std.specs.Prelude.{cond, [], ◌≤◌, length, take, drop};
ghost use Rattle.spec.specs.Bytes.{isin};
ghost use Rattle.spec.specs.Out.{push};
ghost use Rattle.spec.specs.Md.Ctx.{new};
ghost use Rattle.spec.specs.Md.TextUtils as def;
ghost use Rattle.text.specs.Source.{WritesIn};
ghost use Rattle.text.specs.Texts.{WritesTo};
ghost use Rattle.text.specs.Writes.{Writes};

use normalized::normalize::{push_escaped, push_normalized_text};
use spec::ctx::FormatOpts;
use text::buffer::{Full, Wrote, contains_byte, lift};
use text::text::Text;

// Appends s, normalized with no options.
pub fn push_normalized(text: &mut Text, s: &[u8]) -> Result<(), Full>
    ensures { WritesTo text.old text.new result (def.push_normalized_text s.now new) }
{
    push_normalized_text(text, s, FormatOpts::new())
}

// Appends b; a quote mark is escaped.
#[tactic(auto, unfolding(spec::specs::Md::TextUtils::quote_escaped))]
fn push_quoted_byte(text: &mut Text, b: u8) -> Result<(), Full>
    ensures { WritesTo text.old text.new result (push (def.quote_escaped b)) }
{
    push_escaped(text, b == b'"', b)
}

// Appends a normalized title, with its quote marks escaped.
fn push_quoted(text: &mut Text, title: &[u8]) -> Result<(), Full>
    ensures { WritesTo text.old text.new result (push (def.each_byte def.quote_escaped title.now)) }
{
    for b in title {
        push_quoted_byte(text, *b)?;
    }
    Ok(())
}

// Appends the title that stands from `base` on to the text of `len` bytes in the room before it.
fn push_quoted_from(memory: &mut [u8], base: usize, len: usize) -> Wrote
    requires { (len ≤ base) × (base ≤ length memory.old) }
    ensures { WritesIn base memory.old memory.new result (push (def.each_byte def.quote_escaped (drop base memory.old)) (take len memory.old)) }
{
    let (room, title) = memory.split_at_mut(base);
    let mut text = Text { room, len };
    push_quoted(&mut text, title)?;
    Ok(text.len)
}

// Writes s, normalized, to the front of the room.
fn write_normalized(room: &mut [u8], s: &[u8]) -> Wrote
    ensures { Writes (length room.old) room.new result (def.push_normalized_text s.now new []) }
{
    let mut text = Text { room, len: 0 };
    push_normalized(&mut text, s)?;
    Ok(text.len)
}

fn push_quoted_title(text: &mut Text, title: &[u8]) -> Result<(), Full>
    ensures { WritesTo text.old text.new result (def.quoted_title title.now) }
{
    let n = write_normalized(&mut text.room[text.len..], title)?;
    let base = text.room.len() - n;
    lift(text.room, text.len, n, base);
    text.len = push_quoted_from(text.room, base, text.len)?;
    Ok(())
}

fn push_title_text(text: &mut Text, title: &[u8]) -> Result<(), Full>
    ensures { WritesTo text.old text.new result (cond (isin 34 title.now) (def.quoted_title title.now) (def.push_normalized_text title.now new)) }
{
    if contains_byte(title, b'"') {
        push_quoted_title(text, title)
    } else {
        push_normalized(text, title)
    }
}

pub fn push_title(text: &mut Text, title: &[u8]) -> Result<(), Full>
    ensures { WritesTo text.old text.new result (def.push_title title.now) }
{
    text.push_all(b" \"")?;
    push_title_text(text, title)?;
    text.push_byte(b'"')
}
