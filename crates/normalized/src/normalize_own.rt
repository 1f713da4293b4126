// push_normalized_text for a text that stands in the room itself, from `base` on. What is written stays before `base`.
ghost use Rattle.std.specs.Prelude.{◌≡◌, ◌≤◌, length, take, drop};
ghost use Rattle.spec.specs.Md.TextUtils as def;
ghost use Rattle.text.specs.Source.{WritesIn};
ghost use Rattle.text.specs.Texts.{bytes, wrote};
ghost use Rattle.text.specs.Writes.{Writes};

use crate::normalize::push_words;
use spec::ctx::FormatOpts;
use text::buffer::{Full, Wrote};
use text::text::Text;

// Appends s to the first `len` bytes of `room`. A function of its own: of a part of a slice that a `Text` borrows, the check knows
// only the length afterwards.
fn push_words_in(room: &mut [u8], len: usize, s: &[u8], opts: FormatOpts) -> Wrote
    requires { len ≤ length room.old }
    ensures { Writes (length room.old) room.new result (def.push_normalized_text s.now opts (take len room.old)) }
{
    let mut text = Text { room, len };
    push_words(&mut text, s, opts)?;
    Ok(text.len)
}

// Appends what stands from `base` on to the first `len` bytes. A function of its own: of a field that is split, the check knows only
// the length afterwards.
fn push_own(room: &mut [u8], base: usize, len: usize, opts: FormatOpts) -> Wrote
    requires { (len ≤ base) × (base ≤ length room.old) }
    ensures { WritesIn base room.old room.new result (def.push_normalized_text (drop base room.old) opts (take len room.old)) }
{
    let (front, own) = room.split_at_mut(base);
    push_words_in(front, len, own, opts)
}

// Appends the text that stands from `base` on, its words parted by blanks.
pub fn push_normalized_own(text: &mut Text, base: usize, opts: FormatOpts) -> Result<(), Full>
    requires { (text.old.len ≤ base) × (base ≤ length text.old.room.now) }
    ensures { (text.new.room.ghost_name ≡ text.old.room.ghost_name) × WritesIn base text.old.room.now text.new.room.now (wrote text.new result) (def.push_normalized_text (drop base text.old.room.now) opts (bytes text.old)) }
{
    text.len = push_own(text.room, base, text.len, opts)?;
    Ok(())
}
