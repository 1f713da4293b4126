// The leaves of elements/emphasis.rs.
ghost use Rattle.std.specs.Prelude.{cond, false, [], ◌∷◌, ◌++◌, ◌≡◌, ◌+◌, ◌-◌, ◌≤◌, ◌<◌, length, take, drop};
ghost use Rattle.spec.specs.Bytes.{ascii, null, same, trim_end};
ghost use Rattle.spec.specs.Out.{push};
ghost use Rattle.spec.specs.Md.Elements.Emphasis as def;
ghost use Rattle.marks.specs.Marked.{lead_blank, bang_if, marked_front, marked_with};
ghost use Rattle.text.specs.Texts.{WritesTo};
ghost use Rattle.text.specs.Writes.{Writes};

use normalized::text_utils::escape_trailing_bang;
use text::buffer::{
    Full, Wrote, ends_with, ends_with_byte, lift, starts_with_byte, trim_end_matches,
};
use text::class::{Only, White};
use text::text::Text;
use text::white_space::trim_end;

// How many backslashes s ends with.
#[tactic(auto, using(crate::proofs::Leaves::backslashes_is))]
pub fn backslashes(s: &[u8]) -> usize
    ensures { result ≡ def.backslashes s.now }
{
    s.len() - trim_end_matches::<Only<b'\\'>>(s)
}

// Whether s is the byte b alone.
#[tactic(auto, using(crate::proofs::Leaves::one_is, crate::proofs::Leaves::one_other, crate::proofs::Leaves::one_none, crate::proofs::Leaves::one_more))]
fn is_byte(s: &[u8], b: u8) -> bool
    ensures { result ≡ same s.now (b ∷ []) }
{
    matches!(s, [only] if *only == b)
}

pub fn is_exact_marker_end(tail: &[u8], marker: &[u8]) -> bool
    ensures { result ≡ def.is_exact_marker_end tail.now marker.now }
{
    if !ends_with(tail, marker) {
        return false;
    }
    let before = &tail[..tail.len() - marker.len()];
    let longer = is_byte(marker, b'*') & ends_with_byte(before, b'*');
    let count = backslashes(before);
    !longer & (count % 2 == 0)
}

// Whether the text ends with the marker of an emphasis just closed, with one blank behind it at most.
pub fn ends_with_emphasis(marker: &[u8], acc: &[u8]) -> bool
    ensures { result ≡ def.ends_with_emphasis marker.now acc.now }
{
    if marker.is_empty() | acc.is_empty() {
        return false;
    }
    let n = trim_end_matches::<White>(acc);
    let behind = &acc[n..];
    if !(behind.is_empty() | is_byte(behind, b' ')) {
        return false;
    }
    is_exact_marker_end(&acc[..n], marker)
}

// Takes the marker of an emphasis just closed away; a blank behind it stays.
pub fn try_trim_prev_emphasis_marker(text: &mut Text, marker: &[u8]) -> Result<(), Full>
    ensures { WritesTo text.old text.new result (def.try_trim_prev_emphasis_marker marker.now) }
{
    if !ends_with_emphasis(marker, text.bytes()) {
        return Ok(());
    }
    if ends_with_byte(text.bytes(), b' ') {
        text.len = text.len.saturating_sub(marker.len() + 1);
        text.push_byte(b' ')
    } else {
        text.len = text.len.saturating_sub(marker.len());
        Ok(())
    }
}

// Appends the blank that an emphasis text began with, unless the text ends with one.
fn push_lead(text: &mut Text, lead: bool) -> Result<(), Full>
    ensures { WritesTo text.old text.new result (lead_blank lead) }
{
    let ended = ends_with_byte(text.bytes(), b' ');
    text.push_byte_if(b' ', lead & !ended)
}

// Appends the opening marker, unless the emphasis goes on with the one before it.
fn push_marker(text: &mut Text, marker: &[u8], merged: bool) -> Result<(), Full>
    ensures { WritesTo text.old text.new result (push (cond merged [] marker.now)) }
{
    if !merged {
        text.push_all(marker)?;
    }
    Ok(())
}

fn escape_bang_if(text: &mut Text, bang: bool) -> Result<(), Full>
    ensures { WritesTo text.old text.new result (bang_if bang) }
{
    if bang {
        escape_trailing_bang(text)?;
    }
    Ok(())
}

// What push_emphasis does to the text before the emphasis text is appended.
fn push_front(text: &mut Text, marker: &[u8], lead: bool, bang: bool) -> Result<(), Full>
    ensures { WritesTo text.old text.new result (marked_front marker.now lead bang) }
{
    let merged = ends_with_emphasis(marker, text.bytes());
    try_trim_prev_emphasis_marker(text, marker)?;
    push_lead(text, lead)?;
    push_marker(text, marker, merged)?;
    escape_bang_if(text, bang)
}

// `push_front` for the text of `len` bytes in this room: the emphasis text stands behind the room, and stays.
fn push_front_in(room: &mut [u8], len: usize, marker: &[u8], lead: bool, bang: bool) -> Wrote
    requires { len ≤ length room.old }
    ensures { Writes (length room.old) room.new result (marked_front marker.now lead bang (take len room.old)) }
{
    let mut text = Text { room, len };
    push_front(&mut text, marker, lead, bang)?;
    Ok(text.len)
}

// The emphasis text with its closing marker is what stands from base on.
fn push_done(text: &mut Text, base: usize, marker: &[u8], lead: bool) -> Result<(), Full>
    requires { (text.old.len ≤ base) × (base ≤ length text.old.room.now) }
    ensures { WritesTo text.old text.new result (marked_with marker.now lead (drop base text.old.room.now)) }
{
    let content = text.behind(base);
    let bang = starts_with_byte(content, b'[');
    let size = content.len();
    text.len = push_front_in(&mut text.room[..base], text.len, marker, lead, bang)?;
    text.push_lifted(base, size)
}

// Appends the closing marker, and a blank that the emphasis text ended with.
fn push_end(text: &mut Text, marker: &[u8], trail: bool) -> Result<(), Full>
    ensures { WritesTo text.old text.new result (push (marker.now ++ cond trail (ascii " ") [])) }
{
    text.push_all(marker)?;
    text.push_byte_if(b' ', trail)
}

// `push_end` for the text of `len` bytes in this room, which begins where the emphasis text does.
fn push_end_in(room: &mut [u8], len: usize, marker: &[u8], trail: bool) -> Wrote
    requires { len ≤ length room.old }
    ensures { Writes (length room.old) room.new result (push (marker.now ++ cond trail (ascii " ") []) (take len room.old)) }
{
    let mut text = Text { room, len };
    push_end(&mut text, marker, trail)?;
    Ok(text.len)
}

// The emphasis text without the blanks at its ends is the n bytes at `from`, where at most one blank stands behind the text.
// With its closing marker it is longer than the marker that is taken away, so that the first test refuses nothing that fits.
fn push_closed(
    text: &mut Text,
    from: usize,
    n: usize,
    marker: &[u8],
    lead: bool,
    trail: bool,
) -> Result<(), Full>
    requires { ((text.old.len ≤ from) × (from ≤ text.old.len + 1)) × ((from + n ≤ length text.old.room.now) × (0 < n)) }
    ensures { WritesTo text.old text.new result (marked_with marker.now lead (take n (drop from text.old.room.now) ++ (marker.now ++ cond trail (ascii " ") []))) }
{
    let size = n + marker.len() + trail as usize;
    if text.room.len() - text.len <= size {
        return Err(Full);
    }
    let base = text.room.len() - size;
    lift(text.room, from, n, base);
    push_end_in(&mut text.room[base..], n, marker, trail)?;
    push_done(text, base, marker, lead)
}

// The emphasis text is the n bytes behind the text, which are not all White_Space.
fn push_marked(text: &mut Text, n: usize, marker: &[u8]) -> Result<(), Full>
    requires { (text.old.len + n ≤ length text.old.room.now) × (null (trim_end (take n (drop text.old.len text.old.room.now))) ≡ false) }
    ensures { WritesTo text.old text.new result (def.push_marked marker.now (take n (drop text.old.len text.old.room.now))) }
{
    let begin = text.len;
    let content = &text.behind(begin)[..n];
    let lead = starts_with_byte(content, b' ');
    let begun = &content[lead as usize..];
    let trail = ends_with_byte(begun, b' ');
    let size = begun.len() - trail as usize;
    push_closed(text, begin + lead as usize, size, marker, lead, trail)
}

// The emphasis text is the n bytes behind the text; it counts until it is appended.
pub fn push_emphasis(text: &mut Text, n: usize, marker: &[u8]) -> Result<(), Full>
    requires { text.old.len + n ≤ length text.old.room.now }
    ensures { WritesTo text.old text.new result (def.push_emphasis marker.now (take n (drop text.old.len text.old.room.now))) }
{
    let begin = text.len;
    if trim_end(&text.behind(begin)[..n]) == 0 {
        let base = text.room.len() - n;
        lift(text.room, begin, n, base);
        return text.push_lifted(base, n);
    }
    push_marked(text, n, marker)
}
