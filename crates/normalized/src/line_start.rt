// The first word of a line: some words would begin a list, a heading or a quote there.
ghost use Rattle.std.specs.Prelude.{◌≡◌, true, false, ◌<◌, length, drop, get_or};
ghost use Rattle.spec.specs.Bytes.{isin, white, digit, parts};
ghost use Rattle.spec.specs.Md.Constants.{LINE_START_ESCAPED};
ghost use Rattle.spec.specs.Md.TextUtils as def;
ghost use Rattle.text.specs.Flow.{last_dot, MayStart};
ghost use Rattle.normalized.specs.Layout.{LineSign};

use crate::text_utils::is_ordered_list_marker;
use text::buffer::all_in;
use text::class::{ByteClass, Digit, Only, White};

// Whether a word ends with a `.` or `)` at i: behind it stands nothing, or a white byte.
fn is_last_dot(s: &[u8], i: usize) -> bool
    requires { i < length s.now }
    ensures { result ≡ last_dot (drop i s.now) }
{
    if !((s[i] == b'.') | (s[i] == b')')) {
        return false;
    }
    if s.len() == i + 1 {
        return true;
    }
    White::has(s[i + 1])
}

// Whether the first word of s, which begins with a digit, is the marker of an item.
fn begins_marker(s: &[u8]) -> bool
    requires { digit (get_or s.now 0 0) ≡ true }
    ensures { result ≡ def.is_ordered_list_marker (parts white s.now).0 }
{
    for i in 1..s.len() {
        if !Digit::has(s[i]) {
            return is_last_dot(s, i);
        }
    }
    false
}

// Whether the first word of s is known to stand as it is, whatever stands before it: where nothing is escaped any word, else one
// that begins with no sign and is no marker.
pub fn begins_bare(s: &[u8], escape: bool) -> bool
    requires { 0 < length s.now }
    ensures { result ≡ true → (white (get_or s.now 0 0) ≡ false) × (escape ≡ true → MayStart (parts white s.now).0) }
{
    if b'A' <= s[0] {
        return true;
    }
    if !escape {
        return b' ' < s[0];
    }
    if !Digit::has(s[0]) {
        return false;
    }
    !begins_marker(s)
}

#[tactic(auto, unfolding(spec::specs::Bytes::isin))]
fn is_line_start_escaped(b: u8) -> bool
    ensures { result ≡ isin b LINE_START_ESCAPED }
{
    matches!(b, b'#' | b'>' | b'-' | b'+')
}

// Before which byte a word has one escape more than elsewhere where it begins a line: before the last of a list marker, or the
// first of one that would begin another block or underline a heading. The word's length if it has none, or does not begin a line.
pub fn line_sign(word: &[u8], line_start: bool) -> usize
    requires { 0 < length word.now }
    ensures { LineSign word.now line_start result }
{
    let n = word.len();
    if !line_start {
        return n;
    }
    if is_ordered_list_marker(word) {
        return n - 1;
    }
    if is_line_start_escaped(word[0]) | all_in::<Only<b'='>>(word) {
        0
    } else {
        n
    }
}
