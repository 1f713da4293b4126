// Questions 1 to 6 in one pass over the fields, for a sheet that they let pass.
ghost use Rattle.std.specs.Prelude.{◌≡◌, ℕ, ◌≤◌, length, take, IfSome};
ghost use Rattle.spec.specs.Bytes.{Bytes};
ghost use Rattle.input.specs.Scans.{field_right};
ghost use Rattle.input.specs.Sound.{ruled_field, sound_field, Ended, Sound};

use crate::fields::length_at;
use crate::questions::{BLOCKQUOTE, MAX_LENGTH, MAX_NODES, MAX_OPEN, count_after};
use crate::tag::{CLOSE, COMMENT, NAME, NO_TAG, OPEN, TEXT, VALUE};
use crate::utf8::is_utf8_part;

// Whether a close of `len` bytes keeps the rules.
fn is_sound_close(before: u8, depth: usize, len: usize) -> bool
    ensures { result ≡ field_right before depth 6 len }
{
    ((before != NAME) & (len == 0)) & (depth != 0)
}

// `is_ruled` for a field of `len` bytes that is no name of an element and no text.
fn is_ruled_other(before: u8, tag: u8, len: usize) -> bool
    requires { (tag ≡ 1 → ⊥) × (tag ≡ 4 → ⊥) × (tag ≡ 6 → ⊥) }
    ensures { (depth : ℕ) (body : Bytes) → length body ≡ len → result ≡ ruled_field before depth tag body }
{
    if tag == NAME {
        return (len != 0) & ((before == OPEN) | (before == VALUE));
    }
    if tag == VALUE {
        return before == NAME;
    }
    (tag == COMMENT) & (before != NAME)
}

// Whether a field with these bytes, which is no close, has a tag from 1 to 6, keeps the rules and opens no block quote.
// The tags that are met most come first.
fn is_ruled(before: u8, tag: u8, body: &[u8]) -> bool
    requires { tag ≡ 6 → ⊥ }
    ensures { (depth : ℕ) → result ≡ ruled_field before depth tag body.now }
{
    if tag == TEXT {
        return before != NAME;
    }
    if tag == OPEN {
        if (before == NAME) | body.is_empty() {
            return false;
        }
        return body != BLOCKQUOTE;
    }
    is_ruled_other(before, tag, body.len())
}

// Whether the field of n bytes that `s` begins with, and which is no close, is UTF-8, too. That is asked first and in one
// place, whatever the tag, and looks behind the field.
fn is_sound(before: u8, tag: u8, s: &[u8], n: usize) -> bool
    requires { (n ≤ length s.now) × (tag ≡ 6 → ⊥) }
    ensures { (depth : ℕ) → result ≡ sound_field before depth tag (take n s.now) }
{
    is_utf8_part(s, n) && is_ruled(before, tag, &s[..n])
}

// The count, where nothing is left over behind the fields, no name stands last, every element is closed and the count
// is within its limit.
fn count_at_end(left: usize, before: u8, depth: usize, count: usize) -> Option<usize>
    ensures { IfSome result (λ n. Ended left before depth count n) }
{
    if left != 0 || before == NAME || depth != 0 || MAX_NODES < count {
        return None;
    }
    Some(count)
}

// `sound_count` for a sheet of at most 1,048,576 bytes. Behind a close the next field begins at once: its
// place needs no length. Places are counted by hand: a loop over slices of the rest takes 11 instructions more for each field.
fn count_of_short(s: &[u8]) -> Option<usize>
    requires { length s.now ≤ 1048576 }
    ensures { IfSome result (λ n. Sound s.now n) }
{
    let mut before = NO_TAG;
    let mut depth = 0;
    let mut count = 0;
    let mut p = 0;
    while 3 <= s.len() - p {
        let n = length_at(s, p);
        let tag = s[p];
        let start = p + 3;
        if tag == CLOSE {
            if !is_sound_close(before, depth, n) {
                return None;
            }
            depth -= 1;
            before = tag;
            p = start;
            continue;
        }
        if s.len() - start < n {
            return None;
        }
        if !is_sound(before, tag, &s[start..], n) {
            return None;
        }
        if tag == OPEN {
            if MAX_OPEN <= depth {
                return None;
            }
            depth += 1;
        }
        count = count_after(count, tag);
        before = tag;
        p = start + n;
    }
    count_at_end(s.len() - p, before, depth, count + 1)
}

// The nodes of a sheet that questions 1 to 6 let pass; `None` where one of them may say no.
pub fn sound_count(s: &[u8]) -> Option<usize>
    ensures { IfSome result (λ n. Sound s.now n) }
{
    if MAX_LENGTH < s.len() {
        return None;
    }
    count_of_short(s)
}
