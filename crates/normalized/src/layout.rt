// How a text is appended, which is decided by reading alone.
ghost use Rattle.std.specs.Prelude.{◌≡◌, cond, ◌||◌, [], ◌+◌, ◌-◌, ◌≤◌, ◌<◌, length};
ghost use Rattle.spec.specs.Bytes.{ascii, same};
ghost use Rattle.text.specs.Marks.{lead_of, lead_text, line_start};
ghost use Rattle.normalized.specs.Layout.{Laid};

use crate::line_start::line_sign;
use crate::text_utils::ends_with_marker_digits;
use spec::ctx::FormatOpts;
use text::buffer::{ends_with_byte, ends_with_either, ends_with_white, trim_start_matches};
use text::class::{Black, White};

// A text is `lead`, unless it is 0, what its bytes from `at` on add, with a backslash more before the byte at `mark` if `sign`
// says so, and a blank if `last` does.
#[derive(Clone, Copy)]
pub struct Layout {
    pub lead: u8,
    pub at: usize,
    pub mark: usize,
    pub sign: bool,
    pub last: bool,
}

#[tactic(auto, using(input::proofs::Splitting::same_eq))]
fn is_dot(word: &[u8]) -> bool
    ensures { result ≡ same word.now (ascii ".") || same word.now (ascii ")") }
{
    word == b".".as_slice() || word == b")".as_slice()
}

// What stands before the first word, behind the text: a blank, a backslash before a `.` that would make a marker, or nothing.
fn lead_of(text: &[u8], opts: FormatOpts, white: bool, dot: bool) -> u8
    ensures { lead_of result ≡ lead_text opts text.now white dot }
{
    let follows = ends_with_either(text, b'\n', b' ') | (text.len() == 0);
    if (opts.inline | !follows) & white {
        return b' ';
    }
    if !(!opts.skip_escape & dot) {
        return 0;
    }
    if ends_with_marker_digits(text) {
        b'\\'
    } else {
        0
    }
}

fn blank_if(some: bool) -> u8
    ensures { lead_of result ≡ cond some (ascii " ") [] }
{
    if some { b' ' } else { 0 }
}

fn is_line_start(text: &[u8], opts: FormatOpts) -> bool
    ensures { result ≡ line_start opts text.now }
{
    ((text.len() == 0) | ends_with_byte(text, b'\n')) | opts.list_item
}

// Where the first word has a backslash more, k bytes behind its beginning; else where the next word begins.
fn mark_of(s: &[u8], at: usize, end: usize, k: usize) -> usize
    requires { (at ≤ end) × (end ≤ length s.now) }
    ensures { (at ≤ result) × (result ≤ length s.now) × (k < end - at → result ≡ at + k) }
{
    if k < end - at {
        return at + k;
    }
    end + trim_start_matches::<White>(&s[end..])
}

// The layout of s behind a text. A text of white bytes is a blank at most.
pub fn lay_out(text: &[u8], s: &[u8], opts: FormatOpts) -> Layout
    ensures { Laid opts text.now s.now result }
{
    let at = trim_start_matches::<White>(s);
    if at == s.len() {
        let blank = !ends_with_either(text, b'\n', b' ') & (at != 0);
        return Layout {
            lead: blank_if(blank),
            at,
            mark: at,
            sign: false,
            last: false,
        };
    }
    let end = at + trim_start_matches::<Black>(&s[at..]);
    let lead = lead_of(text, opts, at != 0, is_dot(&s[at..end]));
    let k = line_sign(&s[at..end], !opts.skip_escape & is_line_start(text, opts));
    let mark = mark_of(s, at, end, k);
    Layout {
        lead,
        at,
        mark,
        sign: k < end - at,
        last: ends_with_white(s),
    }
}
