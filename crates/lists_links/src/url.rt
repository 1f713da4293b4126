// push_md_url of text_utils.rs with html_escape. The escaped destination is never a text of its own: each byte is replaced
// as it is appended.
ghost use Rattle.std.specs.Prelude.{◌≡◌, ◌≤◌, length, pos, ◌+ℤ◌, ◌-ℤ◌, ◌++◌};
ghost use Rattle.std.specs.Int.{w32};
ghost use Rattle.std.proofs.Common.{SFits};
ghost use Rattle.spec.specs.Bytes.{ascii, every};
ghost use Rattle.spec.specs.Out.{push};
ghost use Rattle.spec.specs.Md.TextUtils as def;
ghost use Rattle.lists_links.specs.Url.{next_balance, url_byte, piece_of, kept, itself};
ghost use Rattle.text.specs.Texts.{WritesTo};

use text::buffer::{Full, starts_with};
use text::text::Text;

const NBSP_LEAD: u8 = 0xC2;

// U+00A0 in UTF-8.
const NO_BREAK_SPACE: [u8; 2] = [NBSP_LEAD, 0xA0];

const DELETE: u8 = 127;

#[tactic(auto, unfolding(spec::specs::Md::TextUtils::wants_wrap, spec::specs::Bytes::isin))]
fn wants_wrap(b: u8) -> bool
    ensures { result ≡ def.wants_wrap b }
{
    matches!(b, 0..=31 | b' ' | b'<' | DELETE)
}

// The balance of parentheses behind b: below zero where b closes one that is not open.
fn next_balance(balance: i32, b: u8) -> i32
    requires { SFits w32 (balance +ℤ pos 1) × SFits w32 (balance -ℤ pos 1) }
    ensures { result ≡ next_balance balance b }
{
    match b {
        b'(' => balance + 1,
        b')' => balance - 1,
        _ => balance,
    }
}

// Whether a destination stands between `<` and `>`. The replacements of html_escape change nothing in that. The balance is an
// i32, as in the Rust; over so few bytes it cannot overflow.
fn needs_wrap(dest: &[u8]) -> bool
    requires { length dest.now ≤ 1048576 }
    ensures { result ≡ def.needs_wrap 0 dest.now }
{
    let mut balance: i32 = 0;
    for b in dest {
        if wants_wrap(*b) {
            return true;
        }
        balance = next_balance(balance, *b);
        if balance < 0 {
            return true;
        }
    }
    balance != 0
}

// Appends what stands for b, which does not begin a no-break space.
#[tactic(auto, unfolding(spec::specs::Md::TextUtils::wrapped_byte, spec::specs::Md::TextUtils::backslash_twice, spec::specs::Bytes::isin))]
fn push_piece(text: &mut Text, b: u8, wrap: bool) -> Result<(), Full>
    ensures { WritesTo text.old text.new result (push (piece_of wrap b)) }
{
    match b {
        b'&' => text.push_all(b"&amp;"),
        b'"' => text.push_all(b"&quot;"),
        b'\\' => text.push_all(b"\\\\"),
        b'<' if wrap => text.push_all(b"\\<"),
        b'>' if wrap => text.push_all(b"\\>"),
        b'\n' if wrap => text.push_all(b"%0A"),
        b'\r' if wrap => text.push_all(b"%0D"),
        _ => text.push_byte(b),
    }
}

// Whether b stands as it is in a destination that is appended, between `<` and `>` or without them.
fn is_kept(b: u8) -> bool
    ensures { result ≡ kept b }
{
    !matches!(
        b,
        b'"' | b'&' | b'<' | b'>' | b'\\' | b'\n' | b'\r' | NBSP_LEAD
    )
}

// Whether all bytes do: without an early exit, so that many bytes can be tested at once.
fn is_kept_dest(dest: &[u8]) -> bool
    ensures { result ≡ every kept dest.now }
{
    let mut all = true;
    for b in dest {
        all &= is_kept(*b);
    }
    all
}

fn push_dest(text: &mut Text, dest: &[u8], wrap: bool) -> Result<(), Full>
    ensures { WritesTo text.old text.new result (push (def.each_byte (url_byte wrap) (def.html_escape dest.now))) }
{
    if is_kept_dest(dest) {
        return text.push_all(dest);
    }
    let mut rest = dest;
    while let [b, behind @ ..] = rest {
        if starts_with(rest, &NO_BREAK_SPACE) {
            text.push_all(b"&nbsp;")?;
            rest = &rest[2..];
        } else {
            push_piece(text, *b, wrap)?;
            rest = behind;
        }
    }
    Ok(())
}

fn push_wrapped(text: &mut Text, dest: &[u8]) -> Result<(), Full>
    ensures { WritesTo text.old text.new result (push (ascii "<" ++ (def.each_byte def.wrapped_byte (def.html_escape dest.now) ++ ascii ">"))) }
{
    text.push_byte(b'<')?;
    push_dest(text, dest, true)?;
    text.push_byte(b'>')
}

// Whether b stands in a destination as it is, whatever is around it.
fn is_itself(b: u8) -> bool
    ensures { result ≡ itself b }
{
    !(wants_wrap(b) | matches!(b, b'(' | b')' | b'&' | b'"' | b'\\' | NBSP_LEAD))
}

// Whether all bytes do: without an early exit, so that many bytes can be tested at once.
fn is_plain_dest(dest: &[u8]) -> bool
    ensures { result ≡ every itself dest.now }
{
    let mut all = true;
    for b in dest {
        all &= is_itself(*b);
    }
    all
}

// A destination is a part of the sheet, which has at most 1,048,576 bytes (question 1).
pub fn push_md_url(text: &mut Text, dest: &[u8]) -> Result<(), Full>
    requires { length dest.now ≤ 1048576 }
    ensures { WritesTo text.old text.new result (def.push_md_url dest.now) }
{
    if is_plain_dest(dest) {
        return text.push_all(dest);
    }
    if needs_wrap(dest) {
        push_wrapped(text, dest)
    } else {
        push_dest(text, dest, false)
    }
}
