// parse_list_number of elements/list.rs.
ghost use Rattle.std.specs.Prelude.{◌≡◌, ◌-◌, ◌≤◌, min, eqb, length};
ghost use Rattle.spec.specs.Bytes.{value_from, trim_start_matches};
ghost use Rattle.spec.specs.Md.Constants.{MAX_LIST_NUMBER};
ghost use Rattle.spec.specs.Md.Elements.List as def;
ghost use Rattle.lists_links.specs.Parsed.{parsed_of, signed, unsigned};
ghost use Rattle.text.specs.Trimmed.{Skipped};

use text::buffer::{starts_with_byte, trim_start_matches};
use text::class::{Digit, Only, White};

const MAX_LIST_NUMBER: u32 = 999999999;

// How many digits that number has.
const MOST_DIGITS: usize = 9;

// The number that an attribute's value says, if it says one.
pub fn parse_list_number(value: &[u8]) -> Option<u32>
    ensures { result ≡ parsed_of (def.parse_list_number value.now) }
{
    parse_signed(&value[trim_start_matches::<White>(value)..])
}

// A number without white bytes before it.
fn parse_signed(value: &[u8]) -> Option<u32>
    ensures { result ≡ parsed_of (signed value.now) }
{
    let unsigned = without_sign(value);
    let digits = &unsigned[..trim_start_matches::<Digit>(unsigned)];
    if digits.is_empty() {
        return None;
    }
    if starts_with_byte(value, b'-') {
        return Some(0);
    }
    Some(clamped(digits))
}

// A value without the sign that begins it.
fn without_sign(value: &[u8]) -> &[u8]
    ensures { result.now ≡ unsigned value.now }
{
    if starts_with_byte(value, b'-') | starts_with_byte(value, b'+') {
        return &value[1..];
    }
    value
}

// The number of a run of digits.
fn clamped(digits: &[u8]) -> u32
    ensures { result ≡ def.clamped (trim_start_matches (λ b. eqb b 48) digits.now) }
{
    let significant = &digits[trim_start_matches::<Only<b'0'>>(digits)..];
    if MOST_DIGITS < significant.len() {
        return MAX_LIST_NUMBER;
    }
    value_of(significant)
}

// The value of a digit; of a byte below the digits, 0.
fn digit_value(b: u8) -> usize
    ensures { (result ≡ b - 48) × (result ≤ 207) }
{
    b.saturating_sub(b'0') as usize
}

// The number of at most nine bytes.
fn value_of(digits: &[u8]) -> u32
    requires { length digits.now ≤ 9 }
    ensures { result ≡ min (value_from 0 digits.now) MAX_LIST_NUMBER }
{
    let mut n: usize = 0;
    for b in digits {
        n = n * 10 + digit_value(*b);
    }
    n.min(MAX_LIST_NUMBER as usize) as u32
}
