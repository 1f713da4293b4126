// A text is the first `len` bytes of a lent slice, and its room is the slice. What only reads takes the text itself.
ghost use Rattle.std.specs.Prelude.{◌≡◌, [], ◌∷◌, ◌++◌, ◌+◌, ◌-◌, ◌≤◌, ◌<◌, length, take, drop, replicate, cond, not, ◌||◌};
ghost use Rattle.spec.specs.Md.Elements.Code.{is_tab_or_blank};
ghost use Rattle.spec.specs.Bytes.{ascii, isin, white, digit, ends_with, starts_with, every, one, is_white_space, trim_end, trim_end_matches, trim_start_matches};
ghost use Rattle.spec.specs.Out.{push, replace};
ghost use Rattle.spec.specs.Md.TextUtils.{ends_with_white};
ghost use Rattle.text.specs.Trimmed.{Trimmed, Skipped};
ghost use Rattle.text.specs.Lifted.{Lifted};
ghost use Rattle.text.specs.Writes.{Writes};

use crate::class::{ByteClass, White};

// The text has no room for what is to be written.
#[derive(Clone, Copy, PartialEq, Eq, Debug)]
pub struct Full;

// How long the text is then.
pub type Wrote = Result<usize, Full>;

// The first n bytes, or all where there are fewer.
pub fn front(s: &[u8], n: usize) -> &[u8]
    ensures { result.now ≡ take n s.now }
{
    &s[..n.min(s.len())]
}

pub fn ends_with(s: &[u8], x: &[u8]) -> bool
    ensures { result ≡ ends_with x.now s.now }
{
    s.ends_with(x)
}

pub fn starts_with(s: &[u8], x: &[u8]) -> bool
    ensures { result ≡ starts_with x.now s.now }
{
    s.starts_with(x)
}

#[tactic(auto, using(crate::proofs::Reading::ends_is, crate::proofs::Reading::ends_not, crate::proofs::Reading::ends_none))]
pub fn ends_with_byte(s: &[u8], b: u8) -> bool
    ensures { result ≡ ends_with (b ∷ []) s.now }
{
    matches!(s, [.., last] if *last == b)
}

#[tactic(auto, using(crate::proofs::Reading::starts_is, crate::proofs::Reading::starts_not, crate::proofs::Reading::starts_none))]
pub fn starts_with_byte(s: &[u8], b: u8) -> bool
    ensures { result ≡ starts_with (b ∷ []) s.now }
{
    matches!(s, [first, ..] if *first == b)
}

// How long s is without the bytes of a class at its end.
pub fn trim_end_matches<C: ByteClass>(s: &[u8]) -> usize
    ensures { Trimmed s.now result (trim_end_matches (one C.holds) s.now) }
{
    let mut rest = s;
    while let [front @ .., last] = rest {
        if !C::has(*last) {
            break;
        }
        rest = front;
    }
    rest.len()
}

// How many bytes of a class s begins with.
pub fn trim_start_matches<C: ByteClass>(s: &[u8]) -> usize
    ensures { Skipped s.now result (trim_start_matches C.holds s.now) }
{
    s.iter().position(|b| !C::has(*b)).unwrap_or(s.len())
}

// Whether s has bytes of a class only.
pub fn all_in<C: ByteClass>(s: &[u8]) -> bool
    ensures { result ≡ every C.holds s.now }
{
    s.iter().all(|b| C::has(*b))
}

// Whether b stands in s. `contains` stops at the first, so that LLVM doesn't test many bytes at once: code takes a tenth more
// instructions with it.
pub fn contains_byte(s: &[u8], b: u8) -> bool
    ensures { result ≡ isin b s.now }
{
    let mut found = false;
    for x in s {
        found |= b == *x;
    }
    found
}

// Whether s ends with a or with b.
#[tactic(auto, using(crate::proofs::Reading::ends_is, crate::proofs::Reading::ends_not, crate::proofs::Reading::ends_none))]
pub fn ends_with_either(s: &[u8], a: u8, b: u8) -> bool
    ensures { result ≡ ends_with (a ∷ []) s.now || ends_with (b ∷ []) s.now }
{
    matches!(s, [.., last] if (*last == a) | (*last == b))
}

// Whether s ends with a white byte.
pub fn ends_with_white(s: &[u8]) -> bool
    ensures { result ≡ ends_with_white s.now }
{
    trim_end_matches::<White>(s) != s.len()
}

// Moves the n bytes at `from` to the front, by a loop: `copy_within` would want `memmove` from the host.
pub fn drop_front(text: &mut [u8], from: usize, n: usize)
    requires { from + n ≤ length text.old }
    ensures { (take n text.new ≡ take n (drop from text.old)) × (length text.new ≡ length text.old) }
{
    // most texts stand there already
    if from != 0 {
        for i in 0..n {
            text[i] = text[from + i];
        }
    }
}

// Moves n bytes from `from` up to `to`, the last first, by a loop: `copy_within` would want `memmove` from the host.
pub fn lift(text: &mut [u8], from: usize, n: usize, to: usize)
    requires { (from ≤ to) × (to + n ≤ length text.old) }
    ensures { Lifted text.old text.new from n to }
{
    for i in (0..n).rev() {
        text[to + i] = text[from + i];
    }
}
