// Text that is tested and copied 16 bytes at a time. A loop over a block has no early exit and reads the bytes behind from a slice of
// their own, so that LLVM makes it a few instructions over 16 bytes: with `s[i + 1]` it carries the byte on from turn to turn, and
// the call takes 2 (escapes) to 5 (long texts) in a hundred more instructions. With `for` in `copy_blocks`, which LLVM unrolls though
// most parts are one block, and `i as u8` for the count in `is_plain_front`, which it compares in lanes of 64 bits, it takes together
// 4 in a hundred more on a sheet of short texts.
ghost use Rattle.std.specs.Prelude.{◌≡◌, true, false, not, List, ℕ, ◌++◌, ◌+◌, ◌≤◌, ◌<◌, length, take, get_or, eqb};
ghost use Rattle.std.proofs.Math.Seq.{slice};
ghost use Rattle.spec.specs.Bytes.{ascii, starts_with, isin};
ghost use Rattle.spec.specs.Out.{push};
ghost use Rattle.spec.specs.Md.Constants.{ALWAYS_ESCAPED};
ghost use Rattle.spec.specs.Md.TextUtils as def;
ghost use Rattle.spec.specs.declared.ctx.FormatOpts as Opts;
ghost use Rattle.text.specs.Flow.{plain, Plain, Flows};
ghost use Rattle.text.specs.Texts.{WritesTo};
ghost use Rattle.normalized.specs.Blocks.{signed, BlockOf, Appends};
ghost use Rattle.normalized.specs.Verbatim.{Whole};

use crate::line_start::begins_bare;
use text::buffer::Full;
use text::class::{ByteClass, Digit};
use text::text::Text;

// Whether b stands in a text as it is, `next` behind it: a byte that is not white and, where signs are escaped, ordinary, or a
// blank before no white byte. Some that would are left out, so that few ranges of bytes are left.
fn is_plain(escape: bool, b: u8, next: u8) -> bool
    ensures { result ≡ true → plain escape b next ≡ true }
{
    let sign = (b == b'!')
        | ((b == b'*')
            | ((b == b'<') | (((b'[' <= b) & (b < b'a')) | ((b'|' <= b) & (b <= b'~')))));
    !((b < 14) | (((b == b' ') & (next <= b' ')) | (escape & sign)))
}

// `is_plain` for 16 bytes, behind which one more stands, without an early exit, so that they can be tested at once.
fn is_plain_block(s: &[u8; 17], escape: bool) -> bool
    ensures { result ≡ true → (i : ℕ) → i < 16 → Plain escape s.now i }
{
    let next = &s[1..];
    let mut all = true;
    for i in 0..16 {
        all = all & is_plain(escape, s[i], next[i]);
    }
    all
}

// `is_plain` for the first n of the 16 bytes. The count is a byte of its own, so that it is compared with 16 places at once.
fn is_plain_front(s: &[u8; 17], n: u8, escape: bool) -> bool
    ensures { result ≡ true → (i : ℕ) → i < 16 → i < n → Plain escape s.now i }
{
    let next = &s[1..];
    let mut all = true;
    let mut k = 0u8;
    for i in 0..16 {
        all = all & ((n <= k) | is_plain(escape, s[i], next[i]));
        k += 1;
    }
    all
}

// How many bytes s begins with that stand in a text as they are, in blocks of 16 with a byte behind them.
pub fn plain_blocks(s: &[u8], escape: bool) -> usize
    ensures { Flows escape s.now result }
{
    let mut at = 0;
    while let Some(block) = s[at..].first_chunk::<17>() {
        if !is_plain_block(block, escape) {
            break;
        }
        at += 16;
    }
    at
}

// Whether the bytes before the last are plain. The last block ends before the last byte, and may begin within the one before.
fn is_plain_text(s: &[u8], escape: bool) -> bool
    requires { 0 < length s.now }
    ensures { result ≡ true → (n : ℕ) → length s.now ≡ n + 1 → Flows escape s.now n }
{
    let last = s.len() - 1;
    if let Some(block) = s.last_chunk::<17>() {
        if 16 <= last - plain_blocks(s, escape) {
            return false;
        }
        return is_plain_block(block, escape);
    }
    for i in 0..last {
        if !is_plain(escape, s[i], s[i + 1]) {
            return false;
        }
    }
    true
}

// Whether the first n bytes but their last are plain: few are tested at once, with bytes behind them that do not count.
fn is_plain_part(s: &[u8], n: usize, escape: bool) -> bool
    requires { (0 < n) × (n ≤ length s.now) }
    ensures { result ≡ true → (m : ℕ) → n ≡ m + 1 → Flows escape (take n s.now) m }
{
    match s.first_chunk::<17>() {
        Some(block) if n <= 16 => is_plain_front(block, (n - 1) as u8, escape),
        _ => is_plain_text(&s[..n], escape),
    }
}

// Whether b is plain at the end of a part, as if a word stood behind it. With a constant flag in each call the compiler drops the
// tests for signs where nothing is escaped.
fn is_plain_last(escape: bool, b: u8) -> bool
    ensures { result ≡ true → plain escape b 97 ≡ true }
{
    if escape {
        is_plain(true, b, b'a')
    } else {
        is_plain(false, b, b'a')
    }
}

// Whether the first n bytes are plain; the last one as if a word stood behind it.
fn is_whole(s: &[u8], n: usize, escape: bool) -> bool
    requires { (0 < n) × (n ≤ length s.now) }
    ensures { result ≡ true → Whole escape (take n s.now) }
{
    is_plain_part(s, n, escape) & is_plain_last(escape, s[n - 1])
}

// Whether s, if its bytes are plain, is appended as it is behind the text: its first word stands as it is anywhere, or the text
// ends inside a line, neither with a white byte nor with a digit, so that no word begins a line or ends a marker. A blank alone
// is left out there.
fn may_begin(text: &[u8], s: &[u8], escape: bool, list_item: bool) -> bool
    requires { 0 < length s.now }
    ensures { result ≡ true → Whole escape s.now → (opts : Opts.FormatOpts) → not opts.skip_escape ≡ escape → opts.list_item ≡ list_item → def.normalized opts text.now s.now ≡ s.now }
{
    if begins_bare(s, escape) {
        return true;
    }
    if list_item | (text.len() == 0) {
        return false;
    }
    let before = text[text.len() - 1];
    if (before <= b' ') | Digit::has(before) {
        return false;
    }
    !((s.len() == 1) & (s[0] == b' '))
}

// Where signs are escaped, most texts longer than this hold one.
const MOST_WITHOUT_SIGN: usize = 128;

// Whether the first n bytes are known to be appended as they are behind the text. Long texts are not looked at where signs are
// escaped. The bytes behind the first n do not count, but few are tested at once with them.
pub fn is_verbatim(text: &[u8], s: &[u8], n: usize, skip_escape: bool, list_item: bool) -> bool
    requires { n ≤ length s.now }
    ensures { result ≡ true → (opts : Opts.FormatOpts) → opts.skip_escape ≡ skip_escape → opts.list_item ≡ list_item → def.normalized opts text.now (take n s.now) ≡ take n s.now }
{
    if (n == 0) | (!skip_escape & (MOST_WITHOUT_SIGN < n)) {
        return false;
    }
    if !may_begin(text, &s[..n], !skip_escape, list_item) {
        return false;
    }
    is_whole(s, n, !skip_escape)
}

// The 16 bytes at `at`.
fn bytes_at(s: &[u8], at: usize) -> [u8; 16]
    requires { at + 16 ≤ length s.now }
    ensures { result ≡ slice at (at + 16) s.now }
{
    let mut b = [0u8; 16];
    b.copy_from_slice(&s[at..at + 16]);
    b
}

// Copies n bytes in blocks of 16, the last of which may reach behind them on both sides. A block is read whole before it is
// stored: without a copy of its own, LLVM tests whether the slices overlap.
fn copy_blocks(room: &mut [u8], at: usize, s: &[u8], n: usize)
    requires { (at + n + 15 ≤ length room.old) × (n + 15 ≤ length s.now) }
    ensures { (length room.new ≡ length room.old) × (take (at + n) room.new ≡ take at room.old ++ take n s.now) }
{
    let mut i = 0;
    while i < n {
        room[at + i..at + i + 16].copy_from_slice(&bytes_at(s, i));
        i += 16;
    }
}

// Appends the first n bytes as they are, in blocks of 16, the last of which may reach behind them: bytes behind the text are left
// to the program.
pub fn push_part(text: &mut Text, s: &[u8], n: usize) -> Result<(), Full>
    requires { n ≤ length s.now }
    ensures { WritesTo text.old text.new result (push (take n s.now)) }
{
    let left = text.room.len() - text.len;
    if left < n {
        return Err(Full);
    }
    if (left - n < 16) | (s.len() - n < 16) {
        return text.push_all(&s[..n]);
    }
    copy_blocks(text.room, text.len, s, n);
    text.len += n;
    Ok(())
}

// No `matches!`: a switch would keep LLVM from testing 16 bytes at once.
#[tactic(auto, unfolding(spec::specs::Bytes::isin))]
fn is_always_escaped(b: u8) -> bool
    ensures { result ≡ isin b ALWAYS_ESCAPED }
{
    (b == b'\\')
        | (b == b'`')
        | (b == b'*')
        | (b == b'_')
        | (b == b'[')
        | (b == b']')
        | (b == b'<')
        | (b == b'|')
        | (b == b'~')
}

// Whether b is escaped, `next` behind it, where no line begins.
pub fn is_sign(b: u8, next: u8) -> bool
    ensures { (rest : List ℕ) → eqb next 91 ≡ starts_with (ascii "[") rest → result ≡ def.is_escaped false false false b rest }
{
    is_always_escaped(b) | ((b == b'!') & (next == b'['))
}

// What 16 bytes add: for each whether a backslash stands before it, and whether each adds itself.
#[derive(Clone, Copy)]
pub struct Block {
    pub signs: [bool; 16],
    pub even: bool,
}

// The block of 16 bytes, behind which one more stands, without a branch, so that it is found for all at once.
pub fn block_of(s: &[u8; 17], escape: bool) -> Block
    ensures { BlockOf escape s.now result }
{
    let next = &s[1..];
    let mut signs = [false; 16];
    let mut even = true;
    for i in 0..16 {
        signs[i] = escape & is_sign(s[i], next[i]);
        even = even & is_plain(false, s[i], next[i]);
    }
    Block { signs, even }
}

// Appends 16 bytes to the first `len`, behind a backslash where one is escaped: where none is, the byte takes the backslash's place.
pub fn push_block(s: &[u8; 16], room: &mut [u8], len: usize, signs: [bool; 16]) -> usize
    requires { len + 32 ≤ length room.old }
    ensures { Appends room.old room.new len result 32 (signed signs s.now 16) }
{
    let mut n = len;
    for i in 0..16 {
        room[n] = b'\\';
        n += signs[i] as usize;
        room[n] = s[i];
        n += 1;
    }
    n
}
