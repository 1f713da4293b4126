// The leaves of elements/code.rs.
ghost use Rattle.std.specs.Prelude.{◌≡◌, cond, ◌+◌, ◌≤◌, ◌<◌, ◌^◌, max, length, take, drop, [], ◌∷◌, ◌++◌};
ghost use Rattle.spec.specs.Bytes.{ascii, ends_with};
ghost use Rattle.spec.specs.Out.{push};
ghost use Rattle.marks.specs.Kept.{kept_byte};
ghost use Rattle.marks.specs.Runs.{RunsBehind};
ghost use Rattle.text.specs.Texts.{WritesTo};
ghost use Rattle.text.specs.Writes.{Writes};
ghost use Rattle.spec.specs.Md.Elements.Code as def;

use text::buffer::{
    Full, Wrote, all_in, contains_byte, ends_with, ends_with_byte, lift, starts_with_byte,
    trim_start_matches,
};
use text::class::{Black, Blank, White};
use text::text::Text;

// The longest run of backticks that has ended, and the run before what follows.
#[derive(Clone, Copy)]
pub struct Runs {
    pub best: usize,
    pub run: usize,
}

// The runs behind b.
fn next_runs(runs: Runs, b: u8) -> Runs
    requires { runs.run + 1 < 2 ^ 64 }
    ensures { RunsBehind runs (b ∷ []) result }
{
    let Runs { best, run } = runs;
    if b == b'`' {
        Runs { best, run: run + 1 }
    } else {
        Runs {
            best: best.max(run),
            run: 0,
        }
    }
}

// The runs behind s.
fn runs_behind(before: Runs, s: &[u8]) -> Runs
    requires { before.run + length s.now < 2 ^ 64 }
    ensures { RunsBehind before s.now result }
{
    let mut runs = before;
    for b in s {
        runs = next_runs(runs, *b);
    }
    runs
}

// `runs_behind` for a block of bytes, most often without a backtick.
#[tactic(auto, using(crate::proofs::Leaves::runs_away))]
fn runs_behind_block(before: Runs, block: &[u8; 16]) -> Runs
    requires { before.run + 16 < 2 ^ 64 }
    ensures { RunsBehind before block.now result }
{
    if contains_byte(block, b'`') {
        runs_behind(before, block)
    } else {
        Runs {
            best: before.best.max(before.run),
            run: 0,
        }
    }
}

// The longest run of backticks.
pub fn max_backtick_run(s: &[u8]) -> usize
    ensures { result ≡ def.max_backtick_run s.now }
{
    let mut runs = Runs { best: 0, run: 0 };
    let mut rest = s;
    while let Some((block, behind)) = rest.split_first_chunk() {
        runs = runs_behind_block(runs, block);
        rest = behind;
    }
    runs = runs_behind(runs, rest);
    runs.best.max(runs.run)
}

// Whether a blank stands between the content and its fences.
#[tactic(auto, unfolding(spec::specs::Md::Elements::Code::needs_space))]
pub fn needs_space(s: &[u8]) -> bool
    ensures { result ≡ def.needs_space s.now }
{
    (starts_with_byte(s, b'`') | ends_with_byte(s, b'`'))
        | ((starts_with_byte(s, b' ') & ends_with_byte(s, b' ')) & !all_in::<Blank>(s))
}

// A byte that a language's name keeps.
#[tactic(auto, unfolding(spec::specs::Bytes::isin, spec::specs::Bytes::digit, spec::specs::Md::Elements::Code::is_alphanumeric))]
fn is_kept(b: u8) -> bool
    ensures { result ≡ kept_byte b }
{
    matches!(b, b'0'..=b'9' | b'A'..=b'Z' | b'a'..=b'z' | b'-' | b'_' | b'+' | b'.' | b'#')
}

fn push_filtered(text: &mut Text, s: &[u8]) -> Result<(), Full>
    ensures { WritesTo text.old text.new result (push (def.filter kept_byte s.now)) }
{
    for b in s {
        text.push_byte_if(*b, is_kept(*b))?;
    }
    Ok(())
}

// Appends what sanitize_attr_value makes of a value.
pub fn push_sanitized(text: &mut Text, raw: &[u8]) -> Result<(), Full>
    ensures { WritesTo text.old text.new result (push (def.sanitize_attr_value raw.now)) }
{
    let word = &raw[trim_start_matches::<White>(raw)..];
    push_filtered(text, &word[..trim_start_matches::<Black>(word)])
}

// Appends the fence that opens a code span, apart from one just closed, and the blank behind it.
fn push_opening(text: &mut Text, fence: usize, space: bool) -> Result<(), Full>
    ensures { WritesTo text.old text.new result (λ t. push (cond (ends_with (ascii "`") t) (ascii " ") [] ++ (def.backticks fence ++ cond space (ascii " ") [])) t) }
{
    let apart = ends_with_byte(text.bytes(), b'`');
    text.push_byte_if(b' ', apart)?;
    text.push_repeated(b'`', fence)?;
    text.push_byte_if(b' ', space)
}

// `push_opening` for the text of `len` bytes in this room: the code stands behind the room, and stays.
fn push_opening_in(room: &mut [u8], len: usize, fence: usize, space: bool) -> Wrote
    requires { len ≤ length room.old }
    ensures { Writes (length room.old) room.new result (push (cond (ends_with (ascii "`") (take len room.old)) (ascii " ") [] ++ (def.backticks fence ++ cond space (ascii " ") [])) (take len room.old)) }
{
    let mut text = Text { room, len };
    push_opening(&mut text, fence, space)?;
    Ok(text.len)
}

fn push_closing(text: &mut Text, fence: usize, space: bool) -> Result<(), Full>
    ensures { WritesTo text.old text.new result (push (cond space (ascii " ") [] ++ def.backticks fence)) }
{
    text.push_byte_if(b' ', space)?;
    text.push_repeated(b'`', fence)
}

// The code span of what stands from base on, of which in_being bytes count until it is appended.
fn push_code_span(text: &mut Text, base: usize, in_being: usize) -> Result<(), Full>
    requires { (text.old.len ≤ base) × (base + in_being ≤ length text.old.room.now) }
    ensures { WritesTo text.old text.new result (def.code_span in_being (drop base text.old.room.now)) }
{
    let content = text.behind(base);
    let fence = max_backtick_run(content) + 1;
    let space = needs_space(content);
    text.len = push_opening_in(&mut text.room[..base], text.len, fence, space)?;
    text.push_lifted(base, in_being)?;
    push_closing(text, fence, space)
}

// The code is the n bytes at `from`, behind the text; in_being of them count until they are appended.
pub fn push_code_text(text: &mut Text, from: usize, n: usize, in_being: usize) -> Result<(), Full>
    requires { (text.old.len ≤ from) × (from + n ≤ length text.old.room.now) × (in_being ≤ n) }
    ensures { WritesTo text.old text.new result (def.push_code_text in_being (take n (drop from text.old.room.now))) }
{
    if n == 0 {
        return Ok(());
    }
    let base = text.room.len() - n;
    lift(text.room, from, n, base);
    push_code_span(text, base, in_being)
}

// Longer than any run of backticks in the content, and three at least.
#[tactic(auto, using(crate::proofs::Spans::run_is_short))]
fn fence_len(content: &[u8]) -> usize
    ensures { result ≡ max (def.max_backtick_run content.now) 2 + 1 }
{
    max_backtick_run(content).max(2) + 1
}

// Appends what stands before the content of a fenced block, on lines of its own.
fn push_block_opening(text: &mut Text, fence: usize, lang: &[u8]) -> Result<(), Full>
    ensures { WritesTo text.old text.new result (λ t. push (cond (ends_with (ascii "\n\n") t) [] (ascii "\n") ++ (def.backticks fence ++ (def.sanitize_attr_value lang.now ++ ascii "\n"))) t) }
{
    let begun = ends_with(text.bytes(), b"\n\n");
    text.push_byte_if(b'\n', !begun)?;
    text.push_repeated(b'`', fence)?;
    push_sanitized(text, lang)?;
    text.push_byte(b'\n')
}

// `push_block_opening` for the text of `len` bytes in this room: the content stands behind the room, and stays.
fn push_block_opening_in(room: &mut [u8], len: usize, fence: usize, lang: &[u8]) -> Wrote
    requires { len ≤ length room.old }
    ensures { Writes (length room.old) room.new result (push (cond (ends_with (ascii "\n\n") (take len room.old)) [] (ascii "\n") ++ (def.backticks fence ++ (def.sanitize_attr_value lang.now ++ ascii "\n"))) (take len room.old)) }
{
    let mut text = Text { room, len };
    push_block_opening(&mut text, fence, lang)?;
    Ok(text.len)
}

fn push_block_closing(text: &mut Text, fence: usize, ended: bool) -> Result<(), Full>
    ensures { WritesTo text.old text.new result (push (cond ended [] (ascii "\n") ++ (def.backticks fence ++ ascii "\n"))) }
{
    text.push_byte_if(b'\n', !ended)?;
    text.push_repeated(b'`', fence)?;
    text.push_byte(b'\n')
}

// The fenced block of what stands from base on.
fn push_block(text: &mut Text, base: usize, lang: &[u8]) -> Result<(), Full>
    requires { (text.old.len ≤ base) × (base ≤ length text.old.room.now) }
    ensures { WritesTo text.old text.new result (λ t. push (cond (ends_with (ascii "\n\n") t) [] (ascii "\n") ++ def.fenced_block (def.sanitize_attr_value lang.now) (drop base text.old.room.now)) t) }
{
    let content = text.behind(base);
    let fence = fence_len(content);
    let ended = content.is_empty() | ends_with_byte(content, b'\n');
    text.len = push_block_opening_in(&mut text.room[..base], text.len, fence, lang)?;
    text.push_lifted(base, 0)?;
    push_block_closing(text, fence, ended)
}

// The fenced block of write_pre: the content is the n bytes at `from`, behind the text, and none of them counts apart from
// the block; `lang` is an attribute's value, or empty.
pub fn push_fenced_block(text: &mut Text, from: usize, n: usize, lang: &[u8]) -> Result<(), Full>
    requires { (text.old.len ≤ from) × (from + n ≤ length text.old.room.now) }
    ensures { WritesTo text.old text.new result (λ t. push (cond (ends_with (ascii "\n\n") t) [] (ascii "\n") ++ def.fenced_block (def.sanitize_attr_value lang.now) (take n (drop from text.old.room.now))) t) }
{
    let base = text.room.len() - n;
    lift(text.room, from, n, base);
    push_block(text, base, lang)
}
