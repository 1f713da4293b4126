// Questions 1 to 9. Each is answered for any bytes, by its definition in `spec`.
#![tactic(auto, unfolding(spec::specs::Bytes::isin, spec::specs::Questions::every_field, spec::specs::Questions::question1, spec::specs::Questions::question2, spec::specs::Questions::question3, spec::specs::Questions::question4, spec::specs::Questions::question5, spec::specs::Questions::question6, spec::specs::Questions::question7, spec::specs::Questions::question8, spec::specs::Questions::question9, spec::specs::Questions::may_follow, spec::specs::Questions::open_after, spec::specs::Questions::no_stray, spec::specs::Questions::right_length, spec::specs::Questions::keep_rules, spec::specs::Questions::still_open, spec::specs::Questions::shallow, spec::specs::Questions::max_open, spec::specs::Questions::nodes_in, spec::specs::Questions::no_blockquote, crate::specs::Scans::scan_of))]

ghost use Rattle.std.specs.Prelude.{◌≡◌, ◌+◌, ◌≤◌, ◌<◌, false, length, IsTrue, MatchResult};
ghost use Rattle.spec.specs.Fields.{fields};
ghost use Rattle.spec.specs.Questions.{
  every_field,
  open_after,
  may_follow,
  node_count,
  shallow,
  skip_name,
  question1,
  question2,
  question3,
  question4,
  question5,
  question6,
  question7,
  question8,
  question9,
  refusal,
};
ghost use Rattle.input.specs.Scans.{length_right, field_right, scan_of, begins_node, count_after, opens_blockquote, skip_name_of, skip_of};
ghost use Rattle.input.specs.Sound.{refusal_of_sound};
ghost use Rattle.input.specs.Refusals.{number_told};

use crate::fields::{Fields, is_whole};
use crate::refusal::Refusal;
use crate::sound::sound_count;
use crate::tag::{CLOSE, COMMENT, NAME, NO_TAG, OPEN, SKIP, TEXT, VALUE};
use crate::utf8::is_utf8;

// The most bytes of a sheet.
pub(crate) const MAX_LENGTH: usize = 1048576;

// The most nodes of a sheet, fragment included.
pub(crate) const MAX_NODES: usize = 65535;

// The most elements that may be open.
pub(crate) const MAX_OPEN: usize = 100;

// The name that no element may have.
pub(crate) const BLOCKQUOTE: &[u8] = b"blockquote";

// 1: Is the sheet at most 1,048,576 bytes?
pub fn is_short(sheet: &[u8]) -> bool
    ensures { result ≡ question1 sheet.now }
{
    sheet.len() <= MAX_LENGTH
}

// 2: Does every field end inside it, with a tag from 1 to 6?
pub fn is_in_fields(sheet: &[u8]) -> bool
    ensures { result ≡ question2 sheet.now }
{
    is_whole(sheet, OPEN, CLOSE)
}

// Whether a field may stand behind one with the tag `before`.
fn may_follow(before: u8, tag: u8) -> bool
    ensures { result ≡ may_follow before tag }
{
    match tag {
        NAME => before == OPEN || before == VALUE,
        VALUE => before == NAME,
        _ => before != NAME,
    }
}

// Whether a name holds something and a close nothing.
fn length_right(tag: u8, len: usize) -> bool
    ensures { result ≡ length_right tag len }
{
    match tag {
        OPEN | NAME => len != 0,
        CLOSE => len == 0,
        _ => true,
    }
}

// How many elements are open behind a field.
fn open_after(depth: usize, tag: u8) -> usize
    requires { depth < 18446744073709551615 }
    ensures { (result ≡ open_after depth tag) × (result ≤ depth + 1) }
{
    match tag {
        OPEN => depth + 1,
        CLOSE => depth.saturating_sub(1),
        _ => depth,
    }
}

// Whether a field of `len` bytes keeps the rules, behind one with the tag `before` and with `depth` elements open.
fn field_right(before: u8, depth: usize, tag: u8, len: usize) -> bool
    ensures { result ≡ field_right before depth tag len }
{
    may_follow(before, tag) && length_right(tag, len) && (tag != CLOSE || depth != 0)
}

// How many elements are still open at the end of a sheet whose fields keep the rules.
pub fn scan_rules(s: &[u8]) -> Option<usize>
    ensures { result ≡ scan_of (fields s.now) }
{
    let mut before = NO_TAG;
    let mut depth = 0;
    for f in Fields::new(s) {
        if !field_right(before, depth, f.tag, f.body.len()) {
            return None;
        }
        depth = open_after(depth, f.tag);
        before = f.tag;
    }
    if before == NAME {
        return None;
    }
    Some(depth)
}

// 3: Do the fields keep the rules, with every element closed and no stray close?
pub fn keeps_rules(sheet: &[u8]) -> bool
    ensures { result ≡ question3 sheet.now }
{
    scan_rules(sheet) == Some(0)
}

// 4: Are all names, values, texts and comments UTF-8?
pub fn holds_utf8(s: &[u8]) -> bool
    ensures { result ≡ question4 s.now }
{
    Fields::new(s).all(|f| is_utf8(f.body))
}

// Whether a field begins a node.
fn begins_node(tag: u8) -> bool
    ensures { result ≡ begins_node tag }
{
    matches!(tag, OPEN | TEXT | COMMENT)
}

// One more behind a field that begins a node.
pub fn count_after(count: usize, tag: u8) -> usize
    requires { count < 18446744073709551615 }
    ensures { (result ≡ count_after count tag) × (result ≤ count + 1) }
{
    if begins_node(tag) {
        return count + 1;
    }
    count
}

// The nodes of a sheet, fragment included.
pub fn node_count(s: &[u8]) -> usize
    ensures { result ≡ node_count s.now }
{
    Fields::new(s).filter(|f| begins_node(f.tag)).count() + 1
}

// Whether never more than `MAX_OPEN` elements are open.
fn is_shallow(s: &[u8]) -> bool
    ensures { result ≡ shallow 0 (fields s.now) }
{
    let mut depth = 0;
    for f in Fields::new(s) {
        if MAX_OPEN < depth {
            return false;
        }
        depth = open_after(depth, f.tag);
    }
    depth <= MAX_OPEN
}

// 5: Are there at most 65,535 nodes, fragment included, and never over 100 elements open?
pub fn is_within_limits(sheet: &[u8]) -> bool
    ensures { result ≡ question5 sheet.now }
{
    node_count(sheet) <= MAX_NODES && is_shallow(sheet)
}

// Whether a field with these bytes opens a block quote.
#[tactic(auto, using(crate::proofs::Splitting::same_eq))]
fn opens_blockquote(tag: u8, body: &[u8]) -> bool
    ensures { result ≡ opens_blockquote tag body.now }
{
    tag == OPEN && body == BLOCKQUOTE
}

// 6: Is no element named `blockquote`?
pub fn has_no_blockquote(s: &[u8]) -> bool
    ensures { result ≡ question6 s.now }
{
    Fields::new(s).all(|f| !opens_blockquote(f.tag, f.body))
}

// 7: Is the start number that of a node?
pub fn is_node(sheet: &[u8], start: usize) -> bool
    ensures { result ≡ question7 sheet.now start }
{
    start < node_count(sheet)
}

// How many fields a run has.
fn field_count(s: &[u8]) -> usize
    ensures { result ≡ length (fields s.now) }
{
    Fields::new(s).count()
}

// Whether the part is a name for a skip list.
fn is_skip_name(s: &[u8]) -> bool
    ensures { result ≡ skip_name_of s.now }
{
    (1..=64).contains(&s.len()) && is_utf8(s)
}

// Whether every field of a run is such a name.
fn holds_skip_names(s: &[u8]) -> bool
    ensures { result ≡ every_field skip_name (fields s.now) }
{
    Fields::new(s).all(|f| is_skip_name(f.body))
}

// 8: Is the skip list the default, or at most 16 whole tag-7 fields of 1 to 64 UTF-8 bytes each?
pub fn is_skip_list(skip: Option<&[u8]>) -> bool
    ensures { result ≡ question8 (skip_of skip.entry) }
{
    match skip {
        Some(run) => is_whole(run, SKIP, SKIP) && field_count(run) <= 16 && holds_skip_names(run),
        None => true,
    }
}

// 9: Has the node memory at least 64 bytes for each node?
pub fn has_node_memory(sheet: &[u8], memory: usize) -> bool
    ensures { result ≡ question9 sheet.now memory }
{
    node_count(sheet) <= memory / 64
}

// Goes on where a question says yes.
fn require(yes: bool, or: Refusal) -> Result<(), Refusal>
    ensures { MatchResult result (λ _. IsTrue yes) (λ no. (no ≡ or) × (yes ≡ false)) }
{
    if yes { Ok(()) } else { Err(or) }
}

// The first question that says no: each question for itself, in their order.
#[tactic(auto, unfolding(spec::specs::Questions::refusal, spec::specs::Questions::first_no))]
fn refusal_in_order(
    sheet: &[u8],
    skip: Option<&[u8]>,
    start: usize,
    memory: usize,
) -> Result<(), Refusal>
    ensures { number_told result ≡ refusal sheet.now (skip_of skip.entry) start memory }
{
    require(is_short(sheet), Refusal::SheetLength)?;
    require(is_in_fields(sheet), Refusal::Fields)?;
    require(keeps_rules(sheet), Refusal::Rules)?;
    require(holds_utf8(sheet), Refusal::Utf8)?;
    require(is_within_limits(sheet), Refusal::Limits)?;
    require(has_no_blockquote(sheet), Refusal::Blockquote)?;
    require(is_node(sheet, start), Refusal::Start)?;
    require(is_skip_list(skip), Refusal::SkipList)?;
    require(has_node_memory(sheet, memory), Refusal::NodeMemory)
}

// The number of the question that says no, for a sheet of so many nodes that questions 1 to 6 let pass.
#[tactic(auto, unfolding(crate::specs::Sound::refusal_of_sound, spec::specs::Questions::first_no))]
fn refusal_of_sound(
    count: usize,
    skip: Option<&[u8]>,
    start: usize,
    memory: usize,
) -> Result<(), Refusal>
    ensures { number_told result ≡ refusal_of_sound count (skip_of skip.entry) start memory }
{
    require(start < count, Refusal::Start)?;
    require(is_skip_list(skip), Refusal::SkipList)?;
    require(count <= memory / 64, Refusal::NodeMemory)
}

// The first question among 1 to 9 that says no.
pub fn first_refusal(
    sheet: &[u8],
    skip: Option<&[u8]>,
    start: usize,
    memory: usize,
) -> Result<(), Refusal>
    ensures { number_told result ≡ refusal sheet.now (skip_of skip.entry) start memory }
{
    match sound_count(sheet) {
        Some(count) => refusal_of_sound(count, skip, start, memory),
        None => refusal_in_order(sheet, skip, start, memory),
    }
}
