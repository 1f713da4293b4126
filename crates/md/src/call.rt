// The call: the questions, the tree in node memory, the text, and both memories as they are left.
ghost use Rattle.std.specs.Prelude.{◌≡◌, ◌++◌, ◌-◌, ◌≤◌, ◌<◌, ◌^◌, true, false, eqb, length, take, replicate};
ghost use Rattle.spec.specs.Questions.{refusal};
ghost use Rattle.spec.specs.Call.{written, answer_for};
ghost use Rattle.spec.specs.Promise.{Promise};
ghost use Rattle.input.specs.Scans.{skip_list, skip_of};
ghost use Rattle.spec.specs.Md.TextUtils.{trim_space};
ghost use Rattle.text.specs.Writes.{Writes, Written};
ghost use Rattle.md.specs.Answer.{number_of, length_of, is_written, coded, coded_number, coded_length, flag};
ghost use Rattle.md.specs.Started.{Started, Answered};

use input::questions::first_refusal;
use input::refusal::Refusal;
use normalized::text_utils::trim_space;
use serializer::MDSerializer;
use serializer::options::PackedOpts;
use spec::ctx::FormatOpts;
use text::buffer::{Full, Wrote};
use text::text::Text;
use tree::memory::clear;
use tree::nodes::Tree;
use tree::store::store_nodes;

// The levels of `write`: one more than elements may be open.
const LEVELS: usize = 101;

// Trims white bytes at both ends of the first `len` bytes: how long the text is then.
fn trimmed(room: &mut [u8], len: usize) -> usize
    requires { len ≤ length room.old }
    ensures { Written (length room.old) room.new result (trim_space (take len room.old)) }
{
    let mut text = Text { room, len };
    trim_space(&mut text);
    text.len
}

// What stands in the start node, and then the trim of the text.
fn write_inside(serializer: &MDSerializer, nodes: &mut [u8], text: &mut [u8], start: usize) -> Wrote
    requires { Started serializer.now.sheet.now nodes.old start }
    ensures { Writes (length text.old) text.new result (written serializer.now.sheet.now (skip_of serializer.now.skip) start false) }
{
    let sheet = serializer.sheet;
    let end = Tree { sheet, nodes }.node_end(start);
    let bits = PackedOpts::of(FormatOpts::new());
    let n = serializer.write_behind(nodes, text, start + 1, end, bits, LEVELS)?;
    Ok(trimmed(text, n))
}

// The start node with itself; the fragment has no text of its own.
fn write_whole(serializer: &MDSerializer, nodes: &mut [u8], text: &mut [u8], start: usize) -> Wrote
    requires { Started serializer.now.sheet.now nodes.old start }
    ensures { Writes (length text.old) text.new result (written serializer.now.sheet.now (skip_of serializer.now.skip) start true) }
{
    if start == 0 {
        return Ok(0);
    }
    let sheet = serializer.sheet;
    let to = Tree { sheet, nodes }.node_end(start);
    let bits = PackedOpts::of(FormatOpts::new().include_node());
    serializer.write_behind(nodes, text, start, to, bits, LEVELS)
}

// serializer.rs, `serialize`: the text from the start node.
fn serialize(
    serializer: &MDSerializer,
    nodes: &mut [u8],
    text: &mut [u8],
    start: usize,
    include_node: bool,
) -> Wrote
    requires { Started serializer.now.sheet.now nodes.old start }
    ensures { Writes (length text.old) text.new result (written serializer.now.sheet.now (skip_of serializer.now.skip) start include_node) }
{
    if include_node {
        return write_whole(serializer, nodes, text, start);
    }
    write_inside(serializer, nodes, text, start)
}

// Clears what stands behind a text of n bytes.
fn clear_behind(text: &mut [u8], n: usize)
    requires { n ≤ length text.old }
    ensures { text.new ≡ take n text.old ++ replicate (length text.old - n) 0 }
{
    clear(&mut text[n..]);
}

// The call, where questions 1 to 9 say yes.
fn write_sheet(
    sheet: &[u8],
    skip: Option<&[u8]>,
    start: usize,
    include_node: bool,
    nodes: &mut [u8],
    text: &mut [u8],
) -> Result<usize, Refusal>
    requires { refusal sheet.now (skip_of skip) start (length nodes.old) ≡ 0 }
    ensures { Answered (answer_for (written sheet.now (skip_of skip.entry) start include_node) nodes.old text.old) result nodes.new text.new }
{
    store_nodes(sheet, nodes);
    match serialize(
        &MDSerializer { sheet, skip },
        nodes,
        text,
        start,
        include_node,
    ) {
        Ok(n) => {
            clear(nodes);
            clear_behind(text, n);
            Ok(n)
        }
        Err(Full) => {
            clear(nodes);
            clear(text);
            Err(Refusal::TextMemory)
        }
    }
}

// Writes a sheet as Markdown, from the node with the number `start`, with it or without it, into the memory that is lent. The
// skip list is a run of fields, or with `None` the default. The answer is the length of the text, or the question that said no.
pub fn serialize_md(
    sheet: &[u8],
    skip: Option<&[u8]>,
    start: usize,
    include_node: bool,
    nodes: &mut [u8],
    text: &mut [u8],
) -> Result<usize, Refusal>
    ensures promise { Promise sheet.now (skip_of skip.entry) start include_node nodes.old text.old (number_of result) (length_of result) nodes.new text.new }
    ensures told { is_written result ≡ eqb (number_of result) 0 }
{
    first_refusal(sheet, skip, start, nodes.len())?;
    write_sheet(sheet, skip, start, include_node, nodes, text)
}

// An answer as one signed number.
fn code(answer: Result<usize, Refusal>) -> i64
    requires { length_of answer < 2 ^ 63 }
    ensures { result ≡ coded answer }
{
    match answer {
        Ok(n) => n as i64,
        Err(refusal) => -(refusal.number() as i64),
    }
}

// The call for hosts in other languages: 0 is false and any other flag true; the length of the text, or below 0 the number of
// the question that said no.
#[unsafe(no_mangle)]
pub extern "C" fn buzhnael_serialize_md(
    sheet: &[u8],
    own: u8,
    run: &[u8],
    start: usize,
    include_node: u8,
    nodes: &mut [u8],
    text: &mut [u8],
) -> i64
    ensures { Promise sheet.now (skip_list (flag own) run.now) start (flag include_node) nodes.old text.old (coded_number result) (coded_length result) nodes.new text.new }
{
    let skip = (own != 0).then_some(run);
    let answer = serialize_md(sheet, skip, start, include_node != 0, nodes, text);
    code(answer)
}
