// The nodes in node memory as lines of numbers, by the access functions alone.
ghost use Rattle.std.specs.Prelude.{◌+◌, ◌*◌, ◌≤◌, ◌<◌, length, IfOk};
ghost use Rattle.tree.specs.Nodes.{Readable};
ghost use Rattle.tree.specs.Represents.{Holds};

use crate::list::Call;
use input::fields::span_at;
use input::tag::NAME;
use std::io;
use tree::field::NodeField;
use tree::nodes::Tree;

// Bytes of the sheet: how far behind the node's field they begin, and how many they are.
#[derive(Clone, Copy, PartialEq)]
struct Part {
    from: usize,
    len: usize,
}

// What the access functions say of a node. Other nodes are numbered from it, 0 where there is none, and its place is counted from
// that of the node before it.
#[derive(Clone, Copy, PartialEq)]
struct Line {
    end: usize,
    parent: usize,
    first_child: usize,
    next_sibling: usize,
    tag: u8,
    number: usize,
    text: Part,
    value: Part,
    language: Part,
    skipped: bool,
    place: usize,
}

// A blank and a number.
pub fn put(rt: &impl Print, n: usize) -> io::Result<()> {
    rt.write_all(b" ")?;
    rt.print(n)
}

// How far a node lies behind node i; 0 where there is none.
fn behind_node(n: Option<usize>, i: usize) -> usize {
    n.map_or(0, |j| j.saturating_sub(i))
}

// How far behind the field the first attribute stands that has one of two names and this value: as far as its value. 0 where there
// is none.
#[inline(never)]
fn start_of_value(field: NodeField, names: [&[u8]; 2], value: &[u8]) -> usize {
    let NodeField { sheet, place } = field;
    let mut named = false;
    let mut p = field.span().end;
    // a loop over places, which `Fields` does not give
    while 3 <= sheet.len() - p {
        let f = span_at(sheet, p);
        let bytes = &sheet[f.start..f.end];
        if named && bytes == value {
            return f.start - place;
        }
        named = f.tag == NAME && (bytes == names[0] || bytes == names[1]);
        p = f.end;
    }
    0
}

// Where the value of an attribute stands that has one of two names. Most nodes have no such attribute: for these nothing is called.
#[inline]
fn part_of_value(field: NodeField, names: [&[u8]; 2], value: Option<&[u8]>) -> Part {
    match value {
        Some(value) => Part {
            from: start_of_value(field, names, value),
            len: value.len(),
        },
        None => Part { from: 0, len: 0 },
    }
}

// Node i of a call; `before` is where the field of the node before it stands.
fn read_line(call: &Call, tree: &Tree, i: usize, before: usize) -> Line
    requires { Readable tree.now.sheet.now tree.now.nodes.now i }
{
    let field = tree.field(i);
    let text = field.text_range();
    let value = field.attribute(call.name);
    let language = field.language();
    Line {
        end: tree.node_end(i).saturating_sub(i),
        parent: tree.node_parent(i),
        first_child: behind_node(tree.first_child(i), i),
        next_sibling: behind_node(tree.next_sibling(i), i),
        tag: field.tag(),
        number: tree.node_number(i),
        text: Part {
            from: text.start.saturating_sub(field.place),
            len: text.end.saturating_sub(text.start),
        },
        value: part_of_value(field, [call.name, call.name], value),
        language: part_of_value(field, [b"data-lang", b"data-language"], language),
        skipped: field.is_skipped(call.skip),
        place: field.place.saturating_sub(before),
    }
}

fn put_line(rt: &impl Print, line: &Line) -> io::Result<()> {
    let numbers = [
        line.end,
        line.parent,
        line.first_child,
        line.next_sibling,
        usize::from(line.tag),
        line.number,
        line.text.from,
        line.text.len,
        line.value.from,
        line.value.len,
        line.language.from,
        line.language.len,
        usize::from(line.skipped),
        line.place,
    ];
    for n in numbers {
        put(rt, n)?;
    }
    rt.write_all(b"\n")
}

// How often the last line comes again.
fn put_again(rt: &impl Print, again: usize) -> io::Result<()> {
    if again == 0 {
        return Ok(());
    }
    rt.write_all(b" *")?;
    put(rt, again)?;
    rt.write_all(b"\n")
}

// Every node but the fragment, in a line of its own; lines that are alike as one, with how often it comes again.
pub fn print_nodes(rt: &impl Print, call: &Call, tree: &Tree, count: usize) -> io::Result<()>
    requires { Holds tree.now.sheet.now tree.now.nodes.now count }
{
    let mut last = None;
    let mut again = 0;
    let mut before = 0;
    for i in 1..count {
        let line = read_line(call, tree, i, before);
        before = tree.node_place(i);
        if last == Some(line) {
            again += 1;
            continue;
        }
        put_again(rt, again)?;
        put_line(rt, &line)?;
        again = 0;
        last = Some(line);
    }
    put_again(rt, again)
}
