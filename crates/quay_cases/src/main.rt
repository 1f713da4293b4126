// The cases of document 01 that are run and not proved, and inputs of the program `sheet`: a line for each with what is called, then
// the number of the question that says no, or 0, the length of the text and the text, with `/` for LF. tools/quay_cases.py has what
// they must be.

#![tactic(auto)]

mod build;

ghost use Rattle.std.specs.Prelude.{◌<◌, ◌^◌};

use build::Sheet;
use input::refusal::Refusal;
use input::tag::{CLOSE, COMMENT, NAME, OPEN, TEXT, VALUE};
use md::call::serialize_md;
use sheet_main::answer_to;
use std::io;
use text::buffer::front;

// The bytes of each memory of the program `sheet`.
const MEMORY: usize = 65_536;

// The memories that a case uses: for its sheet, for the nodes and for the text.
#[derive(Drop)]
struct Memories<'a> {
    sheet: &'a mut [u8],
    nodes: &'a mut [u8],
    text: &'a mut [u8],
}

// The bytes, with `/` for LF.
fn print_slashed(rt: &impl Print, s: &[u8]) -> io::Result<()> {
    for b in s {
        rt.write_all(&[if *b == b'\n' { b'/' } else { *b }])?;
    }
    Ok(())
}

fn print_text(rt: &impl Print, text: &[u8]) -> io::Result<()> {
    let n = text.len();
    print!(rt; "0 {n} ")?;
    print_slashed(rt, text)?;
    rt.write_all(b"\n")
}

fn print_answer(rt: &impl Print, answer: Result<usize, Refusal>, text: &[u8]) -> io::Result<()> {
    match answer {
        Ok(n) => print_text(rt, front(text, n)),
        Err(refusal) => println!(rt; "{refusal}"),
    }
}

fn print_title(rt: &impl Print, title: &[u8]) -> io::Result<()> {
    rt.write_all(title)?;
    rt.write_all(b": ")
}

// A call with these memories, and its line.
fn show(
    rt: &impl Print,
    title: &[u8],
    sheet: &[u8],
    start: usize,
    with_node: bool,
    nodes: &mut [u8],
    text: &mut [u8],
) -> io::Result<()> {
    print_title(rt, title)?;
    let answer = serialize_md(sheet, None, start, with_node, nodes, text);
    print_answer(rt, answer, text)
}

// A whole sheet, from node 0 without it.
fn show_whole(
    rt: &impl Print,
    title: &[u8],
    sheet: &[u8],
    nodes: &mut [u8],
    text: &mut [u8],
) -> io::Result<()> {
    show(rt, title, sheet, 0, false, nodes, text)
}

fn link(rt: &impl Print, title: &[u8], href: &[u8], lent: &mut Memories) -> io::Result<()> {
    let mut sheet = Sheet::new(lent.sheet);
    sheet.field(OPEN, b"a");
    sheet.field(NAME, b"href");
    sheet.field(VALUE, href);
    sheet.field(TEXT, b"x");
    sheet.field(CLOSE, b"");
    show_whole(rt, title, sheet.bytes(), lent.nodes, lent.text)
}

fn links(rt: &impl Print, lent: &mut Memories) -> io::Result<()> {
    link(rt, b"link to a(b", b"a(b", lent)?;
    link(rt, b"link to a(b)c", b"a(b)c", lent)?;
    link(rt, b"link to a&b", b"a&b", lent)
}

// `show_whole` with the first bytes of the memories.
fn show_lent(
    rt: &impl Print,
    title: &[u8],
    sheet: &[u8],
    nodes: &mut [u8],
    memory: usize,
    text: &mut [u8],
    room: usize,
) -> io::Result<()> {
    if nodes.len() < memory || text.len() < room {
        return Ok(());
    }
    show_whole(rt, title, sheet, &mut nodes[..memory], &mut text[..room])
}

fn starts(rt: &impl Print, sheet: &[u8], nodes: &mut [u8], text: &mut [u8]) -> io::Result<()> {
    show(rt, b"from node 0 without it", sheet, 0, false, nodes, text)?;
    show(rt, b"from node 0 with it", sheet, 0, true, nodes, text)?;
    show(rt, b"from node 1 with it", sheet, 1, true, nodes, text)
}

fn lent_nodes(rt: &impl Print, sheet: &[u8], nodes: &mut [u8], text: &mut [u8]) -> io::Result<()> {
    show_lent(rt, b"3 nodes, 192 bytes", sheet, nodes, 192, text, 100)?;
    show_lent(rt, b"3 nodes, 191 bytes", sheet, nodes, 191, text, 100)?;
    show_lent(rt, b"3 nodes, 63 bytes", sheet, nodes, 63, text, 100)
}

fn paragraph(rt: &impl Print, lent: &mut Memories) -> io::Result<()> {
    let mut sheet = Sheet::new(lent.sheet);
    sheet.holding(b"p", b"x");
    starts(rt, sheet.bytes(), lent.nodes, lent.text)?;
    lent_nodes(rt, sheet.bytes(), lent.nodes, lent.text)
}

// As many nodes, the fragment and empty texts.
fn many(rt: &impl Print, title: &[u8], texts: usize, lent: &mut Memories) -> io::Result<()> {
    let mut sheet = Sheet::new(lent.sheet);
    sheet.fields(TEXT, b"", texts);
    show_whole(rt, title, sheet.bytes(), lent.nodes, lent.text)
}

// As many elements, each in the one before it.
fn deep(rt: &impl Print, title: &[u8], count: usize, lent: &mut Memories) -> io::Result<()> {
    let mut sheet = Sheet::new(lent.sheet);
    sheet.fields(OPEN, b"b", count);
    sheet.field(TEXT, b"x");
    sheet.fields(CLOSE, b"", count);
    show_whole(rt, title, sheet.bytes(), lent.nodes, lent.text)
}

fn limits(rt: &impl Print, lent: &mut Memories) -> io::Result<()> {
    many(rt, b"65,535 nodes", 65534, lent)?;
    many(rt, b"65,536 nodes", 65535, lent)?;
    deep(rt, b"100 open", 100, lent)?;
    deep(rt, b"101 open", 101, lent)
}

// The table of document 01: one row of `td` "010" and "a|b".
fn table(rt: &impl Print, lent: &mut Memories) -> io::Result<()> {
    let mut sheet = Sheet::new(lent.sheet);
    sheet.field(OPEN, b"table");
    sheet.field(OPEN, b"tr");
    sheet.holding(b"td", b"010");
    sheet.holding(b"td", b"a|b");
    sheet.fields(CLOSE, b"", 2);
    let bytes = sheet.bytes();
    show_lent(
        rt,
        b"table, 47 bytes",
        bytes,
        lent.nodes,
        1000,
        lent.text,
        47,
    )?;
    show_lent(
        rt,
        b"table, 46 bytes",
        bytes,
        lent.nodes,
        1000,
        lent.text,
        46,
    )
}

// What the program `sheet` answers to an input, which may be longer than the sheet that it reads.
fn show_input(
    rt: &impl Print,
    title: &[u8],
    sheet: &[u8],
    longer: bool,
    nodes: &mut [u8],
    text: &mut [u8],
) -> io::Result<()> {
    print_title(rt, title)?;
    let answer = answer_to(sheet, longer, nodes, text);
    print_answer(rt, answer, text)
}

// 40,000 asterisks in texts of 125: each is escaped, so that their text is longer than the text memory.
fn too_much(rt: &impl Print, asterisks: &[u8], lent: &mut Memories) -> io::Result<()> {
    let mut sheet = Sheet::new(lent.sheet);
    sheet.fields(TEXT, asterisks, 320);
    show_input(
        rt,
        b"sheet, 40,000 asterisks",
        sheet.bytes(),
        false,
        lent.nodes,
        lent.text,
    )
}

// 512 fields of 128 bytes: comments and a text.
fn longest(rt: &impl Print, asterisks: &[u8], lent: &mut Memories) -> io::Result<()> {
    let mut sheet = Sheet::new(lent.sheet);
    sheet.fields(COMMENT, asterisks, 511);
    sheet.field(TEXT, asterisks);
    let bytes = sheet.bytes();
    show_input(
        rt,
        b"sheet, 65,536 bytes",
        bytes,
        false,
        lent.nodes,
        lent.text,
    )?;
    show_input(rt, b"sheet, more bytes", bytes, true, lent.nodes, lent.text)
}

// The memories of the program `sheet`.
fn inputs(rt: &impl Print) -> io::Result<()> {
    let mut sheet = [0u8; MEMORY];
    let mut nodes = [0u8; MEMORY];
    let mut text = [0u8; MEMORY];
    let mut lent = Memories {
        sheet: &mut sheet,
        nodes: &mut nodes,
        text: &mut text,
    };
    let asterisks = [b'*'; 125];
    too_much(rt, &asterisks, &mut lent)?;
    longest(rt, &asterisks, &mut lent)
}

// The memories: S bytes for a sheet, and N for nodes.
fn show_in<const S: usize, const N: usize>(rt: &impl Print) -> io::Result<()>
    requires sheet_size { S < 2 ^ 63 }
    requires node_size { N < 2 ^ 63 }
{
    let mut sheet = [0u8; S];
    let mut nodes = [0u8; N];
    let mut text = [0u8; 4096];
    let mut lent = Memories {
        sheet: &mut sheet,
        nodes: &mut nodes,
        text: &mut text,
    };
    links(rt, &mut lent)?;
    paragraph(rt, &mut lent)?;
    limits(rt, &mut lent)?;
    table(rt, &mut lent)?;
    inputs(rt)
}

// Room for 65,536 nodes: 3 bytes in the sheet for each empty text, and 64 of node memory.
fn main(rt: HostRuntime) -> io::Result<()> {
    show_in::<196608, 4194304>(&rt)
}
