// `write` under skip_md: texts, and a blank for a `br`.
ghost use Rattle.std.specs.Prelude.{◌≡◌, List, ◌+◌, ◌<◌, ◌≤◌, length, take};
ghost use Rattle.spec.specs.Bytes.{Bytes};
ghost use Rattle.spec.specs.Call.{tags_to_skip};
ghost use Rattle.spec.specs.Names.{tag_of};
ghost use Rattle.spec.specs.Out.{and_then};
ghost use Rattle.spec.specs.Tree.{Attr, Forest, nothing, element};
ghost use Rattle.spec.specs.Md.Elements.Code as def;
ghost use Rattle.tree.specs.Memory.{end_at};
ghost use Rattle.input.specs.Scans.{skip_of};
ghost use Rattle.text.specs.Texts.{WritesTo};
ghost use Rattle.nodes.specs.Spots.{below_spot, next_spot, spot_step};
ghost use Rattle.nodes.specs.Stands.{NodeAt, ElementAt, SomeElement};

use crate::nodes::{node_name, write_text_node};
use input::tag::OPEN;
use spec::ctx::FormatOpts;
use spec::element::BR;
use text::buffer::{Full, ends_with, ends_with_byte};
use text::text::Text;
use tree::nodes::Tree;

// A place among the nodes: the innermost element that is open there, and the number of the node that follows.
#[derive(Clone, Copy)]
pub struct Spot {
    pub open: usize,
    pub at: usize,
}

// A `br` is a blank where Markdown is left out.
pub fn blank_for_br(text: &mut Text, name: usize) -> Result<(), Full>
    ensures { WritesTo text.old text.new result (def.blank_for_br name) }
{
    if name != BR || ends_with_byte(text.bytes(), b' ') {
        return Ok(());
    }
    text.push_byte(b' ')
}

fn close_skip_md(text: &mut Text, name: usize) -> Result<(), Full>
    ensures { WritesTo text.old text.new result (def.close_skip_md name) }
{
    if ends_with(text.bytes(), b"\n\n") {
        return Ok(());
    }
    blank_for_br(text, name)
}

// The text of the node that follows, or the close of the open element where none follows in it.
fn write_spot(
    tree: &Tree,
    text: &mut Text,
    open: usize,
    at: usize,
    opts: FormatOpts,
) -> Result<(), Full>
    requires { NodeAt tree.now.sheet.now tree.now.nodes.now «open» × (at < end_at tree.now.nodes.now «open» → NodeAt tree.now.sheet.now tree.now.nodes.now at) }
    ensures { WritesTo text.old text.new result (spot_step opts tree.now.sheet.now tree.now.nodes.now «open» at) }
{
    if at < tree.node_end(open) {
        return write_text_node(tree, text, at, opts);
    }
    let name = node_name(tree, open);
    close_skip_md(text, name)
}

// The place behind a node that follows in the open element: in it, if it is an element that is not left out.
fn below_spot(tree: &Tree, skip: Option<&[u8]>, open: usize, at: usize) -> Spot
    requires { NodeAt tree.now.sheet.now tree.now.nodes.now at }
    ensures { result ≡ below_spot (tags_to_skip (skip_of skip.entry)) tree.now.sheet.now tree.now.nodes.now «open» at }
{
    let field = tree.field(at);
    if field.is_skipped(skip) {
        return Spot {
            open,
            at: tree.node_end(at),
        };
    }
    if field.tag() == OPEN {
        return Spot {
            open: at,
            at: at + 1,
        };
    }
    Spot { open, at: at + 1 }
}

// The next place. Behind the end of node `top` no element is open, which is node 0.
fn next_spot(tree: &Tree, skip: Option<&[u8]>, top: usize, open: usize, at: usize) -> Spot
    requires { NodeAt tree.now.sheet.now tree.now.nodes.now «open» × (at < end_at tree.now.nodes.now «open» → NodeAt tree.now.sheet.now tree.now.nodes.now at) }
    ensures { result ≡ next_spot (tags_to_skip (skip_of skip.entry)) tree.now.sheet.now tree.now.nodes.now top «open» at }
{
    if at < tree.node_end(open) {
        return below_spot(tree, skip, open, at);
    }
    if open == top {
        return Spot { open: 0, at };
    }
    Spot {
        open: tree.node_parent(open),
        at,
    }
}

// What stands in the element at node i, and its close.
fn write_open_skip_md(
    tree: &Tree,
    skip: Option<&[u8]>,
    text: &mut Text,
    i: usize,
    opts: FormatOpts,
) -> Result<(), Full>
    requires { SomeElement tree.now.sheet.now tree.now.nodes.now i }
    ensures { (name : Bytes) (attrs : List Attr) (kids : Forest) → ElementAt tree.now.sheet.now tree.now.nodes.now i name attrs kids → WritesTo text.old text.new result (λ t. and_then (def.write_skip_md (tags_to_skip (skip_of skip.entry)) opts kids t) (def.close_skip_md (tag_of name))) }
{
    let mut open = i;
    let mut at = i + 1;
    while open != 0 {
        write_spot(tree, text, open, at, opts)?;
        let next = next_spot(tree, skip, i, open, at);
        open = next.open;
        at = next.at;
    }
    Ok(())
}

// The element at node i under skip_md.
pub fn write_skip_md(
    tree: &Tree,
    skip: Option<&[u8]>,
    text: &mut Text,
    i: usize,
    opts: FormatOpts,
) -> Result<(), Full>
    requires { SomeElement tree.now.sheet.now tree.now.nodes.now i }
    ensures { (name : Bytes) (attrs : List Attr) (kids : Forest) → ElementAt tree.now.sheet.now tree.now.nodes.now i name attrs kids → WritesTo text.old text.new result (def.write_skip_md (tags_to_skip (skip_of skip.entry)) opts (element name attrs kids nothing)) }
{
    if tree.field(i).is_skipped(skip) {
        return Ok(());
    }
    write_open_skip_md(tree, skip, text, i, opts)
}
