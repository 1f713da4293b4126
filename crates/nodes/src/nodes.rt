// What the writers ask of a node and of the nodes below it.
ghost use Rattle.std.specs.Prelude.{◌≡◌, ℕ, ◌<◌, ◌≤◌, length, take};
ghost use Rattle.spec.specs.Tree.{Forest, text_of};
ghost use Rattle.spec.specs.Bytes.{null, trim_end};
ghost use Rattle.spec.specs.Out.{push};
ghost use Rattle.spec.specs.Call.{tags_to_skip};
ghost use Rattle.spec.specs.Md.Elements.Link as link;
ghost use Rattle.spec.specs.Md.Elements.Link.{has_element};
ghost use Rattle.tree.specs.Memory.{place_at};
ghost use Rattle.tree.specs.Represents.{Rep};
ghost use Rattle.tree.specs.Nodes.{name_at, skipped_at};
ghost use Rattle.input.specs.Scans.{skip_of};
ghost use Rattle.text.specs.Texts.{WritesTo};
ghost use Rattle.nodes.specs.Stands.{Siblings, NodeAt};
ghost use Rattle.nodes.specs.TextStep.{text_step};

use crate::white_space::{Begun, has_ended, white_state};
use input::tag::TEXT;
use normalized::normalize::push_text_part;
use spec::ctx::FormatOpts;
use text::buffer::Full;
use text::text::Text;
use tree::nodes::Tree;

// The number of the name of node i; 0 where it is no element. It stands in node memory as the sheet says it.
pub fn node_name(tree: &Tree, i: usize) -> usize
    requires { NodeAt tree.now.sheet.now tree.now.nodes.now i }
    ensures { result ≡ name_at tree.now.sheet.now (place_at tree.now.nodes.now i) }
{
    tree.node_number(i)
}

// Whether node i is an element that the skip list leaves out. The default list has no name that has a number.
pub fn node_is_skipped(tree: &Tree, skip: Option<&[u8]>, i: usize) -> bool
    requires { NodeAt tree.now.sheet.now tree.now.nodes.now i }
    ensures { result ≡ skipped_at (tags_to_skip (skip_of skip.entry)) tree.now.sheet.now (place_at tree.now.nodes.now i) }
{
    match skip {
        None if tree.node_number(i) != 0 => false,
        _ => tree.field(i).is_skipped(skip),
    }
}

// Whether one of the nodes from number `from` up to `to` is an element of this name.
pub fn has_element(tree: &Tree, from: usize, to: usize, name: usize) -> bool
    requires { Siblings tree.now.sheet.now tree.now.nodes.now from to × (0 < name) }
    ensures { (parent : ℕ) (f : Forest) → Rep tree.now.sheet.now tree.now.nodes.now parent from to f → result ≡ has_element name f }
{
    for i in from..to {
        if node_name(tree, i) == name {
            return true;
        }
    }
    false
}

// Appends the texts of the nodes from number `from` up to `to`, as they stand in the sheet.
pub fn push_text_of(tree: &Tree, text: &mut Text, from: usize, to: usize) -> Result<(), Full>
    requires { Siblings tree.now.sheet.now tree.now.nodes.now from to }
    ensures { (parent : ℕ) (f : Forest) → Rep tree.now.sheet.now tree.now.nodes.now parent from to f → WritesTo text.old text.new result (push (text_of f)) }
{
    for i in from..to {
        text.push_all(tree.field(i).text())?;
    }
    Ok(())
}

// Appends the text of node i, if it is one.
pub fn write_text_node(tree: &Tree, text: &mut Text, i: usize, opts: FormatOpts) -> Result<(), Full>
    requires { NodeAt tree.now.sheet.now tree.now.nodes.now i }
    ensures { WritesTo text.old text.new result (text_step opts tree.now.sheet.now (place_at tree.now.nodes.now i)) }
{
    let field = tree.field(i);
    if field.tag() != TEXT {
        return Ok(());
    }
    // a part and no slice: a few bytes behind it are read, too
    let part = field.text_range();
    push_text_part(
        text,
        &field.sheet[part.start..],
        part.end - part.start,
        opts.inline,
        opts.skip_escape,
        opts.list_item,
    )
}

// write_text of the nodes from number `from` up to `to`: it knows no skip list.
pub fn write_text(
    tree: &Tree,
    text: &mut Text,
    from: usize,
    to: usize,
    opts: FormatOpts,
) -> Result<(), Full>
    requires { Siblings tree.now.sheet.now tree.now.nodes.now from to }
    ensures { (parent : ℕ) (f : Forest) → Rep tree.now.sheet.now tree.now.nodes.now parent from to f → WritesTo text.old text.new result (link.write_text opts f) }
{
    for i in from..to {
        write_text_node(tree, text, i, opts)?;
    }
    Ok(())
}

// Whether the texts of the nodes from number `from` up to `to` together are White_Space.
pub fn is_white_space(tree: &Tree, from: usize, to: usize) -> bool
    requires { Siblings tree.now.sheet.now tree.now.nodes.now from to }
    ensures { (parent : ℕ) (f : Forest) → Rep tree.now.sheet.now tree.now.nodes.now parent from to f → result ≡ null (trim_end (text_of f)) }
{
    let mut state = Begun::Nothing;
    for i in from..to {
        state = white_state(tree.field(i).text(), state);
    }
    has_ended(state)
}
