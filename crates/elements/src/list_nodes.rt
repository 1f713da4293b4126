// The tests of elements/list.rs on nodes.
ghost use Rattle.std.specs.Prelude.{◌≡◌, ◌&&◌, ◌||◌, not, List, ℕ, ◌+◌, ◌<◌, ◌≤◌, eqb, length};
ghost use Rattle.std.proofs.Math.Option.{Option};
ghost use Rattle.spec.specs.Bytes.{Bytes, ascii};
ghost use Rattle.spec.specs.Names.{tag_of};
ghost use Rattle.spec.specs.Tree.{Attr, Forest, attr, kids_of};
ghost use Rattle.spec.specs.Md.Elements.Blocks as blocks;
ghost use Rattle.spec.specs.Md.Elements.List as def;
ghost use Rattle.tree.specs.Memory.{place_at};
ghost use Rattle.tree.specs.NodeFields.{attrs_of};
ghost use Rattle.tree.specs.Represents.{Rep, attrs_behind, rest_of};
ghost use Rattle.lists_links.specs.Parsed.{parsed_of};
ghost use Rattle.elements.specs.FirstElement.{FirstElement};
ghost use Rattle.nodes.specs.Stands.{Siblings, SomeNode, NodeAt, ElementAt, SomeElement};

use input::tag::{OPEN, TEXT};
use lists_links::list_number::parse_list_number;
use nodes::nodes::{is_white_space, node_name};
use spec::ctx::ListKind;
use spec::element::{ARTICLE, DIV, HR, LI, OL, PRE, TABLE, UL};
use text::buffer::all_in;
use text::class::White;
use tree::field::NodeField;
use tree::nodes::Tree;

// The number of the attribute of that name.
#[tactic(auto, unfolding(spec::specs::Md::Elements::List::number_of))]
pub fn number_of(field: NodeField, name: &[u8]) -> Option<u32>
    ensures { result ≡ parsed_of (def.number_of (attr name.now (attrs_of field.entry))) }
{
    parse_list_number(field.attribute(name)?)
}

#[tactic(auto, using(crate::proofs::ListTests::parsed_or), unfolding(spec::specs::Md::Elements::List::start_of))]
fn start_of(field: NodeField) -> u32
    ensures { result ≡ def.start_of (attrs_of field.entry) }
{
    number_of(field, b"start").unwrap_or(1)
}

#[tactic(auto, unfolding(spec::specs::Md::Elements::Blocks::is_list, spec::specs::Bytes::isin))]
pub fn is_list(name: usize) -> bool
    ensures { result ≡ blocks.is_list name }
{
    (name == UL) | (name == OL)
}

#[tactic(auto, unfolding(spec::specs::Md::Elements::List::kind_of))]
pub fn kind_of(field: NodeField, name: usize) -> ListKind
    ensures { result ≡ def.kind_of name (attrs_of field.entry) }
{
    if name == OL {
        ListKind::Ol(start_of(field))
    } else {
        ListKind::Ul
    }
}

#[tactic(auto, using(nodes::proofs::Tests::md_block_range))]
pub fn is_md_block(name: usize) -> bool
    ensures { result ≡ blocks.is_md_block name }
{
    (ARTICLE <= name) & (name <= HR)
}

#[tactic(auto, unfolding(spec::specs::Md::Elements::List::node_is_list_item_block))]
pub fn node_is_list_item_block(name: usize) -> bool
    ensures { result ≡ def.node_is_list_item_block name }
{
    !is_list(name) & (is_md_block(name) | (name == PRE))
}

// Whether one of the siblings from number `from` up to `to` is a block of its own.
pub fn has_blocks(tree: &Tree, from: usize, to: usize) -> bool
    requires { Siblings tree.now.sheet.now tree.now.nodes.now from to }
    ensures { (parent : ℕ) (f : Forest) → Rep tree.now.sheet.now tree.now.nodes.now parent from to f → result ≡ def.has_blocks f }
{
    for i in tree.siblings(from, to) {
        if node_is_list_item_block(node_name(tree, i)) {
            return true;
        }
    }
    false
}

// Whether an element of this name is a list, or a block but a table or a rule.
fn is_only_block_name(name: usize) -> bool
    ensures { result ≡ (blocks.is_list name || (def.node_is_list_item_block name && (not (eqb name 14) && not (eqb name 15)))) }
{
    is_list(name) | (node_is_list_item_block(name) & ((name != TABLE) & (name != HR)))
}

// Whether node i is such an element, a comment or a blank text.
#[tactic(auto, using(crate::proofs::ListTests::only_text, crate::proofs::ListTests::only_comment, crate::proofs::ListTests::only_element), unfolding(spec::specs::Bytes::is_blank))]
fn is_only_block(tree: &Tree, i: usize) -> bool
    requires { NodeAt tree.now.sheet.now tree.now.nodes.now i }
    ensures { (parent e : ℕ) (f : Forest) → Rep tree.now.sheet.now tree.now.nodes.now parent i e f → i < e → def.only_blocks f ≡ (result && def.only_blocks (rest_of f)) }
{
    let field = tree.field(i);
    match field.tag() {
        TEXT => all_in::<White>(field.text()),
        OPEN => is_only_block_name(node_name(tree, i)),
        _ => true,
    }
}

fn only_blocks(tree: &Tree, from: usize, to: usize) -> bool
    requires { Siblings tree.now.sheet.now tree.now.nodes.now from to }
    ensures { (parent : ℕ) (f : Forest) → Rep tree.now.sheet.now tree.now.nodes.now parent from to f → result ≡ def.only_blocks f }
{
    for i in tree.siblings(from, to) {
        if !is_only_block(tree, i) {
            return false;
        }
    }
    true
}

// Whether node i is an element that holds blocks and nothing else.
pub fn node_is_block_wrapper(tree: &Tree, i: usize) -> bool
    requires { SomeNode tree.now.sheet.now tree.now.nodes.now i }
    ensures { (parent e : ℕ) (f : Forest) → Rep tree.now.sheet.now tree.now.nodes.now parent i e f → i < e → result ≡ def.node_is_block_wrapper (def.name_of f) (kids_of f) }
{
    let name = node_name(tree, i);
    if !((ARTICLE <= name) & (name <= DIV)) {
        return false;
    }
    let to = tree.node_end(i);
    has_blocks(tree, i + 1, to) && only_blocks(tree, i + 1, to)
}

// Whether before the first list of the siblings some node holds more than White_Space.
fn has_text_before_list(tree: &Tree, from: usize, to: usize) -> bool
    requires { Siblings tree.now.sheet.now tree.now.nodes.now from to }
    ensures { (parent : ℕ) (f : Forest) → Rep tree.now.sheet.now tree.now.nodes.now parent from to f → result ≡ def.has_text_before_list f }
{
    for i in tree.siblings(from, to) {
        if is_list(node_name(tree, i)) {
            return false;
        }
        if !is_white_space(tree, i, tree.node_end(i)) {
            return true;
        }
    }
    false
}

// The first element among the siblings, if there is one.
fn first_element(tree: &Tree, from: usize, to: usize) -> Option<usize>
    requires { Siblings tree.now.sheet.now tree.now.nodes.now from to }
    ensures { FirstElement tree.now.sheet.now tree.now.nodes.now from to result }
{
    for i in tree.siblings(from, to) {
        if tree.field(i).tag() == OPEN {
            return Some(i);
        }
    }
    None
}

// Whether the item at node `li`, the first of the list at node i, begins with 1.
#[tactic(auto, using(crate::proofs::ListTests::parsed_or))]
fn begins_with_one(tree: &Tree, i: usize, li: usize) -> bool
    requires { NodeAt tree.now.sheet.now tree.now.nodes.now i × NodeAt tree.now.sheet.now tree.now.nodes.now li }
    ensures { result ≡ eqb (def.number_or (def.number_of (attr (ascii "value") (attrs_behind tree.now.sheet.now (place_at tree.now.nodes.now li)))) (def.start_of (attrs_behind tree.now.sheet.now (place_at tree.now.nodes.now i)))) 1 }
{
    let start = start_of(tree.field(i));
    number_of(tree.field(li), b"value").unwrap_or(start) == 1
}

// Whether the list at node i can interrupt a paragraph.
pub fn can_interrupt_paragraph(tree: &Tree, i: usize) -> bool
    requires { SomeElement tree.now.sheet.now tree.now.nodes.now i }
    ensures { (name : Bytes) (attrs : List Attr) (kids : Forest) → ElementAt tree.now.sheet.now tree.now.nodes.now i name attrs kids → result ≡ def.can_interrupt_paragraph (tag_of name) attrs kids }
{
    let to = tree.node_end(i);
    let Some(li) = first_element(tree, i + 1, to) else {
        return false;
    };
    if node_name(tree, li) != LI {
        return false;
    }
    if !has_text_before_list(tree, li + 1, tree.node_end(li)) {
        return false;
    }
    node_name(tree, i) != OL || begins_with_one(tree, i, li)
}
