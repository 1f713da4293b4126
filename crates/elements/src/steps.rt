// serializer.rs: what stands before and behind an element's content.
ghost use Rattle.std.specs.Prelude.{◌≡◌, cond, List, [], ◌++◌, ◌+◌, ◌≤◌, length, take, drop};
ghost use Rattle.spec.specs.Bytes.{Bytes, ascii};
ghost use Rattle.spec.specs.Names.{tag_of};
ghost use Rattle.spec.specs.Tree.{Attr, Forest};
ghost use Rattle.spec.specs.Out.{push};
ghost use Rattle.spec.specs.Md.Ctx as ctx;
ghost use Rattle.spec.specs.Md.LineBreak.{linebreak};
ghost use Rattle.spec.specs.Md.Heading.{md_prefix};
ghost use Rattle.spec.specs.Md.TextUtils.{add_linebreaks};
ghost use Rattle.spec.specs.Md.Elements.Blocks as blocks;
ghost use Rattle.spec.specs.Md.Elements.Emphasis as emphasis;
ghost use Rattle.spec.specs.Md.Serializer as def;
ghost use Rattle.tree.specs.Memory.{place_at};
ghost use Rattle.tree.specs.Nodes.{name_at};
ghost use Rattle.text.specs.Texts.{WritesTo};
ghost use Rattle.elements.specs.EmphasisStep.{emphasis_step};
ghost use Rattle.nodes.specs.Stands.{ElementAt, SomeElement};
ghost use Rattle.elements.specs.CloseBy.{close_by, escape_heading};

use crate::list_nodes::{can_interrupt_paragraph, is_list, is_md_block};
use marks::emphasis::push_emphasis;
use marks::heading::{escape_closing_hashes, is_heading, push_md_prefix};
use marks::table::add_cell_block_break;
use nodes::nodes::node_name;
use nodes::skip_md::blank_for_br;
use normalized::text_utils::{
    add_linebreaks, ends_with_double_linebreak, push_block_space, trim_trailing_space,
};
use spec::ctx::{EmphasisScope, FormatOpts};
use spec::element::{
    A, B, BR, CODE, EM, H1, HR, I, IMG, LI, OL, PRE, STRONG, TABLE, TD, TH, TR, UL,
};
use text::buffer::Full;
use text::text::Text;
use tree::nodes::Tree;

#[tactic(auto, unfolding(spec::specs::Md::Elements::Blocks::is_link_block, spec::specs::Bytes::isin))]
fn is_link_block(name: usize) -> bool
    ensures { result ≡ blocks.is_link_block name }
{
    is_md_block(name) | ((name == LI) | ((name == TR) | ((name == TH) | (name == TD))))
}

// The elements that a writer of their own takes up.
#[tactic(auto, unfolding(spec::specs::Md::Serializer::has_writer, spec::specs::Bytes::isin))]
pub fn has_writer(name: usize, opts: FormatOpts) -> bool
    ensures { result ≡ def.has_writer opts name }
{
    ((name == A)
        | ((name == IMG)
            | ((name == PRE)
                | ((name == CODE)
                    | ((name == STRONG) | ((name == B) | ((name == EM) | (name == I))))))))
        | (((name == OL) | ((name == UL) | (name == TABLE))) & !opts.link_body)
}

// Whether node i is a list that one line break parts from the item text before it.
#[tactic(auto, using(crate::proofs::Openings::tight_not, crate::proofs::Openings::tight_is, nodes::proofs::Interrupts::element_name))]
fn is_tight(tree: &Tree, i: usize, name: usize, opts: FormatOpts) -> bool
    requires { SomeElement tree.now.sheet.now tree.now.nodes.now i × (name ≡ name_at tree.now.sheet.now (place_at tree.now.nodes.now i)) }
    ensures { (name : Bytes) (attrs : List Attr) (kids : Forest) → ElementAt tree.now.sheet.now tree.now.nodes.now i name attrs kids → result ≡ def.is_tight opts (tag_of name) attrs kids }
{
    if !(opts.list_item & is_list(name)) {
        return false;
    }
    can_interrupt_paragraph(tree, i)
}

// Line breaks until the text ends with one, or with two.
fn add_breaks(text: &mut Text, tight: bool) -> Result<(), Full>
    ensures { WritesTo text.old text.new result (add_linebreaks (ascii "\n") (cond tight (ascii "\n") (ascii "\n\n"))) }
{
    add_linebreaks(text, b"\n", if tight { b"\n" } else { b"\n\n" })
}

// The break before a block.
#[tactic(auto, using(text::proofs::Texts::as_step, text::proofs::Texts::kept, crate::proofs::Openings::open_space, crate::proofs::Openings::open_inline, crate::proofs::Openings::open_none, crate::proofs::Openings::open_cell, crate::proofs::Openings::open_lines, nodes::proofs::Interrupts::element_name))]
fn open_break(
    tree: &Tree,
    text: &mut Text,
    i: usize,
    name: usize,
    opts: FormatOpts,
) -> Result<(), Full>
    requires { SomeElement tree.now.sheet.now tree.now.nodes.now i × (name ≡ name_at tree.now.sheet.now (place_at tree.now.nodes.now i)) }
    ensures { (name : Bytes) (attrs : List Attr) (kids : Forest) → ElementAt tree.now.sheet.now tree.now.nodes.now i name attrs kids → WritesTo text.old text.new result (def.open_break opts (tag_of name) attrs kids) }
{
    if opts.link_body {
        if is_link_block(name) {
            return push_block_space(text);
        }
        return Ok(());
    }
    if !is_md_block(name) {
        return Ok(());
    }
    if opts.table_cell {
        return add_cell_block_break(text, b"<br>");
    }
    add_breaks(text, is_tight(tree, i, name, opts))
}

// What begins a heading or is a rule.
fn push_opening(text: &mut Text, name: usize, opts: FormatOpts) -> Result<(), Full>
    ensures { WritesTo text.old text.new result (push (cond opts.link_body [] (md_prefix name))) }
{
    // Most elements are neither.
    if opts.link_body | ((name < H1) | (HR < name)) {
        return Ok(());
    }
    push_md_prefix(text, name)
}

// SerializeOp::Open of an element, before its writer or its children.
pub fn opened(tree: &Tree, text: &mut Text, i: usize, opts: FormatOpts) -> Result<(), Full>
    requires { SomeElement tree.now.sheet.now tree.now.nodes.now i }
    ensures { (name : Bytes) (attrs : List Attr) (kids : Forest) → ElementAt tree.now.sheet.now tree.now.nodes.now i name attrs kids → WritesTo text.old text.new result (def.opened opts (tag_of name) attrs kids) }
{
    if opts.skip_md {
        return Ok(());
    }
    let name = node_name(tree, i);
    open_break(tree, text, i, name, opts)?;
    push_opening(text, name, opts)
}

#[tactic(auto, using(text::proofs::Texts::as_step), unfolding(spec::specs::Md::Serializer::close_block))]
fn close_block(text: &mut Text, opts: FormatOpts) -> Result<(), Full>
    ensures { WritesTo text.old text.new result (def.close_block opts) }
{
    if opts.table_cell {
        return add_cell_block_break(text, b"<br>");
    }
    add_linebreaks(text, b"\n", b"\n\n")
}

// The break behind a line.
fn push_line_end(text: &mut Text, opts: FormatOpts) -> Result<(), Full>
    ensures { WritesTo text.old text.new result (push (cond opts.link_body (ascii "<br>") (ascii "  " ++ linebreak opts.table_cell))) }
{
    if opts.link_body {
        return text.push_all(b"<br>");
    }
    text.push_all(if opts.table_cell { b"  <br>" } else { b"  \n" })
}

fn close_line(text: &mut Text, opts: FormatOpts) -> Result<(), Full>
    ensures { WritesTo text.old text.new result (def.close_line opts) }
{
    text.len = trim_trailing_space(text.bytes());
    push_line_end(text, opts)
}

#[tactic(auto, using(text::proofs::Texts::as_step, text::proofs::Texts::kept), unfolding(crate::specs::CloseBy::close_by, spec::specs::Bytes::isin))]
fn close_by(text: &mut Text, name: usize, opts: FormatOpts) -> Result<(), Full>
    ensures { WritesTo text.old text.new result (close_by opts name) }
{
    if is_md_block(name) {
        return close_block(text, opts);
    }
    if (name == BR) | ((name == LI) | (name == TR)) {
        return close_line(text, opts);
    }
    Ok(())
}

#[tactic(auto, using(text::proofs::Texts::as_step, text::proofs::Texts::kept), unfolding(crate::specs::CloseBy::escape_heading))]
fn escape_heading(text: &mut Text, name: usize) -> Result<(), Full>
    ensures { WritesTo text.old text.new result (escape_heading name) }
{
    if !is_heading(name) {
        return Ok(());
    }
    escape_closing_hashes(text)
}

fn close_md(text: &mut Text, name: usize, opts: FormatOpts) -> Result<(), Full>
    ensures { WritesTo text.old text.new result (def.close_md opts name) }
{
    escape_heading(text, name)?;
    close_by(text, name, opts)
}

// SerializeOp::Close.
#[tactic(auto, using(text::proofs::Texts::as_step, text::proofs::Texts::kept), unfolding(spec::specs::Md::Serializer::closed))]
pub fn closed(text: &mut Text, name: usize, opts: FormatOpts) -> Result<(), Full>
    ensures { WritesTo text.old text.new result (def.closed opts name) }
{
    if ends_with_double_linebreak(text.bytes(), opts.table_cell) {
        return Ok(());
    }
    if opts.link_body & is_link_block(name) {
        return push_block_space(text);
    }
    if opts.skip_md {
        return blank_for_br(text, name);
    }
    close_md(text, name, opts)
}

#[tactic(auto, unfolding(spec::specs::Md::Elements::Emphasis::md_emphasis, spec::specs::Bytes::isin))]
fn is_strong(name: usize) -> bool
    ensures { emphasis.md_emphasis name ≡ cond result (ascii "**") (ascii "*") }
{
    (name == STRONG) | (name == B)
}

#[tactic(auto, unfolding(spec::specs::Bytes::same))]
fn scope_of(name: usize) -> EmphasisScope
    ensures { result ≡ ctx.scope_of (emphasis.md_emphasis name) }
{
    if is_strong(name) {
        EmphasisScope::BOLD
    } else {
        EmphasisScope::ITALIC
    }
}

// The options of what is emphasized.
pub fn emphasis_opts(name: usize, opts: FormatOpts) -> FormatOpts
    ensures { result ≡ ctx.emphasis_scope (ctx.scope_of (emphasis.md_emphasis name)) (ctx.inline (ctx.include_node opts)) }
{
    opts.include_node().inline().emphasis_scope(scope_of(name))
}

// The emphasis text is the n bytes behind the text.
#[tactic(auto, using(text::proofs::Texts::as_step, text::proofs::Texts::kept, crate::proofs::Links::emphasis_none, crate::proofs::Links::emphasis_inside, crate::proofs::Links::emphasis_marked))]
pub fn push_emphasis_by(
    text: &mut Text,
    n: usize,
    name: usize,
    opts: FormatOpts,
) -> Result<(), Full>
    requires { text.old.len + n ≤ length text.old.room.now }
    ensures { WritesTo text.old text.new result (emphasis_step opts name (take n (drop text.old.len text.old.room.now))) }
{
    if n == 0 {
        return Ok(());
    }
    let scope = opts.emphasis_scope;
    if scope.contains(scope_of(name)) {
        return push_emphasis(text, n, b"");
    }
    if is_strong(name) {
        return push_emphasis(text, n, b"**");
    }
    push_emphasis(text, n, b"*")
}
