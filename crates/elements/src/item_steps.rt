// elements/list.rs: the steps of a list and of its items that reach no writer, and the contexts of the items.
ghost use Rattle.std.specs.Prelude.{◌≡◌, cond, ℕ};
ghost use Rattle.std.proofs.Math.Option.{Option};
ghost use Rattle.spec.specs.Bytes.{ascii};
ghost use Rattle.spec.specs.Tree.{attr};
ghost use Rattle.spec.specs.Out.{push};
ghost use Rattle.spec.specs.Md.Ctx.{with_kind};
ghost use Rattle.spec.specs.Md.Elements.List as def;
ghost use Rattle.spec.specs.declared.ctx.ListKind.TheVariants as kinds;
ghost use Rattle.tree.specs.NodeFields.{attrs_of};
ghost use Rattle.lists_links.specs.Parsed.{parsed_of};
ghost use Rattle.text.specs.Texts.{WritesTo};
ghost use Rattle.elements.specs.ItemStep.{ended_list, child_opts, line_if, flow_prefix, ended_flow};

use crate::list_nodes::{is_list, number_of};
use lists_links::list::Item;
use marks::heading::{escape_closing_hashes, is_heading, push_md_prefix};
use normalized::text_utils::{add_linebreaks, push_linebreak};
use spec::ctx::{FormatOpts, ListContext, ListKind};
use text::buffer::Full;
use text::text::Text;
use tree::field::NodeField;

// A blank line behind a list.
#[tactic(auto, using(text::proofs::Texts::as_step, text::proofs::Texts::kept))]
pub fn end_list(text: &mut Text, opts: FormatOpts) -> Result<(), Full>
    ensures { WritesTo text.old text.new result (ended_list opts) }
{
    if opts.table_cell {
        return Ok(());
    }
    add_linebreaks(text, b"\n", b"\n\n")
}

#[tactic(auto, unfolding(spec::specs::Md::Ctx::with_kind))]
fn with_kind(ctx: ListContext, kind: ListKind) -> ListContext
    ensures { result ≡ with_kind kind ctx }
{
    ListContext { kind, ..ctx }
}

// The context of an ordered list at an item with that number.
#[tactic(auto, using(crate::proofs::Renumbering::with_number, crate::proofs::Renumbering::without_number))]
fn with_number(ctx: ListContext, number: Option<u32>) -> ListContext
    ensures { (m : ℕ) (o : Option ℕ) → number ≡ parsed_of o → result ≡ def.renumbered (kinds.Ol m) o ctx }
{
    match number {
        Some(n) => with_kind(ctx, ListKind::Ol(n)),
        None => ctx,
    }
}

// An `li` with a `value` renumbers itself and those after it.
pub fn renumbered(field: NodeField, li: bool, ctx: ListContext) -> ListContext
    ensures { result ≡ cond li (def.renumbered ctx.kind (def.number_of (attr (ascii "value") (attrs_of field.entry))) ctx) ctx }
{
    if !li {
        return ctx;
    }
    match ctx.kind {
        ListKind::Ul => ctx,
        ListKind::Ol(_) => with_number(ctx, number_of(field, b"value")),
    }
}

// The options of an item's child that is no block.
pub fn child_opts(name: usize, opts: FormatOpts) -> FormatOpts
    ensures { result ≡ child_opts name opts }
{
    if is_list(name) {
        return opts.include_node();
    }
    opts.list_item().include_node()
}

// A line break that is due.
#[tactic(auto, using(text::proofs::Texts::as_step, text::proofs::Texts::kept))]
pub fn due_line(text: &mut Text, line: bool, item: Item) -> Result<(), Full>
    ensures { WritesTo text.old text.new result (line_if line item.ctx) }
{
    if !line {
        return Ok(());
    }
    push_linebreak(text, item.ctx.opts.table_cell)
}

// What begins a block that is a heading.
#[tactic(auto, using(text::proofs::Texts::as_step, text::proofs::Texts::pushes_nothing))]
pub fn push_heading_prefix(text: &mut Text, name: usize) -> Result<(), Full>
    ensures { WritesTo text.old text.new result (push (flow_prefix name)) }
{
    if !is_heading(name) {
        return Ok(());
    }
    push_md_prefix(text, name)
}

// What ends a block: a heading ends at its line end.
pub fn end_flow(text: &mut Text, name: usize, item: Item) -> Result<(), Full>
    ensures { WritesTo text.old text.new result (ended_flow name item.ctx) }
{
    if is_heading(name) {
        return escape_closing_hashes(text);
    }
    push_linebreak(text, item.ctx.opts.table_cell)
}
