// The writers of serializer.rs and elements: one call cycle, in which `levels` falls. Its proof is one too, in proofs/+writers.

#![tactic(auto)]

ghost use Rattle.std.specs.Prelude.{◌≡◌, Bool, cond, List, [], ℕ, ◌+◌, ◌-◌, ◌≤◌, ◌<◌, eqb, length, take, drop};
ghost use Rattle.spec.specs.Bytes.{Bytes};
ghost use Rattle.spec.specs.Names.{tag_of};
ghost use Rattle.spec.specs.Tree.{Attr, Forest, nothing, element};
ghost use Rattle.spec.specs.Out.{push};
ghost use Rattle.spec.specs.Call.{tags_to_skip};
ghost use Rattle.spec.specs.Md.Ctx.{advance_ol_number};
ghost use Rattle.spec.specs.Md.MDSerializer.{Ancestors, write_kids};
ghost use Rattle.spec.specs.Md.Serializer.{write_at, write_nodes, in_element, write_element};
ghost use Rattle.spec.specs.Md.Elements.Emphasis.{write_emphasis};
ghost use Rattle.spec.specs.Md.Elements.Link.{link_of, link_to, write_link};
ghost use Rattle.spec.specs.Md.Elements.Table.{Cell, cell_text, row_texts, write_table};
ghost use Rattle.spec.specs.Md.Elements.List.{item_child, item_children, list_children, block_child, write_list, write_list_item, write_list_item_blocks, write_list_item_indented};
ghost use Rattle.tree.specs.Memory.{Kept, place_at, end_at, parent_at};
ghost use Rattle.tree.specs.Nodes.{name_at};
ghost use Rattle.tree.specs.Represents.{Around};
ghost use Rattle.input.specs.Scans.{skip_of};
ghost use Rattle.lists_links.specs.Items.{item_of};
ghost use Rattle.text.specs.Writes.{Writes};
ghost use Rattle.serializer.specs.ListStep.{list_head, inline_step, led_step, body_step};
ghost use Rattle.tables.specs.Rows.{Rows, RowAt, SomeRow, SomeRows};
ghost use Rattle.tables.specs.Spans.{row_lengths, table_lengths};
ghost use Rattle.nodes.specs.Stands.{ElementAt, Placed, PlacedNode, Placeds};
ghost use Rattle.tables.specs.TableSteps.{rows_texts};
ghost use Rattle.serializer.specs.Options as def;
ghost use Rattle.serializer.specs.Writers.{self_at, Short, Fits, FitsIn, SameRoom, WritesForest, WritesElement, ForestTo, ElementTo, ForestGoes, ElementGoes, RowTo, RowsTo, progress_on};

use elements::code::write_code;
use elements::item_steps::{
    child_opts, due_line, end_flow, end_list, push_heading_prefix, renumbered,
};
use elements::link::{push_link, push_text_link};
use elements::list_nodes::{
    has_blocks, is_list, kind_of, node_is_block_wrapper, node_is_list_item_block,
};
use elements::pre::write_pre;
use elements::steps::{closed, emphasis_opts, has_writer, opened, push_emphasis_by};
use input::tag::{OPEN, TEXT};
use list_items::start_item;
use lists_links::image::write_img;
use lists_links::list::{Item, end_item, item_from, push_block_lead, push_inline_lead};
use lists_links::list_indented::push_indented;
use marks::table::{escape_table_cell_inplace, trim_trailing_cell_break};
use nodes::nodes::{has_element, node_is_skipped, node_name, write_text_node};
use normalized::text_utils::{push_linebreak, trim_space};
use options::PackedOpts;
use progress::{Going, rule_block};
use spec::ctx::{FormatOpts, ListContext};
use spec::element::{A, CODE, HR, IMG, LI, PRE, TABLE};
use tables::rows::{is_table_node_writable, next_filled_row, next_row};
use tables::table::{next_cell, push_table, store_span};
use text::buffer::{Full, Wrote};
use text::text::Text;
use texts::{is_blank_text, is_one_text, trim_behind_text, write_text_behind};
use tree::nodes::Tree;

pub mod options;
pub mod progress;
pub mod texts;

// serializer.rs: the sheet that a call writes, which passes question 1, and its skip list where it isn't the default.
#[derive(Clone, Copy)]
pub struct MDSerializer<'s, 'k> {
    pub sheet: &'s [u8],
    pub skip: Option<&'k [u8]>,
    ghost short: { Short sheet.now },
}

impl<'s, 'k> MDSerializer<'s, 'k> {
    // serializer.rs: the nodes from number `from` up to `to`, siblings of one another, each with itself; `levels` falls. The hints
    // make a level one function without those that have writers: left to LLVM, a wide sheet takes 12 in a hundred more instructions,
    // and nested wrappers 10.
    #[cycle(writers)]
    #[inline(never)]
    pub fn write(
        &self,
        nodes: &mut [u8],
        text: &mut Text,
        from: usize,
        to: usize,
        bits: PackedOpts,
        levels: usize,
    ) -> Result<(), Full>
        requires { Placeds self.now.sheet.now nodes.old from to × Fits (def.unpacked bits) levels }
        ensures kept { Kept from to nodes.old nodes.new }
        ensures room { SameRoom text.old text.new }
        ensures writes_forest { ForestTo self.now.sheet.now nodes.old from to (λ anc f. write_at (tags_to_skip (skip_of self.now.skip)) levels anc (def.unpacked bits) f) text.old text.new result }
    {
        if levels == 0 {
            return Ok(());
        }
        let sheet = self.sheet;
        let mut at = from;
        while at < to {
            self.node(nodes, text, at, bits, levels - 1)?;
            at = Tree { sheet, nodes }.node_end(at);
        }
        Ok(())
    }

    // `write`; one text that stands alone is written at once.
    #[cycle(writers)]
    fn siblings(
        &self,
        nodes: &mut [u8],
        text: &mut Text,
        from: usize,
        to: usize,
        bits: PackedOpts,
        levels: usize,
    ) -> Result<(), Full>
        requires { Placeds self.now.sheet.now nodes.old from to × Fits (def.unpacked bits) levels }
        ensures kept { Kept from to nodes.old nodes.new }
        ensures room { SameRoom text.old text.new }
        ensures writes_forest { ForestTo self.now.sheet.now nodes.old from to (λ anc f. write_at (tags_to_skip (skip_of self.now.skip)) levels anc (def.unpacked bits) f) text.old text.new result }
    {
        let sheet = self.sheet;
        if (levels != 0) & is_one_text(&Tree { sheet, nodes }, from, to) {
            return write_text_node(&Tree { sheet, nodes }, text, from, bits.opts());
        }
        self.write(nodes, text, from, to, bits, levels)
    }

    // One node, with itself.
    #[cycle(writers)]
    #[inline(always)]
    fn node(
        &self,
        nodes: &mut [u8],
        text: &mut Text,
        at: usize,
        bits: PackedOpts,
        levels: usize,
    ) -> Result<(), Full>
        requires { PlacedNode self.now.sheet.now nodes.old at × Fits (def.unpacked bits) (levels + 1) }
        ensures kept { Kept at (end_at nodes.old at) nodes.old nodes.new }
        ensures room { SameRoom text.old text.new }
        ensures writes_forest { ForestTo self.now.sheet.now nodes.old at (end_at nodes.old at) (λ anc f. write_nodes (self_at self.now.skip levels) anc (def.unpacked bits) f) text.old text.new result }
    {
        let sheet = self.sheet;
        let field = Tree { sheet, nodes }.field(at);
        if field.tag() != OPEN {
            return write_text_node(&Tree { sheet, nodes }, text, at, bits.opts());
        }
        if node_is_skipped(&Tree { sheet, nodes }, self.skip, at) {
            return Ok(());
        }
        opened(&Tree { sheet, nodes }, text, at, bits.opts())?;
        self.inside(nodes, text, at, bits, levels)
    }

    // What stands in an element that is opened, and its close.
    #[cycle(writers)]
    #[inline(always)]
    fn inside(
        &self,
        nodes: &mut [u8],
        text: &mut Text,
        at: usize,
        bits: PackedOpts,
        levels: usize,
    ) -> Result<(), Full>
        requires { Placed self.now.sheet.now nodes.old at × Fits (def.unpacked bits) (levels + 1) }
        ensures kept { Kept at (end_at nodes.old at) nodes.old nodes.new }
        ensures room { SameRoom text.old text.new }
        ensures writes_element { ElementTo self.now.sheet.now nodes.old at (λ anc name attrs kids. in_element (self_at self.now.skip levels) anc (def.unpacked bits) name attrs kids) text.old text.new result }
    {
        let sheet = self.sheet;
        let name = node_name(&Tree { sheet, nodes }, at);
        let flags = bits.opts();
        if !flags.skip_md & has_writer(name, flags) {
            return self.write_element(nodes, text, at, name, bits, levels);
        }
        let to = Tree { sheet, nodes }.node_end(at);
        self.siblings(nodes, text, at + 1, to, bits, levels)?;
        closed(text, name, bits.opts())
    }

    // An element that has a writer of its own. By the hints here and at the writers a level has the stack frame of its own writer
    // alone. With the writers left to LLVM, 100 emphases within one another take 71 KiB of stack in place of 42, 99 links round an
    // image 89 in place of 73, tables 42 in place of 36.
    #[cycle(writers)]
    #[inline(never)]
    fn write_element(
        &self,
        nodes: &mut [u8],
        text: &mut Text,
        at: usize,
        name: usize,
        bits: PackedOpts,
        levels: usize,
    ) -> Result<(), Full>
        requires { Placed self.now.sheet.now nodes.old at × (name ≡ name_at self.now.sheet.now (place_at nodes.old at)) × Fits (def.unpacked bits) (levels + 1) }
        ensures kept { Kept at (end_at nodes.old at) nodes.old nodes.new }
        ensures room { SameRoom text.old text.new }
        ensures writes_element { ElementTo self.now.sheet.now nodes.old at (λ anc name attrs kids. write_element (self_at self.now.skip levels) anc (def.unpacked bits) name attrs kids) text.old text.new result }
    {
        if is_list(name) {
            return self.write_list(nodes, text, at, name, bits, levels);
        }
        match name {
            A => self.write_link(nodes, text, at, bits.opts(), levels),
            IMG | PRE | CODE => self.write_leaf(nodes, text, at, name, bits),
            TABLE => self.write_table(nodes, text, at, bits.opts(), levels),
            _ => self.write_emphasis(nodes, text, at, name, bits, levels),
        }
    }

    // An image, `pre` or `code`, which have the numbers 22 to 24: no `write` stands below it.
    #[inline(never)]
    fn write_leaf(
        &self,
        nodes: &[u8],
        text: &mut Text,
        at: usize,
        name: usize,
        bits: PackedOpts,
    ) -> Result<(), Full>
        requires { Placed self.now.sheet.now nodes.now at × (name ≡ name_at self.now.sheet.now (place_at nodes.now at)) × (22 ≤ name × name ≤ 24) }
        ensures room { SameRoom text.old text.new }
        ensures writes_element { (levels : ℕ) → ElementTo self.now.sheet.now nodes.now at (λ anc name attrs kids. write_element (self_at self.now.skip levels) anc (def.unpacked bits) name attrs kids) text.old text.new result }
    {
        let tree = Tree {
            sheet: self.sheet,
            nodes,
        };
        match name {
            IMG => write_img(text, tree.field(at)),
            PRE => write_pre(&tree, text, at, bits.opts()),
            _ => write_code(&tree, self.skip, text, at, bits.opts()),
        }
    }

    // The children of an element, and then the trim of the whole text.
    #[cycle(writers)]
    fn kids(
        &self,
        nodes: &mut [u8],
        text: &mut Text,
        at: usize,
        bits: PackedOpts,
        levels: usize,
    ) -> Result<(), Full>
        requires { Placed self.now.sheet.now nodes.old at × Fits (def.unpacked bits) levels }
        ensures kept { Kept at (end_at nodes.old at) nodes.old nodes.new }
        ensures room { SameRoom text.old text.new }
        ensures writes_element { ElementTo self.now.sheet.now nodes.old at (λ anc name attrs kids. write_kids (self_at self.now.skip levels) anc (def.unpacked bits) (element name attrs kids nothing)) text.old text.new result }
    {
        let sheet = self.sheet;
        let to = Tree { sheet, nodes }.node_end(at);
        if (levels != 0) & is_one_text(&Tree { sheet, nodes }, at + 1, to) {
            return trim_behind_text(&Tree { sheet, nodes }, text, at + 1, bits.opts());
        }
        self.write(nodes, text, at + 1, to, bits, levels)?;
        trim_space(text);
        Ok(())
    }

    // `write` for a text of its own, which begins at the front of `room`: how long it is.
    #[cycle(writers)]
    pub fn write_behind(
        &self,
        nodes: &mut [u8],
        room: &mut [u8],
        from: usize,
        to: usize,
        bits: PackedOpts,
        levels: usize,
    ) -> Wrote
        requires { Placeds self.now.sheet.now nodes.old from to × Fits (def.unpacked bits) levels }
        ensures kept { Kept from to nodes.old nodes.new }
        ensures writes_forest { WritesForest self.now.sheet.now nodes.old from to (λ anc f. write_at (tags_to_skip (skip_of self.now.skip)) levels anc (def.unpacked bits) f) [] (length room.old) room.new result }
    {
        let mut text = Text { room, len: 0 };
        self.write(nodes, &mut text, from, to, bits, levels)?;
        Ok(text.len)
    }

    // `write_behind` for the children of an element.
    #[cycle(writers)]
    fn kids_behind(
        &self,
        nodes: &mut [u8],
        room: &mut [u8],
        at: usize,
        bits: PackedOpts,
        levels: usize,
    ) -> Wrote
        requires { Placed self.now.sheet.now nodes.old at × Fits (def.unpacked bits) levels }
        ensures kept { Kept at (end_at nodes.old at) nodes.old nodes.new }
        ensures writes_element { WritesElement self.now.sheet.now nodes.old at (λ anc name attrs kids. write_kids (self_at self.now.skip levels) anc (def.unpacked bits) (element name attrs kids nothing)) [] (length room.old) room.new result }
    {
        let mut text = Text { room, len: 0 };
        self.kids(nodes, &mut text, at, bits, levels)?;
        Ok(text.len)
    }

    // elements/emphasis.rs.
    #[cycle(writers)]
    #[inline(never)]
    fn write_emphasis(
        &self,
        nodes: &mut [u8],
        text: &mut Text,
        at: usize,
        name: usize,
        bits: PackedOpts,
        levels: usize,
    ) -> Result<(), Full>
        requires { Placed self.now.sheet.now nodes.old at × (name ≡ name_at self.now.sheet.now (place_at nodes.old at)) × Fits (def.unpacked bits) (levels + 1) }
        ensures kept { Kept at (end_at nodes.old at) nodes.old nodes.new }
        ensures room { SameRoom text.old text.new }
        ensures writes_element { ElementTo self.now.sheet.now nodes.old at (λ anc name attrs kids. write_emphasis (self_at self.now.skip levels) anc (def.unpacked bits) (tag_of name) attrs kids) text.old text.new result }
    {
        let sheet = self.sheet;
        let to = Tree { sheet, nodes }.node_end(at);
        let opts = bits.opts();
        let inner = PackedOpts::of(emphasis_opts(name, opts));
        let n = self.write_behind(nodes, &mut text.room[text.len..], at + 1, to, inner, levels)?;
        push_emphasis_by(text, n, name, opts)
    }

    // elements/link.rs.
    #[cycle(writers)]
    #[inline(never)]
    fn write_link(
        &self,
        nodes: &mut [u8],
        text: &mut Text,
        at: usize,
        opts: FormatOpts,
        levels: usize,
    ) -> Result<(), Full>
        requires { Placed self.now.sheet.now nodes.old at × Fits opts (levels + 1) }
        ensures kept { Kept at (end_at nodes.old at) nodes.old nodes.new }
        ensures room { SameRoom text.old text.new }
        ensures writes_element { ElementTo self.now.sheet.now nodes.old at (λ anc name attrs kids. write_link (self_at self.now.skip levels) anc opts name attrs kids) text.old text.new result }
    {
        let sheet = self.sheet;
        let field = Tree { sheet, nodes }.field(at);
        match field.attribute(b"href") {
            Some(dest) => self.link(nodes, text, at, dest, opts, levels),
            None => self.kids(nodes, text, at, PackedOpts::of(opts.fresh()), levels),
        }
    }

    // A link with this destination.
    #[cycle(writers)]
    fn link(
        &self,
        nodes: &mut [u8],
        text: &mut Text,
        at: usize,
        dest: &[u8],
        opts: FormatOpts,
        levels: usize,
    ) -> Result<(), Full>
        requires { Placed self.now.sheet.now nodes.old at × Fits opts (levels + 1) × (length dest.now ≤ 1048576) }
        ensures kept { Kept at (end_at nodes.old at) nodes.old nodes.new }
        ensures room { SameRoom text.old text.new }
        ensures writes_element { ElementTo self.now.sheet.now nodes.old at (λ anc name attrs kids. link_to (self_at self.now.skip levels) anc opts dest.now name attrs kids) text.old text.new result }
    {
        let sheet = self.sheet;
        let end = Tree { sheet, nodes }.node_end(at);
        let fresh = opts.fresh();
        if has_element(&Tree { sheet, nodes }, at + 1, end, IMG) {
            return self.body(nodes, text, at, dest, fresh.link_body(), levels);
        }
        let plain = fresh.include_node().skip_escape();
        let room = &mut text.room[text.len..];
        let n = write_text_behind(&Tree { sheet, nodes }, room, at + 1, end, plain)?;
        if n == 0 {
            return self.body(nodes, text, at, dest, fresh, levels);
        }
        let field = Tree { sheet, nodes }.field(at);
        push_text_link(field, text, n, dest, opts)
    }

    // A link that shows what `write` gives for its content.
    #[cycle(writers)]
    fn body(
        &self,
        nodes: &mut [u8],
        text: &mut Text,
        at: usize,
        dest: &[u8],
        opts: FormatOpts,
        levels: usize,
    ) -> Result<(), Full>
        requires { Placed self.now.sheet.now nodes.old at × Fits opts levels × (length dest.now ≤ 1048576) }
        ensures kept { Kept at (end_at nodes.old at) nodes.old nodes.new }
        ensures room { SameRoom text.old text.new }
        ensures writes_element { ElementTo self.now.sheet.now nodes.old at (λ anc name attrs kids. link_of attrs dest.now (write_kids (self_at self.now.skip levels) anc opts (element name attrs kids nothing) []) push) text.old text.new result }
    {
        let sheet = self.sheet;
        let field = Tree { sheet, nodes }.field(at);
        let bits = PackedOpts::of(opts);
        let n = self.kids_behind(nodes, &mut text.room[text.len..], at, bits, levels)?;
        push_link(field, text, n, dest, false, opts)
    }

    // elements/list.rs.
    #[cycle(writers)]
    #[inline(never)]
    fn write_list(
        &self,
        nodes: &mut [u8],
        text: &mut Text,
        at: usize,
        name: usize,
        bits: PackedOpts,
        levels: usize,
    ) -> Result<(), Full>
        requires { Placed self.now.sheet.now nodes.old at × (name ≡ name_at self.now.sheet.now (place_at nodes.old at)) × Fits (def.unpacked bits) (levels + 1) }
        ensures kept { Kept at (end_at nodes.old at) nodes.old nodes.new }
        ensures room { SameRoom text.old text.new }
        ensures writes_element { ElementTo self.now.sheet.now nodes.old at (λ anc name attrs kids. write_list (self_at self.now.skip levels) anc (def.unpacked bits) (tag_of name) attrs kids) text.old text.new result }
    {
        let sheet = self.sheet;
        let opts = bits.opts();
        let kind = kind_of(Tree { sheet, nodes }.field(at), name);
        let to = Tree { sheet, nodes }.node_end(at);
        let ctx = ListContext::new(opts, kind);
        self.items(nodes, text, at + 1, to, ctx, levels)?;
        end_list(text, opts)
    }

    // The children of a list.
    #[cycle(writers)]
    fn items(
        &self,
        nodes: &mut [u8],
        text: &mut Text,
        from: usize,
        to: usize,
        first: ListContext,
        levels: usize,
    ) -> Result<(), Full>
        requires { Placeds self.now.sheet.now nodes.old from to × FitsIn first levels }
        ensures kept { Kept from to nodes.old nodes.new }
        ensures room { SameRoom text.old text.new }
        ensures writes_forest { ForestTo self.now.sheet.now nodes.old from to (λ anc f. list_children (self_at self.now.skip levels) anc f first) text.old text.new result }
    {
        let sheet = self.sheet;
        let mut ctx = first;
        let mut c = from;
        while c < to {
            let field = Tree { sheet, nodes }.field(c);
            let li = node_name(&Tree { sheet, nodes }, c) == LI;
            ctx = renumbered(field, li, ctx);
            self.item(nodes, text, c, li, &mut ctx, levels)?;
            c = Tree { sheet, nodes }.node_end(c);
        }
        Ok(())
    }

    // A child of a list; `li` says that it is an item, which steps the context.
    #[cycle(writers)]
    fn item(
        &self,
        nodes: &mut [u8],
        text: &mut Text,
        c: usize,
        li: bool,
        ctx: &mut ListContext,
        levels: usize,
    ) -> Result<(), Full>
        requires { PlacedNode self.now.sheet.now nodes.old c × (li ≡ eqb (name_at self.now.sheet.now (place_at nodes.old c)) 16) × FitsIn ctx.old levels }
        ensures kept { Kept c (end_at nodes.old c) nodes.old nodes.new }
        ensures room { SameRoom text.old text.new }
        ensures writes_forest { ForestTo self.now.sheet.now nodes.old c (end_at nodes.old c) (λ anc f. list_head (self_at self.now.skip levels) anc f ctx.old) text.old text.new result }
        ensures ctx_value { ctx.new ≡ cond li (advance_ol_number ctx.old) ctx.old }
    {
        let sheet = self.sheet;
        let to = Tree { sheet, nodes }.node_end(c);
        if !li {
            let inner = ctx.opts.fresh().include_node();
            return self.write(nodes, text, c, to, PackedOpts::of(inner), levels);
        }
        if has_blocks(&Tree { sheet, nodes }, c + 1, to) {
            return self.blocks(nodes, text, c, ctx, levels);
        }
        self.flat(nodes, text, c, ctx, levels)
    }

    // An item without blocks: `write_list_item` of elements/list.rs.
    #[cycle(writers)]
    fn flat(
        &self,
        nodes: &mut [u8],
        text: &mut Text,
        c: usize,
        ctx: &mut ListContext,
        levels: usize,
    ) -> Result<(), Full>
        requires { Placed self.now.sheet.now nodes.old c × FitsIn ctx.old levels }
        ensures kept { Kept c (end_at nodes.old c) nodes.old nodes.new }
        ensures room { SameRoom text.old text.new }
        ensures writes_element { ElementTo self.now.sheet.now nodes.old c (λ anc name attrs kids. write_list_item (self_at self.now.skip levels) anc (element name attrs kids nothing) ctx.old) text.old text.new result }
        ensures ctx_value { ctx.new ≡ advance_ol_number ctx.old }
    {
        start_item(text, false, ctx)?;
        let opts = ctx.opts;
        let bits = PackedOpts::of(opts.list_item());
        self.kids(nodes, text, c, bits, levels)?;
        push_linebreak(text, opts.table_cell)
    }

    // An item with blocks: `write_list_item_blocks` of elements/list.rs.
    #[cycle(writers)]
    fn blocks(
        &self,
        nodes: &mut [u8],
        text: &mut Text,
        c: usize,
        ctx: &mut ListContext,
        levels: usize,
    ) -> Result<(), Full>
        requires { Placed self.now.sheet.now nodes.old c × FitsIn ctx.old levels }
        ensures kept { Kept c (end_at nodes.old c) nodes.old nodes.new }
        ensures room { SameRoom text.old text.new }
        ensures writes_element { ElementTo self.now.sheet.now nodes.old c (λ anc name attrs kids. write_list_item_blocks (self_at self.now.skip levels) anc attrs kids ctx.old) text.old text.new result }
        ensures ctx_value { ctx.new ≡ advance_ol_number ctx.old }
    {
        let sheet = self.sheet;
        let to = Tree { sheet, nodes }.node_end(c);
        let before = *ctx;
        start_item(text, true, ctx)?;
        let item = item_from(before, *ctx, text.len);
        let begun = Going {
            first: true,
            due: false,
        };
        self.children(nodes, text, c + 1, to, item, begun, levels)?;
        end_item(text, item)
    }

    // The children of an item; those of a wrapper take its place.
    #[cycle(writers)]
    fn children(
        &self,
        nodes: &mut [u8],
        text: &mut Text,
        from: usize,
        to: usize,
        item: Item,
        before: Going,
        levels: usize,
    ) -> Result<Going, Full>
        requires { Placeds self.now.sheet.now nodes.old from to × FitsIn item.ctx levels }
        ensures kept { Kept from to nodes.old nodes.new }
        ensures room { SameRoom text.old text.new }
        ensures goes_forest { ForestGoes self.now.sheet.now nodes.old from to (λ anc f. item_children (self_at self.now.skip levels) anc f (item_of item) (progress_on before text.old)) text.old text.new result }
    {
        let sheet = self.sheet;
        let mut going = before;
        let mut c = from;
        while c < to {
            going = self.child(nodes, text, c, to, item, going, levels)?;
            c = Tree { sheet, nodes }.node_end(c);
        }
        Ok(going)
    }

    // A child of an item; it and its siblings end at `to`.
    #[cycle(writers)]
    fn child(
        &self,
        nodes: &mut [u8],
        text: &mut Text,
        c: usize,
        to: usize,
        item: Item,
        before: Going,
        levels: usize,
    ) -> Result<Going, Full>
        requires { PlacedNode self.now.sheet.now nodes.old c × (end_at nodes.old c ≤ to) × FitsIn item.ctx levels }
        ensures kept { Kept c (end_at nodes.old c) nodes.old nodes.new }
        ensures room { SameRoom text.old text.new }
        ensures goes_forest { ForestGoes self.now.sheet.now nodes.old c (end_at nodes.old c) (λ anc f. item_children (self_at self.now.skip levels) anc f (item_of item) (progress_on before text.old)) text.old text.new result }
    {
        let sheet = self.sheet;
        let field = Tree { sheet, nodes }.field(c);
        let tag = field.tag();
        if (tag != TEXT) & (tag != OPEN) {
            return Ok(before);
        }
        if node_is_skipped(&Tree { sheet, nodes }, self.skip, c) {
            return Ok(before);
        }
        if node_is_block_wrapper(&Tree { sheet, nodes }, c) {
            let end = Tree { sheet, nodes }.node_end(c);
            return self.children(nodes, text, c + 1, end, item, before, levels);
        }
        let blank = is_blank_text(field);
        self.alone(nodes, text, c, blank, item, before, levels)
    }

    // A child of an item that is no wrapper; `blank` says that it is a blank text.
    #[cycle(writers)]
    fn alone(
        &self,
        nodes: &mut [u8],
        text: &mut Text,
        c: usize,
        blank: bool,
        item: Item,
        before: Going,
        levels: usize,
    ) -> Result<Going, Full>
        requires { PlacedNode self.now.sheet.now nodes.old c × FitsIn item.ctx levels }
        ensures kept { Kept c (end_at nodes.old c) nodes.old nodes.new }
        ensures room { SameRoom text.old text.new }
        ensures goes_forest { ForestGoes self.now.sheet.now nodes.old c (end_at nodes.old c) (λ anc f. item_child (self_at self.now.skip levels) anc f blank (item_of item) (progress_on before text.old)) text.old text.new result }
    {
        let sheet = self.sheet;
        let name = node_name(&Tree { sheet, nodes }, c);
        let line = before.due & !((name == PRE) | blank);
        due_line(text, line, item)?;
        let going = Going {
            first: before.first,
            due: before.due & !line,
        };
        if node_is_list_item_block(name) {
            return self.block(nodes, text, c, name, item, going, levels);
        }
        self.inline(nodes, text, c, name, blank, item, levels)?;
        Ok(going)
    }

    // A child of an item that is no block.
    #[cycle(writers)]
    fn inline(
        &self,
        nodes: &mut [u8],
        text: &mut Text,
        c: usize,
        name: usize,
        blank: bool,
        item: Item,
        levels: usize,
    ) -> Result<(), Full>
        requires { PlacedNode self.now.sheet.now nodes.old c × (name ≡ name_at self.now.sheet.now (place_at nodes.old c)) × FitsIn item.ctx levels }
        ensures kept { Kept c (end_at nodes.old c) nodes.old nodes.new }
        ensures room { SameRoom text.old text.new }
        ensures writes_forest { ForestTo self.now.sheet.now nodes.old c (end_at nodes.old c) (λ anc f. inline_step (self_at self.now.skip levels) anc f blank (item_of item)) text.old text.new result }
    {
        let sheet = self.sheet;
        let to = Tree { sheet, nodes }.node_end(c);
        let bits = PackedOpts::of(child_opts(name, item.ctx.opts));
        push_inline_lead(text, item, blank)?;
        self.write(nodes, text, c, to, bits, levels)
    }

    // A block of an item.
    #[cycle(writers)]
    fn block(
        &self,
        nodes: &mut [u8],
        text: &mut Text,
        c: usize,
        name: usize,
        item: Item,
        before: Going,
        levels: usize,
    ) -> Result<Going, Full>
        requires { Placed self.now.sheet.now nodes.old c × (name ≡ name_at self.now.sheet.now (place_at nodes.old c)) × FitsIn item.ctx levels }
        ensures kept { Kept c (end_at nodes.old c) nodes.old nodes.new }
        ensures room { SameRoom text.old text.new }
        ensures goes_element { ElementGoes self.now.sheet.now nodes.old c (λ anc name attrs kids. block_child (self_at self.now.skip levels) anc (element name attrs kids nothing) (item_of item) (progress_on before text.old)) text.old text.new result }
    {
        if name == HR {
            return rule_block(text, item, before);
        }
        self.led(nodes, text, c, name, item, before.first, levels)?;
        Ok(Going {
            first: false,
            due: (name == PRE) | before.due,
        })
    }

    // A block of an item that is no rule, with what stands before and behind it.
    #[cycle(writers)]
    fn led(
        &self,
        nodes: &mut [u8],
        text: &mut Text,
        c: usize,
        name: usize,
        item: Item,
        first: bool,
        levels: usize,
    ) -> Result<(), Full>
        requires { Placed self.now.sheet.now nodes.old c × (name ≡ name_at self.now.sheet.now (place_at nodes.old c)) × FitsIn item.ctx levels }
        ensures kept { Kept c (end_at nodes.old c) nodes.old nodes.new }
        ensures room { SameRoom text.old text.new }
        ensures writes_element { ElementTo self.now.sheet.now nodes.old c (λ anc name attrs kids. led_step (self_at self.now.skip levels) anc (element name attrs kids nothing) (item_of item) first) text.old text.new result }
    {
        push_block_lead(text, item, first, name == PRE)?;
        self.flow(nodes, text, c, name, item, levels)?;
        push_linebreak(text, item.ctx.opts.table_cell)
    }

    // A code block, or any other block without its own node.
    #[cycle(writers)]
    fn flow(
        &self,
        nodes: &mut [u8],
        text: &mut Text,
        c: usize,
        name: usize,
        item: Item,
        levels: usize,
    ) -> Result<(), Full>
        requires { Placed self.now.sheet.now nodes.old c × (name ≡ name_at self.now.sheet.now (place_at nodes.old c)) × FitsIn item.ctx levels }
        ensures kept { Kept c (end_at nodes.old c) nodes.old nodes.new }
        ensures room { SameRoom text.old text.new }
        ensures writes_element { ElementTo self.now.sheet.now nodes.old c (λ anc name attrs kids. body_step (self_at self.now.skip levels) anc (element name attrs kids nothing) (item_of item)) text.old text.new result }
    {
        if name == PRE {
            return self.indented(nodes, text, c, item, levels);
        }
        push_heading_prefix(text, name)?;
        let bits = PackedOpts::of(item.ctx.opts.list_item());
        self.kids(nodes, text, c, bits, levels)?;
        end_flow(text, name, item)
    }

    // A code block of an item: `write_list_item_indented` of elements/list.rs.
    #[cycle(writers)]
    fn indented(
        &self,
        nodes: &mut [u8],
        text: &mut Text,
        c: usize,
        item: Item,
        levels: usize,
    ) -> Result<(), Full>
        requires { Placed self.now.sheet.now nodes.old c × FitsIn item.ctx levels }
        ensures kept { Kept c (end_at nodes.old c) nodes.old nodes.new }
        ensures room { SameRoom text.old text.new }
        ensures writes_element { ElementTo self.now.sheet.now nodes.old c (λ anc name attrs kids. write_list_item_indented (self_at self.now.skip levels) anc (element name attrs kids nothing) (item_of item)) text.old text.new result }
    {
        let sheet = self.sheet;
        let to = Tree { sheet, nodes }.node_end(c);
        let bits = PackedOpts::of(item.ctx.opts.include_node());
        let n = self.write_behind(nodes, &mut text.room[text.len..], c, to, bits, levels)?;
        push_indented(text, n, item)
    }

    // elements/table.rs.
    #[cycle(writers)]
    #[inline(never)]
    fn write_table(
        &self,
        nodes: &mut [u8],
        text: &mut Text,
        at: usize,
        opts: FormatOpts,
        levels: usize,
    ) -> Result<(), Full>
        requires { Placed self.now.sheet.now nodes.old at × Fits opts (levels + 1) }
        ensures kept { Kept at (end_at nodes.old at) nodes.old nodes.new }
        ensures room { SameRoom text.old text.new }
        ensures writes_element { ElementTo self.now.sheet.now nodes.old at (λ anc name attrs kids. write_table (self_at self.now.skip levels) anc opts name attrs kids) text.old text.new result }
    {
        let sheet = self.sheet;
        let to = Tree { sheet, nodes }.node_end(at);
        let first = next_filled_row(&Tree { sheet, nodes }, at + 1, to);
        if !is_table_node_writable(&Tree { sheet, nodes }, at + 1, to, first) {
            return self.kids(nodes, text, at, PackedOpts::of(opts.fresh()), levels);
        }
        let len = text.len;
        self.cells(nodes, text, first, to, opts, levels)?;
        let n = text.len - len;
        text.len = len;
        push_table(&Tree { sheet, nodes }, text, n, first, to)
    }

    // The cells of the rows from number `from` on, each a text of its own behind the others.
    #[cycle(writers)]
    fn cells(
        &self,
        nodes: &mut [u8],
        text: &mut Text,
        from: usize,
        to: usize,
        opts: FormatOpts,
        levels: usize,
    ) -> Result<(), Full>
        requires { SomeRows self.now.sheet.now nodes.old from to × ((j : ℕ) → from ≤ j → j < to → end_at nodes.old j ≤ to) × Fits opts (levels + 1) }
        ensures kept { Kept from to nodes.old nodes.new }
        ensures room { SameRoom text.old text.new }
        ensures rows_writes { (rows : List (List Cell)) → Rows self.now.sheet.now nodes.old from to rows → RowsTo text.old text.new (table_lengths self.now.sheet.now nodes.new from to) result (rows_texts (self_at self.now.skip levels) opts rows) }
    {
        let sheet = self.sheet;
        let mut r = next_row(&Tree { sheet, nodes }, from, to);
        while r < to {
            self.row(nodes, text, r, opts, levels)?;
            r = next_row(&Tree { sheet, nodes }, r + 1, to);
        }
        Ok(())
    }

    // The cells of one row.
    #[cycle(writers)]
    fn row(
        &self,
        nodes: &mut [u8],
        text: &mut Text,
        tr: usize,
        opts: FormatOpts,
        levels: usize,
    ) -> Result<(), Full>
        requires { SomeRow self.now.sheet.now nodes.old tr × Fits opts (levels + 1) }
        ensures kept { Kept (tr + 1) (end_at nodes.old tr) nodes.old nodes.new }
        ensures room { SameRoom text.old text.new }
        ensures row_writes { (cells : List Cell) → RowAt self.now.sheet.now nodes.old tr cells → RowTo text.old text.new (row_lengths self.now.sheet.now nodes.new tr) result (row_texts (self_at self.now.skip levels) opts cells) }
    {
        let sheet = self.sheet;
        let to = Tree { sheet, nodes }.node_end(tr);
        let mut c = next_cell(&Tree { sheet, nodes }, tr + 1, to);
        while c < to {
            let n = self.cell(nodes, &mut text.room[text.len..], c, opts, levels)?;
            store_span(nodes, c, text.len, n);
            text.len += n;
            let after = Tree { sheet, nodes }.node_end(c);
            c = next_cell(&Tree { sheet, nodes }, after, to);
        }
        Ok(())
    }

    // The text of a cell.
    #[cycle(writers)]
    fn cell(
        &self,
        nodes: &mut [u8],
        room: &mut [u8],
        c: usize,
        opts: FormatOpts,
        levels: usize,
    ) -> Wrote
        requires { Placed self.now.sheet.now nodes.old c × Fits opts (levels + 1) }
        ensures kept { Kept c (end_at nodes.old c) nodes.old nodes.new }
        ensures writes { (name : Bytes) (attrs : List Attr) (kids : Forest) (anc : Ancestors) (th : Bool) → ElementAt self.now.sheet.now nodes.old c name attrs kids → Around self.now.sheet.now nodes.old (parent_at nodes.old c) anc → Writes (length room.old) room.new result (cell_text (self_at self.now.skip levels) opts (record { ancestors = anc; is_th = th; node = element name attrs kids nothing })) }
    {
        let bits = PackedOpts::of(opts.fresh().table_cell());
        let mut text = Text { room, len: 0 };
        self.kids(nodes, &mut text, c, bits, levels)?;
        text.len = trim_trailing_cell_break(text.bytes());
        escape_table_cell_inplace(&mut text)?;
        Ok(text.len)
    }
}
