// elements/table.rs: a table from the texts of its cells.
ghost use Rattle.std.specs.Prelude.{◌≡◌, false, List, [], ◌∷◌, ◌++◌, ◌+◌, ◌-◌, ◌*◌, ◌≤◌, ◌<◌, leb, length, take, drop, replicate};
ghost use Rattle.spec.specs.Md.MDSerializer.{MDSerializer};
ghost use Rattle.spec.specs.Md.Elements.Table.{Cell, concat, texts, row_texts, table_texts, data_rows, table_header_row};
ghost use Rattle.spec.specs.declared.ctx.FormatOpts.{FormatOpts};
ghost use Rattle.tree.specs.Memory.{start_at, length_at, Kept};
ghost use Rattle.nodes.specs.Stands.{Siblings};
ghost use Rattle.tables.specs.Puts.{PutsTo, bars, bar_line, bar_lines};
ghost use Rattle.tables.specs.Rows.{SomeRows, RowsAt};
ghost use Rattle.tables.specs.Spans.{lengths_to, table_lengths, line_lengths, sum, zeros, cuts, cut_rows, unders, marks, width, table_bytes, Kids, NextCell};
ghost use Rattle.tables.specs.Columns.{columns};
ghost use Rattle.tables.specs.TableSteps.{rows_texts, rows_lengths, table_step, table_sized, TableAt};
ghost use Rattle.text.specs.Texts.{WritesTo};

use crate::bars::{at_least_one, put_byte, put_byte_cells, put_column};
use crate::rows::{all_th, count_cells, is_filled_row, is_table_cell};
use nodes::nodes::node_name;
use text::buffer::{Full, lift};
use text::text::Text;
use tree::memory::{read, store};
use tree::nodes::Tree;

// How many cells a row has, how long their texts are together, and how many of them are empty.
#[derive(Clone, Copy)]
pub struct Size {
    pub cells: usize,
    pub bytes: usize,
    pub empty: usize,
}

// Stores where the text of cell c stands, and how long it is.
pub fn store_span(nodes: &mut [u8], c: usize, start: usize, n: usize)
    requires { c * 24 + 24 ≤ length nodes.old }
    ensures { Kept c (c + 1) nodes.old nodes.new × (start_at nodes.new c ≡ start) × (length_at nodes.new c ≡ n) }
{
    store::<8>(nodes, c * 24 + 8, start);
    store::<8>(nodes, c * 24 + 16, n);
}

// The number of the first cell among the siblings, or `to`.
pub fn next_cell(tree: &Tree, from: usize, to: usize) -> usize
    requires { Siblings tree.now.sheet.now tree.now.nodes.now from to }
    ensures later { from ≤ result }
    ensures cells { NextCell tree.now.sheet.now tree.now.nodes.now from to result }
{
    for c in tree.siblings(from, to) {
        if is_table_cell(node_name(tree, c)) {
            return c;
        }
    }
    to
}

// The size of the cells of a row up to number `to`.
fn measure(tree: &Tree, row: usize, to: usize) -> Size
    requires { Kids tree.now.sheet.now tree.now.nodes.now row to × (sum (lengths_to tree.now.sheet.now tree.now.nodes.now row to) < 18446744073709551616) }
    ensures { (result.cells ≡ length (lengths_to tree.now.sheet.now tree.now.nodes.now row to)) × (result.bytes ≡ sum (lengths_to tree.now.sheet.now tree.now.nodes.now row to)) × (result.empty ≡ zeros (lengths_to tree.now.sheet.now tree.now.nodes.now row to)) }
{
    let mut cells = 0;
    let mut bytes = 0;
    let mut empty = 0;
    for c in tree.siblings(row + 1, to) {
        if is_table_cell(node_name(tree, c)) {
            let n = read::<8>(tree.nodes, c * 24 + 16);
            cells += 1;
            bytes += n;
            empty += at_least_one(n) - n;
        }
    }
    Size {
        cells,
        bytes,
        empty,
    }
}

// How long the texts of the cells of a row up to number `to` are together.
fn row_bytes(tree: &Tree, row: usize, to: usize) -> usize
    requires { Kids tree.now.sheet.now tree.now.nodes.now row to × (sum (lengths_to tree.now.sheet.now tree.now.nodes.now row to) < 18446744073709551616) }
    ensures { result ≡ sum (lengths_to tree.now.sheet.now tree.now.nodes.now row to) }
{
    measure(tree, row, to).bytes
}

// Puts the cells of a row up to number `to`: hyphens where `under`, else their texts, which stand at `src`.
fn put_columns(tree: &Tree, text: &mut Text, row: usize, to: usize, src: usize, under: bool)
    requires { Kids tree.now.sheet.now tree.now.nodes.now row to × (text.old.len + length (bars (columns under (lengths_to tree.now.sheet.now tree.now.nodes.now row to) (drop src text.old.room.now))) ≤ length text.old.room.now) × (src + sum (lengths_to tree.now.sheet.now tree.now.nodes.now row to) ≤ length text.old.room.now) × (under ≡ false → text.old.len + length (bars (columns under (lengths_to tree.now.sheet.now tree.now.nodes.now row to) (drop src text.old.room.now))) ≤ src) }
    ensures { PutsTo text.old text.new (bars (columns under (lengths_to tree.now.sheet.now tree.now.nodes.now row to) (drop src text.old.room.now))) }
{
    let mut at = src;
    for c in tree.siblings(row + 1, to) {
        if is_table_cell(node_name(tree, c)) {
            let n = read::<8>(tree.nodes, c * 24 + 16);
            put_column(text, at, n, under);
            at += n;
        }
    }
}

// Puts a line of a row: its cells up to number `to`, as `put_columns` does, and then so many cells of the byte `fill`.
fn put_line(
    tree: &Tree,
    text: &mut Text,
    row: usize,
    to: usize,
    src: usize,
    under: bool,
    fill: u8,
    blanks: usize,
)
    requires { Kids tree.now.sheet.now tree.now.nodes.now row to × (text.old.len + length (bars (columns under (lengths_to tree.now.sheet.now tree.now.nodes.now row to) (drop src text.old.room.now))) + 4 * blanks + 2 ≤ length text.old.room.now) × (src + sum (lengths_to tree.now.sheet.now tree.now.nodes.now row to) ≤ length text.old.room.now) × (under ≡ false → text.old.len + length (bars (columns under (lengths_to tree.now.sheet.now tree.now.nodes.now row to) (drop src text.old.room.now))) + 2 ≤ src) }
    ensures { PutsTo text.old text.new (bar_line (columns under (lengths_to tree.now.sheet.now tree.now.nodes.now row to) (drop src text.old.room.now) ++ replicate blanks (fill ∷ []))) }
{
    put_byte(text, b'|');
    put_columns(tree, text, row, to, src, under);
    put_byte_cells(text, fill, blanks);
    put_byte(text, b'\n');
}

// Puts the line of a row, with the cells up to number `to` and then so many blank ones.
fn put_row(tree: &Tree, text: &mut Text, row: usize, to: usize, src: usize, blanks: usize)
    requires { Kids tree.now.sheet.now tree.now.nodes.now row to × (text.old.len + sum (lengths_to tree.now.sheet.now tree.now.nodes.now row to) + 3 * length (lengths_to tree.now.sheet.now tree.now.nodes.now row to) + 4 * blanks + 2 ≤ src) × (src + sum (lengths_to tree.now.sheet.now tree.now.nodes.now row to) ≤ length text.old.room.now) }
    ensures { PutsTo text.old text.new (bar_line (cuts (lengths_to tree.now.sheet.now tree.now.nodes.now row to) (drop src text.old.room.now) ++ replicate blanks (32 ∷ []))) }
{
    put_line(tree, text, row, to, src, false, b' ', blanks)
}

// Puts the line under the headings.
fn put_rule(tree: &Tree, text: &mut Text, row: usize, to: usize, blanks: usize)
    requires { Kids tree.now.sheet.now tree.now.nodes.now row to × (text.old.len + sum (lengths_to tree.now.sheet.now tree.now.nodes.now row to) + zeros (lengths_to tree.now.sheet.now tree.now.nodes.now row to) + 3 * length (lengths_to tree.now.sheet.now tree.now.nodes.now row to) + 4 * blanks + 2 ≤ length text.old.room.now) }
    ensures { PutsTo text.old text.new (bar_line (unders (lengths_to tree.now.sheet.now tree.now.nodes.now row to) ++ replicate blanks (45 ∷ []))) }
{
    put_line(tree, text, row, to, 0, true, b'-', blanks)
}

// Puts the lines of the rows that have cells; the cells' texts stand at `src`.
fn put_lines(tree: &Tree, text: &mut Text, from: usize, to: usize, src: usize)
    requires { SomeRows tree.now.sheet.now tree.now.nodes.now from to × (text.old.len + sum (concat (line_lengths tree.now.sheet.now tree.now.nodes.now from to)) + marks (line_lengths tree.now.sheet.now tree.now.nodes.now from to) ≤ src) × (src + sum (concat (line_lengths tree.now.sheet.now tree.now.nodes.now from to)) ≤ length text.old.room.now) }
    ensures { PutsTo text.old text.new (bar_lines (cut_rows (line_lengths tree.now.sheet.now tree.now.nodes.now from to) (drop src text.old.room.now))) }
{
    let mut at = src;
    for r in from..to {
        if is_filled_row(tree, r) {
            let last = tree.node_end(r);
            put_row(tree, text, r, last, at, 0);
            at += row_bytes(tree, r, last);
        }
    }
}

// What the lines of the rows that have cells take besides the cells' texts.
fn lines_marks(tree: &Tree, from: usize, to: usize) -> usize
    requires { SomeRows tree.now.sheet.now tree.now.nodes.now from to × (5 * length (concat (table_lengths tree.now.sheet.now tree.now.nodes.now from to)) < 18446744073709551616) }
    ensures { result ≡ marks (line_lengths tree.now.sheet.now tree.now.nodes.now from to) }
{
    let mut n = 0;
    for r in from..to {
        if is_filled_row(tree, r) {
            n += 3 * count_cells(tree, r) + 2;
        }
    }
    n
}

// How many cells the first row has that has cells.
fn first_width(tree: &Tree, from: usize, to: usize) -> usize
    requires { SomeRows tree.now.sheet.now tree.now.nodes.now from to }
    ensures { result ≡ width (line_lengths tree.now.sheet.now tree.now.nodes.now from to) }
{
    for r in from..to {
        if is_filled_row(tree, r) {
            return count_cells(tree, r);
        }
    }
    0
}

// Whether three numbers together are at most `room`.
fn has_room(room: usize, a: usize, b: usize, c: usize) -> bool
    ensures { result ≡ leb (a + b + c) room }
{
    a <= room && b <= room - a && c <= room - a - b
}

// Puts the table; the cells' texts stand at `src`, those of the headings first.
fn put_table(
    tree: &Tree,
    text: &mut Text,
    src: usize,
    row: usize,
    end: usize,
    from: usize,
    to: usize,
    bytes: usize,
    blanks: usize,
)
    requires { Kids tree.now.sheet.now tree.now.nodes.now row end × SomeRows tree.now.sheet.now tree.now.nodes.now from to × (bytes ≡ sum (lengths_to tree.now.sheet.now tree.now.nodes.now row end)) × (blanks ≡ width (line_lengths tree.now.sheet.now tree.now.nodes.now from to) - length (lengths_to tree.now.sheet.now tree.now.nodes.now row end)) × (text.old.len + 5 + 2 * bytes + zeros (lengths_to tree.now.sheet.now tree.now.nodes.now row end) + 6 * length (lengths_to tree.now.sheet.now tree.now.nodes.now row end) + 8 * blanks + sum (concat (line_lengths tree.now.sheet.now tree.now.nodes.now from to)) + marks (line_lengths tree.now.sheet.now tree.now.nodes.now from to) ≤ src) × (src + bytes + sum (concat (line_lengths tree.now.sheet.now tree.now.nodes.now from to)) ≤ length text.old.room.now) }
    ensures { PutsTo text.old text.new (table_bytes (lengths_to tree.now.sheet.now tree.now.nodes.now row end) (line_lengths tree.now.sheet.now tree.now.nodes.now from to) (drop src text.old.room.now)) }
{
    put_byte(text, b'\n');
    put_row(tree, text, row, end, src, blanks);
    put_rule(tree, text, row, end, blanks);
    put_lines(tree, text, from, to, src + bytes);
}

// Appends the table, whose cells' texts are the n bytes behind the text. The heading has the cells of node `row` up to number
// `end`; the other rows are those from number `from` on.
fn push_sized(
    tree: &Tree,
    text: &mut Text,
    n: usize,
    row: usize,
    end: usize,
    from: usize,
    to: usize,
    size: Size,
) -> Result<(), Full>
    requires { Kids tree.now.sheet.now tree.now.nodes.now row end × SomeRows tree.now.sheet.now tree.now.nodes.now from to × (size.cells ≡ length (lengths_to tree.now.sheet.now tree.now.nodes.now row end)) × (size.bytes ≡ sum (lengths_to tree.now.sheet.now tree.now.nodes.now row end)) × (size.empty ≡ zeros (lengths_to tree.now.sheet.now tree.now.nodes.now row end)) × (text.old.len + n ≤ length text.old.room.now) × (n ≡ size.bytes + sum (concat (line_lengths tree.now.sheet.now tree.now.nodes.now from to))) × (20 * size.cells + 20 * length (concat (table_lengths tree.now.sheet.now tree.now.nodes.now from to)) + 5 < 18446744073709551616) }
    ensures { WritesTo text.old text.new result (table_sized (lengths_to tree.now.sheet.now tree.now.nodes.now row end) (line_lengths tree.now.sheet.now tree.now.nodes.now from to) (take n (drop text.old.len text.old.room.now))) }
{
    let wide = first_width(tree, from, to);
    let blanks = wide.saturating_sub(size.cells);
    let extra = lines_marks(tree, from, to);
    let more = 5 + 6 * size.cells + 9 * blanks + size.empty + extra;
    let room = text.room.len();
    if !has_room(room - text.len - n, n, size.bytes, more) {
        return Err(Full);
    }
    let base = room - n;
    lift(text.room, text.len, n, base);
    put_table(tree, text, base, row, end, from, to, size.bytes, blanks);
    text.push_byte(b'\n')
}

fn push_headed(
    tree: &Tree,
    text: &mut Text,
    n: usize,
    row: usize,
    end: usize,
    from: usize,
    to: usize,
) -> Result<(), Full>
    requires { Kids tree.now.sheet.now tree.now.nodes.now row end × SomeRows tree.now.sheet.now tree.now.nodes.now from to × (text.old.len + n ≤ length text.old.room.now) × (n ≡ sum (lengths_to tree.now.sheet.now tree.now.nodes.now row end) + sum (concat (line_lengths tree.now.sheet.now tree.now.nodes.now from to))) × (20 * length (lengths_to tree.now.sheet.now tree.now.nodes.now row end) + 20 * length (concat (table_lengths tree.now.sheet.now tree.now.nodes.now from to)) + 5 < 18446744073709551616) }
    ensures { WritesTo text.old text.new result (table_sized (lengths_to tree.now.sheet.now tree.now.nodes.now row end) (line_lengths tree.now.sheet.now tree.now.nodes.now from to) (take n (drop text.old.len text.old.room.now))) }
{
    let size = measure(tree, row, end);
    push_sized(tree, text, n, row, end, from, to, size)
}

// Appends the table of the rows from node `first` on, the first that has cells; the cells' texts are the n bytes behind the
// text.
pub fn push_table(
    tree: &Tree,
    text: &mut Text,
    n: usize,
    first: usize,
    to: usize,
) -> Result<(), Full>
    requires { TableAt tree.now.sheet.now tree.now.nodes.now first to × (text.old.len + n ≤ length text.old.room.now) × (n ≡ sum (concat (table_lengths tree.now.sheet.now tree.now.nodes.now first to))) }
    ensures { (self : MDSerializer) (opts : FormatOpts) (rows : List (List Cell)) → RowsAt tree.now.sheet.now tree.now.nodes.now first to rows → table_lengths tree.now.sheet.now tree.now.nodes.now first to ≡ rows_lengths (rows_texts self opts rows) → take n (drop text.old.len text.old.room.now) ≡ concat (texts (concat (rows_texts self opts rows))) → WritesTo text.old text.new result (table_step (row_texts self opts (table_header_row rows)) (table_texts self opts (data_rows rows))) }
{
    if all_th(tree, first) {
        let end = tree.node_end(first);
        return push_headed(tree, text, n, first, end, first + 1, to);
    }
    push_headed(tree, text, n, first, first + 1, first, to)
}
