// elements/table.rs: the tests on the rows of a table in node memory.
ghost use Rattle.std.specs.Prelude.{◌≡◌, true, not, cond, List, ℕ, ◌+◌, ◌<◌, ◌≤◌, length};
ghost use Rattle.spec.specs.Bytes.{null};
ghost use Rattle.spec.specs.Tree.{Forest};
ghost use Rattle.spec.specs.Md.Elements.Table as def;
ghost use Rattle.tree.specs.Represents.{Rep};
ghost use Rattle.nodes.specs.Stands.{Siblings};
ghost use Rattle.tables.specs.Rows.{MaybeRow, RowAt, Rows, RowsAt, SomeRow, SomeRows};

use nodes::nodes::{has_element, node_name};
use spec::element::{TABLE, TD, TH, TR};
use tree::nodes::Tree;

#[tactic(auto, unfolding(spec::specs::Md::Elements::Table::is_table_cell))]
pub fn is_table_cell(name: usize) -> bool
    ensures { result ≡ def.is_table_cell name }
{
    matches!(name, TH | TD)
}

// How many cells a node of this name is.
fn cells_of(name: usize) -> usize
    ensures { result ≡ cond (def.is_table_cell name) 1 0 }
{
    if is_table_cell(name) { 1 } else { 0 }
}

// How many cells row i has.
pub fn count_cells(tree: &Tree, i: usize) -> usize
    requires { SomeRow tree.now.sheet.now tree.now.nodes.now i }
    ensures { (row : List def.Cell) → RowAt tree.now.sheet.now tree.now.nodes.now i row → result ≡ length row }
{
    let mut n = 0;
    for c in tree.siblings(i + 1, tree.node_end(i)) {
        n += cells_of(node_name(tree, c));
    }
    n
}

// Whether no cell of row i is a `td`.
pub fn all_th(tree: &Tree, i: usize) -> bool
    requires { SomeRow tree.now.sheet.now tree.now.nodes.now i }
    ensures { (row : List def.Cell) → RowAt tree.now.sheet.now tree.now.nodes.now i row → result ≡ def.all_th row }
{
    for c in tree.siblings(i + 1, tree.node_end(i)) {
        if node_name(tree, c) == TD {
            return false;
        }
    }
    true
}

// The number of the first row from i on, or `to`.
pub fn next_row(tree: &Tree, i: usize, to: usize) -> usize
    requires { SomeRows tree.now.sheet.now tree.now.nodes.now i to }
    ensures later { i ≤ result }
    ensures rows { (rows : List (List def.Cell)) → Rows tree.now.sheet.now tree.now.nodes.now i to rows → RowsAt tree.now.sheet.now tree.now.nodes.now result to rows }
{
    for r in i..to {
        if node_name(tree, r) == TR {
            return r;
        }
    }
    to
}

// Whether node r is a row that has cells.
pub fn is_filled_row(tree: &Tree, r: usize) -> bool
    requires { MaybeRow tree.now.sheet.now tree.now.nodes.now r }
    ensures row { result ≡ true → SomeRow tree.now.sheet.now tree.now.nodes.now r }
    ensures filled { (row : List def.Cell) → RowAt tree.now.sheet.now tree.now.nodes.now r row → result ≡ not (null row) }
{
    node_name(tree, r) == TR && count_cells(tree, r) != 0
}

// The number of the first row from i on that has cells, or `to`.
pub fn next_filled_row(tree: &Tree, i: usize, to: usize) -> usize
    requires { SomeRows tree.now.sheet.now tree.now.nodes.now i to }
    ensures later { i ≤ result }
    ensures rows { (rows : List (List def.Cell)) → Rows tree.now.sheet.now tree.now.nodes.now i to rows → RowsAt tree.now.sheet.now tree.now.nodes.now result to (def.from_cells rows) }
{
    for r in i..to {
        if is_filled_row(tree, r) {
            return r;
        }
    }
    to
}

// Whether behind the first row that has cells every row has as many.
fn equal_rows(tree: &Tree, from: usize, to: usize) -> bool
    requires { SomeRows tree.now.sheet.now tree.now.nodes.now from to }
    ensures { (rows : List (List def.Cell)) → Rows tree.now.sheet.now tree.now.nodes.now from to rows → result ≡ def.equal_rows 0 rows }
{
    let mut common = 0;
    for r in from..to {
        if node_name(tree, r) == TR {
            let n = count_cells(tree, r);
            if (common != 0) & (n != common) {
                return false;
            }
            common = n;
        }
    }
    true
}

// Where the rows begin that are not the heading, from the first row that has cells.
pub fn data_from(tree: &Tree, first: usize) -> usize
    requires { SomeRow tree.now.sheet.now tree.now.nodes.now first }
    ensures { (to : ℕ) (rows : List (List def.Cell)) → RowsAt tree.now.sheet.now tree.now.nodes.now first to rows → first < to → Rows tree.now.sheet.now tree.now.nodes.now result to (def.data_rows rows) }
{
    if all_th(tree, first) {
        first + 1
    } else {
        first
    }
}

// Whether the table from number `from` up to `to` is one of Markdown; `first` is its first row that has cells.
pub fn is_table_node_writable(tree: &Tree, from: usize, to: usize, first: usize) -> bool
    requires { Siblings tree.now.sheet.now tree.now.nodes.now from to × ((rows : List (List def.Cell)) × RowsAt tree.now.sheet.now tree.now.nodes.now first to rows) }
    ensures { (parent : ℕ) (kids : Forest) (rows : List (List def.Cell)) → Rep tree.now.sheet.now tree.now.nodes.now parent from to kids → RowsAt tree.now.sheet.now tree.now.nodes.now first to rows → result ≡ def.is_table_node_writable kids rows }
{
    if to <= first {
        return false;
    }
    if has_element(tree, from, to, TABLE) {
        return false;
    }
    let data = data_from(tree, first);
    equal_rows(tree, data, to)
}
