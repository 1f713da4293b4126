// The tree of a sheet, stored in node memory.
ghost use Rattle.std.specs.Prelude.{◌≡◌, ◌+◌, ◌*◌, ◌≤◌, ◌<◌, length};
ghost use Rattle.spec.specs.Questions.{node_count};
ghost use Rattle.tree.specs.Memory.{word_at, Stored, parent_at};
ghost use Rattle.tree.specs.Represents.{entry_of, Holds};
ghost use Rattle.tree.specs.Kinds.{kind_of, Placed, FitsAs, TurnedAs, Storable};

use crate::field::NodeField;
use crate::memory::{read, store};
use input::fields::length_at;
use input::tag::{CLOSE, COMMENT, OPEN, TEXT};

// How far storing has come: the nodes begun, and the innermost open one.
#[derive(Clone, Copy)]
pub struct Turn {
    pub count: usize,
    pub cur: usize,
}

// Stores the record of node i; its scratch stays as it was.
fn store_record(ns: &mut [u8], i: usize, entry: usize, end: usize, parent: usize)
    requires { (i * 24 + 24 ≤ length ns.old) × (entry < 4294967296) × (end < 65536) × (parent < 65536) }
    ensures { Placed i entry end parent ns.old ns.new }
{
    store::<4>(ns, i * 24, entry);
    store::<2>(ns, i * 24 + 4, end);
    store::<2>(ns, i * 24 + 6, parent);
}

// Stores that the node `cur` ends before the node with the number `count`, and says its parent.
#[tactic(auto, using(crate::proofs::Numbers::word_is, crate::proofs::Numbers::stored_word))]
fn close_node(ns: &mut [u8], count: usize, cur: usize) -> usize
    requires { (cur * 24 + 24 ≤ length ns.old) × (count < 65536) }
    ensures { Stored word_at 2 (cur * 24 + 4) count ns.old ns.new × (result ≡ parent_at ns.old cur) }
{
    let up = read::<2>(ns, cur * 24 + 6);
    store::<2>(ns, cur * 24 + 4, count);
    up
}

// Stores what a field with this tag and this entry, which is no close, says of the nodes.
fn store_field(ns: &mut [u8], tag: u8, entry: usize, count: usize, cur: usize) -> Turn
    requires { (entry < 4294967296) × FitsAs (kind_of tag) count cur ns.old × (tag ≡ 6 → ⊥) }
    ensures { TurnedAs (kind_of tag) entry count cur ns.old ns.new result }
{
    match tag {
        OPEN => {
            store_record(ns, count, entry, count + 1, cur);
            Turn {
                count: count + 1,
                cur: count,
            }
        }
        TEXT | COMMENT => {
            store_record(ns, count, entry, count + 1, cur);
            Turn {
                count: count + 1,
                cur,
            }
        }
        _ => Turn { count, cur },
    }
}

// The entry of a node whose field stands at p: its place, and the number of its name.
#[tactic(auto, using(crate::proofs::Entries::name_low), unfolding(crate::specs::Represents::entry_of))]
fn entry_of(sheet: &[u8], p: usize) -> usize
    requires { (p + 3 ≤ length sheet.now) × (length sheet.now ≤ 1048576) }
    ensures { (result ≡ entry_of sheet.now p) × (result < 4294967296) }
{
    p * 256 + NodeField { sheet, place: p }.name()
}

// Stores the nodes behind the fragment, and where the fragment ends.
fn store_rest(sheet: &[u8], nodes: &mut [u8]) -> usize
    requires { Storable sheet.now (length nodes.old) × (parent_at nodes.old 0 ≡ 0) }
    ensures { (result ≡ node_count sheet.now) × Holds sheet.now nodes.new result }
{
    let mut count = 1;
    let mut cur = 0;
    let mut p = 0;
    // Behind a field that is cut off nothing is left, so that no test is needed where it ends. A close holds nothing, so
    // that its length is not read.
    while p + 3 <= sheet.len() {
        let tag = sheet[p];
        if tag == CLOSE {
            cur = close_node(nodes, count, cur);
            p += 3;
            continue;
        }
        let n = length_at(sheet, p);
        let entry = entry_of(sheet, p);
        let t = store_field(nodes, tag, entry, count, cur);
        count = t.count;
        cur = t.cur;
        p = p + 3 + n;
    }
    store::<2>(nodes, 4, count);
    count
}

// Stores the tree of a sheet, and says how many nodes it has, fragment included.
pub fn store_nodes(sheet: &[u8], nodes: &mut [u8]) -> usize
    requires { Storable sheet.now (length nodes.old) }
    ensures { (result ≡ node_count sheet.now) × Holds sheet.now nodes.new result }
{
    store_record(nodes, 0, 0, 0, 0);
    store_rest(sheet, nodes)
}
