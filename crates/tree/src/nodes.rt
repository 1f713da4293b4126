// The nodes in node memory, by their numbers: node 0 is the fragment, and a node and its descendants are a range.
ghost use Rattle.std.specs.Prelude.{◌≡◌, ◌+◌, ◌-◌, ◌*◌, ◌≤◌, ◌<◌, length};
ghost use Rattle.tree.specs.Memory.{place_at, number_at, end_at, parent_at};
ghost use Rattle.tree.specs.Nodes.{first_child, next_sibling};
ghost use Rattle.tree.specs.Represents.{Nodes};

use crate::field::NodeField;
use crate::memory::read;

// A part of the sheet: where it starts and ends.
#[derive(Clone, Copy)]
pub struct Part {
    pub start: usize,
    pub end: usize,
}

// A sheet, and the nodes of its tree in node memory.
#[derive(Clone, Copy)]
pub struct Tree<'s, 'n> {
    pub sheet: &'s [u8],
    pub nodes: &'n [u8],
}

impl<'s, 'n> Tree<'s, 'n> {
    ghost use Rattle.tree.specs.NodeFields.{IsField};
    ghost use Rattle.tree.specs.Siblings.{Over};

    // Where in the sheet the field of node i stands.
    #[tactic(auto, using(crate::proofs::Numbers::quad_is))]
    pub fn node_place(&self, i: usize) -> usize
        requires { i * 24 + 24 ≤ length self.now.nodes.now }
        ensures { result ≡ place_at self.now.nodes.now i }
    {
        read::<4>(self.nodes, i * 24) / 256
    }

    // The field of node i.
    pub fn field(&self, i: usize) -> NodeField<'s>
        requires { (i * 24 + 24 ≤ length self.now.nodes.now) × (place_at self.now.nodes.now i + 3 ≤ length self.now.sheet.now) }
        ensures { IsField self.now.sheet.now self.now.nodes.now i result }
    {
        NodeField {
            sheet: self.sheet,
            place: self.node_place(i),
        }
    }

    // The number of the name of node i; 0 where it is no element.
    #[tactic(auto, using(crate::proofs::Numbers::quad_is))]
    pub fn node_number(&self, i: usize) -> usize
        requires { i * 24 + 24 ≤ length self.now.nodes.now }
        ensures { result ≡ number_at self.now.nodes.now i }
    {
        read::<4>(self.nodes, i * 24) % 256
    }

    // The number of the node behind the last descendant of node i. The children of node i are i + 1, the end of that, and so
    // on up to the end of i.
    #[tactic(auto, using(crate::proofs::Numbers::word_is))]
    pub fn node_end(&self, i: usize) -> usize
        requires { i * 24 + 24 ≤ length self.now.nodes.now }
        ensures { result ≡ end_at self.now.nodes.now i }
    {
        read::<2>(self.nodes, i * 24 + 4)
    }

    // The number of the node in which node i stands; 0 for node 0 itself.
    #[tactic(auto, using(crate::proofs::Numbers::word_is))]
    pub fn node_parent(&self, i: usize) -> usize
        requires { i * 24 + 24 ≤ length self.now.nodes.now }
        ensures { result ≡ parent_at self.now.nodes.now i }
    {
        read::<2>(self.nodes, i * 24 + 6)
    }

    // The first child of node i, if it has one.
    pub fn first_child(&self, i: usize) -> Option<usize>
        requires { i * 24 + 24 ≤ length self.now.nodes.now }
        ensures { result ≡ first_child self.now.nodes.now i }
    {
        let next = i + 1;
        (next < self.node_end(i)).then_some(next)
    }

    // The node that follows node i among its siblings, if it is not the last.
    pub fn next_sibling(&self, i: usize) -> Option<usize>
        requires { (i * 24 + 24 ≤ length self.now.nodes.now) × (parent_at self.now.nodes.now i * 24 + 24 ≤ length self.now.nodes.now) }
        ensures { result ≡ next_sibling self.now.nodes.now i }
    {
        let next = self.node_end(i);
        let up = self.node_parent(i);
        (next < self.node_end(up)).then_some(next)
    }

    // The nodes from number `from` up to `to`, which are siblings, without their descendants.
    pub fn siblings(&self, from: usize, to: usize) -> Siblings<'s, 'n>
        requires { Nodes self.now.sheet.now self.now.nodes.now from to }
        ensures { Over self.now.sheet.now self.now.nodes.now from to result }
    {
        Siblings {
            tree: *self,
            next: from,
            end: to,
        }
    }
}

// Siblings from number `next` up to `end`.
#[derive(Drop)]
pub struct Siblings<'s, 'n> {
    tree: Tree<'s, 'n>,
    next: usize,
    end: usize,
    ghost stand: { ∥ Nodes tree.sheet.now tree.nodes.now next end ∥₁ },
}

impl<'s, 'n> Iterator for Siblings<'s, 'n> {
    ghost use Rattle.std.specs.Iterator.{at_most};
    ghost use Rattle.tree.specs.Siblings.{GivesSibling, left_at_most};

    type Item = usize;

    ghost next_gives = { GivesSibling };

    ghost remaining = { λ s. at_most (left_at_most s) };

    fn next(&mut self) -> Option<usize> {
        if self.end <= self.next {
            return None;
        }
        let i = self.next;
        self.next = self.tree.node_end(i);
        Some(i)
    }
}
