// A no: which of the ten questions it answers.
ghost use Rattle.std.specs.Prelude.{◌≡◌, Some, decimal};
ghost use Rattle.input.specs.Refusals.{number_of};

use std::fmt;

// The question that says no. Its number is that of document 01, "The ten questions".
#[derive(Clone, Copy, PartialEq, Eq, Debug)]
pub enum Refusal {
    // 1: Is the sheet at most 1,048,576 bytes?
    SheetLength = 1,

    // 2: Does every field end inside it, with a tag from 1 to 6?
    Fields,

    // 3: Do the fields keep the rules, with every element closed and no stray close?
    Rules,

    // 4: Are all names, values, texts and comments UTF-8?
    Utf8,

    // 5: Are there at most 65,535 nodes, fragment included, and never over 100 elements open?
    Limits,

    // 6: Is no element named `blockquote`?
    Blockquote,

    // 7: Is the start number that of a node?
    Start,

    // 8: Is the skip list the default, or at most 16 whole tag-7 fields of 1 to 64 UTF-8 bytes each?
    SkipList,

    // 9: Has the node memory at least 64 bytes for each node?
    NodeMemory,

    // 10: Does the text memory suffice?
    TextMemory,
}

impl Refusal {
    // The question's number, 1 to 10.
    pub fn number(self) -> u8
        ensures { result ≡ number_of self }
    {
        self as u8
    }
}

// The number, in decimal digits.
impl fmt::Display for Refusal {
    ghost output = { λ no. Some (decimal (number_of no)) };

    fn fmt<W: fmt::Write>(&self, f: &mut fmt::Formatter<W>) -> fmt::Result {
        write!(f, "{}", self.number())
    }
}
