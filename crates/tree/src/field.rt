// The field of a node, in the sheet.
ghost use Rattle.std.specs.Prelude.{◌+◌, ◌≤◌, length};

use crate::nodes::Part;
use input::fields::{Span, span_at};
use input::tag::TEXT;

// The field of a node: the sheet, and where in it the field stands. The field of an element is its opening.
#[derive(Clone, Copy)]
pub struct NodeField<'s> {
    pub sheet: &'s [u8],
    pub place: usize,
    pub ghost inside: { place + 3 ≤ length sheet.now },
}

impl<'s> NodeField<'s> {
    ghost use Rattle.std.specs.Prelude.{◌≡◌, get_or};
    ghost use Rattle.input.specs.Spans.{Spanned};
    ghost use Rattle.tree.specs.Nodes.{text_at, PartIs};

    // What kind of node has this field: its tag.
    pub fn tag(self) -> u8
        ensures { result ≡ get_or self.entry.sheet.now self.entry.place 0 }
    {
        self.sheet[self.place]
    }

    // The tag, and where the bytes start and end.
    pub fn span(self) -> Span
        ensures { Spanned self.entry.sheet.now self.entry.place result }
    {
        span_at(self.sheet, self.place)
    }

    // Where in the sheet the bytes of the node stand, where it is a text; else no bytes.
    #[tactic(auto, using(crate::proofs::Access::no_text, crate::proofs::Access::its_text))]
    pub fn text_range(self) -> Part
        ensures { PartIs self.entry.sheet.now result (text_at self.entry.sheet.now self.entry.place) }
    {
        let f = self.span();
        let start = f.start;
        let end = if f.tag == TEXT { f.end } else { start };
        Part { start, end }
    }

    // The bytes of the node, where it is a text; else no bytes. Over the nodes of a range, one after the other, these are the
    // pieces of `text_of`.
    pub fn text(self) -> &'s [u8]
        ensures { result.now ≡ text_at self.entry.sheet.now self.entry.place }
    {
        let Part { start, end } = self.text_range();
        &self.sheet[start..end]
    }
}
