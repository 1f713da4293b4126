// The attributes of an element: those that the fields behind its opening say.
ghost use Rattle.std.specs.Prelude.{◌≡◌, true, ◌&&◌, ◌||◌, [], eqb};
ghost use Rattle.spec.specs.Bytes.{same};
ghost use Rattle.spec.specs.Tree.{Tail, attr, field_then};
ghost use Rattle.input.specs.Fields.{field};
ghost use Rattle.tree.specs.NodeFields.{attrs_of};
ghost use Rattle.tree.specs.Attributes.{ends_attrs, either_attr, language_attr, Valued};

use crate::field::NodeField;
use input::fields::{Field, Fields};
use input::tag::{CLOSE, COMMENT, NAME, OPEN, TEXT};

// Whether no attribute stands from a field with this tag on.
#[tactic(auto, unfolding(spec::specs::Bytes::isin))]
fn ends_attributes(tag: u8) -> bool
    ensures { result ≡ ends_attrs tag }
{
    matches!(tag, OPEN | TEXT | COMMENT | CLOSE)
}

// Whether a field with these bytes is an attribute name, and one of two.
#[tactic(auto, using(input::proofs::Splitting::same_eq))]
fn is_named(tag: u8, name: &[u8], a: &[u8], b: &[u8]) -> bool
    ensures { result ≡ (eqb tag 2 && (same a.now name.now || same b.now name.now)) }
{
    tag == NAME && (a == name || b == name)
}

// The value that a field behind the name of an attribute says; no bytes where it is no value.
fn value_of<'a>(f: Field<'a>) -> &'a [u8]
    ensures { (t : Tail) → result.now ≡ (field_then (field f.entry) t).value }
{
    if ends_attributes(f.tag) || f.tag == NAME {
        return &f.body[..0];
    }
    f.body
}

impl<'s> NodeField<'s> {
    // The value of the first attribute with one of two names.
    fn either_attribute(self, a: &[u8], b: &[u8]) -> Option<&'s [u8]>
        ensures { Valued self.entry.sheet.now result (either_attr a.now b.now (attrs_of self.entry)) }
    {
        let mut fields = Fields::new(&self.sheet[self.span().end..]);
        let found = fields.find(|f| ends_attributes(f.tag) || is_named(f.tag, f.body, a, b))?;
        if ends_attributes(found.tag) {
            return None;
        }
        match fields.next() {
            Some(f) => Some(value_of(f)),
            None => Some(&[]),
        }
    }

    // Whether the element is known to have no attributes.
    #[tactic(auto, using(crate::proofs::Attrs::attrs_none, crate::proofs::Attrs::attrs_end))]
    fn has_none(self) -> bool
        ensures { result ≡ true → attrs_of self.entry ≡ [] }
    {
        let p = self.span().end;
        self.sheet.len() - p < 3 || ends_attributes(self.sheet[p])
    }

    // The value of an attribute of the element: the first, where its name is repeated.
    pub fn attribute(self, name: &[u8]) -> Option<&'s [u8]>
        ensures { Valued self.entry.sheet.now result (attr name.now (attrs_of self.entry)) }
    {
        if self.has_none() {
            return None;
        }
        // new slices: the address of `name` itself would keep it in memory
        let n = name.len();
        self.either_attribute(&name[..n], &name[..n])
    }

    // The value of the first of the attributes of the element that say a language.
    pub fn language(self) -> Option<&'s [u8]>
        ensures { Valued self.entry.sheet.now result (language_attr (attrs_of self.entry)) }
    {
        self.either_attribute(b"data-lang", b"data-language")
    }
}
