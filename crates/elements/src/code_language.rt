// The language of a code block. The answer is a part of the sheet, as it stands there.
ghost use Rattle.std.specs.Prelude.{List, ℕ, ◌+◌, ◌≤◌, length, take};
ghost use Rattle.spec.specs.Bytes.{Bytes, ascii, words};
ghost use Rattle.spec.specs.Tree.{Attr, Forest, attr};
ghost use Rattle.spec.specs.Md.MDSerializer.{Ancestors};
ghost use Rattle.spec.specs.Md.Elements.Code as def;
ghost use Rattle.tree.specs.Memory.{parent_at};
ghost use Rattle.tree.specs.NodeFields.{attrs_of};
ghost use Rattle.tree.specs.Represents.{Rep, Around};
ghost use Rattle.elements.specs.Languages.{Language, Within};
ghost use Rattle.nodes.specs.Stands.{Siblings, ElementAt, Placed};

use nodes::nodes::node_name;
use spec::element::CODE;
use text::buffer::starts_with;
use text::class::{ByteClass, White};
use tree::field::NodeField;
use tree::nodes::Tree;

// What begins a word of a class that says a language.
const PREFIX: &[u8] = b"language-";

// A language is looked for in an element and three around it.
const NEAREST: usize = 4;

// The language that node i or one of three elements around it says.
fn nearest_language<'a>(tree: &Tree<'a, '_>, i: usize) -> Option<&'a [u8]>
    requires { Within tree.now.sheet.now tree.now.nodes.now i }
    ensures { (anc : Ancestors) → Around tree.now.sheet.now tree.now.nodes.now i anc → Language tree.now.sheet.now result (def.nearest_language (take 4 anc)) }
{
    let mut at = i;
    for _ in 0..NEAREST {
        if at == 0 {
            return None;
        }
        if let Some(language) = tree.field(at).language() {
            return Some(language);
        }
        at = tree.node_parent(at);
    }
    None
}

// The language in the words of a class.
fn class_language(class: &[u8]) -> Option<&[u8]>
    ensures { Language class.now result (def.language_class (words class.now)) }
{
    class
        .split(|b| White::has(*b))
        .find(|word| starts_with(word, PREFIX))?
        .strip_prefix(PREFIX)
}

fn class_of<'s>(field: NodeField<'s>) -> Option<&'s [u8]>
    ensures { Language field.entry.sheet.now result (def.class_language (attr (ascii "class") (attrs_of field.entry))) }
{
    class_language(field.attribute(b"class")?)
}

// Of the first `code` among the siblings.
fn find_code_language_css_class<'a>(tree: &Tree<'a, '_>, from: usize, to: usize) -> Option<&'a [u8]>
    requires { Siblings tree.now.sheet.now tree.now.nodes.now from to }
    ensures { (parent : ℕ) (f : Forest) → Rep tree.now.sheet.now tree.now.nodes.now parent from to f → Language tree.now.sheet.now result (def.find_code_language_css_class f) }
{
    for i in tree.siblings(from, to) {
        if node_name(tree, i) == CODE {
            return class_of(tree.field(i));
        }
    }
    None
}

pub fn find_code_language<'a>(tree: &Tree<'a, '_>, i: usize) -> Option<&'a [u8]>
    requires { Placed tree.now.sheet.now tree.now.nodes.now i }
    ensures { (name : Bytes) (attrs : List Attr) (kids : Forest) (anc : Ancestors) → ElementAt tree.now.sheet.now tree.now.nodes.now i name attrs kids → Around tree.now.sheet.now tree.now.nodes.now (parent_at tree.now.nodes.now i) anc → Language tree.now.sheet.now result (def.find_code_language anc attrs kids) }
{
    match nearest_language(tree, i) {
        Some(language) => Some(language),
        None => find_code_language_css_class(tree, i + 1, tree.node_end(i)),
    }
}
