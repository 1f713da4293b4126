// elements/image.rs. An element is given by its field; a value is a part of the sheet.
ghost use Rattle.std.proofs.Math.Option.{some};
ghost use Rattle.std.specs.Prelude.{◌≤◌, length};
ghost use Rattle.spec.specs.Bytes.{ascii, or_else};
ghost use Rattle.spec.specs.Tree.{attr};
ghost use Rattle.spec.specs.Md.Ctx.{new};
ghost use Rattle.spec.specs.Md.TextUtils.{push_normalized_text};
ghost use Rattle.spec.specs.Md.Elements.Image as def;
ghost use Rattle.tree.specs.Attributes.{Valued};
ghost use Rattle.tree.specs.NodeFields.{attrs_of};
ghost use Rattle.text.specs.Texts.{WritesTo};

use crate::link::push_link_end;
use crate::title::push_normalized;
use text::buffer::{Full, trim_end_matches, trim_start_matches};
use text::class::{Black, Only, White};
use text::text::Text;
use text::white_space::trim_end;
use tree::field::NodeField;

// The value of an attribute, if it holds more than White_Space.
fn filled_value<'s>(field: NodeField<'s>, name: &[u8]) -> Option<&'s [u8]>
    ensures { Valued field.entry.sheet.now result (def.filled_value (attr name.now (attrs_of field.entry))) }
{
    match field.attribute(name) {
        Some(value) if trim_end(value) != 0 => Some(value),
        _ => None,
    }
}

// The first word of a value, without commas at its end.
fn first_word(value: &[u8]) -> Option<&[u8]>
    ensures { Valued value.now result (def.first_source (some value.now)) }
{
    let rest = &value[trim_start_matches::<White>(value)..];
    let word = &rest[..trim_start_matches::<Black>(rest)];
    let n = trim_end_matches::<Only<b','>>(word);
    if n == 0 {
        return None;
    }
    Some(&word[..n])
}

// The first source of a `srcset`, if there is one.
fn first_source<'s>(field: NodeField<'s>) -> Option<&'s [u8]>
    ensures { Valued field.entry.sheet.now result (def.first_source (attr (ascii "srcset") (attrs_of field.entry))) }
{
    field
        .attribute(b"srcset")
        .and_then(|srcset| first_word(srcset))
}

// The source of an image without a `src`.
#[tactic(auto, unfolding(spec::specs::Bytes::or_else))]
fn other_source<'s>(field: NodeField<'s>) -> Option<&'s [u8]>
    ensures { Valued field.entry.sheet.now result (or_else (def.first_source (attr (ascii "srcset") (attrs_of field.entry))) (def.filled_value (attr (ascii "data-src") (attrs_of field.entry)))) }
{
    match first_source(field) {
        Some(source) => Some(source),
        None => filled_value(field, b"data-src"),
    }
}

#[tactic(auto, unfolding(spec::specs::Bytes::or_else, spec::specs::Md::Elements::Image::source))]
fn source<'s>(field: NodeField<'s>) -> Option<&'s [u8]>
    ensures { Valued field.entry.sheet.now result (def.source (attrs_of field.entry)) }
{
    match filled_value(field, b"src") {
        Some(source) => Some(source),
        None => other_source(field),
    }
}

// Appends the alternative text, if there is one.
fn push_alt(text: &mut Text, field: NodeField) -> Result<(), Full>
    ensures { WritesTo text.old text.new result (def.if_some (attr (ascii "alt") (attrs_of field.entry)) (λ alt. push_normalized_text alt new)) }
{
    match field.attribute(b"alt") {
        Some(alt) => push_normalized(text, alt),
        None => Ok(()),
    }
}

// Appends an image with this source.
fn push_image(text: &mut Text, field: NodeField, source: &[u8]) -> Result<(), Full>
    requires { length source.now ≤ 1048576 }
    ensures { WritesTo text.old text.new result (def.image_of (attrs_of field.entry) source.now) }
{
    text.push_all(b"![")?;
    push_alt(text, field)?;
    push_link_end(text, field, source)
}

pub fn write_img(text: &mut Text, field: NodeField) -> Result<(), Full>
    requires { length field.sheet.now ≤ 1048576 }
    ensures { WritesTo text.old text.new result (def.write_img (attrs_of field.entry)) }
{
    match source(field) {
        Some(source) => push_image(text, field, source),
        None => Ok(()),
    }
}
