// The leaves of elements/link.rs. An element is given by its field.
ghost use Rattle.std.specs.Prelude.{◌≤◌, length};
ghost use Rattle.spec.specs.Bytes.{ascii};
ghost use Rattle.spec.specs.Tree.{attr};
ghost use Rattle.spec.specs.Md.TextUtils.{push_title};
ghost use Rattle.spec.specs.Md.Elements.Image.{if_some};
ghost use Rattle.spec.specs.Md.Elements.Link as def;
ghost use Rattle.tree.specs.NodeFields.{attrs_of};
ghost use Rattle.text.specs.Texts.{WritesTo};

use crate::title::push_title;
use crate::url::push_md_url;
use text::buffer::Full;
use text::text::Text;
use tree::field::NodeField;

// Appends the title, if there is one.
fn push_title_of(text: &mut Text, field: NodeField) -> Result<(), Full>
    ensures { WritesTo text.old text.new result (if_some (attr (ascii "title") (attrs_of field.entry)) push_title) }
{
    match field.attribute(b"title") {
        Some(title) => push_title(text, title),
        None => Ok(()),
    }
}

// Appends what follows the text of a link or an image.
pub fn push_link_end(text: &mut Text, field: NodeField, dest: &[u8]) -> Result<(), Full>
    requires { length dest.now ≤ 1048576 }
    ensures { WritesTo text.old text.new result (def.link_end (attrs_of field.entry) dest.now) }
{
    text.push_all(b"](")?;
    push_md_url(text, dest)?;
    push_title_of(text, field)?;
    text.push_byte(b')')
}
