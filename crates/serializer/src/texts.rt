// Which nodes are texts, and a text with the trim of the whole behind it.
ghost use Rattle.std.specs.Prelude.{◌≡◌, true, ◌&&◌, ℕ, [], ◌+◌, ◌≤◌, ◌<◌, eqb, length, get_or};
ghost use Rattle.spec.specs.Bytes.{is_blank};
ghost use Rattle.spec.specs.Out.{and_then};
ghost use Rattle.spec.specs.Md.TextUtils.{trim_space};
ghost use Rattle.tree.specs.Memory.{place_at};
ghost use Rattle.tree.specs.Nodes.{body_at};
ghost use Rattle.spec.specs.Tree.{Forest};
ghost use Rattle.spec.specs.Md.Elements.Link as link;
ghost use Rattle.tree.specs.Represents.{Rep};
ghost use Rattle.text.specs.Texts.{WritesTo};
ghost use Rattle.text.specs.Writes.{Writes};
ghost use Rattle.nodes.specs.Stands.{NodeAt, Siblings};
ghost use Rattle.nodes.specs.TextStep.{text_step};

use input::tag::TEXT;
use nodes::nodes::{write_text, write_text_node};
use normalized::text_utils::trim_space;
use spec::ctx::FormatOpts;
use text::buffer::{Full, Wrote, all_in};
use text::class::White;
use text::text::Text;
use tree::field::NodeField;
use tree::nodes::Tree;

// Whether the nodes from number `from` up to `to` are one text.
pub fn is_one_text(tree: &Tree, from: usize, to: usize) -> bool
    requires { (from ≤ to) × (from < to → NodeAt tree.now.sheet.now tree.now.nodes.now from) }
    ensures { result ≡ true → (from + 1 ≡ to) × (get_or tree.now.sheet.now (place_at tree.now.nodes.now from) 0 ≡ 4) }
{
    if to - from != 1 {
        return false;
    }
    tree.field(from).tag() == TEXT
}

// Appends the text of node i, if it is one, and trims the whole text.
pub fn trim_behind_text(
    tree: &Tree,
    text: &mut Text,
    i: usize,
    opts: FormatOpts,
) -> Result<(), Full>
    requires { NodeAt tree.now.sheet.now tree.now.nodes.now i }
    ensures { WritesTo text.old text.new result (λ t. and_then (text_step opts tree.now.sheet.now (place_at tree.now.nodes.now i) t) trim_space) }
{
    write_text_node(tree, text, i, opts)?;
    trim_space(text);
    Ok(())
}

// write_text of the nodes from number `from` up to `to`, as a text of its own at the front of `room`: how long it is.
pub fn write_text_behind(
    tree: &Tree,
    room: &mut [u8],
    from: usize,
    to: usize,
    opts: FormatOpts,
) -> Wrote
    requires { Siblings tree.now.sheet.now tree.now.nodes.now from to }
    ensures { (parent : ℕ) (f : Forest) → Rep tree.now.sheet.now tree.now.nodes.now parent from to f → Writes (length room.old) room.new result (link.write_text opts f []) }
{
    let mut text = Text { room, len: 0 };
    write_text(tree, &mut text, from, to, opts)?;
    Ok(text.len)
}

// Whether a node is a text of white bytes.
pub fn is_blank_text(field: NodeField) -> bool
    ensures { result ≡ (eqb (get_or field.entry.sheet.now field.entry.place 0) 4 && is_blank (body_at field.entry.sheet.now field.entry.place)) }
{
    field.tag() == TEXT && all_in::<White>(field.text())
}
