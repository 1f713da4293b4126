// elements/link.rs: what follows once a link's text stands behind the text.
ghost use Rattle.std.specs.Prelude.{◌+◌, ◌≤◌, length, take, drop};
ghost use Rattle.tree.specs.NodeFields.{attrs_of};
ghost use Rattle.text.specs.Texts.{WritesTo};
ghost use Rattle.text.specs.Writes.{Writes};
ghost use Rattle.spec.specs.Out.{beside};
ghost use Rattle.elements.specs.LinkStep.{append_by, bracket, link_front, link_shown, link_step, plain_step, text_link_step};

use lists_links::link::push_link_end;
use normalized::normalize_own::push_normalized_own;
use normalized::text_utils::escape_trailing_bang;
use spec::ctx::FormatOpts;
use text::buffer::{Full, Wrote, all_in, lift};
use text::class::White;
use text::text::Text;
use tree::field::NodeField;

// The opening bracket.
#[tactic(auto, unfolding(crate::specs::LinkStep::bracket), using(text::proofs::Texts::next, text::proofs::Texts::stop))]
fn push_bracket(text: &mut Text) -> Result<(), Full>
    ensures { WritesTo text.old text.new result bracket }
{
    escape_trailing_bang(text)?;
    text.push_byte(b'[')
}

// `push_bracket` for the text of `len` bytes in this room.
fn push_bracket_in(room: &mut [u8], len: usize) -> Wrote
    requires { len ≤ length room.old }
    ensures { Writes (length room.old) room.new result (bracket (take len room.old)) }
{
    let mut text = Text { room, len };
    push_bracket(&mut text)?;
    Ok(text.len)
}

// The words of what stands from base on, escaped.
#[tactic(auto, unfolding(crate::specs::LinkStep::plain_step), using(crate::proofs::Links::before_temp))]
fn push_plain(text: &mut Text, base: usize, opts: FormatOpts) -> Result<(), Full>
    requires { (text.old.len ≤ base) × (base ≤ length text.old.room.now) }
    ensures { WritesTo text.old text.new result (plain_step opts (drop base text.old.room.now)) }
{
    push_normalized_own(text, base, opts)
}

// What stands from base on, by its words or as it stands.
#[tactic(auto, unfolding(crate::specs::LinkStep::plain_step), using(text::proofs::Texts::as_step))]
fn push_by(text: &mut Text, base: usize, plain: bool, opts: FormatOpts) -> Result<(), Full>
    requires { (text.old.len ≤ base) × (base ≤ length text.old.room.now) }
    ensures { WritesTo text.old text.new result (λ t. beside (length (drop base text.old.room.now)) (append_by plain opts (drop base text.old.room.now) t)) }
{
    if plain {
        return push_plain(text, base, opts);
    }
    text.push_lifted(base, text.room.len() - base)
}

// The bracket and the link's text, which stands from base on.
fn push_link_text(text: &mut Text, base: usize, plain: bool, opts: FormatOpts) -> Result<(), Full>
    requires { (text.old.len ≤ base) × (base ≤ length text.old.room.now) }
    ensures { WritesTo text.old text.new result (link_front (drop base text.old.room.now) (append_by plain opts)) }
{
    text.len = push_bracket_in(&mut text.room[..base], text.len)?;
    push_by(text, base, plain, opts)
}

// The link whose text stands from base on.
#[tactic(auto, unfolding(crate::specs::LinkStep::link_shown), using(text::proofs::Texts::next, text::proofs::Texts::stop))]
fn push_shown(
    field: NodeField,
    text: &mut Text,
    base: usize,
    dest: &[u8],
    plain: bool,
    opts: FormatOpts,
) -> Result<(), Full>
    requires { ((text.old.len ≤ base) × (base ≤ length text.old.room.now)) × (length dest.now ≤ 1048576) }
    ensures { WritesTo text.old text.new result (link_shown (attrs_of field.entry) dest.now (drop base text.old.room.now) (append_by plain opts)) }
{
    push_link_text(text, base, plain, opts)?;
    push_link_end(text, field, dest)
}

// The link, from its text, the n bytes behind the text.
// `plain`: the words of the link's text are appended, escaped.
pub fn push_link(
    field: NodeField,
    text: &mut Text,
    n: usize,
    dest: &[u8],
    plain: bool,
    opts: FormatOpts,
) -> Result<(), Full>
    requires { (text.old.len + n ≤ length text.old.room.now) × (length dest.now ≤ 1048576) }
    ensures { WritesTo text.old text.new result (link_step (attrs_of field.entry) dest.now (take n (drop text.old.len text.old.room.now)) (append_by plain opts)) }
{
    if n == 0 {
        return Ok(());
    }
    let base = text.room.len() - n;
    lift(text.room, text.len, n, base);
    push_shown(field, text, base, dest, plain, opts)
}

// A link that shows only white bytes parts the words around it.
fn push_blank_link(text: &mut Text, n: usize, opts: FormatOpts) -> Result<(), Full>
    requires { text.old.len + n ≤ length text.old.room.now }
    ensures { WritesTo text.old text.new result (plain_step opts (take n (drop text.old.len text.old.room.now))) }
{
    let base = text.room.len() - n;
    lift(text.room, text.len, n, base);
    push_plain(text, base, opts)
}

// A link that shows its texts, the n bytes behind the text.
#[tactic(auto, unfolding(spec::specs::Bytes::is_blank), using(text::proofs::Texts::as_step, crate::proofs::Links::text_blank, crate::proofs::Links::text_shown))]
pub fn push_text_link(
    field: NodeField,
    text: &mut Text,
    n: usize,
    dest: &[u8],
    opts: FormatOpts,
) -> Result<(), Full>
    requires { (text.old.len + n ≤ length text.old.room.now) × (length dest.now ≤ 1048576) }
    ensures { WritesTo text.old text.new result (text_link_step opts (attrs_of field.entry) dest.now (take n (drop text.old.len text.old.room.now))) }
{
    let own = opts.fresh();
    let end = text.len;
    if all_in::<White>(&text.behind(end)[..n]) {
        return push_blank_link(text, n, own);
    }
    push_link(field, text, n, dest, true, own)
}
