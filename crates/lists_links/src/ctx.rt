// What ctx.rs hands over as strings, appended.
ghost use Rattle.std.specs.Prelude.{◌≡◌, ◌≤◌, ◌++◌, length};
ghost use Rattle.spec.specs.Bytes.{ascii, decimal};
ghost use Rattle.spec.specs.Out.{push};
ghost use Rattle.spec.specs.Md.Ctx as def;
ghost use Rattle.text.specs.Texts.{WritesTo};

use spec::ctx::{ListContext, ListKind, digits};
use text::buffer::Full;
use text::text::Text;

// Appends n in decimal.
fn push_decimal(text: &mut Text, n: u32) -> Result<(), Full>
    ensures { WritesTo text.old text.new result (push (decimal n)) }
{
    if 10 <= n {
        push_decimal(text, n / 10)?;
    }
    text.push_byte(b'0' + (n % 10) as u8)
}

// Appends an item's number with its dot.
#[tactic(auto, using(text::proofs::Texts::pushes_both, text::proofs::Texts::pushes_stop))]
fn push_ol_prefix(text: &mut Text, n: u32) -> Result<(), Full>
    ensures { WritesTo text.old text.new result (push (decimal n ++ ascii ". ")) }
{
    push_decimal(text, n)?;
    text.push_all(b". ")
}

// Appends the marker of an item.
#[tactic(auto, unfolding(spec::specs::Md::Ctx::prefix, spec::specs::Md::Ctx::prefix_of, spec::specs::Md::Ctx::ul_prefix))]
pub fn push_prefix(text: &mut Text, ctx: ListContext) -> Result<(), Full>
    ensures { WritesTo text.old text.new result (push (def.prefix ctx)) }
{
    match ctx.kind {
        ListKind::Ul => text.push_all(if ctx.opts.table_cell { b"+ " } else { b"- " }),
        ListKind::Ol(n) => push_ol_prefix(text, n),
    }
}

// How long the marker of an item is.
pub fn prefix_len(ctx: ListContext) -> usize
    ensures { (result ≡ length (def.prefix ctx)) × (result ≤ 12) }
{
    match ctx.kind {
        ListKind::Ul => 2,
        ListKind::Ol(n) => digits(n) + 2,
    }
}
