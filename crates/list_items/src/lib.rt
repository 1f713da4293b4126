// The beginning of the two item writers of elements/list.rs: the list context is lent to it and advanced in it.

#![tactic(auto)]

ghost use Rattle.std.specs.Prelude.{◌≡◌, ◌+◌, ◌<◌, ◌^◌};
ghost use Rattle.spec.specs.Md.Ctx.{advance_ol_number};
ghost use Rattle.spec.specs.Md.Elements.List.{begin_item};
ghost use Rattle.text.specs.Texts.{WritesTo};

use lists_links::list::begin_item;
use spec::ctx::ListContext;
use text::buffer::Full;
use text::text::Text;

// Begins an item, with blocks or without, and advances the context: the next number, and the offset of that number.
pub fn start_item(text: &mut Text, blocks: bool, ctx: &mut ListContext) -> Result<(), Full>
    requires { ctx.old.list_indent + 12 < 2 ^ 64 }
    ensures { WritesTo text.old text.new result (begin_item blocks ctx.old) × (ctx.new ≡ advance_ol_number ctx.old) }
{
    let before = *ctx;
    *ctx = before.advance_ol_number();
    begin_item(text, blocks, before)
}
