// What changes from child to child of an item.
ghost use Rattle.spec.specs.Md.Elements.List as def;
ghost use Rattle.lists_links.specs.Items.{item_of};
ghost use Rattle.serializer.specs.Writers.{SameRoom, progress_on, GoesTo};

use lists_links::list::{Item, push_rule};
use text::buffer::Full;
use text::text::Text;

// Whether no block stood before, whether a blank line is due.
#[derive(Clone, Copy)]
pub struct Going {
    pub first: bool,
    pub due: bool,
}

// A rule stands on a line of its own; a cell has no line for one.
pub fn rule_block(text: &mut Text, item: Item, before: Going) -> Result<Going, Full>
    ensures room { SameRoom text.old text.new }
    ensures goes { GoesTo text.old text.new result (def.rule_block (item_of item) (progress_on before text.old)) }
{
    if item.ctx.opts.table_cell {
        return Ok(Going {
            due: before.due | (item.start < text.len),
            ..before
        });
    }
    push_rule(text, item)?;
    Ok(Going {
        first: false,
        ..before
    })
}
