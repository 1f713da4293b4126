// What a leaf function is called with: options and contexts from the numbers of a case, and texts begun behind the text.
ghost use Rattle.std.specs.Prelude.{◌≤◌, ◌+◌, length, IfOk};

use lists_links::image::write_img;
use lists_links::list::Item;
use lists_links::list_indented::push_indented;
use lists_links::list_number::parse_list_number;
use lists_links::url::push_md_url;
use marks::code::{push_code_text, push_fenced_block};
use marks::emphasis::push_emphasis;
use spec::ctx::{FormatOpts, ListContext, ListKind};
use text::buffer::Full;
use text::text::Text;
use tree::field::NodeField;

// The flags of a case.
const INLINE: usize = 1;

const SKIP_ESCAPE: usize = 2;

const LIST_ITEM: usize = 4;

const TABLE_CELL: usize = 8;

// An ordered list, whose next number is y.
const ORDERED: usize = 16;

// A text that counts as code.
const COUNTS: usize = 32;

// An item whose children are blocks.
pub const BLOCKS: usize = 64;

// The first block of an item.
pub const FIRST: usize = 128;

// A block that is indented as a whole.
pub const INDENTED: usize = 256;

pub const BLANK: usize = 512;

// A sheet has at most as many bytes.
const SHEET: usize = 1_048_576;

// The head of a field.
const HEAD: usize = 3;

// What a leaf is called with beside a text: flags, and two numbers and two byte strings that each leaf reads in its own way.
#[derive(Clone, Copy)]
pub struct Case<'a> {
    pub flags: usize,
    pub x: usize,
    pub y: usize,
    pub a: &'a [u8],
    pub b: &'a [u8],
}

impl Case<'_> {
    pub fn has(self, flag: usize) -> bool {
        self.flags & flag != 0
    }

    pub fn options(self) -> FormatOpts {
        let mut opts = FormatOpts::new();
        opts.inline = self.has(INLINE);
        opts.skip_escape = self.has(SKIP_ESCAPE);
        opts.list_item = self.has(LIST_ITEM);
        opts.table_cell = self.has(TABLE_CELL);
        opts
    }

    fn kind(self) -> ListKind {
        match u32::try_from(self.y) {
            Ok(next) if self.has(ORDERED) => ListKind::Ol(next),
            _ => ListKind::Ul,
        }
    }

    // x blanks stand before the items.
    pub fn context(self) -> ListContext {
        ListContext {
            opts: self.options(),
            kind: self.kind(),
            list_indent: self.x,
        }
    }

    // x blanks stand before the item's blocks, and its content begins at y.
    pub fn item(self) -> Item {
        Item {
            ctx: self.context(),
            indent: self.x,
            start: self.y,
        }
    }
}

// What a leaf answers: that it has written, or a number, where there is one.
#[derive(Clone, Copy)]
pub enum Answer {
    Written(Result<(), Full>),
    Number(Option<usize>),
}

pub fn number(n: usize) -> Answer {
    Answer::Number(Some(n))
}

pub fn truth(b: bool) -> Answer {
    number(usize::from(b))
}

pub fn parsed(value: &[u8]) -> Answer {
    Answer::Number(parse_list_number(value).map(|n| n as usize))
}

// Puts the text of a case behind the text.
fn put_behind(text: &mut Text, a: &[u8]) -> Result<(), Full>
    ensures { IfOk result (λ u. text.new.len + length a.now ≤ length text.new.room.now) }
{
    if text.room.len() - text.len < a.len() {
        return Err(Full);
    }
    let end = text.len + a.len();
    text.room[text.len..end].copy_from_slice(a);
    Ok(())
}

// a stands behind the text, as a text begun inside it.
pub fn indented(text: &mut Text, case: Case) -> Result<(), Full> {
    put_behind(text, case.a)?;
    push_indented(text, case.a.len(), case.item())
}

// a stands behind the text.
pub fn code(text: &mut Text, case: Case) -> Result<(), Full> {
    let n = case.a.len();
    put_behind(text, case.a)?;
    let counted = if case.has(COUNTS) { n } else { 0 };
    push_code_text(text, text.len, n, counted)
}

// a stands behind the text, b is the language.
pub fn fenced(text: &mut Text, case: Case) -> Result<(), Full> {
    put_behind(text, case.a)?;
    push_fenced_block(text, text.len, case.a.len(), case.b)
}

// a stands behind the text, b is the marker.
pub fn emphasized(text: &mut Text, case: Case) -> Result<(), Full> {
    put_behind(text, case.a)?;
    push_emphasis(text, case.a.len(), case.b)
}

// A destination is no longer than a sheet.
pub fn destination(text: &mut Text, a: &[u8]) -> Result<(), Full> {
    if SHEET < a.len() {
        return Err(Full);
    }
    push_md_url(text, a)
}

// a is a sheet whose first field opens the element.
pub fn image(text: &mut Text, a: &[u8]) -> Result<(), Full> {
    if a.len() < HEAD || SHEET < a.len() {
        return Err(Full);
    }
    write_img(text, NodeField { sheet: a, place: 0 })
}
