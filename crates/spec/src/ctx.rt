// ctx.rs: the option types and their methods. Their meaning is specs/Md/Ctx.antt.

ghost use Rattle.std.specs.Prelude.{◌≡◌, ◌+◌, ◌≤◌, ◌<◌, ◌^◌, min, length};
ghost use Rattle.spec.specs.Bytes.{decimal};
ghost use Rattle.spec.specs.Md.Constants.{MAX_LIST_NUMBER};
ghost use Rattle.spec.specs.Md.Ctx as def;

#[derive(Clone, Copy)]
pub struct EmphasisScope(pub u8);

impl EmphasisScope {
    pub const BOLD: Self = Self(1);

    pub const ITALIC: Self = Self(2);

    pub fn contains(self, other: Self) -> bool
        ensures { result ≡ def.contains self other }
    {
        (self.0 & other.0) == other.0
    }

    pub fn insert(mut self, other: Self) -> Self
        ensures { result ≡ def.insert self other }
    {
        self.0 |= other.0;
        self
    }
}

#[derive(Clone, Copy)]
pub struct FormatOpts {
    pub include_node: bool,
    pub skip_escape: bool,
    pub inline: bool,
    // Markdown syntax is left out and plain text is written.
    pub skip_md: bool,
    // In a table cell a line break is `<br>`.
    pub table_cell: bool,
    pub list_item: bool,
    // In a link's text, which holds no blank line and no block marker, blocks are joined by blanks.
    pub link_body: bool,
    pub offset: usize,
    pub emphasis_scope: EmphasisScope,
}

impl FormatOpts {
    pub fn new() -> Self
        ensures { result ≡ def.new }
    {
        Self {
            include_node: false,
            skip_escape: false,
            inline: false,
            skip_md: false,
            table_cell: false,
            list_item: false,
            link_body: false,
            offset: 0,
            emphasis_scope: EmphasisScope(0),
        }
    }

    // `FormatOpts::new()` behind other options: what of them goes on.
    pub fn fresh(self) -> Self
        ensures { result ≡ def.fresh self }
    {
        Self::new()
    }

    pub fn include_node(mut self) -> Self
        ensures { result ≡ def.include_node self }
    {
        self.include_node = true;
        self
    }

    pub fn offset(mut self, offset: usize) -> Self
        ensures { result ≡ def.offset offset self }
    {
        self.offset = offset;
        self
    }

    pub fn skip_escape(mut self) -> Self
        ensures { result ≡ def.skip_escape self }
    {
        self.skip_escape = true;
        self
    }

    pub fn table_cell(mut self) -> Self
        ensures { result ≡ def.table_cell self }
    {
        self.table_cell = true;
        self
    }

    pub fn list_item(mut self) -> Self
        ensures { result ≡ def.list_item self }
    {
        self.list_item = true;
        self
    }

    pub fn link_body(mut self) -> Self
        ensures { result ≡ def.link_body self }
    {
        self.link_body = true;
        self
    }

    pub fn inline(mut self) -> Self
        ensures { result ≡ def.inline self }
    {
        self.inline = true;
        self
    }

    pub fn skip_md(mut self) -> Self
        ensures { result ≡ def.skip_md self }
    {
        self.skip_md = true;
        self
    }

    pub fn emphasis_scope(mut self, scope: EmphasisScope) -> Self
        ensures { result ≡ def.emphasis_scope scope self }
    {
        self.emphasis_scope = self.emphasis_scope.insert(scope);
        self
    }
}

#[derive(Clone, Copy)]
pub enum ListKind {
    Ul,
    Ol(u32),
}

// How many digits n has in decimal.
#[tactic(auto, using(crate::specs::Decimal::length_one, crate::proofs::Digits::length_log))]
pub fn digits(n: u32) -> usize
    ensures { (result ≡ length (decimal n)) × (result ≤ 10) }
{
    match n.checked_ilog10() {
        Some(log) => log as usize + 1,
        None => 1,
    }
}

// A list steps at least as far.
const STEP: usize = 4;

// The dot and the blank behind a number.
const NUMBER_END: usize = 2;

impl ListKind {
    #[tactic(auto, unfolding(crate::specs::Md::Ctx::offset_of))]
    pub fn offset(self) -> usize
        ensures { (result ≡ def.offset_of self) × (result ≤ 12) }
    {
        match self {
            ListKind::Ul => STEP,
            ListKind::Ol(n) => (digits(n) + NUMBER_END).max(STEP),
        }
    }
}

// No list number is larger.
const LARGEST: u32 = 999_999_999;

// The number behind n in a list.
pub fn next_number(n: u32) -> u32
    ensures { result ≡ min (n + 1) MAX_LIST_NUMBER }
{
    n.saturating_add(1).min(LARGEST)
}

#[derive(Clone, Copy)]
pub struct ListContext {
    pub opts: FormatOpts,
    pub kind: ListKind,
    pub list_indent: usize,
}

impl ListContext {
    #[tactic(auto, unfolding(crate::specs::Md::Ctx::list_context))]
    pub fn new(opts: FormatOpts, kind: ListKind) -> Self
        requires { opts.offset + 12 < 2 ^ 64 }
        ensures { result ≡ def.list_context opts kind }
    {
        let mut list_opts = opts.offset(opts.offset + kind.offset());
        // a list written as a node must not make its items write theirs
        list_opts.include_node = false;
        Self {
            opts: list_opts,
            kind,
            list_indent: opts.offset,
        }
    }

    #[tactic(auto, unfolding(crate::specs::Md::Ctx::advance_ol_number, crate::specs::Md::Ctx::advanced))]
    pub fn advance_ol_number(self) -> Self
        requires { self.list_indent + 12 < 2 ^ 64 }
        ensures { result ≡ def.advance_ol_number self }
    {
        match self.kind {
            ListKind::Ul => self,
            ListKind::Ol(n) => {
                let kind = ListKind::Ol(next_number(n));
                ListContext {
                    opts: self.opts.offset(self.list_indent + kind.offset()),
                    kind,
                    ..self
                }
            }
        }
    }
}
