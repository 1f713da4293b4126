// The fields of a sheet or of a skip list, one after the other.
ghost use Rattle.std.specs.Prelude.{◌≡◌, ◌+◌, ◌*◌, ◌≤◌, ◌<◌, length};
ghost use Rattle.spec.specs.Fields.{fields, whole};
ghost use Rattle.std.specs.Iterator.{YieldsFirstBy, item_count};
ghost use Rattle.input.specs.Fields.{field, fields_left};
ghost use Rattle.input.specs.Spans.{length_at, Spanned};

// A field: its tag, and where its bytes start and end.
#[derive(Clone, Copy)]
pub struct Span {
    pub tag: u8,
    pub start: usize,
    pub end: usize,
}

// The length that the head of the field at p says.
#[tactic(auto, unfolding(spec::specs::Fields::word))]
pub fn length_at(s: &[u8], p: usize) -> usize
    requires { p + 3 ≤ length s.now }
    ensures { (result ≡ length_at s.now p) × (result < 65536) }
{
    u16::from_be_bytes([s[p + 1], s[p + 2]]) as usize
}

// The field at p. It ends where the slice ends at the latest.
pub fn span_at(s: &[u8], p: usize) -> Span
    requires { p + 3 ≤ length s.now }
    ensures { Spanned s.now p result }
{
    let n = length_at(s, p);
    let tag = s[p];
    let start = p + 3;
    let left = s.len() - start;
    if left < n {
        return Span {
            tag,
            start,
            end: s.len(),
        };
    }
    Span {
        tag,
        start,
        end: start + n,
    }
}

// A field: its tag and its bytes.
#[derive(Clone, Copy)]
pub struct Field<'a> {
    pub tag: u8,
    pub body: &'a [u8],
}

// The fields of a run of bytes, in their order. The last ends where the run ends at the latest.
#[derive(Clone, Drop)]
pub struct Fields<'a> {
    rest: &'a [u8],
}

impl<'a> Fields<'a> {
    pub fn new(run: &'a [u8]) -> Fields<'a>
        ensures { fields_left result ≡ fields run.now }
    {
        Fields { rest: run }
    }
}

impl<'a> Iterator for Fields<'a> {
    type Item = Field<'a>;

    ghost next_gives = { YieldsFirstBy field fields_left };

    ghost remaining = { item_count fields_left };

    fn next(&mut self) -> Option<Field<'a>> {
        let [tag, high, low, rest @ ..] = self.rest else {
            return None;
        };
        let len = u16::from_be_bytes([*high, *low]) as usize;
        let (body, rest) = rest.split_at(len.min(rest.len()));
        self.rest = rest;
        Some(Field { tag: *tag, body })
    }
}

// Whether every field of s ends inside s and has a tag from low to high.
pub fn is_whole(s: &[u8], low: u8, high: u8) -> bool
    ensures { result ≡ whole low high s.now }
{
    let mut rest = s;
    while let [tag, high_byte, low_byte, behind @ ..] = rest {
        let len = u16::from_be_bytes([*high_byte, *low_byte]) as usize;
        if *tag < low || high < *tag || behind.len() < len {
            return false;
        }
        rest = &behind[len..];
    }
    rest.is_empty()
}
