// Element names: the number by which the writers know one, and the skip list.
ghost use Rattle.std.specs.Prelude.{◌≡◌};
ghost use Rattle.spec.specs.Fields.{fields};
ghost use Rattle.spec.specs.Bytes.{among};
ghost use Rattle.spec.specs.Names.{tag_of};
ghost use Rattle.spec.specs.Call.{bodies, tags_to_skip};
ghost use Rattle.spec.specs.Md.Constants.{DEFAULT_SKIP_TAGS};
ghost use Rattle.input.specs.Scans.{skip_of};
ghost use Rattle.tree.specs.Nodes.{name_at, skipped_at};
ghost use Rattle.spec.specs.ElementNumbers.{element_number};

use crate::field::NodeField;
use input::fields::Fields;
use input::tag::OPEN;
use spec::element::Name;

// Whether a name is one of the bytes of a run's fields.
fn has_name(run: &[u8], name: &[u8]) -> bool
    ensures { result ≡ among name.now (bodies (fields run.now)) }
{
    Fields::new(run).any(|f| name == f.body)
}

// The element that a name means.
#[tactic(auto, using(crate::proofs::Naming::by_bytes), unfolding(crate::proofs::Naming::place_of, spec::specs::Names::names))]
fn name_of(name: &[u8]) -> Name
    ensures { element_number result ≡ tag_of name.now }
{
    match name {
        b"article" => Name::Article,
        b"section" => Name::Section,
        b"div" => Name::Div,
        b"p" => Name::P,
        b"h1" => Name::H1,
        b"h2" => Name::H2,
        b"h3" => Name::H3,
        b"h4" => Name::H4,
        b"h5" => Name::H5,
        b"h6" => Name::H6,
        b"ul" => Name::Ul,
        b"ol" => Name::Ol,
        b"dl" => Name::Dl,
        b"table" => Name::Table,
        b"hr" => Name::Hr,
        b"li" => Name::Li,
        b"tr" => Name::Tr,
        b"th" => Name::Th,
        b"td" => Name::Td,
        b"br" => Name::Br,
        b"a" => Name::A,
        b"img" => Name::Img,
        b"pre" => Name::Pre,
        b"code" => Name::Code,
        b"strong" => Name::Strong,
        b"b" => Name::B,
        b"em" => Name::Em,
        b"i" => Name::I,
        b"thead" => Name::Thead,
        b"tbody" => Name::Tbody,
        _ => Name::Other,
    }
}

// Whether a name is one of the default skip list.
#[tactic(auto, using(crate::proofs::Naming::skips_by_bytes), unfolding(crate::proofs::Naming::among_of))]
fn is_default_skip_tag(name: &[u8]) -> bool
    ensures { result ≡ among name.now DEFAULT_SKIP_TAGS }
{
    matches!(name, b"script" | b"style" | b"meta" | b"head")
}

// Whether a name is one of the skip list.
#[tactic(auto, unfolding(spec::specs::Call::tags_to_skip))]
fn is_skip_tag(skip: Option<&[u8]>, name: &[u8]) -> bool
    ensures { result ≡ among name.now (tags_to_skip (skip_of skip.entry)) }
{
    match skip {
        Some(run) => has_name(run, name),
        None => is_default_skip_tag(name),
    }
}

impl NodeField<'_> {
    // The number of the name of the node; 0 where it is no element.
    #[tactic(auto, using(crate::proofs::Access::no_name, crate::proofs::Access::its_name))]
    pub fn name(self) -> usize
        ensures { result ≡ name_at self.entry.sheet.now self.entry.place }
    {
        let f = self.span();
        if f.tag != OPEN {
            return 0;
        }
        usize::from(name_of(&self.sheet[f.start..f.end]))
    }

    // Whether the node is an element that the skip list leaves out.
    #[tactic(auto, using(crate::proofs::Access::no_element, crate::proofs::Access::its_skip))]
    pub fn is_skipped(self, skip: Option<&[u8]>) -> bool
        ensures { result ≡ skipped_at (tags_to_skip (skip_of skip.entry)) self.entry.sheet.now self.entry.place }
    {
        let f = self.span();
        f.tag == OPEN && is_skip_tag(skip, &self.sheet[f.start..f.end])
    }
}
