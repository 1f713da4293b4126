// The element names that the writers know, and their numbers. Node memory holds a name as its number, and the writers compare
// numbers.

ghost use Rattle.std.specs.Prelude.{◌≡◌};
ghost use Rattle.spec.specs.ElementNumbers.{element_number, Numbers};

// The element names that the writers know, by the numbers under which nodes store them; `Other` is every other name.
#[derive(Clone, Copy, PartialEq, Eq, Debug)]
pub enum Name {
    Other = 0,
    Article = 1,
    Section = 2,
    Div = 3,
    P = 4,
    H1 = 5,
    H2 = 6,
    H3 = 7,
    H4 = 8,
    H5 = 9,
    H6 = 10,
    Ul = 11,
    Ol = 12,
    Dl = 13,
    Table = 14,
    Hr = 15,
    Li = 16,
    Tr = 17,
    Th = 18,
    Td = 19,
    Br = 20,
    A = 21,
    Img = 22,
    Pre = 23,
    Code = 24,
    Strong = 25,
    B = 26,
    Em = 27,
    I = 28,
    Thead = 29,
    Tbody = 30,
}

impl From<Name> for usize {
    ghost from_gives = { λ name n. n ≡ element_number name };

    fn from(name: Name) -> usize {
        name as usize
    }
}

// A number that no name has.
#[derive(Clone, Copy, PartialEq, Eq, Debug)]
pub struct UnknownNumber(pub usize);

impl TryFrom<usize> for Name {
    type Error = UnknownNumber;

    ghost try_from_gives = { Numbers };

    fn try_from(number: usize) -> Result<Self, UnknownNumber> {
        match number {
            0 => Ok(Name::Other),
            1 => Ok(Name::Article),
            2 => Ok(Name::Section),
            3 => Ok(Name::Div),
            4 => Ok(Name::P),
            5 => Ok(Name::H1),
            6 => Ok(Name::H2),
            7 => Ok(Name::H3),
            8 => Ok(Name::H4),
            9 => Ok(Name::H5),
            10 => Ok(Name::H6),
            11 => Ok(Name::Ul),
            12 => Ok(Name::Ol),
            13 => Ok(Name::Dl),
            14 => Ok(Name::Table),
            15 => Ok(Name::Hr),
            16 => Ok(Name::Li),
            17 => Ok(Name::Tr),
            18 => Ok(Name::Th),
            19 => Ok(Name::Td),
            20 => Ok(Name::Br),
            21 => Ok(Name::A),
            22 => Ok(Name::Img),
            23 => Ok(Name::Pre),
            24 => Ok(Name::Code),
            25 => Ok(Name::Strong),
            26 => Ok(Name::B),
            27 => Ok(Name::Em),
            28 => Ok(Name::I),
            29 => Ok(Name::Thead),
            30 => Ok(Name::Tbody),
            _ => Err(UnknownNumber(number)),
        }
    }
}

pub const OTHER: usize = Name::Other as usize;

pub const ARTICLE: usize = Name::Article as usize;

pub const SECTION: usize = Name::Section as usize;

pub const DIV: usize = Name::Div as usize;

pub const P: usize = Name::P as usize;

pub const H1: usize = Name::H1 as usize;

pub const H2: usize = Name::H2 as usize;

pub const H3: usize = Name::H3 as usize;

pub const H4: usize = Name::H4 as usize;

pub const H5: usize = Name::H5 as usize;

pub const H6: usize = Name::H6 as usize;

pub const UL: usize = Name::Ul as usize;

pub const OL: usize = Name::Ol as usize;

pub const DL: usize = Name::Dl as usize;

pub const TABLE: usize = Name::Table as usize;

pub const HR: usize = Name::Hr as usize;

pub const LI: usize = Name::Li as usize;

pub const TR: usize = Name::Tr as usize;

pub const TH: usize = Name::Th as usize;

pub const TD: usize = Name::Td as usize;

pub const BR: usize = Name::Br as usize;

pub const A: usize = Name::A as usize;

pub const IMG: usize = Name::Img as usize;

pub const PRE: usize = Name::Pre as usize;

pub const CODE: usize = Name::Code as usize;

pub const STRONG: usize = Name::Strong as usize;

pub const B: usize = Name::B as usize;

pub const EM: usize = Name::Em as usize;

pub const I: usize = Name::I as usize;

pub const THEAD: usize = Name::Thead as usize;

pub const TBODY: usize = Name::Tbody as usize;
