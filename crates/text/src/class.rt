// Sets of bytes, for the functions that trim, skip and test by one.

#![tactic(auto, unfolding(spec::specs::Bytes::blank, spec::specs::Bytes::white, spec::specs::Bytes::isin, spec::specs::Bytes::digit, spec::specs::Md::Elements::Code::is_tab_or_blank, crate::specs::Class::ordinary))]

ghost use Rattle.std.specs.Prelude.{◌≡◌, ℕ, Bool, not, eqb};
ghost use Rattle.spec.specs.Bytes.{ascii, isin, white, digit, blank};
ghost use Rattle.spec.specs.Md.Elements.Code.{is_tab_or_blank};
ghost use Rattle.text.specs.Class.{ordinary};

pub trait ByteClass {
    // The bytes of the class.
    ghost holds: { ℕ → Bool };

    fn has(b: u8) -> bool
        ensures { result ≡ holds b };
}

#[derive(Clone, Copy)]
pub struct Blank;

impl ByteClass for Blank {
    ghost holds = { blank };

    fn has(b: u8) -> bool {
        b == b' '
    }
}

#[derive(Clone, Copy)]
pub struct White;

impl ByteClass for White {
    ghost holds = { white };

    fn has(b: u8) -> bool {
        b.is_ascii_whitespace()
    }
}

// Not white.
#[derive(Clone, Copy)]
pub struct Black;

impl ByteClass for Black {
    ghost holds = { λ b. not (white b) };

    fn has(b: u8) -> bool {
        !b.is_ascii_whitespace()
    }
}

#[derive(Clone, Copy)]
pub struct Digit;

impl ByteClass for Digit {
    ghost holds = { digit };

    fn has(b: u8) -> bool {
        b.is_ascii_digit()
    }
}

// One byte.
#[derive(Clone, Copy)]
pub struct Only<const B: u8>;

impl<const B: u8> ByteClass for Only<B> {
    ghost holds = { λ b. eqb b B };

    fn has(b: u8) -> bool {
        b == B
    }
}

#[derive(Clone, Copy)]
pub struct TabOrBlank;

impl ByteClass for TabOrBlank {
    ghost holds = { is_tab_or_blank };

    fn has(b: u8) -> bool {
        matches!(b, b'\t' | b' ')
    }
}

// Anything but a blank and a line end.
#[derive(Clone, Copy)]
pub struct InWord;

impl ByteClass for InWord {
    ghost holds = { λ b. not (isin b (ascii " \n")) };

    fn has(b: u8) -> bool {
        !matches!(b, b' ' | b'\n')
    }
}

// Neither white nor ever escaped behind the beginning of a line.
#[derive(Clone, Copy)]
pub struct Ordinary;

impl ByteClass for Ordinary {
    ghost holds = { ordinary };

    // The letters come first: they are most of a text. With a `match` on ranges escaped text takes a tenth more instructions.
    fn has(b: u8) -> bool {
        if b'a' <= b {
            return (b != b'|') & (b != b'~');
        }
        if b'=' <= b {
            return (b <= b'Z') | (b == b'^');
        }
        if b'"' <= b {
            return (b != b'*') & (b != b'<');
        }
        if 14 <= b {
            return b < b' ';
        }
        (b < 9) | (b == 11)
    }
}
