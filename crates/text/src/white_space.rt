// White_Space of Unicode, by the bytes of its characters.
ghost use Rattle.std.specs.Prelude.{◌≡◌, [], ◌∷◌, MatchOption};
ghost use Rattle.spec.specs.Bytes.{is_white_space, trim_end};
ghost use Rattle.text.specs.Trimmed.{Trimmed, WithoutEnd};

// A White_Space character of one byte, of two, of three.
#[tactic(auto, unfolding(spec::specs::Bytes::is_white_space, spec::specs::Bytes::among, spec::specs::Bytes::white_space_of, spec::specs::Bytes::same))]
pub fn is_white_space_1(a: u8) -> bool
    ensures { result ≡ is_white_space (a ∷ []) }
{
    matches!(a, 9..=13 | b' ')
}

#[tactic(auto, unfolding(spec::specs::Bytes::is_white_space, spec::specs::Bytes::among, spec::specs::Bytes::white_space_of, spec::specs::Bytes::same))]
pub fn is_white_space_2(a: u8, b: u8) -> bool
    ensures { result ≡ is_white_space (a ∷ b ∷ []) }
{
    matches!((a, b), (194, 133 | 160))
}

#[tactic(auto, unfolding(spec::specs::Bytes::is_white_space, spec::specs::Bytes::among, spec::specs::Bytes::white_space_of, spec::specs::Bytes::same))]
pub fn is_white_space_3(a: u8, b: u8, c: u8) -> bool
    ensures { result ≡ is_white_space (a ∷ b ∷ c ∷ []) }
{
    matches!(
        (a, b, c),
        (225, 154, 128)
            | (226, 128, 128..=138 | 168 | 169 | 175)
            | (226, 129, 159)
            | (227, 128, 128)
    )
}

// s without the White_Space character at its end, if it ends with one.
fn without_white_end(s: &[u8]) -> Option<&[u8]>
    ensures { MatchOption result (trim_end s.now ≡ s.now) (λ front. WithoutEnd s.now front.now) }
{
    match s {
        [front @ .., c] if is_white_space_1(*c) => Some(front),
        [front @ .., b, c] if is_white_space_2(*b, *c) => Some(front),
        [front @ .., a, b, c] if is_white_space_3(*a, *b, *c) => Some(front),
        _ => None,
    }
}

// How long s is without the White_Space at its end.
pub fn trim_end(s: &[u8]) -> usize
    ensures { Trimmed s.now result (trim_end s.now) }
{
    let mut rest = s;
    while let Some(front) = without_white_end(rest) {
        rest = front;
    }
    rest.len()
}
