// Whether a text that comes in pieces is White_Space.
ghost use Rattle.std.specs.Prelude.{◌≡◌, cond, true};
ghost use Rattle.nodes.specs.Begun.{next_white, white_state, is_nothing};
ghost use Rattle.nodes.specs.declared.white_space.Begun.TheVariants as begun;

use text::white_space::{is_white_space_1, is_white_space_2, is_white_space_3};

// The bytes of a character that is begun, behind White_Space: none, one, two; or bytes that are not White_Space.
#[derive(Clone, Copy)]
pub enum Begun {
    Nothing,
    One(u8),
    Two(u8, u8),
    Other,
}

// One byte more.
#[tactic(auto, using(crate::proofs::Whites::next_other), unfolding(crate::specs::Begun::next_white, crate::specs::Begun::held, crate::specs::Begun::grown))]
fn next_white(state: Begun, c: u8) -> Begun
    ensures { result ≡ next_white state c }
{
    match state {
        Begun::Nothing if is_white_space_1(c) => Begun::Nothing,
        Begun::Nothing => Begun::One(c),
        Begun::One(a) if is_white_space_2(a, c) => Begun::Nothing,
        Begun::One(a) => Begun::Two(a, c),
        Begun::Two(a, b) if is_white_space_3(a, b, c) => Begun::Nothing,
        Begun::Two(_, _) | Begun::Other => Begun::Other,
    }
}

// The state behind s, where it was `from` before it. No byte changes that others are not White_Space.
pub fn white_state(s: &[u8], from: Begun) -> Begun
    ensures { result ≡ white_state from s.now }
{
    let mut state = from;
    for b in s {
        if matches!(state, Begun::Other) {
            break;
        }
        state = next_white(state, *b);
    }
    state
}

// Whether all bytes are White_Space, and none is begun.
#[tactic(auto, unfolding(crate::specs::Begun::is_nothing))]
pub fn has_ended(state: Begun) -> bool
    ensures { result ≡ is_nothing state }
{
    matches!(state, Begun::Nothing)
}
