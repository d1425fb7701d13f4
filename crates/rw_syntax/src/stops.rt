//! Where a value may end.

ghost use Rattle.std.specs.Prelude.{◌≡◌, ◌≤◌};
ghost use Rattle.rw_syntax.specs.Machine.{stack_nest, nest};
ghost use Rattle.rw_syntax.specs.Stops.{stops_at, is_bracketed, is_inside};

use crate::frames::Frames;
use crate::state::State;
use crate::table::frame_level;
use crate::token::Token;

/// Whether a whole value does not go on with a token.
pub fn stops_at(token: &Token) -> bool
    ensures { result ≡ stops_at token.now }
{
    match token {
        Token::Infix(_) => false,
        Token::Open => false,
        Token::OpenSquare => false,
        _ => true,
    }
}

#[tactic(auto, using(crate::proofs::Looking::found_here, crate::proofs::Looking::passed, crate::proofs::Looking::none_left))]
fn is_bracketed(stack: &Frames) -> bool
    ensures { result ≡ is_bracketed stack.now }
{
    let mut depth = 0;
    'frames: while let Some(frame) = stack.get(depth) {
        if frame_level(frame) == 0 {
            return true;
        }
        depth += 1;
    }
    false
}

/// Whether more must follow before a value can end.
pub fn is_inside(state: &State) -> bool
    ensures { result ≡ is_inside state.now }
{
    match state {
        State::Wants(_) => true,
        State::Partial(_, _) => true,
        State::Worded(_, stack) => is_bracketed(stack),
        State::Has(_, _, _, stack) => is_bracketed(stack),
    }
}
