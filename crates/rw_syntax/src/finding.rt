//! Finds the binder that a name means.

ghost use Rattle.std.specs.Prelude.{◌≡◌, ◌≤◌, Some, None, MatchOption};
ghost use Rattle.rw_syntax.specs.Grammar.{find, same_binder};
ghost use Rattle.rw_syntax.specs.Found.{prefix_binder, frame_binder};
ghost use Rattle.rw_syntax.specs.Machine.{scope, stack_nest};

use crate::frame::{Binder, Frame, Prefix};
use crate::frames::Frames;

fn same(one: &Binder, other: &Binder) -> bool
    ensures { result ≡ same_binder one.now other.now }
{
    match (one, other) {
        (Binder::Named(a), Binder::Named(b)) => a.is(b),
        (Binder::Numbered(a), Binder::Numbered(b)) => *a == *b,
        (Binder::Named(_), Binder::Numbered(_)) | (Binder::Numbered(_), Binder::Named(_)) => false,
    }
}

fn prefix_binder(prefix: &Prefix) -> Option<&Binder>
    ensures { MatchOption result (prefix_binder prefix.now ≡ None) (λ b. prefix_binder prefix.now ≡ Some b.now) }
{
    match prefix {
        Prefix::Bind(_, binder, _) => Some(binder),
        Prefix::Minus | Prefix::Not => None,
    }
}

fn frame_binder(frame: &Frame) -> Option<&Binder>
    ensures { MatchOption result (frame_binder frame.now ≡ None) (λ b. frame_binder frame.now ≡ Some b.now) }
{
    match frame {
        Frame::Prefix(prefix) => prefix_binder(prefix),
        Frame::Infix(_, _, _) | Frame::Group(_) | Frame::Index(_, _) | Frame::Call(_, _) => None,
    }
}

/// How many binders stand between, where the name is bound behind the frames. The innermost binder is meant.
#[tactic(auto, using(crate::proofs::Binders::found_here, crate::proofs::Binders::found_deeper, crate::proofs::Binders::passed, crate::proofs::Binders::scope_room))]
pub fn find(binder: &Binder, stack: &Frames) -> Option<u32>
    requires { stack_nest stack.now ≤ 512 }
    ensures { result ≡ find binder.now (scope stack.now) }
{
    let mut count = 0;
    let mut depth = 0;
    'frames: while let Some(frame) = stack.get(depth) {
        if let Some(name) = frame_binder(frame) {
            if same(binder, name) {
                return Some(count);
            }
            count += 1;
        }
        depth += 1;
    }
    None
}
