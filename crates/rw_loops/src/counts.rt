//! How many kids and obligations a step has. It is told by the step alone, and takes no memory.

ghost use Rattle.std.specs.Prelude.{◌≡◌, ◌≤◌, length};
ghost use Rattle.rw_loops.specs.Counts.{guards_of, kids_of, obligations_of, counts};

use crate::step::LoopStep;
use rw_laws::counts::StepCounts;
use rw_terms::term::Formula;

/// How many kids and obligations the step has, whose guards are to be fewer than there are numbers for kids.
pub fn counts(step: &LoopStep) -> StepCounts
    requires { length (guards_of step.now) ≤ u32.MAX }
    ensures { result ≡ counts step.now }
{
    match step {
        LoopStep::If(guards) => counted(guards.len() as u32, 2),
        LoopStep::Do(_, guards) => counted(guards.len() as u32, 1),
        LoopStep::Block(_, _) => counted(1, 0),
    }
}

fn counted(kids: u32, obligations: u32) -> StepCounts
    ensures kids { result.kids ≡ kids }
    ensures obligations { result.obligations ≡ obligations }
{
    StepCounts { kids, obligations }
}

/// A kid for each guard, and one in a block.
pub fn kids_of(step: &LoopStep) -> usize
    ensures { result ≡ kids_of step.now }
{
    match step {
        LoopStep::If(guards) | LoopStep::Do(_, guards) => guards.len(),
        LoopStep::Block(_, _) => 1,
    }
}

/// An alternation owes that its guards are defined and that one of them holds, a loop that they are defined.
pub fn obligations_of(step: &LoopStep) -> u32
    ensures { result ≡ obligations_of step.now }
{
    match step {
        LoopStep::If(_) => 2,
        LoopStep::Do(_, _) => 1,
        LoopStep::Block(_, _) => 0,
    }
}

/// The guards of the step; a block has none.
pub fn guards_of(step: &LoopStep) -> &[Formula]
    ensures { result.now ≡ guards_of step.now }
{
    match step {
        LoopStep::If(guards) | LoopStep::Do(_, guards) => guards.as_slice(),
        LoopStep::Block(_, _) => &[],
    }
}
