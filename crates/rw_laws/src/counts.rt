//! How many kids and obligations a step has.

ghost use Rattle.std.specs.Prelude.{◌≡◌};
ghost use Rattle.rw_laws.specs.Counts.{counts, CountsAreExact};

use crate::step::BasicStep;

/// How many kids and obligations a step has where its law fits.
#[derive(Clone, Copy, Debug, PartialEq, Eq)]
pub struct StepCounts {
    pub kids: u32,
    pub obligations: u32,
}

/// The counts depend on the step alone. It takes no memory.
pub fn counts(step: &BasicStep) -> StepCounts
    ensures { result ≡ counts step.now }
{
    match step {
        BasicStep::Skip => counted(0, 1),
        BasicStep::Weaken(_) | BasicStep::Strengthen(_) => counted(1, 1),
        BasicStep::Assign(_, _) => counted(0, 2),
        BasicStep::Seq(_) | BasicStep::SeqCon(_, _) => counted(2, 0),
        BasicStep::Follow(_, _)
        | BasicStep::Con(_, _)
        | BasicStep::Contract(_)
        | BasicStep::Expand(_) => counted(1, 0),
    }
}

fn counted(kids: u32, obligations: u32) -> StepCounts
    ensures kids { result.kids ≡ kids }
    ensures obligations { result.obligations ≡ obligations }
{
    StepCounts { kids, obligations }
}

/// Where the law of a step fits, it makes so many kids and obligations. A caller learns it from the contract; the call does nothing.
pub fn counts_are_exact()
    ensures { CountsAreExact }
{}
