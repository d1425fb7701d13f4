//! Laws of what the steps make. A caller learns them from the contract; the calls do nothing.

ghost use Rattle.rw_loops.specs.Counts.{CountsAreExact};
ghost use Rattle.rw_loops.specs.Sound.{LawsAreSound, LawsAreSoundBeside, KidsAreReady};
ghost use Rattle.rw_loops.specs.Turns.{TurnsWithinVariant, TurnsWithinVariantBeside};

/// Where all obligations are valid and what is put for each kid refines the kid's specification in its context, the filled skeleton
/// refines the parent in its own: for any table, place and number of own calls, any programs, and whatever modules are opened.
/// `context`: at the states of the contexts, which hold a part for each opened module. `beside`: at the states that fit the scopes and have
/// any given parts; with none, at all that fit the scopes.
pub fn soundness()
    ensures context { LawsAreSound }
    ensures beside { LawsAreSoundBeside }
{}

/// Where the law of a step fits a well-formed specification, the kids' specifications are well-formed where they stand.
pub fn kids()
    ensures { KidsAreReady }
{}

/// Take a loop each of whose bodies refines its kid's specification in its context. From a state that fits the loop's context and meets
/// the invariant, no chain has more turns than the larger of 0 and the value of the variant there. `context` and `beside` speak of the
/// states that `soundness` does.
pub fn turns()
    ensures context { TurnsWithinVariant }
    ensures beside { TurnsWithinVariantBeside }
{}

/// Where the law of a step fits, there are as many kids and obligations as `counts` says.
pub fn counting()
    ensures { CountsAreExact }
{}
