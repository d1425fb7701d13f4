//! The basic laws are sound. A caller learns it from the contracts; the calls do nothing.
#![tactic(auto)]

ghost use Rattle.rw_soundness.specs.Sound.{LawsAreSound, LawsAreSoundBeside, KidsAreReady};

/// Where the law of a step fits a well-formed specification, the obligations are valid, and the kids' programs refine the kids'
/// specifications, the filled skeleton refines the parent: under any table, at any place, with any number of own calls, for any
/// programs of the kids, and whatever modules are opened. `context`: refinement at the states of the contexts, which hold a part for each
/// opened module. `beside`: refinement at the states that fit the scopes and have any given parts; with none, at all that fit the scopes.
pub fn soundness()
    ensures context { LawsAreSound }
    ensures beside { LawsAreSoundBeside }
{}

/// Where the law of a step fits a well-formed specification, the kids' specifications are well-formed where they stand.
pub fn kids()
    ensures { KidsAreReady }
{}
