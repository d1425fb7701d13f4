//! Laws of the definitions. A caller learns them from the contract; the calls do nothing.

ghost use Rattle.rw_subst.specs.Guards.{DefinednessOfTerms, DefinednessOfGuards};
ghost use Rattle.rw_subst.specs.Kinds.{NamesHaveOneKind, NamesOfTermsHaveOneKind};
ghost use Rattle.rw_subst.specs.Laws.{ReplacementKeepsValues, ReplacementKeepsTruth, ReplacementInStates, ReplacementHoldsInStates, InitialChangesAreClosed, CurrentForInitial, OpeningKeepsTruth, OpeningHoldsInStates, ClosingKeepsTruth, ClosingHoldsInStates};

/// What is replaced has the value, and holds or not, as the old one does where each slot has the value of its term.
/// An initial variable changes only where its own slot is named.
pub fn replacement()
    ensures values { ReplacementKeepsValues }
    ensures truth { ReplacementKeepsTruth }
    ensures values_in_states { ReplacementInStates }
    ensures truth_in_states { ReplacementHoldsInStates }
    ensures initial { InitialChangesAreClosed }
    ensures current { CurrentForInitial }
{}

/// In what the rules of sorts allow no name stands both as variable and as constant, as the laws in states ask.
pub fn kinds()
    ensures formulas { NamesHaveOneKind }
    ensures terms { NamesOfTermsHaveOneKind }
{}

/// An opened body holds as the body does where the quantifier's binder has the value of the term.
pub fn opening()
    ensures truth { OpeningKeepsTruth }
    ensures in_states { OpeningHoldsInStates }
{}

/// A closed formula holds as the formula does where the slot has the value of the quantifier's binder.
pub fn closing()
    ensures truth { ClosingKeepsTruth }
    ensures in_states { ClosingHoldsInStates }
{}

/// The formulas of `defined` and `defined_guard` hold exactly where the term and all terms of the guard are defined.
pub fn definedness()
    ensures terms { DefinednessOfTerms }
    ensures guards { DefinednessOfGuards }
{}
