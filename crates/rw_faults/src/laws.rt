//! Laws of the definitions. A caller learns them from the contract; the calls do nothing.

ghost use Rattle.rw_faults.specs.Faults.{FaultsApart};
ghost use Rattle.rw_faults.specs.Preorder.{FirstInPreorder, FirstInFormula};

/// What is refused for its sorts is refused for the first of its parts in preorder that breaks its own rule.
pub fn faults_in_preorder()
    ensures terms { FirstInPreorder }
    ensures formulas { FirstInFormula }
{}

/// A formula keeps the rules exactly where it has no unknown name and is not ill-sorted.
pub fn faults_apart()
    ensures { FaultsApart }
{}
