//! What evaluation is to the values of terms and the truth of guards. A caller learns the law from the contract; the call does nothing.

ghost use Rattle.rw_evaluation.specs.Laws.{TermsHaveTheirValues, GuardsAreTested};

/// What comes of a term is its value, and what comes of a guard is whether it holds; where all parts are defined, only a number that is
/// too wide stops the evaluation.
pub fn evaluation()
    ensures terms { TermsHaveTheirValues }
    ensures guards { GuardsAreTested }
{}
