//! Laws of the definitions. A caller learns them from the contract; the calls do nothing.

ghost use Rattle.rw_terms.specs.Agreement.{ValuesAgree, TruthAgrees, TruthIgnores};
ghost use Rattle.rw_terms.specs.InScope.{NamesAreExact, ValidFollows};
ghost use Rattle.rw_terms.specs.Typed.{SortLaw};
ghost use Rattle.rw_terms.specs.Rounding.{QuotientLaw, RestOfPositive, RestOfNegative, ByZero};

/// Values and truth depend on the names that a term or a formula mentions, and on no other.
pub fn agreement()
    ensures values { ValuesAgree }
    ensures truth { TruthAgrees }
    ensures ignores { TruthIgnores }
{}

/// The names of formulas in a scope, and what validity over these names says of the states of the scope.
pub fn names_in_scope()
    ensures exact { NamesAreExact }
    ensures valid { ValidFollows }
{}

/// In every state that fits the scope, the value of a term that keeps the rules has the sort that they give it.
pub fn values_have_sorts()
    ensures { SortLaw }
{}

/// The quotient rounds to minus infinity, the rest has the sign of the divisor, and by 0 both are 0.
pub fn division()
    ensures quotient { QuotientLaw }
    ensures positive { RestOfPositive }
    ensures negative { RestOfNegative }
    ensures zero { ByZero }
{}
