//! Laws of the definitions. A caller learns them from the contract; the calls do nothing.

ghost use Rattle.rw_arith.specs.Laws.{OneProductLaw, ExpansionLaw, LeftLaw, RightLaw, RefutationLaw};

/// Products of the same atoms, each as often, have one value.
pub fn products()
    ensures { OneProductLaw }
{}

/// The value of a term's polynomial is the term's value, in every two states and over unbounded integers.
pub fn expansion()
    ensures { ExpansionLaw }
{}

/// What a left formula gives holds where the formula is true, and what a right one gives where it is false.
pub fn given()
    ensures left { LeftLaw }
    ensures right { RightLaw }
{}

/// Lines without a fault refute: no two states make all left formulas true and all right ones false.
pub fn refutation()
    ensures { RefutationLaw }
{}
