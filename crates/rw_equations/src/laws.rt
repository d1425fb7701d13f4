//! Laws of the definitions. A caller learns them from the contract; the calls do nothing.

ghost use Rattle.rw_equations.specs.Laws.{EquationsHaveSides};

/// An equation that keeps the rules of sorts over the names may rewrite: nothing but its form is asked.
pub fn equations()
    ensures { EquationsHaveSides }
{}
