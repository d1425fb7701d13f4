//! What holds of what is found.

ghost use Rattle.std.specs.Prelude.{◌≡◌, List, None};
ghost use Rattle.rw_terms.specs.declared.sequent.Sequent.{Sequent};
ghost use Rattle.rw_arith.specs.declared.line.LinLine.{LinLine};
ghost use Rattle.rw_arith.specs.Lines.{lines_fault};
ghost use Rattle.rw_finder.specs.declared.find.Found.TheVariants.{Lines};
ghost use Rattle.rw_finder.specs.Finding.{found_of};

/// The checker accepts the lines that `find` gives, so they refute the goal.
pub fn lines_are_accepted()
    ensures { (goal : Sequent) (lines : List LinLine) → found_of goal ≡ Lines lines → lines_fault goal.left goal.right lines ≡ None }
{}
