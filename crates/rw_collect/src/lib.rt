//! The program that a closed derivation ends in refines its root. A caller learns it from the contract; the call does nothing.
#![tactic(auto)]

ghost use Rattle.std.specs.Prelude.{ℕ, List};
ghost use Rattle.rw_citations.specs.WellMade.{WellMade};
ghost use Rattle.rw_nodes.specs.declared.edit.Edit.{Edit};
ghost use Rattle.rw_tree.specs.Accepting.{IsGood};
ghost use Rattle.rw_anew.specs.Anew.{library_of};
ghost use Rattle.rw_collect.specs.Closed.{ClosedRefines};

/// Where accepted edits make a closed derivation, each node has a program, and that of the root refines the root specification.
pub fn closed_refines()
    ensures { ClosedRefines }
{}

/// The library of accepted edits is well made: each definition uses those before it alone, so that none can reach itself, and each
/// lemma speaks of its parameters and of predicates that are defined.
pub fn library_is_well_made()
    ensures { (most : ℕ) (l : List Edit) → IsGood most l → WellMade (library_of l) }
{}
