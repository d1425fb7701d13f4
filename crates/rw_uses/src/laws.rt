//! Laws of what is used.

ghost use Rattle.std.specs.Prelude.{◌≡◌, ℕ, Bool, true, filter, List};
ghost use Rattle.rw_terms.specs.Validity.{Each};
ghost use Rattle.rw_trees.specs.declared.parts.Parts.{Parts};
ghost use Rattle.rw_uses.specs.Rounds.{is_reached, IsHandedOn};
ghost use Rattle.rw_uses.specs.Uses.{main_uses, entry_uses, used};

/// An entry is used exactly where the project's own tree, or an entry that is used, uses it; and no fewer entries are such.
pub fn used_is_least()
    ensures closed { (parts : Parts) → filter (is_reached (main_uses parts) (entry_uses parts) (used parts)) parts.order ≡ used parts }
    ensures least { (parts : Parts) (p : List ℕ → Bool) → IsHandedOn (main_uses parts) (entry_uses parts) p → Each (λ x. p x ≡ true) (used parts) }
{}
