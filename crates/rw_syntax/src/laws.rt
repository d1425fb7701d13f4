//! What holds of the grammar.

ghost use Rattle.std.specs.Prelude.{◌≡◌, ℕ, ◌≤◌, List};
ghost use Rattle.rw_syntax.specs.declared.token.Token.{Token};
ghost use Rattle.rw_syntax.specs.declared.frame.Part.{Part};
ghost use Rattle.rw_syntax.specs.Spelling.{Spells};

/// No tokens spell two values.
pub fn one_value()
    ensures { (most goal : ℕ) (ts : List Token) (v w : Part) → goal ≤ 9 → Spells most goal ts v → Spells most goal ts w → v ≡ w }
{}
