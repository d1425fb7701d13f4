//! What holds of the grammar of programs.

ghost use Rattle.std.specs.Prelude.{◌≡◌, ℕ, List};
ghost use Rattle.rw_programs.specs.declared.prog.Prog.{Prog};
ghost use Rattle.rw_tokens.specs.Tokens.{Token};
ghost use Rattle.rw_program_reader.specs.Reading.{Spells, ProgramSpells, IsProgramFault};

/// No tokens and no text spell two programs. A text that spells one has no fault, and each other text at most one.
pub fn one_program()
    ensures tokens { (ts : List Token) (p q : Prog) → Spells ts p → Spells ts q → p ≡ q }
    ensures texts { (text : List ℕ) (p q : Prog) → ProgramSpells text p → ProgramSpells text q → p ≡ q }
    ensures apart { (text : List ℕ) (p : Prog) (o : ℕ) → ProgramSpells text p → ¬ (IsProgramFault text o) }
    ensures one { (text : List ℕ) (o q : ℕ) → IsProgramFault text o → IsProgramFault text q → o ≡ q }
{}
