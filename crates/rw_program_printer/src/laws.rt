//! What holds of what is printed.

ghost use Rattle.std.specs.Prelude.{List, IsTrue};
ghost use Rattle.rw_programs.specs.declared.prog.Prog.{Prog};
ghost use Rattle.rw_tokens.specs.Tokens.{Token};
ghost use Rattle.rw_program_reader.specs.Reading.{Spells};
ghost use Rattle.rw_program_printer.specs.Readable.{readable_prog};

/// Each program that some tokens spell is one whose text reads back.
pub fn spelled_program_is_readable()
    ensures { (ts : List Token) (p : Prog) → Spells ts p → IsTrue (readable_prog p) }
{}
