//! What holds of the texts of what is found.

ghost use Rattle.std.specs.Prelude.{◌≡◌, ◌∷◌, [], List};
ghost use Rattle.rw_terms.specs.declared.sequent.Sequent.{Sequent};
ghost use Rattle.rw_arith.specs.declared.line.LinLine.{LinLine};
ghost use Rattle.rw_forms.specs.Certificates.{CertSpells};
ghost use Rattle.rw_printer.specs.Lines.{cert_text};
ghost use Rattle.rw_finder.specs.declared.find.Found.TheVariants.{Lines};
ghost use Rattle.rw_finder.specs.Finding.{found_of};
ghost use Rattle.rw_found_texts.specs.Texts.{found_lines, lin_cert};

/// What is told of lines that are found is the text of one certificate, and reads back as it.
pub fn found_lines_read_back()
    ensures text { (lines : List LinLine) → found_lines (Lines lines) ≡ cert_text (lin_cert lines) ∷ [] }
    ensures reads_back { (goal : Sequent) (lines : List LinLine) → found_of goal ≡ Lines lines → CertSpells (cert_text (lin_cert lines)) (lin_cert lines) }
{}
