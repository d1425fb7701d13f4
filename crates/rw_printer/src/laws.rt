//! What holds of what is printed.

ghost use Rattle.std.specs.Prelude.{List, IsTrue};
ghost use Rattle.rw_terms.specs.declared.term.Term.{Term};
ghost use Rattle.rw_terms.specs.declared.term.Formula.{Formula};
ghost use Rattle.rw_syntax.specs.declared.token.Token.{Token};
ghost use Rattle.rw_syntax.specs.declared.frame.Part.TheVariants as parts;
ghost use Rattle.rw_syntax.specs.Grammar.{Reads};
ghost use Rattle.rw_sequents.specs.declared.line.Cert.{Cert};
ghost use Rattle.rw_tokens.specs.Tokens.{Token as LineToken};
ghost use Rattle.rw_forms.specs.Forms.{a_cert};
ghost use Rattle.rw_forms.specs.Certificates.{cert_form};
ghost use Rattle.rw_forms.specs.Reading.{SpellsAs};
ghost use Rattle.rw_printer.specs.Readable.{readable_term, readable_formula, readable_cert};

/// Each term and each formula that some tokens spell, whatever their nest, is one whose text reads back.
pub fn spelled_is_readable()
    ensures terms { (ts : List Token) (t : Term) → Reads 6 ts (parts.Term t) → IsTrue (readable_term t 0) }
    ensures formulas { (ts : List Token) (f : Formula) → Reads 1 ts (parts.Formula f) → IsTrue (readable_formula f 0) }
{}

/// Each certificate that some tokens spell is one whose text reads back.
pub fn spelled_certificate_is_readable()
    ensures { (ts : List LineToken) (c : Cert) → SpellsAs cert_form ts (a_cert c) → IsTrue (readable_cert c) }
{}
