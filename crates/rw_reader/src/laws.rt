//! What holds of the grammar and of reading.

ghost use Rattle.std.specs.Prelude.{◌≡◌, ℕ, ◌≤◌, List, ◌↔◌};
ghost use Rattle.rw_syntax.specs.declared.frame.Part.{Part};
ghost use Rattle.rw_forms.specs.declared.request.Request.{Request};
ghost use Rattle.rw_sequents.specs.declared.line.Cert.{Cert};
ghost use Rattle.rw_forms.specs.Forms.{a_cert};
ghost use Rattle.rw_forms.specs.Certificates.{cert_form};
ghost use Rattle.rw_tokens.specs.Tokens.{Token};
ghost use Rattle.rw_tokens.specs.Expressions.{TokensSpell, TextSpells, IsFaultOf};
ghost use Rattle.rw_forms.specs.Reading.{SpellsAs};
ghost use Rattle.rw_reader.specs.Reading.{Spells, LineSpells, IsFault, reading, reads, fault};
ghost use Rattle.rw_forms.specs.Certificates.{CertSpells, IsCertFault};

/// A line is read as a request exactly where its tokens spell it, and else has its one fault.
pub fn reading_is_the_grammar()
    ensures spelled { (line : List ℕ) (r : Request) → (reading line ≡ reads r) ↔ LineSpells line r }
    ensures faulty { (line : List ℕ) (o : ℕ) → (reading line ≡ fault o) ↔ IsFault line o }
{}

/// No tokens spell two requests.
pub fn one_request()
    ensures { (ts : List Token) (r q : Request) → Spells ts r → Spells ts q → r ≡ q }
{}

/// No tokens and no text spell two terms or two formulas: `goal` is 6 for terms and 1 for formulas.
pub fn one_value()
    ensures tokens { (goal : ℕ) (ts : List Token) (v w : Part) → goal ≤ 9 → TokensSpell goal ts v → TokensSpell goal ts w → v ≡ w }
    ensures texts { (goal : ℕ) (text : List ℕ) (v w : Part) → goal ≤ 9 → TextSpells goal text v → TextSpells goal text w → v ≡ w }
{}

/// A text that spells a term or a formula has no fault, and each other text at most one.
pub fn one_fault()
    ensures apart { (goal : ℕ) (text : List ℕ) (v : Part) (o : ℕ) → TextSpells goal text v → ¬ (IsFaultOf goal text o) }
    ensures one { (goal : ℕ) (text : List ℕ) (o p : ℕ) → IsFaultOf goal text o → IsFaultOf goal text p → o ≡ p }
{}

/// No tokens and no text spell two certificates. A text that spells one has no fault, and each other text at most one.
pub fn one_cert()
    ensures tokens { (ts : List Token) (c d : Cert) → SpellsAs cert_form ts (a_cert c) → SpellsAs cert_form ts (a_cert d) → c ≡ d }
    ensures texts { (text : List ℕ) (c d : Cert) → CertSpells text c → CertSpells text d → c ≡ d }
    ensures apart { (text : List ℕ) (c : Cert) (o : ℕ) → CertSpells text c → ¬ (IsCertFault text o) }
    ensures one { (text : List ℕ) (o p : ℕ) → IsCertFault text o → IsCertFault text p → o ≡ p }
{}
