//! Prints values as texts.

ghost use Rattle.std.specs.Prelude.{◌≡◌, ◌++◌, [], map, IfOk, OnOk, codes};
ghost use Rattle.rw_printer.specs.Layout.{printed_term, printed_formula, names_text, formulas_text, left_text, right_text, spec_text, sequent_text};
ghost use Rattle.rw_printer.specs.Lines.{cert_text};
ghost use Rattle.rw_printer.specs.ReadsBack.{TermReadsBack, FormulaReadsBack, CertReadsBack};

use crate::certificates::push_cert;
use crate::formulas::push_formula;
use crate::terms::push_term;
use rw_programs::prog::Spec;
use rw_sequents::line::Cert;
use rw_terms::name::Name;
use rw_terms::sequent::Sequent;
use rw_terms::term::{Formula, Term};
use rw_terms::text::Text;
use std::alloc::{AllocError, Global};

/// The text of a term, which reads back as it. Safe on the default stack for each term that a reader gives: no deeper
/// than 512 operators.
pub fn print_term(alloc: Global, term: &Term) -> Result<Text, AllocError>
    ensures text { IfOk result (λ text. text ≡ printed_term term.now) }
    ensures reads_back { IfOk result (λ text. TermReadsBack text term.now) }
{
    let mut text = Text::new(alloc);
    push_term(&mut text, 0, term)?;
    Ok(text)
}

/// The text of a formula, which reads back as it. Safe on the default stack for each formula that a reader gives: no
/// deeper than 512 quantifiers round 512 operators.
pub fn print_formula(alloc: Global, formula: &Formula) -> Result<Text, AllocError>
    ensures text { IfOk result (λ text. text ≡ printed_formula formula.now) }
    ensures reads_back { IfOk result (λ text. FormulaReadsBack text formula.now) }
{
    let mut text = Text::new(alloc);
    push_formula(&mut text, 0, formula)?;
    Ok(text)
}

/// The text of a certificate, `allL 1 x ; ax`, which reads back as it.
pub fn print_cert(alloc: Global, cert: &Cert) -> Result<Text, AllocError>
    ensures text { IfOk result (λ text. text ≡ cert_text cert.now) }
    ensures reads_back { IfOk result (λ text. CertReadsBack text cert.now) }
{
    let mut text = Text::new(alloc);
    push_cert(&mut text, cert)?;
    Ok(text)
}

/// The text of a specification, `x,y:[F, G]`. An empty frame is nothing.
pub fn print_spec(alloc: Global, spec: &Spec) -> Result<Text, AllocError>
    ensures { IfOk result (λ text. text ≡ spec_text spec.now) }
{
    let mut text = Text::new(alloc);
    push_spec(&mut text, spec)?;
    Ok(text)
}

/// Writes a specification behind a text.
pub fn push_spec(text: &mut Text, spec: &Spec) -> Result<(), AllocError>
    ensures { OnOk result (text.new ≡ text.old ++ spec_text spec.now) }
{
    push_names(text, spec.frame.as_slice())?;
    text.push_str(":[")?;
    push_formula(text, 0, &spec.pre)?;
    text.push_str(", ")?;
    push_formula(text, 0, &spec.post)?;
    text.push_str("]")
}

/// The text of a sequent, `F, G |- H`. An empty side is nothing, and its space is left away.
pub fn print_sequent(alloc: Global, sequent: &Sequent) -> Result<Text, AllocError>
    ensures { IfOk result (λ text. text ≡ sequent_text sequent.now) }
{
    let mut text = Text::new(alloc);
    push_sequent(&mut text, sequent)?;
    Ok(text)
}

/// Writes a sequent behind a text.
pub fn push_sequent(text: &mut Text, sequent: &Sequent) -> Result<(), AllocError>
    ensures { OnOk result (text.new ≡ text.old ++ sequent_text sequent.now) }
{
    push_left(text, sequent.left.as_slice())?;
    text.push_str("|-")?;
    push_right(text, sequent.right.as_slice())
}

fn push_left(text: &mut Text, formulas: &[Formula]) -> Result<(), AllocError>
    ensures { OnOk result (text.new ≡ text.old ++ left_text formulas.now) }
{
    if formulas.is_empty() {
        return Ok(());
    }
    push_formulas(text, formulas)?;
    text.push_str(" ")
}

fn push_right(text: &mut Text, formulas: &[Formula]) -> Result<(), AllocError>
    ensures { OnOk result (text.new ≡ text.old ++ right_text formulas.now) }
{
    if formulas.is_empty() {
        return Ok(());
    }
    text.push_str(" ")?;
    push_formulas(text, formulas)
}

fn push_formulas(text: &mut Text, formulas: &[Formula]) -> Result<(), AllocError>
    ensures { OnOk result (text.new ≡ text.old ++ formulas_text formulas.now) }
{
    let mut before = "";
    for formula in formulas {
        text.push_str(before)?;
        push_formula(text, 0, formula)?;
        before = ", ";
    }
    Ok(())
}

fn push_names(text: &mut Text, names: &[Name]) -> Result<(), AllocError>
    ensures { OnOk result (text.new ≡ text.old ++ names_text names.now) }
{
    let mut before = "";
    for name in names {
        text.push_str(before)?;
        text.push_name(name)?;
        before = ",";
    }
    Ok(())
}
