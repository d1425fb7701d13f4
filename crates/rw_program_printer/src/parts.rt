//! Writes the parts of programs that hold no program.

ghost use Rattle.std.specs.Prelude.{◌≡◌, ◌++◌, [], map, OnOk, IsTrue, ◌&&◌, codes, decimal};
ghost use Rattle.rw_terms.specs.Names.{is_name};
ghost use Rattle.rw_printer.specs.Layout.{printed_term, names_text, spec_text};
ghost use Rattle.rw_printer.specs.Readable.{named_term, named_terms};
ghost use Rattle.rw_program_printer.specs.Layout.{assignment_text, results_text, passed_text, pin_text, pins_text, local_text};
ghost use Rattle.rw_program_printer.specs.Readable.{named_names, named_pin, named_pins, named_spec};

use rw_printer::{push_formula, push_sort, push_term, push_terms, push_word};
use rw_programs::prog::{Pin, Spec};
use rw_terms::name::Name;
use rw_terms::term::{Sort, Term};
use rw_terms::text::Text;
use std::alloc::AllocError;

/// Writes names joined by `,` alone.
pub fn push_names(text: &mut Text, names: &[Name]) -> Result<(), AllocError>
    ensures text { OnOk result (text.new ≡ text.old ++ names_text names.now) }
    ensures names { OnOk result (IsTrue (named_names names.now)) }
{
    let mut before = "";
    for name in names {
        text.push_str(before)?;
        push_word(text, name)?;
        before = ",";
    }
    Ok(())
}

/// Writes a specification.
pub fn push_specification(text: &mut Text, spec: &Spec) -> Result<(), AllocError>
    ensures text { OnOk result (text.new ≡ text.old ++ spec_text spec.now) }
    ensures names { OnOk result (IsTrue (named_spec spec.now)) }
{
    push_names(text, spec.frame.as_slice())?;
    text.push_str(":[")?;
    push_formula(text, 0, &spec.pre)?;
    text.push_str(", ")?;
    push_formula(text, 0, &spec.post)?;
    text.push_str("]")
}

/// Writes names, `:=` and terms.
pub fn push_assignment(text: &mut Text, names: &[Name], terms: &[Term]) -> Result<(), AllocError>
    ensures text { OnOk result (text.new ≡ text.old ++ assignment_text names.now terms.now) }
    ensures names { OnOk result (IsTrue (named_names names.now && named_terms terms.now)) }
{
    push_names(text, names)?;
    text.push_str(" := ")?;
    push_terms(text, terms)
}

/// Writes what is passed, in brackets.
pub fn push_passed(text: &mut Text, terms: &[Term], names: &[Name]) -> Result<(), AllocError>
    ensures text { OnOk result (text.new ≡ text.old ++ passed_text terms.now names.now) }
    ensures names { OnOk result (IsTrue (named_terms terms.now && named_names names.now)) }
{
    text.push_str("(")?;
    push_terms(text, terms)?;
    push_results(text, names)?;
    text.push_str(")")
}

// `;` and the names behind it.
fn push_results(text: &mut Text, names: &[Name]) -> Result<(), AllocError>
    ensures text { OnOk result (text.new ≡ text.old ++ results_text names.now) }
    ensures names { OnOk result (IsTrue (named_names names.now)) }
{
    if names.is_empty() {
        return text.push_str(";");
    }
    text.push_str("; ")?;
    push_names(text, names)
}

/// Writes `do` and a variant in braces.
pub fn push_variant(text: &mut Text, variant: &Term) -> Result<(), AllocError>
    ensures text { OnOk result (text.new ≡ text.old ++ codes "do {" ++ printed_term variant.now ++ codes "} ") }
    ensures names { OnOk result (IsTrue (named_term variant.now)) }
{
    text.push_str("do {")?;
    push_term(text, 0, variant)?;
    text.push_str("} ")
}

/// Writes a name and its sort.
pub fn push_local(text: &mut Text, name: &Name, sort: Sort) -> Result<(), AllocError>
    ensures text { OnOk result (text.new ≡ text.old ++ local_text name.now sort) }
    ensures names { OnOk result (IsTrue (is_name name.now)) }
{
    push_word(text, name)?;
    text.push_str(" : ")?;
    push_sort(text, sort)
}

/// Writes pins joined by `,` and a space.
pub fn push_pins(text: &mut Text, pins: &[Pin]) -> Result<(), AllocError>
    ensures text { OnOk result (text.new ≡ text.old ++ pins_text pins.now) }
    ensures names { OnOk result (IsTrue (named_pins pins.now)) }
{
    let mut before = "";
    for pin in pins {
        text.push_str(before)?;
        push_pin(text, pin)?;
        before = ", ";
    }
    Ok(())
}

// `X = 1`
fn push_pin(text: &mut Text, pin: &Pin) -> Result<(), AllocError>
    ensures text { OnOk result (text.new ≡ text.old ++ pin_text pin.now) }
    ensures names { OnOk result (IsTrue (named_pin pin.now)) }
{
    push_word(text, &pin.name)?;
    text.push_str(" = ")?;
    push_term(text, 0, &pin.term)
}

/// Writes a kid, which no text spells.
pub fn push_kid(text: &mut Text, number: u32) -> Result<(), AllocError>
    ensures { OnOk result (text.new ≡ text.old ++ codes "kid " ++ decimal number) }
{
    text.push_str("kid ")?;
    text.push_number(number as u64)
}
