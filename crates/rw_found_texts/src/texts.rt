//! Writes what is found.

ghost use Rattle.std.specs.Prelude.{◌≡◌, ◌++◌, map, codes, IfOk, OnOk};
ghost use Rattle.rw_printer.specs.Layout.{listed};
ghost use Rattle.rw_found_texts.specs.Texts.{value_text, found_lines, found_text};

use rw_finder::find::{Found, PointValue};
use rw_items::Items;
use rw_printer::{push_lin, push_term};
use rw_terms::text::Text;
use std::alloc::{AllocError, Global};

/// The arithmetic lines that are found, as the line of a certificate, `lin [1*R1 + 1*L1]`; nothing where none are.
pub fn found_lines(alloc: Global, found: &Found) -> Result<Items<Text>, AllocError>
    ensures { IfOk result (λ texts. texts ≡ found_lines found.now) }
{
    let mut texts = Items::new(alloc);
    match found {
        Found::Lines(lines) => {
            let mut text = Text::new(alloc);
            push_lin(&mut text, lines.as_slice())?;
            texts.push(text)?;
            Ok(texts)
        }
        Found::Point(_) | Found::Wide(_) | Found::Many => Ok(texts),
    }
}

/// `ok found`, `ok point` and the values, `ok wide` and the number of the row, or `ok many`.
pub fn found_text(alloc: Global, found: &Found) -> Result<Text, AllocError>
    ensures { IfOk result (λ text. text ≡ found_text found.now) }
{
    let mut text = Text::new(alloc);
    match found {
        Found::Lines(_) => text.push_str("ok found")?,
        Found::Point(values) => {
            text.push_str("ok point")?;
            push_values(&mut text, values.as_slice())?;
        }
        Found::Wide(number) => {
            text.push_str("ok wide ")?;
            text.push_number(*number as u64)?;
        }
        Found::Many => text.push_str("ok many")?,
    }
    Ok(text)
}

// The values of atoms, the first with a space before it.
fn push_values(text: &mut Text, values: &[PointValue]) -> Result<(), AllocError>
    ensures { OnOk result (text.new ≡ text.old ++ listed (codes ", ") (codes " ") (map value_text values.now)) }
{
    let mut before = " ";
    for value in values {
        text.push_str(before)?;
        push_value(text, value)?;
        before = ", ";
    }
    Ok(())
}

// An atom and its value, a fraction.
fn push_value(text: &mut Text, value: &PointValue) -> Result<(), AllocError>
    ensures { OnOk result (text.new ≡ text.old ++ value_text value.now) }
{
    push_term(text, 0, &value.atom)?;
    text.push_str(" = ")?;
    text.push_integer(value.above)?;
    text.push_str("/")?;
    text.push_integer(value.below)
}
