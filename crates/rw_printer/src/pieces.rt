//! The words and symbols of a text.

ghost use Rattle.std.specs.Prelude.{◌≡◌, ◌++◌, ◌-◌, OnOk, IsTrue, codes, decimal, suc};
ghost use Rattle.rw_terms.specs.Names.{is_name};
ghost use Rattle.rw_syntax.specs.declared.frame.Prefix.TheVariants as prefixes;
ghost use Rattle.rw_syntax.specs.declared.frame.Binder.TheVariants as binders;
ghost use Rattle.rw_printer.specs.Layout.{infix_text, sort_text, quantifier_text, prefix_text};

use rw_syntax::token::{Infix, Quantifier};
use rw_terms::name::Name;
use rw_terms::term::Sort;
use rw_terms::text::Text;
use std::alloc::AllocError;

/// Writes a name, which is one.
pub fn push_word(text: &mut Text, name: &Name) -> Result<(), AllocError>
    ensures text { OnOk result (text.new ≡ text.old ++ name.now) }
    ensures name { IsTrue (is_name name.now) }
{
    let _word = name.bytes();
    text.push_name(name)
}

/// Writes the name of a binder, of which `k` stand between it and here, where there are so many.
pub fn push_place(text: &mut Text, depth: u64, k: u32) -> Result<(), AllocError>
    ensures { OnOk result (text.new ≡ text.old ++ codes "_" ++ decimal (depth - k)) }
{
    text.push_str("_")?;
    text.push_number(depth.saturating_sub(k as u64))
}

/// Writes an operator with a space on each side.
pub fn push_infix(text: &mut Text, op: Infix) -> Result<(), AllocError>
    ensures { OnOk result (text.new ≡ text.old ++ codes " " ++ infix_text op ++ codes " ") }
{
    text.push_str(match op {
        Infix::Implies => " => ",
        Infix::Or => " or ",
        Infix::And => " and ",
        Infix::Equal => " = ",
        Infix::Unequal => " <> ",
        Infix::Less => " < ",
        Infix::AtMost => " <= ",
        Infix::Greater => " > ",
        Infix::AtLeast => " >= ",
        Infix::Plus => " + ",
        Infix::Minus => " - ",
        Infix::Times => " * ",
        Infix::Div => " div ",
        Infix::Mod => " mod ",
    })
}

/// Writes a quantifier of the binder that is named by a number.
pub fn push_quantifier(
    text: &mut Text,
    quantifier: Quantifier,
    number: u64,
    sort: Sort,
) -> Result<(), AllocError>
    ensures { OnOk result (text.new ≡ text.old ++ prefix_text (prefixes.Bind quantifier (binders.Numbered number) sort)) }
{
    text.push_str(match quantifier {
        Quantifier::All => "forall _",
        Quantifier::Any => "exists _",
    })?;
    text.push_number(number)?;
    text.push_str(":")?;
    push_sort(text, sort)?;
    text.push_str(" . ")
}

/// Writes a sort.
pub fn push_sort(text: &mut Text, sort: Sort) -> Result<(), AllocError>
    ensures { OnOk result (text.new ≡ text.old ++ sort_text sort) }
{
    match sort {
        Sort::Int => text.push_str("int"),
        Sort::Array(length) => {
            text.push_str("array ")?;
            text.push_number(length as u64)
        }
    }
}
