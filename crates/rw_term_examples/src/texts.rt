//! Terms and formulas by their texts.

use rw_items::{Boxed, Items};
use rw_reader::{read_formula, read_term};
use rw_terms::name::Name;
use rw_terms::sameness::same;
use rw_terms::scope::{Entry, Kind, Scope};
use rw_terms::term::{Formula, Sort, Term};
use std::alloc::Global;
use std::process::Abort;
use std::test::Fail;

pub fn formula(rt: &impl Abort, alloc: Global, text: &str) -> Result<Boxed<Formula>, Fail> {
    let text = text.as_bytes();
    assert!(rt; text.len() <= 65536);
    Ok(Boxed::new(alloc, read_formula(alloc, text)?)?)
}

pub fn term(rt: &impl Abort, alloc: Global, text: &str) -> Result<Boxed<Term>, Fail> {
    let text = text.as_bytes();
    assert!(rt; text.len() <= 65536);
    Ok(Boxed::new(alloc, read_term(alloc, text)?)?)
}

// Whether the text spells the formula.
pub fn spells(
    rt: &impl Abort,
    alloc: Global,
    text: &str,
    formula_of: &Formula,
) -> Result<bool, Fail> {
    let wanted = formula(rt, alloc, text)?;
    Ok(same(wanted.get(), formula_of))
}

pub fn names(alloc: Global, texts: &[&str]) -> Result<Items<Name>, Fail> {
    let mut names = Items::new(alloc);
    for text in texts {
        names.push(Name::read(text.as_bytes())?)?;
    }
    Ok(names)
}

// The integers `x` and `y`, and the arrays `a` of 3 and `b` of 4 cells.
pub fn globals(alloc: Global) -> Result<Scope, Fail> {
    let mut entries = Items::new(alloc);
    for (text, sort) in [
        ("x", Sort::Int),
        ("y", Sort::Int),
        ("a", Sort::Array(3)),
        ("b", Sort::Array(4)),
    ] {
        entries.push(Entry {
            name: Name::read(text.as_bytes())?,
            sort,
            kind: Kind::Global,
        })?;
    }
    Ok(Scope::of_entries(entries))
}
