//! What the test crates share: terms and formulas by their texts. It promises nothing; no program calls it.
#![tactic(auto)]

ghost use Rattle.std.specs.Prelude.{◌≤◌, length, IfOk};

use rw_items::{Boxed, Items};
use rw_reader::{read_formula, read_term};
use rw_terms::name::Name;
use rw_terms::sameness::same;
use rw_terms::scope::{Entry, Kind, Scope};
use rw_terms::term::{Formula, Sort, Term};
use std::alloc::Global;
use std::test::Fail;

// The bytes of a text that the reader takes.
fn short(text: &str) -> Result<&[u8], Fail>
    ensures { IfOk result (λ bytes. length bytes.now ≤ 65536) }
{
    let bytes = text.as_bytes();
    if bytes.len() > 65536 {
        return Err("too long")?;
    }
    Ok(bytes)
}

/// The formula that a text of at most 65,536 bytes spells.
pub fn formula(alloc: Global, text: &str) -> Result<Boxed<Formula>, Fail> {
    let text = short(text)?;
    Ok(Boxed::new(alloc, read_formula(alloc, text)?)?)
}

/// The term that a text of at most 65,536 bytes spells.
pub fn term(alloc: Global, text: &str) -> Result<Boxed<Term>, Fail> {
    let text = short(text)?;
    Ok(Boxed::new(alloc, read_term(alloc, text)?)?)
}

/// Whether the text spells the formula.
pub fn spells(alloc: Global, text: &str, formula_of: &Formula) -> Result<bool, Fail> {
    let wanted = formula(alloc, text)?;
    Ok(same(wanted.get(), formula_of))
}

/// The names of these texts.
pub fn names(alloc: Global, texts: &[&str]) -> Result<Items<Name>, Fail> {
    let mut names = Items::new(alloc);
    for text in texts {
        names.push(Name::read(text.as_bytes())?)?;
    }
    Ok(names)
}

/// The integers `x` and `y`, and the arrays `a` of 3 and `b` of 4 cells.
pub fn globals(alloc: Global) -> Result<Scope, Fail> {
    let mut entries = Items::new(alloc);
    for (text, sort) in [
        ("x", Sort::Int),
        ("y", Sort::Int),
        ("a", Sort::Array(3)),
        ("b", Sort::Array(4)),
    ] {
        entries.push(Entry {
            name: Name::read(text.as_bytes())?,
            sort,
            kind: Kind::Global,
        })?;
    }
    Ok(Scope::of_entries(entries))
}
