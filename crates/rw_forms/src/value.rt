//! Terms and formulas inside a request, lists of them, and specifications.

ghost use Rattle.std.specs.Prelude.{◌≡◌, ℕ, ◌≤◌, [], length, drop, MatchOption};
ghost use Rattle.rw_forms.specs.Forms.{rest_of};
ghost use Rattle.rw_forms.specs.Phrases.{formula, term, terms, closed_terms, formulas, frame, spec};
ghost use Rattle.rw_forms.specs.Progress.{IsPlace, Took, StandsAt, NoClass, GoesAt, EndsAt};

use crate::request::ReadError;
use crate::taking::{accept, expect, fault, names};
use rw_items::{Boxed, Items};
use rw_programs::prog::Spec;
use rw_syntax::build::{as_formula, as_term};
use rw_syntax::frame::Part;
use rw_syntax::frames::Frames;
use rw_syntax::state::State;
use rw_syntax::step::{advance, finish};
use rw_syntax::stops::{is_inside, stops_at};
use rw_syntax::token::Token as Class;
use rw_terms::name::Name;
use rw_terms::term::{Formula, Term};
use rw_tokens::class::class_of;
use rw_tokens::token::token_at;
use std::alloc::Global;

/// The level of formulas in the grammar.
pub const FORMULA: u8 = 1;

/// The level of terms in the grammar.
pub const TERM: u8 = 6;

// What the token at a place is in a term or a formula, and the place of the next one.
fn class_at(line: &[u8], at: usize) -> Option<(Class, usize)>
    requires { at ≤ length line.now }
    ensures { MatchOption result (NoClass (drop at line.now)) (StandsAt line.now at) }
{
    let Some((token, next)) = token_at(line, at) else {
        return None;
    };
    match class_of(token) {
        Some(class) => Some((class, next)),
        None => None,
    }
}

// The token that a value goes on with, and the place of the next one. `None` where it ends.
fn next_class(line: &[u8], at: usize, state: &State) -> Option<(Class, usize)>
    requires { at ≤ length line.now }
    ensures { MatchOption result (EndsAt (drop at line.now) state.now) (GoesAt line.now at state.now) }
{
    let Some((class, next)) = class_at(line, at) else {
        return None;
    };
    if stops_at(&class) {
        if !is_inside(state) {
            return None;
        }
    }
    Some((class, next))
}

// Reads a value of a level whose own nest is within `most`.
fn part(alloc: Global, most: u64, goal: u8, line: &[u8], at: &mut usize) -> Result<Part, ReadError>
    requires place { IsPlace line.now at.old }
    requires bound { most ≤ 512 }
    requires level { goal ≤ 9 }
    ensures took { Took (rest_of most goal []) line.now at.old at.new result }
    ensures on { at.old ≤ at.new }
{
    let mut state = State::Wants(Frames::new(alloc));
    'tokens: while let Some((class, next)) = next_class(line, *at, &state) {
        match advance(alloc, most, goal, state, class)? {
            Some(behind) => {
                state = behind;
                *at = next;
            }
            None => {
                return Err(fault(*at));
            }
        }
    }
    match finish(alloc, goal, state)? {
        Some(part) => Ok(part),
        None => Err(fault(*at)),
    }
}

/// Reads a formula whose own nest is within `most`.
#[tactic(auto, unfolding(crate::specs::Phrases::formula))]
pub fn formula(
    alloc: Global,
    most: u64,
    line: &[u8],
    at: &mut usize,
) -> Result<Boxed<Formula>, ReadError>
    requires place { IsPlace line.now at.old }
    requires bound { most ≤ 512 }
    ensures took { Took (formula most) line.now at.old at.new result }
    ensures on { at.old ≤ at.new }
{
    let part = part(alloc, most, FORMULA, line, at)?;
    Ok(as_formula(alloc, part)?)
}

/// Reads a term whose own nest is within `most`.
#[tactic(auto, unfolding(crate::specs::Phrases::term))]
pub fn term(alloc: Global, most: u64, line: &[u8], at: &mut usize) -> Result<Boxed<Term>, ReadError>
    requires place { IsPlace line.now at.old }
    requires bound { most ≤ 512 }
    ensures took { Took (term most) line.now at.old at.new result }
    ensures on { at.old ≤ at.new }
{
    let part = part(alloc, most, TERM, line, at)?;
    Ok(as_term(alloc, part)?)
}

/// Reads terms with commas between them, whose own nests are within `most`.
pub fn terms(
    alloc: Global,
    most: u64,
    line: &[u8],
    at: &mut usize,
) -> Result<Items<Term>, ReadError>
    requires place { IsPlace line.now at.old }
    requires bound { most ≤ 512 }
    ensures took { Took (terms most) line.now at.old at.new result }
    ensures on { at.old ≤ at.new }
{
    let mut terms = Items::new(alloc);
    let first = term(alloc, most, line, at)?;
    terms.push(first.into_inner())?;
    'terms: while accept(line, at, b",") {
        let next = term(alloc, most, line, at)?;
        terms.push(next.into_inner())?;
    }
    Ok(terms)
}

/// Reads terms and a closing bracket, or that bracket alone.
pub fn closed_terms(alloc: Global, line: &[u8], at: &mut usize) -> Result<Items<Term>, ReadError>
    requires { IsPlace line.now at.old }
    ensures took { Took closed_terms line.now at.old at.new result }
    ensures on { at.old ≤ at.new }
{
    if accept(line, at, b")") {
        return Ok(Items::new(alloc));
    }
    let terms = terms(alloc, 511, line, at)?;
    expect(line, at, b")")?;
    Ok(terms)
}

/// Reads formulas with this word or symbol between them, whose own nests are within `most`.
pub fn formulas(
    alloc: Global,
    most: u64,
    separator: &[u8],
    line: &[u8],
    at: &mut usize,
) -> Result<Items<Formula>, ReadError>
    requires place { IsPlace line.now at.old }
    requires bound { most ≤ 512 }
    ensures { Took (formulas most separator.now) line.now at.old at.new result }
{
    let mut formulas = Items::new(alloc);
    let first = formula(alloc, most, line, at)?;
    formulas.push(first.into_inner())?;
    'formulas: while accept(line, at, separator) {
        let next = formula(alloc, most, line, at)?;
        formulas.push(next.into_inner())?;
    }
    Ok(formulas)
}

// The names before a colon, or none, and the colon.
fn frame(alloc: Global, line: &[u8], at: &mut usize) -> Result<Items<Name>, ReadError>
    requires { IsPlace line.now at.old }
    ensures { Took frame line.now at.old at.new result }
{
    if accept(line, at, b":") {
        return Ok(Items::new(alloc));
    }
    let names = names(alloc, line, at)?;
    expect(line, at, b":")?;
    Ok(names)
}

/// Reads a specification.
pub fn spec(alloc: Global, line: &[u8], at: &mut usize) -> Result<Boxed<Spec>, ReadError>
    requires { IsPlace line.now at.old }
    ensures { Took spec line.now at.old at.new result }
{
    let frame = frame(alloc, line, at)?;
    expect(line, at, b"[")?;
    let pre = formula(alloc, 511, line, at)?;
    expect(line, at, b",")?;
    let post = formula(alloc, 511, line, at)?;
    expect(line, at, b"]")?;
    let pre = pre.into_inner();
    let post = post.into_inner();
    Ok(Boxed::new(alloc, Spec { frame, pre, post })?)
}
