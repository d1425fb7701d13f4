//! Reads terms and formulas.

ghost use Rattle.std.specs.Prelude.{◌≡◌, ℕ, ◌+◌, ◌≤◌, ◌<◌, ◌^◌, ◌⊎◌, length, drop, IfOk, IfErr};
ghost use Rattle.rw_syntax.specs.Machine.{nest};
ghost use Rattle.rw_syntax.specs.declared.frame.Part.TheVariants as parts;
ghost use Rattle.rw_tokens.specs.Expressions.{TextSpells, IsFaultOf};
ghost use Rattle.rw_forms.specs.Progress.{IsPlace};
ghost use Rattle.rw_reader.specs.Turns.{Turns, Refuses};
ghost use Rattle.rw_forms.specs.declared.request.ReadError.TheVariants as read_error;

use rw_forms::request::ReadError;
use rw_forms::taking::fault;
use rw_forms::value::{FORMULA, TERM};
use rw_syntax::frame::Part;
use rw_syntax::frames::Frames;
use rw_syntax::state::State;
use rw_syntax::step::{advance, finish};
use rw_terms::term::{Formula, Term};
use rw_tokens::class::class_of;
use rw_tokens::token::{skip, token_at};
use std::alloc::Global;

/// The bound on the nest.
const MOST: u64 = 512;

// Reads one token, and gives the state behind it and the place of the next one.
fn turn(
    alloc: Global,
    goal: u8,
    text: &[u8],
    at: usize,
    state: State,
) -> Result<(State, usize), ReadError>
    requires place { IsPlace text.now at }
    requires opened { nest state ≤ 512 }
    ensures within { IfOk result (λ p. (nest p.0 ≤ 512) × (p.1 ≤ length text.now)) }
    ensures turns { IfOk result (λ p. Turns 512 goal (drop at text.now) state (drop p.1 text.now) p.0) }
    ensures err { IfErr result (λ e. (e ≡ read_error.Memory) ⊎ ((e ≡ read_error.Syntax at) × Refuses 512 goal (drop at text.now) state)) }
{
    let Some((token, next)) = token_at(text, at) else {
        return Err(fault(at));
    };
    let Some(class) = class_of(token) else {
        return Err(fault(at));
    };
    match advance(alloc, MOST, goal, state, class)? {
        Some(state) => Ok((state, next)),
        None => Err(fault(at)),
    }
}

// Reads a text as a value of a level.
fn read(alloc: Global, goal: u8, text: &[u8]) -> Result<Part, ReadError>
    requires short { length text.now < 2 ^ 32 }
    requires level { goal ≤ 9 }
    ensures ok { IfOk result (λ v. TextSpells goal text.now v) }
    ensures err { IfErr result (λ e. (e ≡ read_error.Memory) ⊎ ((o : ℕ) × (e ≡ read_error.Syntax o) × IsFaultOf goal text.now o)) }
{
    let mut at = skip(text, 0);
    let mut state = State::Wants(Frames::new(alloc));
    'tokens: while at < text.len() {
        let (behind, next) = turn(alloc, goal, text, at, state)?;
        state = behind;
        at = next;
    }
    match finish(alloc, goal, state)? {
        Some(part) => Ok(part),
        None => Err(fault(text.len())),
    }
}

/// Reads a text as a term. Its tokens spell that term; else the fault is told, where its tokens cannot go on.
/// A text has fewer than 2^32 bytes, since an offset is a `u32`.
pub fn read_term(alloc: Global, text: &[u8]) -> Result<Term, ReadError>
    requires { length text.now < 2 ^ 32 }
    ensures ok { IfOk result (λ t. TextSpells 6 text.now (parts.Term t)) }
    ensures err { IfErr result (λ e. (e ≡ read_error.Memory) ⊎ ((o : ℕ) × (e ≡ read_error.Syntax o) × IsFaultOf 6 text.now o)) }
{
    match read(alloc, TERM, text)? {
        Part::Term(term) => Ok(term.into_inner()),
        Part::Formula(_) => unreachable!(),
    }
}

/// Reads a text as a formula. Its tokens spell that formula; else the fault is told, where its tokens cannot go on.
/// A text has fewer than 2^32 bytes, since an offset is a `u32`.
pub fn read_formula(alloc: Global, text: &[u8]) -> Result<Formula, ReadError>
    requires { length text.now < 2 ^ 32 }
    ensures ok { IfOk result (λ f. TextSpells 1 text.now (parts.Formula f)) }
    ensures err { IfErr result (λ e. (e ≡ read_error.Memory) ⊎ ((o : ℕ) × (e ≡ read_error.Syntax o) × IsFaultOf 1 text.now o)) }
{
    match read(alloc, FORMULA, text)? {
        Part::Formula(formula) => Ok(formula.into_inner()),
        Part::Term(_) => unreachable!(),
    }
}
