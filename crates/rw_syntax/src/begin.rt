//! Reads a token where an operand is wanted.

ghost use Rattle.std.specs.Prelude.{◌≡◌, ◌≤◌, ◌∷◌, IfOk, cond, leb, Some, None};
ghost use Rattle.rw_syntax.specs.Grammar.{truth};
ghost use Rattle.rw_syntax.specs.Machine.{scope, begun, leaf_read, stack_nest};
ghost use Rattle.rw_syntax.specs.Steps.{begin_shut};
ghost use Rattle.rw_syntax.specs.declared.state.State.TheVariants as states;
ghost use Rattle.rw_syntax.specs.declared.token.Token.TheVariants as tokens;
ghost use Rattle.rw_syntax.specs.declared.frame.Part.TheVariants as parts;

use crate::build;
use crate::finding::find;
use crate::frame::{Binder, Frame, Part, Partial, Prefix};
use crate::frames::Frames;
use crate::state::State;
use crate::table::is_upper;
use crate::token::{Infix, Quantifier, Token};
use rw_terms::name::Name;
use rw_terms::term::{Formula, Term};
use std::alloc::{AllocError, Global};

/// The state, where an operand of a level may stand where one is wanted.
pub fn begun(wanted: u8, level: u8, state: State) -> Option<State>
    ensures { result ≡ begun wanted level state }
{
    if wanted <= level { Some(state) } else { None }
}

// A term of one token, where one may stand.
fn one_term(
    alloc: Global,
    wanted: u8,
    term: Term,
    stack: Frames,
) -> Result<Option<State>, AllocError>
    ensures { IfOk result (λ o. o ≡ begun wanted 9 (states.Has (parts.Term term) 9 0 stack)) }
{
    let part = build::term(alloc, term)?;
    Ok(begun(wanted, 9, State::Has(part, 9, 0, stack)))
}

#[tactic(auto, unfolding(crate::specs::Steps::begin_shut))]
fn truth(alloc: Global, wanted: u8, value: bool, stack: Frames) -> Result<Option<State>, AllocError>
    ensures { IfOk result (λ o. o ≡ begin_shut wanted stack (tokens.Truth value)) }
{
    let formula = if value { Formula::True } else { Formula::False };
    let part = build::formula(alloc, formula)?;
    Ok(begun(wanted, 5, State::Has(part, 5, 0, stack)))
}

#[tactic(auto, unfolding(crate::specs::Steps::begin_shut))]
fn quantifier(wanted: u8, q: Quantifier, stack: Frames) -> Option<State>
    ensures { result ≡ begin_shut wanted stack (tokens.Quantifier q) }
{
    begun(wanted, 1, State::Partial(Partial::Naming(q), stack))
}

#[tactic(auto, unfolding(crate::specs::Steps::begin_shut))]
fn negation(wanted: u8, mut stack: Frames) -> Result<Option<State>, AllocError>
    requires { stack_nest stack ≤ 512 }
    ensures { IfOk result (λ o. o ≡ begin_shut wanted stack tokens.Not) }
{
    if wanted > 4 {
        return Ok(None);
    }
    stack.push(Frame::Prefix(Prefix::Not))?;
    Ok(Some(State::Wants(stack)))
}

#[tactic(auto, unfolding(crate::specs::Steps::begin_shut))]
fn number(alloc: Global, wanted: u8, n: u128, stack: Frames) -> Result<Option<State>, AllocError>
    ensures { IfOk result (λ o. o ≡ begin_shut wanted stack (tokens.Number n)) }
{
    if n > 170141183460469231731687303715884105727 {
        return Ok(None);
    }
    one_term(alloc, wanted, Term::Lit(n as i128), stack)
}

#[tactic(auto, unfolding(crate::specs::Steps::begin_shut))]
fn initial(
    alloc: Global,
    wanted: u8,
    name: Name,
    stack: Frames,
) -> Result<Option<State>, AllocError>
    ensures { IfOk result (λ o. o ≡ begin_shut wanted stack (tokens.Initial name)) }
{
    if is_upper(&name) {
        return Ok(None);
    }
    one_term(alloc, wanted, Term::Init(name), stack)
}

#[tactic(auto, unfolding(crate::specs::Steps::begin_shut))]
fn place(alloc: Global, wanted: u8, n: u128, stack: Frames) -> Result<Option<State>, AllocError>
    requires { stack_nest stack ≤ 512 }
    ensures { IfOk result (λ o. o ≡ begin_shut wanted stack (tokens.Place n)) }
{
    match find(&Binder::Numbered(n), &stack) {
        Some(between) => one_term(alloc, wanted, Term::Bound(between), stack),
        None => Ok(None),
    }
}

#[tactic(auto, unfolding(crate::specs::Steps::begin_shut))]
fn minus(wanted: u8, op: Infix, mut stack: Frames) -> Result<Option<State>, AllocError>
    requires { stack_nest stack ≤ 512 }
    ensures { IfOk result (λ o. o ≡ begin_shut wanted stack (tokens.Infix op)) }
{
    match op {
        Infix::Minus => {
            if wanted > 8 {
                return Ok(None);
            }
            stack.push(Frame::Prefix(Prefix::Minus))?;
            Ok(Some(State::Wants(stack)))
        }
        _ => Ok(None),
    }
}

#[tactic(auto, unfolding(crate::specs::Steps::begin_shut))]
fn group(wanted: u8, mut stack: Frames) -> Result<Option<State>, AllocError>
    requires { stack_nest stack ≤ 512 }
    ensures { IfOk result (λ o. o ≡ begin_shut wanted stack tokens.Open) }
{
    stack.push(Frame::Group(wanted >= 6))?;
    Ok(Some(State::Wants(stack)))
}

/// The state behind a token where an operand of a level is wanted.
#[tactic(auto, using(crate::proofs::Refusals::begins))]
pub fn begin(
    alloc: Global,
    wanted: u8,
    stack: Frames,
    token: Token,
) -> Result<Option<State>, AllocError>
    requires { stack_nest stack ≤ 512 }
    ensures { IfOk result (λ o. o ≡ begin_shut wanted stack token) }
{
    match token {
        Token::Number(n) => number(alloc, wanted, n, stack),
        Token::Word(name) => Ok(Some(State::Worded(name, stack))),
        Token::Initial(name) => initial(alloc, wanted, name, stack),
        Token::Place(n) => place(alloc, wanted, n, stack),
        Token::Truth(value) => truth(alloc, wanted, value, stack),
        Token::Infix(op) => minus(wanted, op, stack),
        Token::Not => negation(wanted, stack),
        Token::Quantifier(q) => Ok(quantifier(wanted, q, stack)),
        Token::Put => Ok(Some(State::Partial(Partial::Putting, stack))),
        Token::Open => group(wanted, stack),
        Token::Int => Ok(None),
        Token::Array => Ok(None),
        Token::Close => Ok(None),
        Token::OpenSquare => Ok(None),
        Token::CloseSquare => Ok(None),
        Token::Comma => Ok(None),
        Token::Colon => Ok(None),
        Token::Dot => Ok(None),
    }
}
