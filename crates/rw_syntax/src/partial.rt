//! Reads the rest of the first tokens of a quantifier or of `put`.

ghost use Rattle.std.specs.Prelude.{◌≡◌, ◌≤◌, IfOk};
ghost use Rattle.rw_syntax.specs.Machine.{stack_nest, named_by, naming, coloned, sorting, measuring, dotted, putting};
ghost use Rattle.rw_syntax.specs.Steps.{partial_shut};
ghost use Rattle.rw_syntax.specs.declared.frame.Partial.TheVariants as partials;

use crate::frame::{Binder, Frame, Head, Partial, Prefix};
use crate::frames::Frames;
use crate::state::State;
use crate::table::{is_binder, is_length};
use crate::token::{Quantifier, Token};
use rw_items::Items;
use rw_terms::term::Sort;
use std::alloc::{AllocError, Global};

fn named_by(q: Quantifier, binder: Binder, stack: Frames) -> Option<State>
    ensures { result ≡ named_by q binder stack }
{
    if is_binder(&binder) {
        Some(State::Partial(Partial::Named(q, binder), stack))
    } else {
        None
    }
}

#[tactic(auto, unfolding(crate::specs::Steps::partial_shut))]
fn naming(q: Quantifier, stack: Frames, token: Token) -> Option<State>
    ensures { result ≡ partial_shut (partials.Naming q) stack token }
{
    match token {
        Token::Word(name) => named_by(q, Binder::Named(name), stack),
        Token::Place(n) => named_by(q, Binder::Numbered(n), stack),
        _ => None,
    }
}

#[tactic(auto, unfolding(crate::specs::Steps::partial_shut))]
fn coloned(q: Quantifier, binder: Binder, stack: Frames, token: Token) -> Option<State>
    ensures { result ≡ partial_shut (partials.Named q binder) stack token }
{
    match token {
        Token::Colon => Some(State::Partial(Partial::Sorting(q, binder), stack)),
        _ => None,
    }
}

#[tactic(auto, unfolding(crate::specs::Steps::partial_shut))]
fn sorting(q: Quantifier, binder: Binder, stack: Frames, token: Token) -> Option<State>
    ensures { result ≡ partial_shut (partials.Sorting q binder) stack token }
{
    match token {
        Token::Int => Some(State::Partial(Partial::Sorted(q, binder, Sort::Int), stack)),
        Token::Array => Some(State::Partial(Partial::Measuring(q, binder), stack)),
        _ => None,
    }
}

#[tactic(auto, unfolding(crate::specs::Steps::partial_shut))]
fn measuring(q: Quantifier, binder: Binder, stack: Frames, token: Token) -> Option<State>
    ensures { result ≡ partial_shut (partials.Measuring q binder) stack token }
{
    match token {
        Token::Number(n) => {
            if is_length(n) {
                let sort = Sort::Array(n as u16);
                Some(State::Partial(Partial::Sorted(q, binder, sort), stack))
            } else {
                None
            }
        }
        _ => None,
    }
}

#[tactic(auto, unfolding(crate::specs::Steps::partial_shut))]
fn dotted(
    q: Quantifier,
    binder: Binder,
    sort: Sort,
    mut stack: Frames,
    token: Token,
) -> Result<Option<State>, AllocError>
    requires { stack_nest stack ≤ 512 }
    ensures { IfOk result (λ o. o ≡ partial_shut (partials.Sorted q binder sort) stack token) }
{
    match token {
        Token::Dot => {
            stack.push(Frame::Prefix(Prefix::Bind(q, binder, sort)))?;
            Ok(Some(State::Wants(stack)))
        }
        _ => Ok(None),
    }
}

#[tactic(auto, unfolding(crate::specs::Steps::partial_shut))]
fn putting(alloc: Global, mut stack: Frames, token: Token) -> Result<Option<State>, AllocError>
    requires { stack_nest stack ≤ 512 }
    ensures { IfOk result (λ o. o ≡ partial_shut partials.Putting stack token) }
{
    match token {
        Token::Open => {
            stack.push(Frame::Call(Head::Put, Items::new(alloc)))?;
            Ok(Some(State::Wants(stack)))
        }
        _ => Ok(None),
    }
}

/// The state behind a token of a quantifier's or `put`'s first ones.
pub fn partial_step(
    alloc: Global,
    partial: Partial,
    stack: Frames,
    token: Token,
) -> Result<Option<State>, AllocError>
    requires { stack_nest stack ≤ 512 }
    ensures { IfOk result (λ o. o ≡ partial_shut partial stack token) }
{
    match partial {
        Partial::Naming(q) => Ok(naming(q, stack, token)),
        Partial::Named(q, binder) => Ok(coloned(q, binder, stack, token)),
        Partial::Sorting(q, binder) => Ok(sorting(q, binder, stack, token)),
        Partial::Measuring(q, binder) => Ok(measuring(q, binder, stack, token)),
        Partial::Sorted(q, binder, sort) => dotted(q, binder, sort, stack, token),
        Partial::Putting => putting(alloc, stack, token),
    }
}
