//! The machine: one token at a time, and what stands at the end.

ghost use Rattle.std.specs.Prelude.{◌≡◌, ◌≤◌, ◌+◌, ◌∷◌, [], leb, IfOk, IfSome};
ghost use Rattle.rw_syntax.specs.Grammar.{head_level, leaf_part, word};
ghost use Rattle.rw_syntax.specs.Machine.{nest, has_of, stack_nest, hole, begun, word_part, is_open, scope};
ghost use Rattle.rw_syntax.specs.Steps.{step_shut, advance_shut, finish_shut};
ghost use Rattle.rw_syntax.specs.declared.state.State.TheVariants as states;
ghost use Rattle.rw_syntax.specs.declared.frame.Frame.TheVariants as frames;
ghost use Rattle.rw_syntax.specs.declared.frame.Head.TheVariants as heads;

use crate::begin::begin;
use crate::behind::go_on;
use crate::build;
use crate::ending::{ended, hole};
use crate::finding::find;
use crate::frame::{Binder, Frame, Head, Part, Partial};
use crate::frames::Frames;
use crate::partial::partial_step;
use crate::state::{Operand, State};
use crate::table::{fits, head_level, is_upper};
use crate::token::Token;
use rw_items::Items;
use rw_terms::name::Name;
use rw_terms::term::Term;
use std::alloc::{AllocError, Global};

// What a word is that is no head: a binder, a constant or a variable.
fn word_part(alloc: Global, name: Name, stack: &Frames) -> Result<Part, AllocError>
    requires { stack_nest stack.now ≤ 512 }
    ensures { IfOk result (λ v. v ≡ word_part name stack.now) }
{
    let binder = Binder::Named(name.copy());
    match find(&binder, stack) {
        Some(between) => build::term(alloc, Term::Bound(between)),
        None => {
            if is_upper(&name) {
                build::term(alloc, Term::Const(name))
            } else {
                build::term(alloc, Term::Var(name))
            }
        }
    }
}

fn headed(
    alloc: Global,
    goal: u8,
    name: Name,
    mut stack: Frames,
) -> Result<Option<State>, AllocError>
    requires { stack_nest stack ≤ 512 }
    ensures { IfOk result (λ o. o ≡ begun (hole goal stack) (head_level (heads.Named name)) (states.Wants (frames.Call (heads.Named name) [] ∷ stack))) }
{
    let head = Head::Named(name);
    if hole(goal, &stack) > head_level(&head) {
        return Ok(None);
    }
    stack.push(Frame::Call(head, Items::new(alloc)))?;
    Ok(Some(State::Wants(stack)))
}

fn is_open(token: &Token) -> bool
    ensures { result ≡ is_open token.now }
{
    matches!(token, Token::Open)
}

#[tactic(auto, using(crate::proofs::Shut::shut))]
fn worded(
    alloc: Global,
    goal: u8,
    name: Name,
    stack: Frames,
    token: Token,
) -> Result<Option<State>, AllocError>
    requires { stack_nest stack ≤ 512 }
    ensures { IfOk result (λ o. o ≡ step_shut goal (states.Worded name stack) token) }
{
    if is_open(&token) {
        return headed(alloc, goal, name, stack);
    }
    let part = word_part(alloc, name, &stack)?;
    let operand = Operand {
        part,
        level: 9,
        chain: 0,
        stack,
    };
    go_on(alloc, goal, operand, token)
}

/// The state behind one more token. `None` where the token cannot go on.
#[tactic(auto, using(crate::proofs::Shut::shut))]
fn step(alloc: Global, goal: u8, state: State, token: Token) -> Result<Option<State>, AllocError>
    requires { nest state ≤ 512 }
    ensures { IfOk result (λ o. o ≡ step_shut goal state token) }
{
    match state {
        State::Wants(stack) => begin(alloc, hole(goal, &stack), stack, token),
        State::Partial(partial, stack) => partial_step(alloc, partial, stack, token),
        State::Worded(name, stack) => worded(alloc, goal, name, stack, token),
        State::Has(part, level, chain, stack) => {
            let operand = Operand {
                part,
                level,
                chain,
                stack,
            };
            go_on(alloc, goal, operand, token)
        }
    }
}

// Whether the nest is within `most`.
fn is_within(most: u64, state: &State) -> bool
    ensures { result ≡ leb (nest state.now) most }
{
    match state {
        State::Wants(stack) | State::Worded(_, stack) => stack.nest() <= most,
        State::Partial(Partial::Putting, stack) => stack.nest() <= most,
        State::Partial(_, stack) => stack.nest() < most,
        State::Has(_, _, chain, stack) => {
            let open = stack.nest();
            open <= most && u64::from(*chain) <= most - open
        }
    }
}

/// The state behind one more token, with a nest within `most`. `None` where the token cannot go on.
#[tactic(auto, using(crate::proofs::Shut::advances))]
pub fn advance(
    alloc: Global,
    most: u64,
    goal: u8,
    state: State,
    token: Token,
) -> Result<Option<State>, AllocError>
    requires { nest state ≤ 512 }
    ensures state { IfOk result (λ o. o ≡ advance_shut most goal state token) }
    ensures within { IfOk result (λ o. IfSome o (λ s. nest s ≤ most)) }
{
    match step(alloc, goal, state, token)? {
        Some(next) => {
            if is_within(most, &next) {
                Ok(Some(next))
            } else {
                Ok(None)
            }
        }
        None => Ok(None),
    }
}

#[tactic(auto, unfolding(crate::specs::Steps::finish_shut))]
fn finish_operand(alloc: Global, goal: u8, operand: Operand) -> Result<Option<Part>, AllocError>
    requires { nest (has_of operand) ≤ 512 }
    ensures { IfOk result (λ o. o ≡ finish_shut goal (has_of operand)) }
{
    match ended(alloc, 1, operand)? {
        Some(
            Operand {
                part,
                level,
                chain: _,
                stack,
            },
        ) => {
            if stack.is_empty() && fits(goal, level) {
                Ok(Some(part))
            } else {
                Ok(None)
            }
        }
        None => Ok(None),
    }
}

/// The value, where the tokens end here. `None` where they end too early.
#[tactic(auto, using(crate::proofs::Shut::finishes))]
pub fn finish(alloc: Global, goal: u8, state: State) -> Result<Option<Part>, AllocError>
    requires { nest state ≤ 512 }
    ensures { IfOk result (λ o. o ≡ finish_shut goal state) }
{
    match state {
        State::Wants(_) => Ok(None),
        State::Partial(_, _) => Ok(None),
        State::Worded(name, stack) => {
            let part = word_part(alloc, name, &stack)?;
            let operand = Operand {
                part,
                level: 9,
                chain: 0,
                stack,
            };
            finish_operand(alloc, goal, operand)
        }
        State::Has(part, level, chain, stack) => {
            let operand = Operand {
                part,
                level,
                chain,
                stack,
            };
            finish_operand(alloc, goal, operand)
        }
    }
}
