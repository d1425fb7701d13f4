//! Reads a token behind an operand.

ghost use Rattle.std.specs.Prelude.{◌≡◌, ◌≤◌, ◌+◌, ◌∷◌, ℕ, IfOk, IsTrue, length, cond, leb, Some, None, option_and_then};
ghost use Rattle.rw_syntax.specs.Grammar.{adds, takes};
ghost use Rattle.rw_syntax.specs.Machine.{nest, has_of, stack_nest, hole, extended, closed_frame, closed, indexed, listed_frame, listed, expects, ended};
ghost use Rattle.rw_syntax.specs.Steps.{close_shut, close_square_shut, comma_shut, open_square_shut, go_on_shut};
ghost use Rattle.rw_syntax.specs.declared.token.Token.TheVariants as tokens;
ghost use Rattle.rw_syntax.specs.declared.frame.Frame.TheVariants as frames;

use crate::begin::begun;
use crate::build::{applied, as_term, read_at};
use crate::ending::{ended, hole};
use crate::frame::{Frame, Head, Part};
use crate::frames::Frames;
use crate::state::{Operand, State};
use crate::table::{fits, head_level, left_of, level_of, shut};
use crate::token::{Infix, Token};
use rw_items::Items;
use rw_terms::term::Term;
use std::alloc::{AllocError, Global};

/// What an operator adds to the nest behind a left operand of a level, whose chain has so many operators or indices.
fn adds(op: Infix, level: u8, chain: u32) -> u32
    requires { chain ≤ 512 }
    ensures value { result ≡ adds op level chain }
    ensures small { result ≤ 513 }
{
    match op {
        Infix::Implies => 1,
        Infix::Equal
        | Infix::Unequal
        | Infix::Less
        | Infix::AtMost
        | Infix::Greater
        | Infix::AtLeast => 0,
        Infix::Or => { if level == 2 { chain + 1 } else { 1 } }
        Infix::And => { if level == 3 { chain + 1 } else { 1 } }
        Infix::Plus | Infix::Minus => { if level == 6 { chain + 1 } else { 1 } }
        Infix::Times | Infix::Div | Infix::Mod => { if level == 7 { chain + 1 } else { 1 } }
    }
}

fn extended(goal: u8, op: Infix, operand: Operand) -> Result<Option<State>, AllocError>
    requires { nest (has_of operand) ≤ 512 }
    ensures { IfOk result (λ o. o ≡ extended goal op (has_of operand)) }
{
    let Operand {
        part,
        level,
        chain,
        mut stack,
    } = operand;
    if !fits(left_of(op), level) {
        return Ok(None);
    }
    if hole(goal, &stack) > level_of(op) {
        return Ok(None);
    }
    stack.push(Frame::Infix(op, part, adds(op, level, chain)))?;
    Ok(Some(State::Wants(stack)))
}

// Whether a head takes a last term behind so many.
fn takes(head: &Head, before: usize) -> bool
    ensures { result ≡ takes head.now before }
{
    match head {
        Head::Put => before == 2,
        Head::Named(_) => true,
    }
}

// Whether one more term than so many may follow.
fn expects(head: &Head, before: usize) -> bool
    ensures { result ≡ expects head.now before }
{
    match head {
        Head::Put => before < 2,
        Head::Named(_) => true,
    }
}

fn called(
    alloc: Global,
    head: Head,
    terms: Items<Term>,
    part: Part,
    stack: Frames,
) -> Result<Option<State>, AllocError>
    ensures { IfOk result (λ o. o ≡ closed_frame part 0 (frames.Call head terms) stack) }
{
    if !takes(&head, terms.len()) {
        return Ok(None);
    }
    let level = head_level(&head);
    let part = applied(alloc, head, terms, part)?;
    Ok(Some(State::Has(part, level, 0, stack)))
}

fn closed(alloc: Global, operand: Operand) -> Result<Option<State>, AllocError>
    ensures { IfOk result (λ o. o ≡ closed (has_of operand)) }
{
    let Operand {
        part,
        level,
        chain: _,
        mut stack,
    } = operand;
    let Some(frame) = stack.pop() else {
        return Ok(None);
    };
    match frame {
        Frame::Group(_) => Ok(Some(State::Has(part, shut(level), 0, stack))),
        Frame::Call(head, terms) => called(alloc, head, terms, part, stack),
        Frame::Prefix(_) => Ok(None),
        Frame::Infix(_, _, _) => Ok(None),
        Frame::Index(_, _) => Ok(None),
    }
}

fn indexed(alloc: Global, operand: Operand) -> Result<Option<State>, AllocError>
    ensures { IfOk result (λ o. o ≡ indexed (has_of operand)) }
{
    let Operand {
        part,
        level: _,
        chain: _,
        mut stack,
    } = operand;
    let Some(frame) = stack.pop() else {
        return Ok(None);
    };
    match frame {
        Frame::Index(array, chain) => {
            let part = read_at(alloc, array, part)?;
            Ok(Some(State::Has(part, 9, chain, stack)))
        }
        Frame::Group(_) => Ok(None),
        Frame::Call(_, _) => Ok(None),
        Frame::Prefix(_) => Ok(None),
        Frame::Infix(_, _, _) => Ok(None),
    }
}

fn one_more(
    alloc: Global,
    head: Head,
    mut terms: Items<Term>,
    part: Part,
    mut stack: Frames,
) -> Result<Option<State>, AllocError>
    requires { stack_nest stack ≤ 512 }
    ensures { IfOk result (λ o. o ≡ listed_frame part (frames.Call head terms) stack) }
{
    if !expects(&head, terms.len()) {
        return Ok(None);
    }
    let term = as_term(alloc, part)?;
    terms.push(term.into_inner())?;
    stack.push(Frame::Call(head, terms))?;
    Ok(Some(State::Wants(stack)))
}

#[tactic(auto, using(crate::proofs::Endings::nest_below))]
fn listed(alloc: Global, operand: Operand) -> Result<Option<State>, AllocError>
    requires { nest (has_of operand) ≤ 512 }
    ensures { IfOk result (λ o. o ≡ listed (has_of operand)) }
{
    let Operand {
        part,
        level: _,
        chain: _,
        mut stack,
    } = operand;
    let Some(frame) = stack.pop() else {
        return Ok(None);
    };
    match frame {
        Frame::Call(head, terms) => one_more(alloc, head, terms, part, stack),
        Frame::Group(_) => Ok(None),
        Frame::Index(_, _) => Ok(None),
        Frame::Prefix(_) => Ok(None),
        Frame::Infix(_, _, _) => Ok(None),
    }
}

#[tactic(auto, unfolding(crate::specs::Steps::go_on_shut))]
fn operator(
    alloc: Global,
    goal: u8,
    operand: Operand,
    op: Infix,
) -> Result<Option<State>, AllocError>
    requires { nest (has_of operand) ≤ 512 }
    ensures { IfOk result (λ o. o ≡ go_on_shut goal operand.part operand.level operand.chain operand.stack (tokens.Infix op)) }
{
    match ended(alloc, left_of(op), operand)? {
        Some(operand) => extended(goal, op, operand),
        None => Ok(None),
    }
}

#[tactic(auto, unfolding(crate::specs::Steps::close_shut))]
fn close(alloc: Global, operand: Operand) -> Result<Option<State>, AllocError>
    requires { nest (has_of operand) ≤ 512 }
    ensures { IfOk result (λ o. o ≡ close_shut operand.part operand.level operand.chain operand.stack) }
{
    match ended(alloc, 1, operand)? {
        Some(operand) => closed(alloc, operand),
        None => Ok(None),
    }
}

#[tactic(auto, unfolding(crate::specs::Steps::close_square_shut))]
fn close_square(alloc: Global, operand: Operand) -> Result<Option<State>, AllocError>
    requires { nest (has_of operand) ≤ 512 }
    ensures { IfOk result (λ o. o ≡ close_square_shut operand.part operand.level operand.chain operand.stack) }
{
    match ended(alloc, 1, operand)? {
        Some(operand) => indexed(alloc, operand),
        None => Ok(None),
    }
}

#[tactic(auto, unfolding(crate::specs::Steps::comma_shut))]
fn comma(alloc: Global, operand: Operand) -> Result<Option<State>, AllocError>
    requires { nest (has_of operand) ≤ 512 }
    ensures { IfOk result (λ o. o ≡ comma_shut operand.part operand.level operand.chain operand.stack) }
{
    match ended(alloc, 1, operand)? {
        Some(operand) => listed(alloc, operand),
        None => Ok(None),
    }
}

#[tactic(auto, unfolding(crate::specs::Steps::open_square_shut))]
fn open_square(operand: Operand) -> Result<Option<State>, AllocError>
    requires { nest (has_of operand) ≤ 512 }
    ensures { IfOk result (λ o. o ≡ open_square_shut operand.part operand.level operand.chain operand.stack) }
{
    let Operand {
        part,
        level,
        chain,
        mut stack,
    } = operand;
    if !fits(9, level) {
        return Ok(None);
    }
    stack.push(Frame::Index(part, chain + 1))?;
    Ok(Some(State::Wants(stack)))
}

/// The state behind a token where an operand was read.
#[tactic(auto, using(crate::proofs::Refusals::goes))]
pub fn go_on(
    alloc: Global,
    goal: u8,
    operand: Operand,
    token: Token,
) -> Result<Option<State>, AllocError>
    requires { nest (has_of operand) ≤ 512 }
    ensures { IfOk result (λ o. o ≡ go_on_shut goal operand.part operand.level operand.chain operand.stack token) }
{
    match token {
        Token::Infix(op) => operator(alloc, goal, operand, op),
        Token::Close => close(alloc, operand),
        Token::CloseSquare => close_square(alloc, operand),
        Token::Comma => comma(alloc, operand),
        Token::OpenSquare => open_square(operand),
        Token::Number(_) => Ok(None),
        Token::Word(_) => Ok(None),
        Token::Initial(_) => Ok(None),
        Token::Place(_) => Ok(None),
        Token::Truth(_) => Ok(None),
        Token::Not => Ok(None),
        Token::Quantifier(_) => Ok(None),
        Token::Int => Ok(None),
        Token::Array => Ok(None),
        Token::Put => Ok(None),
        Token::Open => Ok(None),
        Token::Colon => Ok(None),
        Token::Dot => Ok(None),
    }
}
