//! Checking arithmetic lines.

ghost use Rattle.std.specs.Prelude.{◌≡◌, ◌+◌, ◌<◌, ◌⊎◌, length, None, Some, IfOk, IfErr, OnOk, MatchResult};
ghost use Rattle.rw_arith.specs.Lines.{line_expansion, made_by, all_made, is_contradiction, refutes, lines_fault, Counted, Refuted};

use crate::error::LinError;
use crate::line::LinLine;
use crate::lines::{expand_line, numbered};
use crate::poly::{Expansion, Summand, is_product};
use rw_items::Items;
use rw_steps::Steps;
use rw_terms::term::Formula;
use std::alloc::Global;
use std::sync::ledger::Ledger;

/// Whether the lines refute that all left formulas are true and all right ones false; and else the first line that is
/// none, or that the last one is no contradiction. One step is counted for each line that is checked, the failing one
/// among them.
pub fn check_lines<L: Ledger>(
    alloc: Global,
    left: &[Formula],
    right: &[Formula],
    lines: &[LinLine],
    steps: &mut Steps<L>,
) -> Result<(), LinError>
    requires { length lines.now < 4294967295 }
    ensures verdict { MatchResult result (λ _. lines_fault left.now right.now lines.now ≡ None) (λ e. (e ≡ LinError.Memory) ⊎ (lines_fault left.now right.now lines.now ≡ Some e)) }
    ensures refuted { OnOk result (Refuted left.now right.now) }
    ensures cost { MatchResult result (λ _. steps.new ≡ steps.old + length lines.now) (λ e. Counted (length lines.now) (lines_fault left.now right.now lines.now) steps.old steps.new e) }
{
    let mut made = Items::new(alloc);
    let mut number = 0;
    for line in lines {
        steps.tick();
        number += 1;
        make(alloc, left, right, &mut made, number, line)?;
    }
    if refutes(made.as_slice(), number) {
        Ok(())
    } else {
        Err(LinError::NotContradiction(number))
    }
}

// Puts the polynomial of the line of this number behind those of the lines before it.
fn make(
    alloc: Global,
    left: &[Formula],
    right: &[Formula],
    made: &mut Items<Items<Summand>>,
    number: u32,
    line: &LinLine,
) -> Result<(), LinError>
    ensures { MatchResult result (λ _. made_by number made.old (line_expansion left.now right.now made.old line.now) ≡ Ok made.new) (λ e. (e ≡ LinError.Memory) ⊎ (made_by number made.old (line_expansion left.now right.now made.old line.now) ≡ Err e)) }
{
    match expand_line(alloc, left, right, made.as_slice(), line)? {
        Expansion::Polynomial(summands) => {
            made.push(summands)?;
            Ok(())
        }
        Expansion::Unfit => Err(LinError::BadLine(number)),
        Expansion::Wide => Err(LinError::Wide(number)),
    }
}

// Whether the last line, of this number, is a contradiction.
fn refutes(made: &[Items<Summand>], last: u32) -> bool
    requires { last ≡ length made.now }
    ensures { result ≡ refutes made.now }
{
    match numbered(made, last) {
        Some(summands) => is_contradiction(summands.as_slice()),
        None => false,
    }
}

// Whether it is a negative constant.
fn is_contradiction(summands: &[Summand]) -> bool
    ensures { result ≡ is_contradiction summands.now }
{
    if summands.len() != 1 {
        return false;
    }
    !is_product(&summands[0]) && summands[0].times < 0
}
