//! Ends the operators that bind tighter than what follows.

ghost use Rattle.std.specs.Prelude.{◌≡◌, ◌≤◌, ◌+◌, ℕ, IfOk, IfSome, option_map};
ghost use Rattle.rw_syntax.specs.Machine.{ended, hole, top_level, nest, has_of};

use crate::frames::Frames;
use crate::state::Operand;
use crate::{build, table};
use std::alloc::{AllocError, Global};

/// The level that is wanted behind the frames.
pub fn hole(goal: u8, stack: &Frames) -> u8
    ensures { result ≡ hole goal stack.now }
{
    match stack.top() {
        Some(frame) => table::frame_hole(frame),
        None => goal,
    }
}

fn top_level(stack: &Frames) -> u8
    ensures { result ≡ top_level stack.now }
{
    match stack.top() {
        Some(frame) => table::frame_level(frame),
        None => 0,
    }
}

/// Ends the frames whose level is at least `bound`. `None` where an operand does not fit the frame that it stands in.
#[tactic(auto, using(crate::proofs::Endings::ended_top, crate::proofs::Endings::ended_mismatch, crate::proofs::Endings::ended_stops, crate::proofs::Endings::not_empty, crate::proofs::Endings::nest_falls))]
pub fn ended(alloc: Global, bound: u8, operand: Operand) -> Result<Option<Operand>, AllocError>
    requires least { 1 ≤ bound }
    requires within { nest (has_of operand) ≤ 512 }
    ensures state { IfOk result (λ o. option_map has_of o ≡ ended bound operand.part operand.level operand.chain operand.stack) }
    ensures within { IfOk result (λ o. IfSome o (λ s. nest (has_of s) ≤ 512)) }
{
    let Operand {
        mut part,
        mut level,
        mut chain,
        mut stack,
    } = operand;
    'frames: while top_level(&stack) >= bound {
        let Some(frame) = stack.pop() else {
            return Ok(None);
        };
        if !table::fits(table::frame_hole(&frame), level) {
            return Ok(None);
        }
        level = table::frame_level(&frame);
        chain = table::frame_chain(&frame);
        part = build::made(alloc, frame, part)?;
    }
    Ok(Some(Operand {
        part,
        level,
        chain,
        stack,
    }))
}
