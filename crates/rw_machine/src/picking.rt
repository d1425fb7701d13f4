//! The choice among guards.

ghost use Rattle.std.specs.Prelude.{◌≡◌, ◌+◌, ◌≤◌, IfOk};
ghost use Rattle.rw_machine.specs.Kept.{pick_of, picked_of};
ghost use Rattle.rw_evaluation.specs.Stored.{map_of};
ghost use Rattle.rw_numbering.specs.Loops.{arms_loops};
ghost use Rattle.rw_numbering.specs.Tallies.{arm_tallies};

use rw_evaluation::evaluation::test;
use rw_evaluation::stop::Stop;
use rw_evaluation::store::Binding;
use rw_numbering::part::Part;
use rw_numbering::tally::Tally;
use rw_programs::prog::Arm;
use std::alloc::{AllocError, Global};

/// The program behind the first true guard, with the number of its first loop.
pub fn pick<'a>(
    alloc: Global,
    store: &[Binding],
    first: u64,
    arms: &'a [Arm],
    tallies: &'a [Tally],
) -> Result<Result<Option<(u64, Part<'a>)>, Stop>, AllocError>
    requires tallied { tallies.now ≡ arm_tallies arms.now }
    requires room { first + arms_loops arms.now ≤ u64.MAX }
    ensures { IfOk result (λ r. picked_of r ≡ pick_of first arms.now (map_of store.now)) }
{
    let mut number = first;
    for i in 0..arms.len() {
        let body = Part::new(&arms[i].body, &tallies[i]);
        match test(alloc, store, &arms[i].guard)? {
            Err(stop) => return Ok(Err(stop)),
            Ok(true) => return Ok(Ok(Some((number, body)))),
            Ok(false) => number += body.loops(),
        }
    }
    Ok(Ok(None))
}
