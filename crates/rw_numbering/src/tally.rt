//! How many loops stand in a program and in each part of it. Where a count passes 64 bits, there is no memory either.

ghost use Rattle.std.specs.Prelude.{◌≡◌, ◌+◌, [], ◌∷◌, IfOk, IfSome};
ghost use Rattle.rw_numbering.specs.Tallies.{total, joined, tally_of, arm_tallies};

use rw_items::Items;
use rw_programs::prog::{Arm, Prog};
use std::alloc::{AllocError, Global};

/// How many loops stand in a program, and the same of its parts in order: of the two of a sequence, of each guarded body, of the body
/// of a block.
#[derive(Drop)]
pub struct Tally {
    pub loops: u64,
    pub parts: Items<Tally>,
}

// These and all the loops of the parts.
fn total(own: u64, parts: &[Tally]) -> Option<u64>
    ensures { IfSome result (λ n. n ≡ own + total parts.now) }
{
    let mut sum = own;
    for part in parts {
        match sum.checked_add(part.loops) {
            Some(more) => sum = more,
            None => return None,
        }
    }
    Some(sum)
}

// The tally of what has so many loops of its own beside its parts.
fn joined(own: u64, parts: Items<Tally>) -> Result<Tally, AllocError>
    ensures { IfOk result (λ t. t ≡ joined own parts) }
{
    match total(own, parts.as_slice()) {
        Some(loops) => Ok(Tally { loops, parts }),
        None => Err(AllocError),
    }
}

fn joined_two(alloc: Global, first: Tally, second: Tally) -> Result<Tally, AllocError>
    ensures { IfOk result (λ t. t ≡ joined 0 (first ∷ second ∷ [])) }
{
    let mut parts = Items::new(alloc);
    parts.push(first)?;
    parts.push(second)?;
    joined(0, parts)
}

fn around(alloc: Global, body: Tally) -> Result<Tally, AllocError>
    ensures { IfOk result (λ t. t ≡ joined 0 (body ∷ [])) }
{
    let mut parts = Items::new(alloc);
    parts.push(body)?;
    joined(0, parts)
}

/// The tally of a program.
#[cycle(tally_of)]
pub fn tally_of(alloc: Global, prog: &Prog) -> Result<Tally, AllocError>
    ensures { IfOk result (λ t. t ≡ tally_of prog.now) }
{
    match prog {
        Prog::Spec(_) | Prog::Kid(_) | Prog::Skip => joined(0, Items::new(alloc)),
        Prog::Assign(_, _) | Prog::Call(_, _, _) => joined(0, Items::new(alloc)),
        Prog::OpCall(_, _, _, _) => joined(0, Items::new(alloc)),
        Prog::Seq(first, second) => {
            let left = tally_of(alloc, first.get())?;
            let right = tally_of(alloc, second.get())?;
            joined_two(alloc, left, right)
        }
        Prog::If(arms) => joined(0, arm_tallies(alloc, arms.as_slice())?),
        Prog::Do(_, arms) => joined(1, arm_tallies(alloc, arms.as_slice())?),
        Prog::Block(_, _, body) => around(alloc, tally_of(alloc, body.get())?),
        Prog::Con(_, body) => around(alloc, tally_of(alloc, body.get())?),
        Prog::ModBlock(_, body) => around(alloc, tally_of(alloc, body.get())?),
    }
}

#[cycle(tally_of)]
fn arm_tallies(alloc: Global, arms: &[Arm]) -> Result<Items<Tally>, AllocError>
    ensures { IfOk result (λ ts. ts ≡ arm_tallies arms.now) }
{
    let mut tallies = Items::new(alloc);
    for arm in arms {
        tallies.push(tally_of(alloc, &arm.body)?)?;
    }
    Ok(tallies)
}
