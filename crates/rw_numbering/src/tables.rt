//! The loops of all bodies of collected code, counted once. They are numbered from 0 by the text: those of main, of the procedures, of
//! the modules, each module's start before its operations.

ghost use Rattle.std.specs.Prelude.{◌≡◌, ◌+◌, IfOk, OnOk};
ghost use Rattle.rw_numbering.specs.Loops.{loops, bodies_loops, module_loops, modules_loops};
ghost use Rattle.rw_numbering.specs.Tables.{body_tally, bodies_from, module_from, modules_from, code_tally};

use crate::tally::{Tally, tally_of};
use rw_items::Items;
use rw_programs::prog::{Code, ModCode, ProcCode, Prog};
use std::alloc::{AllocError, Global};

/// The number of the first loop in a body, and its tally.
#[derive(Drop)]
pub struct BodyTally {
    pub first: u64,
    pub tally: Tally,
}

/// The loops of a module.
#[derive(Drop)]
pub struct ModuleTally {
    pub start: BodyTally,
    pub operations: Items<BodyTally>,
}

/// The loops of collected code, and how many there are.
#[derive(Drop)]
pub struct CodeTally {
    pub main: Tally,
    pub procs: Items<BodyTally>,
    pub modules: Items<ModuleTally>,
    pub loops: u64,
}

// The loops of a body, the first of which gets the number `next`.
fn number_body(alloc: Global, next: &mut u64, prog: &Prog) -> Result<BodyTally, AllocError>
    ensures body { IfOk result (λ b. b ≡ body_tally next.old prog.now) }
    ensures next { OnOk result (next.new ≡ next.old + loops prog.now) }
{
    let first = *next;
    let tally = tally_of(alloc, prog)?;
    match first.checked_add(tally.loops) {
        Some(behind) => {
            *next = behind;
            Ok(BodyTally { first, tally })
        }
        None => Err(AllocError),
    }
}

fn number_bodies(
    alloc: Global,
    next: &mut u64,
    procs: &[ProcCode],
) -> Result<Items<BodyTally>, AllocError>
    ensures bodies { IfOk result (λ bs. bs ≡ bodies_from next.old procs.now) }
    ensures next { OnOk result (next.new ≡ next.old + bodies_loops procs.now) }
{
    let mut bodies = Items::new(alloc);
    for entry in procs {
        bodies.push(number_body(alloc, next, &entry.body)?)?;
    }
    Ok(bodies)
}

fn number_module(alloc: Global, next: &mut u64, owner: &ModCode) -> Result<ModuleTally, AllocError>
    ensures body { IfOk result (λ d. d ≡ module_from next.old owner.now) }
    ensures next { OnOk result (next.new ≡ next.old + module_loops owner.now) }
{
    let start = number_body(alloc, next, &owner.start)?;
    let operations = number_bodies(alloc, next, owner.operations.as_slice())?;
    Ok(ModuleTally { start, operations })
}

fn number_modules(
    alloc: Global,
    next: &mut u64,
    modules: &[ModCode],
) -> Result<Items<ModuleTally>, AllocError>
    ensures bodies { IfOk result (λ ds. ds ≡ modules_from next.old modules.now) }
    ensures next { OnOk result (next.new ≡ next.old + modules_loops modules.now) }
{
    let mut tallies = Items::new(alloc);
    for owner in modules {
        tallies.push(number_module(alloc, next, owner)?)?;
    }
    Ok(tallies)
}

/// Counts the loops of collected code. It wants memory too where they are more than 64 bits can count.
pub fn number(alloc: Global, code: &Code) -> Result<CodeTally, AllocError>
    ensures { IfOk result (λ t. t ≡ code_tally code.now) }
{
    let main = tally_of(alloc, &code.main)?;
    let mut next = main.loops;
    let procs = number_bodies(alloc, &mut next, code.procs.as_slice())?;
    let modules = number_modules(alloc, &mut next, code.modules.as_slice())?;
    Ok(CodeTally {
        main,
        procs,
        modules,
        loops: next,
    })
}
