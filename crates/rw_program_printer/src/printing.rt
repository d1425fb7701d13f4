//! Prints programs and steps as texts.

ghost use Rattle.std.specs.Prelude.{◌≡◌, IfOk};
ghost use Rattle.rw_program_printer.specs.Layout.{prog_text};
ghost use Rattle.rw_program_printer.specs.ReadsBack.{ProgramReadsBack};
ghost use Rattle.rw_program_printer.specs.Steps.{basic_text, loop_text, call_text, module_text};
ghost use Rattle.rw_program_printer.specs.StepsReadBack.{BasicReadsBack, LoopReadsBack, CallReadsBack, ModuleReadsBack};

use crate::programs::push_program;
use crate::steps::{push_basic_step, push_call_step, push_loop_step, push_module_step};
use rw_heads::step::{CallStep, ModStep};
use rw_laws::step::BasicStep;
use rw_loops::step::LoopStep;
use rw_programs::prog::Prog;
use rw_terms::text::Text;
use std::alloc::{AllocError, Global};

/// The text of a program, `x := 1 ; skip`, which reads back as it. A kid, which no text spells, is `kid` and its number.
pub fn print_program(alloc: Global, prog: &Prog) -> Result<Text, AllocError>
    ensures text { IfOk result (λ text. text ≡ prog_text prog.now) }
    ensures reads_back { IfOk result (λ text. ProgramReadsBack text prog.now) }
{
    let mut text = Text::new(alloc);
    push_program(&mut text, prog)?;
    Ok(text)
}

/// The text of a step by a basic law, `assign x := 1`, which reads back as it.
pub fn print_basic_step(alloc: Global, step: &BasicStep) -> Result<Text, AllocError>
    ensures text { IfOk result (λ text. text ≡ basic_text step.now) }
    ensures reads_back { IfOk result (λ text. BasicReadsBack text step.now) }
{
    let mut text = Text::new(alloc);
    push_basic_step(&mut text, step)?;
    Ok(text)
}

/// The text of a step to an alternation, a loop or a local block, `block x : int`, which reads back as it.
pub fn print_loop_step(alloc: Global, step: &LoopStep) -> Result<Text, AllocError>
    ensures text { IfOk result (λ text. text ≡ loop_text step.now) }
    ensures reads_back { IfOk result (λ text. LoopReadsBack text step.now) }
{
    let mut text = Text::new(alloc);
    push_loop_step(&mut text, step)?;
    Ok(text)
}

/// The text of a call of a procedure, `call P(1; x)`, which reads back as it.
pub fn print_call_step(alloc: Global, step: &CallStep) -> Result<Text, AllocError>
    ensures text { IfOk result (λ text. text ≡ call_text step.now) }
    ensures reads_back { IfOk result (λ text. CallReadsBack text step.now) }
{
    let mut text = Text::new(alloc);
    push_call_step(&mut text, step)?;
    Ok(text)
}

/// The text of a step of a module, `module M` or `op M.o(1; x)`, which reads back as it.
pub fn print_module_step(alloc: Global, step: &ModStep) -> Result<Text, AllocError>
    ensures text { IfOk result (λ text. text ≡ module_text step.now) }
    ensures reads_back { IfOk result (λ text. ModuleReadsBack text step.now) }
{
    let mut text = Text::new(alloc);
    push_module_step(&mut text, step)?;
    Ok(text)
}
