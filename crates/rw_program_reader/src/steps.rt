//! The steps that use a procedure or a module.

ghost use Rattle.std.specs.Prelude.{◌≡◌, ℕ, ◌<◌, ◌^◌, ◌⊎◌, length, IfOk, IfErr, Ok, Err};
ghost use Rattle.rw_program_reader.specs.Steps.{call_step, called, module_step, operated, CallStepSpells, IsCallStepFault, ModuleStepSpells, IsModuleStepFault};
ghost use Rattle.rw_forms.specs.Progress.{IsPlace, Took};
ghost use Rattle.rw_forms.specs.declared.request.ReadError.TheVariants as read_error;
ghost use Rattle.rw_heads.specs.declared.step.CallStep.{CallStep};
ghost use Rattle.rw_heads.specs.declared.step.ModStep.{ModStep};

use crate::plain::passed;
use rw_forms::request::ReadError;
use rw_forms::taking::{accept, any_name, end, expect};
use rw_heads::step::{CallStep, ModStep};
use rw_tokens::token::skip;
use std::alloc::Global;

/// Reads a text as a call step, `call P(1; x)`. Its tokens spell that step; else the fault is told, where its tokens
/// cannot go on. A text has fewer than 2^32 bytes, since an offset is a `u32`.
pub fn read_call_step(alloc: Global, text: &[u8]) -> Result<CallStep, ReadError>
    requires { length text.now < 2 ^ 32 }
    ensures ok { IfOk result (λ s. CallStepSpells text.now s) }
    ensures err { IfErr result (λ e. (e ≡ read_error.Memory) ⊎ ((o : ℕ) × (e ≡ read_error.Syntax o) × IsCallStepFault text.now o)) }
    ensures spelled { (s : CallStep) → CallStepSpells text.now s → (result ≡ Ok s) ⊎ (result ≡ Err read_error.Memory) }
{
    let mut at = skip(text, 0);
    let step = call_step(alloc, text, &mut at)?;
    end(text, at)?;
    Ok(step)
}

/// Reads a text as a step of a module, `module M` or `op M.o(1; x)`. Its tokens spell that step; else the fault is told,
/// where its tokens cannot go on. A text has fewer than 2^32 bytes, since an offset is a `u32`.
pub fn read_module_step(alloc: Global, text: &[u8]) -> Result<ModStep, ReadError>
    requires { length text.now < 2 ^ 32 }
    ensures ok { IfOk result (λ s. ModuleStepSpells text.now s) }
    ensures err { IfErr result (λ e. (e ≡ read_error.Memory) ⊎ ((o : ℕ) × (e ≡ read_error.Syntax o) × IsModuleStepFault text.now o)) }
    ensures spelled { (s : ModStep) → ModuleStepSpells text.now s → (result ≡ Ok s) ⊎ (result ≡ Err read_error.Memory) }
{
    let mut at = skip(text, 0);
    let step = module_step(alloc, text, &mut at)?;
    end(text, at)?;
    Ok(step)
}

/// Reads a call step.
pub fn call_step(alloc: Global, line: &[u8], at: &mut usize) -> Result<CallStep, ReadError>
    requires { IsPlace line.now at.old }
    ensures { Took call_step line.now at.old at.new result }
{
    expect(line, at, b"call")?;
    called(alloc, line, at)
}

// `NAME` and what is passed
fn called(alloc: Global, line: &[u8], at: &mut usize) -> Result<CallStep, ReadError>
    requires { IsPlace line.now at.old }
    ensures { Took called line.now at.old at.new result }
{
    let name = any_name(line, at)?;
    let (args, results) = passed(alloc, 512, line, at)?;
    Ok(CallStep {
        name,
        args,
        results,
    })
}

/// Reads a step of a module.
pub fn module_step(alloc: Global, line: &[u8], at: &mut usize) -> Result<ModStep, ReadError>
    requires { IsPlace line.now at.old }
    ensures { Took module_step line.now at.old at.new result }
{
    if accept(line, at, b"module") {
        let home = any_name(line, at)?;
        return Ok(ModStep::Open(home));
    }
    expect(line, at, b"op")?;
    operated(alloc, line, at)
}

// `NAME . NAME` and what is passed
fn operated(alloc: Global, line: &[u8], at: &mut usize) -> Result<ModStep, ReadError>
    requires { IsPlace line.now at.old }
    ensures { Took operated line.now at.old at.new result }
{
    let home = any_name(line, at)?;
    expect(line, at, b".")?;
    let name = any_name(line, at)?;
    let (args, results) = passed(alloc, 512, line, at)?;
    Ok(ModStep::Op(home, name, args, results))
}
