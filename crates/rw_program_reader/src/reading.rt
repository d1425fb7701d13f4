//! Reads programs.

ghost use Rattle.std.specs.Prelude.{◌≡◌, ℕ, ◌<◌, ◌^◌, ◌⊎◌, length, IfOk, IfErr, Ok, Err};
ghost use Rattle.rw_programs.specs.declared.prog.Prog.{Prog};
ghost use Rattle.rw_program_reader.specs.Reading.{ProgramSpells, IsProgramFault};
ghost use Rattle.rw_forms.specs.declared.request.ReadError.TheVariants as read_error;

use crate::program::program;
use rw_forms::request::ReadError;
use rw_forms::taking::end;
use rw_programs::prog::Prog;
use rw_tokens::token::skip;
use std::alloc::Global;

/// The bound on the nest.
const MOST: u64 = 512;

/// Reads a text as a program, where its tokens spell that program; else the fault is told, where its tokens cannot go on.
/// A program that they spell is always read, but for want of memory.
/// A text has fewer than 2^32 bytes, since an offset is a `u32`. It calls itself no deeper than the
/// nest, which is at most 512.
pub fn read_program(alloc: Global, text: &[u8]) -> Result<Prog, ReadError>
    requires { length text.now < 2 ^ 32 }
    ensures ok { IfOk result (λ p. ProgramSpells text.now p) }
    ensures err { IfErr result (λ e. (e ≡ read_error.Memory) ⊎ ((o : ℕ) × (e ≡ read_error.Syntax o) × IsProgramFault text.now o)) }
    ensures spelled { (p : Prog) → ProgramSpells text.now p → (result ≡ Ok p) ⊎ (result ≡ Err read_error.Memory) }
{
    let mut at = skip(text, 0);
    let program = program(alloc, MOST, text, &mut at)?;
    end(text, at)?;
    Ok(program.into_inner())
}
