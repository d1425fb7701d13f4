// The top call.
ghost use Rattle.std.specs.Prelude.{◌≡◌, ◌≤◌, ◌↔◌, ◌⊎◌, ℕ, List, false, true, IsTrue, IsSomeAnd};
ghost use Rattle.rw_project.specs.Lines.{lines_of};
ghost use Rattle.rw_project.specs.Headline.{Headline};
ghost use Rattle.std.specs.Io.KnownBytes.{IsAtEnd};
ghost use Rattle.rw_io.specs.Causes.{Rose};
ghost use Rattle.rw_top.specs.Batch.{AsksBatch, Moves, Fits, AnswersAll, Cuts, AnswersWhole, AnswersFirst, AnswersShort};

use crate::run::run;
use crate::stop::Stop;
use rw_io::{Disk, Doors, Sink, Source};
use std::alloc::Global;
use std::marker::Brand;
use std::sync::ledger::Blank;

// Whether the words are `batch` alone.
fn asks_batch(words: &Vec<String>) -> bool
    ensures { IsTrue result ↔ AsksBatch words.now.items }
{
    match words.as_slice() {
        [word] => word.as_str() == "batch",
        _ => false,
    }
}

/// Does what the words ask for, and answers the status.
pub fn top<I: Source, O: Sink, D: Disk, N: Doors>(
    alloc: Global,
    words: &Vec<String>,
    input: &mut I,
    output: &mut O,
    disk: &mut D,
    doors: &mut N,
) -> u8
    requires { N.opened doors.old ≡ false }

    // Wrong words, exactly; then nothing is read or written.
    ensures words { (result ≡ 2) ↔ (AsksBatch words.now.items → ⊥) }
    ensures wrong_words { result ≡ 2 → (input.new ≡ input.old) × (output.new ≡ output.old) }

    // A batch leaves the disk and the doors alone.
    ensures others { (disk.new ≡ disk.old) × (doors.new ≡ doors.old) }
    ensures statuses { (result ≤ 4) ⊎ ((result ≡ 6) ⊎ (result ≡ 7)) }

    // The end of input: all lines are answered, nothing failed, and 0 says that no reply is a refusal.
    ensures accepted { result ≡ 0
        → Moves (I.left input.old) (I.left input.new) (O.held output.old) (O.held output.new) (AnswersAll false) }
    ensures refused { result ≡ 1
        → Moves (I.left input.old) (I.left input.new) (O.held output.old) (O.held output.new) (AnswersAll true) }
    ensures end { result ≤ 1 → IsAtEnd (I.left input.new) }
    ensures no_fault { result ≤ 1
        → (I.read_faults input.new ≡ I.read_faults input.old) × (O.write_faults output.new ≡ O.write_faults output.old) }

    // A read fault, after the lines that LF ended.
    ensures read { result ≡ 3
        → Moves (I.left input.old) (I.left input.new) (O.held output.old) (O.held output.new) AnswersWhole }
    ensures read_cause { result ≡ 3 → Rose (I.read_faults input.old) (I.read_faults input.new) }

    // A write fault, somewhere in the session of first lines that LF ended, or, at the end of input, of all lines. They fit.
    ensures write { result ≡ 4
        → Cuts (I.left input.old) (I.left input.new) (O.held output.old) (O.held output.new) }
    ensures write_cause { result ≡ 4 → Rose (O.write_faults output.old) (O.write_faults output.new) }

    // Want of memory, after some first lines, which fit.
    ensures memory { result ≡ 6
        → Moves (I.left input.old) (I.left input.new) (O.held output.old) (O.held output.new) AnswersFirst }

    // A line that is too long, or line 1,000,001; those before it were answered.
    ensures limit { result ≡ 7
        → Moves (I.left input.old) (I.left input.new) (O.held output.old) (O.held output.new) AnswersShort }

    // Without faults and with lines that fit, all of them are answered, unless memory is wanting.
    ensures complete { AsksBatch words.now.items
        → (Rose (I.read_faults input.old) (I.read_faults input.new) → ⊥)
        → (Rose (O.write_faults output.old) (O.write_faults output.new) → ⊥)
        → IsSomeAnd (I.left input.old) (λ all. Fits (lines_of all))
        → (result ≤ 1) ⊎ (result ≡ 6) }

    // Without faults and with lines that do not fit, that is found, unless memory is wanting.
    ensures overlong { AsksBatch words.now.items
        → (Rose (I.read_faults input.old) (I.read_faults input.new) → ⊥)
        → (Rose (O.write_faults output.old) (O.write_faults output.new) → ⊥)
        → IsSomeAnd (I.left input.old) (λ all. Fits (lines_of all) → ⊥)
        → (result ≡ 6) ⊎ (result ≡ 7) }

    // The headline, of whatever lines are answered: each status is that of checking the live edits anew, the derivation is shown
    // closed exactly where it is, and then the collected program refines its root.
    ensures headline { (lines : List (List ℕ)) → Headline lines }
{
    if !asks_batch(words) {
        return 2;
    }
    match run::<Brand, I, O>(alloc, Blank::new(1), input, output) {
        Ok(false) => 0,
        Ok(true) => 1,
        Err(Stop::ReadFault) => 3,
        Err(Stop::WriteFault) => 4,
        Err(Stop::Memory) => 6,
        Err(Stop::LineLimit) => 7,
    }
}
