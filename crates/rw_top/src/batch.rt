// The lines of a script, byte by byte.
ghost use Rattle.std.specs.Prelude.{◌≡◌, ◌<◌, ◌≤◌, ◌+◌, ◌⊎◌, ◌∷◌, ◌++◌, [], ℕ, List, Option, length, take, false, vec_len, Contains, OnOk, OnErr, IfOk, IfErr, IsErrOf};
ghost use Rattle.std.specs.Io.KnownBytes.{Appends};
ghost use Rattle.rw_io.specs.Causes.{Rose, HasCause};
ghost use Rattle.rw_project.specs.Session.{no_history};

use crate::output::write_all;
use crate::replies::answer_line;
use crate::stop::Stop;
use rw_io::{Failed, Sink};
use rw_project::Project;
use rw_steps::Steps;
use std::alloc::Global;
use std::sync::ledger::Ledger;

const MOST_LINES: u32 = 1_000_000;

const MOST_BYTES: usize = 65_536;

/// Replies are written out once this many bytes of them are pending.
const MOST_PENDING: usize = 65_536;

/// A script that is being read, and the bytes of replies that are still to be written.
#[derive(Drop)]
pub struct Batch {
    pub alloc: Global,
    pub project: Project,
    pub line: Vec<u8>,
    pub lines: u32,
    pub refused: bool,
    pub pending: Vec<u8>,
    ghost short: { vec_len line ≤ 65536 },
    ghost one_line: { Contains line.items 10 → ⊥ },
}

impl Batch {
    ghost use Rattle.rw_top.specs.Batch.{StandsAt, Overruns, bytes_to_come, AnswersAll, AnswersFront, AnswersPart, AnswersFirst, AnswersShort, Adds, AddsPending};

    pub fn new(alloc: Global) -> Self
        ensures project { result.project ≡ no_history }
        ensures line { result.line.items ≡ [] }
        ensures lines { result.lines ≡ 0 }
        ensures refused { result.refused ≡ false }
        ensures pending { result.pending.items ≡ [] }
    {
        Batch {
            alloc,
            project: Project::new(alloc),
            line: Vec::new(alloc),
            lines: 0,
            refused: false,
            pending: Vec::new(alloc),
        }
    }

    /// Writes out what is pending.
    pub fn flush<O: Sink>(&mut self, output: &mut O) -> Result<(), Failed>
        ensures ok { OnOk result (Appends (O.held output.old) (O.held output.new) self.old.pending.items) }
        ensures sent { OnOk result (self.new.pending.items ≡ []) }
        ensures stands { (start : Option (List ℕ)) (seen : List ℕ) → StandsAt start (O.held output.old) seen self.old
            → OnOk result (StandsAt start (O.held output.new) seen self.new) }
        ensures others { OnOk result (self.new ≡ record self.old { pending = self.new.pending }) }
        ensures err { OnErr result
            ((n : ℕ) × Appends (O.held output.old) (O.held output.new) (take n self.old.pending.items)) }
        ensures cause { HasCause (O.write_faults output.old) (O.write_faults output.new) result }
    {
        write_all(output, &self.pending)?;
        self.pending.clear();
        Ok(())
    }

    // Writes out what is pending, once it is much.
    fn flush_if_full<O: Sink>(&mut self, output: &mut O) -> Result<(), Failed>
        ensures stands { (start : Option (List ℕ)) (seen : List ℕ) → StandsAt start (O.held output.old) seen self.old
            → OnOk result (StandsAt start (O.held output.new) seen self.new) }
        ensures little { OnOk result (vec_len self.new.pending < 65536) }
        ensures room { OnOk result
            (bytes_to_come self.new.line.items self.new.lines ≡ bytes_to_come self.old.line.items self.old.lines) }
        ensures err { OnErr result
            ((n : ℕ) × Appends (O.held output.old) (O.held output.new) (take n self.old.pending.items)) }
        ensures cause { HasCause (O.write_faults output.old) (O.write_faults output.new) result }
    {
        if self.pending.len() < MOST_PENDING {
            return Ok(());
        }
        self.flush(output)?;
        Ok(())
    }

    /// Takes the next byte, and answers the line that it ends. After an error nothing more is pending than before.
    pub fn take<L: Ledger>(&mut self, byte: u8, steps: &mut Steps<L>) -> Result<(), Stop>
        ensures ok { (start held : Option (List ℕ)) (seen : List ℕ) → StandsAt start held seen self.old
            → OnOk result (StandsAt start held (seen ++ byte ∷ []) self.new) }
        ensures room { OnOk result
            (bytes_to_come self.new.line.items self.new.lines + 1 ≤ bytes_to_come self.old.line.items self.old.lines) }
        ensures pending { OnErr result (self.new.pending.items ≡ self.old.pending.items) }
        ensures overruns { (start held : Option (List ℕ)) (seen : List ℕ) → StandsAt start held seen self.old
            → IsErrOf result Stop.LineLimit → Overruns seen byte }
        ensures errors { IfErr result (λ stop. (stop ≡ Stop.Memory) ⊎ (stop ≡ Stop.LineLimit)) }
    {
        if self.lines >= MOST_LINES {
            return Err(Stop::LineLimit);
        }
        if byte == b'\n' {
            let refused = answer_line(
                self.alloc,
                &mut self.project,
                &self.line,
                steps,
                &mut self.pending,
            )?;
            self.refused = self.refused || refused;
            self.line.clear();
            self.lines += 1;
            return Ok(());
        }
        if self.line.len() >= MOST_BYTES {
            return Err(Stop::LineLimit);
        }
        self.line.push(byte)?;
        Ok(())
    }

    /// Takes these bytes, and answers the lines that they end. Where it stops, what was pending is written out first.
    pub fn feed<L: Ledger, O: Sink>(
        &mut self,
        bytes: &[u8],
        steps: &mut Steps<L>,
        output: &mut O,
    ) -> Result<(), Stop>
        requires { length bytes.now ≤ 65536 }
        ensures ok { (start : Option (List ℕ)) (seen : List ℕ) → StandsAt start (O.held output.old) seen self.old
            → OnOk result (StandsAt start (O.held output.new) (seen ++ bytes.now) self.new) }
        ensures room { OnOk result
            (bytes_to_come self.new.line.items self.new.lines + length bytes.now ≤ bytes_to_come self.old.line.items self.old.lines) }
        ensures memory { (start : Option (List ℕ)) (seen : List ℕ) → StandsAt start (O.held output.old) seen self.old
            → IsErrOf result Stop.Memory → Adds start (O.held output.new) (AnswersFirst (seen ++ bytes.now)) }
        ensures limit { (start : Option (List ℕ)) (seen : List ℕ) → StandsAt start (O.held output.old) seen self.old
            → IsErrOf result Stop.LineLimit → Adds start (O.held output.new) (AnswersShort (seen ++ bytes.now)) }
        ensures part { (start : Option (List ℕ)) (seen : List ℕ) → StandsAt start (O.held output.old) seen self.old
            → IsErrOf result Stop.WriteFault → Adds start (O.held output.new) (AnswersFront (seen ++ bytes.now)) }
        ensures fault { IsErrOf result Stop.WriteFault
            → Rose (O.write_faults output.old) (O.write_faults output.new) }
        ensures no_read { IsErrOf result Stop.ReadFault → ⊥ }
        ensures later { O.write_faults output.old ≤ O.write_faults output.new }
        ensures kept { OnOk result (O.write_faults output.new ≡ O.write_faults output.old) }
    {
        for byte in bytes {
            if let Err(stop) = self.take(*byte, steps) {
                self.flush(output)?;
                return Err(stop);
            }
            self.flush_if_full(output)?;
        }
        Ok(())
    }

    // Answers a last line that lacks its LF.
    fn finish_line<L: Ledger>(&mut self, steps: &mut Steps<L>) -> Result<(), Stop>
        ensures ok { (start held : Option (List ℕ)) (seen : List ℕ) → StandsAt start held seen self.old
            → OnOk result (AddsPending start held self.new.pending.items (AnswersAll self.new.refused seen)) }
        ensures pending { OnErr result (self.new.pending.items ≡ self.old.pending.items) }
        ensures errors { IfErr result (λ stop. stop ≡ Stop.Memory) }
    {
        if self.line.is_empty() {
            return Ok(());
        }
        let refused = answer_line(
            self.alloc,
            &mut self.project,
            &self.line,
            steps,
            &mut self.pending,
        )?;
        self.refused = self.refused || refused;
        Ok(())
    }

    /// Answers a last line that lacks its LF, and writes out what is pending, also where it stops.
    pub fn finish<L: Ledger, O: Sink>(
        &mut self,
        steps: &mut Steps<L>,
        output: &mut O,
    ) -> Result<(), Stop>
        ensures ok { (start : Option (List ℕ)) (seen : List ℕ) → StandsAt start (O.held output.old) seen self.old
            → OnOk result (Adds start (O.held output.new) (AnswersAll self.new.refused seen)) }
        ensures memory { (start : Option (List ℕ)) (seen : List ℕ) → StandsAt start (O.held output.old) seen self.old
            → IsErrOf result Stop.Memory → Adds start (O.held output.new) (AnswersFirst seen) }
        ensures part { (start : Option (List ℕ)) (seen : List ℕ) → StandsAt start (O.held output.old) seen self.old
            → IsErrOf result Stop.WriteFault → Adds start (O.held output.new) (AnswersPart seen) }
        ensures fault { IsErrOf result Stop.WriteFault
            → Rose (O.write_faults output.old) (O.write_faults output.new) }
        ensures errors { IfErr result (λ stop. (stop ≡ Stop.Memory) ⊎ (stop ≡ Stop.WriteFault)) }
        ensures later { O.write_faults output.old ≤ O.write_faults output.new }
        ensures kept { OnOk result (O.write_faults output.new ≡ O.write_faults output.old) }
    {
        if let Err(stop) = self.finish_line(steps) {
            self.flush(output)?;
            return Err(stop);
        }
        self.flush(output)?;
        Ok(())
    }
}
