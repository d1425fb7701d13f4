// A script from its first byte to its end.
ghost use Rattle.std.specs.Prelude.{◌≡◌, ◌<◌, [], length, OnOk, IfOk, IsErrOf};
ghost use Rattle.std.specs.Io.{ReadsAtMost};
ghost use Rattle.std.specs.Io.KnownBytes.{IsAtEnd, ReadConsumes};
ghost use Rattle.rw_io.specs.Causes.{Rose, HasCause};
ghost use Rattle.rw_top.specs.Batch.{Moves, AnswersAll, Cuts, AnswersWhole, AnswersFirst, AnswersShort};

use crate::batch::Batch;
use crate::stop::Stop;
use rw_io::{Failed, Sink, Source};
use rw_steps::Steps;
use std::alloc::Global;
use std::sync::ledger::{Blank, Ledger};

const READ_BYTES: usize = 65_536;

// Reads the next bytes, for which the program may wait: nothing is pending then.
fn read<I: Source>(batch: &Batch, input: &mut I, into: &mut [u8]) -> Result<usize, Failed>
    requires sent { batch.now.pending.items ≡ [] }
    requires some { 0 < length into.old }
    ensures bound { ReadsAtMost result into.new }
    ensures bytes { ReadConsumes (I.left input.old) (I.left input.new) result into.new }
    ensures cause { HasCause (I.read_faults input.old) (I.read_faults input.new) result }
{
    input.read(into)
}

/// Answers the lines of the input on the output, and says whether one was refused. Replies are written out before each
/// read, so that who types lines sees them answered.
pub fn run<L: Ledger, I: Source, O: Sink>(
    alloc: Global,
    blank: Blank,
    input: &mut I,
    output: &mut O,
) -> Result<bool, Stop>
    requires name { blank.name ≡ L.name }
    requires parts { blank.parts ≡ L.parts }
    requires some { 0 < L.parts }
    ensures ended { IfOk result
        (λ refused. Moves (I.left input.old) (I.left input.new) (O.held output.old) (O.held output.new) (AnswersAll refused)) }
    ensures end { OnOk result (IsAtEnd (I.left input.new)) }
    ensures reads_kept { OnOk result (I.read_faults input.new ≡ I.read_faults input.old) }
    ensures writes_kept { OnOk result (O.write_faults output.new ≡ O.write_faults output.old) }
    ensures read { IsErrOf result Stop.ReadFault
        → Moves (I.left input.old) (I.left input.new) (O.held output.old) (O.held output.new) AnswersWhole }
    ensures read_cause { IsErrOf result Stop.ReadFault
        → Rose (I.read_faults input.old) (I.read_faults input.new) }
    ensures write { IsErrOf result Stop.WriteFault
        → Cuts (I.left input.old) (I.left input.new) (O.held output.old) (O.held output.new) }
    ensures write_cause { IsErrOf result Stop.WriteFault
        → Rose (O.write_faults output.old) (O.write_faults output.new) }
    ensures memory { IsErrOf result Stop.Memory
        → Moves (I.left input.old) (I.left input.new) (O.held output.old) (O.held output.new) AnswersFirst }
    ensures limit { IsErrOf result Stop.LineLimit
        → Moves (I.left input.old) (I.left input.new) (O.held output.old) (O.held output.new) AnswersShort }
{
    let mut steps = Steps::<L>::new(blank);
    let mut batch = Batch::new(alloc);
    let mut buffer = [0; READ_BYTES];
    'reads: loop {
        batch.flush(output)?;
        let count = match read(&batch, input, &mut buffer) {
            Ok(count) => count,
            Err(_) => return Err(Stop::ReadFault),
        };
        if count == 0 {
            break;
        }
        batch.feed(&buffer[..count], &mut steps, output)?;
    }
    batch.finish(&mut steps, output)?;
    Ok(batch.refused)
}
