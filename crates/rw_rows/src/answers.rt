// One script, and what the top call answers.
ghost use Rattle.std.specs.Prelude.{◌≡◌, ◌≤◌, ◌+◌, ◌++◌, ◌∷◌, [], Some, OnOk, IfOk, codes};
ghost use Rattle.std.specs.Io.KnownBytes.{Appends};
ghost use Rattle.rw_io.specs.Memory.{sink_bytes};
ghost use Rattle.rw_rows.specs.Rows.{IsOwed, IsRow, status_line};

use crate::headings::words_of;
use crate::stop::Stop;
use rw_io::{Failed, MemorySink, MemorySource, NoDisk, NoDoors, Sink};
use rw_top::{top, write_all};
use std::alloc::Global;

/// The most bytes that the replies of a script may have.
const MOST_REPLIES: u32 = 16_777_216;

/// How many reads and how many writes a script may take.
const MOST_CALLS: u32 = 4_294_967_295;

// The status of the top call over memory, which leaves the replies in the sink.
fn answer(
    alloc: Global,
    words: &Vec<String>,
    script: &[u8],
    replies: &mut MemorySink,
) -> Result<u8, Stop>
    requires { sink_bytes replies.old ≡ [] }
    ensures { IfOk result (λ status. (status ≤ 7) × IsOwed script.now status (sink_bytes replies.new)) }
{
    let mut input = MemorySource::new(alloc, script, MOST_CALLS, &[])?;
    Ok(top(
        alloc,
        words,
        &mut input,
        replies,
        &mut NoDisk::new(),
        &mut NoDoors::new(),
    ))
}

// The heading, the replies and the line with the status.
fn write_row<O: Sink>(
    output: &mut O,
    heading: &[u8],
    replies: &[u8],
    status: u8,
) -> Result<(), Failed>
    requires { status ≤ 7 }
    ensures { OnOk result (Appends (O.held output.old) (O.held output.new) (heading.now ++ replies.now ++ status_line status)) }
{
    write_all(output, heading)?;
    write_all(output, replies)?;
    write_all(output, b"-- status ")?;
    write_all(output, &[b'0' + status, b'\n'])?;
    Ok(())
}

/// Answers a script, and writes its heading, the replies and the status.
pub fn row<O: Sink>(
    alloc: Global,
    heading: &[u8],
    script: &[u8],
    output: &mut O,
) -> Result<(), Stop>
    ensures { OnOk result (IsRow heading.now script.now (O.held output.old) (O.held output.new)) }
{
    let words = words_of(alloc, heading)?;
    let mut replies = MemorySink::new(alloc, MOST_REPLIES, MOST_CALLS, &[])?;
    let status = answer(alloc, &words, script, &mut replies)?;
    write_row(output, heading, replies.written(), status)?;
    Ok(())
}
