// All scripts of an input, each behind its heading.
ghost use Rattle.std.specs.Prelude.{◌≡◌, ◌≤◌, length, IfOk};
ghost use Rattle.std.specs.Io.KnownBytes.{Consumes, IsAtEnd};

use crate::answers::row;
use crate::headings::{line_end, next_heading};
use crate::stop::Stop;
use rw_io::{Sink, Source};
use std::alloc::Global;

const READ_BYTES: usize = 65_536;

/// The most bytes that the scripts may have together.
const MOST_BYTES: usize = 67_108_864;

// All bytes of the input.
fn read_all<I: Source>(alloc: Global, input: &mut I) -> Result<Vec<u8>, Stop>
    ensures bytes { IfOk result (λ bytes. Consumes (I.left input.old) (I.left input.new) bytes.items) }
    ensures end { IfOk result (λ _. IsAtEnd (I.left input.new)) }
{
    let mut bytes = Vec::new(alloc);
    let mut buffer = [0; READ_BYTES];
    'reads: while bytes.len() <= MOST_BYTES {
        let count = match input.read(&mut buffer) {
            Ok(count) => count,
            Err(_) => return Err(Stop::ReadFault),
        };
        if count == 0 {
            return Ok(bytes);
        }
        bytes.extend_from_slice(&buffer[..count])?;
    }
    Err(Stop::TooLong)
}

// Answers the scripts, one after the other.
fn answer_all<O: Sink>(alloc: Global, bytes: &[u8], output: &mut O) -> Result<(), Stop> {
    let mut at = next_heading(bytes, 0);
    while at < bytes.len() {
        let begin = line_end(bytes, at);
        let end = next_heading(bytes, begin);
        row(alloc, &bytes[at..begin], &bytes[begin..end], output)?;
        at = end;
    }
    Ok(())
}

/// Reads all scripts, and answers each of them on the output.
pub fn rows<I: Source, O: Sink>(alloc: Global, input: &mut I, output: &mut O) -> Result<(), Stop> {
    let bytes = read_all(alloc, input)?;
    answer_all(alloc, &bytes, output)
}
