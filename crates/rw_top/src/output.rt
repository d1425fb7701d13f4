// Bytes on a sink.
ghost use Rattle.std.specs.Prelude.{◌≡◌, ◌≤◌, ℕ, OnOk, OnErr, take};
ghost use Rattle.std.specs.Io.KnownBytes.{Appends};
ghost use Rattle.rw_io.specs.Causes.{HasCause};

use rw_io::{Failed, Sink};

/// Writes all the bytes, or a front part of them.
pub fn write_all<O: Sink>(output: &mut O, bytes: &[u8]) -> Result<(), Failed>
    ensures ok { OnOk result (Appends (O.held output.old) (O.held output.new) bytes.now) }
    ensures err { OnErr result
        ((n : ℕ) × Appends (O.held output.old) (O.held output.new) (take n bytes.now)) }
    ensures cause { HasCause (O.write_faults output.old) (O.write_faults output.new) result }
{
    let mut done = 0;
    while done < bytes.len() {
        let count = output.write(&bytes[done..])?;
        done += count;
    }
    Ok(())
}
