// A peer that gives one byte a read, and tells nothing.
ghost use Rattle.std.specs.Prelude.{◌≡◌, None, refl};

use rw_io::{Failed, Peer, Sink, Source};

#[derive(Drop)]
pub(crate) struct Trickle<'a> {
    bytes: &'a [u8],
    at: usize,
}

impl<'a> Trickle<'a> {
    pub(crate) fn new(bytes: &'a [u8]) -> Trickle<'a> {
        Trickle { bytes, at: 0 }
    }
}

impl<'a> Source for Trickle<'a> {
    ghost left = { λ s. None };

    ghost taken = { λ s. None };

    ghost read_faults = { λ s. 0 };

    ghost read_keeps = { λ s. (None, 0) };

    fn read(&mut self, into: &mut [u8]) -> Result<usize, Failed> {
        if self.at < self.bytes.len() {
            into[0] = self.bytes[self.at];
            self.at += 1;
            Ok(1)
        } else {
            Ok(0)
        }
    }
}

impl<'a> Sink for Trickle<'a> {
    ghost held = { λ s. None };

    ghost write_faults = { λ s. 0 };

    ghost write_keeps = { λ s. ((None, None), 0) };

    fn write(&mut self, bytes: &[u8]) -> Result<usize, Failed> {
        Ok(bytes.len())
    }
}

impl<'a> Peer for Trickle<'a> {
    ghost peer_faults = { λ peer. 0 };

    ghost counts_both = { λ peer. refl };

    ghost read_keeps_sink = { λ peer. refl };

    ghost write_keeps_source = { λ peer. refl };
}
