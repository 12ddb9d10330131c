//! Devices over std's readers and writers.
ghost use Rattle.std.specs.Prelude.{◌≡◌};
ghost use Rattle.zvt_io.specs.Counts.{reads_of, failures_of};
ghost use Rattle.zvt_io.specs.Devices.{Reads, Writes, CountsFailure};

use crate::count::GhostCount;
use crate::device::{Failed, Sink, Source};
use std::io::{Read, Write};

/// A reader or a writer of std, with its counts. A call that a signal interrupts counts as failed.
#[derive(Drop)]
pub struct Over<T> {
    pub inner: T,
    calls: GhostCount,
    failed: GhostCount,
}

impl<T> Over<T> {
    /// Makes a device of a reader or a writer. Its counts are zero.
    pub fn new(inner: T) -> Over<T>
        ensures inner { result.inner ≡ inner }
        ensures reads { reads_of result ≡ 0 }
        ensures failures { failures_of result ≡ 0 }
    {
        Over {
            inner,
            calls: GhostCount::zero(),
            failed: GhostCount::zero(),
        }
    }
}

impl<R: Read> Source for Over<R> {
    ghost remaining = { λ over. R.remaining over.inner };

    ghost failures = { λ over. failures_of over };

    ghost reads = { λ over. reads_of over };

    fn read(&mut self, buffer: &mut [u8]) -> Result<usize, Failed> {
        self.calls = self.calls.next();
        match self.inner.read(buffer) {
            Ok(count) => Ok(count),
            Err(_) => {
                self.failed = self.failed.next();
                Err(Failed)
            }
        }
    }
}

impl<W: Write> Sink for Over<W> {
    ghost written = { λ over. W.contents over.inner };

    ghost failures = { λ over. failures_of over };

    // std's `write_all` doesn't say what a failed write has written, so each write is made here.
    fn write_all(&mut self, bytes: &[u8]) -> Result<(), Failed> {
        let mut rest = bytes;
        'writes: while !rest.is_empty() {
            match self.inner.write(rest) {
                Ok(count) if count > 0 => rest = &rest[count..],
                _ => {
                    self.failed = self.failed.next();
                    return Err(Failed);
                }
            }
        }
        Ok(())
    }
}
