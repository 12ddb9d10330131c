//! Readers and writers with models for contracts.
ghost use Rattle.std.specs.Prelude.{◌≡◌, ℕ, ◌+◌, List, Option};
ghost use Rattle.zvt_io.specs.Devices.{Reads, Writes, CountsFailure};

use std::fmt;

/// A read or a write failed. The device has counted it.
#[derive(Clone, Copy, Debug, PartialEq, Eq)]
pub struct Failed;

impl fmt::Display for Failed {
    ghost use Rattle.std.specs.Prelude.{Some, codes};

    ghost output = { λ _. Some (codes "a read or a write failed") };

    fn fmt<W: fmt::Write>(&self, f: &mut fmt::Formatter<W>) -> fmt::Result {
        f.write_str("a read or a write failed")
    }
}

/// A source of bytes.
pub trait Source {
    /// The bytes that are still to come, where they are known.
    ghost remaining: { Self → Option (List ℕ) };

    /// How many reads have failed.
    ghost failures: { Self → ℕ };

    /// How many reads were made, failed ones included.
    ghost reads: { Self → ℕ };

    /// Reads into the start of the buffer and returns the number of bytes: 0 at the end, or if the buffer is empty. A
    /// failed read takes no byte. The rest of the buffer may hold anything afterwards, and after a failed read the
    /// whole buffer may.
    fn read(&mut self, buffer: &mut [u8]) -> Result<usize, Failed>
        ensures bytes { Reads (remaining self.old) (remaining self.new) result buffer.new }
        ensures failures { CountsFailure (failures self.old) (failures self.new) result }
        ensures counted { reads self.new ≡ reads self.old + 1 };
}

/// A destination for bytes.
pub trait Sink {
    /// The bytes that were written, where they are known.
    ghost written: { Self → Option (List ℕ) };

    /// How many writes have failed.
    ghost failures: { Self → ℕ };

    /// Writes all the bytes. A failed write has written a prefix of them.
    fn write_all(&mut self, bytes: &[u8]) -> Result<(), Failed>
        ensures bytes { Writes (written self.old) (written self.new) result bytes.now }
        ensures failures { CountsFailure (failures self.old) (failures self.new) result };
}
