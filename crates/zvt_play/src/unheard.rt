//! Bytes that were read before the messages in them are awaited.
ghost use Rattle.std.specs.Prelude.{◌≡◌, ◌≤◌, ◌<◌, [], length, drop, MatchResult, slice_range};
ghost use Rattle.std.specs.Io.KnownBytes.{Consumes, IsAtEnd, Keeps};
ghost use Rattle.zvt_io.specs.Devices.{CountsFailure};

use zvt_io::{Failed, Source};

/// The most bytes of one read.
const CHUNK: usize = 1_024;

/// Bytes that were read but not processed yet.
#[derive(Drop)]
pub(crate) struct Unheard {
    chunk: [u8; CHUNK],
    from: usize,
    to: usize,
    ghost ordered: { from ≤ to },
    ghost within: { to ≤ 1024 },
}

impl Unheard {
    ghost use Rattle.zvt_play.specs.Unheard.{unheard_in};

    /// Creates an empty buffer.
    pub(crate) fn new() -> Unheard
        ensures { unheard_in result ≡ [] }
    {
        Unheard {
            chunk: [0; CHUNK],
            from: 0,
            to: 0,
        }
    }

    /// Returns the bytes.
    pub(crate) fn bytes(&self) -> &[u8]
        ensures { result.now ≡ unheard_in self.now }
    {
        &self.chunk[self.from..self.to]
    }

    /// Returns the number of bytes.
    pub(crate) fn len(&self) -> usize
        ensures { result ≡ length (unheard_in self.now) }
    {
        self.to - self.from
    }

    /// Removes the first bytes.
    pub(crate) fn drop_first(&mut self, count: usize)
        requires { count ≤ length (unheard_in self.old) }
        ensures { unheard_in self.new ≡ drop count (unheard_in self.old) }
    {
        self.from += count;
    }

    /// Removes all bytes.
    pub(crate) fn clear(&mut self)
        ensures { unheard_in self.new ≡ [] }
    {
        self.from = self.to;
    }

    /// Replaces the bytes by one read and returns their number: 0 at the end.
    pub(crate) fn refill<R: Source>(&mut self, reader: &mut R) -> Result<usize, Failed>
        ensures read { MatchResult result
            (λ count. Consumes (R.remaining reader.old) (R.remaining reader.new) (unheard_in self.new)
            × (length (unheard_in self.new) ≡ count) × (count ≡ 0 → IsAtEnd (R.remaining reader.new)))
            (λ _. Keeps (R.remaining reader.old) (R.remaining reader.new) × (unheard_in self.new ≡ [])) }
        ensures failures { CountsFailure (R.failures reader.old) (R.failures reader.new) result }
    {
        self.from = 0;
        self.to = 0;
        let count = reader.read(&mut self.chunk)?;
        self.to = count;
        Ok(count)
    }
}
