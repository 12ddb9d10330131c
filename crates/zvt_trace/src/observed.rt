//! Devices with an observer.
ghost use Rattle.std.specs.Prelude.{◌≡◌, true, false};
ghost use Rattle.zvt_io.specs.Devices.{CountsFailure, Reads, Writes};
ghost use Rattle.zvt_trace.specs.Observing.{ObservesRead, ObservesWrite};

use crate::direction::Direction;
use crate::observer::Observer;
use zvt_io::{Failed, GhostCount, Sink, Source};

/// A device whose bytes an observer sees: each write, and each read that returns bytes.
///
/// If the observer misses a chunk, the device is no longer used: a write fails before it reaches the device, and so
/// does every read after the current one.
#[derive(Drop)]
pub struct Observed<D, K> {
    pub device: D,
    pub observer: K,
    /// The side that sends the bytes.
    pub from: Direction,
    /// Whether the observer has missed a chunk.
    pub broken: bool,
    refused: GhostCount,
}

impl<D, K> Observed<D, K> {
    /// Gives the device an observer. Its bytes come from this side.
    pub fn new(from: Direction, device: D, observer: K) -> Observed<D, K>
        ensures device { result.device ≡ device }
        ensures observer { result.observer ≡ observer }
        ensures from { result.from ≡ from }
        ensures whole { result.broken ≡ false }
    {
        Observed {
            device,
            observer,
            from,
            broken: false,
            refused: GhostCount::zero(),
        }
    }
}

impl<R: Source, K: Observer> Source for Observed<R, K> {
    ghost use Rattle.std.specs.Prelude.{◌+◌};

    ghost remaining = { λ observed. R.remaining observed.device };

    ghost failures = { λ observed. R.failures observed.device + observed.refused.count };

    ghost reads = { λ observed. R.reads observed.device + observed.refused.count };

    fn read(&mut self, buffer: &mut [u8]) -> Result<usize, Failed>
        ensures bytes { Reads (R.remaining self.old.device) (R.remaining self.new.device) result buffer.new }
        ensures failures { CountsFailure (R.failures self.old.device + self.old.refused.count)
            (R.failures self.new.device + self.new.refused.count) result }
        ensures counted { R.reads self.new.device + self.new.refused.count ≡ R.reads self.old.device +
            self.old.refused.count + 1 }
        ensures observed { ObservesRead K.observes K.misses self.old.from self.old.broken self.new.broken
            self.old.observer self.new.observer result buffer.new }
        ensures unmade { self.old.broken ≡ true → self.new.device ≡ self.old.device }
        ensures from { self.new.from ≡ self.old.from }
    {
        if self.broken {
            self.refused = self.refused.next();
            return Err(Failed);
        }
        let count = self.device.read(buffer)?;
        if count > 0 {
            let seen = self.observer.observe(self.from, &buffer[..count]);
            self.broken = seen.is_err();
        }
        Ok(count)
    }
}

impl<W: Sink, K: Observer> Sink for Observed<W, K> {
    ghost use Rattle.std.specs.Prelude.{◌+◌};

    ghost written = { λ observed. W.written observed.device };

    ghost failures = { λ observed. W.failures observed.device + observed.refused.count };

    fn write_all(&mut self, bytes: &[u8]) -> Result<(), Failed>
        ensures bytes { Writes (W.written self.old.device) (W.written self.new.device) result bytes.now }
        ensures failures { CountsFailure (W.failures self.old.device + self.old.refused.count)
            (W.failures self.new.device + self.new.refused.count) result }
        ensures observed { ObservesWrite K.observes K.misses self.old.from self.old.broken self.new.broken
            self.old.observer self.new.observer result bytes.now }
        ensures unmade { self.new.broken ≡ true → self.new.device ≡ self.old.device }
        ensures from { self.new.from ≡ self.old.from }
    {
        if self.broken {
            self.refused = self.refused.next();
            return Err(Failed);
        }
        if self.observer.observe(self.from, bytes).is_err() {
            self.broken = true;
            self.refused = self.refused.next();
            return Err(Failed);
        }
        self.device.write_all(bytes)
    }
}
