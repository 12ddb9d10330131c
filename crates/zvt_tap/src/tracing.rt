//! The trace of a line, which may fail.
ghost use Rattle.std.specs.Prelude.{◌≡◌, ◌++◌, ◌∷◌, [], codes, MatchResult};
ghost use Rattle.zvt_trace.specs.Lines.{piece_text};

use std::alloc::{AllocError, Global};
use zvt_io::Sink;
use zvt_trace::{Direction, ListenerError, Observer, TraceWriter, end_trace};

/// The trace of a line, where it has one. After a write that failed nothing more is written.
#[derive(Drop)]
pub struct Tracing<T> {
    pub trace: Option<TraceWriter<T>>,
    /// Whether a write failed.
    pub failed: bool,
    /// Whether a line ends where its trace can't be written.
    pub required: bool,
}

impl<T: Drop> Tracing<T> {
    ghost use Rattle.std.specs.Prelude.{IfOk};
    ghost use Rattle.zvt_tap.specs.Traced.{IsOn};

    /// The trace on this device, if there is one. `failed` says whether a write has failed before.
    pub fn new(
        alloc: Global,
        device: Option<T>,
        failed: bool,
        required: bool,
    ) -> Result<Tracing<T>, AllocError>
        ensures device { IfOk result (λ tracing. IsOn device tracing.trace) }
        ensures failed { IfOk result (λ tracing. tracing.failed ≡ failed) }
        ensures required { IfOk result (λ tracing. tracing.required ≡ required) }
    {
        let trace = match device {
            Some(device) => Some(TraceWriter::new(alloc, device)?),
            None => None,
        };
        Ok(Tracing {
            trace,
            failed,
            required,
        })
    }
}

impl<T: Sink> Tracing<T> {
    ghost use Rattle.zvt_tap.specs.Traced.{TracesOn};

    /// Writes the line of this chunk, unless a write failed before. The only error is `Memory`.
    fn write(&mut self, from: Direction, bytes: &[u8]) -> Result<(), ListenerError>
        ensures { MatchResult result (λ _. TracesOn T.written T.failures self.old (piece_text from bytes.now) self.new)
            (λ failure. (failure ≡ ListenerError.Memory) × TracesOn T.written T.failures self.old [] self.new) }
    {
        if self.failed {
            return Ok(());
        }
        match self.trace.observe(from, bytes) {
            Err(ListenerError::Write) => {
                self.failed = true;
                Ok(())
            }
            answer => answer,
        }
    }

    /// Writes that the line has ended, unless a write failed before.
    pub(crate) fn end(&mut self)
        ensures { TracesOn T.written T.failures self.old (codes "!" ++ 10 ∷ []) self.new }
    {
        if self.failed {
            return;
        }
        if let Some(writer) = &mut self.trace {
            self.failed = end_trace(&mut writer.device).is_err();
        }
    }
}

/// Misses a chunk where the line has to end.
impl<T: Sink> Observer for Tracing<T> {
    ghost use Rattle.zvt_tap.specs.Traced.{GoesOn, Stops};

    ghost observes = { λ old from bytes new. GoesOn T.written T.failures old (piece_text from bytes) new };

    ghost misses = { λ old from bytes failure new. Stops T.written T.failures old (piece_text from bytes) failure new };

    fn observe(&mut self, from: Direction, bytes: &[u8]) -> Result<(), ListenerError> {
        self.write(from, bytes)?;
        if self.failed && self.required {
            return Err(ListenerError::Write);
        }
        Ok(())
    }
}
