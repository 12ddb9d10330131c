//! A line that is tapped, from its start to its end.
ghost use Rattle.std.specs.Prelude.{◌≡◌, ◌+◌, ◌++◌, ◌∷◌, [], codes, ℕ, Bool, List, Option};
ghost use Rattle.zvt_grammar.specs.Reading.{Reading};
ghost use Rattle.zvt_tap.specs.Chunks.{sides};
ghost use Rattle.zvt_tap.specs.Log.{FoundStopped, HasFound, HasObserved, ended_trace};
ghost use Rattle.zvt_tap.specs.Relay.{AnswersRelay, CountsFaults, Waits};
ghost use Rattle.zvt_tap.specs.Traced.{FailsOnlyIf, failures_by, traced_by};

use crate::fault::TapFault;
use crate::log::{Found, TapLog, end_log};
use crate::relay::{Ends, Readiness, run_relay};
use std::alloc::Global;
use zvt_io::{Sink, Source};

/// How a tapped line ended, and what the log found.
#[derive(Drop)]
pub struct Tapped<T, O> {
    pub ended: Result<(), TapFault>,
    pub found: Found<T, O>,
}

/// Forwards bytes from each side of a line to the other, until both sides have ended or a fault ends the line. Then
/// writes the last line `!` to the trace. The output has the text that `show` prints for the trace, and its audit.
///
/// [`run_relay`](crate::run_relay) says what the faults leave.
pub fn tap_line<L: Readiness, R: Source, W: Sink, T: Sink + Drop, O: Sink + Drop>(
    alloc: Global,
    line: &mut L,
    ends: &mut Ends<R, W>,
    log: TapLog<T, O>,
) -> Tapped<T, O>
    ensures tapped { (r : Reading) (reads_on : Bool) (first held : Option (List ℕ))
        → HasObserved T.written O.written r reads_on [] first held log.recorder log.watcher → AnswersRelay
        (λ chunks. HasFound r reads_on (ended_trace chunks) first held result.found.tracing.failed
        (traced_by T.written result.found.tracing.trace) (O.written result.found.output) result.found.shown
        result.found.audited)
        (FoundStopped (λ trace. HasFound r reads_on trace first held result.found.tracing.failed
        (traced_by T.written result.found.tracing.trace) (O.written result.found.output) result.found.shown
        result.found.audited) result.found.tracing.failed)
        (sides (R.remaining ends.old.till) (R.remaining ends.old.terminal) (W.written ends.old.to_terminal)
        (W.written ends.old.to_till))
        (sides (R.remaining ends.new.till) (R.remaining ends.new.terminal) (W.written ends.new.to_terminal)
        (W.written ends.new.to_till)) result.ended }
    ensures faults { CountsFaults (R.failures ends.old.till + R.failures ends.old.terminal)
        (R.failures ends.new.till + R.failures ends.new.terminal)
        (W.failures ends.old.to_terminal + W.failures ends.old.to_till)
        (W.failures ends.new.to_terminal + W.failures ends.new.to_till) result.ended }
    ensures failed { FailsOnlyIf log.recorder.failed result.found.tracing.failed
        (failures_by T.failures log.recorder.trace) (failures_by T.failures result.found.tracing.trace) }
    ensures waits { Waits (L.waits line.new) (L.failures line.old) (L.failures line.new) result.ended }
{
    let mut log = log;
    let ended = run_relay(line, ends, &mut log);
    Tapped {
        ended,
        found: end_log(alloc, log),
    }
}
