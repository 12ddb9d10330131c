//! The optional file of a trace.
ghost use Rattle.std.specs.Prelude.{◌≡◌, IfOk, is_some};
ghost use Rattle.zvt_runs.specs.Traced.{by_trace};

use crate::EndFault;
use crate::order_notes::Clocked;
use crate::tcp::options::RunTrace;
use std::alloc::{AllocError, Global};
use std::fs::File;
use std::rt::Clock;
use zvt_io::Over;
use zvt_trace::{Marking, TraceWriter};

/// The file of a trace, whose lines may have time marks.
type MarkedFile<'a, C> = Marking<Over<&'a File>, Option<Clocked<'a, C>>>;

/// A writer of a trace to its file, if there is one.
pub(crate) type FileTrace<'a, C> = Option<TraceWriter<MarkedFile<'a, C>>>;

/// Returns the file of this trace. The clock gives the times of the marks.
pub(crate) fn marked_file<'a, C: Clock>(
    clock: &'a C,
    alloc: Global,
    trace: RunTrace<'a>,
) -> MarkedFile<'a, C>
    ensures file { result.device.inner ≡ trace.entry.file }
    ensures marks { is_some result.source ≡ trace.entry.marks_times }
{
    let times = trace.marks_times.then_some(Clocked { clock });
    Marking::new(alloc, Over::new(trace.file), times)
}

/// Returns a writer of this trace to its file, if there is one.
pub(crate) fn file_trace<'a, C: Clock>(
    clock: &'a C,
    alloc: Global,
    trace: Option<RunTrace<'a>>,
) -> Result<FileTrace<'a, C>, AllocError>
    ensures { IfOk result (λ writer. is_some writer ≡ is_some trace.entry) }
{
    match trace {
        Some(trace) => Ok(Some(TraceWriter::new(alloc, marked_file(clock, alloc, trace))?)),
        None => Ok(None),
    }
}

/// Returns the result of a run, given whether its trace broke.
pub(crate) fn by_trace(broken: bool, answer: Result<(), EndFault>) -> Result<(), EndFault>
    ensures { result ≡ by_trace broken answer }
{
    match answer {
        Ok(()) | Err(EndFault::Unsuccessful | EndFault::Line(_)) if broken => Err(EndFault::Trace),
        answer => answer,
    }
}
