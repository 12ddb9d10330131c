//! The steps of a till on a new line, from connecting to the final report.
ghost use Rattle.std.specs.Prelude.{◌≡◌, ◌<◌, Err};
ghost use Rattle.zvt_runs.specs.Reporting.{ReportsNothing, ReportsRun};
ghost use Rattle.zvt_runs.specs.Runs.{noting};
ghost use Rattle.zvt_runs.specs.TillRuns.{AnswersPlan};

use crate::fault::{EndFault, by_book};
use crate::order_notes::NoteSource;
use crate::plans::StepRun;
use crate::reversals::report_reversals;
use crate::steps::{StepLine, run_steps};
use std::alloc::Global;
use zvt_io::Sink;
use zvt_till::Keeper;

/// Runs the steps on a new line.
///
/// Before the first step, a book contains the record that an earlier line was lost. If the book cannot be kept, then or
/// during a step, the remaining steps are skipped and the result is `Book`. [`run_steps`] describes the other results.
/// Unless the book could not be kept before the first step, `report` gets a line for each of the till's entries whose
/// last reversal is unclear, however the run ends.
pub(crate) fn run_connected<L: StepLine<K>, K: Keeper, T: Sink, E: Sink, N: NoteSource<K>>(
    alloc: Global,
    line: &mut L,
    till: &mut K,
    notes: &N,
    steps: &StepRun<'_>,
    writer: &mut T,
    report: &mut E,
) -> Result<(), EndFault>
    ensures run { AnswersPlan K.connects K.failed K.till (noting N.noted L.makes) (λ begun. begun ≡ line.old)
        steps.now.options steps.now.plan.now till.old till.new (T.written writer.old) (T.written writer.new)
        (ReportsRun (E.written report.old) (E.written report.new) (E.failures report.old) (E.failures report.new))
        (ReportsNothing (E.written report.old) (E.written report.new) (E.failures report.old)
        (E.failures report.new)) result }
    ensures write { result ≡ Err EndFault.Write → T.failures writer.old < T.failures writer.new }
{
    if let Err(_) = till.connect(alloc) {
        return Err(EndFault::Book);
    }
    let answer = run_steps(alloc, line, till, notes, steps, writer, report);
    report_reversals(till.look().book(), report);
    by_book(till.has_failed(), answer)
}
