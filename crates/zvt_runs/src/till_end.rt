//! The till's end of a connection to a terminal elsewhere.
ghost use Rattle.std.specs.Prelude.{◌≡◌, ◌<◌, Err};
ghost use Rattle.zvt_stream.specs.EndState.{end_state};
ghost use Rattle.zvt_stream.specs.StreamState.{start_by};
ghost use Rattle.zvt_runs.specs.Reporting.{ReportsNothing, ReportsRun};
ghost use Rattle.zvt_runs.specs.Runs.{noting};
ghost use Rattle.zvt_runs.specs.TillEnd.{AskedThere, BeginsThere, MakesThere};
ghost use Rattle.zvt_runs.specs.TillRuns.{AnswersPlan};

use crate::arguments::Step;
use crate::asking::{Asked, Before, Ended, wants_answer};
use crate::fault::EndFault;
use crate::order_notes::NoteSource;
use crate::plans::StepRun;
use crate::steps::StepLine;
use crate::till_runs::run_connected;
use std::alloc::Global;
use zvt_io::{Sink, Source};
use zvt_settle::{Asker, run_ask};
use zvt_stream::Endpoint;
use zvt_till::{RunFault, run_order};

/// The number of turns, of one read each, before an order or an ask is given up.
const READS_OF_AN_ORDER: u64 = 100_000;

/// The terminal elsewhere makes its own decision on each step.
impl<R: Source, W: Sink, K: Asker> StepLine<K> for Endpoint<R, W> {
    ghost use Rattle.zvt_stream.specs.EndState.{end_state};
    ghost use Rattle.zvt_runs.specs.TillEnd.{MakesThere};

    ghost makes = { λ old till step result new left. MakesThere K.orders K.hears K.is_resting K.failed K.till K.loses
        K.malforms K.asks K.settling
        (end_state old.stream (R.remaining old.reader) (W.written old.writer) (R.reads old.reader)
        (R.failures old.reader) (W.failures old.writer)) till step result
        (end_state new.stream (R.remaining new.reader) (W.written new.writer) (R.reads new.reader)
        (R.failures new.reader) (W.failures new.writer)) left };

    fn make(&mut self, alloc: Global, till: &mut K, step: &Step) -> Result<Ended, RunFault> {
        let Some(order) = step.order() else {
            return make_ask(alloc, self, till, step);
        };
        let outcome = run_order(
            alloc,
            &mut self.reader,
            &mut self.writer,
            &mut self.stream,
            till,
            order,
            READS_OF_AN_ORDER,
        )?;
        Ok(Ended::Order(outcome))
    }
}

/// Lets the till ask, if the answer can be of use to this step.
fn make_ask<R: Source, W: Sink, K: Asker>(
    alloc: Global,
    end: &mut Endpoint<R, W>,
    till: &mut K,
    step: &Step,
) -> Result<Ended, RunFault>
    ensures { AskedThere K.hears K.is_resting K.failed K.till K.loses K.malforms K.asks K.settling step.now
        (end_state end.old.stream (R.remaining end.old.reader) (W.written end.old.writer) (R.reads end.old.reader)
        (R.failures end.old.reader) (W.failures end.old.writer)) till.old result
        (end_state end.new.stream (R.remaining end.new.reader) (W.written end.new.writer) (R.reads end.new.reader)
        (R.failures end.new.reader) (W.failures end.new.writer)) till.new }
{
    if !wants_answer(step, till.settling()) {
        return Ok(Ended::Ask(Asked::Nothing));
    }
    let before = Before::of(till.settling());
    run_ask(
        alloc,
        &mut end.reader,
        &mut end.writer,
        &mut end.stream,
        till,
        READS_OF_AN_ORDER,
    )?;
    Ok(Ended::Ask(before.asked(till.settling())))
}

/// Runs the steps with a till, alone or with a book, over a fresh connection.
///
/// Each step writes a line when it ends, with its word and what it came to; the last line is the till's total,
/// including the entries that it had before. `Step::Settle` writes a line only if it settles an order. `steps` selects
/// the form of these lines. If the connection fails, the remaining steps are skipped and the result is `Line`. An order
/// or an ask that the till declines to send is reported in its line, and is a fault only if memory ran out. After
/// `Write` and `Memory` no step is repeated, and no step follows the one whose line is missing. Unless the book could
/// not be kept before the first step, `report` gets a line for each of the till's entries whose last reversal is
/// unclear, however the run ends.
///
/// A book contains the record of an order or ask, with the note that `notes` gives it, before its first byte is sent.
/// If the book cannot be kept, the remaining steps are skipped and the result is `Book`.
pub fn run_till_end<R: Source, W: Sink, K: Asker, T: Sink, E: Sink, N: NoteSource<K>>(
    alloc: Global,
    end: &mut Endpoint<R, W>,
    till: &mut K,
    notes: &N,
    steps: &StepRun<'_>,
    writer: &mut T,
    report: &mut E,
) -> Result<(), EndFault>
    requires { end.old.stream ≡ start_by end.old.stream.reading }
    ensures run { AnswersPlan K.connects K.failed K.till
        (noting N.noted (MakesThere K.orders K.hears K.is_resting K.failed K.till K.loses K.malforms K.asks K.settling))
        (BeginsThere end.old.stream.reading) steps.now.options steps.now.plan.now till.old till.new
        (T.written writer.old) (T.written writer.new)
        (ReportsRun (E.written report.old) (E.written report.new) (E.failures report.old) (E.failures report.new))
        (ReportsNothing (E.written report.old) (E.written report.new) (E.failures report.old)
        (E.failures report.new)) result }
    ensures write { result ≡ Err EndFault.Write → T.failures writer.old < T.failures writer.new }
{
    run_connected(alloc, end, till, notes, steps, writer, report)
}
