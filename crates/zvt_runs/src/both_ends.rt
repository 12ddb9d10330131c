//! Both ends of a line, which take turns.
ghost use Rattle.std.specs.Prelude.{◌≡◌, ◌<◌, Err, MatchResult};
ghost use Rattle.zvt_runs.specs.BothEnds.{Alternates, BeginsHere, BreaksOff, MakesHere, RunsHere, ended_of};
ghost use Rattle.zvt_runs.specs.BothEnds.{here, line_of};
ghost use Rattle.zvt_runs.specs.Reporting.{ReportsNothing, ReportsRun};
ghost use Rattle.zvt_runs.specs.Runs.{noting};
ghost use Rattle.zvt_runs.specs.TillRuns.{AnswersPlan};

use crate::arguments::Step;
use crate::asking::{Asked, Ended};
use crate::fault::EndFault;
use crate::line_end::LineEnd;
use crate::order_notes::NoteSource;
use crate::plans::StepRun;
use crate::steps::StepLine;
use crate::till_runs::run_connected;
use std::alloc::Global;
use zvt_io::Sink;
use zvt_stream::LineFault;
use zvt_term::{Served, Verdict};
use zvt_till::{BookFault, Keeper, Order, Outcome, RunFault, Till};

/// The number of turns of each end before an order is given up.
const ALTERNATIONS: u64 = 1_000;

/// Both ends of a line, and the decisions of the terminal. The ends take turns, the terminal first.
#[derive(Drop)]
pub struct BothEnds<A, B> {
    pub till: A,
    pub terminal: B,
    pub served: Served,
}

impl<A: LineEnd, B: LineEnd> BothEnds<A, B> {
    /// Makes a turn of the terminal, and then one of the till. Reports a fault of either to the till.
    fn alternate<K: Keeper>(&mut self, alloc: Global, till: &mut K) -> Result<(), LineFault>
        ensures { MatchResult result
            (λ _. Alternates K.orders K.hears K.is_resting K.failed K.till K.loses K.malforms
            (here A.state B.state self.old till.old) (here A.state B.state self.new till.new))
            (λ fault. BreaksOff K.orders K.hears K.is_resting K.failed K.till K.loses K.malforms fault
            (here A.state B.state self.old till.old) (here A.state B.state self.new till.new)) }
    {
        if let Err(fault) = self.terminal.turn(alloc, &mut self.served) {
            till.lost();
            return Err(fault);
        }
        self.till.turn(alloc, till)
    }

    /// Gives the till an order, and lets the ends take turns until it has ended. Returns the outcome of the order.
    fn run_order<K: Keeper>(
        &mut self,
        alloc: Global,
        till: &mut K,
        order: Order,
        verdict: Verdict,
    ) -> Result<Outcome, RunFault>
        ensures { RunsHere K.orders K.hears K.is_resting K.failed K.till K.loses K.malforms
            (line_of A.state B.state self.old) till.old order verdict result (line_of A.state B.state self.new)
            till.new }
    {
        self.served.decide(verdict);
        if let Err(fault) = self.till.order(alloc, till, order) {
            return Err(fault);
        }
        'alternations: for made in 0..ALTERNATIONS {
            if let Err(fault) = self.alternate(alloc, till) {
                return Err(RunFault::Line(fault));
            }
            if till.has_failed() {
                return Err(RunFault::Book(BookFault::Failed));
            }
            if let Some(outcome) = ended(till.look()) {
                return Ok(outcome);
            }
        }
        till.lost();
        Err(RunFault::Line(LineFault::Turns))
    }
}

/// The till does not ask: the terminal is new, and has no last transaction.
impl<A: LineEnd, B: LineEnd, K: Keeper> StepLine<K> for BothEnds<A, B> {
    ghost use Rattle.zvt_runs.specs.BothEnds.{MakesHere, line_of};

    ghost makes = { λ old till step result new left. MakesHere K.orders K.hears K.is_resting K.failed K.till K.loses
        K.malforms (line_of A.state B.state old) till step result (line_of A.state B.state new) left };

    fn make(&mut self, alloc: Global, till: &mut K, step: &Step) -> Result<Ended, RunFault> {
        let Some(order) = step.order() else {
            return Ok(Ended::Ask(Asked::Nothing));
        };
        let outcome = self.run_order(alloc, till, order, step.verdict())?;
        Ok(Ended::Order(outcome))
    }
}

/// Runs the steps with a till, alone or with a book, on this fresh line. A step that asks sends nothing.
///
/// Each step writes a line when it ends, with its word and its outcome; the last line is the till's total, including
/// the entries that it had before. `steps` selects the form of these lines. If the line breaks, the remaining steps are
/// skipped and the result is `Line`. An order that the till declines to send is reported in its line, and is a fault
/// only if memory ran out. After `Write` and `Memory` no step is repeated, and no step follows the one whose line is
/// missing. Unless the book could not be kept before the first step, `report` gets a line for each of the till's
/// entries whose last reversal is unclear, however the run ends.
///
/// A book contains the record of an order, with the note that `notes` gives it, before the order's first byte is sent.
/// If the book cannot be kept, the remaining steps are skipped and the result is `Book`.
pub fn run_both_ends<A: LineEnd, B: LineEnd, K: Keeper, T: Sink, E: Sink, N: NoteSource<K>>(
    alloc: Global,
    line: &mut BothEnds<A, B>,
    till: &mut K,
    notes: &N,
    steps: &StepRun<'_>,
    writer: &mut T,
    report: &mut E,
) -> Result<(), EndFault>
    requires { BeginsHere (line_of A.state B.state line.old) }
    ensures run { AnswersPlan K.connects K.failed K.till
        (noting N.noted (MakesHere K.orders K.hears K.is_resting K.failed K.till K.loses K.malforms)) BeginsHere
        steps.now.options steps.now.plan.now till.old till.new
        (T.written writer.old) (T.written writer.new)
        (ReportsRun (E.written report.old) (E.written report.new) (E.failures report.old) (E.failures report.new))
        (ReportsNothing (E.written report.old) (E.written report.new) (E.failures report.old)
        (E.failures report.new)) result }
    ensures write { result ≡ Err EndFault.Write → T.failures writer.old < T.failures writer.new }
{
    run_connected(alloc, line, till, notes, steps, writer, report)
}

/// Returns the outcome of the till's last order, unless an order is running.
fn ended(till: &Till) -> Option<Outcome>
    ensures { result ≡ ended_of till.now }
{
    match till.running() {
        None => till.last_outcome(),
        Some(_) => None,
    }
}
