//! The report of a whole trace.
ghost use Rattle.std.specs.Prelude.{◌≤◌, length, IfOk};
ghost use Rattle.zvt_grammar.specs.Lengths.{reading_of};
ghost use Rattle.zvt_trace.specs.Written.{limit};
ghost use Rattle.zvt_report.specs.Reports.{AnswersReport, StartsIn};

use crate::books::DayBooks;
use crate::closings::{Closing, closings};
use crate::day::Day;
use crate::findings::{Finder, Finding};
use crate::reporter::Reporter;
use crate::rows::OrderMessage;
use crate::settling::settle;
use crate::signs::Signs;
use crate::statements::{Hearing, Statement};
use crate::times::{Times, timed_day, times_in};
use crate::zones::Zone;
use std::alloc::{AllocError, Global};
use zvt_audit::{ByControl, NamedCurrency};
use zvt_bcd::Currency;
use zvt_grammar::Lengths;
use zvt_till::Happening;
use zvt_trace::{Both, Moments, Scope, Tally, TraceFault, moments_of, walk};

/// The report of a trace.
#[derive(Drop)]
pub struct Report {
    pub tally: Tally,
    /// What the time marks say about the trace.
    pub times: Times,
    /// The currency of the till's registrations, if all that name one agree.
    pub currency: Option<Currency>,
    /// The first terminal identifier (BMP 29) in a status information or a completion: eight digits.
    pub terminal: Option<[u8; 4]>,
    pub books: DayBooks,
    /// What the message of each order says: one for each row of `books.orders`.
    pub messages: Vec<OrderMessage>,
    /// What the terminal's statuses say about each order: one for each row of `books.orders`.
    pub statements: Vec<Statement>,
    /// The ends of day that closed a day: one for each row of `books.orders`, if that order is one.
    pub closings: Vec<Option<Closing>>,
    /// The findings about the trace itself, in the order in which they are listed.
    pub findings: Vec<Finding>,
    /// The number of refused messages that were passed over and known by their control bytes alone. It saturates.
    pub passed: u64,
}

/// Reports what became of each order in the trace of a till that starts connected. A reversal takes back the last
/// payment with its receipt number. `lengths` selects the accepted forms of length. Times are shown on the clock of
/// `zone`.
///
/// `scope` says how much is not read after a refused message. With `WholeLine`, neither side is read until the
/// connection is lost, and the line was malformed. With `OneMessage`, its side is read on after the message, which is
/// known by its control bytes alone. With `OneSide`, its side is not read until the connection is lost.
pub fn report_trace(
    alloc: Global,
    zone: Zone,
    scope: Scope,
    lengths: Lengths,
    trace: &[u8],
) -> Result<Report, TraceFault>
    requires { length trace.now ≤ limit }
    ensures { AnswersReport zone (reading_of lengths) scope trace.now result }
{
    let mut listeners = Both {
        first: connected(alloc, scope)?,
        second: Finder::new(alloc, scope),
    };
    let tally = walk(&mut listeners, alloc, scope, lengths, trace)?;
    let moments = moments_of(alloc, trace)?;
    let approvals = listeners.second.approvals;
    let bad = listeners.second.found;
    let by = listeners.first;
    let both = by.listener;
    let signs = both.second;
    let findings = signs.findings(alloc, approvals.as_slice(), bad)?;
    let report = both
        .first
        .finish(tally, by.passed, zone, &moments, findings)?;
    Ok(report)
}

/// Creates a reporter of a connected till that has heard nothing, beside signs of no message. They hear events in this
/// scope.
fn connected(alloc: Global, scope: Scope) -> Result<ByControl<Both<Reporter, Signs>>, AllocError>
    ensures { IfOk result (StartsIn scope) }
{
    let mut day = Day::new(alloc);
    day.take(0, &Happening::Connected)?;
    Ok(ByControl {
        listener: Both {
            first: Reporter {
                alloc,
                day,
                named: NamedCurrency::none(),
                messages: Vec::new(alloc),
                hearing: Hearing::new(alloc),
                terminal: None,
            },
            second: Signs::new(),
        },
        scope,
        passed: 0,
    })
}

impl Reporter {
    ghost use Rattle.std.specs.Prelude.{IfOk};
    ghost use Rattle.zvt_report.specs.Reports.{Finds};

    /// Ends the day, and returns the report with this tally, this number of messages that were passed over, the times
    /// of these moments, and these findings.
    fn finish(
        self,
        tally: Tally,
        passed: u64,
        zone: Zone,
        moments: &Moments,
        findings: Vec<Finding>,
    ) -> Result<Report, AllocError>
        ensures { IfOk result (Finds self tally passed zone moments.now findings.items) }
    {
        let currency = self.named.agreed();
        let terminal = self.terminal;
        let statements = self.hearing.finish()?;
        let settled = settle(self.alloc, statements.as_slice(), self.day.finish()?)?;
        let books = timed_day(self.alloc, zone, moments.times.as_slice(), settled)?;
        let closings = closings(
            self.alloc,
            books.book.as_slice(),
            statements.as_slice(),
            self.messages.as_slice(),
            books.orders.as_slice(),
        )?;
        Ok(Report {
            tally,
            times: times_in(zone, moments),
            currency,
            terminal,
            books,
            messages: self.messages,
            statements,
            closings,
            findings,
            passed,
        })
    }
}
