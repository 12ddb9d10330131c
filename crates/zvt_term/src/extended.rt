//! A terminal that does more than the profile has: it accepts further orders, and may hold payments before it decides.
ghost use Rattle.std.specs.Prelude.{◌≡◌, ◌≤◌, IfSome, true, false, length};
ghost use Rattle.std.specs.Option.{option_or};
ghost use Rattle.zvt_term.specs.Extended.{last_report, logs_off, report_of_row};
ghost use Rattle.zvt_term.specs.Ledger.{NumberedFrom, ReverseEarlier};
ghost use Rattle.zvt_term.specs.Reports.{IsWritable};

use crate::asked::asked_view;
use crate::codes::{NOT_POSSIBLE, SYSTEM_ERROR};
use crate::dressing::{answers_by, is_delayed};
use crate::extras::{Extra, Extras, Receipts, extra_of};
use crate::ledger::Row;
use crate::messages::{Asked, Line, Report, Response};
use crate::refunds::{Refunded, count_refunds};
use crate::served::Served;
use crate::terminal::{MAX_LEDGER_ROWS, Terminal};
use crate::turns::{Phase, Turn, Verdict};
use std::alloc::{AllocError, Global};
use zvt_apdu::ApduView;
use zvt_bcd::Amount;
use zvt_stream::{Answers, Machine};

/// A terminal that serves its line, and with [`Extras`] does more than the profile has. Without them it is the terminal
/// of the profile.
#[derive(Drop)]
pub struct Extended {
    pub served: Served,
    pub extras: Extras,
    /// The last refund, if there was one.
    pub refund: Option<Refunded>,
    /// Whether it has sent an intermediate status, and sends the status itself after the next reply.
    pub waits: bool,
    /// The payment that it holds: it has acknowledged the order, and decides it when the delay is over.
    pub held: Option<Asked>,
}

/// Returns the status of a row.
fn report_of_row(row: &Row) -> Report
    ensures { result ≡ report_of_row row.now }
{
    match row.reverses {
        None => Report::Approved {
            amount: row.amount,
            number: row.number,
            currency: row.currency,
        },
        Some(original) => Report::TakenBack {
            amount: row.amount,
            number: row.number,
            original,
            currency: row.currency,
        },
    }
}

/// Returns the status of the last transaction: a row of the ledger or a refund.
fn last_report(rows: &[Row], refund: &Option<Refunded>) -> Option<Report>
    requires most { length rows.now ≤ 9999 }
    requires numbered { NumberedFrom 1 rows.now }
    requires earlier { ReverseEarlier rows.now }
    ensures report { result ≡ last_report rows.now refund.now }
    ensures writable { IfSome result (λ report. IsWritable report) }
{
    match refund {
        Some(refund) if refund.rows == rows.len() => Some(refund.report()),
        _ => Some(report_of_row(rows.last()?)),
    }
}

impl Extended {
    ghost use Rattle.std.specs.Prelude.{◌≡◌, IfOk, OnOk, OnErr, None, IsOk};
    ghost use Rattle.zvt_stream.specs.Answered.{Answered};
    ghost use Rattle.zvt_term.specs.Extended.{HearsTurn, MakesTurn, Releases, asked_turn, extra_turn, heard_extra};
    ghost use Rattle.zvt_term.specs.Extended.{hears_asked, new_extended, new_refund, next_phase, pays_back, refund_by};
    ghost use Rattle.zvt_term.specs.Extended.{repeats, status_due};
    ghost use Rattle.zvt_term.specs.Inside.{IsSound};
    ghost use Rattle.zvt_term.specs.Steps.{AreWritable, IsNext};
    ghost use Rattle.zvt_term.specs.Terminal.{after, reports_of};

    /// Creates a terminal with this number and an empty ledger, at which no till is registered.
    pub fn new(alloc: Global, tid: u32, verdict: Verdict, extras: Extras) -> Extended
        requires { tid ≤ 99999999 }
        ensures { result ≡ new_extended tid verdict extras }
    {
        Extended {
            served: Served {
                terminal: Terminal::new(alloc, tid),
                verdict,
            },
            extras,
            refund: None,
            waits: false,
            held: None,
        }
    }

    /// Returns the order beyond the profile in a message, if this terminal accepts such orders.
    fn extra(&self, apdu: &ApduView<'_>) -> Option<Extra>
        ensures { result ≡ heard_extra self.now.extras apdu.now }
    {
        if self.extras.extended {
            extra_of(apdu)
        } else {
            None
        }
    }

    /// Returns a refund of this amount, if a number is free.
    fn new_refund(&self, amount: Option<Amount>) -> Option<Refunded>
        ensures { result ≡ new_refund self.now.served.terminal self.now.refund amount }
    {
        let amount = amount?;
        let terminal = &self.served.terminal;
        let before = count_refunds(&self.refund);
        let rows = terminal.ledger().len();
        if before + rows < MAX_LEDGER_ROWS {
            Some(Refunded {
                before: before as u16,
                amount,
                currency: terminal.currency(),
                rows,
            })
        } else {
            None
        }
    }

    /// Returns the refund that the order leads to, if the terminal accepts it.
    fn refund_by(&self, extra: &Extra) -> Option<Refunded>
        ensures { result ≡ refund_by self.now.served.terminal self.now.refund extra.now }
    {
        match extra {
            Extra::Refund(amount) if self.served.terminal.is_ready() => self.new_refund(*amount),
            _ => None,
        }
    }

    /// Pays back, if a refund is possible.
    fn pays_back(&self, refund: Option<Refunded>) -> Turn
        ensures { result ≡ pays_back self.now.served.terminal refund }
    {
        let terminal = &self.served.terminal;
        match refund {
            None => terminal.refuses(SYSTEM_ERROR),
            Some(refund) => terminal.runs(Phase::Completing, refund.report()),
        }
    }

    /// Repeats the status of the last transaction, if there was one.
    fn repeats(&self) -> Turn
        ensures { result ≡ repeats self.now.served.terminal (last_report self.now.served.terminal.ledger
            self.now.refund) }
    {
        let terminal = &self.served.terminal;
        match last_report(terminal.ledger(), &self.refund) {
            None => terminal.aborts(NOT_POSSIBLE),
            Some(report) => terminal.runs(Phase::Completing, report),
        }
    }

    /// Returns the turn that the order leads to.
    fn turn_of(&self, extra: &Extra) -> Turn
        ensures { result ≡ extra_turn self.now.served.terminal self.now.refund extra.now }
    {
        let terminal = &self.served.terminal;
        if !terminal.is_ready() {
            return terminal.refuses(NOT_POSSIBLE);
        }
        match extra {
            Extra::Service => terminal.runs(Phase::Ending, Report::Done),
            Extra::LogOff => logs_off(),
            Extra::RepeatReceipt => self.repeats(),
            Extra::Refund(amount) => self.pays_back(self.new_refund(*amount)),
        }
    }

    /// Makes a turn with its refund, if it has one, and holds this payment then, if one is given.
    pub(crate) fn make(
        &mut self,
        turn: &Turn,
        refund: Option<Refunded>,
        held: Option<Asked>,
    ) -> Result<(), AllocError>
        requires next { IsNext self.old.served.terminal turn.now.row }
        requires writable { IsSound (after self.old.served.terminal turn.now)
            → AreWritable (reports_of turn.now.reply) }
        ensures made { OnOk result (MakesTurn self.old turn.now refund held self.new) }
        ensures writable { OnOk result (AreWritable (reports_of turn.now.reply)) }
        ensures err { OnErr result (self.new ≡ self.old) }
    {
        self.served.terminal.make(turn)?;
        self.refund = refund.or(self.refund);
        self.waits = self.waits || is_delayed(&self.extras, &turn.reply);
        self.held = held;
        Ok(())
    }

    /// Makes a turn like [`make`](Extended::make), and returns the replies.
    pub(crate) fn hear_turn(
        &mut self,
        turn: &Turn,
        refund: Option<Refunded>,
        held: Option<Asked>,
    ) -> Result<Answers, AllocError>
        requires next { IsNext self.old.served.terminal turn.now.row }
        requires writable { IsSound (after self.old.served.terminal turn.now)
            → AreWritable (reports_of turn.now.reply) }
        ensures made { IfOk result (λ answers. HearsTurn self.old turn.now refund held answers self.new) }
        ensures err { OnErr result (self.new ≡ self.old) }
    {
        self.make(turn, refund, held)?;
        Ok(answers_by(self.served.terminal.tid(), &self.extras, &turn.reply))
    }

    /// Processes an order beyond the profile and returns the replies.
    fn hear_extra(&mut self, extra: &Extra) -> Result<Answers, AllocError>
        ensures heard { IfOk result (λ answers. HearsTurn self.old (extra_turn self.old.served.terminal self.old.refund
            extra.now) (refund_by self.old.served.terminal self.old.refund extra.now) None answers self.new) }
        ensures err { OnErr result (self.new ≡ self.old) }
    {
        let turn = self.turn_of(extra);
        let refund = self.refund_by(extra);
        self.hear_turn(&turn, refund, None)
    }

    /// Returns the phase from which the running order continues: without receipts, none is printed.
    fn next_phase(&self) -> Phase
        ensures { result ≡ next_phase self.now.extras.receipts self.now.served.terminal.phase }
    {
        match (self.extras.receipts, self.served.terminal.phase()) {
            (Receipts::Nothing, Phase::Printing(_)) => Phase::Completing,
            (_, phase) => phase,
        }
    }

    /// Returns the turn that a message of the profile leads to.
    pub(crate) fn profile_turn(&self, asked: &Asked) -> Turn
        ensures { result ≡ asked_turn self.now asked.now }
    {
        let terminal = &self.served.terminal;
        match asked {
            Asked::Answer => terminal.goes_on(self.next_phase()),
            _ => terminal.turn_of(asked, self.served.verdict),
        }
    }

    /// Processes a message of the profile and returns the replies.
    fn hear_asked(&mut self, asked: &Asked) -> Result<Answers, AllocError>
        ensures heard { IfOk result (λ answers. hears_asked self.old asked.now answers self.new) }
        ensures err { OnErr result (self.new ≡ self.old) }
    {
        let turn = self.profile_turn(asked);
        if self.is_held(asked, &turn.reply) {
            return Ok(self.hold(*asked));
        }
        self.hear_turn(&turn, None, None)
    }

    /// Returns the status that comes after an intermediate status.
    fn status_due(&self) -> Option<Report>
        ensures report { result ≡ status_due self.now.served.terminal self.now.refund }
        ensures writable { IfSome result (λ report. IsWritable report) }
    {
        match self.served.terminal.phase() {
            Phase::Aborting(code) => Some(Report::Result(code)),
            Phase::Printing(Line::DayClosed) => Some(Report::Result(0)),
            _ => last_report(self.served.terminal.ledger(), &self.refund),
        }
    }

    /// Returns the status for which the till waits.
    fn release(&mut self) -> Answers
        ensures { Releases self.old result self.new }
    {
        self.waits = false;
        match self.status_due() {
            None => Answers::new(),
            Some(report) => answers_by(
                self.served.terminal.tid(),
                &self.extras,
                &Response::One(report),
            ),
        }
    }
}

/// Returns the turn that ends the registration.
fn logs_off() -> Turn
    ensures { result ≡ logs_off }
{
    Turn {
        registered: false,
        currency: None,
        phase: Phase::Idle,
        row: None,
        reply: Response::One(Report::Ack),
    }
}

impl Machine for Extended {
    ghost use Rattle.zvt_term.specs.Extended.{ExtendedLoses, extended_hears, holds_payment};

    ghost hears = { extended_hears };

    ghost loses = { ExtendedLoses };

    ghost malforms = { ExtendedLoses };

    ghost is_resting = { holds_payment };

    ghost wants_memory = { true };

    fn hear(&mut self, _alloc: Global, apdu: &ApduView<'_>) -> Result<Answers, AllocError> {
        let asked = asked_view(apdu);
        if let Some(payment) = self.held {
            return self.hear_window(payment, &asked);
        }
        if self.waits && matches!(asked, Asked::Answer) {
            return Ok(self.release());
        }
        match self.extra(apdu) {
            None => self.hear_asked(&asked),
            Some(extra) => self.hear_extra(&extra),
        }
    }

    fn resting(&self) -> bool {
        self.held.is_some()
    }

    fn lost(&mut self) {
        self.waits = false;
        self.held = None;
        self.served.lost();
    }

    fn malformed(&mut self) {
        self.waits = false;
        self.held = None;
        self.served.malformed();
    }
}
