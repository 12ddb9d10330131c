//! The terminal: its reaction to each message, and its ledger.
ghost use Rattle.std.specs.Prelude.{◌≡◌, ◌≤◌, length, IfOk, IsOk, OnOk, OnErr, ◌++◌, option_to_list, Some, None};
ghost use Rattle.std.specs.Prelude.{if◌then◌else◌};
ghost use Rattle.zvt_term.specs.Ledger.{NumberedFrom, ReverseEarlier};

use crate::answers::answers_of;
use crate::asked::{asked, asked_view};
use crate::codes::{ALREADY_REVERSED, NO_APPROVAL, NOT_POSSIBLE, SYSTEM_ERROR, WRONG_CURRENCY};
use crate::ledger::{Row, approval_by, is_taken_back};
use crate::messages::{Asked, Line, Report, Response};
use crate::turns::{Phase, Turn, Verdict};
use std::alloc::{AllocError, Global};
use std::marker::Model;
use zvt_apdu::{Apdu, ApduView};
use zvt_bcd::{Amount, Currency};
use zvt_stream::Answers;
use zvt_till::CurrencyFact;

/// Maximum number of rows in the ledger. A row's number has four digits.
pub const MAX_LEDGER_ROWS: usize = 9_999;

/// An event at the terminal.
#[derive(Clone, Copy)]
pub enum Input<'a> {
    /// A message of the till.
    Message(&'a Apdu),
    /// A message of the till, given as a view of its bytes.
    View(&'a ApduView<'a>),
    /// The connection was lost.
    Lost,
    /// The bytes were not a message, and the connection is given up.
    Malformed,
}

/// A terminal that accepts the orders of one till and keeps a ledger of its approvals.
#[derive(Drop)]
pub struct Terminal {
    tid: u32,
    registered: bool,
    /// The currency that the last registration named, if any.
    currency: Option<Currency>,
    phase: Phase,
    ledger: Vec<Row>,
}

impl Model for Terminal {
    ghost use Rattle.zvt_term.specs.Terminal.{TerminalState};

    ghost Value = { TerminalState };

    ghost use Rattle.zvt_term.specs.Inside.{value_of, IsSound};

    ghost view = { value_of };

    ghost invariant = { λ t. IsSound (value_of t) };
}

impl Terminal {
    ghost use Rattle.zvt_term.specs.Terminal.{most_rows, new_terminal, lost_terminal, has_capacity, next_number};
    ghost use Rattle.zvt_term.specs.Terminal.{is_idle, is_ready, stays, runs, writes, aborts, refuses, registers};
    ghost use Rattle.zvt_term.specs.Terminal.{takes_currency, decides, authorises, takes_back_row, reverses, closes};
    ghost use Rattle.zvt_term.specs.Terminal.{goes_on, turn_of, after};
    ghost use Rattle.zvt_term.specs.Inside.{IsSound};
    ghost use Rattle.zvt_term.specs.Steps.{HearsAsked, IsNext, Steps, row_added};

    /// Creates an idle terminal with this number and an empty ledger, at which no till is registered.
    pub fn new(alloc: Global, tid: u32) -> Terminal
        requires { tid ≤ 99999999 }
        ensures { result ≡ new_terminal tid }
    {
        Terminal {
            tid,
            registered: false,
            currency: None,
            phase: Phase::Idle,
            ledger: Vec::new(alloc),
        }
    }

    /// Returns the approvals and reversals, in order.
    pub fn ledger(&self) -> &[Row]
        ensures rows { result.now ≡ self.now.ledger }
        ensures most { length result.now ≤ MAX_LEDGER_ROWS }
        ensures numbered { NumberedFrom 1 result.now }
        ensures earlier { ReverseEarlier result.now }
    {
        self.ledger.as_slice()
    }

    /// Returns the terminal's number.
    pub(crate) fn tid(&self) -> u32
        ensures number { result ≡ self.now.tid }
        ensures most { result ≤ 99999999 }
    {
        self.tid
    }

    /// Returns the currency that the terminal keeps.
    pub(crate) fn currency(&self) -> Option<Currency>
        ensures { result ≡ self.now.currency }
    {
        self.currency
    }

    /// Returns the progress of the running order.
    pub(crate) fn phase(&self) -> Phase
        ensures { result ≡ self.now.phase }
    {
        self.phase
    }

    /// Returns whether no order is running.
    fn is_idle(&self) -> bool
        ensures { result ≡ is_idle self.now.phase }
    {
        matches!(self.phase, Phase::Idle)
    }

    /// Returns whether the terminal accepts orders that need a registration.
    pub(crate) fn is_ready(&self) -> bool
        ensures { result ≡ is_ready self.now }
    {
        self.registered && self.is_idle()
    }

    /// Returns a turn that changes nothing and gives this reply.
    fn stays(&self, reply: Response) -> Turn
        ensures { result ≡ stays self.now reply }
    {
        Turn {
            registered: self.registered,
            currency: self.currency,
            phase: self.phase,
            row: None,
            reply,
        }
    }

    /// Rejects the message.
    pub(crate) fn refuses(&self, code: u8) -> Turn
        ensures { result ≡ refuses self.now code }
    {
        self.stays(Response::One(Report::Nack(code)))
    }

    /// Accepts the order, with a first report.
    pub(crate) fn runs(&self, phase: Phase, report: Report) -> Turn
        ensures { result ≡ runs self.now phase report }
    {
        Turn {
            registered: self.registered,
            currency: self.currency,
            phase,
            row: None,
            reply: Response::Two(Report::Ack, report),
        }
    }

    /// Accepts the order, with a row and a first report.
    fn writes(&self, phase: Phase, row: Row, report: Report) -> Turn
        ensures { result ≡ writes self.now phase row report }
    {
        Turn {
            registered: self.registered,
            currency: self.currency,
            phase,
            row: Some(row),
            reply: Response::Two(Report::Ack, report),
        }
    }

    /// Accepts the order and aborts it.
    pub(crate) fn aborts(&self, code: u8) -> Turn
        ensures { result ≡ aborts self.now code }
    {
        self.runs(Phase::Ending, Report::Aborted(code))
    }

    /// Returns the number of the next row, if one is free.
    fn next_number(&self) -> Option<u16>
        ensures { result ≡ (if has_capacity self.now then Some (next_number self.now) else None) }
    {
        let rows = self.ledger.len();
        if rows < MAX_LEDGER_ROWS {
            Some(rows as u16 + 1)
        } else {
            None
        }
    }

    /// Registers the till.
    fn registers(&self, currency: &Option<Currency>) -> Turn
        ensures { result ≡ registers self.now currency.now }
    {
        Turn {
            registered: true,
            currency: *currency,
            phase: Phase::Ending,
            row: None,
            reply: Response::Two(
                Report::Ack,
                Report::Registered {
                    tid: self.tid,
                    currency: *currency,
                },
            ),
        }
    }

    /// Returns whether a payment with this currency is accepted: if a currency is stored, only in that one.
    fn takes_currency(&self, named: CurrencyFact) -> bool
        ensures { result ≡ takes_currency self.now.currency named }
    {
        self.currency.is_none() || named.is_in(self.currency)
    }

    /// Processes a payment of this amount, or of none, with this currency.
    fn authorises(&self, amount: Option<Amount>, named: CurrencyFact, verdict: Verdict) -> Turn
        ensures { result ≡ authorises self.now amount named verdict }
    {
        let Some(amount) = amount else {
            return self.refuses(SYSTEM_ERROR);
        };
        let Some(number) = self.next_number() else {
            return self.refuses(SYSTEM_ERROR);
        };
        if !self.takes_currency(named) {
            return self.refuses(WRONG_CURRENCY);
        }
        match verdict {
            Verdict::Approve => {
                let row = Row {
                    number,
                    amount,
                    currency: self.currency,
                    reverses: None,
                };
                let phase = Phase::Printing(Line::Approved(amount));
                let report = Report::Approved {
                    amount,
                    number,
                    currency: self.currency,
                };
                self.writes(phase, row, report)
            }
            Verdict::Decline(code) => self.runs(Phase::Aborting(code), Report::Result(code)),
        }
    }

    /// Reverses an approval.
    fn takes_back(&self, approval: &Row) -> Turn
        ensures { result ≡ takes_back_row self.now approval.now }
    {
        let original = approval.number;
        if is_taken_back(self.ledger(), original) {
            return self.aborts(ALREADY_REVERSED);
        }
        let Some(number) = self.next_number() else {
            return self.aborts(SYSTEM_ERROR);
        };
        let amount = approval.amount;
        let row = Row {
            number,
            amount,
            currency: self.currency,
            reverses: Some(original),
        };
        let report = Report::TakenBack {
            amount,
            number,
            original,
            currency: self.currency,
        };
        self.writes(Phase::Printing(Line::Reversed(amount)), row, report)
    }

    /// Reverses the approval with this receipt number.
    fn reverses(&self, receipt: Option<[u8; 2]>) -> Turn
        ensures { result ≡ reverses self.now receipt }
    {
        let Some(receipt) = receipt else {
            return self.aborts(NO_APPROVAL);
        };
        match approval_by(self.ledger(), receipt) {
            None => self.aborts(NO_APPROVAL),
            Some(approval) => self.takes_back(&approval),
        }
    }

    /// Continues the order from this phase, after the till has acknowledged the last message.
    pub(crate) fn goes_on(&self, phase: Phase) -> Turn
        ensures { result ≡ goes_on self.now phase }
    {
        let (phase, reply) = match phase {
            Phase::Idle => (Phase::Idle, Response::Nothing),
            Phase::Printing(line) => (Phase::Completing, Response::One(Report::Line(line))),
            Phase::Completing => (Phase::Ending, Response::One(Report::Done)),
            Phase::Aborting(code) => (Phase::Ending, Response::One(Report::Aborted(code))),
            Phase::Ending => (Phase::Idle, Response::Nothing),
        };
        Turn {
            registered: self.registered,
            currency: self.currency,
            phase,
            row: None,
            reply,
        }
    }

    /// Returns the turn that the message leads to.
    pub(crate) fn turn_of(&self, asked: &Asked, verdict: Verdict) -> Turn
        ensures { result ≡ turn_of self.now asked.now verdict }
    {
        match asked {
            Asked::Registration(currency) if self.is_idle() => self.registers(currency),
            Asked::Authorisation(amount, named) if self.is_ready() => {
                self.authorises(*amount, *named, verdict)
            }
            Asked::Reversal(receipt) if self.is_ready() => self.reverses(*receipt),
            Asked::EndOfDay if self.is_ready() => {
                self.runs(Phase::Printing(Line::DayClosed), Report::Result(0))
            }
            Asked::AbortOrder => self.stays(Response::One(Report::Ack)),
            Asked::Answer => self.goes_on(self.phase),
            _ => self.refuses(NOT_POSSIBLE),
        }
    }

    /// Forgets the running order and the registration, because the line is down.
    pub(crate) fn lose(&mut self)
        ensures { self.new ≡ lost_terminal self.old }
    {
        self.registered = false;
        self.currency = None;
        self.phase = Phase::Idle;
    }

    /// Adds a row to the ledger, if there is one.
    fn write_down(&mut self, row: &Option<Row>) -> Result<(), AllocError>
        requires { IsNext self.old row.now }
        ensures written { OnOk result (self.new ≡ record
            self.old { ledger = self.old.ledger ++ option_to_list row.now }) }
        ensures frugal { row.now ≡ None → IsOk result }
        ensures err { OnErr result (self.new ≡ self.old) }
    {
        if let Some(row) = row {
            self.ledger.push(*row)?;
        }
        Ok(())
    }

    /// Makes a turn.
    pub(crate) fn make(&mut self, turn: &Turn) -> Result<(), AllocError>
        requires { IsNext self.old turn.now.row }
        ensures made { OnOk result (self.new ≡ after self.old turn.now) }
        ensures sound { OnOk result (IsSound self.new) }
        ensures frugal { turn.now.row ≡ None → IsOk result }
        ensures err { OnErr result (self.new ≡ self.old) }
    {
        self.write_down(&turn.row)?;
        self.registered = turn.registered;
        self.currency = turn.currency;
        self.phase = turn.phase;
        Ok(())
    }

    /// Processes the request of a till's message and returns the replies.
    fn hear(&mut self, asked: &Asked, verdict: Verdict) -> Result<Answers, AllocError>
        ensures heard { IfOk result (λ answers. HearsAsked verdict self.old asked.now answers self.new) }
        ensures frugal { (turn_of self.old asked.now verdict).row ≡ None → IsOk result }
        ensures err { OnErr result (self.new ≡ self.old) }
    {
        let turn = self.turn_of(asked, verdict);
        self.make(&turn)?;
        Ok(answers_of(&turn.reply))
    }

    /// Processes an event and returns the replies. The verdict decides an authorisation and is otherwise ignored. Only
    /// approvals and reversals allocate memory, for one row of the ledger. If the allocation fails, nothing changes.
    pub fn step(&mut self, input: Input<'_>, verdict: Verdict) -> Result<Answers, AllocError>
        ensures stepped { IfOk result (λ answers. Steps self.old input.entry verdict answers self.new) }
        ensures err { OnErr result (self.new ≡ self.old) }
        // It always succeeds if no row is added, for example on a broken line.
        ensures frugal { row_added self.old input.entry verdict ≡ None → IsOk result }
    {
        match input {
            Input::Message(apdu) => self.hear(&asked(apdu), verdict),
            Input::View(apdu) => self.hear(&asked_view(apdu), verdict),
            Input::Lost | Input::Malformed => {
                self.lose();
                Ok(Answers::new())
            }
        }
    }
}
