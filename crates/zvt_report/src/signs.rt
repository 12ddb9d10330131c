//! What the messages of a trace say about the trace itself: which side sends orders, and which currencies they name.
use crate::findings::{Finding, listed};
use std::alloc::{AllocError, Global};
use zvt_apdu::ApduView;
use zvt_audit::is_order;
use zvt_bcd::{Amount, Currency, Trace};
use zvt_trace::{Direction, Listener, ListenerError, TraceEvent};

/// The currencies that the registrations of a till name.
#[derive(Clone, Copy)]
pub(crate) enum NamedSoFar {
    Nothing,
    /// All that name one name this one.
    One(Currency),
    /// The first that was named, the first other one, and the line of the registration that names that.
    Two {
        first: Currency,
        other: Currency,
        line: u64,
    },
}

impl NamedSoFar {
    ghost use Rattle.std.specs.Prelude.{◌≡◌, Some};
    ghost use Rattle.zvt_report.specs.Signs.{named_with};

    /// Returns the state after a registration on this line that names this currency.
    fn with(self, currency: Currency, line: u64) -> NamedSoFar
        ensures { result ≡ named_with self (Some (currency, line)) }
    {
        match self {
            NamedSoFar::Nothing => NamedSoFar::One(currency),
            NamedSoFar::One(first) => {
                if first.get() == currency.get() {
                    self
                } else {
                    NamedSoFar::Two {
                        first,
                        other: currency,
                        line,
                    }
                }
            }
            NamedSoFar::Two { .. } => self,
        }
    }
}

/// Counts the orders of each side, and records the currencies of the till's registrations.
#[derive(Clone, Copy)]
pub(crate) struct Signs {
    /// The number of orders that the till's side has sent. It saturates.
    till: usize,
    /// The number of orders that the terminal's side has sent. It saturates.
    terminal: usize,
    named: NamedSoFar,
}

impl Listener for Signs {
    ghost use Rattle.std.specs.Prelude.{◌≡◌};
    ghost use Rattle.zvt_report.specs.Signs.{sees};
    ghost use Rattle.zvt_trace.specs.declared.listener.ListenerError.TheVariants.{Memory};

    ghost hears = { λ old event new. sees old event new };

    ghost fails = { λ _ _ failure _. failure ≡ Memory };

    fn hear(&mut self, line: u64, trace_event: &TraceEvent<'_>) -> Result<(), ListenerError> {
        match trace_event {
            TraceEvent::Message { from, apdu, .. } => match from {
                Direction::FromTill => self.hear_till(line, apdu),
                Direction::FromTerminal => self.hear_terminal(apdu),
            },
            TraceEvent::Refused { .. } => {}
            TraceEvent::Unread { .. } => {}
            TraceEvent::Resumed { .. } => {}
            TraceEvent::CutOff { .. } => {}
            TraceEvent::Lost => {}
        }
        Ok(())
    }
}

impl Signs {
    ghost use Rattle.std.specs.Prelude.{◌≡◌, ◌++◌, ℕ, IfOk};
    ghost use Rattle.std.specs.List.{cons_option};
    ghost use Rattle.zvt_report.specs.Findings.{listed, swapped_if};
    ghost use Rattle.zvt_report.specs.Signs.{currencies_by, no_signs, sees};
    ghost use Rattle.zvt_trace.specs.TraceEvent as trace_event;
    ghost use Rattle.zvt_trace.specs.TraceEvent.{on};
    ghost use Rattle.zvt_trace.specs.declared.direction.Direction.TheVariants.{FromTill, FromTerminal};

    /// Starts before the first message.
    pub(crate) fn new() -> Signs
        ensures { result ≡ no_signs }
    {
        Signs {
            till: 0,
            terminal: 0,
            named: NamedSoFar::Nothing,
        }
    }

    /// Hears a message of the till's side.
    fn hear_till(&mut self, line: u64, apdu: &ApduView<'_>)
        ensures { sees self.old (on line (trace_event.message FromTill apdu.now)) self.new }
    {
        if is_order(apdu.kind()) {
            self.till = self.till.saturating_add(1);
        }
        if let Some(currency) = apdu.currency() {
            self.named = self.named.with(currency, line);
        }
    }

    /// Hears a message of the terminal's side.
    fn hear_terminal(&mut self, apdu: &ApduView<'_>)
        ensures { (line : ℕ) → sees self.old (on line (trace_event.message FromTerminal apdu.now)) self.new }
    {
        if is_order(apdu.kind()) {
            self.terminal = self.terminal.saturating_add(1);
        }
    }

    /// Returns the finding that the marks are swapped, if only the terminal's side has sent orders.
    fn swapped(&self) -> Option<Finding>
        ensures { result ≡ swapped_if self.now.till self.now.terminal }
    {
        if self.till == 0 && self.terminal != 0 {
            Some(Finding::Swapped(self.terminal))
        } else {
            None
        }
    }

    /// Returns the finding that registrations name two currencies, if they do.
    fn currencies(&self) -> Option<Finding>
        ensures { result ≡ currencies_by self.now.named }
    {
        match self.named {
            NamedSoFar::Two { first, other, line } => {
                Some(Finding::Currencies { first, other, line })
            }
            NamedSoFar::Nothing | NamedSoFar::One(_) => None,
        }
    }

    /// Returns the findings of these signs and the approvals, then the first of the messages that are refused or cut
    /// off, and the number of the others.
    pub(crate) fn findings(
        &self,
        alloc: Global,
        approvals: &[Finding],
        bad: Vec<Finding>,
    ) -> Result<Vec<Finding>, AllocError>
        ensures { IfOk result (λ found. found.items ≡ cons_option (swapped_if self.now.till self.now.terminal)
            (approvals.now ++ cons_option (currencies_by self.now.named) (listed bad.items))) }
    {
        // Names the types in a finding, which the proof asks for.
        let _amount: Option<Amount> = None;
        let _trace: Option<Trace> = None;
        let mut found = Vec::new(alloc);
        if let Some(swapped) = self.swapped() {
            found.push(swapped)?;
        }
        found.extend_from_slice(approvals)?;
        if let Some(currencies) = self.currencies() {
            found.push(currencies)?;
        }
        let bad = listed(bad)?;
        found.extend_from_slice(bad.as_slice())?;
        Ok(found)
    }
}
