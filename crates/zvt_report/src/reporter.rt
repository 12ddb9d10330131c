//! Turns the events of a trace into the orders of a day.
ghost use Rattle.std.specs.Prelude.{OnOk};
ghost use Rattle.zvt_trace.specs.TraceEvent as trace_event;
ghost use Rattle.zvt_trace.specs.TraceEvent.{on};
ghost use Rattle.zvt_trace.specs.declared.direction.Direction.TheVariants.{FromTill};
ghost use Rattle.zvt_report.specs.Reports.{Judges};

use crate::day::Day;
use crate::ordering::{TillOrder, add_message, beginning, order_in};
use crate::rows::OrderMessage;
use crate::statements::Hearing;
use crate::terminal_ids::{terminal_after, terminal_in};
use std::alloc::{AllocError, Global};
use zvt_apdu::ApduView;
use zvt_audit::NamedCurrency;
use zvt_till::{Happening, heard_view};
use zvt_trace::{Direction, Listener, ListenerError, TraceEvent};

/// Judges the orders of a trace, and records what their messages say, which currencies the till names, and how the
/// terminal calls itself.
#[derive(Drop)]
pub(crate) struct Reporter {
    pub(crate) alloc: Global,
    pub(crate) day: Day,
    pub(crate) named: NamedCurrency,
    pub(crate) messages: Vec<OrderMessage>,
    pub(crate) hearing: Hearing,
    /// The first terminal identifier.
    pub(crate) terminal: Option<[u8; 4]>,
}

impl Listener for Reporter {
    ghost use Rattle.std.specs.Prelude.{◌≡◌};
    ghost use Rattle.zvt_report.specs.Reports.{Reports};
    ghost use Rattle.zvt_trace.specs.declared.listener.ListenerError.TheVariants.{Memory};

    ghost hears = { λ old event new. Reports old event new };

    ghost fails = { λ _ _ failure _. failure ≡ Memory };

    fn hear(&mut self, line: u64, trace_event: &TraceEvent<'_>) -> Result<(), ListenerError> {
        match trace_event {
            TraceEvent::Message { from, apdu, .. } => match from {
                Direction::FromTill => self.hear_till(line, apdu)?,
                Direction::FromTerminal => self.hear_terminal(line, apdu)?,
            },
            TraceEvent::Refused { .. } => self.malform(line)?,
            TraceEvent::Lost => self.lose(line)?,
            TraceEvent::Unread { .. } => {}
            TraceEvent::Resumed { .. } => {}
            TraceEvent::CutOff { .. } => {}
        }
        Ok(())
    }
}

impl Reporter {
    ghost use Rattle.std.specs.Prelude.{◌∷◌, [], OnOk};
    ghost use Rattle.zvt_till.specs.declared.happenings.Happening.TheVariants.{Connected, Lost, Malformed};
    ghost use Rattle.zvt_trace.specs.TraceEvent as trace_event;
    ghost use Rattle.zvt_trace.specs.TraceEvent.{on};
    ghost use Rattle.zvt_trace.specs.declared.direction.Direction.TheVariants.{FromTill, FromTerminal};
    ghost use Rattle.zvt_report.specs.Reports.{Reports, ReportsBy};
    ghost use Rattle.zvt_report.specs.Statements.{Ends};

    /// Hears a message of the till.
    fn hear_till(&mut self, line: u64, apdu: &ApduView<'_>) -> Result<(), AllocError>
        ensures { OnOk result (Reports self.old (on line (trace_event.message FromTill apdu.now)) self.new) }
    {
        self.named.notice(apdu.currency());
        add_message(self.alloc, &mut self.messages, apdu)?;
        self.hearing.take_order(beginning(apdu).is_some())?;
        judge(&mut self.day, line, apdu)
    }

    /// Hears a message of the terminal.
    fn hear_terminal(&mut self, line: u64, apdu: &ApduView<'_>) -> Result<(), AllocError>
        ensures { OnOk result (Reports self.old (on line (trace_event.message FromTerminal apdu.now)) self.new) }
    {
        self.terminal = terminal_after(self.terminal, terminal_in(apdu));
        self.hearing.take_answer(apdu)?;
        self.day.take(line, &Happening::Heard(heard_view(apdu)))
    }

    /// Records bytes that are not a message.
    fn malform(&mut self, line: u64) -> Result<(), AllocError>
        ensures judges { OnOk result (ReportsBy self.old line (Malformed ∷ []) self.new) }
        ensures ends { OnOk result (Ends self.old.hearing self.new.hearing) }
    {
        self.hearing.end()?;
        self.day.take(line, &Happening::Malformed)
    }

    /// Records the loss of the connection. The next one is up at once.
    fn lose(&mut self, line: u64) -> Result<(), AllocError>
        ensures judges { OnOk result (ReportsBy self.old line (Lost ∷ Connected ∷ []) self.new) }
        ensures ends { OnOk result (Ends self.old.hearing self.new.hearing) }
    {
        self.hearing.end()?;
        self.day.take(line, &Happening::Lost)?;
        self.day.take(line, &Happening::Connected)
    }
}

/// Judges the order that a till gives with this message, if any.
fn judge(day: &mut Day, line: u64, apdu: &ApduView<'_>) -> Result<(), AllocError>
    ensures { OnOk result (Judges day.old (on line (trace_event.message FromTill apdu.now)) day.new) }
{
    match order_in(apdu) {
        Some(TillOrder::Reversal(receipt)) => day.reverse(line, receipt),
        Some(TillOrder::Plain(order)) => day.take(line, &Happening::Sent(order)),
        None => Ok(()),
    }
}
