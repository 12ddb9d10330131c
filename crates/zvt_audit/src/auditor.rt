//! Derives the books from the events of a trace.
use crate::currencies::NamedCurrency;
use crate::ends::{Ends, can_end};
use crate::happened::ordered;
use crate::orders::Orders;
use crate::unfollowed::Unfollowed;
use std::alloc::AllocError;
use zvt_apdu::{ApduView, Kind};
use zvt_till::{Bookkeeping, Happening};
use zvt_trace::{Direction, Listener, ListenerError, TraceEvent};

/// Turns the events of a trace into the log of a till. It also notes who sends orders, which of them move money that
/// the books do not follow, which currencies the till names, and at which lines payments end.
#[derive(Drop)]
pub(crate) struct Auditor {
    pub(crate) books: Bookkeeping,
    pub(crate) orders: Orders,
    pub(crate) unfollowed: Unfollowed,
    pub(crate) named: NamedCurrency,
    pub(crate) ends: Ends,
}

impl Listener for Auditor {
    ghost use Rattle.std.specs.Prelude.{◌≡◌};
    ghost use Rattle.zvt_audit.specs.Audited.{Becomes};
    ghost use Rattle.zvt_trace.specs.declared.listener.ListenerError.TheVariants.{Memory};

    ghost hears = { λ old event new. Becomes old event new };

    ghost fails = { λ _ _ failure _. failure ≡ Memory };

    #[inline(always)]
    fn hear(&mut self, line: u64, trace_event: &TraceEvent<'_>) -> Result<(), ListenerError> {
        match trace_event {
            TraceEvent::Message { from, apdu, .. } => match from {
                Direction::FromTill => self.hear_till(line, apdu)?,
                Direction::FromTerminal => self.hear_terminal(line, apdu)?,
            },
            TraceEvent::Refused { .. } => self.malform(line)?,
            TraceEvent::Lost => self.lose(line)?,
            TraceEvent::Unread { .. } => {}
            TraceEvent::Resumed { .. } => {}
            TraceEvent::CutOff { .. } => {}
        }
        Ok(())
    }
}

impl Auditor {
    ghost use Rattle.std.specs.Prelude.{◌∷◌, [], OnOk};
    ghost use Rattle.zvt_audit.specs.Audited.{Becomes, BecomesBy};
    ghost use Rattle.zvt_till.specs.declared.happenings.Happening.TheVariants.{Connected, Lost, Malformed};
    ghost use Rattle.zvt_trace.specs.TraceEvent as trace_event;
    ghost use Rattle.zvt_trace.specs.TraceEvent.{on};
    ghost use Rattle.zvt_trace.specs.declared.direction.Direction.TheVariants.{FromTill, FromTerminal};

    /// Hears a message of the till. Most are acknowledgements and return at once.
    #[inline(always)]
    fn hear_till(&mut self, line: u64, apdu: &ApduView<'_>) -> Result<(), AllocError>
        ensures { OnOk result (Becomes self.old (on line (trace_event.message FromTill apdu.now)) self.new) }
    {
        match apdu.kind() {
            Kind::Ack => Ok(()),
            _ => self.hear_order(line, apdu),
        }
    }

    /// Hears a message of the till that may be an order.
    #[inline(never)]
    fn hear_order(&mut self, line: u64, apdu: &ApduView<'_>) -> Result<(), AllocError>
        ensures { OnOk result (Becomes self.old (on line (trace_event.message FromTill apdu.now)) self.new) }
    {
        self.orders.notice(Direction::FromTill, apdu.kind());
        let order = ordered(apdu);
        self.unfollowed.notice(line, apdu, &order)?;
        self.named.notice(apdu.currency());
        match order {
            Some(order) => {
                self.books.take(&Happening::Sent(order))?;
                self.ends.notice(&self.books, line)
            }
            None => Ok(()),
        }
    }

    /// Hears a message of the terminal.
    #[inline(always)]
    fn hear_terminal(&mut self, line: u64, apdu: &ApduView<'_>) -> Result<(), AllocError>
        ensures { OnOk result (Becomes self.old (on line (trace_event.message FromTerminal apdu.now)) self.new) }
    {
        let kind = apdu.kind();
        self.orders.notice(Direction::FromTerminal, kind);
        self.books.hear(apdu)?;
        self.unfollowed.hear(apdu)?;
        if can_end(kind) {
            self.ends.notice(&self.books, line)
        } else {
            Ok(())
        }
    }

    /// Records bytes that are not a message.
    #[inline(never)]
    fn malform(&mut self, line: u64) -> Result<(), AllocError>
        ensures { OnOk result (BecomesBy self.old (Malformed ∷ []) line self.new) }
    {
        self.books.take(&Happening::Malformed)?;
        self.unfollowed.take(&Happening::Malformed)?;
        self.ends.notice(&self.books, line)
    }

    /// Records the loss of the connection. The next one is up at once.
    #[inline(never)]
    fn lose(&mut self, line: u64) -> Result<(), AllocError>
        ensures { OnOk result (BecomesBy self.old (Lost ∷ Connected ∷ []) line self.new) }
    {
        self.books.take(&Happening::Lost)?;
        self.books.take(&Happening::Connected)?;
        self.unfollowed.take(&Happening::Lost)?;
        self.ends.notice(&self.books, line)
    }
}
