//! The orders that move money and that the books do not follow, with what the terminal approved for each.
ghost use Rattle.std.specs.Prelude.{◌≡◌, ◌++◌, ◌∷◌, ◌||◌, [], None, is_some, IfOk, OnOk};
ghost use Rattle.std.specs.Option.{option_map};
ghost use Rattle.zvt_apdu.specs.Views.{control_of};
ghost use Rattle.zvt_till.specs.Hearing.{heard_as};
ghost use Rattle.zvt_till.specs.Segments.{begun, ends, is_positive};
ghost use Rattle.zvt_till.specs.declared.happenings.Happening.TheVariants.{Heard as HeardIn};
ghost use Rattle.zvt_trace.specs.TraceEvent as trace_event;
ghost use Rattle.zvt_audit.specs.Happened.{ordered};
ghost use Rattle.zvt_trace.specs.TraceEvent.{on};
ghost use Rattle.zvt_trace.specs.declared.direction.Direction.TheVariants.{FromTill};
ghost use Rattle.zvt_audit.specs.Unfollowed.{Finds, FindsBy, approval_by, found_then, is_unfollowed_from};
ghost use Rattle.zvt_audit.specs.Unfollowed.{moves_apart, pays_unknown, with_approval, with_unfollowed};

use std::alloc::{AllocError, Global};
use zvt_apdu::{ApduView, Kind};
use zvt_bcd::{Amount, Trace};
use zvt_till::{Happening, Heard, Sent, begun, ends, heard_view};

/// What the terminal approved for an order.
#[derive(Clone, Copy, Debug, PartialEq, Eq)]
pub struct Approval {
    pub amount: Amount,
    /// The trace number, if the status names exactly one.
    pub trace: Option<Trace>,
}

/// An order of the till that moves money and that the books do not follow: a refund, an order of a pre-authorisation,
/// or a payment without exactly one amount.
#[derive(Clone, Copy, Debug, PartialEq, Eq)]
pub struct UnfollowedOrder {
    /// The line of the trace at which the order ends, counted from 1.
    pub line: u64,
    /// The first control byte.
    pub high: u8,
    /// The second control byte.
    pub low: u8,
    /// What the first approving status before the end of the order says, if there is one.
    pub approved: Option<Approval>,
}

/// An order that has not ended, and for which nothing is approved yet.
#[derive(Clone, Copy)]
pub(crate) struct Waiting {
    pub(crate) order: UnfollowedOrder,
    /// Whether the terminal has accepted it.
    pub(crate) positive: bool,
}

/// The orders so far that the books do not follow.
#[derive(Drop)]
pub(crate) struct Unfollowed {
    /// The orders that have ended, or for which the terminal has approved an amount.
    pub(crate) settled: Vec<UnfollowedOrder>,
    /// The order after them.
    pub(crate) waiting: Option<Waiting>,
}

impl Unfollowed {
    /// Starts before any order.
    pub(crate) fn none(alloc: Global) -> Unfollowed
        ensures { (result.settled.items ≡ []) × (result.waiting ≡ None) }
    {
        Unfollowed {
            settled: Vec::new(alloc),
            waiting: None,
        }
    }

    /// Records a message of the till that ends at this line, and that gives this order, if any.
    pub(crate) fn notice(
        &mut self,
        line: u64,
        apdu: &ApduView<'_>,
        order: &Option<Sent>,
    ) -> Result<(), AllocError>
        requires { order.now ≡ ordered apdu.now }
        ensures { OnOk result (Finds self.old (on line (trace_event.message FromTill apdu.now)) self.new) }
    {
        if is_unfollowed(apdu, order) {
            self.settle(None)?;
            let [high, low] = apdu.control();
            let order = UnfollowedOrder {
                line,
                high,
                low,
                approved: None,
            };
            self.waiting = Some(Waiting {
                order,
                positive: false,
            });
            return Ok(());
        }
        match order {
            Some(order) => self.take(&Happening::Sent(*order)),
            None => Ok(()),
        }
    }

    /// Records a message of the terminal.
    #[inline(always)]
    pub(crate) fn hear(&mut self, apdu: &ApduView<'_>) -> Result<(), AllocError>
        ensures { OnOk result (FindsBy self.old (HeardIn (heard_as apdu.now) ∷ []) self.new) }
    {
        match self.waiting {
            Some(_) => self.hear_answer(apdu),
            None => Ok(()),
        }
    }

    /// Records a message that may answer an order.
    #[inline(never)]
    fn hear_answer(&mut self, apdu: &ApduView<'_>) -> Result<(), AllocError>
        ensures { OnOk result (FindsBy self.old (HeardIn (heard_as apdu.now) ∷ []) self.new) }
    {
        self.take(&Happening::Heard(heard_view(apdu)))
    }

    /// Records what happens on the line, apart from such an order.
    pub(crate) fn take(&mut self, happening: &Happening) -> Result<(), AllocError>
        ensures { OnOk result (FindsBy self.old (happening.now ∷ []) self.new) }
    {
        let Some(waiting) = self.waiting else {
            return Ok(());
        };
        if is_over(waiting.positive, happening) {
            return self.settle(None);
        }
        match approval_by(happening) {
            Some(approval) => self.settle(Some(approval)),
            None => {
                self.waiting = Some(Waiting {
                    order: waiting.order,
                    positive: is_accepted(waiting.positive, happening),
                });
                Ok(())
            }
        }
    }

    /// Ends the wait of the last order, if it still waits, with this approval.
    fn settle(&mut self, approved: Option<Approval>) -> Result<(), AllocError>
        ensures { OnOk result ((self.new.waiting ≡ None) × (self.new.settled.items ≡ with_unfollowed
            self.old.settled.items (option_map (λ w. with_approval w.order approved) self.old.waiting))) }
    {
        if let Some(waiting) = self.waiting {
            self.settled.push(UnfollowedOrder {
                approved,
                ..waiting.order
            })?;
            self.waiting = None;
        }
        Ok(())
    }

    /// Returns all the orders of a line that has ended.
    pub(crate) fn close(self) -> Result<Vec<UnfollowedOrder>, AllocError>
        ensures { IfOk result (λ orders. orders.items ≡ found_then self []) }
    {
        let mut found = self;
        found.settle(None)?;
        Ok(found.settled)
    }
}

/// Whether this event is the end of an order, or the next order.
fn is_over(positive: bool, happening: &Happening) -> bool
    ensures { result ≡ (is_some (begun happening.now) || ends positive happening.now) }
{
    begun(happening).is_some() || ends(positive, happening)
}

/// Whether the terminal has accepted an order after this event.
fn is_accepted(positive: bool, happening: &Happening) -> bool
    ensures { result ≡ (positive || is_positive happening.now) }
{
    positive || matches!(happening, Happening::Heard(Heard::Positive))
}

/// Returns the approval in a status information: result 0 and an amount, each of which appears exactly once.
fn approval_by(happening: &Happening) -> Option<Approval>
    ensures { result ≡ approval_by happening.now }
{
    let Happening::Heard(Heard::Status(status)) = happening else {
        return None;
    };
    match status.result {
        Some(0) => Some(Approval {
            amount: status.amount?,
            trace: status.trace,
        }),
        _ => None,
    }
}

/// Whether this message of a till, which gives this order, moves money in a way that the books do not follow.
fn is_unfollowed(apdu: &ApduView<'_>, order: &Option<Sent>) -> bool
    requires { order.now ≡ ordered apdu.now }
    ensures { result ≡ is_unfollowed_from FromTill apdu.now }
{
    moves_apart(apdu) || pays_unknown(apdu, order)
}

/// Whether this message of a till moves money in a way that the books do not follow: a refund (06 31), or an order of a
/// pre-authorisation (06 22 to 06 25).
///
/// PA00P015: Refund, Pre-Authorisation, Partial-Reversal of a Pre-Authorisation, Book Total, Pre-Authorisation
/// Reversal.
fn moves_apart(apdu: &ApduView<'_>) -> bool
    ensures { result ≡ moves_apart (control_of apdu.now) }
{
    let [high, low] = apdu.control();
    high == 0x06 && (low == 0x31 || (low > 0x21 && low < 0x26))
}

/// Whether this message of a till, which gives this order, is a payment whose amount is not known.
fn pays_unknown(apdu: &ApduView<'_>, order: &Option<Sent>) -> bool
    requires { order.now ≡ ordered apdu.now }
    ensures { result ≡ pays_unknown apdu.now }
{
    match (apdu.kind(), order) {
        (Kind::Authorisation, Some(Sent::Foreign)) => true,
        _ => false,
    }
}
