//! Events on a till's line, and which of them end an order.
//!
//! `begun`, `ends`, `force_after` and `is_positive` are `#[inline(always)]`: an audit calls them for each happening.
ghost use Rattle.std.specs.Prelude.{◌≡◌};
ghost use Rattle.zvt_till.specs.Segments.{begun, ends, force_after, is_positive};

use crate::messages::Heard;
use zvt_bcd::{Amount, Currency};

/// An order as it was sent.
#[derive(Clone, Copy, Debug, PartialEq, Eq)]
pub enum Sent {
    /// A registration with the currency that it names, if any.
    Register(Option<Currency>),
    Pay(Amount),
    Reverse(usize),
    CloseDay,
    Cancel,
    /// An order that the till of this crate never sends. A trace of another till may contain it.
    Foreign,
}

/// One event on the line.
#[derive(Clone, Copy, Debug, PartialEq, Eq)]
pub enum Happening {
    Connected,
    Sent(Sent),
    Heard(Heard),
    /// The bytes were not a message, and the line is given up.
    Malformed,
    Lost,
}

/// Returns the order that this event begins, if any. Cancel begins none.
#[inline(always)]
pub fn begun(happening: &Happening) -> Option<Sent>
    ensures { result ≡ begun happening.now }
{
    match happening {
        Happening::Sent(Sent::Cancel) => None,
        Happening::Sent(order) => Some(*order),
        _ => None,
    }
}

/// Returns whether this event ends the running order. `positive` says whether the terminal has accepted the order:
/// after that, a negative answer no longer refers to it.
#[inline(always)]
pub fn ends(positive: bool, happening: &Happening) -> bool
    ensures { result ≡ ends positive happening.now }
{
    match happening {
        Happening::Heard(Heard::Completion | Heard::Abort(_))
        | Happening::Malformed
        | Happening::Lost => true,
        Happening::Heard(Heard::Negative(_)) => !positive,
        _ => false,
    }
}

/// Returns the currency in force after this event, which is the one named by the last registration, if any.
#[inline(always)]
pub fn force_after(force: Option<Currency>, happening: &Happening) -> Option<Currency>
    ensures { result ≡ force_after force happening.now }
{
    match happening {
        Happening::Sent(Sent::Register(currency)) => *currency,
        _ => force,
    }
}

/// Returns whether this is a positive answer.
#[inline(always)]
pub fn is_positive(happening: &Happening) -> bool
    ensures { result ≡ is_positive happening.now }
{
    matches!(happening, Happening::Heard(Heard::Positive))
}
