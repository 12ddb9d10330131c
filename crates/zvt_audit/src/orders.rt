//! Records which sides of the line sent orders.
ghost use Rattle.std.specs.Prelude.{◌≡◌, false, not, ◌&&◌};
ghost use Rattle.zvt_audit.specs.Orders.{is_order, noticed_kind};

use zvt_apdu::Kind;
use zvt_trace::Direction;

/// The sides that have sent a till's order.
#[derive(Clone, Copy)]
pub(crate) struct Orders {
    pub(crate) till: bool,
    pub(crate) terminal: bool,
}

impl Orders {
    /// Starts before any order.
    pub(crate) fn none() -> Orders
        ensures { (result.till ≡ false) × (result.terminal ≡ false) }
    {
        Orders {
            till: false,
            terminal: false,
        }
    }

    /// Records a message of this kind.
    #[inline(always)]
    pub(crate) fn notice(&mut self, from: Direction, kind: Kind)
        ensures { self.new ≡ noticed_kind self.old from kind }
    {
        match from {
            Direction::FromTill => {
                if is_order(kind) {
                    self.till = true;
                }
            }
            Direction::FromTerminal => {
                if is_order(kind) {
                    self.terminal = true;
                }
            }
        }
    }

    /// Returns whether orders came only from the side that is marked as the terminal's.
    pub(crate) fn are_swapped(&self) -> bool
        ensures { result ≡ (not self.now.till && self.now.terminal) }
    {
        !self.till && self.terminal
    }
}

/// Whether a message of this kind is an order. Only a till sends one.
#[inline(always)]
pub fn is_order(kind: Kind) -> bool
    ensures { result ≡ is_order kind }
{
    match kind {
        Kind::Registration
        | Kind::Authorisation
        | Kind::Reversal
        | Kind::EndOfDay
        | Kind::AbortOrder => true,
        _ => false,
    }
}
