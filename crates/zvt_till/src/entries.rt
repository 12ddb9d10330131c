//! The entries of the book.
ghost use Rattle.std.specs.Prelude.{◌≡◌};
ghost use Rattle.zvt_till.specs.Till.{entry_after};

use crate::outcomes::{Cause, Outcome};
use zvt_bcd::{Amount, Trace};

/// Result code: the terminal had reversed the payment before.
const ALREADY_REVERSED: u8 = 0xB4;

/// The doubt about the reversal of a payment.
#[derive(Clone, Copy, Debug, PartialEq, Eq)]
pub enum Doubt {
    /// There is no doubt.
    No,
    /// It is unknown whether the last reversal succeeded.
    Unclear(Cause),
    /// No reversal was completed, but the terminal refused or aborted one with B4, because it had reversed the payment
    /// before.
    TakenBack,
}

/// A payment that the terminal completed.
#[derive(Clone, Copy, Debug, PartialEq, Eq)]
pub struct Entry {
    pub amount: Amount,
    /// The trace number that the terminal gave it. No other entry has this number.
    pub trace: Trace,
    /// The receipt number from the first status information, which a reversal needs.
    pub receipt: Option<[u8; 2]>,
    /// Whether a completed reversal took the payment back.
    pub reversed: bool,
    /// The doubt about its reversal.
    pub doubt: Doubt,
}

impl Entry {
    /// Records how a reversal of the payment ended. The entry does not change after a decline, or after a refusal or an
    /// abort with a code other than B4.
    pub fn end_reversal(&mut self, outcome: &Outcome)
        ensures { self.new ≡ entry_after self.old outcome.now }
    {
        match outcome {
            Outcome::Reversed => {
                self.reversed = true;
                self.doubt = Doubt::No;
            }
            Outcome::Unclear(cause) => self.doubt = Doubt::Unclear(*cause),
            Outcome::Refused(ALREADY_REVERSED) | Outcome::Aborted(ALREADY_REVERSED) => {
                self.doubt = Doubt::TakenBack;
            }
            _ => {}
        }
    }
}
