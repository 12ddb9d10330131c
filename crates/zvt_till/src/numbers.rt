//! The numbers that the terminal names in the status information of an order.
ghost use Rattle.std.specs.Prelude.{◌≡◌};
ghost use Rattle.zvt_till.specs.Segments.{status_of};
ghost use Rattle.zvt_till.specs.Numbers.{no_numbers, with_status};

use crate::happenings::Happening;
use crate::messages::Heard;
use zvt_bcd::Trace;

/// The trace and receipt numbers (BMP 0B and 87) from the status information of an order. If several numbers were
/// named, the last one counts.
#[derive(Clone, Copy, Debug, PartialEq, Eq)]
pub struct Numbers {
    pub trace: Option<Trace>,
    pub receipt: Option<[u8; 2]>,
}

impl Numbers {
    /// Returns no numbers.
    pub fn none() -> Numbers
        ensures { result ≡ no_numbers }
    {
        Numbers {
            trace: None,
            receipt: None,
        }
    }

    /// Returns these numbers, updated by one more status information if the event is one.
    pub(crate) fn with(self, happening: &Happening) -> Numbers
        ensures { result ≡ with_status self (status_of happening.now) }
    {
        match happening {
            Happening::Heard(Heard::Status(status)) => Numbers {
                trace: status.trace.or(self.trace),
                receipt: status.receipt.or(self.receipt),
            },
            _ => self,
        }
    }
}
