//! The terminal's messages as a till distinguishes them, and its immediate replies.
ghost use Rattle.std.specs.Prelude.{◌≡◌};
ghost use Rattle.zvt_till.specs.Sending.{reply_to};
ghost use Rattle.zvt_till.specs.Statuses.{spells};

use crate::orders::Outgoing;
use zvt_apdu::Brief;
use zvt_bcd::{Amount, Currency, Trace, is_digits, number};

/// Error code of the reply to a message that a till does not understand.
const UNKNOWN_MESSAGE: u8 = 0x83;

/// The payment that a status reverses, by its trace number (BMP 37), as three bytes that need not be digits.
#[derive(Clone, Copy, Debug, PartialEq, Eq)]
pub enum Original {
    Absent,
    Once([u8; 3]),
    Many,
}

impl Original {
    ghost use Rattle.std.specs.Prelude.{◌≡◌};
    ghost use Rattle.zvt_till.specs.Statuses.{is_absent, names};

    /// Returns whether no payment is named.
    pub fn is_absent(&self) -> bool
        ensures { result ≡ is_absent self.now }
    {
        matches!(self, Original::Absent)
    }

    /// Returns whether exactly the payment with this trace number is named.
    pub fn names(&self, trace: Trace) -> bool
        ensures { result ≡ names self.now trace }
    {
        match self {
            Original::Once(digits) => spells(*digits, trace),
            _ => false,
        }
    }
}

/// The currency that a message names (BMP 49).
#[derive(Clone, Copy, Debug, PartialEq, Eq)]
pub enum CurrencyFact {
    Absent,
    Once(Currency),
    Many,
}

impl CurrencyFact {
    ghost use Rattle.std.specs.Prelude.{◌≡◌};
    ghost use Rattle.zvt_till.specs.Statuses.{is_in_currency};

    /// Returns whether the message names no currency, or exactly one which is the currency in force, if there is one.
    pub fn is_in(&self, force: Option<Currency>) -> bool
        ensures { result ≡ is_in_currency force self.now }
    {
        match self {
            CurrencyFact::Absent => true,
            CurrencyFact::Once(named) => match force {
                None => true,
                Some(own) => *named == own,
            },
            CurrencyFact::Many => false,
        }
    }
}

/// The values of a status information (PA00P015, Status-Information). A field that appears more than once counts as
/// absent, except that BMP 37 and BMP 49 report this.
#[derive(Clone, Copy, Debug, PartialEq, Eq)]
pub struct StatusFacts {
    /// The result code (BMP 27), which is 0 if the terminal approves.
    pub result: Option<u8>,
    /// Whether there is any BMP 27, so that a code that is missing can be told from several.
    pub has_result: bool,
    /// The amount (BMP 04).
    pub amount: Option<Amount>,
    /// The trace number (BMP 0B).
    pub trace: Option<Trace>,
    /// The receipt number (BMP 87) as read: two bytes, which need not be digits.
    pub receipt: Option<[u8; 2]>,
    /// The reversed payment (BMP 37).
    pub original: Original,
    /// The currency (BMP 49).
    pub currency: CurrencyFact,
}

/// A message of the terminal.
#[derive(Clone, Copy, Debug, PartialEq, Eq)]
pub enum Heard {
    /// 80 00, or 84 00, which is not a refusal either.
    Positive,
    /// 84 and a code other than 0.
    Negative(u8),
    /// 04 0F (PA00P015, Status-Information).
    Status(StatusFacts),
    /// A message that the till only acknowledges: an intermediate status, a print line or a text block.
    Passing,
    /// 06 0F (PA00P015, Completion), which ends an order.
    Completion,
    /// 06 1E with its code (PA00P015, Abort), which also ends an order.
    Abort(u8),
    /// A message that no terminal sends to a till.
    Strange,
}

/// Returns whether these bytes are digits that spell the trace number.
fn spells(digits: [u8; 3], trace: Trace) -> bool
    ensures { result ≡ spells digits trace }
{
    is_digits(digits.as_slice()) && number(digits.as_slice()) == u64::from(trace.get())
}

/// Returns the immediate reply to a message, or `None` for an acknowledgement.
pub fn reply_to(heard: &Heard) -> Option<Outgoing>
    ensures { result ≡ reply_to heard.now }
{
    let brief = match heard {
        Heard::Positive | Heard::Negative(_) => return None,
        Heard::Strange => Brief::Nack(UNKNOWN_MESSAGE),
        _ => Brief::Ack,
    };
    Some(Outgoing { brief })
}
