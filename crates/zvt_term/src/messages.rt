//! Requests to the terminal, and its responses.
use zvt_bcd::{Amount, Currency};
use zvt_till::CurrencyFact;

/// The request in a till's message. Each variant gives the message's control bytes in hexadecimal.
#[derive(Clone, Copy)]
pub enum Asked {
    /// 06 00 (PA00P015, Registration), with the currency that it names, if any.
    Registration(Option<Currency>),
    /// 06 01 (PA00P015, Authorisation), with the amount (BMP 04) if it appears exactly once and is not zero, and the
    /// currency (BMP 49).
    Authorisation(Option<Amount>, CurrencyFact),
    /// 06 30 (PA00P015, Reversal), with the receipt number (BMP 87) as read, if it appears exactly once.
    Reversal(Option<[u8; 2]>),
    /// 06 50 (PA00P015, End-of-Day).
    EndOfDay,
    /// 06 B0 (PA00P015, Abort of a command by the ECR).
    AbortOrder,
    /// 80 00 or 84: the till accepted or rejected the terminal's message.
    Answer,
    /// Any other message.
    Unknown,
}

/// A print line of the terminal.
#[derive(Clone, Copy)]
pub enum Line {
    /// `APPROVED` and the amount, in the currency's smallest unit.
    Approved(Amount),
    /// `REVERSED` and the amount, in the currency's smallest unit.
    Reversed(Amount),
    /// `DAY CLOSED`.
    DayClosed,
}

/// A message of the terminal, with the values that it carries. Each variant gives its control bytes in hexadecimal.
#[derive(Clone, Copy)]
pub enum Report {
    /// 80 00: acknowledges the till's message.
    Ack,
    /// 84 and an error code: rejects the till's message.
    Nack(u8),
    /// 06 0F (PA00P015, Completion): the till is registered with the terminal of this number (BMP 29), in the currency
    /// (BMP 49) that it named.
    Registered {
        tid: u32,
        currency: Option<Currency>,
    },
    /// 04 0F (PA00P015, Status-Information): the amount (BMP 04) was approved. The terminal keeps the approval under
    /// this number (BMP 0B and 87), in the currency (BMP 49) of the registration, if that named one.
    Approved {
        amount: Amount,
        number: u16,
        currency: Option<Currency>,
    },
    /// 04 0F: a result code (BMP 27).
    Result(u8),
    /// 04 0F: the approval numbered `original` (BMP 37) was reversed, and the reversal is kept under this number.
    TakenBack {
        amount: Amount,
        number: u16,
        original: u16,
        currency: Option<Currency>,
    },
    /// 06 D1 (PA00P015, Print Line).
    Line(Line),
    /// 06 0F: the order is done.
    Done,
    /// 06 1E and a code (PA00P015, Abort): the order is aborted.
    Aborted(u8),
}

/// The terminal's replies to one message.
#[derive(Clone, Copy)]
pub enum Response {
    Nothing,
    One(Report),
    Two(Report, Report),
}
