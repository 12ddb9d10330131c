//! The messages, and why one has no spelling.

use thiserror::Error;
use zvt_bcd::Currency;
use zvt_field::Fields;

/// A message between a till and its terminal. Its control bytes are given in hexadecimal.
#[derive(Drop)]
pub enum Message {
    /// 80 00: the other end's message was taken.
    Ack {
        payload: Vec<u8>,
    },
    /// 84 and an error code: rejects it.
    Nack {
        code: u8,
        payload: Vec<u8>,
    },
    /// 06 00: the till registers. After the configuration byte there is nothing, or a currency and fields.
    Registration {
        password: [u8; 3],
        config: u8,
        rest: Option<(Currency, Fields)>,
    },
    /// 06 01: a payment.
    Authorisation(Fields),
    /// 06 30: a payment is taken back.
    Reversal {
        password: [u8; 3],
        fields: Fields,
    },
    /// 06 50: closes the day.
    EndOfDay {
        password: [u8; 3],
        fields: Fields,
    },
    /// 06 B0: the till gives up the running order.
    AbortOrder(Fields),
    /// 04 0F: what became of a payment.
    Status(Fields),
    /// 04 FF: what the terminal is at.
    Intermediate {
        status: u8,
        payload: Vec<u8>,
    },
    /// 06 D1: a print line.
    PrintLine {
        attribute: u8,
        text: Vec<u8>,
    },
    /// 06 D3: lines to print.
    TextBlock(Fields),
    /// 06 0F: the order ended.
    Completion(Fields),
    /// 06 1E: the order was given up.
    Abort {
        code: u8,
        payload: Vec<u8>,
    },
    /// All other control bytes.
    Other {
        control: [u8; 2],
        payload: Vec<u8>,
    },
}

/// Why a message has no spelling.
#[derive(Clone, Copy, Debug, Drop, PartialEq, Eq, Error)]
pub enum BadValue {
    /// The data has more than 65,535 bytes.
    #[error("the message has more than 65,535 bytes of data")]
    TooLarge,
    /// The control bytes belong to a message with a variant of its own.
    #[error("these control bytes belong to a named message: use its variant")]
    NamedControl,
}
