//! Orders beyond the profile.
ghost use Rattle.std.specs.Prelude.{◌≡◌, length};
ghost use Rattle.zvt_term.specs.Extras.{amount_in, extra_at, extra_of, no_extras, refund_amount};

use crate::cards::Card;
use zvt_apdu::{ApduView, Kind};
use zvt_bcd::{Amount, is_digits, number};
use zvt_field::bmp::AMOUNT;

// The control bytes of these orders, each with the title of its chapter in PA00P015.

/// Status-Enquiry.
const STATUS_ENQUIRY: [u8; 2] = [0x05, 0x01];
/// Log-Off.
const LOG_OFF: [u8; 2] = [0x06, 0x02];
/// Repeat Receipt.
const REPEAT_RECEIPT: [u8; 2] = [0x06, 0x20];
/// Refund.
const REFUND: [u8; 2] = [0x06, 0x31];
/// Diagnosis.
const DIAGNOSIS: [u8; 2] = [0x06, 0x70];
/// Set Date and Time in PT.
const SET_CLOCK: [u8; 2] = [0x06, 0x91];
/// Initialisation.
const INITIALISATION: [u8; 2] = [0x06, 0x93];
/// Select Language.
const SELECT_LANGUAGE: [u8; 2] = [0x08, 0x30];

/// What a simulated terminal does beyond the profile.
#[derive(Clone, Copy)]
pub struct Extras {
    /// Whether it also accepts the orders of [`Extra`].
    pub extended: bool,
    /// The card whose fields are in the status of each approval, refund and reversal, if there is one.
    pub card: Option<Card>,
    /// The form of its receipts.
    pub receipts: Receipts,
    /// Whether it sends an intermediate status, and waits for the reply, before the first status of an order.
    pub intermediate: bool,
    /// How long it holds a payment, between the acknowledgement and its decision, in milliseconds. 0 holds none.
    pub delay: u16,
}

/// The form of receipts.
#[derive(Clone, Copy)]
pub enum Receipts {
    /// Print lines (06 D1).
    Lines,
    /// Text blocks (06 D3), each with one line.
    Blocks,
    /// No receipts.
    Nothing,
}

impl Extras {
    /// Returns the settings of a terminal of the profile, which does nothing beyond it.
    pub fn none() -> Extras
        ensures { result ≡ no_extras }
    {
        Extras {
            extended: false,
            card: None,
            receipts: Receipts::Lines,
            intermediate: false,
            delay: 0,
        }
    }
}

/// An order beyond the profile. Each variant gives the control bytes in hexadecimal.
#[derive(Clone, Copy)]
pub enum Extra {
    /// 05 01 (PA00P015, Status-Enquiry), 06 70 (Diagnosis), 06 91 (Set Date and Time in PT), 06 93 (Initialisation) and
    /// 08 30 (Select Language), which the terminal completes at once.
    Service,
    /// 06 02 (PA00P015, Log-Off).
    LogOff,
    /// 06 20 (PA00P015, Repeat Receipt).
    RepeatReceipt,
    /// 06 31 (PA00P015, Refund), with the amount (BMP 04) if it is the first field after the password and not zero.
    Refund(Option<Amount>),
}

/// Returns the amount that six bytes spell, unless it is zero.
fn amount_in(digits: &[u8]) -> Option<Amount>
    requires { length digits.now ≡ 6 }
    ensures { result ≡ amount_in digits.now }
{
    if is_digits(digits) {
        Amount::new(number(digits))
    } else {
        None
    }
}

/// Returns the amount of a refund with this data.
fn refund_amount(content: &[u8]) -> Option<Amount>
    ensures { result ≡ refund_amount content.now }
{
    if content.len() <= 9 || content[3] != AMOUNT {
        return None;
    }
    amount_in(&content[4..10])
}

/// Returns the order with these control bytes and data.
#[tactic(auto, unfolding(crate::specs::Extras::extra_at))]
fn extra_at(high: u8, low: u8, content: &[u8]) -> Option<Extra>
    ensures { result ≡ extra_at high low content.now }
{
    match [high, low] {
        STATUS_ENQUIRY | DIAGNOSIS | SET_CLOCK | INITIALISATION | SELECT_LANGUAGE => {
            Some(Extra::Service)
        }
        LOG_OFF => Some(Extra::LogOff),
        REPEAT_RECEIPT => Some(Extra::RepeatReceipt),
        REFUND => Some(Extra::Refund(refund_amount(content))),
        _ => None,
    }
}

/// Returns the order beyond the profile in a message, if it is one.
pub fn extra_of(apdu: &ApduView<'_>) -> Option<Extra>
    ensures { result ≡ extra_of apdu.now }
{
    match (apdu.kind(), apdu.payload()) {
        (Kind::Other, Some(content)) => {
            let [high, low] = apdu.control();
            extra_at(high, low, content)
        }
        _ => None,
    }
}
