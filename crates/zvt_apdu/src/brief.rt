//! The messages that a till sends, encoded without allocating.

ghost use Rattle.std.specs.Prelude.{◌≡◌, ◌+◌, ◌++◌, [], ◌∷◌, ◌<◌, ◌≤◌, length, IfOk};
ghost use Rattle.zvt_grammar.specs.Reading.{AreBytes};
ghost use Rattle.zvt_tlv.specs.Sizes.{Puts};
ghost use Rattle.zvt_bcd.specs.Digits.{AreDigits, number_of};
ghost use Rattle.zvt_apdu.specs.Briefs.{message_of_brief, PutsMessage};

use crate::apdu::Apdu;
use crate::control_bytes;
use crate::put::{amount_digits, currency_digits, put_after, put_message};
use crate::reader::scan;
use crate::writer::{bytes_size, password_size};
use std::alloc::{AllocError, Global};
use std::fmt;
use zvt_bcd::{Amount, Currency};
use zvt_field::bmp;
use zvt_grammar::Scan;

/// Size of a buffer that holds any till message.
pub const MAX_BRIEF_LEN: usize = 32;

/// A message that a till sends, with the values that it carries. Each variant gives its control bytes in hexadecimal.
#[derive(Clone, Copy, PartialEq, Eq)]
pub enum Brief {
    /// 80 00: acknowledges the terminal's message.
    Ack,
    /// 84 and an error code: rejects it.
    Nack(u8),
    /// 06 00: registers the till and names its currency.
    Register {
        password: [u8; 3],
        config: u8,
        currency: Currency,
    },
    /// 06 01: orders a payment of this amount (BMP 04) in this currency (BMP 49).
    Pay(Amount, Currency),
    /// 06 30: reverses the payment with this receipt number (BMP 87).
    Reverse {
        password: [u8; 3],
        receipt: [u8; 2],
    },
    /// 06 50: closes the day.
    CloseDay {
        password: [u8; 3],
    },
    /// 06 B0: aborts the running order.
    AbortOrder,
}

/// Writes the name of its kind alone, since some hold a password.
impl fmt::Debug for Brief {
    ghost use Rattle.std.specs.Prelude.{Some};
    ghost use Rattle.zvt_apdu.specs.Briefs.{brief_name};

    ghost debug_output = { λ brief. Some (brief_name brief) };

    fn fmt<W: fmt::Write>(&self, f: &mut fmt::Formatter<W>) -> fmt::Result {
        f.write_str(match self {
            Brief::Ack => "Ack",
            Brief::Nack(_) => "Nack",
            Brief::Register { .. } => "Register",
            Brief::Pay(..) => "Pay",
            Brief::Reverse { .. } => "Reverse",
            Brief::CloseDay { .. } => "CloseDay",
            Brief::AbortOrder => "AbortOrder",
        })
    }
}

/// Puts a message at the start whose data is a password and what comes after it, and says its size.
fn put_with_password(
    control: [u8; 2],
    password: [u8; 3],
    more: &[u8],
    out: &mut [u8; MAX_BRIEF_LEN],
) -> usize
    requires { length more.now ≤ 3 }
    ensures written { Puts (control ++ (3 + length more.now) ∷ (password ++ more.now)) out.old out.new result }
    ensures fits { result ≤ 32 }
    ensures three { length password ≡ 3 }
    ensures bytes { AreBytes password }
    ensures more_bytes { AreBytes more.now }
{
    let size = password_size(&password) + bytes_size(more);
    let [high, low] = control;
    let [first, second, third] = password;
    put_after(&[high, low, size as u8, first, second, third], more, out)
}

/// Puts a payment at the start, and says its size.
fn put_payment(amount: Amount, currency: Currency, out: &mut [u8]) -> usize
    requires { 13 ≤ length out.old }
    ensures written { PutsMessage (message_of_brief (Brief.Pay amount currency)) out.old out.new result }
    ensures fits { result ≤ 32 }
{
    let [high, low] = control_bytes::AUTHORISATION;
    let at = put_after(&[high, low, 0x0A, bmp::AMOUNT], &amount_digits(amount), out);
    at + put_after(&[bmp::CURRENCY], &currency_digits(currency), &mut out[at..])
}

/// Puts a reversal at the start, and says its size.
fn put_reversal(password: [u8; 3], receipt: &[u8; 2], out: &mut [u8; MAX_BRIEF_LEN]) -> usize
    ensures written { PutsMessage (message_of_brief (Brief.Reverse password receipt.now)) out.old out.new result }
    ensures fits { result ≤ 32 }
{
    let [high, low] = *receipt;
    put_with_password(
        control_bytes::REVERSAL,
        password,
        &[bmp::RECEIPT, high, low],
        out,
    )
}

/// Encodes the message into the start of the buffer and returns its size. Every brief message fits. The rest of the
/// buffer does not change.
pub fn put_brief(brief: &Brief, buffer: &mut [u8; MAX_BRIEF_LEN]) -> usize
    ensures written { PutsMessage (message_of_brief brief.now) buffer.old buffer.new result }
    ensures fits { result ≤ 32 }
{
    match *brief {
        Brief::Ack => put_message(control_bytes::ACK, &[], buffer),
        Brief::Nack(code) => put_message([control_bytes::NACK, code], &[], buffer),
        Brief::Register {
            password,
            config,
            currency,
        } => {
            let [high, low] = currency_digits(currency);
            put_with_password(
                control_bytes::REGISTRATION,
                password,
                &[config, high, low],
                buffer,
            )
        }
        Brief::Pay(amount, currency) => put_payment(amount, currency, buffer),
        Brief::Reverse { password, receipt } => put_reversal(password, &receipt, buffer),
        Brief::CloseDay { password } => put_with_password(
            control_bytes::END_OF_DAY,
            password,
            &[],
            buffer,
        ),
        Brief::AbortOrder => put_message(control_bytes::ABORT_ORDER, &[], buffer),
    }
}

/// Returns the message that it stands for.
pub fn brief_message(alloc: Global, brief: &Brief) -> Result<Apdu, AllocError>
    ensures { IfOk result (λ apdu. apdu ≡ message_of_brief brief.now) }
{
    let mut buffer = [0; MAX_BRIEF_LEN];
    let size = put_brief(brief, &mut buffer);
    let Scan::Whole((apdu, _)) = scan(alloc, &buffer[..size])? else {
        unreachable!()
    };
    Ok(apdu)
}
