//! Which message the control bytes name.

ghost use Rattle.std.specs.Prelude.{◌≡◌, ◌≤◌, ◌+◌, ◌++◌, ℕ, List, length, drop, Some, true};
ghost use Rattle.zvt_bcd.specs.Digits.{AreDigits};
ghost use Rattle.zvt_grammar.specs.Reading.{AreBytes, Reading};
ghost use Rattle.zvt_field.specs.Grammar.{FieldList};
ghost use Rattle.zvt_apdu.specs.Grammar.{form_of, BytesFrom, FieldsFrom};
ghost use Rattle.zvt_apdu.specs.Kinds.{kind_at};
ghost use Rattle.zvt_apdu.specs.Judging.{bytes_after, head_size, layout_of};
ghost use Rattle.zvt_apdu.specs.Messages.{message_of, IsMessage};

use crate::control_bytes;
use crate::frame::{Form, form_of};
use crate::messages::Message;
use zvt_bcd::{Currency, number};
use zvt_field::Fields;

/// Which of the messages one is.
#[derive(Clone, Copy, Debug, PartialEq, Eq)]
pub enum Kind {
    Ack,
    Nack,
    Registration,
    Authorisation,
    Reversal,
    EndOfDay,
    AbortOrder,
    Status,
    Intermediate,
    PrintLine,
    TextBlock,
    Completion,
    Abort,
    Other,
}

/// Returns the kind of message with these control bytes. The most frequent kinds are tested first.
#[tactic(auto, unfolding(crate::specs::Kinds::kind_at))]
#[inline(always)]
pub fn kind_at(high: u8, low: u8) -> Kind
    ensures { result ≡ kind_at high low }
{
    match [high, low] {
        control_bytes::ACK => Kind::Ack,
        control_bytes::STATUS => Kind::Status,
        control_bytes::COMPLETION => Kind::Completion,
        control_bytes::AUTHORISATION => Kind::Authorisation,
        control_bytes::PRINT_LINE => Kind::PrintLine,
        control_bytes::INTERMEDIATE => Kind::Intermediate,
        control_bytes::TEXT_BLOCK => Kind::TextBlock,
        control_bytes::ABORT => Kind::Abort,
        control_bytes::REGISTRATION => Kind::Registration,
        control_bytes::REVERSAL => Kind::Reversal,
        control_bytes::END_OF_DAY => Kind::EndOfDay,
        control_bytes::ABORT_ORDER => Kind::AbortOrder,
        [control_bytes::NACK, _] => Kind::Nack,
        _ => Kind::Other,
    }
}

/// Returns the message whose data are these first bytes, followed by bytes of any value.
#[inline(always)]
pub(crate) fn bytes_message(high: u8, low: u8, first: &[u8], payload: Vec<u8>) -> Message
    requires laid { layout_of high low (length first.now + length payload.items) ≡ bytes_after (length first.now) }
    requires are_bytes { AreBytes (first.now ++ payload.items) }
    ensures { (r : Reading) → IsMessage r high low (first.now ++ payload.items) (message_of result) }
{
    match form_of(high, low) {
        None => Message::Other {
            control: [high, low],
            payload,
        },
        Some(Form::Registration) => Message::Registration {
            password: [first[0], first[1], first[2]],
            config: first[3],
            rest: None,
        },
        Some(_) => named_bytes(high, low, first, payload),
    }
}

/// Returns the message with these control bytes whose data are one fixed byte, if any, followed by bytes of any value.
#[inline(always)]
fn named_bytes(high: u8, low: u8, first: &[u8], payload: Vec<u8>) -> Message
    requires named { form_of high low ≡ Some (BytesFrom (length first.now)) }
    requires are_bytes { AreBytes (first.now ++ payload.items) }
    ensures { (r : Reading) → IsMessage r high low (first.now ++ payload.items) (message_of result) }
{
    let [byte, ..] = first else {
        return if high == control_bytes::NACK {
            Message::Nack { code: low, payload }
        } else {
            Message::Ack { payload }
        };
    };
    if high == control_bytes::INTERMEDIATE[0] {
        return Message::Intermediate {
            status: *byte,
            payload,
        };
    }
    if low == control_bytes::ABORT[1] {
        return Message::Abort {
            code: *byte,
            payload,
        };
    }
    Message::PrintLine {
        attribute: *byte,
        text: payload,
    }
}

/// The message whose data are these first bytes and fields.
#[inline(always)]
pub(crate) fn fields_message(high: u8, low: u8, first: &[u8], fields: Fields) -> Message
    requires fields { (n : ℕ) × ((layout_of high low n).fields ≡ true)
        × (head_size (layout_of high low n) ≡ length first.now)
        × AreDigits (drop (layout_of high low n).free first.now) }
    requires are_bytes { AreBytes first.now }
    ensures { (r : Reading) (listed : List ℕ) → FieldList r fields listed → IsMessage r high low (first.now ++ listed)
        (message_of result) }
{
    let Some(Form::Registration) = form_of(high, low) else {
        return named_fields(high, low, first, fields);
    };
    let Some(currency) = Currency::new(number(&first[4..]) as u16) else {
        unreachable!()
    };
    Message::Registration {
        password: [first[0], first[1], first[2]],
        config: first[3],
        rest: Some((currency, fields)),
    }
}

/// Returns the message with these control bytes whose data are a password, if any, followed by fields.
#[inline(always)]
fn named_fields(high: u8, low: u8, first: &[u8], fields: Fields) -> Message
    requires named { form_of high low ≡ Some (FieldsFrom (length first.now)) }
    requires are_bytes { AreBytes first.now }
    ensures { (r : Reading) (listed : List ℕ) → FieldList r fields listed → IsMessage r high low (first.now ++ listed)
        (message_of result) }
{
    if first.len() == 3 {
        let password = [first[0], first[1], first[2]];
        return if low == control_bytes::REVERSAL[1] {
            Message::Reversal { password, fields }
        } else {
            Message::EndOfDay { password, fields }
        };
    }
    if high == control_bytes::STATUS[0] {
        return Message::Status(fields);
    }
    if low == control_bytes::AUTHORISATION[1] {
        return Message::Authorisation(fields);
    }
    if low == control_bytes::COMPLETION[1] {
        return Message::Completion(fields);
    }
    if low == control_bytes::ABORT_ORDER[1] {
        return Message::AbortOrder(fields);
    }
    Message::TextBlock(fields)
}
