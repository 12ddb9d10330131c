//! What the message of an order says beside the order itself.
ghost use Rattle.std.specs.Prelude.{◌≡◌, ◌<◌, ◌^◌, ◌∷◌, [], List, length, Option, IfOk};
ghost use Rattle.zvt_apdu.specs.Kinds.{kind_of};
ghost use Rattle.zvt_apdu.specs.Views.{control_of, fields_in};
ghost use Rattle.zvt_apdu.specs.declared.kinds.Kind.TheVariants.{Other};
ghost use Rattle.zvt_field.specs.Grammar.{Field};
ghost use Rattle.zvt_report.specs.Said.{AreSpelledBy, IsSaidBy, has_password, listed_in, moves_money, said_with};

use crate::kinds::{OrderKind, foreign_kind};
use crate::rows::OrderMessage;
use std::alloc::{AllocError, Global};
use zvt_apdu::{ApduView, Kind};
use zvt_field::scan_loose;
use zvt_grammar::Scan;

/// The number of bytes of a password.
const PASSWORD: usize = 3;

/// Returns what a message of a till says beside the order that it begins. A message that this library does not name
/// says more than its control bytes only if it moves money.
pub(crate) fn order_message(alloc: Global, apdu: &ApduView<'_>) -> Result<OrderMessage, AllocError>
    ensures { IfOk result (IsSaidBy apdu.now) }
{
    match apdu.kind() {
        Kind::Other => other_message(alloc, apdu),
        _ => Ok(known_message(apdu)),
    }
}

/// Returns what a message that this library names says.
fn known_message(apdu: &ApduView<'_>) -> OrderMessage
    ensures { result ≡ said_with (control_of apdu.now) (fields_in apdu.now) }
{
    let [high, low] = apdu.control();
    match apdu.fields() {
        Some(fields) => OrderMessage {
            high,
            low,
            amount: fields.amount(),
            receipt: fields.receipt(),
        },
        None => silent_message(high, low),
    }
}

/// Returns what a message without fields says.
fn silent_message(high: u8, low: u8) -> OrderMessage
    ensures { result ≡ said_with (high ∷ low ∷ []) Option.None }
{
    OrderMessage {
        high,
        low,
        amount: None,
        receipt: None,
    }
}

/// Returns what a message that this library does not name says.
fn other_message(alloc: Global, apdu: &ApduView<'_>) -> Result<OrderMessage, AllocError>
    requires { kind_of apdu.now ≡ Other }
    ensures { IfOk result (IsSaidBy apdu.now) }
{
    let [high, low] = apdu.control();
    // They bound the size of the data.
    let _bytes = apdu.bytes();
    match apdu.payload() {
        Some(payload) if moves_money(high, low) => {
            listed_message(alloc, high, low, listed_in(low, payload))
        }
        _ => Ok(silent_message(high, low)),
    }
}

/// Whether a message with these control bytes is an order that moves money and that the book does not follow.
fn moves_money(high: u8, low: u8) -> bool
    ensures { result ≡ moves_money high low }
{
    matches!(foreign_kind(high, low), OrderKind::OtherMoney)
}

/// Whether the data of such a message begins with a password.
fn has_password(low: u8) -> bool
    ensures { result ≡ has_password low }
{
    low == 0x25 || low == 0x31
}

/// Returns the data after the password.
fn listed_in<'a>(low: u8, payload: &'a [u8]) -> &'a [u8]
    ensures { result.now ≡ listed_in low payload.now }
{
    if !has_password(low) {
        payload
    } else if payload.len() < PASSWORD {
        &[]
    } else {
        &payload[PASSWORD..]
    }
}

/// Returns what a message with these control bytes and this data says. If the data spells no fields, the message says
/// nothing more than its control bytes.
fn listed_message(
    alloc: Global,
    high: u8,
    low: u8,
    listed: &[u8],
) -> Result<OrderMessage, AllocError>
    requires { length listed.now < 2 ^ 16 }
    ensures { IfOk result (λ said. (fields : Option (List Field)) × AreSpelledBy listed.now fields
        × (said ≡ said_with (high ∷ low ∷ []) fields)) }
{
    if listed.len() == 1 {
        return Ok(silent_message(high, low));
    }
    match scan_loose(alloc, listed, listed.len())? {
        Scan::Whole(fields) => Ok(OrderMessage {
            high,
            low,
            amount: zvt_field::amount(&fields),
            receipt: zvt_field::receipt(&fields),
        }),
        _ => Ok(silent_message(high, low)),
    }
}
