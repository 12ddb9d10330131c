//! The orders in the messages of a till.
ghost use Rattle.std.specs.Prelude.{◌≡◌, OnOk};
ghost use Rattle.zvt_trace.specs.declared.direction.Direction.TheVariants.{FromTill};
ghost use Rattle.zvt_report.specs.Reported.{beginning, beginning_from, order_in};
ghost use Rattle.zvt_report.specs.Reports.{SaysMore};

use crate::rows::OrderMessage;
use crate::said::order_message;
use std::alloc::{AllocError, Global};
use zvt_apdu::{ApduView, Kind};
use zvt_audit::ordered;
use zvt_bcd::Amount;
use zvt_till::{Happening, Sent, begun};

/// An order in a message of a till.
#[derive(Clone, Copy)]
pub(crate) enum TillOrder {
    /// A reversal with the receipt number that it names, if it names exactly one.
    Reversal(Option<[u8; 2]>),
    /// Any other order.
    Plain(Sent),
}

/// Returns the order that a till gives with this message, if any.
pub(crate) fn order_in(apdu: &ApduView<'_>) -> Option<TillOrder>
    ensures { result ≡ order_in apdu.now }
{
    match apdu.kind() {
        Kind::Reversal => Some(TillOrder::Reversal(apdu.fields()?.receipt())),
        _ => Some(TillOrder::Plain(ordered(apdu)?)),
    }
}

/// Returns the order that a till begins with this message, if any. An order to abort begins none.
pub(crate) fn beginning(apdu: &ApduView<'_>) -> Option<Sent>
    ensures { result ≡ beginning apdu.now }
{
    begun(&Happening::Sent(ordered(apdu)?))
}

/// Adds what this message of a till says, if it begins an order.
pub(crate) fn add_message(
    alloc: Global,
    messages: &mut Vec<OrderMessage>,
    apdu: &ApduView<'_>,
) -> Result<(), AllocError>
    ensures { OnOk result (SaysMore messages.old.items (beginning_from FromTill apdu.now) messages.new.items) }
{
    // Names a type in a message, which the proof asks for.
    let _amount: Option<Amount> = None;
    if beginning(apdu).is_some() {
        let message = order_message(alloc, apdu)?;
        messages.push(message)?;
    }
    Ok(())
}
