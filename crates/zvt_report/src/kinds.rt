//! The kinds of orders in a report.
ghost use Rattle.std.specs.Prelude.{◌≡◌};
ghost use Rattle.zvt_report.specs.Kinds.{foreign_kind, kind_at, kind_of};

use crate::objects::message_at;
use crate::rows::{OrderMessage, OrderRow};
use zvt_till::Sent;

/// The kind of an order in a report.
#[derive(Clone, Copy)]
pub(crate) enum OrderKind {
    Payment,
    /// A reversal of a payment of the book or of one that is not in the trace.
    Reversal,
    /// An order that moves money, and that the book does not follow.
    OtherMoney,
    /// An end of day.
    Close,
    /// An order that moves no money.
    Plain,
}

/// Returns the kind of an order that the book does not know, by its control bytes.
pub(crate) fn foreign_kind(high: u8, low: u8) -> OrderKind
    ensures { result ≡ foreign_kind high low }
{
    if high != 0x06 {
        return OrderKind::Plain;
    }
    match low {
        0x30 => OrderKind::Reversal,
        0x01 | 0x04 | 0x09 | 0x0A | 0x21 | 0x22 | 0x23 | 0x24 | 0x25 | 0x31 => {
            OrderKind::OtherMoney
        }
        _ => OrderKind::Plain,
    }
}

/// Returns the kind of an order with these control bytes.
pub(crate) fn kind_of(order: &Sent, high: u8, low: u8) -> OrderKind
    ensures { result ≡ kind_of order.now high low }
{
    match order {
        Sent::Pay(_) => OrderKind::Payment,
        Sent::Reverse(_) => OrderKind::Reversal,
        Sent::CloseDay => OrderKind::Close,
        Sent::Foreign => foreign_kind(high, low),
        Sent::Register(_) | Sent::Cancel => OrderKind::Plain,
    }
}

/// Returns the kind of the order with this row, which stands at this place.
pub(crate) fn kind_at(messages: &[OrderMessage], place: usize, row: &OrderRow) -> OrderKind
    ensures { result ≡ kind_at messages.now place row.now }
{
    let message = message_at(messages, place);
    kind_of(&row.order, message.high, message.low)
}
