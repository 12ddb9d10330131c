//! Writes the numbers of orders, counted from 1.
ghost use Rattle.std.specs.Prelude.{◌≡◌, ◌++◌, OnOk};
ghost use Rattle.serde_json.specs.Written.{compact_text};
ghost use Rattle.zvt_report.specs.Members.{order_value, orders_value};
ghost use Rattle.zvt_report.specs.declared.explaining.Explained.TheVariants as explained;

use crate::explaining::Explained;
use std::alloc::AllocError;
use zvt_text::Text;

/// Writes the number of the order with this index, counted from 1.
fn write_order(text: &mut Text, order: usize) -> Result<(), AllocError>
    ensures { OnOk result (text.new ≡ text.old ++ compact_text (order_value order)) }
{
    text.number(order as u128 + 1)
}

/// Writes the numbers of two orders as an array.
fn write_pair(text: &mut Text, a: usize, b: usize) -> Result<(), AllocError>
    ensures { OnOk result (text.new ≡ text.old ++ compact_text (orders_value (explained.Two a b))) }
{
    text.push(b'[')?;
    write_order(text, a)?;
    text.push(b',')?;
    write_order(text, b)?;
    text.push(b']')
}

/// Writes the numbers of three orders as an array.
fn write_triple(text: &mut Text, a: usize, b: usize, c: usize) -> Result<(), AllocError>
    ensures { OnOk result (text.new ≡ text.old ++ compact_text (orders_value (explained.Three a b c))) }
{
    text.push(b'[')?;
    write_order(text, a)?;
    text.push(b',')?;
    write_order(text, b)?;
    text.push(b',')?;
    write_order(text, c)?;
    text.push(b']')
}

/// Writes the number of one order as an array.
fn write_single(text: &mut Text, a: usize) -> Result<(), AllocError>
    ensures { OnOk result (text.new ≡ text.old ++ compact_text (orders_value (explained.One a))) }
{
    text.push(b'[')?;
    write_order(text, a)?;
    text.push(b']')
}

/// Writes the numbers of orders as an array.
pub(crate) fn write_orders(text: &mut Text, orders: &Explained) -> Result<(), AllocError>
    ensures { OnOk result (text.new ≡ text.old ++ compact_text (orders_value orders.now)) }
{
    match orders {
        Explained::One(a) => write_single(text, *a),
        Explained::Two(a, b) => write_pair(text, *a, *b),
        Explained::Three(a, b, c) => write_triple(text, *a, *b, *c),
        Explained::Nothing | Explained::Empty | Explained::Several => text.word(b"[]"),
    }
}
