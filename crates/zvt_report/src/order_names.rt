//! The names of orders.
ghost use Rattle.std.specs.Prelude.{◌≡◌, option_map};
ghost use Rattle.zvt_report.specs.OrderNames.{order_name};

use zvt_text::command_name;

/// Returns the name of the order with these control bytes, of those that move no money: a registration, or another
/// command.
pub(crate) fn order_name(high: u8, low: u8) -> Option<&'static str>
    ensures { option_map (λ name. name.now) result ≡ order_name high low }
{
    match (high, low) {
        (0x06, 0x00) => Some("registration"),
        _ => command_name(high, low),
    }
}
