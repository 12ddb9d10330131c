//! Decides whether a till asks its terminal by itself.
ghost use Rattle.std.specs.Prelude.{◌≡◌};
ghost use Rattle.zvt_settle.specs.Inside.{both_of};
ghost use Rattle.zvt_serve.specs.Asking.{asks_by_itself, is_useful};

use zvt_settle::SettlingTill;

/// Returns whether the till asks its terminal for the last transaction. It does so at most once on each line, when it
/// has registered, and only if an answer can be of use. `was_registered` is whether it was found registered on this line
/// before.
pub fn asks_by_itself(was_registered: bool, till: &SettlingTill) -> bool
    ensures { result ≡ asks_by_itself was_registered (both_of till.now) }
{
    !was_registered && till.till().registered() && is_useful(till)
}

/// Returns whether an answer can settle an order, or tell which transaction was the terminal's last.
fn is_useful(till: &SettlingTill) -> bool
    ensures { result ≡ is_useful (both_of till.now) }
{
    till.pending().is_some() || !till.knows_last()
}
