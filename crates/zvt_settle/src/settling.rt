//! A till that settles its unclear orders.
//!
//! It asks the terminal to repeat its last receipt (PA00P015, Repeat Receipt), and decides by the answer whether an
//! unclear payment or reversal happened. The till inside handles every message and keeps its book. What was settled
//! stands beside the book.
ghost use Rattle.zvt_settle.specs.Room.{HasRoom};

mod ordering;
mod steps;

use crate::deciding::{Pending, Settlement, StatusSoFar};
use zvt_till::{StatusFacts, Till};

/// A till that settles its unclear orders.
#[derive(Drop)]
pub struct SettlingTill {
    till: Till,
    /// Whether the terminal has accepted the running ask, if one is running.
    asking: Option<bool>,
    so_far: StatusSoFar,
    /// The status of the terminal's last transaction, if it is known.
    last: Option<StatusFacts>,
    pending: Option<Pending>,
    settled: Vec<Settlement>,
    /// While an ask runs, there is room for what it settles.
    ghost room: { HasRoom asking settled },
}
