//! The memory that a handle owns.

use crate::card::Card;
use zvt_settle::SettlingTill;
use zvt_stream::Stream;

/// A till, the incomplete message that its line has received, and the card of the last order.
#[derive(Drop)]
pub struct Session {
    pub till: SettlingTill,
    pub stream: Stream,
    pub card: Card,
}
