//! Readers and writers for contracts: their models have the bytes, as far as they are known, and the number of
//! failures.
#![tactic(auto)]

mod count;
mod device;
mod over;

pub use count::GhostCount;
pub use device::{Failed, Sink, Source};
pub use over::Over;
