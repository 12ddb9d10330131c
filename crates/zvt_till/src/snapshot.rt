//! Saves a till in bytes and restores it.
mod decoder;
mod encoder;
mod input;
mod layouts;
mod sums;

pub use decoder::{LoadError, load, reloaded};
pub use encoder::{cause_code, save};
