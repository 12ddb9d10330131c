//! A till whose orders have keys: however often a client asks, the order of a key is sent at most once.
//!
//! The key of an order is the reference in the note of its record. The record is durable before the order is sent, so
//! a service that is opened again after any crash still knows each key that was sent, and how its order ended. It also
//! knows the keys of the books of earlier days that it is given.
#![tactic(auto)]

mod books;
mod fates;
mod laws;
mod service;

pub use books::Found;
pub use fates::{Fate, Verdict};
pub use laws::{answers_stay, paid_is_booked, sent_once, verdicts_stay};
pub use service::{Service, Ungiven};
