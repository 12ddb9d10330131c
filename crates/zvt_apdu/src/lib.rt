//! The messages between a till and its terminal, and their frame.
#![tactic(auto)]

mod apdu;
mod brief;
pub mod control_bytes;
mod frame;
mod kinds;
pub mod laws;
mod messages;
mod normal_form;
mod owned_message;
pub mod put;
mod reader;
mod views;
mod writer;

pub use apdu::{Apdu, checked};
pub use brief::{Brief, MAX_BRIEF_LEN, brief_message, put_brief};
pub use frame::{Layout, judge_size};
pub use kinds::{Kind, kind_at};
pub use messages::{BadValue, Message};
pub use normal_form::normalise;
pub use owned_message::owned;
pub use reader::{scan, scan_loose, scan_message};
pub use views::{ApduView, view};
pub use writer::{NoRoom, encode, encode_into, size};
