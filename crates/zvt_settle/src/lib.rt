//! A till that asks its terminal what became of an unclear order.
#![tactic(auto)]

mod answers;
mod asking;
mod deciding;
mod keeping;
pub mod laws;
mod line;
mod machine;
mod settling;

pub use asking::Asker;
pub use deciding::{Pending, Settlement, StatusSoFar, What};
pub use line::run_ask;
pub use settling::SettlingTill;
