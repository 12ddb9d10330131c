//! The simulated terminal, and the two ends of a line together.
#![tactic(auto)]

mod answers;
pub mod asked;
mod cards;
mod codes;
mod dressing;
mod extended;
pub mod extras;
mod held;
pub mod laws;
mod ledger;
mod messages;
mod refunds;
mod served;
mod terminal;
mod turns;
mod world;
mod writer;

pub use cards::Card;
pub use extended::Extended;
pub use extras::{Extra, Extras, Receipts};
pub use ledger::Row;
pub use messages::{Asked, Line, Report, Response};
pub use refunds::Refunded;
pub use served::Served;
pub use terminal::{Input, MAX_LEDGER_ROWS, Terminal};
pub use turns::{Phase, Verdict};
pub use world::{DEFAULT_TID, Move, World, run_world};
pub use writer::{MAX_REPORT_LEN, put_report, report_message};
