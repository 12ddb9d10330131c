//! The C library: reading messages, their text, and the till, for programs in C and in languages that call C.
#![tactic(auto)]

mod answer;
mod asking;
mod card;
mod codec;
mod handle;
pub mod laws;
mod lines;
mod names;
mod notes;
mod numbers;
mod raw_box;
mod raw_handle;
mod records;
mod recovery;
mod session;
mod snapshot;
mod statuses;
mod stream;
mod till;
mod version;

pub use answer::ZvtAnswer;
pub use asking::{ZvtPending, ZvtSettlement};
pub use handle::ZvtTill;
pub use lines::ZvtLine;
pub use numbers::{ZvtEntry, ZvtOutcome, ZvtState, ZvtStep};
