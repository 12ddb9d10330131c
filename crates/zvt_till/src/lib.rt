//! The till's end of a line: which orders it accepts, how it interprets the terminal's messages, and its book.
#![tactic(auto)]

mod bookkeeping;
mod entries;
mod events;
mod happenings;
mod hearing;
mod keeper;
pub mod laws;
mod line;
mod log_books;
mod messages;
mod numbers;
mod orders;
mod outcomes;
mod settings;
pub mod snapshot;
mod statuses;
mod till;
mod used_traces;

pub use bookkeeping::{Bookkeeping, books};
pub use entries::{Doubt, Entry};
pub use events::{Event, Run, replay};
pub use happenings::{Happening, Sent, begun, ends, force_after};
pub use hearing::{currency_in, currency_shown, heard, heard_view};
pub use keeper::{BookFault, Keeper, Untaken};
pub use line::{RunFault, run_order, send_order};
pub use log_books::{Booked, Books};
pub use messages::{CurrencyFact, Heard, Original, StatusFacts, reply_to};
pub use numbers::Numbers;
pub use orders::{Order, OrderRefusal, Outgoing, Reply};
pub use outcomes::{Cause, Outcome, outcome_by};
pub use settings::{Rules, TillSettings};
pub use statuses::{Running, Statuses, demand_of, listened};
pub use till::{MAX_BOOK_ENTRIES, RestoreError, Till};
pub use used_traces::UsedTraces;
