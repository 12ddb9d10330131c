//! A till that keeps its book in a journal.
//!
//! Each order is in the journal before its message is sent, and each message of the terminal before the till processes
//! it. A record consists of complete lines of text. The record of an order is a comment line and a line with the bytes
//! to send. The record of a message is a line with its bytes, and a line with the replies to it. The record of a lost
//! connection is `!`. Each record ends with its check.
#![tactic(auto)]

mod check;
mod keeping;
mod kept_till;
mod laws;
mod lines;
mod note;
mod past_orders;
mod records;
mod recovery;
mod row_notes;
mod words;

pub use keeping::answers_to;
pub use kept_till::{KeptTill, Reopened, Unbegun};
pub use laws::{
    calls_outlive, hearings_outlive, logs_are_one, logs_are_recovered, opening_is_taken,
    openings_are_one, paid_orders_are_booked, past_orders_stay, records_are_kept,
    remarks_mean_nothing, runs_outlive, tills_are_recovered,
};
pub use lines::{RecordError, read_records};
pub use note::{MAX_REFERENCE_LEN, Note, is_reference};
pub use past_orders::{PastOrder, PastOrders};
pub use records::{Entry, put_ask, put_heard, put_lost, put_opening, put_order};
pub use recovery::{Recovered, RecoveryError, recover};
