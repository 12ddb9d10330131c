//! One loop over the sockets of HTTP clients and of one card terminal.
//!
//! A [`Server`] gives the orders of its clients to a [`Service`](zvt_service::Service), which sends the order of a key
//! at most once. The program around it is its [`Host`]. [`Decision`] says what becomes of a request, and [`put_answer`]
//! what a client is told about its order.
#![tactic(auto)]

mod answers;
mod asking;
mod asks;
mod clients;
mod clock;
mod deciding;
mod decoder;
mod event_log;
mod host;
pub mod laws;
mod line;
mod outcomes;
mod server;
mod status;
mod troubles;

pub use answers::{order_name, outcome_name, outcome_status, put_answer, put_end};
pub use asking::asks_by_itself;
pub use deciding::{Decision, Known, Standing};
pub use host::{BookUnread, Host, Unrecorded};
pub use line::TerminalOptions;
pub use server::{Server, ServerOptions};
pub use troubles::Trouble;
