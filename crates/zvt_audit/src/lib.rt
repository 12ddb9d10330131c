//! The books of the payments in a trace of the line between a till and its terminal.
#![tactic(auto)]

mod auditor;
mod booked;
mod by_control;
mod currencies;
mod ends;
mod follow;
mod form;
mod happened;
pub mod laws;
mod line;
mod objects;
mod orders;
mod sum;
mod summary;
mod unfollowed;

pub use by_control::ByControl;
pub use currencies::NamedCurrency;
pub use follow::{Audit, follow_audit};
pub use happened::ordered;
pub use line::{LineAudit, LineBooks};
pub use orders::is_order;
pub use sum::Sum;
pub use summary::{AuditSummary, audit_trace};
pub use unfollowed::{Approval, UnfollowedOrder};
