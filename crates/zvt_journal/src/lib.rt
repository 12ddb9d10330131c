//! A journal: text records in a file, each complete or absent, whenever the process ends.
//!
//! A record is one or more lines, none of them empty. At rest, the file consists of its records and one line feed, the
//! closed gate, which reads as an empty line. The file stands for its complete lines up to the first empty one.
//! [`open`] recovers them. [`Journal::append`] adds a record in two steps, each durable before the next: it writes the
//! record without its first byte after the gate, and then the first byte over the gate.
#![tactic(auto)]

mod call;
mod calls;
mod content;
mod create;
mod descriptor;
mod device;
mod durable;
mod error;
mod file;
mod journal;
mod memory;
mod noted;
mod spare;
mod tears;

pub use create::{Noted, Opened, open_file, read_book};
pub use device::{Device, DeviceError, NoSpace};
pub use error::JournalFileError;
pub use file::{FileDevice, FileFailure, a_read_may_be_left};
pub use journal::{
    Journal, MAX_RECORD_LEN, is_record, lines_are_recovered, no_crash_is_refused, open,
};
pub use memory::Memory;
pub use tears::{Tear, torn};
