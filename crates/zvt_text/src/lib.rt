//! The text of messages, as it is shown to people: a head, and a line for each field.
#![tactic(auto)]

mod bytes;
mod codepages;
pub mod cursor;
mod details;
mod digits;
mod form;
mod heads;
pub mod laws;
mod lines;
mod meanings;
mod notes;
mod objects;
mod privacy;
mod receipts;
mod text;
mod text_blocks;
mod text_options;
mod values;
pub mod words;
mod write;

pub use bytes::{is_plain, plain_first};
pub use codepages::Codepage;
pub use form::Form;
pub use heads::kind_name;
pub use meanings::{card_type_name, command_name, meaning, status_words, tag_name};
pub use privacy::is_secret_tag;
pub use receipts::{printed_line, put_receipt_type, receipt_block, receipt_line};
pub use text::{Says, Text};
pub use text_blocks::{ReceiptType, TextBlock, block_line, block_type, text_block};
pub use text_options::TextOptions;
pub use write::{currency_digits, hexadecimal, line, message, numbers, result_words};
