//! The fields of a message. Each begins with a byte, the BMP, that names it and determines the kind of its content.
#![tactic(auto)]

pub mod bmp;
mod bodies;
mod contents;
pub mod judge;
pub mod laws;
mod lists;
mod named;
mod owned_fields;
mod reader;
mod shapes;
mod single;
mod sizes;
mod table;
mod views;
mod writer;

pub use bodies::{BadField, Field, FieldBody};
pub use judge::{LlAt, LlNext, judge_bmp, judge_content, judge_ll};
pub use lists::{Fields, PushRefusal};
pub use named::{amount, count, currency, only, original, receipt, result, trace};
pub use owned_fields::{owned, owned_field};
pub use reader::{scan, scan_begun, scan_fields, scan_loose};
pub use shapes::{Format, Shape};
pub use single::{Single, read_single};
pub use sizes::size;
pub use table::{format, name, shape};
pub use views::{FieldView, FieldsView};
pub use writer::write_into;
