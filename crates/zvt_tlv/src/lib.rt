//! TLV objects, made of a tag, a length and content (PA00P015, chapter on TLV containers): their tree, its unique
//! encoding, and a reader that finds the first invalid byte.
#![tactic(auto)]

mod checks;
mod heads;
mod judge;
pub mod laws;
mod owned_forest;
mod reader;
mod sizes;
mod tags;
mod trees;
mod views;
mod writer;

pub use judge::{LengthAt, LengthNext, TagAt, TagNext, judge_length, judge_tag};
pub use owned_forest::owned;
pub use reader::{scan, scan_loose, scan_sized, scan_sized_forest, scan_sized_loose};
pub use sizes::{length_size, size};
pub use tags::Tag;
pub use trees::{BadForest, Body, Forest, Tlv};
pub use views::{ForestView, TlvView, length_first};
pub use writer::{put_sized, write_into};
pub use zvt_grammar::{Scan, Why};
