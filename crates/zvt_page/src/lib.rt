//! Web pages: a page as a value, and writers that spell it.
//!
//! A page is a tree of elements and text. The text may come from anywhere: no character of it can begin or end an
//! element, and no control character is written. [`laws`] says so.
#![tactic(auto)]

mod document;
mod elements;
mod escapes;
pub mod laws;
mod style;
mod tags;

pub use document::{document_end, document_start};
pub use elements::{Attribute, Element};
pub use escapes::escaped;
pub use tags::{end, leaf, start};
