//! Test vectors for message parsers: lines of bytes and the expected result.
//!
//! [`vectors`] writes a line for each vector that differs from the result of this project's reader.
mod answers;
mod check;
mod claims;
mod got;
mod line;

pub use check::vectors;
