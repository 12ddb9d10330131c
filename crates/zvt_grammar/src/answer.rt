//! Results of readers.

/// Result of reading the bytes so far.
#[derive(Drop)]
pub enum Scan<V> {
    /// The bytes start with a complete value.
    Whole(V),
    /// The bytes are the beginning of a value, and more are needed.
    More,
    /// No value starts with the bytes up to and including the one at `place`, counted from 0.
    Refused { place: usize, why: Why },
}

use crate::why::Why;
