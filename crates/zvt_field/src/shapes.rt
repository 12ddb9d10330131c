//! The shapes of fields, and how outputs show their contents.

/// The shape of a field: a fixed number of bytes, a fixed number of bytes of digits, bytes after a length of two or
/// three digits, or objects after their length (PA00P015, list of bitmaps).
#[derive(Clone, Copy)]
pub enum Shape {
    Fixed(usize),
    Digits(usize),
    Ll,
    Lll,
    Tree,
}

/// How an output shows the content of a field.
#[derive(Clone, Copy, Debug, PartialEq, Eq)]
pub enum Format {
    /// Bytes in hexadecimal.
    Bytes,
    /// An amount, in the smallest unit of its currency.
    Amount,
    /// A result code, with its meaning.
    Result,
    /// Text in quotation marks.
    Text,
    /// Its size alone: it is a card number, a track, a verification value or a password.
    Hidden,
}
