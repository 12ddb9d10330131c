//! The forms of a command's output.

/// The form in which a command writes its output.
#[derive(Clone, Copy, Debug, PartialEq, Eq)]
pub enum Form {
    /// Lines of text, for people.
    Text,
    /// One JSON object per line. docs/JSON.md describes their members.
    Json,
}
