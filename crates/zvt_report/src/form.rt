//! The forms of a report.

/// The form in which a report is written.
#[derive(Clone, Copy)]
pub enum ReportForm {
    /// Lines of text, for people.
    Text,
    /// One JSON object per line. docs/JSON.md describes their members.
    Json,
    /// A page for a browser, which refers to no other file.
    Page,
}
