//! Laws of audits, each stated as the contract of an empty function.
ghost use Rattle.zvt_audit.specs.Laws.{ReadOnIsWellFormed};

/// A line that is read on after refused messages is never malformed: each message counts at least by its control bytes.
pub fn read_on_is_well_formed()
    ensures { ReadOnIsWellFormed }
{}
