//! Remembers at which line of the trace each payment ended.
ghost use Rattle.std.specs.Prelude.{◌≡◌, [], OnOk};
ghost use Rattle.zvt_audit.specs.Ends.{can_end, lines_of, with_end, with_ends};

use std::alloc::{AllocError, Global};
use zvt_apdu::Kind;
use zvt_till::Bookkeeping;

/// The lines at which payments ended, in the order of the books.
#[derive(Drop)]
pub(crate) struct Ends {
    /// A line for each payment that was completed.
    pub(crate) booked: Vec<u64>,
    /// A line for each unclear payment that has ended.
    pub(crate) unclear: Vec<u64>,
}

impl Ends {
    /// Starts before any payment has ended.
    pub(crate) fn none(alloc: Global) -> Ends
        ensures { (result.booked.items ≡ []) × (result.unclear.items ≡ []) }
    {
        Ends {
            booked: Vec::new(alloc),
            unclear: Vec::new(alloc),
        }
    }

    /// Records what ended at this line, given the books after it.
    #[inline(never)]
    pub(crate) fn notice(&mut self, books: &Bookkeeping, line: u64) -> Result<(), AllocError>
        ensures { OnOk result (lines_of self.new ≡ with_ends (lines_of self.old) books.now line) }
    {
        add_end(&mut self.booked, books.booked_count(), line)?;
        add_end(&mut self.unclear, books.unclear_count(), line)
    }
}

/// Adds the line if there are more rows than lines.
fn add_end(lines: &mut Vec<u64>, rows: usize, line: u64) -> Result<(), AllocError>
    ensures { OnOk result (lines.new.items ≡ with_end lines.old.items rows line) }
{
    if lines.len() < rows {
        lines.push(line)?;
    }
    Ok(())
}

/// Whether a message of the terminal may end a payment.
#[inline(always)]
pub(crate) fn can_end(kind: Kind) -> bool
    ensures { result ≡ can_end kind }
{
    match kind {
        Kind::Ack | Kind::Status | Kind::Intermediate | Kind::PrintLine | Kind::TextBlock => false,
        _ => true,
    }
}
