//! Reports of a till's unclear reversals.
ghost use Rattle.zvt_io.specs.Devices.{CountsFailure, Writes};
ghost use Rattle.zvt_runs.specs.Reporting.{ReportsReversals, entry_text, reversal_text};

use itoa::Buffer;
use zvt_io::{Failed, Sink};
use zvt_till::{Cause, Doubt, Entry};

/// Reports each entry of the book whose last reversal is unclear, one line each, without allocating. If the device
/// fails, the remaining lines are dropped; this is not an error.
pub(crate) fn report_reversals<E: Sink>(book: &[Entry], report: &mut E)
    ensures { ReportsReversals (E.written report.old) (E.written report.new) (E.failures report.old)
        (E.failures report.new) book.now }
{
    let mut number: usize = 0;
    'entries: for entry in book {
        number += 1;
        if let Err(_) = report_entry(number, entry, report) {
            return;
        }
    }
}

/// Reports the entry of this number, counted from 1, if its last reversal is unclear.
fn report_entry<E: Sink>(number: usize, entry: &Entry, report: &mut E) -> Result<(), Failed>
    ensures bytes { Writes (E.written report.old) (E.written report.new) result (entry_text number entry.now) }
    ensures failures { CountsFailure (E.failures report.old) (E.failures report.new) result }
{
    match entry.doubt {
        Doubt::Unclear(cause) => report_reversal(number, cause, report),
        _ => Ok(()),
    }
}

/// Reports that the reversal of the entry of this number, counted from 1, is unclear, and what to do.
fn report_reversal<E: Sink>(number: usize, cause: Cause, report: &mut E) -> Result<(), Failed>
    ensures bytes { Writes (E.written report.old) (E.written report.new) result (reversal_text number cause) }
    ensures failures { CountsFailure (E.failures report.old) (E.failures report.new) result }
{
    report.write_all(b"zvt: reverse:")?;
    report.write_all(Buffer::new().format(number).as_bytes())?;
    report.write_all(b" is unclear (")?;
    report.write_all(cause.name().as_bytes())?;
    report.write_all(
        b"): the terminal may have reversed the payment or not: check its journal before you refund the amount\n",
    )
}
