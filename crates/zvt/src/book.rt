//! Books of tills in files.
ghost use Rattle.zvt_journal.specs.Files.{file_may_leave, file_seen};
ghost use Rattle.zvt_journal.specs.Text.{IsSettled};

use crate::book_till::BookTill;
use crate::exit::Exit;
use crate::finish::finish_run;
use crate::inputs::{Input, write_sum};
use crate::output::Output;
use crate::reports::{report, report_on};
use std::io::ErrorKind;
use std::{fs, io, str};
use zvt_audit::Sum;
use zvt_bcd::Currency;
use zvt_io::Over;
use zvt_journal::{FileDevice, FileFailure, JournalFileError, Opened, open_file, read_book};
use zvt_kept::{PastOrders, Recovered, RecoveryError, recover};
use zvt_runs::{EndFault, write_book, write_records};
use zvt_settle::SettlingTill;
use zvt_text::Form;
use zvt_till::{Rules, Till, TillSettings};
use zvt_tool::statuses::{DONE, MEMORY, WORDS, of_device, of_file_error, of_recovery};
use zvt_trace::next_line;

/// The report on a book in another currency than the till's, or on a file that is not a book.
const OTHER_BOOK: &str =
    "the first line does not begin a book in the till's currency: give the book's currency, or name another file";

/// The report on a book that names the rule on receipt numbers, which the till was not given.
const RECEIPT_BOOK: &str =
    "the book was begun by 'zvt till --reversal-by-receipt': use this option, or name another file";

/// The report on a book that does not name the rule on receipt numbers, which the till was given.
const NO_RECEIPT_BOOK: &str =
    "the book was begun without '--reversal-by-receipt': leave out this option, or name another file";

/// The report on a file that is not a book, when a book is to be read.
const NO_BOOK: &str =
    "not a till's book: name the file of its '--book', or run 'zvt audit' on a trace";

/// The report on a book whose file is no longer the one that was opened.
const DISPLACED: &str =
    "the file of the book is no longer the one that was opened: it was moved, deleted, replaced or changed, so \
        nothing more was sent";

/// The report on a book whose next record does not fit on the disk.
const FULL_DISK: &str =
    "the disk is full: no record of the book could be written, so nothing more was sent";

/// The report on several books whose totals are not added.
const MIXED: &str = "the books are kept in different currencies, so there is no sum";

/// The report on a request for the records of several books.
const ONE_RECORDS: &str =
    "'--records' takes one FILE: the records of two books make no trace of one till";

/// The first line of a book, up to the number of its currency.
const OPENING: [u8; 26] = *b"# zvt journal 1, currency ";

/// The end of the first line of a book whose reversals go by their receipt numbers.
const BY_RECEIPT: [u8; 22] = *b", reversals by receipt";

/// What the first line of a book says of its till.
#[derive(Clone, Copy)]
struct BookSettings {
    currency: Currency,
    /// Whether a receipt number confirms a reversal whose status names no payment.
    by_receipt: bool,
}

/// The sum of the books written so far.
#[derive(Drop)]
struct Listing {
    sum: Sum,
    /// The currency of the last book that has a record.
    currency: Option<Currency>,
    /// Whether two books are kept in different currencies.
    is_mixed: bool,
    /// Whether nothing more can be written.
    is_output_lost: bool,
}

impl Listing {
    /// Starts the listing of this number of books.
    fn new(books: usize) -> Listing {
        Listing {
            sum: Sum::new(books),
            currency: None,
            is_mixed: false,
            is_output_lost: false,
        }
    }

    /// Adds a book with this total, and with these settings if it has a record.
    fn add(&mut self, book: Option<BookSettings>, total: u64) {
        self.sum.add(u128::from(total));
        let Some(book) = book else {
            return;
        };
        if let Some(before) = self.currency {
            self.is_mixed = self.is_mixed || before != book.currency;
        }
        self.currency = Some(book.currency);
    }
}

/// Prints the books in these files and returns the highest exit status. With several files, each line begins with the
/// name of its file, and the last line is the sum of the totals.
pub fn show(rt: &HostRuntime, paths: &[&str], form: Form) -> io::Result<u8> {
    let mut listing = Listing::new(paths.len());
    match paths {
        [path] => show_one(rt, Input::new(path, false), path, form, &mut listing),
        _ => show_all(rt, paths, form, &mut listing),
    }
}

/// Prints one book after another, and the sum of their totals.
fn show_all(rt: &HostRuntime, paths: &[&str], form: Form, listing: &mut Listing) -> io::Result<u8> {
    let mut status = DONE;
    for path in paths {
        let shown = show_one(rt, Input::new(path, true), path, form, listing)?;
        status = status.max(shown);
        if listing.is_output_lost {
            return Ok(status);
        }
    }
    if listing.is_mixed {
        report(rt, MIXED)?;
        return Ok(status);
    }
    Ok(status.max(write_sum(rt, form, &listing.sum)?))
}

/// Prints the book in this file and returns the exit status. The null device, as one of several files, is a book
/// without a record.
fn show_one(
    rt: &HostRuntime,
    input: Input<'_>,
    path: &str,
    form: Form,
    listing: &mut Listing,
) -> io::Result<u8> {
    let text = if input.is_null_device() {
        Vec::new(rt.alloc())
    } else {
        match read_book(rt, rt.alloc(), path).answer {
            Ok(text) => text,
            Err(error) => return unread(rt, path, &error),
        }
    };
    let recovered = match recovered_from(rt, text.as_slice()) {
        Ok(recovered) => recovered,
        Err(error) => return unrecovered(rt, path, error),
    };
    let Ok(output) = input.output(rt.alloc(), form, io::writer(rt)) else {
        return finish_run(rt, false, Err(EndFault::Memory));
    };
    let mut writer = Over::new(output);
    let answer = match write_book(rt.alloc(), form, &recovered, &mut writer) {
        Err(EndFault::Write) if writer.inner.out_of_memory => Err(EndFault::Memory),
        answer => answer,
    };
    match &answer {
        Ok(()) => listing.add(settings_in(text.as_slice()), recovered.till.till().total()),
        Err(EndFault::Write) => listing.is_output_lost = true,
        Err(_) => {}
    }
    finish_run(rt, writer.inner.broken_pipe, answer)
}

/// Prints the complete records of the book, as a trace, and returns the exit status. Takes exactly one file.
pub fn records(rt: &HostRuntime, paths: &[&str]) -> io::Result<u8> {
    match paths {
        [path] => records_of(rt, path),
        _ => {
            report(rt, ONE_RECORDS)?;
            Ok(WORDS)
        }
    }
}

/// Prints the complete records of the book in this file as a trace and returns the exit status. Reports bytes of an
/// incomplete record.
fn records_of(rt: &HostRuntime, path: &str) -> io::Result<u8> {
    let text = match read_book(rt, rt.alloc(), path).answer {
        Ok(text) => text,
        Err(error) => return unread(rt, path, &error),
    };
    if let Err(error) = recovered_from(rt, text.as_slice()) {
        return unrecovered(rt, path, error);
    }
    let mut writer = Over::new(Output::new(io::writer(rt)));
    let answer = write_records(text.as_slice(), &mut writer);
    report_left(rt, path, text.len())?;
    finish_run(rt, writer.inner.broken_pipe, answer)
}

/// Reports the number of bytes in the file after its records and the byte that ends them.
fn report_left(rt: &HostRuntime, path: &str, records: usize) -> io::Result<()> {
    let size = fs::metadata(rt, path)?.len();
    let left = size.saturating_sub(records as u64).saturating_sub(1);
    if left > 0 {
        eprintln!(rt;
            "zvt: '{path}': {left} bytes of an unfinished record were left out: a till is writing it, or a crash \
                left them"
        )?;
    }
    Ok(())
}

/// Restores a till from these records, with the notes of its payments. It has the book's currency and its rule on
/// reversals. A book without a record restores a new till.
pub fn recovered_from(rt: &HostRuntime, text: &[u8]) -> Result<Recovered, RecoveryError> {
    if text.is_empty() {
        return Ok(Recovered {
            till: SettlingTill::new(rt.alloc(), Till::with_defaults(rt.alloc())),
            booked: Vec::new(rt.alloc()),
            unclear: Vec::new(rt.alloc()),
            orders: PastOrders::new(rt.alloc()),
        });
    }
    let Some(book) = settings_in(text) else {
        return Err(RecoveryError::Opening);
    };
    let settings = TillSettings {
        currency: book.currency,
        rules: Rules {
            reversal_by_receipt: book.by_receipt,
            ..Rules::strict()
        },
        ..TillSettings::default()
    };
    recover(rt.alloc(), &settings, text)
}

/// Returns what the first line of a book says. [`recover`] checks that line.
fn settings_in(text: &[u8]) -> Option<BookSettings> {
    if text.is_empty() {
        return None;
    }
    let (line, _) = next_line(text);
    let words = line.strip_prefix(&OPENING)?;
    let (digits, by_receipt) = match words.strip_suffix(&BY_RECEIPT) {
        Some(digits) => (digits, true),
        None => (words, false),
    };
    let currency = currency_named(digits)?;
    Some(BookSettings {
        currency,
        by_receipt,
    })
}

/// Returns the currency of this number.
fn currency_named(digits: &[u8]) -> Option<Currency> {
    match str::from_utf8(digits) {
        Ok(word) => match word.parse::<u16>() {
            Ok(number) => Currency::new(number),
            Err(_) => None,
        },
        Err(_) => None,
    }
}

/// Opens the book in this file, or creates it, and reports its content. If the book can't be opened, reports why and
/// returns the exit status.
pub fn open<T: BookTill>(rt: &HostRuntime, path: &str, settings: &TillSettings) -> Result<T, Exit> {
    let opened = match open_file(rt.alloc(), path.as_bytes()).answer {
        Ok(opened) => opened,
        Err(error) => return Err(Exit::Status(unopened(rt, path, &error)?)),
    };
    report_opening(rt, path, &opened)?;
    let text = opened.text;
    if text.is_empty() {
        return begun(rt, path, settings, opened.device);
    }
    match T::restore(rt.alloc(), settings, opened.device, text.as_slice()) {
        Ok(kept) => {
            report_book(rt, path, kept.till())?;
            Ok(kept)
        }
        Err(RecoveryError::Opening) => {
            report_on(rt, path, other_book(settings, text.as_slice()))?;
            Err(Exit::Status(of_recovery(RecoveryError::Opening)))
        }
        Err(error) => Err(Exit::Status(unrecovered(rt, path, error)?)),
    }
}

/// Returns the report on a book whose first line does not agree with the till's settings.
fn other_book(settings: &TillSettings, text: &[u8]) -> &'static str {
    let by_receipt = settings.rules.reversal_by_receipt;
    match settings_in(text) {
        Some(book) if book.by_receipt && !by_receipt => RECEIPT_BOOK,
        Some(book) if !book.by_receipt && by_receipt => NO_RECEIPT_BOOK,
        _ => OTHER_BOOK,
    }
}

/// Begins a new book on this device.
fn begun<T: BookTill>(
    rt: &HostRuntime,
    path: &str,
    settings: &TillSettings,
    device: FileDevice,
) -> Result<T, Exit>
    requires { IsSettled (file_seen device) (file_may_leave device) 0 }
{
    match T::begin(rt.alloc(), settings, device) {
        Ok(kept) => Ok(kept),
        Err(unbegun) => {
            let status = of_device(unbegun.why);
            let what = if status == MEMORY {
                "out of memory"
            } else {
                "cannot begin the book: check the free space and the permissions"
            };
            report_on(rt, path, what)?;
            Err(Exit::Status(status))
        }
    }
}

/// Reports that the file was created, or what was cut off.
fn report_opening(rt: &HostRuntime, path: &str, opened: &Opened) -> io::Result<()> {
    if opened.created {
        report_on(rt, path, "a new book")?;
    }
    if opened.cut > 0 {
        let cut = opened.cut;
        eprintln!(rt;
            "zvt: '{path}': a crash left {cut} bytes of an unfinished record: they were moved to '{path}.cut'"
        )?;
    }
    Ok(())
}

/// Reports what was recovered.
fn report_book(rt: &HostRuntime, path: &str, till: &Till) -> io::Result<()> {
    let booked = till.book().len();
    let unclear = till.unclear().len();
    let total = till.total();
    eprintln!(rt; "zvt: '{path}': {booked} booked, {unclear} unclear, total {total}")
}

/// Reports why the book could not be written, if it could not.
pub fn report_failure(rt: &HostRuntime, device: &FileDevice) -> io::Result<()> {
    match device.failure().or(device.shortage()) {
        Some(FileFailure::Displaced) => report(rt, DISPLACED),
        Some(FileFailure::Io(error) | FileFailure::Unreserved(error)) if is_full(&error) => {
            report(rt, FULL_DISK)
        }
        Some(FileFailure::Unreserved(error)) => {
            eprintln!(rt;
                "zvt: no space could be held back beside the book, so nothing more was sent: {error}"
            )
        }
        Some(FileFailure::Io(error)) => {
            eprintln!(rt; "zvt: a record of the book could not be written: {error}")
        }
        None => Ok(()),
    }
}

/// Returns whether the disk, or the user's share of it, is full.
fn is_full(error: &io::Error) -> bool {
    matches!(
        error.kind(),
        ErrorKind::StorageFull | ErrorKind::QuotaExceeded
    )
}

/// Reports that a book cannot be read, and returns the exit status.
pub fn unread(rt: &HostRuntime, path: &str, error: &JournalFileError) -> io::Result<u8> {
    match error {
        JournalFileError::NotAJournal => report_on(rt, path, NO_BOOK)?,
        _ => report_on(rt, path, error)?,
    }
    Ok(of_file_error(error))
}

/// Reports that the file of a book cannot be opened, and returns the exit status.
fn unopened(rt: &HostRuntime, path: &str, error: &JournalFileError) -> io::Result<u8> {
    report_on(rt, path, error)?;
    Ok(of_file_error(error))
}

/// Reports that no till can be restored from the records of a book, and returns the exit status.
pub fn unrecovered(rt: &HostRuntime, path: &str, error: RecoveryError) -> io::Result<u8> {
    match error {
        RecoveryError::Opening => report_on(rt, path, OTHER_BOOK)?,
        error => report_on(rt, path, &error)?,
    }
    Ok(of_recovery(error))
}
