//! The bytes of a saved till.
ghost use Rattle.std.specs.Prelude.{◌≡◌, ◌++◌, ◌^◌, ◌<◌, ◌≤◌, length, Some, IfOk, OnOk, flat_map};
ghost use Rattle.std.specs.List.{All};
ghost use Rattle.zvt_apdu.specs.Briefs.{digits};
ghost use Rattle.zvt_till.specs.SnapshotEncoded.{cause_code, receipt_bytes, doubt_bytes, doubt_code, entry_bytes};
ghost use Rattle.zvt_till.specs.SnapshotEncoded.{unclear_bytes, outcome_row, outcome_bytes, body_bytes, counts_bytes};
ghost use Rattle.zvt_till.specs.SnapshotEncoded.{left_book, open_rows, saved, saved_in, settings_bytes, summed};
ghost use Rattle.zvt_till.specs.SnapshotEncoded.{IsEntry};
ghost use Rattle.zvt_till.specs.SnapshotEncoded.{IsKept, IsOutcome, IsReceipt, IsUnclear};
ghost use Rattle.zvt_till.specs.Till.{step};

use crate::snapshot::layouts::{Layout, version};
use crate::snapshot::sums::sums_of;
use crate::{Cause, Doubt, Entry, Happening, Order, Outcome, Till};
use std::alloc::{AllocError, Global};
use zvt_bcd::{Amount, Trace, put};

/// The first bytes: ZVT.
const MARK: [u8; 3] = [0x5A, 0x56, 0x54];

/// Writes a number in that many bytes of digits.
fn put_number(bytes: &mut Vec<u8>, count: usize, number: u64) -> Result<(), AllocError>
    requires short { count ≤ 9 }
    requires fits { number < 100 ^ count }
    ensures { OnOk result (bytes.new.items ≡ bytes.old.items ++ digits count number) }
{
    let mut room = [0; 9];
    let part = &mut room[..count];
    put(number, part);
    bytes.extend_from_slice(part)
}

/// Returns the number of a cause, as used in saved bytes and in C.
pub fn cause_code(cause: Cause) -> u8
    ensures { result ≡ cause_code cause }
{
    match cause {
        Cause::NoStatus => 1,
        Cause::Conflict => 2,
        Cause::AmountDiffers => 3,
        Cause::NoTrace => 4,
        Cause::TraceUsed => 5,
        Cause::AbortAfterApproval => 6,
        Cause::Line => 7,
        Cause::Malformed => 8,
        Cause::Unfinished => 9,
        Cause::WrongCurrency => 10,
    }
}

/// Writes a receipt number after a byte that says whether there is one.
fn put_receipt(bytes: &mut Vec<u8>, receipt: Option<[u8; 2]>) -> Result<(), AllocError>
    ensures bytes { OnOk result (bytes.new.items ≡ bytes.old.items ++ receipt_bytes receipt) }
    ensures fits { OnOk result (IsReceipt receipt) }
{
    match receipt {
        None => bytes.extend_from_slice(&[0, 0, 0]),
        Some(receipt) => {
            bytes.extend_from_slice(&[1])?;
            bytes.extend_from_slice(&receipt)
        }
    }
}

/// Returns the number of an entry's doubt.
fn doubt_code(doubt: Doubt) -> u8
    ensures { result ≡ doubt_code doubt }
{
    match doubt {
        Doubt::No => 0,
        Doubt::Unclear(cause) => cause_code(cause),
        Doubt::TakenBack => 11,
    }
}

/// Writes an entry's doubt, if the layout has it.
fn put_doubt(bytes: &mut Vec<u8>, layout: Layout, doubt: Doubt) -> Result<(), AllocError>
    ensures { OnOk result (bytes.new.items ≡ bytes.old.items ++ doubt_bytes layout doubt) }
{
    match layout {
        Layout::First => Ok(()),
        Layout::Second => bytes.extend_from_slice(&[doubt_code(doubt)]),
    }
}

/// Writes a row of the book.
fn put_entry(bytes: &mut Vec<u8>, layout: Layout, entry: &Entry) -> Result<(), AllocError>
    ensures bytes { OnOk result (bytes.new.items ≡ bytes.old.items ++ entry_bytes layout entry.now) }
    ensures fits { OnOk result (IsEntry entry.now) }
{
    put_number(bytes, 6, entry.amount.get())?;
    put_number(bytes, 3, u64::from(entry.trace.get()))?;
    bytes.extend_from_slice(&[u8::from(entry.reversed)])?;
    put_receipt(bytes, entry.receipt)?;
    put_doubt(bytes, layout, entry.doubt)
}

/// Writes an unclear payment.
fn put_unclear(bytes: &mut Vec<u8>, amount: Amount, cause: Cause) -> Result<(), AllocError>
    ensures bytes { OnOk result (bytes.new.items ≡ bytes.old.items ++ unclear_bytes (amount, cause)) }
    ensures fits { OnOk result (IsUnclear (amount, cause)) }
{
    put_number(bytes, 6, amount.get())?;
    bytes.extend_from_slice(&[cause_code(cause)])
}

/// Writes an outcome of this kind with its values.
fn put_outcome_row(
    bytes: &mut Vec<u8>,
    kind: u8,
    code: u8,
    trace: u32,
    receipt: Option<[u8; 2]>,
) -> Result<(), AllocError>
    requires { trace ≤ 999999 }
    ensures bytes { OnOk result (bytes.new.items ≡ bytes.old.items ++ outcome_row kind code trace receipt) }
    ensures fits { OnOk result (IsReceipt receipt) }
{
    bytes.extend_from_slice(&[kind, code])?;
    put_number(bytes, 3, u64::from(trace))?;
    put_receipt(bytes, receipt)
}

/// Writes the last outcome, if there is one.
fn put_outcome(bytes: &mut Vec<u8>, outcome: Option<Outcome>) -> Result<(), AllocError>
    ensures bytes { OnOk result (bytes.new.items ≡ bytes.old.items ++ outcome_bytes outcome) }
    ensures fits { OnOk result (IsOutcome outcome) }
{
    match &outcome {
        None => put_outcome_row(bytes, 0, 0, 0, None),
        Some(Outcome::Registered) => put_outcome_row(bytes, 1, 0, 0, None),
        Some(Outcome::Paid { trace, receipt }) => put_paid(bytes, *trace, *receipt),
        Some(Outcome::Declined(code)) => put_outcome_row(bytes, 3, *code, 0, None),
        Some(Outcome::Refused(code)) => put_outcome_row(bytes, 4, *code, 0, None),
        Some(Outcome::Aborted(code)) => put_outcome_row(bytes, 5, *code, 0, None),
        Some(Outcome::Unclear(cause)) => put_outcome_row(bytes, 6, cause_code(*cause), 0, None),
        Some(Outcome::Reversed) => put_outcome_row(bytes, 7, 0, 0, None),
        Some(Outcome::DayClosed) => put_outcome_row(bytes, 8, 0, 0, None),
    }
}

/// Writes that a payment was booked.
fn put_paid(bytes: &mut Vec<u8>, trace: Trace, receipt: Option<[u8; 2]>) -> Result<(), AllocError>
    ensures bytes { OnOk result (bytes.new.items ≡ bytes.old.items ++ outcome_row 2 0 trace receipt) }
    ensures fits { OnOk result (IsOutcome (Some (Outcome.Paid trace receipt))) }
{
    put_outcome_row(bytes, 2, 0, trace.get(), receipt)
}

/// The parts of a till that losing its connection changes.
#[derive(Clone, Copy)]
struct Settled {
    /// The payment that becomes unclear in addition to the payments that already are.
    left: Option<Amount>,
    /// The index of the entry whose last reversal becomes unclear.
    doubted: Option<usize>,
    /// The last outcome.
    last: Option<Outcome>,
}

/// Computes the state that the till would have after losing its connection.
fn settle(till: &Till) -> Settled
    ensures unclear { (step till.now.state Happening.Lost).unclear ≡ till.now.state.unclear ++ open_rows result.left }
    ensures last { (step till.now.state Happening.Lost).last_outcome ≡ result.last }
    ensures book { (step till.now.state Happening.Lost).book ≡ left_book till.now.state.book result.doubted }
    ensures settings { (step till.now.state Happening.Lost).settings ≡ till.now.state.settings }
{
    let line = Some(Outcome::Unclear(Cause::Line));
    match &till.running() {
        None => Settled {
            left: None,
            doubted: None,
            last: till.last_outcome(),
        },
        Some(Order::Pay(amount)) => Settled {
            left: Some(*amount),
            doubted: None,
            last: line,
        },
        Some(Order::Reverse(place)) => Settled {
            left: None,
            doubted: Some(*place),
            last: line,
        },
        Some(_) => Settled {
            left: None,
            doubted: None,
            last: line,
        },
    }
}

/// Writes the first bytes, and the numbers of rows that follow.
fn put_counts(
    bytes: &mut Vec<u8>,
    layout: Layout,
    booked: usize,
    unclear: usize,
) -> Result<(), AllocError>
    requires booked { booked ≤ 10001 }
    requires unclear { unclear ≤ 10001 }
    ensures { OnOk result (bytes.new.items ≡ bytes.old.items ++ counts_bytes layout booked unclear) }
{
    bytes.extend_from_slice(&MARK)?;
    bytes.extend_from_slice(&[version(layout)])?;
    put_number(bytes, 3, booked as u64)?;
    put_number(bytes, 3, unclear as u64)
}

/// Writes the settings of the till, and this last outcome.
fn put_settings(bytes: &mut Vec<u8>, till: &Till, last: Option<Outcome>) -> Result<(), AllocError>
    ensures bytes { OnOk result (bytes.new.items ≡ bytes.old.items ++ settings_bytes till.now.state.settings last) }
    ensures outcome { OnOk result (IsOutcome last) }
    ensures currency { OnOk result (till.now.state.settings.currency ≤ 9999) }
    ensures password { OnOk result (length till.now.state.settings.password ≡ 3) }
{
    put_number(bytes, 2, u64::from(till.currency().get()))?;
    put_outcome(bytes, last)?;
    bytes.extend_from_slice(&[till.config()])?;
    bytes.extend_from_slice(&till.password())
}

/// Writes the rows of a book.
fn put_book(bytes: &mut Vec<u8>, layout: Layout, book: &[Entry]) -> Result<(), AllocError>
    ensures bytes { OnOk result (bytes.new.items ≡ bytes.old.items ++ flat_map (entry_bytes layout) book.now) }
    ensures fit { OnOk result (All IsEntry book.now) }
{
    'rows: for entry in book {
        put_entry(bytes, layout, entry)?;
    }
    Ok(())
}

/// Writes the rows of a book, when a reversal of this entry is open at the loss of the connection.
fn put_left_book(
    bytes: &mut Vec<u8>,
    layout: Layout,
    book: &[Entry],
    doubted: Option<usize>,
) -> Result<(), AllocError>
    ensures bytes { OnOk result (bytes.new.items ≡ bytes.old.items ++ flat_map (entry_bytes layout)
        (left_book book.now doubted)) }
    ensures fit { OnOk result (All IsEntry (left_book book.now doubted)) }
{
    let Some(place) = doubted else {
        return put_book(bytes, layout, book);
    };
    let Some(entry) = book.get(place) else {
        return put_book(bytes, layout, book);
    };
    let doubt = Doubt::Unclear(Cause::Line);
    put_book(bytes, layout, &book[..place])?;
    put_entry(bytes, layout, &Entry { doubt, ..*entry })?;
    put_book(bytes, layout, &book[place + 1..])
}

/// Writes unclear payments.
fn put_rows(bytes: &mut Vec<u8>, rows: &[(Amount, Cause)]) -> Result<(), AllocError>
    ensures bytes { OnOk result (bytes.new.items ≡ bytes.old.items ++ flat_map unclear_bytes rows.now) }
    ensures fit { OnOk result (All IsUnclear rows.now) }
{
    'rows: for row in rows {
        put_unclear(bytes, row.0, row.1)?;
    }
    Ok(())
}

/// Writes the row of a payment that is open at the loss of the connection.
fn put_open(bytes: &mut Vec<u8>, left: Option<Amount>) -> Result<(), AllocError>
    ensures bytes { OnOk result (bytes.new.items ≡ bytes.old.items ++ flat_map unclear_bytes (open_rows left)) }
    ensures fit { OnOk result (All IsUnclear (open_rows left)) }
{
    match &left {
        None => Ok(()),
        Some(amount) => put_unclear(bytes, *amount, Cause::Line),
    }
}

/// Returns the number of rows for an open payment.
fn rows_left(left: Option<Amount>) -> usize
    ensures count { result ≡ length (open_rows left) }
    ensures few { result ≤ 1 }
{
    match &left {
        None => 0,
        Some(_) => 1,
    }
}

/// Writes the header and the rows of the till after losing its connection.
fn put_body(bytes: &mut Vec<u8>, layout: Layout, till: &Till) -> Result<(), AllocError>
    ensures bytes { OnOk result (bytes.new.items ≡ bytes.old.items ++ body_bytes layout
        (step till.now.state Happening.Lost)) }
    ensures kept { OnOk result (IsKept (step till.now.state Happening.Lost)) }
{
    // by this law, a till can have these rows
    till.can_be_restored();
    let settled = settle(till);
    let unclear = till.unclear().len() + rows_left(settled.left);
    put_counts(bytes, layout, till.book().len(), unclear)?;
    put_settings(bytes, till, settled.last)?;
    put_left_book(bytes, layout, till.book(), settled.doubted)?;
    put_rows(bytes, till.unclear())?;
    put_open(bytes, settled.left)
}

/// Writes the sums of all bytes after them.
fn put_sums(bytes: &mut Vec<u8>) -> Result<(), AllocError>
    ensures { OnOk result (bytes.new.items ≡ summed bytes.old.items) }
{
    let (first, second) = sums_of(bytes.as_slice());
    put_number(bytes, 4, first)?;
    put_number(bytes, 4, second)
}

/// Saves the till in this layout as it would be after losing its connection. The first layout does not record doubtful
/// reversals.
pub fn save_in(alloc: Global, layout: Layout, till: &Till) -> Result<Vec<u8>, AllocError>
    ensures bytes { IfOk result (λ bytes. bytes.items ≡ saved_in layout (step till.now.state Happening.Lost)) }
    ensures kept { OnOk result (IsKept (step till.now.state Happening.Lost)) }
{
    let mut bytes = Vec::new(alloc);
    put_body(&mut bytes, layout, till)?;
    put_sums(&mut bytes)?;
    Ok(bytes)
}

/// Saves a till as it would be after losing its connection, so a payment or reversal in progress is saved as unclear.
/// `load` accepts the result, and its till has the strict rules: rules are not saved. Fails only if memory runs out.
pub fn save(alloc: Global, till: &Till) -> Result<Vec<u8>, AllocError>
    ensures bytes { IfOk result (λ bytes. bytes.items ≡ saved (step till.now.state Happening.Lost)) }
    ensures kept { OnOk result (IsKept (step till.now.state Happening.Lost)) }
{
    save_in(alloc, Layout::Second, till)
}
