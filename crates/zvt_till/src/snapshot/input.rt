//! Reads values from saved bytes. If the bytes encode a value, the reader returns it. Its contract does not cover
//! other bytes, because a loaded till is saved again and compared.
ghost use Rattle.std.specs.Prelude.{◌≡◌, ℕ, ◌^◌, ◌<◌, ◌≤◌, List, Option, Some, IfSome, length};
ghost use Rattle.zvt_apdu.specs.Briefs.{digits};
ghost use Rattle.zvt_till.specs.declared.entries.Doubt.{Doubt};
ghost use Rattle.zvt_till.specs.declared.entries.Entry.{Entry};
ghost use Rattle.zvt_till.specs.declared.outcomes.Cause.{Cause};
ghost use Rattle.zvt_till.specs.SnapshotEncoded.{cause_code, doubt_bytes, doubt_code, receipt_bytes, entry_bytes};
ghost use Rattle.zvt_till.specs.SnapshotEncoded.{entry_size, unclear_bytes, outcome_row, outcome_bytes, IsAmount};
ghost use Rattle.zvt_till.specs.SnapshotEncoded.{IsReceipt, IsEntry, IsUnclear, IsOutcome};
ghost use Rattle.zvt_till.specs.SnapshotReading.{cause_from, doubt_from, outcome_from, HasDoubtOf, HasRowOf};

use crate::snapshot::layouts::Layout;
use crate::{Cause, Doubt, Entry, Outcome};
use zvt_bcd::{Amount, Trace, is_digits, number};

/// Returns the number in these digits.
pub fn read_number(bytes: &[u8]) -> Option<u64>
    requires { length bytes.now ≤ 9 }
    ensures value { (n : ℕ) → n < 100 ^ length bytes.now → bytes.now ≡ digits (length bytes.now) n → result ≡ Some n }
    ensures bound { IfSome result (λ n. n < 100 ^ length bytes.now) }
{
    if is_digits(bytes) {
        Some(number(bytes))
    } else {
        None
    }
}

/// Reads an amount from six bytes.
fn read_amount(bytes: &[u8]) -> Option<Amount>
    requires { length bytes.now ≡ 6 }
    ensures { (n : ℕ) → IsAmount n → bytes.now ≡ digits 6 n → result ≡ Some n }
{
    match read_number(bytes) {
        Some(units) => Amount::new(units),
        None => None,
    }
}

/// Reads a trace number from three bytes.
fn read_trace(bytes: &[u8]) -> Option<Trace>
    requires { length bytes.now ≡ 3 }
    ensures { (n : ℕ) → n ≤ 999999 → bytes.now ≡ digits 3 n → result ≡ Some n }
{
    match read_number(bytes) {
        Some(number) => Trace::new(number as u32),
        None => None,
    }
}

/// Returns the cause with this number.
fn read_cause(code: u8) -> Option<Cause>
    ensures { result ≡ cause_from code }
{
    match code {
        1 => Some(Cause::NoStatus),
        2 => Some(Cause::Conflict),
        3 => Some(Cause::AmountDiffers),
        4 => Some(Cause::NoTrace),
        5 => Some(Cause::TraceUsed),
        6 => Some(Cause::AbortAfterApproval),
        7 => Some(Cause::Line),
        8 => Some(Cause::Malformed),
        9 => Some(Cause::Unfinished),
        10 => Some(Cause::WrongCurrency),
        _ => None,
    }
}

/// Reads a receipt number, if the byte before it says that there is one.
fn read_receipt(bytes: &[u8]) -> Option<[u8; 2]>
    requires { length bytes.now ≡ 3 }
    ensures { (receipt : Option (List ℕ)) → IsReceipt receipt → bytes.now ≡ receipt_bytes receipt → result ≡ receipt }
{
    if bytes[0] == 1 {
        Some([bytes[1], bytes[2]])
    } else {
        None
    }
}

/// Returns the doubt with this number.
fn doubt_of(code: u8) -> Option<Doubt>
    ensures { result ≡ doubt_from code }
{
    match code {
        0 => Some(Doubt::No),
        11 => Some(Doubt::TakenBack),
        _ => match read_cause(code) {
            Some(cause) => Some(Doubt::Unclear(cause)),
            None => None,
        },
    }
}

/// Reads an entry's doubt, after its receipt number. The first layout has none.
fn read_doubt(layout: Layout, bytes: &[u8]) -> Option<Doubt>
    ensures value { (doubt : Doubt) → HasDoubtOf layout doubt → bytes.now ≡ doubt_bytes layout doubt
        → result ≡ Some doubt }
    ensures held { IfSome result (HasDoubtOf layout) }
{
    match layout {
        Layout::First => Some(Doubt::No),
        Layout::Second => match bytes.first() {
            Some(code) => doubt_of(*code),
            None => None,
        },
    }
}

/// Reads a row of the book.
pub fn read_entry(layout: Layout, row: &[u8]) -> Option<Entry>
    requires { length row.now ≡ entry_size layout }
    ensures value { (entry : Entry) → HasRowOf layout entry → row.now ≡ entry_bytes layout entry → result ≡ Some entry }
    ensures held { IfSome result (λ entry. HasDoubtOf layout entry.doubt) }
{
    let doubt = read_doubt(layout, &row[13..])?;
    let receipt = read_receipt(&row[10..13]);
    let reversed = row[9] == 1;
    let trace = read_trace(&row[6..9])?;
    let amount = read_amount(&row[..6])?;
    Some(Entry {
        amount,
        trace,
        receipt,
        reversed,
        doubt,
    })
}

/// Reads an unclear payment from 7 bytes.
pub fn read_unclear(row: &[u8]) -> Option<(Amount, Cause)>
    requires { length row.now ≡ 7 }
    ensures { (pair : ℕ × Cause) → IsUnclear pair → row.now ≡ unclear_bytes pair → result ≡ Some pair }
{
    let cause = read_cause(row[6])?;
    let amount = read_amount(&row[..6])?;
    Some((amount, cause))
}

/// Returns the outcome of this kind with these values.
fn outcome_of(kind: u8, code: u8, trace: Trace, receipt: Option<[u8; 2]>) -> Option<Option<Outcome>>
    ensures { result ≡ outcome_from kind code trace receipt }
{
    let outcome = match kind {
        0 => return Some(None),
        1 => Outcome::Registered,
        2 => Outcome::Paid { trace, receipt },
        3 => Outcome::Declined(code),
        4 => Outcome::Refused(code),
        5 => Outcome::Aborted(code),
        6 => match read_cause(code) {
            Some(cause) => Outcome::Unclear(cause),
            None => return None,
        },
        7 => Outcome::Reversed,
        8 => Outcome::DayClosed,
        _ => return None,
    };
    Some(Some(outcome))
}

/// Reads an outcome, or its absence, from 8 bytes.
pub fn read_outcome(row: &[u8]) -> Option<Option<Outcome>>
    requires { length row.now ≡ 8 }
    ensures { (outcome : Option Outcome) → IsOutcome outcome → row.now ≡ outcome_bytes outcome → result ≡ Some outcome }
{
    let receipt = read_receipt(&row[5..]);
    match read_trace(&row[2..5]) {
        Some(trace) => outcome_of(row[0], row[1], trace, receipt),
        None => None,
    }
}
