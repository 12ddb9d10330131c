//! Restores a till from its saved bytes.
ghost use Rattle.std.specs.Prelude.{◌≡◌, ℕ, ◌≤◌, List, Option, Some, IfOk, MatchResult, flat_map, length};
ghost use Rattle.std.specs.List.{All};
ghost use Rattle.zvt_till.specs.declared.entries.Entry.{Entry};
ghost use Rattle.zvt_till.specs.declared.outcomes.Cause.{Cause};
ghost use Rattle.zvt_till.specs.declared.outcomes.Outcome.{Outcome};
ghost use Rattle.zvt_till.specs.Restoring.{CanStand};
ghost use Rattle.zvt_till.specs.Sending.{Settings};
ghost use Rattle.zvt_till.specs.Till.{TillState, step};
ghost use Rattle.zvt_apdu.specs.Briefs.{digits};
ghost use Rattle.zvt_till.specs.SnapshotDecoding.{IsMade, IsLoaded, LeadsTo, OfLayout, RestsOn};
ghost use Rattle.zvt_till.specs.SnapshotReading.{HasDoubtOf, HasRowOf, IsOfLayout};
ghost use Rattle.zvt_till.specs.SnapshotEncoded.{body_bytes, entry_bytes, saved, saved_first, saved_in, settings_bytes};
ghost use Rattle.zvt_till.specs.SnapshotEncoded.{unclear_bytes, HasNoDoubts, IsKept, IsOutcome, IsSavedAs, IsUnclear};

use crate::snapshot::encoder::{save, save_in};
use crate::snapshot::input::{read_entry, read_number, read_outcome, read_unclear};
use crate::snapshot::layouts::{Layout, entry_size, layout_of};
use crate::{Cause, Entry, Happening, Outcome, RestoreError, Till};
use std::alloc::Global;
use thiserror::Error;
use zvt_bcd::{Amount, Currency};

/// Why saved bytes could not be restored.
#[derive(Clone, Copy, Debug, Drop, PartialEq, Eq, Error)]
pub enum LoadError {
    /// The bytes are not a saved till: they are cut off, altered, of another version, or contain a book that no till
    /// can have.
    #[error("these bytes are not a saved till: they are cut off, altered or of an unknown version")]
    Damaged,
    /// An allocation failed.
    #[error("out of memory")]
    Memory,
}

/// The rows of a book.
fn read_book(alloc: Global, layout: Layout, bytes: &[u8]) -> Result<Vec<Entry>, LoadError>
    ensures value { (book : List Entry) → All (HasRowOf layout) book → bytes.now ≡ flat_map (entry_bytes layout) book
        → MatchResult result (λ rows. rows.items ≡ book) (λ why. why ≡ LoadError.Memory) }
    ensures held { IfOk result (λ rows. All (λ entry. HasDoubtOf layout entry.doubt) rows.items) }
{
    let size = entry_size(layout);
    let mut rows = Vec::new(alloc);
    let mut rest = bytes;
    'rows: while size <= rest.len() {
        let (row, after) = rest.split_at(size);
        let Some(entry) = read_entry(layout, row) else {
            return Err(LoadError::Damaged);
        };
        if rows.push(entry).is_err() {
            return Err(LoadError::Memory);
        }
        rest = after;
    }
    Ok(rows)
}

/// The unclear payments.
fn read_rows(alloc: Global, bytes: &[u8]) -> Result<Vec<(Amount, Cause)>, LoadError>
    ensures { (unclear : List (ℕ × Cause)) → All IsUnclear unclear → bytes.now ≡ flat_map unclear_bytes unclear
        → MatchResult result (λ rows. rows.items ≡ unclear) (λ why. why ≡ LoadError.Memory) }
{
    let mut rows = Vec::new(alloc);
    let mut rest = bytes;
    'rows: while 7 <= rest.len() {
        let (row, after) = rest.split_at(7);
        let Some(pair) = read_unclear(row) else {
            return Err(LoadError::Damaged);
        };
        if rows.push(pair).is_err() {
            return Err(LoadError::Memory);
        }
        rest = after;
    }
    Ok(rows)
}

/// How many rows the book has, where these are digits.
fn booked_of(bytes: &[u8]) -> usize
    requires { length bytes.now ≡ 3 }
    ensures value { (n : ℕ) → n ≤ 999999 → bytes.now ≡ digits 3 n → result ≡ n }
    ensures few { result ≤ 999999 }
{
    match read_number(bytes) {
        Some(number) => number as usize,
        None => 0,
    }
}

/// The currency in two bytes.
fn read_currency(bytes: &[u8]) -> Option<Currency>
    requires { length bytes.now ≡ 2 }
    ensures { (n : ℕ) → n ≤ 9999 → bytes.now ≡ digits 2 n → result ≡ Some n }
{
    match read_number(bytes) {
        Some(number) => Currency::new(number as u16),
        None => None,
    }
}

/// The settings of a till, and its last outcome.
#[derive(Clone, Copy)]
struct Made {
    password: [u8; 3],
    config: u8,
    currency: Currency,
    last: Option<Outcome>,
}

/// What 14 bytes say of it.
fn read_made(bytes: &[u8]) -> Option<Made>
    requires { length bytes.now ≡ 14 }
    ensures { (settings : Settings) (last : Option Outcome) → IsOutcome last → settings.currency ≤ 9999
        → length settings.password ≡ 3 → bytes.now ≡ settings_bytes settings last → IsMade result settings last }
{
    let tail = &bytes[10..];
    let last = read_outcome(&bytes[2..10])?;
    let currency = read_currency(&bytes[..2])?;
    Some(Made {
        password: [tail[1], tail[2], tail[3]],
        config: tail[0],
        currency,
        last,
    })
}

/// The till at rest with these rows.
fn restore(
    alloc: Global,
    made: Made,
    book: Vec<Entry>,
    unclear: Vec<(Amount, Cause)>,
) -> Result<Till, LoadError>
    ensures value { CanStand book.items unclear.items → IsLoaded result made book.items unclear.items }
    ensures rests { RestsOn result book.items }
{
    let till = Till::new(alloc, made.password, made.config, made.currency);
    match till.restored(alloc, book, unclear, made.last) {
        Ok(till) => Ok(till),
        Err(RestoreError::Impossible) => Err(LoadError::Damaged),
        Err(RestoreError::Memory) => Err(LoadError::Memory),
    }
}

/// The till whose header and rows these are.
fn read_body(alloc: Global, layout: Layout, bytes: &[u8]) -> Result<Till, LoadError>
    requires { 24 ≤ length bytes.now }
    ensures value { (s : TillState) → IsKept s → IsOfLayout layout s → bytes.now ≡ body_bytes layout s
        → LeadsTo result s }
    ensures held { OfLayout result layout }
{
    let (_, rows) = bytes.split_at(24);
    let size = (entry_size(layout) * booked_of(&bytes[4..7])).min(rows.len());
    let (entries, others) = rows.split_at(size);
    let Some(made) = read_made(&bytes[10..24]) else {
        return Err(LoadError::Damaged);
    };
    let book = match read_book(alloc, layout, entries) {
        Ok(book) => book,
        Err(why) => return Err(why),
    };
    let unclear = match read_rows(alloc, others) {
        Ok(unclear) => unclear,
        Err(why) => return Err(why),
    };
    restore(alloc, made, book, unclear)
}

/// The till that the bytes of this layout were saved of, before its check sums are looked at.
fn read_till(alloc: Global, layout: Layout, bytes: &[u8]) -> Result<Till, LoadError>
    ensures value { (s : TillState) → IsKept s → IsOfLayout layout s → bytes.now ≡ saved_in layout s
        → LeadsTo result s }
    ensures held { OfLayout result layout }
{
    if bytes.len() < 32 {
        return Err(LoadError::Damaged);
    }
    let (body, _) = bytes.split_at(bytes.len() - 8);
    read_body(alloc, layout, body)
}

/// The till that the bytes of this layout were saved of.
fn load_in(alloc: Global, layout: Layout, bytes: &[u8]) -> Result<Till, LoadError>
    ensures value { (s : TillState) → IsKept s → IsOfLayout layout s → bytes.now ≡ saved_in layout s
        → LeadsTo result s }
    ensures only { IfOk result (λ till. bytes.now ≡ saved_in layout (step till.state Happening.Lost)) }
    ensures held { OfLayout result layout }
{
    let till = match read_till(alloc, layout, bytes) {
        Ok(till) => till,
        Err(why) => return Err(why),
    };
    let again = match save_in(alloc, layout, &till) {
        Ok(again) => again,
        Err(_) => return Err(LoadError::Memory),
    };
    if again.as_slice() == bytes {
        Ok(till)
    } else {
        Err(LoadError::Damaged)
    }
}

/// Restores a till from saved bytes in either layout. It is not connected, no order is running, and its rules are the
/// strict ones. Fails if the bytes are not a saved till, or if an allocation fails.
pub fn load(alloc: Global, bytes: &[u8]) -> Result<Till, LoadError>
    ensures whole { (s : TillState) → IsKept s → bytes.now ≡ saved s → LeadsTo result s }
    ensures first { (s : TillState) → IsKept s → HasNoDoubts s → bytes.now ≡ saved_first s → LeadsTo result s }
    ensures only { IfOk result (λ till. IsSavedAs bytes.now (step till.state Happening.Lost)) }
{
    load_in(alloc, layout_of(bytes), bytes)
}

/// Saves this till and restores it. The contract is a law: a saved till can always be loaded, and equals the till
/// after losing its connection, under the strict rules.
pub fn reloaded(alloc: Global, till: &Till) -> Result<Till, LoadError>
    ensures { LeadsTo result (step till.now.state Happening.Lost) }
{
    match save(alloc, till) {
        Ok(bytes) => load(alloc, bytes.as_slice()),
        Err(_) => Err(LoadError::Memory),
    }
}
