//! Restores a till from the records of its journal.
ghost use Rattle.std.specs.Prelude.{◌≡◌, ◌↔◌, ℕ, List, Err, IsTrue, IfOk, MatchResult, Ok};
ghost use Rattle.zvt_kept.specs.Reading.{kept_of};
ghost use Rattle.zvt_kept.specs.Logs.{HasOpening};
ghost use Rattle.zvt_kept.specs.Records.{asked, heard, ordered};
ghost use Rattle.zvt_kept.specs.Recovery.{HasSettled, Recovers, Replays};
ghost use Rattle.zvt_kept.specs.PastOrders.{HasOrders};
ghost use Rattle.zvt_kept.specs.RowNotes.{HasNotes};
ghost use Rattle.zvt_kept.specs.declared.recovery.RecoveryError.TheVariants.{Memory};
ghost use Rattle.zvt_settle.specs.Inside.{both_of, till_inside};
ghost use Rattle.zvt_till.specs.Settings.{settings_of};

use crate::lines::{RecordError, read_records};
use crate::note::Note;
use crate::past_orders::PastOrders;
use crate::records::{Entry, put_opening};
use crate::row_notes::RowNotes;
use std::alloc::{AllocError, Global};
use thiserror::Error;
use zvt_apdu::scan_loose;
use zvt_grammar::Scan;
use zvt_settle::SettlingTill;
use zvt_text::Text;
use zvt_text::words::trailing;
use zvt_till::{Order, OrderRefusal, Till, TillSettings, heard};

/// Why a till cannot be restored from a journal's records.
#[derive(Clone, Copy, Debug, PartialEq, Eq, Error)]
pub enum RecoveryError {
    /// The first line is not the opening of a journal with this currency and this rule on reversals by receipt number.
    #[error("this book has another currency or rule on reversals: give the settings of the book, or name another file")]
    Opening,
    /// This line, counted from 1, is not a line of a journal.
    #[error("line {number} of the book is not part of a valid record")]
    Line { number: usize },
    /// This line, counted from 1, is a check that does not match the record before it.
    #[error("line {number} of the book is not the check of its record: the file was changed or damaged")]
    Check { number: usize },
    /// This record, counted from 1, is the first that cannot follow the records before it: the till refuses its order
    /// or ask, or its bytes are not one message.
    #[error("record {number} of the book contradicts the records before it")]
    Record { number: usize },
    /// An allocation failed.
    #[error("out of memory")]
    Memory,
}

impl From<AllocError> for RecoveryError {
    ghost from_gives = { λ _ error. error ≡ Memory };

    fn from(_refused: AllocError) -> RecoveryError {
        RecoveryError::Memory
    }
}

/// A till that was rebuilt from its journal, and the notes of its payments.
#[derive(Drop)]
pub struct Recovered {
    /// The till, which is not connected. It knows what the asks of the journal have settled, and what is pending.
    pub till: SettlingTill,
    /// The note of each payment in the till's book, in the order of the book.
    pub booked: Vec<Note>,
    /// The note of each unclear payment, in the order of [`Till::unclear`].
    pub unclear: Vec<Note>,
    /// The orders of the journal, and how each ended. An order that was running ended with the line.
    pub orders: PastOrders,
}

/// Rebuilds a till from its journal by replaying the records and then losing the connection.
///
/// Completed payments are in the book; a payment or reversal that was in progress is unclear. The till has to
/// register on its next connection. `settings` must have the journal's currency and its rule on reversals by receipt
/// number ([`Rules::reversal_by_receipt`](zvt_till::Rules)), and supplies the password, which journals do not store.
///
/// The note of a payment comes from the record of its order, and is empty if that record has none.
pub fn recover(
    alloc: Global,
    settings: &TillSettings,
    text: &[u8],
) -> Result<Recovered, RecoveryError>
    ensures till { MatchResult result
        (λ recovered. Recovers (settings_of settings.now) text.now (Ok (till_inside recovered.till)))
        (λ why. Recovers (settings_of settings.now) text.now (Err why)) }
    ensures settling { IfOk result (λ recovered. HasSettled (settings_of settings.now) text.now
        (both_of recovered.till)) }
    ensures notes { IfOk result (λ recovered. HasNotes (settings_of settings.now) text.now
        (till_inside recovered.till).state
        recovered.booked.items recovered.unclear.items) }
    ensures orders { IfOk result (λ recovered. HasOrders (settings_of settings.now) text.now recovered.orders) }
{
    if !has_opening(alloc, text, settings)? {
        return Err(RecoveryError::Opening);
    }
    let entries = match read_records(alloc, text) {
        Ok(entries) => entries,
        Err(RecordError::Line { number }) => return Err(RecoveryError::Line { number }),
        Err(RecordError::Check { number }) => return Err(RecoveryError::Check { number }),
        Err(RecordError::Memory) => return Err(RecoveryError::Memory),
    };
    let mut till = SettlingTill::new(alloc, Till::with_settings(alloc, settings));
    till.connected();
    let mut notes = RowNotes::new(alloc);
    let mut orders = PastOrders::new(alloc);
    for (at, entry) in entries.iter().enumerate() {
        notes.hold(entry);
        orders.hold(entry)?;
        if !relive(alloc, &mut till, entry)? {
            return Err(RecoveryError::Record { number: at + 1 });
        }
        notes.follow(till.till())?;
        orders.follow(till.till());
    }
    let _ = till.lost();
    notes.follow(till.till())?;
    orders.follow(till.till());
    Ok(Recovered {
        till,
        booked: notes.booked,
        unclear: notes.unclear,
        orders,
    })
}

/// Returns whether the text begins with the first line of a journal of a till with these settings.
fn has_opening(alloc: Global, text: &[u8], settings: &TillSettings) -> Result<bool, AllocError>
    ensures { IfOk result (λ begins. IsTrue begins ↔ HasOpening (settings_of settings.now) text.now) }
{
    let mut opening = Text::new(alloc);
    let by_receipt = settings.rules.reversal_by_receipt;
    put_opening(&mut opening, settings.currency, by_receipt)?;
    Ok(trailing(opening.bytes(), text).is_some())
}

/// Replays an entry. Returns whether the till accepts it; if not, do not use the till again.
fn relive(alloc: Global, till: &mut SettlingTill, entry: &Entry) -> Result<bool, AllocError>
    ensures { IfOk result (λ can. Replays can (kept_of entry.now) (both_of till.old) (both_of till.new)) }
{
    match entry {
        Entry::Order { order, .. } => relive_order(till, order),
        Entry::Ask(_) => relive_ask(till),
        Entry::Heard(message) => relive_message(alloc, till, message),
        Entry::Lost => {
            let _ = till.lost();
            till.connected();
            Ok(true)
        }
    }
}

/// Replays an order. Returns whether the till accepts it.
fn relive_order(till: &mut SettlingTill, order: &Order) -> Result<bool, AllocError>
    ensures { IfOk result (λ can. (note : List ℕ) → Replays can (ordered order.now note) (both_of till.old)
        (both_of till.new)) }
{
    match till.order(*order) {
        Ok(_) => Ok(true),
        Err(why) if why == OrderRefusal::Memory => Err(AllocError),
        Err(_) => Ok(false),
    }
}

/// Replays an ask. Returns whether the till accepts it.
fn relive_ask(till: &mut SettlingTill) -> Result<bool, AllocError>
    ensures { IfOk result (λ can. (note : List ℕ) → Replays can (asked note) (both_of till.old) (both_of till.new)) }
{
    match till.ask() {
        Ok(_) => Ok(true),
        Err(why) if why == OrderRefusal::Memory => Err(AllocError),
        Err(_) => Ok(false),
    }
}

/// Replays a message. Returns whether the bytes are exactly one message.
fn relive_message(alloc: Global, till: &mut SettlingTill, bytes: &[u8]) -> Result<bool, AllocError>
    ensures { IfOk result (λ can. Replays can (heard bytes.now) (both_of till.old) (both_of till.new)) }
{
    let Scan::Whole((apdu, size)) = scan_loose(alloc, bytes)? else {
        return Ok(false);
    };
    if size != bytes.len() {
        return Ok(false);
    }
    let _ = till.hear(heard(&apdu));
    Ok(true)
}
