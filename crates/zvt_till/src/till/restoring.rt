//! Restores a till from recorded rows.
ghost use Rattle.std.specs.Prelude.{◌≡◌, length, replicate, IfOk, IfErr, OnOk};
ghost use Rattle.zvt_till.specs.UsedTraces.{AreTracesOf};
ghost use Rattle.zvt_till.specs.Restoring.{OnceBelow};

use super::{MAX_BOOK_ENTRIES, Till};
use crate::entries::Entry;
use crate::happenings::Happening;
use crate::numbers::Numbers;
use crate::outcomes::{Cause, Outcome};
use crate::used_traces::UsedTraces;
use std::alloc::Global;
use thiserror::Error;
use zvt_bcd::Amount;

/// Why rows cannot be restored.
#[derive(Clone, Copy, Debug, Drop, PartialEq, Eq, Error)]
pub enum RestoreError {
    /// There are more than `MAX_BOOK_ENTRIES` rows of a kind, or a trace number appears twice in the book.
    #[error("no till has these rows: there are too many, or a trace number appears twice")]
    Impossible,
    /// An allocation failed.
    #[error("out of memory")]
    Memory,
}

/// Returns the trace numbers of a book in which none appears twice.
fn traces_of(alloc: Global, book: &[Entry]) -> Result<UsedTraces, RestoreError>
    ensures traces { IfOk result (λ used. AreTracesOf used book.now) }
    ensures once { OnOk result (OnceBelow (length book.now) book.now) }
    ensures err { IfErr result (λ why. why ≡ RestoreError.Impossible → OnceBelow (length book.now) book.now → ⊥) }
{
    let mut used = UsedTraces::new(alloc);
    if used.reserve_for().is_err() {
        return Err(RestoreError::Memory);
    }
    'rows: for entry in book {
        if used.contains(entry.trace) {
            return Err(RestoreError::Impossible);
        }
        used.insert(entry.trace);
    }
    Ok(used)
}

impl Till {
    ghost use Rattle.zvt_till.specs.Restoring.{CanStand, IsUnrestored, at_rest};
    ghost use Rattle.zvt_till.specs.Numbers.{no_numbers};
    ghost use Rattle.zvt_till.specs.Till.{step};

    /// Creates a till with the settings of this one, not connected, with these booked and unclear payments and this
    /// last outcome. The numbers that the terminal named are unknown. Fails if no till can have these rows, or if an
    /// allocation fails.
    pub fn restored(
        &self,
        alloc: Global,
        book: Vec<Entry>,
        unclear: Vec<(Amount, Cause)>,
        last: Option<Outcome>,
    ) -> Result<Till, RestoreError>
        ensures state { IfOk result (λ till. till.state ≡ at_rest self.now.state.settings book.items
            unclear.items last) }
        ensures numbers { IfOk result (λ till. till.numbers ≡ no_numbers) }
        ensures heard { IfOk result (λ till. till.heard ≡ replicate (length unclear.items) no_numbers) }
        ensures stands { OnOk result (CanStand book.items unclear.items) }
        ensures err { IfErr result (λ why. IsUnrestored why book.items unclear.items) }
    {
        if MAX_BOOK_ENTRIES < book.len() || MAX_BOOK_ENTRIES < unclear.len() {
            return Err(RestoreError::Impossible);
        }
        let Ok(heard) = vec![in alloc; Numbers::none(); unclear.len()] else {
            return Err(RestoreError::Memory);
        };
        match traces_of(alloc, book.as_slice()) {
            Ok(used) => Ok(Till {
                password: self.password,
                config: self.config,
                currency: self.currency,
                rules: self.rules,
                line_up: false,
                registered: false,
                running: None,
                book,
                used,
                unclear,
                last_outcome: last,
                numbers: Numbers::none(),
                heard,
            }),
            Err(why) => Err(why),
        }
    }

    /// Law: the rows of every till after losing its line can be restored, so `restored` never reports them as
    /// impossible.
    pub fn can_be_restored(&self)
        ensures { CanStand (step self.now.state Happening.Lost).book (step self.now.state Happening.Lost).unclear }
    {
        // Reading one field tells the proof the invariant of all fields.
        let _ = &self.book;
    }
}
