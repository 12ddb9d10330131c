//! Collects the notes of a till's payments while its records are replayed.
ghost use Rattle.std.specs.Prelude.{◌≡◌, [], OnOk, length};
ghost use Rattle.zvt_kept.specs.Reading.{kept_of};
ghost use Rattle.zvt_kept.specs.RowNotes.{grown, payment_note};

use crate::note::Note;
use crate::records::Entry;
use std::alloc::{AllocError, Global};
use zvt_till::{Order, Till};

/// The notes of the payments that have ended, and the note of the payment that was ordered last.
#[derive(Drop)]
pub(crate) struct RowNotes {
    /// The note of the payment that was ordered last.
    pub(crate) last: Note,
    /// The notes of the book.
    pub(crate) booked: Vec<Note>,
    /// The notes of the unclear payments.
    pub(crate) unclear: Vec<Note>,
}

impl RowNotes {
    /// Returns the notes of a new till.
    pub(crate) fn new(alloc: Global) -> RowNotes
        ensures booked { result.booked.items ≡ [] }
        ensures unclear { result.unclear.items ≡ [] }
    {
        RowNotes {
            last: Note::none(),
            booked: Vec::new(alloc),
            unclear: Vec::new(alloc),
        }
    }

    /// Holds the note of an entry that orders a payment.
    pub(crate) fn hold(&mut self, entry: &Entry)
        ensures last { self.new.last ≡ payment_note self.old.last (kept_of entry.now) }
        ensures booked { self.new.booked ≡ self.old.booked }
        ensures unclear { self.new.unclear ≡ self.old.unclear }
    {
        if let Entry::Order {
            order: Order::Pay(_),
            note,
        } = entry
        {
            self.last = note.copied();
        }
    }

    /// Adds the held note if the till booked a payment, or one became unclear.
    pub(crate) fn follow(&mut self, till: &Till) -> Result<(), AllocError>
        ensures last { OnOk result (self.new.last ≡ self.old.last) }
        ensures booked { OnOk result (self.new.booked.items ≡ grown self.old.booked.items (length till.now.state.book)
            self.old.last) }
        ensures unclear { OnOk result (self.new.unclear.items ≡ grown self.old.unclear.items
            (length till.now.state.unclear) self.old.last) }
    {
        if self.booked.len() < till.book().len() {
            self.booked.push(self.last.copied())?;
        }
        if self.unclear.len() < till.unclear().len() {
            self.unclear.push(self.last.copied())?;
        }
        Ok(())
    }
}
