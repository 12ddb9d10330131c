//! A till's capacity for further payments.
ghost use Rattle.std.specs.Prelude.{◌≡◌, ◌<◌, ◌≤◌, OnOk, OnErr};

use super::{MAX_BOOK_ENTRIES, Till};
use std::alloc::AllocError;

impl Till {
    /// Returns how many payments can be started and recorded, as booked or unclear, without allocating. A running
    /// payment still counts.
    pub fn spare(&self) -> usize
        ensures { result ≡ self.now.spare }
    {
        let booked = self.book.capacity() - self.book.len();
        let unclear = self.unclear.capacity() - self.unclear.len();
        let heard = self.heard.capacity() - self.heard.len();
        if self.used.has_capacity() {
            booked.min(unclear.min(heard))
        } else {
            0
        }
    }

    /// Reserves capacity for the given number of payments, so that `spare` is at least `pays`. If an allocation fails,
    /// `spare` may have risen, but not enough. Nothing else changes.
    pub fn reserve(&mut self, pays: usize) -> Result<(), AllocError>
        requires { pays ≤ MAX_BOOK_ENTRIES }
        ensures room { OnOk result (pays ≤ self.new.spare) }
        ensures wanted { OnErr result (self.new.spare < pays) }
        ensures kept { self.old.spare ≤ self.new.spare }
        ensures state { self.new.state ≡ self.old.state }
        ensures numbers { self.new.numbers ≡ self.old.numbers }
        ensures heard { self.new.heard ≡ self.old.heard }
    {
        if pays <= self.spare() {
            return Ok(());
        }
        self.used.reserve_for()?;
        self.book.reserve(pays)?;
        self.unclear.reserve(pays)?;
        self.heard.reserve(pays)?;
        Ok(())
    }
}
