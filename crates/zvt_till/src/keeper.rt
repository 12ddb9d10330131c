//! The till that runs orders: a till alone, or one with a book.
ghost use Rattle.std.specs.Prelude.{◌≡◌, Bool, Result, false};
ghost use Rattle.zvt_till.specs.Keeping.{Follows};
ghost use Rattle.zvt_till.specs.View.{TillValue};
ghost use Rattle.zvt_till.specs.declared.keeper.BookFault.{BookFault};
ghost use Rattle.zvt_till.specs.declared.keeper.Untaken.{Untaken};
ghost use Rattle.zvt_till.specs.declared.orders.Order.{Order};
ghost use Rattle.zvt_till.specs.declared.orders.Outgoing.{Outgoing};

use crate::orders::{Order, OrderRefusal, Outgoing};
use crate::till::Till;
use std::alloc::Global;
use thiserror::Error;
use zvt_stream::Machine;

/// Why a record could not be added to the book.
#[derive(Clone, Copy, Debug, Drop, PartialEq, Eq, Error)]
pub enum BookFault {
    /// The disk has no room for the records of the order. Nothing was written or sent, and the till is unchanged.
    #[error("the disk has no room for the records of the order: free some space, then send the order again")]
    NoSpace,
    /// The book could not be written. The till has lost its line, and nothing more may be sent.
    #[error("the book could not be written: check its disk, then open it again")]
    Failed,
}

/// Why an order was not accepted. Nothing may be sent.
#[derive(Clone, Copy, Debug, Drop, PartialEq, Eq, Error)]
pub enum Untaken {
    /// The till refused it. Nothing changed.
    #[error("the till refused the order: {0}")]
    Order(OrderRefusal),
    /// The till would have accepted it, but its record could not be added to the book.
    #[error("the order was not sent: {0}")]
    Book(BookFault),
}

/// The till that runs orders: a till alone, or one with a book that records each event before anything follows from it.
pub trait Keeper: Machine {
    /// The till in contracts.
    ghost till: { Self → TillValue };

    /// Whether the book failed.
    ghost failed: { Self → Bool };

    /// The order was accepted with this message, or was not accepted.
    ghost orders: { Self → Order → Result Outgoing Untaken → Self → Type 0 };

    /// A line is up, or its record could not be added to the book.
    ghost connects: { Self → Result Unit BookFault → Self → Type 0 };

    /// Returns the till.
    fn look(&self) -> &Till
        ensures { result.now ≡ till self.now };

    /// Returns whether the book failed. The till's line is then down for good.
    fn has_failed(&self) -> bool
        ensures { result ≡ failed self.now };

    /// Starts an order and returns the message to send. By then a book contains the order's record.
    fn order(&mut self, alloc: Global, order: Order) -> Result<Outgoing, Untaken>
        ensures { orders self.old order result self.new };

    /// Notifies the till that a line is up. By then a book contains the record that an earlier line was lost. Nothing
    /// changes if the line was up.
    fn connect(&mut self, alloc: Global) -> Result<(), BookFault>
        ensures { connects self.old result self.new };

    /// Whatever happens to the keeper happens to its till.
    ghost follows: { Follows orders Self.hears Self.loses Self.malforms Self.is_resting till failed };

    /// Hearing a message never fails for lack of memory: a record that cannot be allocated makes the book fail.
    ghost frugal: { Self.wants_memory ≡ false };
}

/// A till alone keeps no state other than its own.
impl Keeper for Till {
    ghost use Rattle.std.specs.Prelude.{refl};
    ghost use Rattle.zvt_till.specs.Keeping.{itself, never_failed, till_connects, till_follows, till_orders};

    ghost till = { itself };

    ghost failed = { never_failed };

    ghost orders = { till_orders };

    ghost connects = { till_connects };

    ghost follows = { till_follows };

    ghost frugal = { refl };

    fn look(&self) -> &Till {
        self
    }

    fn has_failed(&self) -> bool {
        false
    }

    fn order(&mut self, _alloc: Global, order: Order) -> Result<Outgoing, Untaken> {
        match Till::order(self, order) {
            Ok(outgoing) => Ok(outgoing),
            Err(why) => Err(Untaken::Order(why)),
        }
    }

    fn connect(&mut self, _alloc: Global) -> Result<(), BookFault> {
        self.connected();
        Ok(())
    }
}
