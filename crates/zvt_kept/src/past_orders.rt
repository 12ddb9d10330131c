//! The orders of a journal, and how each of them ended.
ghost use Rattle.std.specs.Prelude.{◌≡◌};
ghost use Rattle.zvt_kept.specs.PastOrders.{ended, runs};

use crate::note::Note;
use crate::records::Entry;
use std::alloc::{AllocError, Global};
use std::marker::Model;
use zvt_till::{Order, Outcome, Till};

/// An order of a journal.
#[derive(Drop)]
pub struct PastOrder {
    pub order: Order,
    /// The note in the record of the order.
    pub note: Note,
    /// How the order ended. `None` while it is running.
    pub outcome: Option<Outcome>,
}

/// The orders of a journal, from the oldest to the newest. A request to break off the running order is not one of them.
#[derive(Drop)]
pub struct PastOrders {
    orders: Vec<PastOrder>,
}

impl Model for PastOrders {
    ghost use Rattle.std.specs.Prelude.{List};
    ghost use Rattle.zvt_kept.specs.declared.past_orders.PastOrder.{PastOrder as APastOrder};

    ghost Value = { List APastOrder };

    ghost view = { λ past. past.orders.items };
}

impl PastOrders {
    ghost use Rattle.std.specs.Prelude.{[], OnErr, OnOk, length, option_map, take};
    ghost use Rattle.zvt_kept.specs.PastOrders.{first_noted, followed, held};
    ghost use Rattle.zvt_kept.specs.Reading.{kept_of};
    ghost use Rattle.zvt_kept.specs.Records.{ordered};

    /// Returns the orders of a journal that has none. Allocates nothing.
    pub fn new(alloc: Global) -> PastOrders
        ensures { result ≡ [] }
    {
        PastOrders {
            orders: Vec::new(alloc),
        }
    }

    /// Returns the orders.
    pub fn as_slice(&self) -> &[PastOrder]
        ensures { result.now ≡ self.now }
    {
        &self.orders
    }

    /// Returns the first order whose note has this reference.
    pub fn find(&self, reference: &[u8]) -> Option<&PastOrder>
        ensures { option_map (λ past. past.now) result ≡ first_noted reference.now self.now }
    {
        self.orders
            .iter()
            .find(|past| past.note.has_reference(reference))
    }

    /// Returns the number of orders.
    pub fn len(&self) -> usize
        ensures { result ≡ length self.now }
    {
        self.orders.len()
    }

    /// Adds an order that starts. Adds nothing for a request to break off the running order, and nothing if an
    /// allocation fails.
    pub fn start(&mut self, order: Order, note: &Note) -> Result<(), AllocError>
        ensures ok { OnOk result (self.new ≡ held self.old (ordered order note.now)) }
        ensures err { OnErr result (self.new ≡ self.old) }
    {
        if runs(&order) {
            self.orders.push(PastOrder {
                order,
                note: note.copied(),
                outcome: None,
            })?;
        }
        Ok(())
    }

    /// Removes all orders but the first `count`.
    pub fn truncate(&mut self, count: usize)
        ensures { self.new ≡ take count self.old }
    {
        self.orders.truncate(count);
    }

    /// Adds the order that a record starts, if it starts one.
    pub(crate) fn hold(&mut self, entry: &Entry) -> Result<(), AllocError>
        ensures { OnOk result (self.new ≡ held self.old (kept_of entry.now)) }
    {
        match entry {
            Entry::Order { order, note } => self.start(*order, note),
            Entry::Ask(_) | Entry::Heard(_) | Entry::Lost => Ok(()),
        }
    }

    /// Notes how the last order ended, or that it is still running, as this till says.
    pub fn follow(&mut self, till: &Till)
        ensures { self.new ≡ followed self.old till.now.state }
    {
        if let Some(last) = self.orders.last_mut() {
            last.outcome = ended(till);
        }
    }
}

/// Returns whether an order runs until it ends.
fn runs(order: &Order) -> bool
    ensures { result ≡ runs order.now }
{
    match order {
        Order::Register | Order::Pay(_) | Order::Reverse(_) | Order::CloseDay => true,
        Order::Cancel => false,
    }
}

/// Returns how the last order of a till ended, or `None` while an order is running.
fn ended(till: &Till) -> Option<Outcome>
    ensures { result ≡ ended till.now.state }
{
    match till.running() {
        Some(_) => None,
        None => till.last_outcome(),
    }
}
