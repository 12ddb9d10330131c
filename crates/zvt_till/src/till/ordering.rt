//! Decides which orders a till accepts.
ghost use Rattle.std.specs.Prelude.{◌≡◌, ◌≤◌, length, IfOk, IfErr, OnOk, OnErr, slice_get};

use super::{MAX_BOOK_ENTRIES, Till};
use crate::numbers::Numbers;
use crate::orders::{Order, OrderRefusal, Outgoing};
use crate::statuses::{Running, Statuses};
use std::alloc::AllocError;
use zvt_apdu::Brief;

impl Till {
    ghost use Rattle.zvt_till.specs.Numbers.{numbers_begun};
    ghost use Rattle.zvt_till.specs.Refusals.{cancel_refusal, capacity_refusal, row_refusal, line_refusal, refusal};
    ghost use Rattle.zvt_till.specs.Sending.{receipt_at, message_of};
    ghost use Rattle.zvt_till.specs.Till.{accept, facts_of};
    ghost use Rattle.zvt_till.specs.View.{IsRefusedAs, CanEnd};

    /// Returns why a cancel cannot be sent, if it cannot.
    fn cancel_refusal(&self) -> Option<OrderRefusal>
        ensures { result ≡ cancel_refusal (facts_of self.now.state).awaited }
    {
        match self.running {
            Some(running) if running.positive => None,
            _ => Some(OrderRefusal::NothingToCancel),
        }
    }

    /// Returns why there is no capacity for one more payment, if there is none.
    fn capacity_refusal(&self) -> Option<OrderRefusal>
        ensures { result ≡ capacity_refusal (facts_of self.now.state) }
    {
        if self.book.len() < MAX_BOOK_ENTRIES && self.unclear.len() < MAX_BOOK_ENTRIES {
            None
        } else {
            Some(OrderRefusal::BookFull)
        }
    }

    /// Returns the receipt number for reversing this entry, or why it cannot be reversed.
    fn receipt_at(&self, entry: usize) -> Result<[u8; 2], OrderRefusal>
        ensures ok { IfOk result (λ receipt. (row_refusal (slice_get self.now.state.book entry) ≡ None)
            × (receipt_at (slice_get self.now.state.book entry) ≡ Some receipt)) }
        ensures err { IfErr result (λ why. row_refusal (slice_get self.now.state.book entry) ≡ Some why) }
    {
        match self.book.get(entry) {
            None => Err(OrderRefusal::UnknownEntry),
            Some(row) if row.reversed => Err(OrderRefusal::AlreadyReversed),
            Some(row) => match row.receipt {
                None => Err(OrderRefusal::NoReceipt),
                Some(receipt) => Ok(receipt),
            },
        }
    }

    /// Returns why the line or the running order prevents this order, if they do.
    fn line_refusal(&self, order: &Order) -> Option<OrderRefusal>
        ensures { result ≡ line_refusal (facts_of self.now.state) order.now }
    {
        if !self.line_up {
            return Some(OrderRefusal::Offline);
        }
        if let Order::Cancel = order {
            return self.cancel_refusal();
        }
        let registers = matches!(order, Order::Register);
        if !registers && !self.registered {
            return Some(OrderRefusal::NotRegistered);
        }
        if self.running.is_some() {
            return Some(OrderRefusal::Busy);
        }
        None
    }

    /// Returns the message that the order sends, or why it cannot be sent. It does not look at memory.
    fn message_of(&self, order: &Order) -> Result<Outgoing, OrderRefusal>
        ensures ok { IfOk result (λ message. (refusal (facts_of self.now.state) order.now ≡ None)
            × (message_of self.now.state.settings self.now.state.book order.now ≡ Some message)) }
        ensures err { IfErr result (λ why. refusal (facts_of self.now.state) order.now ≡ Some why) }
    {
        if let Some(why) = self.line_refusal(order) {
            return Err(why);
        }
        let brief = match order {
            Order::Register => Brief::Register {
                password: self.password,
                config: self.config,
                currency: self.currency,
            },
            Order::Pay(amount) => match self.capacity_refusal() {
                Some(why) => return Err(why),
                None => Brief::Pay(*amount, self.currency),
            },
            Order::Reverse(entry) => match self.receipt_at(*entry) {
                Err(why) => return Err(why),
                Ok(receipt) => Brief::Reverse {
                    password: self.password,
                    receipt,
                },
            },
            Order::CloseDay => Brief::CloseDay {
                password: self.password,
            },
            Order::Cancel => Brief::AbortOrder,
        };
        Ok(Outgoing { brief })
    }

    /// Starts an order that [`prepare`](Till::prepare) accepted. Its message has to be sent.
    pub fn begin(&mut self, order: Order)
        requires { CanEnd order (length self.old.state.book) (length self.old.state.unclear) self.old.spare }
        ensures state { self.new.state ≡ accept self.old.state order }
        ensures room { self.new.spare ≡ self.old.spare }
        ensures numbers { self.new.numbers ≡ numbers_begun self.old.numbers order }
        ensures heard { self.new.heard ≡ self.old.heard }
    {
        if let Order::Cancel = &order {
            return;
        }
        if let Order::Register = &order {
            self.registered = false;
        }
        self.numbers = Numbers::none();
        self.running = Some(Running {
            order,
            positive: false,
            statuses: Statuses::Nothing,
        });
    }

    /// Returns the message that an order sends, or explains why the order cannot be sent now; nothing changes in that
    /// case. The order does not run before [`begin`](Till::begin). A payment allocates only if [`spare`](Till::spare)
    /// is 0.
    pub fn prepare(&mut self, order: &Order) -> Result<Outgoing, OrderRefusal>
        ensures taken { IfOk result (λ message. refusal (facts_of self.old.state) order.now ≡ None) }
        ensures sent { IfOk result (λ message.
            message_of self.old.state.settings self.old.state.book order.now ≡ Some message) }
        ensures ready { OnOk result
            (CanEnd order.now (length self.new.state.book) (length self.new.state.unclear) self.new.spare) }
        ensures state { self.new.state ≡ self.old.state }
        ensures room { self.old.spare ≤ self.new.spare }
        ensures numbers { self.new.numbers ≡ self.old.numbers }
        ensures heard { self.new.heard ≡ self.old.heard }
        ensures refused { IfErr result (λ why. IsRefusedAs (facts_of self.old.state) self.old.spare order.now why) }
        ensures unchanged { OnErr result (self.new ≡ self.old) }
    {
        let message = self.message_of(order)?;
        if let Order::Pay(_) = order {
            if let Err(AllocError) = self.reserve(1) {
                return Err(OrderRefusal::Memory);
            }
        }
        Ok(message)
    }

    /// Starts an order and returns the message to send, or explains why the order cannot be sent now; nothing changes
    /// in that case. A payment allocates only if [`spare`](Till::spare) is 0.
    pub fn order(&mut self, order: Order) -> Result<Outgoing, OrderRefusal>
        ensures taken { IfOk result (λ message. refusal (facts_of self.old.state) order ≡ None) }
        ensures sent { IfOk result (λ message. message_of self.old.state.settings self.old.state.book
            order ≡ Some message) }
        ensures runs { OnOk result (self.new.state ≡ accept self.old.state order) }
        ensures room { OnOk result (self.old.spare ≤ self.new.spare) }
        ensures numbers { OnOk result (self.new.numbers ≡ numbers_begun self.old.numbers order) }
        ensures heard { OnOk result (self.new.heard ≡ self.old.heard) }
        ensures refused { IfErr result (λ why. IsRefusedAs (facts_of self.old.state) self.old.spare order why) }
        ensures unchanged { OnErr result (self.new ≡ self.old) }
    {
        let message = self.prepare(&order)?;
        self.begin(order);
        Ok(message)
    }
}
