//! The orders and asks of a till that settles.
ghost use Rattle.std.specs.Prelude.{◌≡◌};

use super::SettlingTill;
use crate::deciding::StatusSoFar;
use std::alloc::AllocError;
use zvt_till::{Order, OrderRefusal, Outgoing};

impl SettlingTill {
    ghost use Rattle.std.specs.Prelude.{◌⊎◌, ◌≤◌, None, Some, length, IfOk, IfErr, OnOk, OnErr};
    ghost use Rattle.zvt_till.specs.Keeping.{Accepts};
    ghost use Rattle.zvt_till.specs.Refusals.{refusal};
    ghost use Rattle.zvt_till.specs.Sending.{message_of};
    ghost use Rattle.zvt_till.specs.Till.{accept, facts_of};
    ghost use Rattle.zvt_till.specs.View.{CanEnd};
    ghost use Rattle.zvt_settle.specs.Inside.{both_of, settling_of, begins_inside, reserves_inside};
    ghost use Rattle.zvt_settle.specs.Room.{CanSettle};
    ghost use Rattle.zvt_settle.specs.Settling.{Asked, take, sent, ask_refusal, ask_bytes, IsOrderRefusal};

    /// Notes that an order was sent.
    fn sent(&mut self, order: &Order)
        ensures settling { settling_of self.new ≡ sent (settling_of self.old) order.now }
        ensures till { self.new.till ≡ self.old.till }
    {
        match order {
            Order::Cancel => return,
            Order::Register => {}
            Order::Pay(_) | Order::Reverse(_) => self.pending = None,
            Order::CloseDay => {
                self.pending = None;
                self.last = None;
            }
        }
        self.so_far = StatusSoFar::Nothing;
    }

    /// Returns the message that an order sends, or explains why the order cannot be sent now; nothing changes in that
    /// case. The order does not run before [`begin`](SettlingTill::begin). A payment allocates only if the till inside
    /// has no capacity left.
    ///
    /// Fails as the till inside does, and with `Busy` while an ask is running.
    pub fn prepare(&mut self, order: &Order) -> Result<Outgoing, OrderRefusal>
        ensures taken { IfOk result (λ message. refusal (facts_of self.old.till.state) order.now ≡ None) }
        ensures message { IfOk result (λ message. message_of self.old.till.state.settings self.old.till.state.book
            order.now ≡ Some message) }
        ensures idle { OnOk result ((settling_of self.old).asking ≡ None) }
        ensures ready { OnOk result (CanEnd order.now (length self.new.till.state.book)
            (length self.new.till.state.unclear) self.new.till.spare) }
        ensures both { both_of self.new ≡ both_of self.old }
        ensures inside { reserves_inside self.old.till self.new.till }
        ensures refused { IfErr result (λ why. IsOrderRefusal self.old.asking (facts_of self.old.till.state)
            self.old.till.spare order.now why) }
        ensures unchanged { OnErr result (self.new ≡ self.old) }
    {
        if self.asking.is_some() {
            return Err(OrderRefusal::Busy);
        }
        self.till.prepare(order)
    }

    /// Starts an order that [`prepare`](SettlingTill::prepare) accepted. Its message has to be sent. If this is a
    /// payment, a reversal or an end of day, a pending order stays unclear for good.
    pub fn begin(&mut self, order: Order)
        requires { CanEnd order (length self.old.till.state.book) (length self.old.till.state.unclear)
            self.old.till.spare }
        ensures both { both_of self.new ≡ record {
          till = accept self.old.till.state order;
          settling = sent (settling_of self.old) order;
        } }
        ensures inside { begins_inside self.old.till order self.new.till }
    {
        self.till.begin(order);
        self.sent(&order);
    }

    /// Gives the till an order. If this is a payment, a reversal or an end of day, a pending order stays unclear for
    /// good.
    ///
    /// Fails as the till does, and with `Busy` while an ask is running. Then nothing changes.
    pub fn order(&mut self, order: Order) -> Result<Outgoing, OrderRefusal>
        ensures sent { OnOk result (both_of self.new ≡ record {
          till = accept self.old.till.state order;
          settling = sent (settling_of self.old) order;
        }) }
        ensures taken { IfOk result (λ message. refusal (facts_of self.old.till.state) order ≡ None) }
        ensures message { IfOk result (λ message. message_of self.old.till.state.settings self.old.till.state.book
            order ≡ Some message) }
        ensures inside { IfOk result (λ message. Accepts order message self.old.till self.new.till) }
        ensures refused { IfErr result (λ why. IsOrderRefusal self.old.asking (facts_of self.old.till.state)
            self.old.till.spare order why) }
        ensures idle { OnOk result ((settling_of self.old).asking ≡ None) }
        ensures unchanged { OnErr result (self.new ≡ self.old) }
    {
        let message = self.prepare(&order)?;
        self.begin(order);
        Ok(message)
    }

    /// Returns the message that asks the terminal to repeat its last receipt: 06 20 with the password (PA00P015,
    /// Repeat Receipt). The ask does not run before [`begin_ask`](SettlingTill::begin_ask). It allocates only if there
    /// is no room for what the answer settles.
    ///
    /// Fails with `Offline`, `NotRegistered` or `Busy` as an end of day does, with `Busy` while an ask is running, and
    /// with `Memory` if there is no room for what the answer settles. Then nothing changes.
    pub fn prepare_ask(&mut self) -> Result<[u8; 6], OrderRefusal>
        ensures taken { OnOk result (ask_refusal (facts_of self.old.till.state) (settling_of self.old).asking ≡ None) }
        ensures bytes { IfOk result (λ bytes. bytes ≡ ask_bytes self.old.till.state.settings.password) }
        ensures ready { OnOk result (CanSettle self.new.settled) }
        ensures settling { settling_of self.new ≡ settling_of self.old }
        ensures inside { self.new.till ≡ self.old.till }
        ensures refused { IfErr result (λ why. (why ≡ OrderRefusal.Memory)
            ⊎ (ask_refusal (facts_of self.old.till.state) (settling_of self.old).asking ≡ Some why)) }
    {
        if !self.till.line_up() && self.asking.is_none() {
            return Err(OrderRefusal::Offline);
        }
        if self.asking.is_some() {
            return Err(OrderRefusal::Busy);
        }
        if !self.till.registered() {
            return Err(OrderRefusal::NotRegistered);
        }
        if self.till.running().is_some() {
            return Err(OrderRefusal::Busy);
        }
        if let Err(AllocError) = self.settled.reserve(1) {
            return Err(OrderRefusal::Memory);
        }
        let password = self.till.password();
        Ok([0x06, 0x20, 0x03, password[0], password[1], password[2]])
    }

    /// Starts an ask that [`prepare_ask`](SettlingTill::prepare_ask) accepted. Its message has to be sent.
    pub fn begin_ask(&mut self)
        requires { CanSettle self.old.settled }
        ensures asked { both_of self.new ≡ take (both_of self.old) Asked }
        ensures inside { self.new.till ≡ self.old.till }
    {
        self.asking = Some(false);
        self.so_far = StatusSoFar::Nothing;
    }

    /// Asks the terminal to repeat its last receipt, and returns the message to send: 06 20 with the password
    /// (PA00P015, Repeat Receipt).
    ///
    /// Fails with `Offline`, `NotRegistered` or `Busy` as an end of day does, with `Busy` while an ask is running, and
    /// with `Memory` if there is no room for what the answer settles. Then nothing changes.
    pub fn ask(&mut self) -> Result<[u8; 6], OrderRefusal>
        ensures asked { OnOk result (both_of self.new ≡ take (both_of self.old) Asked) }
        ensures inside { self.new.till ≡ self.old.till }
        ensures taken { IfOk result (λ bytes. ask_refusal (facts_of self.old.till.state)
            (settling_of self.old).asking ≡ None) }
        ensures refused { IfErr result (λ why. (why ≡ OrderRefusal.Memory)
            ⊎ (ask_refusal (facts_of self.old.till.state) (settling_of self.old).asking ≡ Some why)) }
        ensures unchanged { OnErr result (both_of self.new ≡ both_of self.old) }
        ensures bytes { IfOk result (λ bytes. bytes ≡ ask_bytes self.old.till.state.settings.password) }
    {
        let bytes = self.prepare_ask()?;
        self.begin_ask();
        Ok(bytes)
    }
}
