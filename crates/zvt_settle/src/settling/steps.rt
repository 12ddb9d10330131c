//! The messages of a till that settles.
ghost use Rattle.std.specs.Prelude.{◌≡◌};

use super::SettlingTill;
use crate::answers::{
    answer_by, did_not, has_counted, has_trace, is_positive, opened_by, taken_back,
};
use crate::deciding::{Pending, Settlement, StatusSoFar, What, approved_as, is_same};
use std::alloc::Global;
use zvt_bcd::Trace;
use zvt_till::{Happening, Heard, Order, Outcome, Reply, StatusFacts, Till, ends};

impl SettlingTill {
    ghost use Rattle.std.specs.Prelude.{◌≡◌, ◌⊎◌, true, IsSome, if◌then◌else◌, IsTrue, IsFalse, Some, None, nat_eq};
    ghost use Rattle.std.specs.List.{list_any};
    ghost use Rattle.std.specs.Option.{is_some};
    ghost use Rattle.zvt_till.specs.Line.{till_loses, till_malforms};
    ghost use Rattle.zvt_till.specs.Sending.{reply_to};
    ghost use Rattle.zvt_till.specs.Till.{outcome_at};
    ghost use Rattle.zvt_settle.specs.Deciding.{decision};
    ghost use Rattle.zvt_settle.specs.Inside.{both_of, settling_of, till_inside, connects_inside, hears_inside};
    ghost use Rattle.zvt_settle.specs.Settling.{Line, take, new_settling, used_traces, noted, ended_as};
    ghost use Rattle.zvt_settle.specs.Settling.{asked, unasked, meets, decided, answered};

    /// Creates a till with nothing to settle.
    pub fn new(alloc: Global, till: Till) -> SettlingTill
        ensures both { both_of result ≡ record { till = till.state; settling = new_settling } }
        ensures inside { till_inside result ≡ till }
    {
        SettlingTill {
            till,
            asking: None,
            so_far: StatusSoFar::Nothing,
            last: None,
            pending: None,
            settled: Vec::new(alloc),
        }
    }

    /// Returns the till inside.
    pub fn till(&self) -> &Till
        ensures { result.now ≡ self.now.till }
    {
        &self.till
    }

    /// Returns the till inside, and forgets what was settled.
    pub fn into_till(self) -> Till
        ensures { result ≡ till_inside self }
    {
        let SettlingTill { till, .. } = self;
        till
    }

    /// Returns what was settled, in the order of the answers.
    pub fn settled(&self) -> &[Settlement]
        ensures { result.now ≡ (settling_of self.now).settled }
    {
        self.settled.as_slice()
    }

    /// Returns whether an ask is running.
    pub fn is_asking(&self) -> bool
        ensures { result ≡ is_some self.now.asking }
    {
        self.asking.is_some()
    }

    /// Returns the unclear order that waits for an answer that settles it, and the terminal's status before it.
    pub fn pending(&self) -> Option<Pending>
        ensures { result ≡ (settling_of self.now).pending }
    {
        self.pending
    }

    /// Returns whether the status of the terminal's last transaction is known. Only then can an answer settle an order
    /// that becomes unclear.
    pub fn knows_last(&self) -> bool
        ensures { result ≡ is_some (settling_of self.now).last }
    {
        self.last.is_some()
    }

    /// Returns whether an entry of the book, or a payment that was settled as paid, has this trace number.
    #[tactic(auto, using(crate::proofs::Decisions::used_then, crate::proofs::Decisions::used_else))]
    fn is_used(&self, trace: Trace) -> bool
        ensures { result ≡ list_any (λ x. nat_eq x trace) (used_traces self.now.till.state.book
            self.now.settled.items) }
    {
        has_trace(self.till.book(), trace) || has_counted(self.settled.as_slice(), trace)
    }

    /// Returns what this status information decides about a pending order.
    fn decide(&self, pending: &Pending, status: &StatusFacts) -> Option<Settlement>
        ensures { result ≡ decision self.now.till.state.settings.currency self.now.till.state.book
            (used_traces self.now.till.state.book self.now.settled.items) pending.now status.now }
    {
        if is_same(&pending.before, status) {
            return Some(did_not(&pending.what));
        }
        let currency = self.till.currency();
        match pending.what {
            What::Payment(row, amount) => {
                let trace = approved_as(amount, currency, status)?;
                if self.is_used(trace) {
                    None
                } else {
                    Some(Settlement::Paid(row, trace, status.receipt))
                }
            }
            What::Reversal(entry) => taken_back(self.till.book(), entry, currency, status),
        }
    }

    /// Returns what the answer to an ask decides, if an order is pending.
    fn decided(&self, status: &StatusFacts) -> Option<Settlement>
        ensures { result ≡ decided self.now.till.state self.now.settled.items status.now self.now.pending }
    {
        match &self.pending {
            None => None,
            Some(pending) => self.decide(pending, status),
        }
    }

    /// Ends an ask with this answer.
    fn answered(&mut self, answer: &Option<StatusFacts>)
        requires { IsSome self.old.asking }
        ensures settling { settling_of self.new ≡ answered self.old.till.state (settling_of self.old) answer.now }
        ensures till { self.new.till ≡ self.old.till }
    {
        if let Some(status) = answer {
            if let Some(settlement) = self.decided(status) {
                self.settled.push_reserved(settlement);
            }
            self.last = Some(*status);
            self.pending = None;
        }
        self.asking = None;
    }

    /// Notes a status information.
    fn note(&mut self, heard: &Heard)
        ensures settling { settling_of self.new ≡ noted (settling_of self.old) (Happening.Heard heard.now) }
        ensures till { self.new.till ≡ self.old.till }
    {
        if let Heard::Status(status) = heard {
            self.so_far = self.so_far.after(status);
        }
    }

    /// Passes a message to the running ask.
    fn ask_meets(&mut self, positive: bool, heard: &Heard)
        requires { self.old.asking ≡ Some positive }
        ensures settling { settling_of self.new ≡ asked self.old.till.state (settling_of self.old) positive
            (Happening.Heard heard.now) }
        ensures till { self.new.till ≡ self.old.till }
    {
        if ends(positive, &Happening::Heard(*heard)) {
            let answer = answer_by(self.so_far, heard);
            self.answered(&answer);
        } else {
            self.asking = Some(positive || is_positive(heard));
        }
    }

    /// Notes how an order ended, if it did. An unclear payment stands at this index of the unclear payments.
    fn end(&mut self, order: &Option<Order>, outcome: &Option<Outcome>, place: usize)
        ensures settling { settling_of self.new ≡ ended_as (settling_of self.old) order.now outcome.now place }
        ensures till { self.new.till ≡ self.old.till }
    {
        let Some(order) = order else {
            return;
        };
        match outcome {
            Some(Outcome::Paid { .. } | Outcome::Reversed) => self.last = self.so_far.one(),
            Some(Outcome::Unclear(_)) => {
                if let Some(what) = opened_by(order, place) {
                    self.pending = match self.last {
                        Some(before) => Some(Pending { what, before }),
                        None => None,
                    };
                    self.last = None;
                }
            }
            _ => {}
        }
    }

    /// Notifies the till that it is connected.
    pub fn connected(&mut self)
        ensures both { both_of self.new ≡ take (both_of self.old) (Line Happening.Connected) }
        ensures inside { connects_inside self.old.till self.new.till }
    {
        self.till.connected();
    }

    /// Passes a message to the till while no ask is running.
    fn pass_on(&mut self, heard: Heard) -> Reply
        requires { self.old.till.state.line_up ≡ true }
        ensures inside { hears_inside self.old.till heard self.new.till }
        ensures settling { settling_of self.new ≡ unasked self.old.till.state (settling_of self.old)
            (Happening.Heard heard) }
        ensures send { result.send ≡ reply_to heard }
        ensures outcome { result.outcome ≡ outcome_at self.old.till.state (Happening.Heard heard) }
    {
        let order = self.till.running();
        let place = self.till.unclear().len();
        let reply = self.till.hear(heard);
        self.end(&order, &reply.outcome, place);
        reply
    }

    /// Notes the message, and passes it to the running ask. Returns whether an ask was running.
    fn meet_first(&mut self, heard: &Heard) -> bool
        ensures asked { IsTrue result → settling_of self.new ≡ meets self.old.till.state (settling_of self.old)
            (Happening.Heard heard.now) }
        ensures unasked { IsFalse result → ((settling_of self.old).asking ≡ None)
            × (settling_of self.new ≡ noted (settling_of self.old) (Happening.Heard heard.now)) }
        ensures till { self.new.till ≡ self.old.till }
    {
        self.note(heard);
        let Some(positive) = self.asking else {
            return false;
        };
        self.ask_meets(positive, heard);
        true
    }

    /// Processes a message from the terminal. Returns the till's answer, and the outcome of the order if this message
    /// ended it.
    pub fn hear(&mut self, heard: Heard) -> Reply
        ensures both { both_of self.new ≡ take (both_of self.old) (Line (Happening.Heard heard)) }
        ensures inside { hears_inside self.old.till heard self.new.till }
        ensures send { result.send ≡ (if self.old.till.state.line_up then reply_to heard else None) }
        ensures outcome { result.outcome ≡ (if self.old.till.state.line_up then outcome_at self.old.till.state
            (Happening.Heard heard) else None) }
    {
        if !self.till.line_up() {
            return self.till.hear(heard);
        }
        let asked = self.meet_first(&heard);
        if asked {
            self.till.hear(heard)
        } else {
            self.pass_on(heard)
        }
    }

    /// Notifies the till that the connection was lost. A running order or ask ends with it.
    pub fn lost(&mut self) -> Option<Outcome>
        ensures both { both_of self.new ≡ take (both_of self.old) (Line Happening.Lost) }
        ensures inside { till_loses self.old.till self.new.till }
        ensures outcome { result ≡ outcome_at self.old.till.state Happening.Lost }
    {
        let order = self.till.running();
        let place = self.till.unclear().len();
        let outcome = self.till.lost();
        if self.asking.is_some() {
            self.asking = None;
        } else {
            self.end(&order, &outcome, place);
        }
        outcome
    }

    /// Gives up the line because its bytes were not a message. A running order or ask ends with it.
    pub fn malformed(&mut self) -> Option<Outcome>
        ensures both { both_of self.new ≡ take (both_of self.old) (Line Happening.Malformed) }
        ensures inside { till_malforms self.old.till self.new.till }
        ensures outcome { result ≡ outcome_at self.old.till.state Happening.Malformed }
    {
        let order = self.till.running();
        let place = self.till.unclear().len();
        let outcome = self.till.malformed();
        if self.asking.is_some() {
            self.asking = None;
        } else {
            self.end(&order, &outcome, place);
        }
        outcome
    }
}
