//! The till: its state, its book, and how it reacts to messages.
ghost use Rattle.std.specs.Prelude.{◌≡◌, ◌+◌, ◌≤◌, length, if◌then◌else◌, option_map, []};

mod capacity;
mod ordering;
mod restoring;

use crate::entries::{Doubt, Entry};
use crate::happenings::{Happening, ends};
use crate::messages::{Heard, reply_to};
use crate::numbers::Numbers;
use crate::orders::{Order, Reply};
use crate::outcomes::{Cause, Outcome, outcome_by};
use crate::settings::{Rules, TillSettings};
use crate::statuses::{Running, demand_of, listened};
use crate::used_traces::UsedTraces;
pub use restoring::RestoreError;
use std::alloc::Global;
use std::marker::Model;
use zvt_bcd::{Amount, Currency};

/// Maximum number of entries in the book, and of unclear payments.
pub const MAX_BOOK_ENTRIES: usize = 10_000;

/// A till: the state of its connection, the order in progress, and its book of payments. It talks to one terminal at
/// a time, and has to register again on every new connection.
#[derive(Drop)]
pub struct Till {
    password: [u8; 3],
    config: u8,
    currency: Currency,
    rules: Rules,
    line_up: bool,
    registered: bool,
    running: Option<Running>,
    book: Vec<Entry>,
    /// The trace numbers of the book.
    used: UsedTraces,
    unclear: Vec<(Amount, Cause)>,
    last_outcome: Option<Outcome>,
    /// The numbers that the terminal named in the last order.
    numbers: Numbers,
    /// The numbers that the terminal named for each unclear payment.
    heard: Vec<Numbers>,
}

impl Model for Till {
    ghost use Rattle.zvt_till.specs.View.{TillValue};

    ghost Value = { TillValue };

    ghost use Rattle.zvt_till.specs.Inside.{value_of, IsSound};

    ghost view = { value_of };

    ghost invariant = { IsSound };
}

impl Till {
    ghost use Rattle.zvt_till.specs.Sending.{reply_to};
    ghost use Rattle.zvt_till.specs.Till.{new_till, meet, step, line_down, finish, payment_ended, outcome_at};
    ghost use Rattle.zvt_till.specs.View.{CanEnd, CanBook, KeepsHeard, KeepsRoom, claimed_by};
    ghost use Rattle.zvt_till.specs.Doubts.{unclear_reversals};
    ghost use Rattle.zvt_till.specs.Marks.{total};
    ghost use Rattle.zvt_till.specs.Events.{run_settings};
    ghost use Rattle.zvt_till.specs.Settings.{settings_of, strict};
    ghost use Rattle.zvt_till.specs.Numbers.{no_numbers, numbers_after, with_status_of};
    ghost use Rattle.zvt_till.specs.Segments.{status_of};

    /// Creates a till with the strict rules and an empty book, which is not connected. Registrations contain the
    /// password and the configuration byte unchanged.
    pub fn new(alloc: Global, password: [u8; 3], config: u8, currency: Currency) -> Till
        ensures state { result.state ≡ new_till (record {
          password = password;
          config = config;
          currency = currency;
          rules = strict;
        }) }
        ensures numbers { result.numbers ≡ no_numbers }
        ensures heard { result.heard ≡ [] }
    {
        let settings = TillSettings {
            password,
            config,
            currency,
            rules: Rules::strict(),
        };
        Till::with_settings(alloc, &settings)
    }

    /// Creates a till with these settings and an empty book, which is not connected.
    pub fn with_settings(alloc: Global, settings: &TillSettings) -> Till
        ensures state { result.state ≡ new_till (settings_of settings.now) }
        ensures numbers { result.numbers ≡ no_numbers }
        ensures heard { result.heard ≡ [] }
    {
        Till {
            password: settings.password,
            config: settings.config,
            currency: settings.currency,
            rules: settings.rules,
            line_up: false,
            registered: false,
            running: None,
            book: Vec::new(alloc),
            used: UsedTraces::new(alloc),
            unclear: Vec::new(alloc),
            last_outcome: None,
            numbers: Numbers::none(),
            heard: Vec::new(alloc),
        }
    }

    /// Creates a till with the default settings: the password 00 00 00, the configuration byte BE, the euro and the
    /// strict rules.
    pub fn with_defaults(alloc: Global) -> Till
        ensures state { result.state ≡ new_till run_settings }
        ensures numbers { result.numbers ≡ no_numbers }
        ensures heard { result.heard ≡ [] }
    {
        Till::with_settings(alloc, &TillSettings::default())
    }

    /// Notifies the till that the line is up. Nothing changes if it already was.
    pub fn connected(&mut self)
        ensures state { self.new.state ≡ step self.old.state Happening.Connected }
        ensures room { KeepsRoom self.old self.new }
        ensures numbers { self.new.numbers ≡ self.old.numbers }
        ensures heard { self.new.heard ≡ self.old.heard }
    {
        self.line_up = true;
    }

    /// Returns whether the line is up.
    pub fn line_up(&self) -> bool
        ensures { result ≡ self.now.state.line_up }
    {
        self.line_up
    }

    /// Returns the password that is sent in registrations, reversals and ends of day.
    pub fn password(&self) -> [u8; 3]
        ensures { result ≡ self.now.state.settings.password }
    {
        self.password
    }

    /// Returns the configuration byte that is sent in registrations.
    pub fn config(&self) -> u8
        ensures { result ≡ self.now.state.settings.config }
    {
        self.config
    }

    /// Returns the currency of its registrations and payments.
    pub fn currency(&self) -> Currency
        ensures { result ≡ self.now.state.settings.currency }
    {
        self.currency
    }

    /// Returns what the shop accepts beyond the strict rules.
    pub fn rules(&self) -> Rules
        ensures { result ≡ self.now.state.settings.rules }
    {
        self.rules
    }

    /// Returns the booked payments in the order of their completion.
    pub fn book(&self) -> &[Entry]
        ensures rows { result.now ≡ self.now.state.book }
        ensures most { length result.now ≤ MAX_BOOK_ENTRIES }
    {
        self.book.as_slice()
    }

    /// Returns the payments whose outcome is unknown, in the order in which they ended. Check each of them with the
    /// terminal before charging again.
    pub fn unclear(&self) -> &[(Amount, Cause)]
        ensures rows { result.now ≡ self.now.state.unclear }
        ensures most { length result.now ≤ MAX_BOOK_ENTRIES }
    {
        self.unclear.as_slice()
    }

    /// Returns the numbers that the terminal named for each unclear payment, in the order of
    /// [`unclear`](Till::unclear). They are missing for payments that became unclear before the till was restored from
    /// a snapshot.
    pub fn heard(&self) -> &[Numbers]
        ensures numbers { result.now ≡ self.now.heard }
        ensures rows { length result.now ≡ length self.now.state.unclear }
    {
        self.heard.as_slice()
    }

    /// Returns the number of entries with an unclear reversal, that is, whose `doubt` is `Unclear`.
    pub fn unclear_reversals(&self) -> usize
        ensures { result ≡ length (unclear_reversals self.now.state.book) }
    {
        let book = self.book();
        let mut count = 0;
        'entries: for entry in book {
            if let Doubt::Unclear(_) = entry.doubt {
                count += 1;
            }
        }
        count
    }

    /// Returns the sum of all entries that are not marked as reversed. An entry with a doubtful reversal still
    /// counts.
    pub fn total(&self) -> u64
        ensures { result ≡ total self.now.state.book }
    {
        let book = self.book();
        let mut total = 0;
        for entry in book {
            if !entry.reversed {
                total += entry.amount.get();
            }
        }
        total
    }

    /// Returns the running order, if any.
    pub fn running(&self) -> Option<Order>
        ensures { result ≡ option_map (λ running. running.order) self.now.state.running }
    {
        match &self.running {
            None => None,
            Some(running) => Some(running.order),
        }
    }

    /// Returns whether the till is registered on its line.
    pub fn registered(&self) -> bool
        ensures { result ≡ self.now.state.registered }
    {
        self.registered
    }

    /// Returns the outcome of the last order.
    pub fn last_outcome(&self) -> Option<Outcome>
        ensures { result ≡ self.now.state.last_outcome }
    {
        self.last_outcome
    }

    /// Returns the numbers that the terminal named in the running order or, if none is running, in the last one.
    pub fn numbers(&self) -> Numbers
        ensures { result ≡ self.now.numbers }
    {
        self.numbers
    }

    /// Ends the running order and records its outcome.
    fn finish(&mut self, order: &Order, outcome: &Outcome)
        requires ends { CanEnd order.now (length self.old.state.book) (length self.old.state.unclear) self.old.spare }
        requires books { CanBook outcome.now self.old.state.book }
        ensures state { self.new.state ≡ finish self.old.state order.now outcome.now }
        ensures room { self.old.spare ≤ self.new.spare + claimed_by order.now }
        ensures numbers { self.new.numbers ≡ self.old.numbers }
        ensures heard { KeepsHeard self.old self.new }
    {
        self.running = None;
        self.last_outcome = Some(*outcome);
        self.registered = self.registered || matches!(outcome, Outcome::Registered);
        match order {
            Order::Pay(amount) => self.end_payment(*amount, outcome),
            Order::Reverse(entry) => self.book[*entry].end_reversal(outcome),
            _ => {}
        }
    }

    /// Records the outcome of a payment that has ended.
    fn end_payment(&mut self, amount: Amount, outcome: &Outcome)
        requires ended { self.old.state.running ≡ None }
        requires room { CanEnd (Order.Pay amount) (length self.old.state.book) (length self.old.state.unclear)
            self.old.spare }
        requires books { CanBook outcome.now self.old.state.book }
        ensures state { self.new.state ≡ payment_ended self.old.state amount outcome.now }
        ensures room { self.old.spare ≤ self.new.spare + 1 }
        ensures numbers { self.new.numbers ≡ self.old.numbers }
        ensures heard { KeepsHeard self.old self.new }
    {
        match outcome {
            Outcome::Paid { trace, receipt } => {
                self.used.insert(*trace);
                self.book.push_reserved(Entry {
                    amount,
                    trace: *trace,
                    receipt: *receipt,
                    reversed: false,
                    doubt: Doubt::No,
                });
            }
            Outcome::Unclear(cause) => {
                self.unclear.push_reserved((amount, *cause));
                self.heard.push_reserved(self.numbers);
            }
            _ => {}
        }
    }

    /// Passes the event to the running order. Returns the outcome if the order ended.
    fn meet(&mut self, happening: &Happening) -> Option<Outcome>
        ensures state { self.new.state ≡ meet self.old.state happening.now }
        ensures room { KeepsRoom self.old self.new }
        ensures outcome { result ≡ outcome_at self.old.state happening.now }
        ensures numbers { self.new.numbers ≡ with_status_of self.old.state.running self.old.numbers
            (status_of happening.now) }
        ensures heard { KeepsHeard self.old self.new }
    {
        let running = self.running?;
        if ends(running.positive, happening) {
            let outcome = outcome_by(&self.used, &running.order, &running.statuses, happening);
            self.finish(&running.order, &outcome);
            return Some(outcome);
        }
        let demand = demand_of(
            self.rules,
            Some(self.currency),
            self.book(),
            self.unclear(),
            &running.order,
        );
        self.running = Some(listened(&demand, &running, happening));
        self.numbers = self.numbers.with(happening);
        None
    }

    /// Processes a message from the terminal. Returns the answer to send, if any, and the outcome of the order if
    /// this message ended it. Has no effect while the connection is down.
    pub fn hear(&mut self, heard: Heard) -> Reply
        ensures state { self.new.state ≡ step self.old.state (Happening.Heard heard) }
        ensures room { KeepsRoom self.old self.new }
        ensures send { result.send ≡ (if self.old.state.line_up then reply_to heard else None) }
        ensures outcome { result.outcome ≡ (if self.old.state.line_up then outcome_at self.old.state
            (Happening.Heard heard) else None) }
        ensures numbers { self.new.numbers ≡ numbers_after self.old.state self.old.numbers (Happening.Heard heard) }
        ensures heard { KeepsHeard self.old self.new }
    {
        if !self.line_up {
            return Reply {
                send: None,
                outcome: None,
            };
        }
        Reply {
            send: reply_to(&heard),
            outcome: self.meet(&Happening::Heard(heard)),
        }
    }

    /// Takes the line down and ends the registration.
    fn line_down(&mut self)
        ensures state { self.new.state ≡ line_down self.old.state }
        ensures room { self.new.spare ≡ self.old.spare }
        ensures numbers { self.new.numbers ≡ self.old.numbers }
        ensures heard { self.new.heard ≡ self.old.heard }
    {
        self.line_up = false;
        self.registered = false;
    }

    /// Notifies the till that the connection was lost. A running order ends with it.
    pub fn lost(&mut self) -> Option<Outcome>
        ensures state { self.new.state ≡ step self.old.state Happening.Lost }
        ensures room { KeepsRoom self.old self.new }
        ensures outcome { result ≡ outcome_at self.old.state Happening.Lost }
        ensures numbers { self.new.numbers ≡ self.old.numbers }
        ensures heard { KeepsHeard self.old self.new }
    {
        let outcome = self.meet(&Happening::Lost);
        self.line_down();
        outcome
    }

    /// Gives up the line because its bytes were not a message. Returns the outcome of the running order, if any.
    pub fn malformed(&mut self) -> Option<Outcome>
        ensures state { self.new.state ≡ step self.old.state Happening.Malformed }
        ensures room { KeepsRoom self.old self.new }
        ensures outcome { result ≡ outcome_at self.old.state Happening.Malformed }
        ensures numbers { self.new.numbers ≡ self.old.numbers }
        ensures heard { KeepsHeard self.old self.new }
    {
        let outcome = self.meet(&Happening::Malformed);
        self.line_down();
        outcome
    }
}
