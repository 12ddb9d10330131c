//! A till that records its orders and messages in its journal before it acts on them.
ghost use Rattle.std.specs.Prelude.{◌≡◌};

use crate::keeping::{keep_lost, keep_opening, take_ask, take_message, take_order};
use crate::note::Note;
use crate::past_orders::PastOrders;
use crate::recovery::{Recovered, RecoveryError, recover};
use std::alloc::{AllocError, Global};
use std::fmt;
use std::marker::Model;
use zvt_apdu::ApduView;
use zvt_journal::{Device, DeviceError, Journal};
use zvt_settle::{Asker, SettlingTill};
use zvt_stream::{Answers, Machine};
use zvt_till::{BookFault, Keeper, Order, Outgoing, Till, TillSettings, Untaken};

/// A till that writes ahead: an order or an ask is durable before you get the bytes to send, and a message is durable
/// before the till processes it. If the journal fails, the till drops its connection and sends nothing more.
#[derive(Drop)]
pub struct KeptTill<D: Device> {
    till: SettlingTill,
    journal: Journal<D>,
    /// Why the journal failed, if it did.
    failure: Option<DeviceError>,
    /// The note of the next order or ask.
    note: Note,
}

/// A till that was restored from its journal.
#[derive(Drop)]
pub struct Reopened<D: Device> {
    pub till: KeptTill<D>,
    /// The orders of the journal, and how each ended. An order that was running ended with the line.
    pub orders: PastOrders,
}

/// Why no journal was begun. Hands back the device.
#[derive(Drop)]
pub struct Unbegun<D: Device> {
    pub device: D,
    pub why: DeviceError,
}

impl<D: Device> fmt::Display for Unbegun<D> {
    fn fmt<W: fmt::Write>(&self, f: &mut fmt::Formatter<W>) -> fmt::Result {
        let why = self.why;
        write!(f, "no journal was begun: {why}")
    }
}

impl<D: Device> Model for KeptTill<D> {
    ghost use Rattle.std.specs.Prelude.{◌≡◌, is_some};
    ghost use Rattle.zvt_kept.specs.KeptTill.{KeptValue, IsKept, standing_of};
    ghost use Rattle.zvt_settle.specs.Inside.{both_of};

    ghost Value = { KeptValue D };

    ghost view = { λ k. record {
      standing = standing_of k.till k.journal.device k.journal.gate;
      failure = k.failure;
      note = k.note;
    } };

    ghost invariant = { λ k. IsKept (is_some k.failure) (D.seen k.journal.device) (D.may_leave k.journal.device)
        k.journal.gate (both_of k.till) };
}

impl<D: Device + Drop> KeptTill<D> {
    ghost use Rattle.std.specs.Prelude.{◌∷◌, [], Err, List, None, length, IfErr, IfOk, MatchResult};
    ghost use Rattle.zvt_journal.specs.Text.{recovered};
    ghost use Rattle.zvt_kept.specs.Logs.{StandsFor};
    ghost use Rattle.zvt_kept.specs.PastOrders.{HasOrders};
    ghost use Rattle.zvt_kept.specs.Recovery.{IsRecovered, Recovers};
    ghost use Rattle.zvt_till.specs.declared.happenings.Happening.{Happening};
    ghost use Rattle.zvt_journal.specs.Text.{IsSettled};
    ghost use Rattle.zvt_kept.specs.KeptTill.{Begins, HasCause, Keeps};
    ghost use Rattle.zvt_kept.specs.KeptTill.{both_in};
    ghost use Rattle.zvt_kept.specs.Recovery.{HasSettled};
    ghost use Rattle.zvt_settle.specs.Settling.{new_both};
    ghost use Rattle.zvt_till.specs.Settings.{settings_of};
    ghost use Rattle.zvt_till.specs.declared.happenings.Happening.TheVariants.{Connected};

    /// Begins a journal on a device without records, at rest as `zvt_journal::open` leaves it, and makes its opening
    /// durable. The till is new and not connected, and has nothing to settle.
    ///
    /// After an error, the device contains no record or the opening; open it again to find out. `Full` never occurs.
    pub fn create(
        alloc: Global,
        settings: &TillSettings,
        device: D,
    ) -> Result<KeptTill<D>, Unbegun<D>>
        requires { IsSettled (D.seen device) (D.may_leave device) 0 }
        ensures till { IfOk result (λ kept. both_in kept.standing ≡ new_both (settings_of settings.now)) }
        ensures whole { IfOk result (λ kept. kept.failure ≡ None) }
        // A crash at any moment leaves no record, or the opening, in a file that opening repairs.
        ensures any_moment { MatchResult result
            (λ kept. Begins D.seen D.may_leave D.moment D.left_since D.faults (settings_of settings.now) device
            kept.standing.device)
            (λ unbegun. Begins D.seen D.may_leave D.moment D.left_since D.faults (settings_of settings.now) device
            unbegun.device) }
        ensures cause { IfErr result (λ unbegun. HasCause unbegun.why (D.faults device) (D.faults unbegun.device) 0) }
        ensures log { IfOk result (λ kept. Keeps (settings_of settings.now) (Connected ∷ [])
            (D.seen kept.standing.device) (D.may_leave kept.standing.device) kept.standing.gate
            (both_in kept.standing)) }
    {
        let mut journal = Journal {
            alloc,
            device,
            gate: 0,
        };
        if let Err(why) = keep_opening(alloc, &mut journal, settings) {
            return Err(Unbegun {
                device: journal.device,
                why,
            });
        }
        let till = SettlingTill::new(alloc, Till::with_settings(alloc, settings));
        Ok(KeptTill {
            till,
            journal,
            failure: None,
            note: Note::none(),
        })
    }

    /// Restores the till from the records of a device at rest, like [`recover`]. The till is not connected. Writes
    /// nothing.
    ///
    /// Fails with `Opening` if the text has no record: use [`KeptTill::create`] to begin a journal on its device.
    pub fn open(
        alloc: Global,
        settings: &TillSettings,
        device: D,
        text: &[u8],
    ) -> Result<Reopened<D>, RecoveryError>
        requires text { recovered (D.seen device) ≡ text.now }
        requires settled { IsSettled (D.seen device) (D.may_leave device) (length text.now) }
        ensures till { MatchResult result (λ reopened. IsRecovered (settings_of settings.now) text.now
            reopened.till.standing.till.state) (λ why. Recovers (settings_of settings.now) text.now (Err why)) }
        ensures settling { IfOk result (λ reopened. HasSettled (settings_of settings.now) text.now
            (both_in reopened.till.standing)) }
        ensures device { IfOk result (λ reopened. (reopened.till.standing.device ≡ device)
            × (reopened.till.standing.gate ≡ length text.now)) }
        ensures whole { IfOk result (λ reopened. reopened.till.failure ≡ None) }
        ensures log { IfOk result (λ reopened. (log : List Happening) → StandsFor (settings_of settings.now) text.now log
            → Keeps (settings_of settings.now) log (D.seen device) (D.may_leave device) (length text.now)
            (both_in reopened.till.standing)) }
        ensures orders { IfOk result (λ reopened. HasOrders (settings_of settings.now) text.now reopened.orders) }
    {
        let Recovered { till, orders, .. } = recover(alloc, settings, text)?;
        let journal = Journal {
            alloc,
            device,
            gate: text.len(),
        };
        let till = KeptTill {
            till,
            journal,
            failure: None,
            note: Note::none(),
        };
        Ok(Reopened { till, orders })
    }
}

impl<D: Device> KeptTill<D> {
    ghost use Rattle.zvt_kept.specs.KeptTill.{Connects, IsKept, LosesLine, both_in, has_failed, with_note};

    /// Returns the till.
    pub fn till(&self) -> &Till
        ensures till { result.now ≡ self.now.standing.till }
        ensures kept { IsKept (has_failed self.now) (D.seen self.now.standing.device)
            (D.may_leave self.now.standing.device) self.now.standing.gate (both_in self.now.standing) }
    {
        self.till.till()
    }

    /// Returns the device of the journal.
    pub fn device(&self) -> &D
        ensures { result.now ≡ self.now.standing.device }
    {
        &self.journal.device
    }

    /// Returns why the journal failed, if it did.
    pub fn failure(&self) -> Option<DeviceError>
        ensures { result ≡ self.now.failure }
    {
        self.failure
    }

    /// Sets the note of the next orders and asks, which their records will contain.
    pub fn note_next(&mut self, note: Note)
        ensures { self.new ≡ with_note self.old note }
    {
        self.note = note;
    }

    /// Notifies the till that a line is up, after recording that an earlier line was lost. Does nothing if the line is
    /// up.
    fn connected(&mut self, alloc: Global) -> Result<(), DeviceError>
        ensures { Connects D.seen D.may_leave D.moment D.left_since D.faults self.old self.new result }
    {
        if self.failure.is_some() {
            return Err(DeviceError::Failed);
        }
        if self.till.till().line_up() {
            return Ok(());
        }
        if let Err(why) = keep_lost(alloc, &mut self.journal) {
            self.failure = Some(why);
            return Err(why);
        }
        self.till.connected();
        Ok(())
    }

    /// Notifies the till that the line was lost. The record is written when the next line is up.
    fn line_lost(&mut self)
        ensures { LosesLine D.seen D.may_leave D.moment D.left_since D.faults self.old self.new }
    {
        let _ = self.till.lost();
    }
}

/// A till with a journal processes a message once the journal contains it. If the journal fails, the till processes
/// nothing and loses its connection. It never reports a failed allocation: if a record cannot be allocated, the journal
/// fails.
impl<D: Device> Machine for KeptTill<D> {
    ghost use Rattle.std.specs.Prelude.{false};
    ghost use Rattle.zvt_kept.specs.KeptTill.{Hears, LosesLine, kept_rests};

    ghost hears = { λ old message answered new. Hears D.seen D.may_leave D.moment D.left_since D.faults old message
        answered new };

    ghost loses = { λ old new. LosesLine D.seen D.may_leave D.moment D.left_since D.faults old new };

    ghost malforms = { λ old new. LosesLine D.seen D.may_leave D.moment D.left_since D.faults old new };

    ghost is_resting = { kept_rests };

    ghost wants_memory = { false };

    fn hear(&mut self, alloc: Global, apdu: &ApduView<'_>) -> Result<Answers, AllocError> {
        if !self.till.till().line_up() {
            return Ok(Answers::new());
        }
        match take_message(alloc, &mut self.till, &mut self.journal, apdu) {
            Ok(answers) => Ok(answers),
            Err(why) => {
                self.failure = Some(why);
                Ok(Answers::new())
            }
        }
    }

    fn resting(&self) -> bool {
        self.till.resting()
    }

    fn lost(&mut self) {
        self.line_lost();
    }

    fn malformed(&mut self) {
        self.line_lost();
    }
}

/// Each order is durable, with its note, before you get the message to send. Space for all records of an order is
/// reserved first; without it the order is not accepted, and nothing changes.
impl<D: Device> Keeper for KeptTill<D> {
    ghost use Rattle.std.specs.Prelude.{refl};
    ghost use Rattle.zvt_kept.specs.Keeping.{kept_connects, kept_follows, kept_orders};
    ghost use Rattle.zvt_kept.specs.KeptTill.{has_failed, till_of};

    ghost till = { till_of };

    ghost failed = { has_failed };

    ghost orders = { λ old order result new.
        kept_orders D.seen D.may_leave D.moment D.left_since D.faults old order result new };

    ghost connects = { λ old result new.
        kept_connects D.seen D.may_leave D.moment D.left_since D.faults old result new };

    ghost follows = { kept_follows D.seen D.may_leave D.moment D.left_since D.faults };

    ghost frugal = { refl };

    fn look(&self) -> &Till {
        self.till.till()
    }

    fn has_failed(&self) -> bool {
        self.failure.is_some()
    }

    fn order(&mut self, alloc: Global, order: Order) -> Result<Outgoing, Untaken> {
        let (till, journal) = (&mut self.till, &mut self.journal);
        take_order(alloc, till, journal, &mut self.failure, order, &self.note)
    }

    fn connect(&mut self, alloc: Global) -> Result<(), BookFault> {
        match self.connected(alloc) {
            Ok(()) => Ok(()),
            Err(_) => Err(BookFault::Failed),
        }
    }
}

/// Each ask is durable, with its note, before you get the message to send, as an order is.
impl<D: Device> Asker for KeptTill<D> {
    ghost use Rattle.zvt_kept.specs.Keeping.{kept_asks, kept_is_asker};
    ghost use Rattle.zvt_kept.specs.KeptTill.{settling_in};

    ghost settling = { settling_in };

    ghost asks = { λ old result new. kept_asks D.seen D.may_leave D.moment D.left_since D.faults old result new };

    ghost is_asker = { kept_is_asker D.seen D.may_leave D.moment D.left_since D.faults };

    fn settling(&self) -> &SettlingTill {
        &self.till
    }

    fn ask(&mut self, alloc: Global) -> Result<[u8; 6], Untaken> {
        let (till, journal) = (&mut self.till, &mut self.journal);
        take_ask(alloc, till, journal, &mut self.failure, &self.note)
    }
}
