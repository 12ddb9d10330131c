//! The service of one till.
ghost use Rattle.std.specs.Prelude.{◌≡◌};

use crate::books::Found;
use std::alloc::{AllocError, Global};
use std::marker::Model;
use thiserror::Error;
use zvt_apdu::ApduView;
use zvt_journal::Device;
use zvt_kept::{
    KeptTill, Note, PastOrder, PastOrders, Recovered, RecoveryError, Reopened, Unbegun,
};
use zvt_settle::{Asker, SettlingTill};
use zvt_stream::{Answers, Machine};
use zvt_till::{BookFault, Keeper, Order, Outgoing, Till, TillSettings, Untaken};

/// Why an order was not given to the till. Nothing may be sent.
#[derive(Clone, Copy, Debug, Drop, PartialEq, Eq, Error)]
pub enum Ungiven {
    /// An order of one of the service's books has this key. [`Service::find`] returns it. Nothing changed.
    #[error("a book has an order with this key")]
    Known,
    /// The till did not accept the order, or its record could not be added to the book.
    #[error("{0}")]
    Till(Untaken),
    /// An allocation failed. Nothing changed.
    #[error("out of memory: nothing was sent")]
    Memory,
}

impl From<AllocError> for Ungiven {
    ghost use Rattle.zvt_service.specs.declared.service.Ungiven.TheVariants.{Memory};

    ghost from_gives = { λ _ error. error ≡ Memory };

    fn from(_refused: AllocError) -> Ungiven {
        Ungiven::Memory
    }
}

/// A till with a book that knows each order of the book, and how it ended.
#[derive(Drop)]
pub struct Service<D: Device> {
    kept: KeptTill<D>,
    orders: PastOrders,
    /// The books of earlier days. Nothing is added to them.
    earlier: Vec<Recovered>,
}

impl<D: Device> Model for Service<D> {
    ghost use Rattle.zvt_service.specs.Service.{IsServed, ServiceValue};

    ghost Value = { ServiceValue D };

    ghost view = { λ s. record { kept = s.kept; past = s.orders; earlier = s.earlier.items } };

    ghost invariant = { λ s. IsServed D.seen s.kept s.orders };
}

impl<D: Device + Drop> Service<D> {
    ghost use Rattle.std.specs.Prelude.{◌∷◌, [], Err, IfErr, IfOk, MatchResult, None, length};
    ghost use Rattle.zvt_journal.specs.Text.{IsSettled, recovered};
    ghost use Rattle.zvt_kept.specs.KeptTill.{Begins, HasCause, Keeps, both_in};
    ghost use Rattle.zvt_kept.specs.PastOrders.{HasOrders};
    ghost use Rattle.zvt_kept.specs.Recovery.{HasSettled, IsRecovered, Recovers};
    ghost use Rattle.zvt_till.specs.declared.happenings.Happening.TheVariants.{Connected};
    ghost use Rattle.zvt_till.specs.Settings.{settings_of};

    /// Begins a book on a device without records, at rest as `zvt_journal::open` leaves it, and makes its opening
    /// durable. The till is not connected.
    ///
    /// After an error, the device contains no record or the opening; open it again to find out.
    pub fn create(
        alloc: Global,
        settings: &TillSettings,
        device: D,
    ) -> Result<Service<D>, Unbegun<D>>
        requires { IsSettled (D.seen device) (D.may_leave device) 0 }
        ensures none { IfOk result (λ service. (service.past ≡ []) × (service.earlier ≡ [])) }
        ensures whole { IfOk result (λ service. service.kept.failure ≡ None) }
        ensures any_moment { MatchResult result
            (λ service. Begins D.seen D.may_leave D.moment D.left_since D.faults (settings_of settings.now) device
            service.kept.standing.device)
            (λ unbegun. Begins D.seen D.may_leave D.moment D.left_since D.faults (settings_of settings.now) device
            unbegun.device) }
        ensures cause { IfErr result (λ unbegun. HasCause unbegun.why (D.faults device) (D.faults unbegun.device) 0) }
        ensures log { IfOk result (λ service. Keeps (settings_of settings.now) (Connected ∷ [])
            (D.seen service.kept.standing.device) (D.may_leave service.kept.standing.device)
            service.kept.standing.gate (both_in service.kept.standing)) }
    {
        let kept = KeptTill::create(alloc, settings, device)?;
        Ok(Service {
            kept,
            orders: PastOrders::new(alloc),
            earlier: Vec::new(alloc),
        })
    }

    /// Restores the service from the records of a device at rest. The till is not connected. Writes nothing.
    ///
    /// Fails with `Opening` if the text has no record: use [`Service::create`] to begin a book on its device.
    pub fn open(
        alloc: Global,
        settings: &TillSettings,
        device: D,
        text: &[u8],
    ) -> Result<Service<D>, RecoveryError>
        requires text { recovered (D.seen device) ≡ text.now }
        requires settled { IsSettled (D.seen device) (D.may_leave device) (length text.now) }
        ensures till { MatchResult result (λ service. IsRecovered (settings_of settings.now) text.now
            service.kept.standing.till.state) (λ why. Recovers (settings_of settings.now) text.now (Err why)) }
        ensures settling { IfOk result (λ service. HasSettled (settings_of settings.now) text.now
            (both_in service.kept.standing)) }
        ensures device { IfOk result (λ service. (service.kept.standing.device ≡ device)
            × (service.kept.standing.gate ≡ length text.now)) }
        ensures whole { IfOk result (λ service. service.kept.failure ≡ None) }
        ensures orders { IfOk result (λ service. HasOrders (settings_of settings.now) text.now service.past) }
        ensures alone { IfOk result (λ service. service.earlier ≡ []) }
    {
        let Reopened { till, orders } = KeptTill::open(alloc, settings, device, text)?;
        Ok(Service {
            kept: till,
            orders,
            earlier: Vec::new(alloc),
        })
    }
}

impl<D: Device> Service<D> {
    ghost use Rattle.std.specs.Prelude.{◌∷◌, ◌++◌, [], OnErr, OnOk, option_map, true};
    ghost use Rattle.zvt_kept.specs.KeptTill.{both_in, has_failed};
    ghost use Rattle.zvt_service.specs.Books.{in_book, order_found};
    ghost use Rattle.zvt_service.specs.Service.{Asks, Connects, Gives, Loses, found_by, is_held};
    ghost use Rattle.zvt_settle.specs.Inside.{settling_of, till_inside};

    /// Lets the service know a book of an earlier day. From then on its keys are known: [`Service::find`] finds them, and
    /// no order is sent for them. Nothing is added to the book.
    ///
    /// Give the service all earlier books before its first order, and the same ones each time it is opened. Nothing
    /// changes if an allocation fails.
    pub fn remember(&mut self, book: Recovered) -> Result<(), AllocError>
        ensures ok { OnOk result (self.new ≡ record self.old { earlier = self.old.earlier ++ book ∷ [] }) }
        ensures err { OnErr result (self.new ≡ self.old) }
    {
        self.earlier.push(book)?;
        Ok(())
    }

    /// Returns the till.
    pub fn till(&self) -> &Till
        ensures { result.now ≡ self.now.kept.standing.till }
    {
        self.kept.till()
    }

    /// Returns whether the book failed. Nothing more is sent then, and the orders may lack what the book has: open it
    /// again in another process.
    pub fn has_failed(&self) -> bool
        ensures { result ≡ has_failed self.now.kept }
    {
        self.kept.failure().is_some()
    }

    /// Returns the orders of the book, from the oldest to the newest.
    pub fn orders(&self) -> &[PastOrder]
        ensures { result.now ≡ self.now.past }
    {
        self.orders.as_slice()
    }

    /// Gives the till an order, and returns the message to send. By then the book contains the order's record with its
    /// note. The key of the order is the reference in the note; without one the order has no key.
    ///
    /// Fails with `Known` if an order of some book has the key, and with `Till` if the till does not accept the order or
    /// its record could not be made durable. After any error nothing may be sent.
    pub fn order(&mut self, alloc: Global, order: &Order, note: &Note) -> Result<Outgoing, Ungiven>
        ensures { Gives D.seen D.may_leave D.moment D.left_since D.faults order.now note.now self.old result self.new }
    {
        if self.holds(note) {
            return Err(Ungiven::Known);
        }
        let count = self.orders.len();
        self.orders.start(*order, note)?;
        self.kept.note_next(note.copied());
        match self.kept.order(alloc, *order) {
            Ok(outgoing) => {
                self.orders.follow(self.kept.till());
                Ok(outgoing)
            }
            Err(why) => {
                self.orders.truncate(count);
                Err(Ungiven::Till(why))
            }
        }
    }

    /// Returns whether an order of some book has the key in this note.
    fn holds(&self, note: &Note) -> bool
        ensures { result ≡ is_held note.now self.now }
    {
        match note.reference() {
            Some(key) => self.find(key).is_some(),
            None => false,
        }
    }

    /// Lets the till ask its terminal to repeat the last receipt, and returns the message to send. By then the book
    /// contains the ask's record with this note.
    pub fn ask(&mut self, alloc: Global, note: &Note) -> Result<[u8; 6], Untaken>
        ensures { Asks D.seen D.may_leave D.moment D.left_since D.faults note.now self.old result self.new }
    {
        self.kept.note_next(note.copied());
        let message = self.kept.ask(alloc)?;
        self.orders.follow(self.kept.till());
        Ok(message)
    }

    /// Notifies the till that a line is up. By then the book contains the record that an earlier line was lost. Nothing
    /// changes if the line was up.
    pub fn connect(&mut self, alloc: Global) -> Result<(), BookFault>
        ensures { Connects D.seen D.may_leave D.moment D.left_since D.faults self.old result self.new }
    {
        if self.kept.till().line_up() {
            return Ok(());
        }
        self.kept.connect(alloc)
    }

    /// Returns the till that settles: what was settled, and which unclear order an answer of the terminal can settle.
    pub fn settling(&self) -> &SettlingTill
        ensures till { till_inside result.now ≡ self.now.kept.standing.till }
        ensures settling { settling_of result.now ≡ self.now.kept.standing.settling }
    {
        self.kept.settling()
    }

    /// Notifies the till that its line was lost, if it is up.
    fn lose_line(&mut self)
        ensures { Loses D.seen D.may_leave D.moment D.left_since D.faults self.old self.new }
    {
        if self.kept.till().line_up() {
            self.kept.lost();
            self.orders.follow(self.kept.till());
        }
    }

    /// Returns the order with this key. If several books have the key, the service's own book counts, or else the first
    /// of the others.
    pub fn find(&self, key: &[u8]) -> Option<Found<'_>>
        ensures { option_map order_found result ≡ found_by key.now self.now }
    {
        match self.find_own(key) {
            Some(found) => Some(found),
            None => Found::in_earlier(self.earlier.as_slice(), key),
        }
    }

    /// Returns the order with this key in the service's own book.
    fn find_own(&self, key: &[u8]) -> Option<Found<'_>>
        ensures { option_map order_found result ≡ in_book key.now true (both_in self.now.kept.standing) self.now.past }
    {
        Found::in_book(self.kept.settling(), &self.orders, key, true)
    }
}

/// A service hears a message once the book contains it, and notes how an order ended by it.
impl<D: Device> Machine for Service<D> {
    ghost use Rattle.std.specs.Prelude.{false};
    ghost use Rattle.zvt_kept.specs.KeptTill.{kept_rests};
    ghost use Rattle.zvt_service.specs.Service.{Hears, Loses, rests};

    ghost hears = { λ old message answered new. Hears D.seen D.may_leave D.moment D.left_since D.faults old message
        answered new };

    ghost loses = { λ old new. Loses D.seen D.may_leave D.moment D.left_since D.faults old new };

    ghost malforms = { λ old new. Loses D.seen D.may_leave D.moment D.left_since D.faults old new };

    ghost is_resting = { rests };

    ghost wants_memory = { false };

    fn hear(&mut self, alloc: Global, apdu: &ApduView<'_>) -> Result<Answers, AllocError> {
        if !self.kept.till().line_up() {
            return Ok(Answers::new());
        }
        let answers = self.kept.hear(alloc, apdu)?;
        if self.kept.failure().is_none() {
            self.orders.follow(self.kept.till());
        }
        Ok(answers)
    }

    fn resting(&self) -> bool {
        self.kept.resting()
    }

    fn lost(&mut self) {
        self.lose_line();
    }

    fn malformed(&mut self) {
        self.lose_line();
    }
}
