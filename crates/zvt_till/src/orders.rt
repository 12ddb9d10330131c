//! Orders for the till, the messages that they cause, and the reasons to refuse them.
use crate::outcomes::Outcome;
use std::alloc::{AllocError, Global};
use std::fmt;
use zvt_apdu::{Apdu, Brief, MAX_BRIEF_LEN, brief_message, put_brief};
use zvt_bcd::Amount;

/// An order for the till.
#[derive(Clone, Copy, Debug, PartialEq, Eq)]
pub enum Order {
    /// Registers the till on its line, which every order except Cancel requires.
    Register,
    /// Pays this amount.
    Pay(Amount),
    /// Reverses the payment at this index of the book, counted from 0.
    Reverse(usize),
    /// Closes the day.
    CloseDay,
    /// Asks the terminal to abort the running order, which runs on until the terminal ends it.
    Cancel,
}

/// Why an order was not sent. If several reasons apply, the first of this list is reported.
#[derive(Clone, Copy, Debug, PartialEq, Eq)]
pub enum OrderRefusal {
    /// The till is not connected.
    Offline,
    /// The till is not registered on this line. Applies to all orders except Register and Cancel.
    NotRegistered,
    /// Another order is running. Does not apply to Cancel.
    Busy,
    /// Cancel: no order is running, or the terminal has not accepted it yet.
    NothingToCancel,
    /// Pay: the book or the list of unclear payments is full.
    BookFull,
    /// Reverse: the book has no such entry.
    UnknownEntry,
    /// Reverse: the entry is already reversed.
    AlreadyReversed,
    /// Reverse: the entry has no receipt number, so the terminal could not find it.
    NoReceipt,
    /// Pay: an allocation failed that is needed to record the payment later.
    Memory,
}

impl OrderRefusal {
    ghost use Rattle.std.specs.Prelude.{◌≡◌};
    ghost use Rattle.zvt_till.specs.Names.{refusal_name, refusal_words};

    /// Returns the name of the refusal as every output writes it.
    pub fn name(self) -> &'static str
        ensures { result.now ≡ refusal_name self }
    {
        match self {
            OrderRefusal::Offline => "Offline",
            OrderRefusal::NotRegistered => "NotRegistered",
            OrderRefusal::Busy => "Busy",
            OrderRefusal::NothingToCancel => "NothingToCancel",
            OrderRefusal::BookFull => "BookFull",
            OrderRefusal::UnknownEntry => "UnknownEntry",
            OrderRefusal::AlreadyReversed => "AlreadyReversed",
            OrderRefusal::NoReceipt => "NoReceipt",
            OrderRefusal::Memory => "Memory",
        }
    }

    /// Returns a sentence that explains why the order was not sent.
    pub fn words(self) -> &'static str
        ensures { result.now ≡ refusal_words self }
    {
        match self {
            OrderRefusal::Offline => "there is no connection",
            OrderRefusal::NotRegistered => {
                "the till is not registered on this connection: register first"
            }
            OrderRefusal::Busy => "another order is running",
            OrderRefusal::NothingToCancel => {
                "the terminal has taken up no order that could be cancelled"
            }
            OrderRefusal::BookFull => "the book has no room for another payment: begin a new book",
            OrderRefusal::UnknownEntry => "the book has no such entry",
            OrderRefusal::AlreadyReversed => "this payment is reversed already",
            OrderRefusal::NoReceipt => {
                "the payment has no receipt number, so the terminal could not find it"
            }
            OrderRefusal::Memory => "out of memory",
        }
    }
}

impl fmt::Display for OrderRefusal {
    ghost use Rattle.std.specs.Prelude.{Some};
    ghost use Rattle.zvt_till.specs.Names.{refusal_name};

    ghost output = { λ refusal. Some (refusal_name refusal) };

    fn fmt<W: fmt::Write>(&self, f: &mut fmt::Formatter<W>) -> fmt::Result {
        f.write_str(self.name())
    }
}

/// A message that the till sends.
#[derive(Clone, Copy, Debug, PartialEq, Eq)]
pub struct Outgoing {
    /// The values of the message.
    pub brief: Brief,
}

impl Outgoing {
    ghost use Rattle.std.specs.Prelude.{◌≡◌, ◌≤◌, IfOk};
    ghost use Rattle.zvt_apdu.specs.Briefs.{message_of_brief, PutsMessage};

    /// Writes its bytes to the start of the buffer, and returns their number. They always fit. The rest of the buffer
    /// does not change.
    pub fn put(&self, buffer: &mut [u8; MAX_BRIEF_LEN]) -> usize
        ensures written { PutsMessage (message_of_brief self.now.brief) buffer.old buffer.new result }
        ensures fits { result ≤ 32 }
    {
        put_brief(&self.brief, buffer)
    }

    /// Returns the message itself.
    pub fn message(&self, alloc: Global) -> Result<Apdu, AllocError>
        ensures { IfOk result (λ apdu. apdu ≡ message_of_brief self.now.brief) }
    {
        brief_message(alloc, &self.brief)
    }
}

/// The till's reaction to a terminal's message: the reply, and the outcome of the running order if the message ended
/// it.
#[derive(Clone, Copy, Debug, PartialEq, Eq)]
pub struct Reply {
    pub send: Option<Outgoing>,
    pub outcome: Option<Outcome>,
}
