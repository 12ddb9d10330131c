//! Why a request is answered without the outcome of an order: one table of statuses, names and advice.

use crate::answers::put_bool;
use std::alloc::AllocError;
use zvt_text::Text;
use zvt_till::OrderRefusal;

/// Why a request is answered without the outcome of an order.
#[derive(Clone, Copy, Debug, Drop, PartialEq, Eq)]
pub enum Trouble {
    /// The key names an order other than the one in the request.
    KeyReused,
    /// The payment's currency is not the till's.
    OtherCurrency,
    /// No payment with the key was completed.
    NoPayment,
    /// The payment is in a book of an earlier day, to which nothing is added.
    OtherBook,
    /// No order has the key.
    UnknownKey,
    /// Another order is running.
    Busy,
    /// The till is not registered at a terminal.
    NoTerminal,
    /// The service ends as soon as no order is running.
    Stopping,
    /// The till did not accept the order.
    Refused(OrderRefusal),
    /// The disk has no room for the records of the order.
    NoSpace,
    /// The book cannot be written.
    Book,
    /// The book could not be written while the order was running. Whoever opens the book again knows how it ended.
    Interrupted,
    /// An allocation failed.
    Memory,
}

impl Trouble {
    ghost use Rattle.std.specs.Prelude.{◌≡◌, ◌++◌, OnOk, option_map};
    ghost use Rattle.zvt_serve.specs.Troubles.{trouble_body, trouble_message, trouble_name, trouble_retry};
    ghost use Rattle.zvt_serve.specs.Troubles.{trouble_sent, trouble_status};

    /// Returns the status of the answer.
    pub fn status(self) -> u16
        ensures { result ≡ trouble_status self }
    {
        match self {
            Trouble::NoPayment | Trouble::UnknownKey => 404,
            Trouble::OtherBook | Trouble::Busy | Trouble::Refused(_) => 409,
            Trouble::KeyReused | Trouble::OtherCurrency => 422,
            Trouble::NoSpace | Trouble::Book | Trouble::Interrupted | Trouble::Memory => 500,
            Trouble::NoTerminal | Trouble::Stopping => 503,
        }
    }

    /// Returns the name that a program compares. It stays the same in later versions.
    pub fn name(self) -> &'static str
        ensures { result.now ≡ trouble_name self }
    {
        match self {
            Trouble::KeyReused => "key_reused",
            Trouble::OtherCurrency => "other_currency",
            Trouble::NoPayment => "no_payment",
            Trouble::OtherBook => "other_book",
            Trouble::UnknownKey => "unknown_key",
            Trouble::Busy => "busy",
            Trouble::NoTerminal => "no_terminal",
            Trouble::Stopping => "stopping",
            Trouble::Refused(why) => why.name(),
            Trouble::NoSpace => "no_space",
            Trouble::Book | Trouble::Interrupted => "book",
            Trouble::Memory => "memory",
        }
    }

    /// Returns a sentence for people: what is wrong, and what to do.
    pub fn message(self) -> &'static str
        ensures { result.now ≡ trouble_message self }
    {
        match self {
            Trouble::KeyReused => "Another order has this key. Choose a new key for each order.",
            Trouble::OtherCurrency => {
                "The till takes another currency. Leave the currency out, or send the till's."
            }
            Trouble::NoPayment => {
                "No completed payment has this key. Look it up with GET /payments/KEY first."
            }
            Trouble::OtherBook => {
                "The payment is in the book of an earlier day, to which nothing is added. Give the \
money back at the terminal."
            }
            Trouble::UnknownKey => {
                "No order has this key, so nothing was sent for it. Check the key, or send the order."
            }
            Trouble::Busy => {
                "Another order is running. Ask again with the same key once it has ended."
            }
            Trouble::NoTerminal => {
                "The till is not registered at a terminal. Check the terminal, then ask again with \
the same key."
            }
            Trouble::Stopping => {
                "The service is stopping. Ask again with the same key once it was started again."
            }
            Trouble::Refused(why) => why.words(),
            Trouble::NoSpace => {
                "The disk has no room for the records of the order. Free some space, then ask again \
with the same key."
            }
            Trouble::Book => {
                "The book could not be written. Check its disk, start the service again, then ask \
again with the same key."
            }
            Trouble::Interrupted => {
                "The book could not be written while the order was running. Check its disk, start \
the service again, then ask again with the same key."
            }
            Trouble::Memory => {
                "The service is out of memory. Ask again with the same key in a moment."
            }
        }
    }

    /// Returns whether something may have been sent to the terminal for the request.
    pub fn was_sent(self) -> bool
        ensures { result ≡ trouble_sent self }
    {
        matches!(self, Trouble::Interrupted)
    }

    /// Returns the seconds after which to ask again, in decimal digits, for the header `Retry-After`.
    pub fn retry_after(self) -> Option<&'static [u8]>
        ensures { option_map (λ digits. digits.now) result ≡ trouble_retry self }
    {
        match self {
            Trouble::Busy | Trouble::Memory => Some(b"1"),
            Trouble::NoTerminal | Trouble::Stopping => Some(b"5"),
            _ => None,
        }
    }

    /// Appends the JSON of the answer: `{"error":NAME,"message":SENTENCE,"sent":false}` and a line feed.
    ///
    /// Fails only if an allocation fails; the text is then incomplete.
    #[tactic(auto, unfolding(crate::specs::Troubles::trouble_body))]
    pub fn put_body(self, text: &mut Text) -> Result<(), AllocError>
        ensures { OnOk result (text.new ≡ text.old ++ trouble_body self) }
    {
        text.word(b"{\"error\":\"")?;
        text.word(self.name().as_bytes())?;
        text.word(b"\",\"message\":\"")?;
        text.word(self.message().as_bytes())?;
        text.word(b"\",\"sent\":")?;
        put_bool(text, self.was_sent())?;
        text.word(b"}\n")
    }
}
