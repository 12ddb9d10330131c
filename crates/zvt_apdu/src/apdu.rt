//! A message that has an encoding.

ghost use Rattle.std.specs.Prelude.{◌≡◌, IfErr, IfOk};
ghost use Rattle.zvt_apdu.specs.Messages.{message_of, HasFault, HasSpelling};

use crate::messages::{BadValue, Message};
use crate::writer::{control, data_size};
use std::marker::Model;

/// A message that has an encoding.
#[derive(Drop)]
pub struct Apdu {
    pub(crate) message: Message,
}

impl Model for Apdu {
    ghost use Rattle.zvt_apdu.specs.Message.{Message};
    ghost use Rattle.zvt_apdu.specs.MessageCode.{message_code};

    ghost Value = { Message };

    ghost coded = { message_code };

    ghost use Rattle.zvt_apdu.specs.Messages.{message_of, HasSpelling};

    ghost view = { λ a. message_of a.message };

    ghost invariant = { λ a. HasSpelling (message_of a.message) };
}

impl Apdu {
    /// Returns the message.
    pub fn message(&self) -> &Message
        ensures value { message_of result.now ≡ self.now }
        ensures spelled { HasSpelling self.now }
    {
        &self.message
    }
}

/// Returns the message as an APDU if it has an encoding. Otherwise hands it back with the first fault that applies:
/// `TooLarge`, then `NamedControl`.
pub fn checked(message: Message) -> Result<Apdu, (Message, BadValue)>
    ensures ok { IfOk result (λ apdu. (apdu ≡ message_of message) × HasSpelling (message_of message)) }
    ensures err { IfErr result (λ e. (e.0 ≡ message) × HasFault (message_of message) e.1
        × (HasSpelling (message_of message) → ⊥)) }
{
    if data_size(&message) > 65_535 {
        return Err((message, BadValue::TooLarge));
    }
    let Some(_) = control(&message) else {
        return Err((message, BadValue::NamedControl));
    };
    Ok(Apdu { message })
}
