//! The steps of a script.

use crate::numbers::NumberField;

/// A step of the player: what it does for a line of a trace.
#[derive(Drop)]
pub enum Action {
    /// Sends these bytes in one write.
    Send(Vec<u8>),
    /// Receives messages that begin with these bytes. Without bytes, receives one message of any kind.
    Await(Vec<u8>),
    /// Breaks the connection.
    Break,
    /// Waits this number of milliseconds.
    Wait(u32),
    /// Sends nothing more on this connection.
    Silence,
    /// Ends the connection after nothing has arrived for this number of milliseconds.
    Listen(u32),
    /// Gives a name to the number in this field of the last received message. No name may have that number yet.
    Bind { field: NumberField, name: u8 },
    /// Compares the number in this field of the last received message with the number of a name.
    Same { field: NumberField, name: u8 },
    /// Sends the next own line with the number of a name as its last bytes, in place of the number in this field.
    Use { field: NumberField, name: u8 },
}

/// A step of a script.
#[derive(Drop)]
pub struct ScriptStep {
    /// The line of the trace, counted from 1.
    pub line: usize,
    pub action: Action,
}
