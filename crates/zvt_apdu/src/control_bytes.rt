//! The control bytes of the messages that this library names. Each constant cites its chapter of PA00P015 by title.

/// From either side: a positive acknowledgement (PA00P015, general command structure).
pub const ACK: [u8; 2] = [0x80, 0x00];

/// From either side: the first byte of a negative acknowledgement, whose second byte is an error code (PA00P015,
/// general command structure).
pub const NACK: u8 = 0x84;

/// From the till (PA00P015, Registration).
pub const REGISTRATION: [u8; 2] = [0x06, 0x00];

/// From the till (PA00P015, Authorisation).
pub const AUTHORISATION: [u8; 2] = [0x06, 0x01];

/// From the till (PA00P015, Reversal).
pub const REVERSAL: [u8; 2] = [0x06, 0x30];

/// From the till (PA00P015, End-of-Day).
pub const END_OF_DAY: [u8; 2] = [0x06, 0x50];

/// From the till: it cancels the running order (PA00P015, Abort of a command by the ECR).
pub const ABORT_ORDER: [u8; 2] = [0x06, 0xB0];

/// From the terminal (PA00P015, Status-Information).
pub const STATUS: [u8; 2] = [0x04, 0x0F];

/// From the terminal (PA00P015, Intermediate-Status-Information).
pub const INTERMEDIATE: [u8; 2] = [0x04, 0xFF];

/// From the terminal (PA00P015, Print Line).
pub const PRINT_LINE: [u8; 2] = [0x06, 0xD1];

/// From the terminal (PA00P015, Print Text-Block).
pub const TEXT_BLOCK: [u8; 2] = [0x06, 0xD3];

/// From the terminal: the order is done (PA00P015, Completion).
pub const COMPLETION: [u8; 2] = [0x06, 0x0F];

/// From the terminal: the order ends without completion (PA00P015, Abort).
pub const ABORT: [u8; 2] = [0x06, 0x1E];
