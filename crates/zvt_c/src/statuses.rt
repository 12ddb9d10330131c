//! The statuses of the calls, as `c/zvt.h` names them.

/// The call succeeded, or the bytes begin with a complete message.
pub const OK: u32 = 0;

/// The bytes are a part of a message: more are needed.
pub const MORE: u32 = 1;

/// The bytes are refused: no message begins like this, or they are not what a till saved or recorded.
pub const REFUSED: u32 = 2;

/// An allocation failed.
pub const NO_MEMORY: u32 = 3;

/// The buffer is too small. Nothing changed.
pub const TOO_SMALL: u32 = 4;

/// An argument is out of range. Nothing changed.
pub const ARGUMENT: u32 = 5;

/// The handle has no till.
pub const CLOSED: u32 = 6;

/// The connection sent invalid bytes earlier.
pub const STOPPED: u32 = 7;

/// The order or ask is refused: the till is not connected.
pub const OFFLINE: u32 = 10;

/// The order or ask is refused: the till is not registered.
pub const NOT_REGISTERED: u32 = 11;

/// The order or ask is refused: an order or an ask is running.
pub const BUSY: u32 = 12;

/// The order is refused: no payment or reversal is running that it could cancel.
pub const NOTHING_TO_CANCEL: u32 = 13;

/// The order is refused: the book is full.
pub const BOOK_FULL: u32 = 14;

/// The order is refused: the book has no entry at this index.
pub const UNKNOWN_ENTRY: u32 = 15;

/// The order is refused: the payment was reversed before.
pub const ALREADY_REVERSED: u32 = 16;

/// The order is refused: the payment has no receipt number.
pub const NO_RECEIPT: u32 = 17;
