//! The BMPs that the code names (PA00P015, list of bitmaps). The table of them all has the others by number.

pub const AMOUNT: u8 = 0x04;

pub const TRACE: u8 = 0x0B;

pub const RESULT: u8 = 0x27;
/// The number of the terminal.
pub const TERMINAL: u8 = 0x29;
/// The trace number of the payment that a reversal takes back.
pub const ORIGINAL: u8 = 0x37;

pub const CURRENCY: u8 = 0x49;

pub const RECEIPT: u8 = 0x87;
