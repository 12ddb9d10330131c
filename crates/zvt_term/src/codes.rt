//! Error codes and result codes.

/// Error code: the terminal cannot accept the order now.
pub(crate) const NOT_POSSIBLE: u8 = 0x83;

/// Result code: the payment's currency differs from the registration's.
pub(crate) const WRONG_CURRENCY: u8 = 0x6F;

/// Result code: the approval was reversed before.
pub(crate) const ALREADY_REVERSED: u8 = 0xB4;

/// Result code: the reversal names no approval.
pub(crate) const NO_APPROVAL: u8 = 0xB5;

/// Result code: the till aborted the payment.
pub(crate) const ABORTED_BY_TILL: u8 = 0x6C;

/// Any other failure.
pub(crate) const SYSTEM_ERROR: u8 = 0xFF;
