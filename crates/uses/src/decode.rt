//! Reads one message, and prints a field of it.

use std::io;
use zvt_apdu::{Apdu, Message, scan};
use zvt_grammar::Scan;

/// A status information (PA00P015, Status-Information): 12.34 is approved under the trace number 17.
pub const STATUS: [u8; 19] = [
    0x04, 0x0F, 0x10, 0x27, 0x00, 0x04, 0x00, 0x00, 0x00, 0x00, 0x12, 0x34, 0x0B, 0x00, 0x00, 0x17,
    0x87, 0x00, 0x05,
];

/// Prints what the bytes are: a message and its amount, the beginning of one, or bytes that begin none.
pub fn print_amount(rt: &HostRuntime, bytes: &[u8]) -> io::Result<()> {
    match scan(rt.alloc(), bytes) {
        Ok(Scan::Whole((apdu, size))) => print_amount_of(rt, &apdu, size),
        Ok(Scan::More) => println!(rt; "decode: incomplete"),
        Ok(Scan::Refused { place, why }) => println!(rt; "decode: refused at byte {place}: {why}"),
        Err(_) => println!(rt; "decode: out of memory"),
    }
}

/// Prints the amount of a status information, in the smallest unit of its currency.
fn print_amount_of(rt: &HostRuntime, apdu: &Apdu, size: usize) -> io::Result<()> {
    let Message::Status(fields) = apdu.message() else {
        return println!(rt; "decode: another message of {size} bytes");
    };
    match zvt_field::amount(fields) {
        Some(amount) => println!(rt; "decode: a status of {size} bytes, amount {}", amount.get()),
        None => println!(rt; "decode: a status of {size} bytes without an amount"),
    }
}
