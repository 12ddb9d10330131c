//! Messages (`zvt_apdu`).
use std::alloc::{AllocError, Global};
use zvt_apdu::{
    Apdu, BadValue, Brief, Message, NoRoom, brief_message, checked, encode_into, normalise,
    put_brief, scan, scan_loose, size,
};
use zvt_bcd::{Amount, Currency};
use zvt_grammar::Scan;

/// A positive answer, and a completion with a padded length.
const ACK: [u8; 3] = [0x80, 0x00, 0x00];

const PADDED: [u8; 9] = [0x06, 0x0F, 0x06, 0x06, 0x04, 0x07, 0x81, 0x01, 0x41];

pub fn all(alloc: Global) -> bool {
    read(alloc) && read_loose(alloc) && made(alloc) && matches!(sent(alloc), Ok(true))
}

fn read(alloc: Global) -> bool {
    match scan(alloc, &ACK) {
        Ok(Scan::Whole((apdu, 3))) => matches!(apdu.message(), Message::Ack { .. }),
        _ => false,
    }
}

fn read_loose(alloc: Global) -> bool {
    let normal: Result<Scan<(Vec<u8>, usize)>, AllocError> = normalise(alloc, &PADDED);
    matches!(scan_loose(alloc, &PADDED), Ok(Scan::Whole((_, 9))))
        && matches!(normal, Ok(Scan::Whole((_, 9))))
}

fn made(alloc: Global) -> bool {
    let message = Message::Abort {
        code: 0x6C,
        payload: Vec::new(alloc),
    };
    let made: Result<Apdu, (Message, BadValue)> = checked(message);
    let Ok(apdu) = made else {
        return false;
    };
    let mut short = [0; 3];
    let written: Result<usize, NoRoom> = encode_into(&apdu, &mut short);
    size(&apdu) == 4 && matches!(written, Err(NoRoom { need: 4 }))
}

fn brief(password: [u8; 3], amount: Amount, currency: Currency) -> [Brief; 7] {
    let config = 0xBE;
    let receipt = [0x00, 0x05];
    [
        Brief::Ack,
        Brief::Nack(0x83),
        Brief::Register {
            password,
            config,
            currency,
        },
        Brief::Pay(amount, currency),
        Brief::Reverse { password, receipt },
        Brief::CloseDay { password },
        Brief::AbortOrder,
    ]
}

fn sent(alloc: Global) -> Result<bool, AllocError> {
    let (Some(amount), Some(currency)) = (Amount::new(1234), Currency::new(978)) else {
        return Ok(false);
    };
    let mut right = true;
    for till in brief([0; 3], amount, currency) {
        let mut buffer = [0; 32];
        let count = put_brief(&till, &mut buffer);
        right &= size(&brief_message(alloc, &till)?) == count;
    }
    Ok(right)
}
