//! What a till hears in messages, from their bytes.
use crate::assertions::{assert_equal, assert_equal_in};
use std::alloc::Global;
use std::process::Abort;
use std::test::Fail;
use zvt_apdu::{Brief, scan, view};
use zvt_bcd::{Amount, Currency, Trace};
use zvt_grammar::Scan;
use zvt_till::{CurrencyFact, Heard, Original, Outgoing, StatusFacts, heard, heard_view};

const APPROVAL: [u8; 19] = [
    0x04, 0x0F, 0x10, 0x27, 0x00, 0x04, 0x00, 0x00, 0x00, 0x00, 0x12, 0x34, 0x0B, 0x00, 0x00, 0x17,
    0x87, 0x00, 0x05,
];

/// What is heard in the message that these bytes spell, by itself and by its view.
fn heard_in(rt: &impl Abort, alloc: Global, bytes: &[u8]) -> Result<Heard, Fail> {
    let Scan::Whole((apdu, taken)) = scan(alloc, bytes)? else {
        panic!(rt; "a message: {bytes:?}");
    };
    assert_equal(rt, &taken, &bytes.len());
    let heard = heard(&apdu);
    drop(apdu);
    assert_equal(rt, &heard_view(&view(&bytes[..taken])), &heard);
    Ok(heard)
}

/// A status information of nothing but these payments taken back.
fn takes_back(original: Original) -> Heard {
    Heard::Status(StatusFacts {
        result: None,
        has_result: false,
        amount: None,
        trace: None,
        receipt: None,
        original,
        currency: CurrencyFact::Absent,
    })
}

/// A status information of nothing but these currencies.
fn names(currency: CurrencyFact) -> Heard {
    Heard::Status(StatusFacts {
        result: None,
        has_result: false,
        amount: None,
        trace: None,
        receipt: None,
        original: Original::Absent,
        currency,
    })
}

#[test]
fn hears_each_message(rt: HostRuntime) -> Result<(), Fail> {
    let approved = Heard::Status(StatusFacts {
        result: Some(0),
        has_result: true,
        amount: Amount::new(1234),
        trace: Trace::new(17),
        receipt: Some([0x00, 0x05]),
        original: Original::Absent,
        currency: CurrencyFact::Absent,
    });
    let once = [0x04, 0x0F, 0x04, 0x37, 0xAB, 0x00, 0x17];
    let twice = [
        0x04, 0x0F, 0x08, 0x37, 0x00, 0x00, 0x17, 0x37, 0x00, 0x00, 0x17,
    ];
    let euro = Currency::new(978).expect(&rt, "a currency");
    let currency = [0x04, 0x0F, 0x03, 0x49, 0x09, 0x78];
    let currencies = [0x04, 0x0F, 0x06, 0x49, 0x09, 0x78, 0x49, 0x09, 0x78];
    let rows: [(&[u8], Heard); 16] = [
        (&currency, names(CurrencyFact::Once(euro))),
        (&currencies, names(CurrencyFact::Many)),
        (&APPROVAL, approved),
        (&[0x04, 0x0F, 0x00], takes_back(Original::Absent)),
        (&once, takes_back(Original::Once([0xAB, 0x00, 0x17]))),
        (&twice, takes_back(Original::Many)),
        (&[0x80, 0x00, 0x00], Heard::Positive),
        (&[0x84, 0x00, 0x00], Heard::Positive),
        (&[0x84, 0x6C, 0x00], Heard::Negative(0x6C)),
        (&[0x04, 0xFF, 0x01, 0x0A], Heard::Passing),
        (&[0x06, 0xD1, 0x01, 0x00], Heard::Passing),
        (&[0x06, 0xD3, 0x00], Heard::Passing),
        (&[0x06, 0x0F, 0x00], Heard::Completion),
        (&[0x06, 0x1E, 0x01, 0x6C], Heard::Abort(0x6C)),
        (&[0x06, 0xB0, 0x00], Heard::Strange),
        (&[0x06, 0x02, 0x00], Heard::Strange),
    ];
    for (bytes, wanted) in rows {
        assert_equal_in(&rt, &bytes, &heard_in(&rt, rt.alloc(), bytes)?, &wanted);
    }
    Ok(())
}

#[test]
fn sends_what_its_brief_says(rt: HostRuntime) -> Result<(), Fail> {
    let rows = [
        (Brief::Nack(0x83), [0x84, 0x83, 0x00], Heard::Negative(0x83)),
        (Brief::AbortOrder, [0x06, 0xB0, 0x00], Heard::Strange),
    ];
    for (brief, bytes, wanted) in rows {
        let outgoing = Outgoing { brief };
        let mut buffer = [0x55; 32];
        assert_equal(&rt, &outgoing.put(&mut buffer), &3);
        assert!(rt; buffer[..3].starts_with(&bytes) && buffer[3] == 0x55);
        let apdu = outgoing.message(rt.alloc())?;
        assert_equal(&rt, &heard(&apdu), &wanted);
    }
    Ok(())
}

#[test]
fn prints_no_password(rt: HostRuntime) -> Result<(), Fail> {
    let closes = Outgoing {
        brief: Brief::CloseDay {
            password: [0x12, 0x34, 0x56],
        },
    };
    let printed = format!(in rt.alloc(); "{closes:?}")?;
    assert_equal(&rt, &printed.as_str(), &"Outgoing { brief: CloseDay }");
    Ok(())
}
