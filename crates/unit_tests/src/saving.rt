//! Tills that are saved, and what is loaded of it.
use crate::assertions::assert_equal;
use std::alloc::Global;
use std::process::Abort;
use std::test::Fail;
use zvt_bcd::{Amount, Trace};
use zvt_till::snapshot::{LoadError, load, reloaded, save};
use zvt_till::{Cause, Doubt, Entry, Heard, Order, Outcome, Till};

/// The till at rest without a doubt, in the first layout.
const FIRST: [u8; 65] = [
    0x5A, 0x56, 0x54, 0x01, 0x00, 0x00, 0x02, 0x00, 0x00, 0x01, 0x09, 0x78, 0x07, 0x00, 0x00, 0x00,
    0x00, 0x00, 0x00, 0x00, 0xBE, 0x00, 0x00, 0x00, 0x00, 0x00, 0x00, 0x00, 0x12, 0x34, 0x00, 0x00,
    0x17, 0x00, 0x01, 0x00, 0x05, 0x00, 0x00, 0x00, 0x00, 0x05, 0x00, 0x00, 0x00, 0x18, 0x01, 0x00,
    0x00, 0x00, 0x00, 0x00, 0x00, 0x00, 0x07, 0x77, 0x04, 0x00, 0x00, 0x08, 0x49, 0x00, 0x03, 0x13,
    0x81,
];

/// The second layout of the till that the bytes above are of.
const SECOND: [u8; 67] = [
    0x5A, 0x56, 0x54, 0x02, 0x00, 0x00, 0x02, 0x00, 0x00, 0x01, 0x09, 0x78, 0x07, 0x00, 0x00, 0x00,
    0x00, 0x00, 0x00, 0x00, 0xBE, 0x00, 0x00, 0x00, 0x00, 0x00, 0x00, 0x00, 0x12, 0x34, 0x00, 0x00,
    0x17, 0x00, 0x01, 0x00, 0x05, 0x00, 0x00, 0x00, 0x00, 0x00, 0x05, 0x00, 0x00, 0x00, 0x18, 0x01,
    0x00, 0x00, 0x00, 0x00, 0x00, 0x00, 0x00, 0x00, 0x07, 0x77, 0x04, 0x00, 0x00, 0x08, 0x50, 0x00,
    0x03, 0x28, 0x45,
];

fn amount(rt: &impl Abort, units: u64) -> Amount {
    Amount::new(units).expect(rt, "an amount")
}

/// A payment that has this doubt, and one that was taken back.
fn book(rt: &impl Abort, doubt: Doubt) -> [Entry; 2] {
    let stands = Entry {
        amount: amount(rt, 1234),
        trace: Trace::new(17).expect(rt, "a trace number"),
        receipt: Some([0, 5]),
        reversed: false,
        doubt,
    };
    let reversed = Entry {
        amount: amount(rt, 500),
        trace: Trace::new(18).expect(rt, "a trace number"),
        receipt: None,
        reversed: true,
        doubt: Doubt::No,
    };
    [stands, reversed]
}

/// A payment that is unclear, and what is unclear besides where a payment of 250 loses its line.
fn unclear(rt: &impl Abort) -> [(Amount, Cause); 2] {
    [
        (amount(rt, 777), Cause::NoTrace),
        (amount(rt, 250), Cause::Line),
    ]
}

/// A till whose line is down, with this book and an unclear payment.
fn resting_till(rt: &impl Abort, alloc: Global, book: &[Entry]) -> Result<Till, Fail> {
    let book = Vec::from_slice(alloc, book)?;
    let unclear = vec![in alloc; (amount(rt, 777), Cause::NoTrace)]?;
    let empty = Till::with_defaults(alloc);
    let till = empty.restored(alloc, book, unclear, Some(Outcome::Reversed));
    Ok(till.ok().expect(rt, "rows of a till"))
}

/// This order runs, on a line that is up.
fn runs(rt: &impl Abort, till: &mut Till, order: Order) {
    till.connected();
    assert!(rt; till.order(Order::Register).is_ok());
    till.hear(Heard::Completion);
    assert!(rt; till.order(order).is_ok());
}

// These three say nothing of what they answer: beside it each step of a caller's proof is dear.
fn again(alloc: Global, till: &Till) -> Option<Till> {
    reloaded(alloc, till).ok()
}

fn loaded(alloc: Global, bytes: &[u8]) -> Option<Till> {
    load(alloc, bytes).ok()
}

fn refusal(alloc: Global, bytes: &[u8]) -> Option<LoadError> {
    load(alloc, bytes).err()
}

/// The till is at rest with this book, these unclear payments and this last outcome.
fn rests(rt: &impl Abort, till: &Till, book: &[Entry], unclear: &[(Amount, Cause)], last: Outcome) {
    assert_equal(rt, &till.book(), &book);
    assert_equal(rt, &till.unclear(), &unclear);
    assert_equal(rt, &till.last_outcome(), &Some(last));
    assert_equal(rt, &(till.running(), till.registered()), &(None, false));
}

/// No till is loaded of a prefix of these bytes.
fn are_damaged(rt: &impl Abort, alloc: Global, bytes: &[u8]) {
    for cut in 0..bytes.len() {
        assert_equal(
            rt,
            &refusal(alloc, &bytes[..cut]),
            &Some(LoadError::Damaged),
        );
    }
}

/// The till is saved in these bytes, and none is loaded of their prefix.
fn saves(rt: &impl Abort, alloc: Global, till: &Till, bytes: &[u8]) -> Result<(), Fail> {
    assert_equal(rt, &save(alloc, till)?.as_slice(), &bytes);
    are_damaged(rt, alloc, bytes);
    Ok(())
}

#[test]
fn a_saved_till_is_loaded(rt: HostRuntime) -> Result<(), Fail> {
    let alloc = rt.alloc();
    let book = book(&rt, Doubt::Unclear(Cause::AmountDiffers));
    let unclear = unclear(&rt);
    let mut till = resting_till(&rt, alloc, &book)?;
    let at_rest = [
        0x5A, 0x56, 0x54, 0x02, 0x00, 0x00, 0x02, 0x00, 0x00, 0x01, 0x09, 0x78, 0x07, 0x00, 0x00,
        0x00, 0x00, 0x00, 0x00, 0x00, 0xBE, 0x00, 0x00, 0x00, 0x00, 0x00, 0x00, 0x00, 0x12, 0x34,
        0x00, 0x00, 0x17, 0x00, 0x01, 0x00, 0x05, 0x03, 0x00, 0x00, 0x00, 0x00, 0x05, 0x00, 0x00,
        0x00, 0x18, 0x01, 0x00, 0x00, 0x00, 0x00, 0x00, 0x00, 0x00, 0x00, 0x07, 0x77, 0x04, 0x00,
        0x00, 0x08, 0x53, 0x00, 0x03, 0x29, 0x11,
    ];
    saves(&rt, alloc, &till, &at_rest)?;
    let same = again(alloc, &till).expect(&rt, "a till");
    rests(&rt, &same, &book, &unclear[..1], Outcome::Reversed);
    runs(&rt, &mut till, Order::Pay(amount(&rt, 250)));
    let paying = [
        0x5A, 0x56, 0x54, 0x02, 0x00, 0x00, 0x02, 0x00, 0x00, 0x02, 0x09, 0x78, 0x06, 0x07, 0x00,
        0x00, 0x00, 0x00, 0x00, 0x00, 0xBE, 0x00, 0x00, 0x00, 0x00, 0x00, 0x00, 0x00, 0x12, 0x34,
        0x00, 0x00, 0x17, 0x00, 0x01, 0x00, 0x05, 0x03, 0x00, 0x00, 0x00, 0x00, 0x05, 0x00, 0x00,
        0x00, 0x18, 0x01, 0x00, 0x00, 0x00, 0x00, 0x00, 0x00, 0x00, 0x00, 0x07, 0x77, 0x04, 0x00,
        0x00, 0x00, 0x00, 0x02, 0x50, 0x07, 0x00, 0x00, 0x09, 0x49, 0x00, 0x03, 0x94, 0x29,
    ];
    saves(&rt, alloc, &till, &paying)?;
    let paid = again(alloc, &till).expect(&rt, "a till");
    rests(&rt, &paid, &book, &unclear, Outcome::Unclear(Cause::Line));
    Ok(())
}

#[test]
fn a_reversal_that_runs_is_saved_as_unclear(rt: HostRuntime) -> Result<(), Fail> {
    let alloc = rt.alloc();
    let mut till = resting_till(&rt, alloc, &book(&rt, Doubt::No))?;
    runs(&rt, &mut till, Order::Reverse(0));
    assert_equal(&rt, &till.unclear_reversals(), &0);
    let reversing = [
        0x5A, 0x56, 0x54, 0x02, 0x00, 0x00, 0x02, 0x00, 0x00, 0x01, 0x09, 0x78, 0x06, 0x07, 0x00,
        0x00, 0x00, 0x00, 0x00, 0x00, 0xBE, 0x00, 0x00, 0x00, 0x00, 0x00, 0x00, 0x00, 0x12, 0x34,
        0x00, 0x00, 0x17, 0x00, 0x01, 0x00, 0x05, 0x07, 0x00, 0x00, 0x00, 0x00, 0x05, 0x00, 0x00,
        0x00, 0x18, 0x01, 0x00, 0x00, 0x00, 0x00, 0x00, 0x00, 0x00, 0x00, 0x07, 0x77, 0x04, 0x00,
        0x00, 0x08, 0x63, 0x00, 0x03, 0x32, 0x74,
    ];
    saves(&rt, alloc, &till, &reversing)?;
    let lost = again(alloc, &till).expect(&rt, "a till");
    let book = book(&rt, Doubt::Unclear(Cause::Line));
    let last = Outcome::Unclear(Cause::Line);
    rests(&rt, &lost, &book, &unclear(&rt)[..1], last);
    assert_equal(&rt, &lost.unclear_reversals(), &1);
    Ok(())
}

#[test]
fn the_first_layout_is_loaded(rt: HostRuntime) -> Result<(), Fail> {
    let alloc = rt.alloc();
    let till = loaded(alloc, &FIRST).expect(&rt, "a till");
    let book = book(&rt, Doubt::No);
    rests(&rt, &till, &book, &unclear(&rt)[..1], Outcome::Reversed);
    saves(&rt, alloc, &till, &SECOND)?;
    are_damaged(&rt, alloc, &FIRST);
    // Rows of the first layout under the version of the second.
    let mut bytes = FIRST;
    bytes[3] = 2;
    bytes[57..].copy_from_slice(&[0x00, 0x00, 0x08, 0x50, 0x00, 0x03, 0x14, 0x35]);
    assert_equal(&rt, &refusal(alloc, &bytes), &Some(LoadError::Damaged));
    Ok(())
}

/// What the till in the second layout is loaded as, where its bytes name this version, have this doubt of the first
/// payment, and end so.
fn doubt_in(alloc: Global, version: u8, doubt: u8, sums: [u8; 5]) -> Result<Doubt, LoadError> {
    let mut bytes = SECOND;
    bytes[3] = version;
    bytes[37] = doubt;
    bytes[62..].copy_from_slice(&sums);
    match load(alloc, &bytes) {
        Ok(till) => match till.book() {
            [first, ..] => Ok(first.doubt),
            [] => Ok(Doubt::No),
        },
        Err(why) => Err(why),
    }
}

#[test]
fn each_doubt_and_each_version(rt: HostRuntime) {
    let damaged = Err(LoadError::Damaged);
    let rows: [(u8, u8, [u8; 5], Result<Doubt, LoadError>); 9] = [
        (2, 0, [0x50, 0x00, 0x03, 0x28, 0x45], Ok(Doubt::No)),
        (
            2,
            1,
            [0x51, 0x00, 0x03, 0x28, 0x67],
            Ok(Doubt::Unclear(Cause::NoStatus)),
        ),
        (
            2,
            10,
            [0x60, 0x00, 0x03, 0x30, 0x65],
            Ok(Doubt::Unclear(Cause::WrongCurrency)),
        ),
        (2, 11, [0x61, 0x00, 0x03, 0x30, 0x87], Ok(Doubt::TakenBack)),
        (2, 12, [0x62, 0x00, 0x03, 0x31, 0x09], damaged),
        (1, 0, [0x49, 0x00, 0x03, 0x27, 0x89], damaged),
        (1, 7, [0x56, 0x00, 0x03, 0x29, 0x43], damaged),
        (3, 11, [0x62, 0x00, 0x03, 0x31, 0x43], damaged),
        (2, 12, [0x61, 0x00, 0x03, 0x30, 0x87], damaged),
    ];
    for (version, doubt, sums, wanted) in rows {
        assert_equal(&rt, &doubt_in(rt.alloc(), version, doubt, sums), &wanted);
    }
}
