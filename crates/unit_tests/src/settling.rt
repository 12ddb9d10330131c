//! A payment whose line broke, and the ask that settles it: message by message, and over a line.
use crate::assertions::assert_equal;
use std::alloc::Global;
use std::process::Abort;
use std::test::Fail;
use zvt_bcd::{Amount, Trace};
use zvt_io::Over;
use zvt_settle::{Settlement, SettlingTill, run_ask};
use zvt_stream::Stream;
use zvt_till::{CurrencyFact, Heard, Order, Original, StatusFacts, Till};

/// What a terminal answers to an ask: an acknowledgement, an approval of 10.00 under the trace number 2 and the receipt
/// number 2, the completion.
pub(crate) const REPEATED: [u8; 25] = [
    0x80, 0x00, 0x00, 0x04, 0x0F, 0x10, 0x27, 0x00, 0x04, 0x00, 0x00, 0x00, 0x00, 0x10, 0x00, 0x0B,
    0x00, 0x00, 0x02, 0x87, 0x00, 0x02, 0x06, 0x0F, 0x00,
];

fn price(rt: &impl Abort) -> Amount {
    Amount::new(1000).expect(rt, "an amount")
}

/// An approval of the price under these numbers.
fn approval(number: u32, receipt: u8) -> StatusFacts {
    StatusFacts {
        result: Some(0),
        has_result: true,
        amount: Amount::new(1000),
        trace: Trace::new(number),
        receipt: Some([0, receipt]),
        original: Original::Absent,
        currency: CurrencyFact::Absent,
    }
}

/// Accepts an order, sends this status information, and completes the order.
fn completes(till: &mut SettlingTill, status: StatusFacts) {
    let _ = till.hear(Heard::Positive);
    let _ = till.hear(Heard::Status(status));
    let _ = till.hear(Heard::Passing);
    let _ = till.hear(Heard::Completion);
}

/// Connects the till and registers it.
fn registers(rt: &impl Abort, till: &mut SettlingTill) {
    till.connected();
    assert!(rt; till.order(Order::Register).is_ok());
    let _ = till.hear(Heard::Positive);
    let _ = till.hear(Heard::Completion);
}

/// A registered till with a booked payment, whose line broke in a second one.
fn cut_off(rt: &impl Abort, alloc: Global) -> SettlingTill {
    let mut till = SettlingTill::new(alloc, Till::with_defaults(alloc));
    registers(rt, &mut till);
    assert!(rt; till.order(Order::Pay(price(rt))).is_ok());
    completes(&mut till, approval(1, 1));
    assert!(rt; till.order(Order::Pay(price(rt))).is_ok());
    let _ = till.lost();
    assert!(rt; till.pending().is_some());
    registers(rt, &mut till);
    till
}

/// What the first answer settled.
fn first_settled(till: &SettlingTill) -> Option<Settlement> {
    till.settled().first().copied()
}

#[test]
fn a_new_approval_settles_it_as_paid(rt: HostRuntime) -> Result<(), Fail> {
    let mut till = cut_off(&rt, rt.alloc());
    assert!(rt; till.ask().is_ok());
    assert!(rt; till.is_asking());
    assert!(rt; till.order(Order::Register).is_err());
    completes(&mut till, approval(2, 2));
    assert!(rt; !till.is_asking());
    assert!(rt; !till.pending().is_some());
    let number = Trace::new(2).expect(&rt, "a trace number");
    let paid = Settlement::Paid(0, number, Some([0, 2]));
    assert_equal(&rt, &first_settled(&till), &Some(paid));
    assert!(rt; till.till().book().len() == 1);
    assert!(rt; till.till().unclear().len() == 1);
    Ok(())
}

#[test]
fn the_answer_from_before_settles_it_as_not_paid(rt: HostRuntime) -> Result<(), Fail> {
    let mut till = cut_off(&rt, rt.alloc());
    assert!(rt; till.ask().is_ok());
    completes(&mut till, approval(1, 1));
    assert_equal(&rt, &first_settled(&till), &Some(Settlement::NotPaid(0)));
    Ok(())
}

#[test]
fn an_abort_leaves_it_pending(rt: HostRuntime) -> Result<(), Fail> {
    let mut till = cut_off(&rt, rt.alloc());
    assert!(rt; till.ask().is_ok());
    let _ = till.hear(Heard::Positive);
    let _ = till.hear(Heard::Abort(0x83));
    assert!(rt; till.settled().is_empty());
    assert!(rt; till.pending().is_some());
    assert!(rt; till.ask().is_ok());
    Ok(())
}

#[test]
fn an_ask_over_a_line_settles_it(rt: HostRuntime) -> Result<(), Fail> {
    let mut till = cut_off(&rt, rt.alloc());
    assert!(rt; !till.knows_last());
    let mut written = [0; 12];
    let mut reader = Over::new(REPEATED.as_slice());
    let mut writer = Over::new(written.as_mut_slice());
    let mut stream = Stream::new(rt.alloc());
    let ended = run_ask(
        rt.alloc(),
        &mut reader,
        &mut writer,
        &mut stream,
        &mut till,
        9,
    );
    assert!(rt; ended.is_ok());
    assert!(rt; till.knows_last());
    let number = Trace::new(2).expect(&rt, "a trace number");
    let paid = Settlement::Paid(0, number, Some([0, 2]));
    assert_equal(&rt, &first_settled(&till), &Some(paid));
    // The ask, and the acknowledgements of the status and of the completion.
    let sent = [0x06, 0x20, 0x03, 0, 0, 0, 0x80, 0, 0, 0x80, 0, 0];
    assert!(rt; written == sent);
    Ok(())
}
