//! A till with a journal in memory that asks: what it settles, and what each moment of its journal recovers.
ghost use Rattle.std.specs.Prelude.{◌≡◌, IfOk};
ghost use Rattle.zvt_journal.specs.Memory.{memory_bytes};
ghost use Rattle.zvt_journal.specs.Text.{IsSettled};

use crate::assertions::assert_equal;
use crate::settling::REPEATED;
use std::alloc::Global;
use std::process::Abort;
use std::test::Fail;
use zvt_bcd::{Amount, Trace};
use zvt_io::Over;
use zvt_journal::{Memory, open};
use zvt_kept::{KeptTill, recover};
use zvt_settle::{Asker, Settlement, run_ask};
use zvt_stream::Stream;
use zvt_till::{Keeper, Order, Outcome, RunFault, TillSettings, run_order};

/// What a terminal answers to a registration: an acknowledgement and the completion.
const REGISTERED: [u8; 6] = [0x80, 0x00, 0x00, 0x06, 0x0F, 0x00];

/// What a terminal answers to a payment of 10.00: an acknowledgement, an approval under the trace number 1 and the
/// receipt number 1, and the completion.
const APPROVED: [u8; 25] = [
    0x80, 0x00, 0x00, 0x04, 0x0F, 0x10, 0x27, 0x00, 0x04, 0x00, 0x00, 0x00, 0x00, 0x10, 0x00, 0x0B,
    0x00, 0x00, 0x01, 0x87, 0x00, 0x01, 0x06, 0x0F, 0x00,
];

type Book = KeptTill<Memory>;

/// An empty file.
fn empty(alloc: Global) -> Result<Memory, Fail>
    ensures { IfOk result (λ file. IsSettled (memory_bytes file) (λ left. left ≡ memory_bytes file) 0) }
{
    let mut file = Memory::new(alloc, Vec::new(alloc));
    let _ = open(&mut file, Vec::new(alloc))?;
    Ok(file)
}

/// A till with a new journal.
fn begun(rt: &impl Abort, alloc: Global) -> Result<Book, Fail> {
    let file = empty(alloc)?;
    let Ok(till) = KeptTill::create(alloc, &TillSettings::default(), file) else {
        panic!(rt; "no journal was begun");
    };
    Ok(till)
}

/// Gives the till an order on a line on which these bytes come.
fn ordered(
    alloc: Global,
    till: &mut Book,
    order: Order,
    coming: &[u8],
) -> Result<Outcome, RunFault> {
    let mut written = [0; 64];
    let mut reader = Over::new(coming);
    let mut writer = Over::new(written.as_mut_slice());
    let mut stream = Stream::new(alloc);
    run_order(alloc, &mut reader, &mut writer, &mut stream, till, order, 9)
}

/// Connects the till and registers it.
fn registers(rt: &impl Abort, alloc: Global, till: &mut Book) {
    assert!(rt; till.connect(alloc).is_ok());
    assert!(rt; ordered(alloc, till, Order::Register, REGISTERED.as_slice()).is_ok());
}

/// A registered till with a booked payment, whose line broke in a second one.
fn cut_off(rt: &impl Abort, alloc: Global) -> Result<Book, Fail> {
    let price = Amount::new(1000).expect(rt, "an amount");
    let mut till = begun(rt, alloc)?;
    registers(rt, alloc, &mut till);
    assert!(rt; ordered(alloc, &mut till, Order::Pay(price), APPROVED.as_slice()).is_ok());
    let acknowledged = [0x80, 0x00, 0x00];
    assert!(rt; ordered(alloc, &mut till, Order::Pay(price), acknowledged.as_slice()).is_err());
    assert!(rt; till.settling().pending().is_some());
    registers(rt, alloc, &mut till);
    Ok(till)
}

/// Lets the till ask on a line on which a new approval comes.
fn asks(alloc: Global, till: &mut Book) -> Result<(), RunFault> {
    let mut written = [0; 64];
    let mut reader = Over::new(REPEATED.as_slice());
    let mut writer = Over::new(written.as_mut_slice());
    let mut stream = Stream::new(alloc);
    run_ask(alloc, &mut reader, &mut writer, &mut stream, till, 9)
}

/// What the journal of these bytes has settled first, if anything.
fn first_settled(alloc: Global, rt: &impl Abort, bytes: &[u8]) -> Result<Option<Settlement>, Fail> {
    let mut file = Memory::new(alloc, bytes.to_vec(alloc)?);
    let text = open(&mut file, bytes.to_vec(alloc)?)?;
    let Ok(recovered) = recover(alloc, &TillSettings::default(), &text) else {
        panic!(rt; "the journal recovers no till");
    };
    Ok(recovered.till.settled().first().copied())
}

#[test]
fn a_journal_recovers_what_an_ask_settled(rt: HostRuntime) -> Result<(), Fail> {
    let alloc = rt.alloc();
    let mut till = cut_off(&rt, alloc)?;
    let before = till.device().past().len();
    assert!(rt; asks(alloc, &mut till).is_ok());
    let number = Trace::new(2).expect(&rt, "a trace number");
    let paid = Some(Settlement::Paid(0, number, Some([0, 2])));
    assert_equal(&rt, &till.settling().settled().first().copied(), &paid);
    assert_equal(
        &rt,
        &first_settled(alloc, &rt, till.device().bytes())?,
        &paid,
    );
    // A crash at a moment of the ask leaves the payment pending, until the completion is in the journal.
    for (at, left) in till.device().past().iter().enumerate() {
        if at >= before {
            assert_equal(&rt, &first_settled(alloc, &rt, left)?, &None);
        }
    }
    Ok(())
}

#[test]
fn no_order_is_sent_while_an_ask_runs(rt: HostRuntime) -> Result<(), Fail> {
    let alloc = rt.alloc();
    let mut till = cut_off(&rt, alloc)?;
    let size = till.device().bytes().len();
    assert!(rt; till.ask(alloc).is_ok());
    let asked = till.device().bytes().len();
    assert!(rt; asked > size);
    assert!(rt; Keeper::order(&mut till, alloc, Order::CloseDay).is_err());
    assert!(rt; till.ask(alloc).is_err());
    assert!(rt; till.device().bytes().len() == asked);
    Ok(())
}
