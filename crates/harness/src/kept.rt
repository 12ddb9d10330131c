//! Payments of a till that keeps its book in a file, which `bench/journal` times.
ghost use Rattle.std.specs.Prelude.{◌≤◌};

use crate::ordering::order_at;
use crate::timed::{APPROVED, REGISTERED, approved, price};
use std::alloc::Global;
use std::io::{self, Cursor};
use zvt_io::Over;
use zvt_journal::{FileDevice, open_file};
use zvt_kept::KeptTill;
use zvt_stream::{Endpoint, Stream};
use zvt_till::{Keeper, Order, TillSettings};

/// Takes that many payments, 10,000 at most, with a new book in this file, and prints what came of it.
pub fn run(rt: &HostRuntime, path: &str, payments: u32) -> io::Result<()> {
    let payments = payments.min(10_000);
    let Some(mut kept) = new_book(rt, path) else {
        return eprintln!(rt; "harness: no new book can be begun in this file");
    };
    if ordered(rt.alloc(), &mut kept, payments).is_none() {
        return eprintln!(rt; "harness: an order did not come to its end");
    }
    let (entries, total) = (kept.till().book().len(), kept.till().total());
    println!(rt; "{payments} payments kept: {entries} booked, {total} in all")
}

/// A till whose line is up, with a book in a file that is not there yet.
fn new_book(rt: &HostRuntime, path: &str) -> Option<KeptTill<FileDevice>> {
    let Ok(opened) = open_file(rt.alloc(), path.as_bytes()).answer else {
        return None;
    };
    if !opened.text.is_empty() {
        return None;
    }
    let Ok(mut kept) = KeptTill::create(rt.alloc(), &TillSettings::default(), opened.device) else {
        return None;
    };
    match kept.connect(rt.alloc()) {
        Ok(()) => Some(kept),
        Err(_) => None,
    }
}

/// Registers, and makes that many orders to pay, each run to its end over memory.
fn ordered(alloc: Global, kept: &mut KeptTill<FileDevice>, payments: u32) -> Option<()>
    requires { payments ≤ 10000 }
{
    let mut end = Endpoint {
        reader: Over::new(REGISTERED.as_slice()),
        writer: Over::new(Vec::new(alloc)),
        stream: Stream::new(alloc),
    };
    order_at(alloc, &mut end, kept, Order::Register, 1).ok()?;
    let mut end = Endpoint {
        reader: Over::new(Cursor::new(APPROVED)),
        writer: end.writer,
        stream: end.stream,
    };
    for number in 0..payments {
        end.reader = Over::new(Cursor::new(approved(number)));
        order_at(alloc, &mut end, kept, Order::Pay(price()), 1).ok()?;
    }
    Some(())
}
