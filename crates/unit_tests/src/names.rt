//! Words that no run of the program prints, and those that say how a line broke.
use crate::assertions::assert_equal;
use std::alloc::Global;
use std::fmt::Display;
use std::process::Abort;
use std::test::Fail;
use zvt_grammar::Why;
use zvt_stream::LineFault;
use zvt_till::OrderRefusal;

/// Each value is written as the words beside it.
fn are_written<T: Display>(rt: &impl Abort, alloc: Global, rows: &[(T, &str)]) -> Result<(), Fail> {
    for (value, wanted) in rows {
        let text = format!(in alloc; "{value}")?;
        assert_equal(rt, &text.as_str(), wanted);
    }
    Ok(())
}

#[test]
fn refusals_have_names(rt: HostRuntime) -> Result<(), Fail> {
    let rows = [
        (OrderRefusal::Offline, "Offline"),
        (OrderRefusal::NotRegistered, "NotRegistered"),
        (OrderRefusal::Busy, "Busy"),
        (OrderRefusal::NothingToCancel, "NothingToCancel"),
        (OrderRefusal::BookFull, "BookFull"),
        (OrderRefusal::UnknownEntry, "UnknownEntry"),
        (OrderRefusal::AlreadyReversed, "AlreadyReversed"),
        (OrderRefusal::NoReceipt, "NoReceipt"),
        (OrderRefusal::Memory, "Memory"),
    ];
    are_written(&rt, rt.alloc(), &rows)
}

#[test]
fn broken_lines_say_how_they_broke(rt: HostRuntime) -> Result<(), Fail> {
    let malformed = LineFault::Malformed {
        place: 3,
        why: Why::DoesNotFit,
    };
    let rows = [
        (
            LineFault::Read,
            "reading failed; the other end may have reset the connection",
        ),
        (LineFault::Write, "a write failed"),
        (
            LineFault::Ended { have: 4 },
            "the other end closed the connection after 4 bytes of a message",
        ),
        (
            LineFault::Turns,
            "gave up: the exchange was not finished within the read limit",
        ),
        (
            malformed,
            "the other end sent an invalid message, refused at 3: DoesNotFit",
        ),
        (LineFault::Memory, "out of memory"),
        (
            LineFault::Stopped,
            "the other end already sent an invalid message on this connection",
        ),
    ];
    are_written(&rt, rt.alloc(), &rows)
}
