//! The program's library (`zvt_tool`).
use std::alloc::Global;
use std::io;
use std::net::TcpListener;
use zvt_io::Over;
use zvt_stream::LineFault;
use zvt_term::Verdict;
use zvt_tool::{
    Choice, ChoiceFault, Tally, ToolFault, audit, choice, join, normalise_trace, receipts,
    run_loop, run_terminal, run_till, show, show_loose, vectors,
};
use zvt_trace::TraceLineError;

const TRACE: &[u8] = b"< 80 00 00\n";

pub fn all(rt: &HostRuntime) -> bool {
    let alloc = rt.alloc();
    traces(alloc)
        && loose(alloc)
        && checked(alloc)
        && chosen(alloc)
        && others().len() == 5
        && matches!(runs(rt), Ok(true))
}

/// The device of a command's text.
type Written = Over<Vec<u8>>;

fn written(alloc: Global) -> Written {
    Over::new(Vec::new(alloc))
}

fn is_one(answer: &Result<Tally, ToolFault>) -> bool {
    matches!(
        answer,
        Ok(Tally {
            messages: 1,
            bad: 0
        })
    )
}

fn traces(alloc: Global) -> bool {
    let shown = show(alloc, &mut Over::new(TRACE), &mut written(alloc));
    let joined = join(alloc, &mut Over::new(TRACE), &mut written(alloc));
    let audited = audit(alloc, &mut Over::new(TRACE), &mut written(alloc));
    let printed = receipts(alloc, &mut Over::new(TRACE), &mut written(alloc));
    is_one(&shown) && is_one(&joined) && is_one(&audited) && is_one(&printed)
}

fn loose(alloc: Global) -> bool {
    let shown = show_loose(alloc, &mut Over::new(TRACE), &mut written(alloc));
    let normal = normalise_trace(alloc, &mut Over::new(TRACE), &mut written(alloc));
    is_one(&shown) && is_one(&normal)
}

/// Vectors are checked, and what is no line of them is named.
fn checked(alloc: Global) -> bool {
    let text = b"06 0F 03 06 = refused at 3: DoesNotFit\n".as_slice();
    let right = vectors(alloc, &mut Over::new(text), &mut written(alloc));
    let wrong = vectors(alloc, &mut Over::new(TRACE), &mut written(alloc));
    let what = match wrong {
        Err(ToolFault::Trace { line: 1, what }) => Some(what),
        _ => None,
    };
    is_one(&right) && what == Some(TraceLineError::Form)
}

fn chosen(alloc: Global) -> bool {
    let joins: Result<Choice, ChoiceFault> = choice(alloc, &["zvt", "join"]);
    let none: Result<Choice, ChoiceFault> = choice(alloc, &["zvt", "no-command"]);
    matches!(joins, Ok(Choice::Join(_))) && matches!(none, Err(ChoiceFault::Words(_)))
}

/// Both ends run; a port that is taken, and one at which nothing listens, give no connection.
fn runs(rt: &HostRuntime) -> io::Result<bool> {
    let alloc = rt.alloc();
    let looped = run_loop(rt, alloc, &["register", "close"], &mut written(alloc));
    let listener = TcpListener::bind(rt, "127.0.0.1:0")?;
    let port = listener.local_addr()?.port();
    let taken = run_terminal(rt, alloc, port, 12_345_678, Verdict::Approve, false);
    drop(listener);
    let alone = run_till(
        rt,
        alloc,
        "127.0.0.1",
        port,
        &[],
        &mut written(alloc),
        false,
    );
    Ok(looped.is_ok() && is_unconnected(&taken) && is_unconnected(&alone) && stops(rt))
}

fn is_unconnected(ended: &Result<(), ToolFault>) -> bool {
    matches!(ended, Err(ToolFault::Net))
}

/// A word that names no step is named by its place.
fn stops(rt: &HostRuntime) -> bool {
    let ended = run_loop(rt, rt.alloc(), &["pay:0"], &mut written(rt.alloc()));
    matches!(ended, Err(ToolFault::BadStep { at: 0 }))
}

/// The faults that no call above returns.
fn others() -> [ToolFault; 5] {
    [
        ToolFault::TooLong,
        ToolFault::Read,
        ToolFault::Write,
        ToolFault::Memory,
        ToolFault::Line(LineFault::Turns),
    ]
}
