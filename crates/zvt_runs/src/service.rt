//! A simulated terminal on a connection.
ghost use Rattle.std.specs.Prelude.{◌≡◌, true};
ghost use Rattle.zvt_stream.specs.EndState.{end_state};
ghost use Rattle.zvt_term.specs.Extended.{holds_payment};
ghost use Rattle.zvt_runs.specs.Service.{Decided, Serves, ServesUntil, Stepped, until_of};

use std::alloc::Global;
use zvt_io::{Sink, Source};
use zvt_stream::{Endpoint, LineFault, Machine, Until, pump};
use zvt_term::Extended;

/// The number of reads before a terminal gives up its connection.
const READS_OF_A_SERVICE: u64 = 1_000_000;

/// How long a terminal holds a payment before it decides.
pub trait Delay {
    /// Starts the delay.
    fn start(&mut self);

    /// Waits until the other end has sent something or the delay is over, and returns whether it is over.
    fn is_over(&mut self) -> bool;
}

/// Lets the terminal answer incoming messages until the connection ends, and then notifies it. When the delay of a
/// payment is over, the terminal decides it.
///
/// Returns `Ok` if the connection ends between two messages, and the fault if it ends in any other way.
pub fn serve<R: Source, W: Sink, D: Delay>(
    alloc: Global,
    end: &mut Endpoint<R, W>,
    served: &mut Extended,
    delay: &mut D,
) -> Result<(), LineFault>
    ensures { Serves
        (end_state end.old.stream (R.remaining end.old.reader) (W.written end.old.writer) (R.reads end.old.reader)
        (R.failures end.old.reader) (W.failures end.old.writer)) served.old
        (end_state end.new.stream (R.remaining end.new.reader) (W.written end.new.writer) (R.reads end.new.reader)
        (R.failures end.new.reader) (W.failures end.new.writer)) served.new
        result }
{
    match take_steps(alloc, end, served, delay) {
        LineFault::Ended { have: 0 } => Ok(()),
        fault => Err(fault),
    }
}

/// Takes steps until the line breaks, and returns how it broke.
fn take_steps<R: Source, W: Sink, D: Delay>(
    alloc: Global,
    end: &mut Endpoint<R, W>,
    served: &mut Extended,
    delay: &mut D,
) -> LineFault
    ensures { ServesUntil result
        (end_state end.old.stream (R.remaining end.old.reader) (W.written end.old.writer) (R.reads end.old.reader)
        (R.failures end.old.reader) (W.failures end.old.writer)) served.old
        (end_state end.new.stream (R.remaining end.new.reader) (W.written end.new.writer) (R.reads end.new.reader)
        (R.failures end.new.reader) (W.failures end.new.writer)) served.new }
{
    'steps: for taken in 0..READS_OF_A_SERVICE {
        if let Err(fault) = take_step(alloc, end, served, delay) {
            return fault;
        }
    }
    served.lost();
    LineFault::Turns
}

/// Takes one step: decides the payment that is held if its delay is over, and otherwise answers incoming messages.
fn take_step<R: Source, W: Sink, D: Delay>(
    alloc: Global,
    end: &mut Endpoint<R, W>,
    served: &mut Extended,
    delay: &mut D,
) -> Result<(), LineFault>
    ensures { Stepped
        (end_state end.old.stream (R.remaining end.old.reader) (W.written end.old.writer) (R.reads end.old.reader)
        (R.failures end.old.reader) (W.failures end.old.writer)) served.old
        (end_state end.new.stream (R.remaining end.new.reader) (W.written end.new.writer) (R.reads end.new.reader)
        (R.failures end.new.reader) (W.failures end.new.writer)) served.new
        result }
{
    let until = until_of(served);
    if served.held.is_some() && delay.is_over() {
        return decide(end, served);
    }
    pump(
        alloc,
        &mut end.reader,
        &mut end.writer,
        &mut end.stream,
        served,
        until,
        READS_OF_A_SERVICE,
    )?;
    if matches!(until, Until::Rest) {
        delay.start();
    }
    Ok(())
}

/// Decides the payment that is held, and writes what follows its acknowledgement.
fn decide<R: Source, W: Sink>(
    end: &mut Endpoint<R, W>,
    served: &mut Extended,
) -> Result<(), LineFault>
    requires { holds_payment served.old ≡ true }
    ensures { Decided
        (end_state end.old.stream (R.remaining end.old.reader) (W.written end.old.writer) (R.reads end.old.reader)
        (R.failures end.old.reader) (W.failures end.old.writer)) served.old
        (end_state end.new.stream (R.remaining end.new.reader) (W.written end.new.writer) (R.reads end.new.reader)
        (R.failures end.new.reader) (W.failures end.new.writer)) served.new
        result }
{
    let Ok(answers) = served.elapse() else {
        served.lost();
        return Err(LineFault::Memory);
    };
    match end.writer.write_all(answers.bytes()) {
        Ok(()) => Ok(()),
        Err(_) => {
            served.lost();
            Err(LineFault::Write)
        }
    }
}

/// Returns how long a terminal reads: until it holds a payment, or one read at a time while it holds one.
fn until_of(served: &Extended) -> Until
    ensures { result ≡ until_of served.now }
{
    if served.held.is_some() {
        Until::Sent
    } else {
        Until::Rest
    }
}
