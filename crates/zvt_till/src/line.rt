//! A till on a line: as a machine that receives and answers messages, and for one order from start to end.
ghost use Rattle.std.specs.Prelude.{◌≡◌, ◌+◌, ◌≤◌, OnOk, IfOk, IfErr, MatchResult};
ghost use Rattle.std.specs.Result.{IsErrOf};
ghost use Rattle.zvt_stream.specs.StreamState.{IsReserved};
ghost use Rattle.zvt_till.specs.Line.{Sends, NotSent, Runs, Fails, IsOver, reads_failed, writes_failed};

use crate::hearing::heard_view;
use crate::keeper::{BookFault, Keeper, Untaken};
use crate::orders::{Order, OrderRefusal};
use crate::outcomes::Outcome;
use crate::till::Till;
use std::alloc::{AllocError, Global};
use thiserror::Error;
use zvt_apdu::{ApduView, MAX_BRIEF_LEN};
use zvt_io::{Sink, Source};
use zvt_stream::{Answers, LineFault, Machine, Stream, Until, pump, send};

/// A till is at rest while no order is running. It never runs out of memory.
impl Machine for Till {
    ghost use Rattle.std.specs.Prelude.{false};
    ghost use Rattle.zvt_till.specs.Line.{till_hears, till_loses, till_malforms, till_rests};

    ghost hears = { till_hears };

    ghost loses = { till_loses };

    ghost malforms = { till_malforms };

    ghost is_resting = { till_rests };

    ghost wants_memory = { false };

    fn hear(&mut self, _alloc: Global, apdu: &ApduView<'_>) -> Result<Answers, AllocError> {
        let answer = Till::hear(self, heard_view(apdu)).send;
        let mut answers = Answers::new();
        if let Some(outgoing) = answer {
            let mut buffer = [0; MAX_BRIEF_LEN];
            let size = outgoing.put(&mut buffer);
            answers.add(&buffer[..size]);
        }
        Ok(answers)
    }

    fn resting(&self) -> bool {
        self.running().is_none()
    }

    fn lost(&mut self) {
        let _ = Till::lost(self);
    }

    fn malformed(&mut self) {
        let _ = Till::malformed(self);
    }
}

/// Why an order did not run to its end.
#[derive(Clone, Copy, Debug, Drop, PartialEq, Eq, Error)]
pub enum RunFault {
    /// The till refused it. Nothing was sent or read, and the till is unchanged.
    #[error("the till refused the order: {0}")]
    Order(OrderRefusal),
    /// The line broke, and the till was notified. The till's last outcome tells how the order ended. Give the line up:
    /// a new one needs a new stream.
    #[error("the line broke: {0}. The till's last outcome tells how the order ended")]
    Line(LineFault),
    /// A record could not be added to the book. After `NoSpace` nothing was sent or read, and the till is unchanged.
    /// After `Failed` nothing more was sent, the till has lost its line, and its last outcome tells how the order
    /// ended. A till alone never returns this.
    #[error("{0}")]
    Book(BookFault),
}

impl From<Untaken> for RunFault {
    ghost use Rattle.zvt_till.specs.Line.{fault_of};

    ghost from_gives = { λ why fault. fault ≡ fault_of why };

    fn from(why: Untaken) -> RunFault {
        match why {
            Untaken::Order(why) => RunFault::Order(why),
            Untaken::Book(why) => RunFault::Book(why),
        }
    }
}

/// Gives the till an order and sends its message. Sends nothing if the order is not accepted. If the write fails, the
/// till loses its line and the fault is `Write`.
pub fn send_order<W: Sink, K: Keeper>(
    alloc: Global,
    writer: &mut W,
    till: &mut K,
    order: Order,
) -> Result<(), RunFault>
    ensures ok { OnOk result (Sends K.orders order till.old till.new (W.written writer.old) (W.written writer.new)) }
    ensures err { IfErr result (λ fault.
        NotSent K.orders K.loses fault order till.old till.new (W.written writer.old) (W.written writer.new)) }
    ensures failures { MatchResult result (λ _. W.failures writer.new ≡ W.failures writer.old)
        (λ fault. W.failures writer.new ≡ W.failures writer.old + writes_failed fault) }
{
    let outgoing = till.order(alloc, order)?;
    let mut buffer = [0; MAX_BRIEF_LEN];
    let size = outgoing.put(&mut buffer);
    if let Err(fault) = send(writer, &buffer[..size]) {
        till.lost();
        return Err(RunFault::Line(fault));
    }
    Ok(())
}

/// Gives the till an order, and pumps the line until no order is running, for at most `turns` turns of one read each.
/// Returns the outcome of the order.
///
/// A till with a book records each event in its book before anything follows from it: the order before its first byte
/// is sent, and each message before its answer is sent and before its outcome is returned. Over a stream from
/// `Stream::reserved`, no line breaks because memory ran out.
pub fn run_order<R: Source, W: Sink, K: Keeper>(
    alloc: Global,
    reader: &mut R,
    writer: &mut W,
    stream: &mut Stream,
    till: &mut K,
    order: Order,
    turns: u64,
) -> Result<Outcome, RunFault>
    ensures ok { IfOk result (λ outcome.
        Runs K.orders K.hears K.is_resting K.failed K.till order outcome stream.old stream.new till.old till.new
        (R.remaining reader.old) (R.remaining reader.new) (W.written writer.old) (W.written writer.new)
        turns (R.reads reader.old) (R.reads reader.new)) }
    ensures err { IfErr result (λ fault.
        Fails K.orders K.hears K.is_resting K.failed K.loses K.malforms fault order stream.old stream.new
        till.old till.new
        (R.remaining reader.old) (R.remaining reader.new) (W.written writer.old) (W.written writer.new)
        turns (R.reads reader.old) (R.reads reader.new)) }
    // Whatever the result, it uses the capacity of at most one payment.
    ensures room { (K.till till.old).spare ≤ (K.till till.new).spare + 1 }
    // After a broken line, or a book that failed, the outcome of the order is known.
    ensures over { IfErr result (λ fault. IsOver fault (K.till till.new).state) }
    ensures reads { R.reads reader.new ≤ R.reads reader.old + turns }
    ensures frugal { IsReserved stream.old → IsErrOf result (RunFault.Line LineFault.Memory) → ⊥ }
    ensures reader_failures { MatchResult result (λ _. R.failures reader.new ≡ R.failures reader.old)
        (λ fault. R.failures reader.new ≡ R.failures reader.old + reads_failed fault) }
    ensures writer_failures { MatchResult result (λ _. W.failures writer.new ≡ W.failures writer.old)
        (λ fault. W.failures writer.new ≡ W.failures writer.old + writes_failed fault) }
{
    if let Err(fault) = send_order(alloc, writer, till, order) {
        return Err(fault);
    }
    if let Err(fault) = pump(alloc, reader, writer, stream, till, Until::Rest, turns) {
        return Err(RunFault::Line(fault));
    }
    if till.has_failed() {
        return Err(RunFault::Book(BookFault::Failed));
    }
    match till.look().last_outcome() {
        Some(outcome) => Ok(outcome),
        None => Err(RunFault::Line(LineFault::Turns)),
    }
}
