//! One ask of a till on a line, from start to end.
ghost use Rattle.std.specs.Prelude.{◌≡◌, ◌+◌, ◌≤◌, OnOk, IfErr, MatchResult};
ghost use Rattle.std.specs.Result.{IsErrOf};
ghost use Rattle.zvt_stream.specs.EndState.{end_state};
ghost use Rattle.zvt_stream.specs.StreamState.{IsReserved};
ghost use Rattle.zvt_till.specs.Line.{reads_failed, writes_failed};
ghost use Rattle.zvt_settle.specs.Askers.{both_as};
ghost use Rattle.zvt_settle.specs.AskRuns.{AskRuns, IsSilentAfter, NotAsked, Rests, SendsAsk};

use crate::asking::Asker;
use std::alloc::Global;
use zvt_io::{Sink, Source};
use zvt_stream::{LineFault, Stream, Until, pump, send};
use zvt_till::{BookFault, RunFault};

/// Lets the till ask, and sends its message. Sends nothing if the ask is not accepted. If the write fails, the till
/// loses its line and the fault is `Write`.
fn send_ask<W: Sink, K: Asker>(alloc: Global, writer: &mut W, till: &mut K) -> Result<(), RunFault>
    ensures ok { OnOk result (SendsAsk K.asks till.old till.new (W.written writer.old) (W.written writer.new)) }
    ensures err { IfErr result (λ fault.
        NotAsked K.asks K.loses fault till.old till.new (W.written writer.old) (W.written writer.new)) }
    ensures failures { MatchResult result (λ _. W.failures writer.new ≡ W.failures writer.old)
        (λ fault. W.failures writer.new ≡ W.failures writer.old + writes_failed fault) }
{
    let message = till.ask(alloc)?;
    if let Err(fault) = send(writer, &message) {
        till.lost();
        return Err(RunFault::Line(fault));
    }
    Ok(())
}

/// Lets the till ask its terminal to repeat the last receipt, and pumps the line until neither an order nor an ask is
/// running, for at most `turns` turns of one read each. Then [`Asker::settling`] says what was settled.
///
/// A till with a book records each event in its book before anything follows from it: the ask before its first byte is
/// sent, and each message before its answer is sent. Over a stream from `Stream::reserved`, no line breaks because
/// memory ran out.
pub fn run_ask<R: Source, W: Sink, K: Asker>(
    alloc: Global,
    reader: &mut R,
    writer: &mut W,
    stream: &mut Stream,
    till: &mut K,
    turns: u64,
) -> Result<(), RunFault>
    ensures runs { AskRuns K.asks K.hears K.is_resting turns K.loses K.malforms K.failed result
        (end_state stream.old (R.remaining reader.old) (W.written writer.old) (R.reads reader.old)
        (R.failures reader.old) (W.failures writer.old))
        (end_state stream.new (R.remaining reader.new) (W.written writer.new) (R.reads reader.new)
        (R.failures reader.new) (W.failures writer.new)) till.old till.new }
    ensures rests { OnOk result (Rests (both_as (K.till till.new) (K.settling till.new))) }
    // After a broken line, or a book that failed, nothing is running.
    ensures over { IfErr result (λ fault. IsSilentAfter fault (both_as (K.till till.new) (K.settling till.new))) }
    ensures reads { R.reads reader.new ≤ R.reads reader.old + turns }
    ensures frugal { IsReserved stream.old → IsErrOf result (RunFault.Line LineFault.Memory) → ⊥ }
    ensures reader_failures { MatchResult result (λ _. R.failures reader.new ≡ R.failures reader.old)
        (λ fault. R.failures reader.new ≡ R.failures reader.old + reads_failed fault) }
    ensures writer_failures { MatchResult result (λ _. W.failures writer.new ≡ W.failures writer.old)
        (λ fault. W.failures writer.new ≡ W.failures writer.old + writes_failed fault) }
{
    if let Err(fault) = send_ask(alloc, writer, till) {
        return Err(fault);
    }
    if let Err(fault) = pump(alloc, reader, writer, stream, till, Until::Rest, turns) {
        return Err(RunFault::Line(fault));
    }
    if till.has_failed() {
        return Err(RunFault::Book(BookFault::Failed));
    }
    Ok(())
}
