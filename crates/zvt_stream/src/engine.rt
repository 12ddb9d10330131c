//! Drives a line: reads messages, lets a machine process them, and writes its replies.

ghost use Rattle.std.specs.Prelude.{◌≡◌, ℕ, ◌+◌, ◌≤◌, false, List, IfOk, IfErr, IsSome, Some, MatchResult};
ghost use Rattle.std.specs.Result.{IsErrOf};
ghost use Rattle.std.specs.Io.KnownBytes.{Appends};
ghost use Rattle.zvt_stream.specs.StreamState.{IsReserved};
ghost use Rattle.zvt_stream.specs.EndState.{end_state};
ghost use Rattle.zvt_stream.specs.LineRun.{Course, Breaks, Reported, failed_writes, IsPieceFault};
ghost use Rattle.zvt_stream.specs.Pumping.{MakesTurn, MakesTurns, Pumps};
ghost use Rattle.zvt_stream.specs.Replies.{Replies, Unanswered};

use crate::line::{LineFault, Machine, Until};
use crate::stream::{FedView, FeedError, Stream};
use std::alloc::Global;
use zvt_apdu::ApduView;
use zvt_io::{Sink, Source};

/// Writes all the bytes. The only possible fault is `Write`. No machine is notified of it; that is up to the caller.
pub fn send<W: Sink>(writer: &mut W, bytes: &[u8]) -> Result<(), LineFault>
    ensures bytes { IfOk result (λ _. Appends (W.written writer.old) (W.written writer.new) bytes.now) }
    ensures err { IfErr result (λ fault. fault ≡ LineFault.Write) }
    ensures failures { MatchResult result (λ _. W.failures writer.new ≡ W.failures writer.old)
        (λ fault. W.failures writer.new ≡ W.failures writer.old + 1) }
{
    match writer.write_all(bytes) {
        Ok(()) => Ok(()),
        Err(_) => Err(LineFault::Write),
    }
}

// Lets the machine hear one message, and writes its answers. Returns whether there were any.
fn answer<W: Sink, M: Machine>(
    alloc: Global,
    writer: &mut W,
    machine: &mut M,
    apdu: &ApduView<'_>,
) -> Result<bool, LineFault>
    ensures ok { IfOk result (λ sent. Replies M.hears machine.old apdu.now machine.new (W.written writer.old)
        (W.written writer.new) sent) }
    ensures err { IfErr result (λ fault. Unanswered M.hears fault machine.old apdu.now machine.new
        (W.written writer.old) (W.written writer.new)) }
    ensures failures { MatchResult result (λ _. W.failures writer.new ≡ W.failures writer.old)
        (λ fault. W.failures writer.new ≡ W.failures writer.old + failed_writes fault) }
    ensures frugal { M.wants_memory ≡ false → IsErrOf result LineFault.Memory → ⊥ }
{
    let Ok(answers) = machine.hear(alloc, apdu) else {
        return Err(LineFault::Memory);
    };
    if answers.count() == 0 {
        return Ok(false);
    }
    match writer.write_all(answers.bytes()) {
        Ok(()) => Ok(true),
        Err(_) => Err(LineFault::Write),
    }
}

// Feeds a chunk: the machine hears each message that ends in it, and its answers are written before
// the next one is heard. Returns whether any message was written.
fn hear_piece<W: Sink, M: Machine>(
    alloc: Global,
    writer: &mut W,
    stream: &mut Stream,
    machine: &mut M,
    piece: &[u8],
) -> Result<bool, LineFault>
    ensures ok { IfOk result (λ sent. (written : List ℕ) × Appends (W.written writer.old) (W.written writer.new) written
        × Course M.hears stream.old piece.now stream.new machine.old machine.new written sent) }
    ensures err { IfErr result (λ fault. (written : List ℕ) × Appends (W.written writer.old)
        (W.written writer.new) written
        × Breaks M.hears fault stream.old piece.now stream.new machine.old machine.new written) }
    ensures kinds { IfErr result (λ fault. IsPieceFault fault) }
    ensures failures { MatchResult result (λ _. W.failures writer.new ≡ W.failures writer.old)
        (λ fault. W.failures writer.new ≡ W.failures writer.old + failed_writes fault) }
    ensures room { stream.old.room ≤ stream.new.room }
    ensures frugal { M.wants_memory ≡ false → IsReserved stream.old → IsErrOf result LineFault.Memory → ⊥ }
{
    let mut rest = piece;
    let mut sent = false;
    'messages: loop {
        match stream.feed_view(rest) {
            Ok(FedView::Message { taken }) => {
                sent |= answer(alloc, writer, machine, &stream.message())?;
                rest = &rest[taken..];
            }
            Ok(FedView::More) => return Ok(sent),
            Ok(FedView::Refused { place, why }) => return Err(LineFault::Malformed { place, why }),
            Err(FeedError::Stopped) => return Err(LineFault::Stopped),
            Err(FeedError::Memory) => return Err(LineFault::Memory),
        }
    }
}

// Reads once, and feeds what was read. Returns whether any message was written.
fn turn<R: Source, W: Sink, M: Machine>(
    alloc: Global,
    reader: &mut R,
    writer: &mut W,
    stream: &mut Stream,
    machine: &mut M,
) -> Result<bool, LineFault>
    ensures made { MakesTurn M.hears
        (end_state stream.old (R.remaining reader.old) (W.written writer.old) (R.reads reader.old)
        (R.failures reader.old) (W.failures writer.old)) machine.old
        (end_state stream.new (R.remaining reader.new) (W.written writer.new) (R.reads reader.new)
        (R.failures reader.new) (W.failures writer.new)) machine.new result }
    ensures room { stream.old.room ≤ stream.new.room }
    ensures frugal { M.wants_memory ≡ false → IsReserved stream.old → IsErrOf result LineFault.Memory → ⊥ }
{
    let have = stream.held();
    let mut buffer = [0; 1024];
    let Ok(count) = reader.read(&mut buffer) else {
        return Err(LineFault::Read);
    };
    if count == 0 {
        return Err(LineFault::Ended { have });
    }
    hear_piece(alloc, writer, stream, machine, &buffer[..count])
}

// Makes turns until the line has come to where it is to go. No fault is reported to the machine.
fn run_turns<R: Source, W: Sink, M: Machine>(
    alloc: Global,
    reader: &mut R,
    writer: &mut W,
    stream: &mut Stream,
    machine: &mut M,
    until: Until,
    turns: u64,
) -> Result<(), LineFault>
    ensures made { MakesTurns M.hears M.is_resting until turns
        (end_state stream.old (R.remaining reader.old) (W.written writer.old) (R.reads reader.old)
        (R.failures reader.old) (W.failures writer.old)) machine.old
        (end_state stream.new (R.remaining reader.new) (W.written writer.new) (R.reads reader.new)
        (R.failures reader.new) (W.failures writer.new)) machine.new result }
    ensures room { stream.old.room ≤ stream.new.room }
    ensures frugal { M.wants_memory ≡ false → IsReserved stream.old → IsErrOf result LineFault.Memory → ⊥ }
{
    // For the proof: only a call tells it the stream's invariant, that what is held begins a message.
    let _ = stream.held();
    let mut sent = false;
    'turns: for made in 0..turns {
        sent |= turn(alloc, reader, writer, stream, machine)?;
        if until.is_reached(machine.resting(), sent) {
            return Ok(());
        }
    }
    Err(LineFault::Turns)
}

/// Drives a machine over a connection until the condition `until` holds.
///
/// In each turn, `pump` reads at most 1,024 bytes, passes every message that they complete to the machine, in order,
/// and writes its answers before it passes on the next message. Fails with `Turns` after `turns` reads. With
/// `Until::Rest`, a machine that is already at rest returns immediately, without reading.
///
/// Before a fault is returned, the machine is notified once: by `malformed` of `Malformed` and `Stopped`, by `lost` of
/// any other. `Read` and `Write` mean that the reader or the writer counted a failure. After `Read`, `Ended`, `Turns`
/// and `Malformed`, every complete message was heard and answered; after `Write` and `Memory`, the first few of them;
/// after `Stopped`, none. `Memory` is impossible with a stream from `Stream::reserved` and a machine that does not
/// allocate.
pub fn pump<R: Source, W: Sink, M: Machine>(
    alloc: Global,
    reader: &mut R,
    writer: &mut W,
    stream: &mut Stream,
    machine: &mut M,
    until: Until,
    turns: u64,
) -> Result<(), LineFault>
    ensures pumps { Pumps M.hears M.is_resting until turns M.loses M.malforms
        (end_state stream.old (R.remaining reader.old) (W.written writer.old) (R.reads reader.old)
        (R.failures reader.old) (W.failures writer.old)) machine.old
        (end_state stream.new (R.remaining reader.new) (W.written writer.new) (R.reads reader.new)
        (R.failures reader.new) (W.failures writer.new)) machine.new result }
    ensures room { stream.old.room ≤ stream.new.room }
    ensures frugal { M.wants_memory ≡ false → IsReserved stream.old → IsErrOf result LineFault.Memory → ⊥ }
{
    // For the proof: only a call tells it the stream's invariant, that what is held begins a message.
    let _ = stream.held();
    if until.is_there(machine.resting()) {
        return Ok(());
    }
    let Err(fault) = run_turns(alloc, reader, writer, stream, machine, until, turns) else {
        return Ok(());
    };
    report(machine, fault);
    Err(fault)
}

// Reports a fault of its line to a machine.
fn report<M: Machine>(machine: &mut M, fault: LineFault)
    ensures { Reported M.loses M.malforms fault machine.old machine.new }
{
    match fault {
        LineFault::Malformed { .. } | LineFault::Stopped => machine.malformed(),
        _ => machine.lost(),
    }
}
