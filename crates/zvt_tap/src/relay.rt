//! Forwards bytes from each side of a line to the other.
ghost use Rattle.std.specs.Prelude.{◌≡◌, ◌+◌, ℕ, MatchOption};
ghost use Rattle.zvt_tap.specs.Chunks.{sides};
ghost use Rattle.zvt_tap.specs.Relay.{AnswersPass, AnswersRelay, AnswersTurn, CountsFaults, Waits, ended_after};
ghost use Rattle.zvt_tap.specs.Watching.{Loses, ObservesAll, ObservesUntil, Records};

use crate::fault::TapFault;
use crate::watched::Watched;
use zvt_io::{Failed, Sink, Source};
use zvt_trace::{Direction, ListenerError, Observer};

/// The largest chunk that is read, observed and written at once, in bytes. The trace writer has memory for the line of
/// such a chunk from its start.
pub const MAX_CHUNK: usize = 4_096;

/// Decides which side to read next. The relay is correct for every order.
pub trait Readiness {
    /// How often it was waited.
    ghost waits: { Self → ℕ };

    /// How often nobody could wait.
    ghost failures: { Self → ℕ };

    /// Waits until bytes from a side can be read, or it has come to its end, and answers which side. `None` where
    /// nobody can wait.
    fn next(&mut self) -> Option<Direction>
        ensures counted { waits self.new ≡ waits self.old + 1 }
        ensures failures { MatchOption result (failures self.new ≡ failures self.old + 1)
            (λ _. failures self.new ≡ failures self.old) };

    /// Hands on to the other side that no more bytes come from this one, which has come to its end.
    fn end(&mut self, from: Direction)
        ensures counted { waits self.new ≡ waits self.old }
        ensures failures { failures self.new ≡ failures self.old };
}

/// The devices of both sides of a line.
#[derive(Drop)]
pub struct Ends<R, W> {
    pub till: R,
    pub terminal: R,
    pub to_terminal: W,
    pub to_till: W,
}

/// Forwards everything that one side sends to the other, in chunks of at most [`MAX_CHUNK`] bytes, until both sides
/// have closed. Each chunk is recorded before it is written, and watched afterwards. No watcher ends a line.
///
/// Fails with `Read` or `Write` if a device fails. Fails with `Trace` if the recorder could not write a chunk, and with
/// `Memory` if it had no memory for one; that chunk is not passed on. Fails with `Wait` if waiting for the devices
/// fails, or after 2⁶⁴ − 1 waits.
pub fn run_relay<L: Readiness, R: Source, W: Sink, K: Observer, V: Observer>(
    line: &mut L,
    ends: &mut Ends<R, W>,
    log: &mut Watched<K, V>,
) -> Result<(), TapFault>
    ensures relayed { AnswersRelay
        (λ chunks. ObservesAll (Records K.observes K.misses V.observes V.misses) log.old chunks log.new)
        (λ why chunks last. ObservesUntil (Records K.observes K.misses V.observes V.misses)
        (Loses K.observes K.misses V.observes V.misses) log.old chunks last why log.new)
        (sides (R.remaining ends.old.till) (R.remaining ends.old.terminal) (W.written ends.old.to_terminal)
        (W.written ends.old.to_till))
        (sides (R.remaining ends.new.till) (R.remaining ends.new.terminal) (W.written ends.new.to_terminal)
        (W.written ends.new.to_till)) result }
    ensures faults { CountsFaults (R.failures ends.old.till + R.failures ends.old.terminal)
        (R.failures ends.new.till + R.failures ends.new.terminal)
        (W.failures ends.old.to_terminal + W.failures ends.old.to_till)
        (W.failures ends.new.to_terminal + W.failures ends.new.to_till) result }
    ensures waits { Waits (L.waits line.new) (L.failures line.old) (L.failures line.new) result }
{
    let mut ended = Ended {
        till: false,
        terminal: false,
    };
    for _turn in 0..u64::MAX {
        let Some(from) = line.next() else {
            return Err(TapFault::Wait);
        };
        if turn(from, ends, log)? {
            continue;
        }
        line.end(from);
        ended = ended.after(from);
        if ended.till && ended.terminal {
            return Ok(());
        }
    }
    Err(TapFault::Wait)
}

/// Which sides have come to their end.
#[derive(Clone, Copy)]
struct Ended {
    till: bool,
    terminal: bool,
}

impl Ended {
    /// The sides that have, once this one has.
    fn after(self, from: Direction) -> Ended
        ensures { result ≡ ended_after from self }
    {
        match from {
            Direction::FromTill => Ended {
                till: true,
                terminal: self.terminal,
            },
            Direction::FromTerminal => Ended {
                till: self.till,
                terminal: true,
            },
        }
    }
}

/// Passes one chunk from this side on. `false` where it has come to its end.
fn turn<R: Source, W: Sink, K: Observer, V: Observer>(
    from: Direction,
    ends: &mut Ends<R, W>,
    log: &mut Watched<K, V>,
) -> Result<bool, TapFault>
    ensures passed { AnswersTurn from
        (λ bytes. Records K.observes K.misses V.observes V.misses log.old from bytes log.new)
        (λ why bytes. Loses K.observes K.misses V.observes V.misses log.old from bytes why log.new)
        (log.new ≡ log.old)
        (sides (R.remaining ends.old.till) (R.remaining ends.old.terminal) (W.written ends.old.to_terminal)
        (W.written ends.old.to_till))
        (sides (R.remaining ends.new.till) (R.remaining ends.new.terminal) (W.written ends.new.to_terminal)
        (W.written ends.new.to_till)) result }
    ensures faults { CountsFaults (R.failures ends.old.till + R.failures ends.old.terminal)
        (R.failures ends.new.till + R.failures ends.new.terminal)
        (W.failures ends.old.to_terminal + W.failures ends.old.to_till)
        (W.failures ends.new.to_terminal + W.failures ends.new.to_till) result }
{
    match from {
        Direction::FromTill => pass(from, &mut ends.till, &mut ends.to_terminal, log),
        Direction::FromTerminal => pass(from, &mut ends.terminal, &mut ends.to_till, log),
    }
}

/// Reads a chunk, records it, writes it, and has it watched. `false` where the reader has come to its end.
fn pass<R: Source, W: Sink, K: Observer, V: Observer>(
    from: Direction,
    reader: &mut R,
    writer: &mut W,
    log: &mut Watched<K, V>,
) -> Result<bool, TapFault>
    ensures passed { AnswersPass from
        (λ bytes. Records K.observes K.misses V.observes V.misses log.old from bytes log.new)
        (λ why bytes. Loses K.observes K.misses V.observes V.misses log.old from bytes why log.new)
        (log.new ≡ log.old) (R.remaining reader.old) (R.remaining reader.new) (W.written writer.old)
        (W.written writer.new) result }
    ensures faults { CountsFaults (R.failures reader.old) (R.failures reader.new) (W.failures writer.old)
        (W.failures writer.new) result }
{
    let mut buffer = [0; MAX_CHUNK];
    let Ok(count) = reader.read(&mut buffer) else {
        return Err(TapFault::Read(from));
    };
    if count == 0 {
        return Ok(false);
    }
    let bytes = &buffer[..count];
    match log.recorder.observe(from, bytes) {
        Ok(()) => {
            let written = writer.write_all(bytes);
            log.watch(from, bytes);
            match written {
                Ok(()) => Ok(true),
                Err(Failed) => Err(TapFault::Write(from)),
            }
        }
        Err(ListenerError::Memory) => Err(TapFault::Memory),
        Err(ListenerError::Write) => {
            log.watch(from, bytes);
            Err(TapFault::Trace)
        }
    }
}
