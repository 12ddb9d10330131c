//! One end of a connection, at which a machine takes its turns.
ghost use Rattle.std.specs.Prelude.{MatchResult};
ghost use Rattle.zvt_stream.specs.EndState.{EndState};
ghost use Rattle.zvt_runs.specs.LineEnd.{NotOrdered, Ordered, TakesTurn};

use std::alloc::Global;
use zvt_io::{Sink, Source};
use zvt_stream::{Endpoint, LineFault, Machine, Until, pump};
use zvt_till::{Keeper, Order, RunFault, send_order};

/// The number of reads in one turn.
const READS_OF_A_TURN: u64 = 1_000;

/// One end of a line.
pub trait LineEnd {
    /// The state of the end: its stream, the bytes still to come, the bytes written, the number of reads, and the
    /// numbers of failed reads and writes.
    ghost state: { Self → EndState };

    /// Gives the till an order and writes its message. If the write fails, the till loses its line and the result is
    /// `Write`.
    fn order<K: Keeper>(
        &mut self,
        alloc: Global,
        till: &mut K,
        order: Order,
    ) -> Result<(), RunFault>
        ensures { MatchResult result
            (λ _. Ordered K.orders order (state self.old) till.old (state self.new) till.new)
            (λ fault. NotOrdered K.orders K.loses fault order (state self.old) till.old (state self.new) till.new) };

    /// Lets the machine read until it has written a message or is at rest. Notifies it of a fault.
    fn turn<M: Machine>(&mut self, alloc: Global, machine: &mut M) -> Result<(), LineFault>
        ensures { TakesTurn M.hears M.is_resting M.loses M.malforms (state self.old) machine.old (state self.new)
            machine.new result };
}

impl<R: Source, W: Sink> LineEnd for Endpoint<R, W> {
    ghost use Rattle.zvt_stream.specs.EndState.{end_state};

    ghost state = { λ end. end_state end.stream (R.remaining end.reader) (W.written end.writer) (R.reads end.reader)
        (R.failures end.reader) (W.failures end.writer) };

    fn order<K: Keeper>(
        &mut self,
        alloc: Global,
        till: &mut K,
        order: Order,
    ) -> Result<(), RunFault> {
        send_order(alloc, &mut self.writer, till, order)
    }

    fn turn<M: Machine>(&mut self, alloc: Global, machine: &mut M) -> Result<(), LineFault> {
        pump(
            alloc,
            &mut self.reader,
            &mut self.writer,
            &mut self.stream,
            machine,
            Until::Sent,
            READS_OF_A_TURN,
        )
    }
}
