//! Walks over a trace with a listener of its own, which counts the messages of each side.

use std::io;
use zvt_grammar::Lengths;
use zvt_io::Over;
use zvt_trace::{Direction, Listener, ListenerError, Scope, TraceEvent, read_trace, walk};

/// A trace: the till asks for 12.34, and the terminal acknowledges the order.
pub const TRACE: &[u8] = b"> 06 01 07 04 00 00 00 00 12 34\n< 80 00 00\n";

/// How many whole messages each side sent.
#[derive(Drop)]
struct Counts {
    till: u64,
    terminal: u64,
}

/// It never fails.
impl Listener for Counts {
    ghost use Rattle.std.specs.Prelude.{◌≡◌};
    ghost use Rattle.uses.specs.Counting.{counted};

    ghost hears = { λ old at new. new ≡ counted old at.trace_event };

    ghost fails = { λ _ _ _ _. ⊥ };

    fn hear(&mut self, _line: u64, trace_event: &TraceEvent<'_>) -> Result<(), ListenerError> {
        if let TraceEvent::Message { from, .. } = trace_event {
            match from {
                Direction::FromTill => self.till = self.till.saturating_add(1),
                Direction::FromTerminal => self.terminal = self.terminal.saturating_add(1),
            }
        }
        Ok(())
    }
}

/// Prints how many messages each side of the trace sent, or why the trace can't be read.
pub fn print_counts(rt: &HostRuntime, text: &[u8]) -> io::Result<()> {
    let trace = match read_trace(rt.alloc(), &mut Over::new(text)) {
        Ok(trace) => trace,
        Err(fault) => return println!(rt; "listen: {fault}"),
    };
    let mut counts = Counts {
        till: 0,
        terminal: 0,
    };
    match walk(
        &mut counts,
        rt.alloc(),
        Scope::OneSide,
        Lengths::Shortest,
        trace.as_slice(),
    ) {
        Ok(_) => println!(rt;
            "listen: {} from the till, {} from the terminal",
            counts.till, counts.terminal
        ),
        Err(fault) => println!(rt; "listen: {fault}"),
    }
}
