//! Refused messages, known by their control bytes.
ghost use Rattle.std.specs.Prelude.{MatchResult};
ghost use Rattle.zvt_grammar.specs.Reading.{shortest};
ghost use Rattle.zvt_apdu.specs.Grammar.{Spells};
ghost use Rattle.zvt_apdu.specs.Message.{Message};
ghost use Rattle.zvt_stream.specs.declared.head.Head.TheVariants.{Two};
ghost use Rattle.zvt_trace.specs.TraceEvent as trace_event;
ghost use Rattle.zvt_trace.specs.TraceEvent.{on};
ghost use Rattle.zvt_audit.specs.ByControl.{known_by};

use zvt_apdu::{Kind, kind_at, view};
use zvt_grammar::Lengths;
use zvt_stream::Head;
use zvt_trace::{Direction, Listener, ListenerError, Scope, TraceEvent};

/// A listener that hears of a refused message what its control bytes say, where the scope is `OneMessage`: an order, a
/// status without a result and an amount, or the end of an order. In every other scope, it hears the refusal.
#[derive(Drop)]
pub struct ByControl<L> {
    pub listener: L,
    pub scope: Scope,
    /// The number of refused messages that were passed over. It saturates.
    pub passed: u64,
}

impl<L: Listener> Listener for ByControl<L> {
    ghost use Rattle.zvt_audit.specs.ByControl.{FailsBy, HearsBy};

    ghost hears = { λ old event new. HearsBy L.hears old event new };

    ghost fails = { λ old event failure new. FailsBy L.fails old event failure new };

    #[inline(always)]
    fn hear(&mut self, line: u64, trace_event: &TraceEvent<'_>) -> Result<(), ListenerError> {
        match (trace_event, self.scope) {
            (TraceEvent::Refused { from, refusal }, Scope::OneMessage) => {
                self.passed = self.passed.saturating_add(1);
                hear_control(&mut self.listener, line, *from, refusal.head())
            }
            _ => self.listener.hear(line, trace_event),
        }
    }
}

/// Lets the listener hear what the control bytes of a refused message say.
#[cold]
#[inline(never)]
fn hear_control<L: Listener>(
    listener: &mut L,
    line: u64,
    from: Direction,
    head: Head,
) -> Result<(), ListenerError>
    ensures { MatchResult result
        (λ _. L.hears listener.old (on line (known_by from head)) listener.new)
        (λ failure. L.fails listener.old (on line (known_by from head)) failure listener.new) }
{
    match head {
        Head::Two(high, low) => hear_named(listener, line, from, high, low),
        Head::Empty | Head::One(_) => listener.hear(line, &TraceEvent::Unread { from }),
    }
}

/// Lets the listener hear what these control bytes say.
fn hear_named<L: Listener>(
    listener: &mut L,
    line: u64,
    from: Direction,
    high: u8,
    low: u8,
) -> Result<(), ListenerError>
    ensures { MatchResult result
        (λ _. L.hears listener.old (on line (known_by from (Two high low))) listener.new)
        (λ failure. L.fails listener.old (on line (known_by from (Two high low))) failure listener.new) }
{
    match kind_at(high, low) {
        Kind::Registration => hear_bytes(listener, line, from, &[0x06, 0x00, 4, 0, 0, 0, 0]),
        Kind::Authorisation => hear_bytes(listener, line, from, &[0x06, 0x01, 0]),
        Kind::Reversal => hear_bytes(listener, line, from, &[0x06, 0x30, 3, 0, 0, 0]),
        Kind::EndOfDay => hear_bytes(listener, line, from, &[0x06, 0x50, 3, 0, 0, 0]),
        Kind::AbortOrder => hear_bytes(listener, line, from, &[0x06, 0xB0, 0]),
        Kind::Status => hear_bytes(listener, line, from, &[0x04, 0x0F, 0]),
        Kind::Completion => hear_bytes(listener, line, from, &[0x06, 0x0F, 0]),
        Kind::Abort => hear_bytes(listener, line, from, &[0x06, 0x1E, 1, 0xFF]),
        Kind::Other => hear_bytes(listener, line, from, &[high, low, 0]),
        Kind::Ack | Kind::Nack | Kind::Intermediate | Kind::PrintLine | Kind::TextBlock => {
            listener.hear(line, &TraceEvent::Unread { from })
        }
    }
}

/// Lets the listener hear the message that these bytes spell.
fn hear_bytes<L: Listener>(
    listener: &mut L,
    line: u64,
    from: Direction,
    bytes: &[u8],
) -> Result<(), ListenerError>
    requires { (m : Message) × Spells shortest m bytes.now }
    ensures { (m : Message) → Spells shortest m bytes.now → MatchResult result
        (λ _. L.hears listener.old (on line (trace_event.message from m)) listener.new)
        (λ failure. L.fails listener.old (on line (trace_event.message from m)) failure listener.new) }
{
    let trace_event = TraceEvent::Message {
        from,
        apdu: view(bytes),
        bytes,
        lengths: Lengths::Shortest,
    };
    listener.hear(line, &trace_event)
}
