//! The hint that the receipts of a trace are in text blocks.
ghost use Rattle.std.specs.Prelude.{◌≤◌, length};
ghost use Rattle.zvt_trace.specs.Written.{limit};

use crate::inputs::Input;
use crate::reports::report;
use std::alloc::{AllocError, Global};
use std::io::{self, Write};
use zvt_apdu::Kind;
use zvt_audit::AuditSummary;
use zvt_show::{ReceiptOptions, Style};
use zvt_tool::trace_command::{TraceCommand, TraceWork};
use zvt_trace::{Direction, Listener, ListenerError, TraceEvent, TraceFault, walk};

/// Whether the terminal has sent a text block.
#[derive(Drop)]
struct Blocks {
    has_one: bool,
}

/// It never fails.
impl Listener for Blocks {
    ghost use Rattle.std.specs.Prelude.{◌≡◌};
    ghost use Rattle.zvt.specs.TextBlocks.{noted};

    ghost hears = { λ old at new. new ≡ noted old at.trace_event };

    ghost fails = { λ _ _ _ _. ⊥ };

    fn hear(&mut self, _line: u64, trace_event: &TraceEvent<'_>) -> Result<(), ListenerError> {
        if let TraceEvent::Message {
            from: Direction::FromTerminal,
            apdu,
            ..
        } = trace_event
        {
            if apdu.kind() == Kind::TextBlock {
                self.has_one = true;
            }
        }
        Ok(())
    }
}

/// Reports that the receipts of the trace are in text blocks, for a command that printed nothing because it does not
/// read them. Returns whether memory sufficed.
pub fn report_text_blocks(
    rt: &HostRuntime,
    command: &TraceCommand<'_>,
    input: Input<'_>,
    trace: &[u8],
    answer: &Result<AuditSummary, TraceFault>,
) -> io::Result<bool>
    requires { length trace.now ≤ limit }
{
    if answer.is_err() || !skips_text_blocks(command.work) {
        return Ok(true);
    }
    match has_text_block(rt.alloc(), command, trace) {
        Ok(true) => {
            let mut errors = input.errors(rt.alloc(), rt.stderr())?;
            writeln!(errors, "zvt: {HINT}")?;
            Ok(true)
        }
        Ok(false) => Ok(true),
        Err(AllocError) => {
            report(rt, TraceFault::Memory)?;
            Ok(false)
        }
    }
}

const HINT: &str = "the receipts of this trace are in text blocks: print them with --text-blocks";

/// Returns whether the output has receipts and leaves out text blocks.
fn skips_text_blocks(work: TraceWork) -> bool {
    match work {
        TraceWork::Render(Style::Receipts(ReceiptOptions { text_blocks, .. }))
        | TraceWork::Render(Style::JsonReceipts { text_blocks }) => !text_blocks,
        _ => false,
    }
}

/// Returns whether the terminal sends a text block in the trace.
fn has_text_block(
    alloc: Global,
    command: &TraceCommand<'_>,
    trace: &[u8],
) -> Result<bool, AllocError>
    requires { length trace.now ≤ limit }
{
    let mut blocks = Blocks { has_one: false };
    let scope = command.scope();
    match walk(&mut blocks, alloc, scope, command.lengths, trace) {
        Err(TraceFault::Memory) => Err(AllocError),
        _ => Ok(blocks.has_one),
    }
}
