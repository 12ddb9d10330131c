//! The books of a running line.
ghost use Rattle.std.specs.Prelude.{◌≡◌, Bool, List, ℕ, IfOk};
ghost use Rattle.std.specs.Str.Lines.{lines};
ghost use Rattle.zvt_grammar.specs.Reading.{Reading};
ghost use Rattle.zvt_trace.specs.Emitting.{WholeTrace};
ghost use Rattle.zvt_trace.specs.Listening.{HearsAll};
ghost use Rattle.zvt_trace.specs.Resuming.{side_scope};
ghost use Rattle.zvt_trace.specs.TraceEvent.{At};
ghost use Rattle.zvt_audit.specs.Line.{AnswersLine, IsNew, hears_line};

use crate::auditor::Auditor;
use crate::by_control::ByControl;
use crate::summary::{connected, write_books};
use crate::unfollowed::UnfollowedOrder;
use std::alloc::{AllocError, Global};
use zvt_io::Sink;
use zvt_text::Form;
use zvt_trace::{Listener, ListenerError, Scope, Tally, TraceEvent, TraceFault, UntilRefused};

/// Derives the books of a running line: those that [`audit_trace`] derives from the line's trace.
///
/// The events come in the scope `OneSide`, and after a refusal nothing is heard until the connection is lost. If the
/// line is read on after a refused message, they come in the scope `OneMessage`.
///
/// [`audit_trace`]: crate::audit_trace
#[derive(Drop)]
pub struct LineAudit {
    auditor: ByControl<UntilRefused<Auditor>>,
}

/// What the audit of a line finds, apart from its books.
#[derive(Drop)]
pub struct LineBooks {
    /// The sum of the payments that were completed, in the smallest unit of the currency.
    pub total: u128,
    /// The number of payments whose outcome is unknown.
    pub unclear: u64,
    /// Whether orders came only from the side that is marked as the terminal's.
    pub swapped: bool,
    /// The orders of the till that move money and that the books do not follow.
    pub unfollowed: Vec<UnfollowedOrder>,
    /// The number of refused messages that were passed over and known by their control bytes alone. It saturates.
    pub passed: u64,
}

impl LineAudit {
    /// Starts the audit of a connected till. `reads_on` says whether its line is read on after a refused message.
    pub fn new(alloc: Global, reads_on: bool) -> Result<LineAudit, AllocError>
        ensures { IfOk result (IsNew reads_on) }
    {
        let scope = Scope::of_side(reads_on);
        let audit = connected(alloc, scope)?;
        Ok(LineAudit {
            auditor: ByControl {
                listener: UntilRefused {
                    listener: audit.listener,
                    is_refused: false,
                },
                scope,
                passed: 0,
            },
        })
    }

    /// Writes the books of a line that has ended.
    pub fn finish<W: Sink>(self, alloc: Global, writer: &mut W) -> Result<LineBooks, TraceFault>
        ensures { (r : Reading) (reads_on : Bool) (trace : List ℕ) (events : List At) (start : LineAudit)
            → IsNew reads_on start → WholeTrace r (side_scope reads_on) (lines trace) events
            → HearsAll hears_line start events self
            → AnswersLine r reads_on trace (W.written writer.old) (W.written writer.new) result }
    {
        // The text of books has no tally.
        let none = Tally {
            messages: 0,
            bad: 0,
        };
        let ByControl {
            listener,
            scope,
            passed,
        } = self.auditor;
        let audit = ByControl {
            listener: listener.listener,
            scope,
            passed,
        };
        let found = write_books(alloc, Form::Text, audit, none, writer)?;
        Ok(LineBooks {
            total: found.total,
            unclear: found.unclear,
            swapped: found.swapped,
            unfollowed: found.unfollowed,
            passed: found.passed,
        })
    }
}

impl Listener for LineAudit {
    ghost use Rattle.std.specs.Prelude.{◌≡◌};
    ghost use Rattle.zvt_trace.specs.declared.listener.ListenerError.TheVariants.{Memory};

    ghost hears = { λ old event new. hears_line old event new };

    ghost fails = { λ _ _ failure _. failure ≡ Memory };

    #[inline(always)]
    fn hear(&mut self, number: u64, trace_event: &TraceEvent<'_>) -> Result<(), ListenerError> {
        self.auditor.hear(number, trace_event)
    }
}
