//! The log of a line: its trace, the text shown, and the audit.
ghost use Rattle.std.specs.Prelude.{◌≡◌, ◌++◌, ◌∷◌, [], codes, ℕ, Bool, List, Option, IfOk};
ghost use Rattle.zvt_grammar.specs.Lengths.{reading_of};
ghost use Rattle.zvt_grammar.specs.Reading.{Reading};
ghost use Rattle.zvt_tap.specs.Heard.{AnswersHeard, HasAudited};
ghost use Rattle.zvt_tap.specs.Log.{HasFound, HasObserved};
ghost use Rattle.zvt_tap.specs.Traced.{FailsOnlyIf, HasTraced, failures_by, traced_by};

use crate::tracing::Tracing;
use crate::watched::Watched;
use std::alloc::{AllocError, Global};
use zvt_audit::{LineAudit, LineBooks};
use zvt_grammar::Lengths;
use zvt_io::Sink;
use zvt_show::{Shown, ShownToEnd, Style};
use zvt_text::TextOptions;
use zvt_trace::{Scope, Tally, TraceFault};

/// The log of a line: a trace, and on an output the text that `show --safe` prints for the trace, followed by its
/// audit. The bytes are decoded once, for the text and for the audit. Each of the three stops at its own failure, and
/// the others continue. Without memory to decode a chunk both the text and the audit stop.
pub type TapLog<T, O> = Watched<Tracing<T>, Shown<O, LineAudit>>;

/// The findings of a log, and its devices.
#[derive(Drop)]
pub struct Found<T, O> {
    pub tracing: Tracing<T>,
    pub output: O,
    /// How many messages were shown, and how many streams were refused or cut off.
    pub shown: Result<Tally, TraceFault>,
    pub audited: Result<LineBooks, TraceFault>,
}

/// Creates the log of a line that has observed nothing. `reads_on` says whether a side is read on after a refused
/// message, and `lengths` selects the accepted forms of length.
pub fn new_log<T: Sink + Drop, O: Sink + Drop>(
    alloc: Global,
    reads_on: bool,
    lengths: Lengths,
    tracing: Tracing<T>,
    output: O,
) -> Result<TapLog<T, O>, AllocError>
    ensures observed { (first : Option (List ℕ)) → HasTraced tracing.failed [] first
        (traced_by T.written tracing.trace) → IfOk result (λ log. HasObserved T.written O.written (reading_of lengths)
        reads_on [] first (O.written output) log.recorder log.watcher) }
    ensures tracing { IfOk result (λ log. log.recorder ≡ tracing) }
{
    let scope = Scope::of_side(reads_on);
    let audit = LineAudit::new(alloc, reads_on)?;
    Ok(Watched {
        recorder: tracing,
        watcher: Shown::new(
            alloc,
            Style::Show(TextOptions::safe()),
            scope,
            lengths,
            output,
            audit,
        ),
    })
}

/// Observes that the line has ended, shows what is cut off there, and writes the books.
pub(crate) fn end_log<T: Sink + Drop, O: Sink + Drop>(
    alloc: Global,
    log: TapLog<T, O>,
) -> Found<T, O>
    ensures found { (r : Reading) (reads_on : Bool) (trace : List ℕ) (first held : Option (List ℕ))
        → HasObserved T.written O.written r reads_on trace first held log.recorder log.watcher
        → HasFound r reads_on (trace ++ (codes "!" ++ 10 ∷ [])) first held result.tracing.failed
        (traced_by T.written result.tracing.trace) (O.written result.output) result.shown result.audited }
    ensures failed { FailsOnlyIf log.recorder.failed result.tracing.failed (failures_by T.failures log.recorder.trace)
        (failures_by T.failures result.tracing.trace) }
{
    let Watched { recorder, watcher } = log;
    let mut tracing = recorder;
    tracing.end();
    let ShownToEnd {
        shown,
        mut output,
        beside,
    } = watcher.end();
    let audited = write_books(alloc, beside, &mut output);
    Found {
        tracing,
        output,
        shown,
        audited,
    }
}

/// Writes the books of an audit that has heard the whole line.
fn write_books<O: Sink>(
    alloc: Global,
    audit: Result<LineAudit, TraceFault>,
    output: &mut O,
) -> Result<LineBooks, TraceFault>
    ensures { (r : Reading) (reads_on : Bool) (trace : List ℕ) → HasAudited r reads_on trace audit
        → AnswersHeard r reads_on trace (O.written output.old) (O.written output.new) result }
{
    match audit {
        Ok(audit) => audit.finish(alloc, output),
        Err(fault) => Err(fault),
    }
}
