//! The books of a trace that arrives in pieces, as from a pipe or a growing file.
ghost use Rattle.std.specs.Prelude.{◌≡◌, ◌<◌, ◌≤◌, ◌++◌, [], ℕ, List, length, Err, IfOk, OnOk, false, true};
ghost use Rattle.std.specs.Io.KnownBytes.{Consumes};
ghost use Rattle.zvt_grammar.specs.Lengths.{reading_of};
ghost use Rattle.zvt_grammar.specs.Reading.{Reading};
ghost use Rattle.zvt_trace.specs.Written.{limit};
ghost use Rattle.zvt_trace.specs.declared.listener.Scope.{Scope};
ghost use Rattle.zvt_audit.specs.Audited.{AnswersFollowed, AnswersReadBy};
ghost use Rattle.zvt_audit.specs.Heard.{AnswersHearing, AnswersTurn, HasAudited, IsAuditing};

use crate::auditor::Auditor;
use crate::by_control::ByControl;
use crate::summary::{AuditSummary, connected, write_books};
use std::alloc::{AllocError, Global};
use zvt_grammar::Lengths;
use zvt_io::{Sink, Source};
use zvt_text::Form;
use zvt_trace::{Scope, TraceFault, Walker, read_chunk};

/// The number of bytes that are read at once.
const CHUNK: usize = 65_536;

/// Writes the books of a trace at its end, as [`audit_trace`] does.
///
/// The trace may have any length; a line has at most as many bytes as a trace in memory. Writes nothing if a line
/// can't be read or is too long, or if a read or an allocation fails.
///
/// [`audit_trace`]: crate::audit_trace
pub fn follow_audit<R: Source, W: Sink>(
    alloc: Global,
    form: Form,
    scope: Scope,
    lengths: Lengths,
    reader: &mut R,
    writer: &mut W,
) -> Result<AuditSummary, TraceFault>
    ensures follows { (taken : List ℕ) × Consumes (R.remaining reader.old) (R.remaining reader.new) taken
        × AnswersFollowed (reading_of lengths) scope form taken (R.remaining reader.new) (W.written writer.old)
        (W.written writer.new) result }
    ensures read { result ≡ Err TraceFault.Read → R.failures reader.old < R.failures reader.new }
    ensures write { result ≡ Err TraceFault.Write → W.failures writer.old < W.failures writer.new }
{
    let audit = hear_all(alloc, scope, lengths, reader)?;
    audit.finish(alloc, form, writer)
}

/// Audits everything that the reader returns.
fn hear_all<R: Source>(
    alloc: Global,
    scope: Scope,
    lengths: Lengths,
    reader: &mut R,
) -> Result<Audit, TraceFault>
    ensures hears { (taken : List ℕ) × Consumes (R.remaining reader.old) (R.remaining reader.new) taken
        × AnswersHearing (reading_of lengths) scope taken (R.remaining reader.new) result }
    ensures ready { IfOk result IsAuditing }
    ensures read { result ≡ Err TraceFault.Read → R.failures reader.old < R.failures reader.new }
{
    let mut audit = Audit::new(alloc, scope, lengths)?;
    let mut buffer = [0; CHUNK];
    for _turn in 0..u64::MAX {
        let taken = read_chunk(reader, &mut buffer)?;
        if taken == 0 {
            return Ok(audit);
        }
        audit.feed(&buffer[..taken])?;
    }
    Err(TraceFault::TooLong)
}

/// An audit of a trace that arrives in chunks.
#[derive(Drop)]
pub struct Audit {
    auditor: ByControl<Auditor>,
    walker: Walker,
}

impl Audit {
    /// Starts the audit of a connected till. `scope` says how much is not read after a refused message, as for
    /// [`audit_trace`], and `lengths` selects the accepted forms of length.
    ///
    /// [`audit_trace`]: crate::audit_trace
    pub fn new(alloc: Global, scope: Scope, lengths: Lengths) -> Result<Audit, AllocError>
        ensures heard { IfOk result (λ audit. HasAudited (reading_of lengths) scope [] audit) }
        ensures ready { IfOk result IsAuditing }
    {
        let auditor = connected(alloc, scope)?;
        Ok(Audit {
            auditor,
            walker: Walker::new(alloc, scope, lengths),
        })
    }

    /// Processes the lines that end in this chunk. After a fault the audit must not be used again.
    pub fn feed(&mut self, chunk: &[u8]) -> Result<(), TraceFault>
        requires ready { IsAuditing self.old }
        requires few { length chunk.now ≤ limit }
        ensures hears { (r : Reading) (scope : Scope) (bytes : List ℕ) → HasAudited r scope bytes self.old
            → AnswersTurn r scope (bytes ++ chunk.now) self.new result }
        ensures ready { OnOk result (IsAuditing self.new) }
    {
        self.walker.feed(&mut self.auditor, chunk)
    }

    /// Processes a last line without a line feed and writes the books in this form.
    pub fn finish<W: Sink>(
        self,
        alloc: Global,
        form: Form,
        writer: &mut W,
    ) -> Result<AuditSummary, TraceFault>
        requires ready { IsAuditing self }
        ensures writes { (r : Reading) (scope : Scope) (bytes : List ℕ) → HasAudited r scope bytes self
            → AnswersReadBy r scope form bytes (W.written writer.old) (W.written writer.new) result }
        ensures write { result ≡ Err TraceFault.Write → (r : Reading) (scope : Scope) (bytes : List ℕ)
            → HasAudited r scope bytes self → W.failures writer.old < W.failures writer.new }
    {
        let Audit {
            mut auditor,
            walker,
        } = self;
        let tally = walker.finish(&mut auditor)?;
        write_books(alloc, form, auditor, tally, writer)
    }
}
