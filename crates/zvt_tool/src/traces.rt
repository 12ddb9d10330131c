//! The commands on the trace of a reader.
ghost use Rattle.std.specs.Prelude.{◌≡◌, ◌+◌, ◌<◌, ◌≤◌, ℕ, List, length, Err, IfSome};
ghost use Rattle.std.specs.Io.KnownBytes.{Consumes};
ghost use Rattle.zvt_grammar.specs.Lengths.{reading_of};
ghost use Rattle.zvt_grammar.specs.Reading.{padded, shortest};
ghost use Rattle.zvt_audit.specs.Audited.{AnswersAuditBy};
ghost use Rattle.zvt_show.specs.Text.{print_lines};
ghost use Rattle.zvt_show.specs.Written.{AnswersTraceBy};
ghost use Rattle.zvt_tool.specs.Faults.{Audits, Checks, Renders};
ghost use Rattle.zvt_trace.specs.Written.{limit};
ghost use Rattle.zvt_show.specs.declared.render.Style.TheVariants.{Join, Receipts, Show};
ghost use Rattle.zvt_text.specs.TextOptions.{plain_text};

use crate::fault::{ToolFault, in_trace};
use std::alloc::Global;
use zvt_audit::audit_trace;
use zvt_grammar::Lengths;
use zvt_io::{Sink, Source};
use zvt_show::{ReceiptOptions, Style, render_trace};
use zvt_text::{Form, TextOptions};
use zvt_trace::{Scope, Tally, TraceFault, read_trace};

/// Writes each complete message of the trace as text: its direction and name, and a line for each field. A stream that
/// is refused or cut off gets a line, and counts as bad.
pub fn show<R: Source, W: Sink>(
    alloc: Global,
    reader: &mut R,
    writer: &mut W,
) -> Result<Tally, ToolFault>
    ensures taken { (taken : List ℕ) × (length taken ≤ limit + 1) × Consumes (R.remaining reader.old)
        (R.remaining reader.new) taken }
    ensures writes { IfSome (R.remaining reader.old)
        (λ trace. Renders shortest (Show plain_text) trace (W.written writer.old) (W.written writer.new) result) }
    ensures read { result ≡ Err ToolFault.Read → R.failures reader.old < R.failures reader.new }
    ensures write { result ≡ Err ToolFault.Write → W.failures writer.old < W.failures writer.new }
{
    read_and_render(
        alloc,
        Style::Show(TextOptions::plain()),
        Lengths::Shortest,
        reader,
        writer,
    )
}

/// Writes each complete message of the trace as one line of a trace, and all other events as comments.
pub fn join<R: Source, W: Sink>(
    alloc: Global,
    reader: &mut R,
    writer: &mut W,
) -> Result<Tally, ToolFault>
    ensures taken { (taken : List ℕ) × (length taken ≤ limit + 1) × Consumes (R.remaining reader.old)
        (R.remaining reader.new) taken }
    ensures writes { IfSome (R.remaining reader.old) (λ trace. Renders shortest Join trace (W.written writer.old)
        (W.written writer.new) result) }
    ensures read { result ≡ Err ToolFault.Read → R.failures reader.old < R.failures reader.new }
    ensures write { result ≡ Err ToolFault.Write → W.failures writer.old < W.failures writer.new }
{
    read_and_render(alloc, Style::Join, Lengths::Shortest, reader, writer)
}

/// Writes the text of each print line of the terminal as one line, and nothing else. Characters that are not printable
/// are written as `\xHH`. A stream that is refused or cut off still counts as bad.
pub fn receipts<R: Source, W: Sink>(
    alloc: Global,
    reader: &mut R,
    writer: &mut W,
) -> Result<Tally, ToolFault>
    ensures taken { (taken : List ℕ) × (length taken ≤ limit + 1) × Consumes (R.remaining reader.old)
        (R.remaining reader.new) taken }
    ensures writes { IfSome (R.remaining reader.old) (λ trace. Renders shortest (Receipts print_lines) trace
        (W.written writer.old) (W.written writer.new) result) }
    ensures read { result ≡ Err ToolFault.Read → R.failures reader.old < R.failures reader.new }
    ensures write { result ≡ Err ToolFault.Write → W.failures writer.old < W.failures writer.new }
{
    let style = Style::Receipts(ReceiptOptions::print_lines());
    read_and_render(alloc, style, Lengths::Shortest, reader, writer)
}

/// Writes the same output as [`show`], but accepts lengths in any form.
pub fn show_loose<R: Source, W: Sink>(
    alloc: Global,
    reader: &mut R,
    writer: &mut W,
) -> Result<Tally, ToolFault>
    ensures taken { (taken : List ℕ) × (length taken ≤ limit + 1) × Consumes (R.remaining reader.old)
        (R.remaining reader.new) taken }
    ensures writes { IfSome (R.remaining reader.old)
        (λ trace. Renders padded (Show plain_text) trace (W.written writer.old) (W.written writer.new) result) }
    ensures read { result ≡ Err ToolFault.Read → R.failures reader.old < R.failures reader.new }
    ensures write { result ≡ Err ToolFault.Write → W.failures writer.old < W.failures writer.new }
{
    read_and_render(
        alloc,
        Style::Show(TextOptions::plain()),
        Lengths::Padded,
        reader,
        writer,
    )
}

/// Writes the same output as [`join`], but accepts lengths in any form. Each complete message is written in its one
/// strict encoding, so that a strict reader accepts it.
pub fn normalise_trace<R: Source, W: Sink>(
    alloc: Global,
    reader: &mut R,
    writer: &mut W,
) -> Result<Tally, ToolFault>
    ensures taken { (taken : List ℕ) × (length taken ≤ limit + 1) × Consumes (R.remaining reader.old)
        (R.remaining reader.new) taken }
    ensures writes { IfSome (R.remaining reader.old)
        (λ trace. Renders padded Join trace (W.written writer.old) (W.written writer.new) result) }
    ensures read { result ≡ Err ToolFault.Read → R.failures reader.old < R.failures reader.new }
    ensures write { result ≡ Err ToolFault.Write → W.failures writer.old < W.failures writer.new }
{
    read_and_render(alloc, Style::Join, Lengths::Padded, reader, writer)
}

/// Writes the same output as [`receipts`], but accepts lengths in any form.
pub fn receipts_loose<R: Source, W: Sink>(
    alloc: Global,
    reader: &mut R,
    writer: &mut W,
) -> Result<Tally, ToolFault>
    ensures taken { (taken : List ℕ) × (length taken ≤ limit + 1) × Consumes (R.remaining reader.old)
        (R.remaining reader.new) taken }
    ensures writes { IfSome (R.remaining reader.old) (λ trace. Renders padded (Receipts print_lines) trace
        (W.written writer.old) (W.written writer.new) result) }
    ensures read { result ≡ Err ToolFault.Read → R.failures reader.old < R.failures reader.new }
    ensures write { result ≡ Err ToolFault.Write → W.failures writer.old < W.failures writer.new }
{
    let style = Style::Receipts(ReceiptOptions::print_lines());
    read_and_render(alloc, style, Lengths::Padded, reader, writer)
}

/// Writes the books of the trace, like [`audit_trace`].
pub fn audit<R: Source, W: Sink>(
    alloc: Global,
    reader: &mut R,
    writer: &mut W,
) -> Result<Tally, ToolFault>
    ensures taken { (taken : List ℕ) × (length taken ≤ limit + 1) × Consumes (R.remaining reader.old)
        (R.remaining reader.new) taken }
    ensures writes { IfSome (R.remaining reader.old)
        (λ trace. Audits shortest trace (W.written writer.old) (W.written writer.new) result) }
    ensures read { result ≡ Err ToolFault.Read → R.failures reader.old < R.failures reader.new }
    ensures write { result ≡ Err ToolFault.Write → W.failures writer.old < W.failures writer.new }
{
    read_and_audit(alloc, Lengths::Shortest, reader, writer)
}

/// Writes the same output as [`audit`], but accepts lengths in any form.
pub fn audit_loose<R: Source, W: Sink>(
    alloc: Global,
    reader: &mut R,
    writer: &mut W,
) -> Result<Tally, ToolFault>
    ensures taken { (taken : List ℕ) × (length taken ≤ limit + 1) × Consumes (R.remaining reader.old)
        (R.remaining reader.new) taken }
    ensures writes { IfSome (R.remaining reader.old)
        (λ trace. Audits padded trace (W.written writer.old) (W.written writer.new) result) }
    ensures read { result ≡ Err ToolFault.Read → R.failures reader.old < R.failures reader.new }
    ensures write { result ≡ Err ToolFault.Write → W.failures writer.old < W.failures writer.new }
{
    read_and_audit(alloc, Lengths::Padded, reader, writer)
}

/// Checks vectors like [`crate::vector_check::vectors`], and writes a line of text for each that differs from the
/// result of the message reader. `messages` of the tally counts the vectors.
pub fn vectors<R: Source, W: Sink>(
    alloc: Global,
    reader: &mut R,
    writer: &mut W,
) -> Result<Tally, ToolFault>
    ensures taken { (taken : List ℕ) × (length taken ≤ limit + 1) × Consumes (R.remaining reader.old)
        (R.remaining reader.new) taken }
    ensures writes { IfSome (R.remaining reader.old)
        (λ text. Checks text (W.written writer.old) (W.written writer.new) result) }
    ensures read { result ≡ Err ToolFault.Read → R.failures reader.old < R.failures reader.new }
    ensures write { result ≡ Err ToolFault.Write → W.failures writer.old < W.failures writer.new }
{
    in_trace(crate::vector_check::vectors(alloc, Form::Text, reader, writer))
}

/// Reads a trace, and writes its messages in this style.
fn read_and_render<R: Source, W: Sink>(
    alloc: Global,
    style: Style,
    lengths: Lengths,
    reader: &mut R,
    writer: &mut W,
) -> Result<Tally, ToolFault>
    ensures taken { (taken : List ℕ) × (length taken ≤ limit + 1) × Consumes (R.remaining reader.old)
        (R.remaining reader.new) taken }
    ensures writes { IfSome (R.remaining reader.old)
        (λ trace. Renders (reading_of lengths) style trace (W.written writer.old) (W.written writer.new) result) }
    ensures read { result ≡ Err ToolFault.Read → R.failures reader.old < R.failures reader.new }
    ensures write { result ≡ Err ToolFault.Write → W.failures writer.old < W.failures writer.new }
{
    in_trace(render_read(alloc, style, lengths, reader, writer))
}

/// Reads a trace, and writes its books.
fn read_and_audit<R: Source, W: Sink>(
    alloc: Global,
    lengths: Lengths,
    reader: &mut R,
    writer: &mut W,
) -> Result<Tally, ToolFault>
    ensures taken { (taken : List ℕ) × (length taken ≤ limit + 1) × Consumes (R.remaining reader.old)
        (R.remaining reader.new) taken }
    ensures writes { IfSome (R.remaining reader.old) (λ trace. Audits (reading_of lengths) trace (W.written writer.old)
        (W.written writer.new) result) }
    ensures read { result ≡ Err ToolFault.Read → R.failures reader.old < R.failures reader.new }
    ensures write { result ≡ Err ToolFault.Write → W.failures writer.old < W.failures writer.new }
{
    in_trace(audit_read(alloc, lengths, reader, writer))
}

/// Writes the messages of a trace that was read, in this style.
fn render_read<R: Source, W: Sink>(
    alloc: Global,
    style: Style,
    lengths: Lengths,
    reader: &mut R,
    writer: &mut W,
) -> Result<Tally, TraceFault>
    ensures taken { (taken : List ℕ) × (length taken ≤ limit + 1) × Consumes (R.remaining reader.old)
        (R.remaining reader.new) taken }
    ensures writes { IfSome (R.remaining reader.old)
        (λ trace. AnswersTraceBy (reading_of lengths) style trace (W.written writer.old)
        (W.written writer.new) result) }
    ensures read { result ≡ Err TraceFault.Read → R.failures reader.old < R.failures reader.new }
    ensures write { result ≡ Err TraceFault.Write → W.failures writer.old < W.failures writer.new }
{
    let trace = read_trace(alloc, reader)?;
    render_trace(
        alloc,
        style,
        false,
        Scope::OneSide,
        lengths,
        trace.as_slice(),
        writer,
    )
}

/// Writes the books of a trace that was read.
fn audit_read<R: Source, W: Sink>(
    alloc: Global,
    lengths: Lengths,
    reader: &mut R,
    writer: &mut W,
) -> Result<Tally, TraceFault>
    ensures taken { (taken : List ℕ) × (length taken ≤ limit + 1) × Consumes (R.remaining reader.old)
        (R.remaining reader.new) taken }
    ensures writes { IfSome (R.remaining reader.old)
        (λ trace. AnswersAuditBy (reading_of lengths) trace (W.written writer.old) (W.written writer.new) result) }
    ensures read { result ≡ Err TraceFault.Read → R.failures reader.old < R.failures reader.new }
    ensures write { result ≡ Err TraceFault.Write → W.failures writer.old < W.failures writer.new }
{
    let trace = read_trace(alloc, reader)?;
    let audited = audit_trace(
        alloc,
        Form::Text,
        Scope::WholeLine,
        lengths,
        trace.as_slice(),
        writer,
    )?;
    Ok(audited.tally)
}
