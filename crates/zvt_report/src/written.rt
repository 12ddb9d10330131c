//! Writes the report of a trace.
ghost use Rattle.std.specs.Prelude.{◌≡◌, ◌+◌, ◌++◌, ◌<◌, ◌≤◌, [], ℕ, Err, IfOk, IfSome, List, OnOk, length};
ghost use Rattle.std.specs.Io.KnownBytes.{Consumes};
ghost use Rattle.zvt_grammar.specs.Lengths.{reading_of};
ghost use Rattle.zvt_trace.specs.Written.{limit};
ghost use Rattle.zvt_report.specs.Written.{AnswersDrawn, AnswersFound, AnswersReadWritten, AnswersWritten};
ghost use Rattle.zvt_report.specs.Written.{acts_of, looks_of, report_in, summed_up, zone_for};

use crate::cases::{Look, looks};
use crate::dialogue::{Drawn, dialogue_in};
use crate::findings::urgent_findings;
use crate::form::ReportForm;
use crate::look_list::urgent_count;
use crate::report::{Report, report_trace};
use crate::slips::slips_in;
use crate::zones::Zone;
use crate::{objects, page, text};
use std::alloc::{AllocError, Global};
use zvt_grammar::Lengths;
use zvt_io::{Sink, Source};
use zvt_text::Text;
use zvt_trace::{Scope, Tally, TraceFault, read_trace};

/// Findings of a report that was written.
#[derive(Clone, Copy)]
pub struct ReportSummary {
    pub tally: Tally,
    /// The number of cases that someone must act on: orders, and findings about the trace.
    pub acts: u64,
    /// The number of refused messages that were passed over and known by their control bytes alone. It saturates.
    pub passed: u64,
}

/// Writes the report of the trace in this form. Text and pages show times on the clock of `zone`; objects have them in
/// UTC. Only a page has the `name` of the file, which is empty if there is none, and the dialogue of the trace. Objects
/// and pages have its slips.
/// `lengths` selects the accepted forms of length, and `scope` says how much is not read after a refused message, as
/// for [`report_trace`].
///
/// Writes the text once, at the end. Writes nothing if a line can't be read or an allocation fails.
pub fn write_report<W: Sink>(
    alloc: Global,
    form: ReportForm,
    zone: Zone,
    name: &[u8],
    scope: Scope,
    lengths: Lengths,
    trace: &[u8],
    writer: &mut W,
) -> Result<ReportSummary, TraceFault>
    requires { length trace.now ≤ limit }
    ensures writes { AnswersWritten (reading_of lengths) scope form zone name.now trace.now
        (W.written writer.old) (W.written writer.new) result }
    ensures write { result ≡ Err TraceFault.Write → W.failures writer.old < W.failures writer.new }
{
    let report = report_trace(alloc, zone_for(form, zone), scope, lengths, trace)?;
    let looks = looks_of(alloc, &report)?;
    let drawn = drawn_in(
        alloc,
        form,
        scope,
        lengths,
        &report,
        looks.as_slice(),
        trace,
    )?;
    write_found(alloc, form, name, &report, looks.as_slice(), &drawn, writer)
}

/// Reads a trace to its end, and writes its report like [`write_report`].
pub fn read_report<R: Source, W: Sink>(
    alloc: Global,
    form: ReportForm,
    zone: Zone,
    name: &[u8],
    scope: Scope,
    lengths: Lengths,
    reader: &mut R,
    writer: &mut W,
) -> Result<ReportSummary, TraceFault>
    ensures taken { (taken : List ℕ) × (length taken ≤ limit + 1) × Consumes (R.remaining reader.old)
        (R.remaining reader.new) taken }
    ensures writes { IfSome (R.remaining reader.old) (λ trace. AnswersReadWritten (reading_of lengths) scope form
        zone name.now trace (W.written writer.old) (W.written writer.new) result) }
    ensures read { result ≡ Err TraceFault.Read → R.failures reader.old < R.failures reader.new }
    ensures write { result ≡ Err TraceFault.Write → W.failures writer.old < W.failures writer.new }
{
    let trace = read_trace(alloc, reader)?;
    write_report(
        alloc,
        form,
        zone,
        name,
        scope,
        lengths,
        trace.as_slice(),
        writer,
    )
}

/// Returns the slips of a trace and then its dialogue, as far as a report of this form has them.
fn drawn_in(
    alloc: Global,
    form: ReportForm,
    scope: Scope,
    lengths: Lengths,
    report: &Report,
    looks: &[Look],
    trace: &[u8],
) -> Result<Drawn, TraceFault>
    requires { length trace.now ≤ limit }
    ensures { AnswersDrawn (reading_of lengths) scope trace.now form report.now looks.now result }
{
    let mut text = slips_in(alloc, form, scope, lengths, report, looks, trace)?;
    let dialogue = dialogue_in(alloc, form, scope, lengths, report, looks, trace)?;
    text.word(dialogue.text.bytes())?;
    Ok(Drawn {
        text,
        lines: dialogue.lines,
    })
}

/// Returns the zone in which a report of this form has its times.
fn zone_for(form: ReportForm, zone: Zone) -> Zone
    ensures { result ≡ zone_for form zone }
{
    match form {
        ReportForm::Text | ReportForm::Page => zone,
        ReportForm::Json => Zone::utc(),
    }
}

/// Returns the looks that the orders of a report need.
pub(crate) fn looks_of(alloc: Global, report: &Report) -> Result<Vec<Look>, AllocError>
    ensures { IfOk result (λ looks. looks.items ≡ looks_of report.now) }
{
    let books = &report.books;
    looks(
        alloc,
        books.book.as_slice(),
        report.closings.as_slice(),
        report.statements.as_slice(),
        report.messages.as_slice(),
        books.orders.as_slice(),
    )
}

/// Writes a report in this form with its looks, its slips and its dialogue, and returns its findings.
fn write_found<W: Sink>(
    alloc: Global,
    form: ReportForm,
    name: &[u8],
    report: &Report,
    looks: &[Look],
    drawn: &Drawn,
    writer: &mut W,
) -> Result<ReportSummary, TraceFault>
    requires { looks.now ≡ looks_of report.now }
    ensures writes { AnswersFound form name.now report.now drawn.now (W.written writer.old) (W.written writer.new)
        result }
    ensures write { result ≡ Err TraceFault.Write → W.failures writer.old < W.failures writer.new }
{
    let text = text_of(alloc, form, name, report, looks, drawn)?;
    writer.write_all(text.bytes())?;
    Ok(summed_up(report, looks))
}

/// Returns how many orders of a report with these looks someone must act on, and how many of its findings.
pub(crate) fn acts_of(report: &Report, looks: &[Look]) -> u64
    requires { looks.now ≡ looks_of report.now }
    ensures { result ≡ acts_of report.now }
{
    urgent_count(looks) as u64 + urgent_findings(report.findings.as_slice()) as u64
}

/// Returns the findings of a report with these looks.
pub(crate) fn summed_up(report: &Report, looks: &[Look]) -> ReportSummary
    requires { looks.now ≡ looks_of report.now }
    ensures { result ≡ summed_up report.now }
{
    ReportSummary {
        tally: report.tally,
        acts: acts_of(report, looks),
        passed: report.passed,
    }
}

/// Writes the objects of a report with these looks and slips.
fn write_objects(
    alloc: Global,
    text: &mut Text,
    report: &Report,
    looks: &[Look],
    drawn: &[u8],
) -> Result<(), AllocError>
    ensures { OnOk result (text.new ≡ text.old ++ report_in ReportForm.Json [] report.now looks.now [] drawn.now) }
{
    objects::write(
        text,
        &mut Text::new(alloc),
        report.tally,
        &report.currency,
        report.terminal,
        &report.times,
        &report.books,
        report.messages.as_slice(),
        report.closings.as_slice(),
        looks,
        report.findings.as_slice(),
        drawn,
    )
}

/// Writes the page of a report with these looks, slips and dialogue.
fn write_page(
    alloc: Global,
    text: &mut Text,
    name: &[u8],
    report: &Report,
    looks: &[Look],
    drawn: &Drawn,
) -> Result<(), AllocError>
    ensures { OnOk result (text.new ≡ text.old
        ++ report_in ReportForm.Page name.now report.now looks.now drawn.now.lines.items drawn.now.text) }
{
    page::write(
        alloc,
        text,
        drawn.lines.as_slice(),
        name,
        report.tally,
        report.currency,
        report.terminal,
        &report.times,
        &report.books,
        report.messages.as_slice(),
        report.closings.as_slice(),
        looks,
        report.findings.as_slice(),
        drawn.text.bytes(),
    )
}

/// Returns the text, the objects or the page of a report with these looks.
fn text_of(
    alloc: Global,
    form: ReportForm,
    name: &[u8],
    report: &Report,
    looks: &[Look],
    drawn: &Drawn,
) -> Result<Text, AllocError>
    ensures { IfOk result (λ text. text
        ≡ report_in form name.now report.now looks.now drawn.now.lines.items drawn.now.text) }
{
    let books = &report.books;
    let messages = report.messages.as_slice();
    let closings = report.closings.as_slice();
    let mut text = Text::new(alloc);
    match form {
        ReportForm::Text => text::write(
            alloc,
            &mut text,
            report.tally,
            report.currency,
            report.terminal,
            &report.times,
            books,
            messages,
            closings,
            looks,
            report.findings.as_slice(),
        )?,
        ReportForm::Json => write_objects(alloc, &mut text, report, looks, drawn.text.bytes())?,
        ReportForm::Page => write_page(alloc, &mut text, name, report, looks, drawn)?,
    }
    Ok(text)
}
