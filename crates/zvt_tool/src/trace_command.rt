//! The commands on traces, and on vectors.
ghost use Rattle.std.specs.Prelude.{◌≡◌, IfOk, [], option_map};
ghost use Rattle.clap.specs.Words.{found_of, rows_of};
ghost use Rattle.zvt_tool.specs.Options.{form_by, lengths_by};
ghost use Rattle.zvt_report.specs.Zones.{zone_of};
ghost use Rattle.zvt_tool.specs.TraceCommands.{IsAudit, IsReceipts, IsRendering, IsReport, IsShow, IsTraceCommandOf};
ghost use Rattle.zvt_tool.specs.TraceCommands.{IsVectors, codepage_by, codepage_named, is_json, report_form};
ghost use Rattle.zvt_tool.specs.TraceCommands.{style_by, work_scope, zone_by};
ghost use Rattle.zvt_tool.specs.declared.trace_command.TraceWork.TheVariants.{Render};
ghost use Rattle.zvt_show.specs.declared.render.Style.TheVariants.{Show};
ghost use Rattle.zvt_text.specs.TextOptions.{plain_text};
ghost use Rattle.zvt_grammar.specs.declared.lengths.Lengths.TheVariants.{Shortest};

use crate::given::{flag, text, words};
use crate::options::{form_by, lengths_by};
use clap::ArgMatches;
use std::alloc::{AllocError, Global};
use zvt_grammar::Lengths;
use zvt_report::{ReportForm, Zone};
use zvt_show::{ReceiptOptions, Style};
use zvt_text::{Codepage, Form, TextOptions};
use zvt_trace::Scope;

/// The output of a command on traces or on vectors.
#[derive(Clone, Copy)]
pub enum TraceWork {
    /// The messages of the trace, in this style.
    Render(Style),
    /// The books of its payments, in this form.
    Audit(Form),
    /// The report on its orders and payments.
    Report {
        form: ReportForm,
        /// The zone in which times are shown. JSON has them in UTC.
        zone: Zone,
        /// Whether the line counts as malformed after a refused message, as it does for a till.
        strict: bool,
    },
    /// The vectors that differ from the result of the message reader, in this form.
    Vectors(Form),
}

/// A command on traces: its files, its output, strict or padded lengths, and the options `--check`, `--follow` and
/// `--open`. A flag that the command does not have is not set.
#[derive(Drop)]
pub struct TraceCommand<'a> {
    /// The traces, in order. No name, or `-`, means standard input.
    pub files: Vec<&'a str>,
    pub work: TraceWork,
    pub lengths: Lengths,
    /// Whether an unclear payment counts as bad, and so does money that moved and that the audit does not follow. For a
    /// report, whether a case that someone must act on counts as bad.
    pub check: bool,
    /// Whether each line is written as soon as it is read.
    pub follow: bool,
    /// Whether a side is read on after a refused message. `--resync` is another name for `--open`.
    pub reads_on: bool,
    /// Whether `--times` asks for the moment of each line. JSON has none, and so has a trace that is written while it
    /// arrives.
    pub times: bool,
    /// Whether `--html` asks for a page. With `--json` it can't be written.
    pub html: bool,
    /// The code page of receipts, as it was given. One that [`codepage_named`] does not know decodes nothing.
    pub codepage: Option<&'a str>,
    /// The zone of a report's times, as it was given. One that [`zone_named`] can't read stands for UTC.
    pub zone: Option<&'a str>,
}

impl<'a> TraceCommand<'a> {
    /// Returns the command `show` without files or options, which runs if no command is given.
    pub fn show(alloc: Global) -> TraceCommand<'a>
        ensures { IsTraceCommandOf [] (Render (Show plain_text)) Shortest result }
    {
        TraceCommand {
            files: Vec::new(alloc),
            work: TraceWork::Render(Style::Show(TextOptions::plain())),
            lengths: Lengths::Shortest,
            check: false,
            follow: false,
            reads_on: false,
            times: false,
            html: false,
            codepage: None,
            zone: None,
        }
    }

    /// Returns how much input to skip after a refused message: with `--open` the message, else its side, or for an
    /// audit the whole line. A report skips the message, unless it is strict.
    pub fn scope(&self) -> Scope
        ensures { result ≡ work_scope self.now.work self.now.reads_on }
    {
        match self.work {
            _ if self.reads_on => Scope::OneMessage,
            TraceWork::Report { strict: false, .. } => Scope::OneMessage,
            TraceWork::Audit(_) | TraceWork::Report { .. } => Scope::WholeLine,
            TraceWork::Render(_) | TraceWork::Vectors(_) => Scope::OneSide,
        }
    }

    /// Returns whether each line of the output is a JSON object.
    pub fn is_json(&self) -> bool
        ensures { result ≡ is_json self.now.work }
    {
        matches!(
            self.work,
            TraceWork::Render(Style::Json | Style::JsonReceipts { .. })
                | TraceWork::Audit(Form::Json)
                | TraceWork::Report {
                    form: ReportForm::Json,
                    ..
                }
                | TraceWork::Vectors(Form::Json)
        )
    }
}

/// Returns the choice from the arguments of `show`.
pub fn read_show<'a>(alloc: Global, inner: &ArgMatches<'a>) -> Result<TraceCommand<'a>, AllocError>
    ensures { IfOk result (IsShow (rows_of (found_of inner.now))) }
{
    let text = Style::Show(TextOptions {
        safe: flag(inner, "safe"),
        explained: flag(inner, "explain"),
    });
    rendering(alloc, inner, text, Style::Json)
}

/// Returns the choice from the arguments of `join`.
pub fn read_join<'a>(alloc: Global, inner: &ArgMatches<'a>) -> Result<TraceCommand<'a>, AllocError>
    ensures { IfOk result (IsTraceCommandOf (rows_of (found_of inner.now)) (Render Style.Join) Lengths.Shortest) }
{
    on_traces(
        alloc,
        inner,
        TraceWork::Render(Style::Join),
        Lengths::Shortest,
    )
}

/// Returns the choice from the arguments of `normalise`.
pub fn read_normalise<'a>(
    alloc: Global,
    inner: &ArgMatches<'a>,
) -> Result<TraceCommand<'a>, AllocError>
    ensures { IfOk result (IsTraceCommandOf (rows_of (found_of inner.now)) (Render Style.Join) Lengths.Padded) }
{
    on_traces(
        alloc,
        inner,
        TraceWork::Render(Style::Join),
        Lengths::Padded,
    )
}

/// Returns the choice from the arguments of `audit`.
pub fn read_audit<'a>(alloc: Global, inner: &ArgMatches<'a>) -> Result<TraceCommand<'a>, AllocError>
    ensures { IfOk result (IsAudit (rows_of (found_of inner.now))) }
{
    let work = TraceWork::Audit(form_by(flag(inner, "json")));
    on_traces(alloc, inner, work, lengths_by(flag(inner, "loose")))
}

/// Returns the choice from the arguments of `report`.
pub fn read_report<'a>(
    alloc: Global,
    inner: &ArgMatches<'a>,
) -> Result<TraceCommand<'a>, AllocError>
    ensures { IfOk result (IsReport (rows_of (found_of inner.now))) }
{
    let zone = zone_by(text(inner, "zone"));
    let work = TraceWork::Report {
        form: report_form(flag(inner, "json"), flag(inner, "html")),
        zone,
        strict: flag(inner, "strict"),
    };
    on_traces(alloc, inner, work, lengths_by(flag(inner, "loose")))
}

/// Returns the zone that an option names, or UTC if it names none.
fn zone_by(given: Option<&str>) -> Zone
    ensures { result ≡ zone_by (option_map (λ given. given.now) given.entry) }
{
    match given {
        Some(text) => zone_named(text).unwrap_or(Zone::utc()),
        None => Zone::utc(),
    }
}

/// Returns the zone with these hours and minutes, as `+01:00`.
pub fn zone_named(text: &str) -> Option<Zone>
    ensures { result ≡ zone_of text.now }
{
    Zone::of(text.as_bytes())
}

/// Returns the form of a report. With both flags it is JSON.
fn report_form(json: bool, html: bool) -> ReportForm
    ensures { result ≡ report_form json html }
{
    if json {
        ReportForm::Json
    } else if html {
        ReportForm::Page
    } else {
        ReportForm::Text
    }
}

/// Returns the choice from the arguments of `receipts`.
pub fn read_receipts<'a>(
    alloc: Global,
    inner: &ArgMatches<'a>,
) -> Result<TraceCommand<'a>, AllocError>
    ensures { IfOk result (IsReceipts (rows_of (found_of inner.now))) }
{
    let text_blocks = flag(inner, "text-blocks");
    let codepage = codepage_by(text(inner, "codepage"));
    let options = ReceiptOptions {
        text_blocks,
        codepage,
    };
    rendering(
        alloc,
        inner,
        Style::Receipts(options),
        Style::JsonReceipts { text_blocks },
    )
}

/// Returns the code page that an option names, if it is given and known.
fn codepage_by(name: Option<&str>) -> Option<Codepage>
    ensures { result ≡ codepage_by (option_map (λ name. name.now) name.entry) }
{
    codepage_named(name?)
}

/// Returns the code page with this name.
pub fn codepage_named(name: &str) -> Option<Codepage>
    ensures { result ≡ codepage_named name.now }
{
    match name {
        "437" => Some(Codepage::Cp437),
        "850" => Some(Codepage::Cp850),
        "iso-8859-1" => Some(Codepage::Latin1),
        "utf-8" => Some(Codepage::Utf8),
        _ => None,
    }
}

/// Returns the choice from the arguments of `vectors`.
pub fn read_vectors<'a>(
    alloc: Global,
    inner: &ArgMatches<'a>,
) -> Result<TraceCommand<'a>, AllocError>
    ensures { IfOk result (IsVectors (rows_of (found_of inner.now))) }
{
    let work = TraceWork::Vectors(form_by(flag(inner, "json")));
    on_traces(alloc, inner, work, Lengths::Shortest)
}

/// Returns a command that writes the messages of traces in one style, or in the other as JSON.
fn rendering<'a>(
    alloc: Global,
    inner: &ArgMatches<'a>,
    text: Style,
    json: Style,
) -> Result<TraceCommand<'a>, AllocError>
    ensures { IfOk result (IsRendering (rows_of (found_of inner.now)) text json) }
{
    let work = TraceWork::Render(style_by(text, json, flag(inner, "json")));
    on_traces(alloc, inner, work, lengths_by(flag(inner, "loose")))
}

/// Returns the style for text or the style for JSON.
fn style_by(text: Style, json: Style, is_json: bool) -> Style
    ensures { result ≡ style_by text json is_json }
{
    if is_json { json } else { text }
}

/// Returns the files and the flags of a command on traces with this output.
fn on_traces<'a>(
    alloc: Global,
    inner: &ArgMatches<'a>,
    work: TraceWork,
    lengths: Lengths,
) -> Result<TraceCommand<'a>, AllocError>
    ensures { IfOk result (IsTraceCommandOf (rows_of (found_of inner.now)) work lengths) }
{
    let open = flag(inner, "open");
    let resync = flag(inner, "resync");
    Ok(TraceCommand {
        files: words(alloc, inner, "file")?,
        work,
        lengths,
        check: flag(inner, "check"),
        follow: flag(inner, "follow"),
        reads_on: open || resync,
        times: flag(inner, "times"),
        html: flag(inner, "html"),
        codepage: text(inner, "codepage"),
        zone: text(inner, "zone"),
    })
}
