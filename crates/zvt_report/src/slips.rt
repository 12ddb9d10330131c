//! The slips of a trace: what the terminal printed.
ghost use Rattle.std.specs.Prelude.{◌≡◌, ◌++◌, ◌∷◌, ◌≤◌, [], is_some, length, map, option_map, unwrap_or};
ghost use Rattle.std.specs.Prelude.{IfOk, None, Option, OnOk};
ghost use Rattle.zvt_grammar.specs.Lengths.{reading_of};
ghost use Rattle.zvt_apdu.specs.Views.{fields_in};
ghost use Rattle.zvt_trace.specs.TraceEvent as trace_event;
ghost use Rattle.zvt_trace.specs.TraceEvent.{on};
ghost use Rattle.zvt_trace.specs.Written.{limit};
ghost use Rattle.zvt_trace.specs.declared.direction.Direction.TheVariants.{FromTill, FromTerminal};
ghost use Rattle.zvt_report.specs.Masking.{masked};
ghost use Rattle.zvt_report.specs.Reported.{beginning};
ghost use Rattle.zvt_report.specs.SlipWalk.{AnswersSlips, AnswersWalked, Closes, Prints, first_by, headed, kept};
ghost use Rattle.zvt_report.specs.SlipWalk.{slip_text};
ghost use Rattle.zvt_report.specs.Slips.{order_after, slip_at, slips_in, text_of};

use crate::cases::Look;
use crate::dialogue::{is_within, lines_of};
use crate::form::ReportForm;
use crate::masking::masked;
use crate::ordering::beginning;
use crate::page_slips::slip_html;
use crate::report::Report;
use crate::slip_kinds::{Role, SlipKind, SlipPlace, is_acknowledgement, kind_by, role_of};
use crate::slip_objects::slip_line;
use std::alloc::{AllocError, Global};
use zvt_apdu::ApduView;
use zvt_audit::ByControl;
use zvt_field::FieldsView;
use zvt_grammar::Lengths;
use zvt_page::{Element, leaf};
use zvt_text::{Text, text_block};
use zvt_trace::{Direction, Listener, ListenerError, Scope, TraceEvent, TraceFault, walk};

/// Writes the slips of a trace, as a report of this form has them.
#[derive(Drop)]
pub(crate) struct Slips {
    alloc: Global,
    form: ReportForm,
    /// The first and the last line of each part of the trace whose slips a page shows. Without any, it shows all.
    ranges: Option<Vec<(u64, u64)>>,
    text: Text,
    note: Text,
    /// The lines of the orders up to now.
    begun: Vec<u64>,
    /// The first and the last line of the slip of print lines that may go on.
    going: Option<(u64, u64)>,
    /// Its texts.
    texts: Vec<Text>,
}

/// Returns a text without its hidden digits.
fn masked_text(alloc: Global, bytes: &[u8]) -> Result<Text, AllocError>
    ensures { IfOk result (λ text. text ≡ masked bytes.now) }
{
    let mut text = Text::new(alloc);
    masked(&mut text, bytes)?;
    Ok(text)
}

/// Returns texts without their hidden digits.
fn masked_texts(alloc: Global, lines: &[&[u8]]) -> Result<Vec<Text>, AllocError>
    ensures { IfOk result (λ texts. texts.items ≡ map masked (map (λ line. line.now) lines.now)) }
{
    let mut texts = Vec::new(alloc);
    let mut rest = lines;
    'lines: while let [line, later @ ..] = rest {
        texts.push(masked_text(alloc, line)?)?;
        rest = later;
    }
    Ok(texts)
}

/// Writes a slip to a page, if it begins at one of the lines that the page shows.
fn slip_if_shown(
    text: &mut Text,
    note: &mut Text,
    ranges: &Option<Vec<(u64, u64)>>,
    place: &SlipPlace,
    texts: &[Text],
) -> Result<(), AllocError>
    ensures { OnOk result (text.new ≡ text.old
        ++ slip_text ReportForm.Page (option_map (λ ranges. ranges.items) ranges.now) (slip_at place.now texts.now)) }
{
    if !is_within(ranges, place.first) {
        return Ok(());
    }
    slip_html(text, note, place, texts)
}

/// Writes a slip in this form.
fn slip_text(
    text: &mut Text,
    note: &mut Text,
    form: ReportForm,
    ranges: &Option<Vec<(u64, u64)>>,
    place: &SlipPlace,
    texts: &[Text],
) -> Result<(), AllocError>
    ensures { OnOk result (text.new ≡ text.old
        ++ slip_text form (option_map (λ ranges. ranges.items) ranges.now) (slip_at place.now texts.now)) }
{
    match form {
        ReportForm::Text => Ok(()),
        ReportForm::Json => slip_line(text, place, texts),
        ReportForm::Page => slip_if_shown(text, note, ranges, place, texts),
    }
}

impl Listener for Slips {
    ghost use Rattle.std.specs.Prelude.{◌≡◌};
    ghost use Rattle.zvt_report.specs.SlipWalk.{Prints};
    ghost use Rattle.zvt_trace.specs.declared.listener.ListenerError.TheVariants.{Memory};

    ghost hears = { λ old event new. Prints old event new };

    ghost fails = { λ _ _ failure _. failure ≡ Memory };

    fn hear(&mut self, line: u64, trace_event: &TraceEvent<'_>) -> Result<(), ListenerError> {
        match trace_event {
            TraceEvent::Message { from, apdu, .. } => match from {
                Direction::FromTill => self.hear_till(line, apdu)?,
                Direction::FromTerminal => self.hear_terminal(line, apdu)?,
            },
            TraceEvent::Refused { .. } => self.close()?,
            TraceEvent::Lost => self.close()?,
            TraceEvent::Unread { .. } => self.close()?,
            TraceEvent::Resumed { .. } => self.close()?,
            TraceEvent::CutOff { .. } => self.close()?,
        }
        Ok(())
    }
}

impl Slips {
    /// Starts without slips.
    fn new(alloc: Global, form: ReportForm, ranges: Option<Vec<(u64, u64)>>) -> Slips
        ensures form { result.form ≡ form }
        ensures ranges { result.ranges ≡ ranges }
        ensures text { result.text ≡ [] }
        ensures begun { result.begun.items ≡ [] }
        ensures going { result.going ≡ None }
    {
        Slips {
            alloc,
            form,
            ranges,
            text: Text::new(alloc),
            note: Text::new(alloc),
            begun: Vec::new(alloc),
            going: None,
            texts: Vec::new(alloc),
        }
    }

    /// Writes the slip of print lines that goes on, if there is one.
    fn close(&mut self) -> Result<(), AllocError>
        ensures { OnOk result (Closes self.old [] self.new) }
    {
        if let Some((first, last)) = self.going {
            let place = SlipPlace {
                kind: SlipKind::PrintLines,
                first,
                last,
                order: self.begun.len(),
            };
            slip_text(
                &mut self.text,
                &mut self.note,
                self.form,
                &self.ranges,
                &place,
                self.texts.as_slice(),
            )?;
            self.going = None;
        }
        Ok(())
    }

    /// Returns the first line of the slip of print lines that goes on, or begins one at this line.
    fn first_line(&mut self, line: u64) -> u64
        ensures first { result ≡ first_by self.old.going line }
        ensures texts { self.new.texts.items ≡ kept self.old.going self.old.texts.items }
        ensures form { self.new.form ≡ self.old.form }
        ensures ranges { self.new.ranges ≡ self.old.ranges }
        ensures begun { self.new.begun.items ≡ self.old.begun.items }
        ensures text { self.new.text ≡ self.old.text }
    {
        match self.going {
            Some((first, _)) => first,
            None => {
                self.texts = Vec::new(self.alloc);
                line
            }
        }
    }

    /// Adds a print line to the slip that goes on, or begins one.
    fn print(&mut self, line: u64, apdu: &ApduView<'_>) -> Result<(), AllocError>
        ensures form { OnOk result (self.new.form ≡ self.old.form) }
        ensures ranges { OnOk result (self.new.ranges ≡ self.old.ranges) }
        ensures begun { OnOk result (self.new.begun.items ≡ self.old.begun.items) }
        ensures text { OnOk result (self.new.text ≡ self.old.text) }
        ensures going { OnOk result (self.new.going ≡ Option.Some (first_by self.old.going line, line)) }
        ensures texts { OnOk result (self.new.texts.items
            ≡ kept self.old.going self.old.texts.items ++ masked (text_of apdu.now) ∷ []) }
    {
        let first = self.first_line(line);
        let text = masked_text(self.alloc, apdu.text().unwrap_or(&[]))?;
        self.texts.push(text)?;
        self.going = Some((first, line));
        Ok(())
    }

    /// Writes the slip of a text block with these fields, if it has a text.
    fn add_block(&mut self, line: u64, fields: FieldsView<'_>) -> Result<(), AllocError>
        requires { self.old.going ≡ None }
        ensures { OnOk result (Closes self.old (slips_in (length self.old.begun.items) line fields.entry) self.new) }
    {
        let block = text_block(self.alloc, fields)?;
        if block.lines.is_empty() {
            return Ok(());
        }
        let texts = masked_texts(self.alloc, block.lines.as_slice())?;
        let place = SlipPlace {
            kind: kind_by(block.receipt_type),
            first: line,
            last: line,
            order: self.begun.len(),
        };
        slip_text(
            &mut self.text,
            &mut self.note,
            self.form,
            &self.ranges,
            &place,
            texts.as_slice(),
        )
    }

    /// Writes the slip of print lines that goes on, and then the slip of a text block.
    fn block(&mut self, line: u64, apdu: &ApduView<'_>) -> Result<(), AllocError>
        ensures { OnOk result (Closes self.old
            (slips_in (length self.old.begun.items) line (unwrap_or (fields_in apdu.now) [])) self.new) }
    {
        self.close()?;
        match apdu.fields() {
            Some(fields) => self.add_block(line, fields),
            None => Ok(()),
        }
    }

    /// Hears a message of the terminal.
    fn hear_terminal(&mut self, line: u64, apdu: &ApduView<'_>) -> Result<(), AllocError>
        ensures { OnOk result (Prints self.old (on line (trace_event.message FromTerminal apdu.now)) self.new) }
    {
        match role_of(apdu.kind()) {
            Role::Line => self.print(line, apdu),
            Role::Acknowledgement => Ok(()),
            Role::Block => self.block(line, apdu),
            Role::Other => self.close(),
        }
    }

    /// Notes an order of the till, if this message begins one.
    fn begin(&mut self, line: u64, apdu: &ApduView<'_>) -> Result<(), AllocError>
        ensures form { OnOk result (self.new.form ≡ self.old.form) }
        ensures ranges { OnOk result (self.new.ranges ≡ self.old.ranges) }
        ensures going { OnOk result (self.new.going ≡ self.old.going) }
        ensures text { OnOk result (self.new.text ≡ self.old.text) }
        ensures begun { OnOk result (length self.new.begun.items
            ≡ order_after (is_some (beginning apdu.now)) (length self.old.begun.items)) }
    {
        if beginning(apdu).is_some() {
            self.begun.push(line)?;
        }
        Ok(())
    }

    /// Hears a message of the till.
    fn hear_till(&mut self, line: u64, apdu: &ApduView<'_>) -> Result<(), AllocError>
        ensures { OnOk result (Prints self.old (on line (trace_event.message FromTill apdu.now)) self.new) }
    {
        if is_acknowledgement(role_of(apdu.kind())) {
            return Ok(());
        }
        self.close()?;
        self.begin(line, apdu)
    }
}

/// Writes slips under the heading of a page, if there are any.
fn headed_page(text: &mut Text, texts: &[u8]) -> Result<(), AllocError>
    ensures { OnOk result (text.new ≡ text.old ++ headed ReportForm.Page texts.now) }
{
    if texts.is_empty() {
        return Ok(());
    }
    leaf(text, Element::H2, b"", b"Printed by the terminal")?;
    text.word(texts)
}

/// Writes the slips of a report of this form.
fn headed(text: &mut Text, form: ReportForm, texts: &[u8]) -> Result<(), AllocError>
    ensures { OnOk result (text.new ≡ text.old ++ headed form texts.now) }
{
    match form {
        ReportForm::Text | ReportForm::Json => text.word(texts),
        ReportForm::Page => headed_page(text, texts),
    }
}

/// Returns what a report of this form writes of the slips of this trace.
pub(crate) fn slips_in(
    alloc: Global,
    form: ReportForm,
    scope: Scope,
    lengths: Lengths,
    report: &Report,
    looks: &[Look],
    trace: &[u8],
) -> Result<Text, TraceFault>
    requires { length trace.now ≤ limit }
    ensures { AnswersSlips (reading_of lengths) scope trace.now form report.now looks.now result }
{
    match form {
        ReportForm::Text => Ok(Text::new(alloc)),
        ReportForm::Json | ReportForm::Page => {
            walked_slips(alloc, form, scope, lengths, report, looks, trace)
        }
    }
}

/// Returns what objects or a page have of the slips of this trace.
fn walked_slips(
    alloc: Global,
    form: ReportForm,
    scope: Scope,
    lengths: Lengths,
    report: &Report,
    looks: &[Look],
    trace: &[u8],
) -> Result<Text, TraceFault>
    requires { length trace.now ≤ limit }
    ensures { AnswersWalked (reading_of lengths) scope trace.now form report.now looks.now result }
{
    let ranges = lines_of(alloc, report, looks)?;
    let mut by = ByControl {
        listener: Slips::new(alloc, form, ranges),
        scope,
        passed: 0,
    };
    walk(&mut by, alloc, scope, lengths, trace)?;
    let mut slips = by.listener;
    slips.close()?;
    let mut text = Text::new(alloc);
    headed(&mut text, form, slips.text.bytes())?;
    Ok(text)
}
