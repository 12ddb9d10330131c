//! What the terminal's status informations say about an order.
//!
//! `day` judges the outcome of an order and its first approval. Everything else that a status says is kept here.
ghost use Rattle.std.specs.Prelude.{◌≡◌};
ghost use Rattle.std.specs.Option.{option_copied};
ghost use Rattle.zvt_field.specs.Named.{content_of};
ghost use Rattle.zvt_report.specs.Statements.{card_by, declines_by, stating, undoing_by};

use crate::card_totals::{CardTotals, total_in, totals_in};
use crate::cards::{Card, card_in};
use std::alloc::{AllocError, Global};
use zvt_apdu::{ApduView, Kind};
use zvt_bcd::Trace;
use zvt_field::FieldsView;
use zvt_till::{Happening, Heard, ends, heard_view};

/// The BMP of an amount.
const AMOUNT: u8 = 0x04;

/// The BMP of a card number.
const CARD_NUMBER: u8 = 0x22;

/// The BMP of the totals by card.
const TOTALS: u8 = 0x60;

/// The BMP of a card type.
const CARD_TYPE: u8 = 0x8A;

/// The BMP of a card name.
const CARD_NAME: u8 = 0x8B;

/// A status information that names an original: it takes back what was approved under that trace number.
#[derive(Clone, Copy)]
pub struct Undoing {
    /// The original trace number as read: three bytes, which need not be digits.
    pub original: [u8; 3],
    /// Its own trace number, if there is exactly one.
    pub trace: Option<Trace>,
}

/// What the status informations of an order say.
#[derive(Clone, Copy)]
pub struct Statement {
    /// Whether one of them declines the order.
    pub declines: bool,
    /// The total in BMP 04 of the last one, if it appears exactly once.
    pub total: Option<u64>,
    /// The totals by card in the last one, if it has them exactly once.
    pub totals: Option<CardTotals>,
    /// The card that the first one with result 00 names, of those that name one.
    pub card: Option<Card>,
    /// The first one that names exactly one original.
    pub undoing: Option<Undoing>,
}

impl Statement {
    ghost use Rattle.std.specs.Prelude.{◌≡◌};
    ghost use Rattle.zvt_report.specs.Statements.{after_status, no_statement};

    /// Starts before the first status.
    pub(crate) fn none() -> Statement
        ensures { result ≡ no_statement }
    {
        Statement {
            declines: false,
            total: None,
            totals: None,
            card: None,
            undoing: None,
        }
    }

    /// Returns the statement after a status with these fields.
    fn after(&self, fields: &FieldsView<'_>) -> Statement
        ensures { result ≡ after_status self.now fields.now }
    {
        // Names a type in a statement, which the proof asks for.
        let _trace: Option<Trace> = None;
        Statement {
            declines: self.declines || declines_by(fields),
            total: total_in(content_of(fields, AMOUNT)),
            totals: totals_in(content_of(fields, TOTALS)),
            card: self.card.or(card_by(fields)),
            undoing: self.undoing.or(undoing_by(fields)),
        }
    }
}

/// Whether a status with these fields declines its order.
fn declines_by(fields: &FieldsView<'_>) -> bool
    ensures { result ≡ declines_by fields.now }
{
    match fields.result() {
        Some(code) => code != 0,
        None => false,
    }
}

/// Returns the card that a status with these fields names, if its result is 00.
fn card_by(fields: &FieldsView<'_>) -> Option<Card>
    ensures { result ≡ card_by fields.now }
{
    match fields.result() {
        Some(0) => card_in(
            content_of(fields, CARD_TYPE),
            content_of(fields, CARD_NAME),
            content_of(fields, CARD_NUMBER),
        ),
        _ => None,
    }
}

/// Returns what a status with these fields takes back, if it names exactly one original.
fn undoing_by(fields: &FieldsView<'_>) -> Option<Undoing>
    ensures { result ≡ undoing_by fields.now }
{
    Some(Undoing {
        original: fields.original()?,
        trace: fields.trace(),
    })
}

/// Returns the bytes of the field with this BMP, if it appears exactly once and is not a container.
pub(crate) fn content_of<'a>(fields: &FieldsView<'a>, bmp: u8) -> Option<&'a [u8]>
    ensures { option_copied result ≡ content_of bmp fields.now }
{
    let field = fields.only(bmp)?;
    match field.tree() {
        Some(_) => None,
        None => Some(field.content),
    }
}

/// Returns the fields of a status information.
fn stating<'a>(apdu: &ApduView<'a>) -> Option<FieldsView<'a>>
    ensures { result ≡ stating apdu.now }
{
    match apdu.kind() {
        Kind::Status => apdu.fields(),
        _ => None,
    }
}

/// The running order, as far as the terminal has answered it.
#[derive(Clone, Copy)]
pub(crate) struct Attention {
    /// Whether the terminal has accepted the order.
    pub(crate) accepted: bool,
    pub(crate) statement: Statement,
}

impl Attention {
    ghost use Rattle.std.specs.Prelude.{◌≡◌};
    ghost use Rattle.zvt_report.specs.Statements.{attends, attention, stated_with};

    /// Starts with an order that was just sent.
    fn new() -> Attention
        ensures { result ≡ attention }
    {
        Attention {
            accepted: false,
            statement: Statement::none(),
        }
    }

    /// Returns the statement after this message of the terminal.
    fn stated(&self, apdu: &ApduView<'_>) -> Statement
        ensures { result ≡ stated_with self.now.statement (stating apdu.now) }
    {
        match stating(apdu) {
            Some(fields) => self.statement.after(&fields),
            None => self.statement,
        }
    }

    /// Returns the attention after a message of the terminal that does not end the order.
    fn after(&self, heard: &Heard, apdu: &ApduView<'_>) -> Attention
        ensures { result ≡ attends self.now heard.now apdu.now }
    {
        Attention {
            accepted: self.accepted || matches!(heard, Heard::Positive),
            statement: self.stated(apdu),
        }
    }
}

/// Listens to the status informations of the orders of a trace.
#[derive(Drop)]
pub(crate) struct Hearing {
    /// What was stated about each order that has ended.
    pub(crate) statements: Vec<Statement>,
    /// The order that has not ended yet.
    pub(crate) current: Option<Attention>,
}

impl Hearing {
    ghost use Rattle.std.specs.Prelude.{◌≡◌, ℕ, [], None, IfOk, OnOk};
    ghost use Rattle.zvt_trace.specs.TraceEvent as trace_event;
    ghost use Rattle.zvt_trace.specs.TraceEvent.{on};
    ghost use Rattle.zvt_trace.specs.declared.direction.Direction.TheVariants.{FromTerminal};
    ghost use Rattle.zvt_report.specs.Statements.{Begins, Ends, States, stated};

    /// Starts before the first order.
    pub(crate) fn new(alloc: Global) -> Hearing
        ensures statements { result.statements.items ≡ [] }
        ensures current { result.current ≡ None }
    {
        Hearing {
            statements: Vec::new(alloc),
            current: None,
        }
    }

    /// Ends the running order.
    pub(crate) fn end(&mut self) -> Result<(), AllocError>
        ensures { OnOk result (Ends self.old self.new) }
    {
        // Names types in a statement, which the proof asks for.
        let _undoing: Option<Undoing> = None;
        let _trace: Option<Trace> = None;
        if let Some(attention) = self.current {
            self.statements.push(attention.statement)?;
            self.current = None;
        }
        Ok(())
    }

    /// Hears a message of the till, which begins an order or not.
    pub(crate) fn take_order(&mut self, begins: bool) -> Result<(), AllocError>
        ensures { OnOk result (Begins begins self.old self.new) }
    {
        if begins {
            self.end()?;
            self.current = Some(Attention::new());
        }
        Ok(())
    }

    /// Hears a message of the terminal.
    pub(crate) fn take_answer(&mut self, apdu: &ApduView<'_>) -> Result<(), AllocError>
        ensures { OnOk result ((line : ℕ)
            → States self.old (on line (trace_event.message FromTerminal apdu.now)) self.new) }
    {
        let Some(attention) = self.current else {
            return Ok(());
        };
        let heard = heard_view(apdu);
        if ends(attention.accepted, &Happening::Heard(heard)) {
            self.end()
        } else {
            self.current = Some(attention.after(&heard, apdu));
            Ok(())
        }
    }

    /// Ends the running order, and returns what was stated about each order.
    pub(crate) fn finish(self) -> Result<Vec<Statement>, AllocError>
        ensures { IfOk result (λ found. found.items ≡ stated self []) }
    {
        let mut hearing = self;
        hearing.end()?;
        Ok(hearing.statements)
    }
}
