//! The members of the objects of a report.
ghost use Rattle.std.specs.Prelude.{◌≡◌};
ghost use Rattle.std.specs.Option.{option_and_then};
ghost use Rattle.zvt_report.specs.CardObjects.{card_value, maybe_card, maybe_card_number};
ghost use Rattle.zvt_report.specs.Objects.{amount_at, approved_of, cause_of, code, code_of, command};
ghost use Rattle.zvt_report.specs.Objects.{control, count, ending, lines, maybe_cause, maybe_count};
ghost use Rattle.zvt_report.specs.Objects.{maybe_currency, maybe_receipt, maybe_terminal, payment_for, receipt_by};
ghost use Rattle.zvt_report.specs.Objects.{reversed_at, said_as, taken_back_at, trace_by, true_if, unclear_at, words};
ghost use Rattle.zvt_report.specs.declared.cards.Card.{Card};
ghost use Rattle.zvt_report.specs.declared.members.Name.TheVariants as name;

use crate::cards::{Card, card_number};
use crate::endings::ending_of;
use crate::members::{Member, Name, Value, Word};
use crate::order_names::order_name;
use crate::places;
use crate::rows::{Approval, OrderMessage, OrderRow};
use zvt_bcd::{Amount, Currency, Trace};
use zvt_text::meaning;
use zvt_till::{Cause, Doubt, Entry, Outcome};

/// Returns the cause of an unclear order.
pub(crate) fn cause_of(outcome: &Outcome) -> Option<Cause>
    ensures { result ≡ cause_of outcome.now }
{
    match outcome {
        Outcome::Unclear(cause) => Some(*cause),
        _ => None,
    }
}

/// Returns the terminal's result code, if the order ended with one.
fn code_of(outcome: &Outcome) -> Option<u8>
    ensures { result ≡ code_of outcome.now }
{
    match outcome {
        Outcome::Declined(code) | Outcome::Refused(code) | Outcome::Aborted(code) => Some(*code),
        _ => None,
    }
}

/// Returns the trace number of a booked payment, or of the first approval.
pub(crate) fn trace_by(outcome: &Outcome, approval: &Option<Approval>) -> Option<Trace>
    ensures { result ≡ trace_by outcome.now approval.now }
{
    if let Outcome::Paid { trace, .. } = outcome {
        return Some(*trace);
    }
    match approval {
        Some(approval) => approval.trace,
        None => None,
    }
}

/// Returns the receipt number of a booked payment, or of the first approval.
pub(crate) fn receipt_by(outcome: &Outcome, approval: &Option<Approval>) -> Option<[u8; 2]>
    ensures { result ≡ receipt_by outcome.now approval.now }
{
    if let Outcome::Paid { receipt, .. } = outcome {
        return *receipt;
    }
    match approval {
        Some(approval) => approval.receipt,
        None => None,
    }
}

/// Returns the amount that the terminal approved first.
pub(crate) fn approved_of(row: &OrderRow) -> Option<Amount>
    ensures { result ≡ approved_of row.now }
{
    match &row.approval {
        Some(approval) => Some(approval.amount),
        None => None,
    }
}

/// Returns the amount of the entry at this place.
pub(crate) fn amount_at(book: &[Entry], place: Option<usize>) -> Option<Amount>
    ensures { result ≡ amount_at book.now place }
{
    match book.get(place?) {
        Some(entry) => Some(entry.amount),
        None => None,
    }
}

/// Returns why the last reversal of the entry at this place is unclear, if it is.
pub(crate) fn unclear_at(book: &[Entry], place: Option<usize>) -> Option<Cause>
    ensures { result ≡ unclear_at book.now place }
{
    match book.get(place?)?.doubt {
        Doubt::Unclear(cause) => Some(cause),
        Doubt::No | Doubt::TakenBack => None,
    }
}

/// Whether the terminal had taken back the entry at this place before a reversal.
pub(crate) fn taken_back_at(book: &[Entry], place: Option<usize>) -> bool
    ensures { result ≡ taken_back_at book.now place }
{
    let Some(place) = place else {
        return false;
    };
    match book.get(place) {
        Some(entry) => matches!(entry.doubt, Doubt::TakenBack),
        None => false,
    }
}

/// Returns the number of the payment that booked the entry at this place.
pub(crate) fn payment_for(place: Option<usize>, rows: &[OrderRow]) -> Option<usize>
    ensures { result ≡ payment_for place rows.now }
{
    places::payment_of(place?, rows)
}

/// Returns the number of the order that took back the entry at this place.
pub(crate) fn reversed_at(place: Option<usize>, rows: &[OrderRow]) -> Option<usize>
    ensures { result ≡ reversed_at place rows.now }
{
    places::reversed_by(place?, rows)
}

/// Returns a member with this value.
pub(crate) fn said_as(name: Name, value: Value) -> Option<Member>
    ensures { result ≡ said_as name value }
{
    Some(Member { name, value })
}

/// Returns a member with this number.
pub(crate) fn count(name: Name, number: u64) -> Option<Member>
    ensures { result ≡ count name number }
{
    said_as(name, Value::Count(u128::from(number)))
}

/// Returns a member with this number, if there is one.
pub(crate) fn maybe_count(name: Name, number: Option<usize>) -> Option<Member>
    ensures { result ≡ maybe_count name number }
{
    count(name, number? as u64)
}

/// Returns a member with this amount, if there is one.
pub(crate) fn maybe_amount(name: Name, amount: Option<Amount>) -> Option<Member>
    ensures { result ≡ maybe_count name amount }
{
    count(name, amount?.get())
}

/// Returns a member with this trace number, if there is one.
pub(crate) fn maybe_trace(trace: Option<Trace>) -> Option<Member>
    ensures { result ≡ maybe_count name.Trace trace }
{
    count(Name::Trace, u64::from(trace?.get()))
}

/// Returns a member with this cause, if there is one.
pub(crate) fn maybe_cause(name: Name, cause: Option<Cause>) -> Option<Member>
    ensures { result ≡ maybe_cause name cause }
{
    said_as(name, Value::Word(Word::Cause(cause?)))
}

/// Returns the member of a receipt number, if there is one.
pub(crate) fn maybe_receipt(receipt: Option<[u8; 2]>) -> Option<Member>
    ensures { result ≡ maybe_receipt receipt }
{
    said_as(Name::Receipt, Value::Bytes(receipt?))
}

/// Returns the name of a card, or else of its type.
fn card_value(card_type: &Option<u8>, name: &Option<[u8; 24]>) -> Option<Value>
    ensures { result ≡ card_value card_type.now name.now }
{
    match (card_type, name) {
        (_, Some(name)) => Some(Value::CardName(*name)),
        (Some(card_type), None) => Some(Value::Word(Word::CardType(*card_type))),
        (None, None) => None,
    }
}

/// Returns the value of a card's name, if it has one.
fn card_name(card: &Option<Card>) -> Option<Value>
    ensures { result ≡ option_and_then (λ (c : Card). card_value c.card_type c.name) card.now }
{
    match card {
        Some(card) => card_value(&card.card_type, &card.name),
        None => None,
    }
}

/// Returns the member of a card's name, if it has one.
pub(crate) fn maybe_card(card: &Option<Card>) -> Option<Member>
    ensures { result ≡ maybe_card card.now }
{
    match card_name(card) {
        Some(name) => said_as(Name::Card, name),
        None => None,
    }
}

/// Returns the member of a card's masked number, if it has one.
pub(crate) fn maybe_card_number(card: &Option<Card>) -> Option<Member>
    ensures { result ≡ maybe_card_number card.now }
{
    said_as(Name::CardNumber, Value::CardNumber(card_number(card)?))
}

/// Returns the member of a currency, if there is one.
pub(crate) fn maybe_currency(currency: Option<Currency>) -> Option<Member>
    ensures { result ≡ maybe_currency currency }
{
    said_as(Name::Currency, Value::Currency(currency?))
}

/// Returns the member of a terminal identifier, if there is one.
pub(crate) fn maybe_terminal(terminal: Option<[u8; 4]>) -> Option<Member>
    ensures { result ≡ maybe_terminal terminal }
{
    said_as(Name::Terminal, Value::Terminal(terminal?))
}

/// Returns a member that is true, if this holds.
pub(crate) fn true_if(name: Name, holds: bool) -> Option<Member>
    ensures { result ≡ true_if name holds }
{
    if holds {
        said_as(name, Value::True)
    } else {
        None
    }
}

/// Returns the member of the terminal's result code, if there is one.
pub(crate) fn code(outcome: &Outcome) -> Option<Member>
    ensures { result ≡ code outcome.now }
{
    said_as(Name::Code, Value::Byte(code_of(outcome)?))
}

/// Returns the member of the meaning of the terminal's result code, if it has one.
pub(crate) fn words(outcome: &Outcome) -> Option<Member>
    ensures { result ≡ words outcome.now }
{
    let code = code_of(outcome)?;
    match meaning(code) {
        Some(_) => said_as(Name::Words, Value::Word(Word::Meaning(code))),
        None => None,
    }
}

/// Returns the member of the first and the last line of an order.
pub(crate) fn lines(row: &OrderRow) -> Option<Member>
    ensures { result ≡ lines row.now }
{
    said_as(Name::Lines, Value::Lines(row.first, row.last))
}

/// Returns the member of the word for the outcome of an order.
pub(crate) fn ending(row: &OrderRow) -> Option<Member>
    ensures { result ≡ ending row.now }
{
    let ending = ending_of(&row.order, &row.outcome);
    said_as(Name::Outcome, Value::Word(Word::Ending(ending)))
}

/// Returns the member of the control bytes of an order.
pub(crate) fn control(message: &OrderMessage) -> Option<Member>
    ensures { result ≡ control message.now }
{
    said_as(Name::Control, Value::Bytes([message.high, message.low]))
}

/// Returns the member of the name of an order, if it has one.
pub(crate) fn command(message: &OrderMessage) -> Option<Member>
    ensures { result ≡ command message.now }
{
    match order_name(message.high, message.low) {
        Some(_) => said_as(
            Name::Name,
            Value::Word(Word::Command(message.high, message.low)),
        ),
        None => None,
    }
}
