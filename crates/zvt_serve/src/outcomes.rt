//! What clients are told about orders, and which orders they ask for.
ghost use Rattle.std.specs.Prelude.{◌≡◌, IfOk, option_map};
ghost use Rattle.zvt_kept.specs.KeptTill.{has_failed};
ghost use Rattle.zvt_service.specs.Books.{order_found};
ghost use Rattle.zvt_service.specs.Service.{found_by, is_known, state_of};
ghost use Rattle.zvt_serve.specs.Outcomes.{TellsKey, TellsNow, TellsOrder, event_of, is_reversed, is_taken_back};
ghost use Rattle.zvt_serve.specs.Outcomes.{paid_trace, payment, place_in, reversal, trouble_of};

use crate::answers::{outcome_status, put_answer, put_end};
use crate::troubles::Trouble;
use std::alloc::{AllocError, Global};
use zvt_bcd::{Amount, Currency, Trace};
use zvt_journal::Device;
use zvt_kept::PastOrder;
use zvt_service::{Fate, Found, Service, Ungiven};
use zvt_text::Text;
use zvt_till::{BookFault, Entry, Order, Outcome, Till, Untaken};

/// An answer, before it is bytes.
#[derive(Drop)]
pub(crate) struct Answer {
    pub(crate) status: u16,
    pub(crate) body: Text,
    /// The path for the header `Location`.
    pub(crate) location: Option<Text>,
    pub(crate) retry_after: Option<&'static [u8]>,
    /// Whether the answer was given before.
    pub(crate) is_replayed: bool,
}

impl Answer {
    ghost use Rattle.std.specs.Prelude.{◌≡◌, IfOk};
    ghost use Rattle.zvt_serve.specs.Outcomes.{TellsTrouble};

    /// Creates an answer without optional headers.
    pub(crate) fn new(status: u16, body: Text) -> Answer
        ensures status { result.status ≡ status }
        ensures body { result.body ≡ body }
    {
        Answer {
            status,
            body,
            location: None,
            retry_after: None,
            is_replayed: false,
        }
    }

    /// Returns the answer to a request that is not answered by an outcome.
    pub(crate) fn of_trouble(alloc: Global, trouble: Trouble) -> Result<Answer, AllocError>
        ensures { IfOk result (TellsTrouble trouble) }
    {
        let mut body = Text::new(alloc);
        trouble.put_body(&mut body)?;
        Ok(Answer {
            retry_after: trouble.retry_after(),
            ..Answer::new(trouble.status(), body)
        })
    }
}

/// Returns the answer for a key: what became of its order, or that nobody learns it any more. Returns `None` while the
/// order is running.
pub(crate) fn answer_for<D: Device>(
    alloc: Global,
    service: &Service<D>,
    key: &[u8],
) -> Result<Option<Answer>, AllocError>
    ensures { IfOk result (TellsKey key.now (has_failed service.now.kept) (found_by key.now service.now)) }
{
    let Some(found) = service.find(key) else {
        return Ok(Some(Answer::of_trouble(alloc, Trouble::UnknownKey)?));
    };
    if found.past.outcome.is_some() {
        return Ok(Some(answer_of(alloc, key, &found)?));
    }
    if service.has_failed() {
        return Ok(Some(Answer::of_trouble(alloc, Trouble::Interrupted)?));
    }
    Ok(None)
}

/// Returns the answer for a key now: what became of its order, that it is running, or that nobody learns its end any
/// more.
pub(crate) fn look<D: Device>(
    alloc: Global,
    service: &Service<D>,
    key: &[u8],
) -> Result<Answer, AllocError>
    ensures { IfOk result (TellsNow key.now (has_failed service.now.kept) (found_by key.now service.now)) }
{
    let Some(found) = service.find(key) else {
        return Answer::of_trouble(alloc, Trouble::UnknownKey);
    };
    if found.past.outcome.is_none() && service.has_failed() {
        return Answer::of_trouble(alloc, Trouble::Interrupted);
    }
    answer_of(alloc, key, &found)
}

/// Returns the answer for the order with this key.
fn answer_of(alloc: Global, key: &[u8], found: &Found<'_>) -> Result<Answer, AllocError>
    ensures { IfOk result (TellsOrder key.now (order_found found.now)) }
{
    let past = found.past;
    let mut body = Text::new(alloc);
    let reversed = is_reversed(found.entries, &past.outcome);
    put_answer(&mut body, Some(key), &past.order, &found.fate, reversed)?;
    Ok(Answer {
        location: location_of(alloc, key, past)?,
        ..Answer::new(outcome_status(&found.fate), body)
    })
}

/// Returns the path at which the outcome of a running order will be.
fn location_of(alloc: Global, key: &[u8], past: &PastOrder) -> Result<Option<Text>, AllocError> {
    if past.outcome.is_some() {
        return Ok(None);
    }
    let mut path = Text::new(alloc);
    path.word(b"/payments/")?;
    path.word(key)?;
    Ok(Some(path))
}

/// Returns a payment of this amount, if the till takes the currency.
pub(crate) fn payment(
    till: &Till,
    amount: Amount,
    currency: Option<Currency>,
) -> Result<Order, Trouble>
    ensures { result ≡ payment till.now.state.settings.currency amount currency }
{
    match currency {
        Some(currency) if currency.get() != till.currency().get() => Err(Trouble::OtherCurrency),
        _ => Ok(Order::Pay(amount)),
    }
}

/// Returns the reversal of the payment with the key `payment`, which a request with this key asks for.
///
/// A payment of an earlier book can be reversed no more. It is named only to repeat the answer for a known key.
pub(crate) fn reversal<D: Device>(
    service: &Service<D>,
    key: &[u8],
    payment: &[u8],
) -> Result<Order, Trouble>
    ensures { result ≡ reversal (is_known key.now service.now) (found_by payment.now service.now) }
{
    let Some(found) = service.find(payment) else {
        return Err(Trouble::NoPayment);
    };
    let Some(trace) = paid_trace(&found.past.outcome) else {
        return Err(Trouble::NoPayment);
    };
    let Some(at) = place_in(found.entries, trace) else {
        return Err(Trouble::NoPayment);
    };
    if found.is_own || service.find(key).is_some() {
        Ok(Order::Reverse(at))
    } else {
        Err(Trouble::OtherBook)
    }
}

/// Returns the event of an order that ended, if it has a key.
pub(crate) fn end_of(alloc: Global, past: &PastOrder) -> Result<Option<Vec<u8>>, AllocError>
    ensures { IfOk result (λ event. option_map (λ line. line.items) event ≡ event_of past.now) }
{
    let Some(key) = past.note.reference() else {
        return Ok(None);
    };
    let mut text = Text::new(alloc);
    put_end(&mut text, key, &Fate::unsettled(past.outcome))?;
    Ok(Some(Vec::from_slice(alloc, text.bytes())?))
}

/// Returns the trace number of a payment that was booked.
fn paid_trace(outcome: &Option<Outcome>) -> Option<Trace>
    ensures { result ≡ paid_trace outcome.now }
{
    match outcome {
        Some(Outcome::Paid { trace, .. }) => Some(*trace),
        _ => None,
    }
}

/// Returns the index of the entry with this trace number.
fn place_in(book: &[Entry], trace: Trace) -> Option<usize>
    ensures { result ≡ place_in book.now trace }
{
    book.iter()
        .position(|entry| entry.trace.get() == trace.get())
}

/// Returns whether a completed reversal took this payment back.
fn is_reversed(book: &[Entry], outcome: &Option<Outcome>) -> bool
    ensures { result ≡ is_reversed book.now outcome.now }
{
    match paid_trace(outcome) {
        Some(trace) => is_taken_back(book, trace),
        None => false,
    }
}

/// Returns whether an entry with this trace number was taken back.
fn is_taken_back(book: &[Entry], trace: Trace) -> bool
    ensures { result ≡ is_taken_back book.now trace }
{
    book.iter()
        .any(|entry| entry.trace.get() == trace.get() && entry.reversed)
}

/// Returns what a client is told about an order that was not given.
pub(crate) fn trouble_of(why: Ungiven) -> Trouble
    ensures { result ≡ trouble_of why }
{
    match why {
        Ungiven::Known => Trouble::KeyReused,
        Ungiven::Till(Untaken::Order(why)) => Trouble::Refused(why),
        Ungiven::Till(Untaken::Book(BookFault::NoSpace)) => Trouble::NoSpace,
        Ungiven::Till(Untaken::Book(BookFault::Failed)) => Trouble::Book,
        Ungiven::Memory => Trouble::Memory,
    }
}
