//! The till. Each call returns 0 if it succeeds. Otherwise it returns a status, changes nothing, and clears the step,
//! if it has one: 3 an allocation failed, 4 the buffer is too small, 5 an argument is out of range, 6 the handle is
//! closed, 7 the connection sent invalid bytes earlier, 10 to 17 the order is refused.
ghost use Rattle.std.specs.Prelude.{◌≡◌, ◌≤◌, ◌⊎◌, ◌&&◌, None, option_map, length, MatchBool, MatchOption, nat_le};
ghost use Rattle.std.specs.Prelude.{nat_lt, cond, slice_get};
ghost use Rattle.zvt_till.specs.Till.{outcome_at};
ghost use Rattle.zvt_settle.specs.Settling.{Line, take};
ghost use Rattle.zvt_apdu.specs.Briefs.{message_of_brief, PutsMessage};
ghost use Rattle.zvt_stream.specs.StreamState.{at_start};
ghost use Rattle.zvt_c.specs.States.{both_held, state_of, IsNewTill};
ghost use Rattle.zvt_c.specs.Numbers.{nothing, numbers_of, outcome_of, row_of, silent, unclear_row_of, IsStateOf};
ghost use Rattle.zvt_c.specs.Ordering.{OrdersEnd, OrdersHandle};
ghost use Rattle.zvt_c.specs.Statuses as statuses;

use crate::card::{Card, order_card};
use crate::handle::ZvtTill;
use crate::numbers::{
    ZvtEntry, ZvtState, ZvtStep, entry_numbers, no_step, order_of, outcome_numbers, refusal_status,
    running_number, unclear_numbers,
};
use crate::session::Session;
use crate::statuses;
use std::alloc::Global;
use zvt_apdu::MAX_BRIEF_LEN;
use zvt_bcd::{Amount, Currency};
use zvt_settle::SettlingTill;
use zvt_stream::Stream;
use zvt_till::{Cause, Happening, Numbers, Order, Outgoing, Till};

/// Opens a till in the handle. It is not connected. If the handle has a till, that till is freed. A registration
/// contains the password and the configuration byte unchanged. If the call does not return 0, nothing changes.
#[unsafe(no_mangle)]
pub extern "C" fn zvt_till_new(
    alloc: Global,
    till: &mut ZvtTill,
    password: u32,
    config: u8,
    currency: u16,
) -> u32
    ensures made { result ≡ statuses.ok → IsNewTill password config currency till.new.raw_handle.held }
    ensures argument { MatchBool (nat_le password 999999 && nat_le currency 9999)
        ((result ≡ statuses.ok) ⊎ (result ≡ statuses.no_memory)) (result ≡ statuses.argument) }
    ensures unchanged { (result ≡ statuses.ok → ⊥) → till.new.raw_handle.held ≡ till.old.raw_handle.held }
{
    let Some(currency) = Currency::new(currency) else {
        return statuses::ARGUMENT;
    };
    if password > 999_999 {
        return statuses::ARGUMENT;
    }
    let mut digits = [0; 3];
    zvt_bcd::put(u64::from(password), &mut digits);
    let end = Session {
        till: SettlingTill::new(alloc, Till::new(alloc, digits, config, currency)),
        stream: Stream::new(alloc),
        card: Card::none(),
    };
    match Box::new(alloc, end) {
        Ok(end) => {
            let _ = till.take(alloc);
            *till = ZvtTill::of(end);
            statuses::OK
        }
        Err(_) => statuses::NO_MEMORY,
    }
}

/// Frees the till. The handle is then closed.
#[unsafe(no_mangle)]
pub extern "C" fn zvt_till_free(alloc: Global, till: &mut ZvtTill)
    ensures { state_of till.new ≡ None }
{
    let _ = till.take(alloc);
}

/// Notifies the till that a new connection is up.
#[unsafe(no_mangle)]
pub extern "C" fn zvt_till_connected(alloc: Global, till: &mut ZvtTill) -> u32
    ensures state { both_held till.new ≡ option_map (λ both. take both (Line Happening.Connected))
        (both_held till.old) }
    ensures stream { option_map (λ end. end.stream) till.new.raw_handle.held ≡ option_map (λ _. at_start)
        till.old.raw_handle.held }
    ensures card { option_map (λ end. end.card) till.new.raw_handle.held ≡ option_map (λ end. end.card)
        till.old.raw_handle.held }
    ensures said { MatchOption till.old.raw_handle.held (result ≡ statuses.closed) (λ _. result ≡ statuses.ok) }
{
    let Some(mut end) = till.take(alloc) else {
        return statuses::CLOSED;
    };
    end.till.connected();
    end.stream = Stream::new(alloc);
    *till = ZvtTill::of(end);
    statuses::OK
}

/// Notifies the till that the connection was lost. A running order or ask ends with it.
#[unsafe(no_mangle)]
pub extern "C" fn zvt_till_lost(alloc: Global, till: &mut ZvtTill, answer: &mut ZvtStep) -> u32
    ensures state { both_held till.new ≡ option_map (λ both. take both (Line Happening.Lost)) (both_held till.old) }
    ensures card { option_map (λ end. end.card) till.new.raw_handle.held ≡ option_map (λ end. end.card)
        till.old.raw_handle.held }
    ensures said { MatchOption till.old.raw_handle.held ((result ≡ statuses.closed) × (answer.new ≡ nothing))
        (λ end. (result ≡ statuses.ok)
        × (answer.new ≡ silent 0 0 0 (outcome_of (outcome_at end.till.till.state Happening.Lost)))) }
{
    *answer = no_step();
    let Some(mut end) = till.take(alloc) else {
        return statuses::CLOSED;
    };
    answer.outcome = outcome_numbers(end.till.lost());
    *till = ZvtTill::of(end);
    statuses::OK
}

/// Writes a message to the start of `out`, which has room for it, and returns its size.
pub(crate) fn write_message(outgoing: &Outgoing, out: &mut [u8]) -> usize
    requires { 32 ≤ length out.old }
    ensures written { PutsMessage (message_of_brief outgoing.now.brief) out.old out.new result }
    ensures capacity { result ≤ length out.old }
{
    let mut buffer = [0; MAX_BRIEF_LEN];
    let size = outgoing.put(&mut buffer);
    out[..size].copy_from_slice(&buffer[..size]);
    size
}

/// Clears the answer, and returns whether there is less room than a message may need.
pub(crate) fn lacks_capacity(out: &[u8], answer: &mut ZvtStep) -> bool
    ensures lacks { result ≡ nat_lt (length out.now) 32 }
    ensures cleared { answer.new ≡ nothing }
{
    let lacks = out.len() < 32;
    *answer = no_step();
    lacks
}

/// Gives the till an order. Writes the bytes to send to `out`, which needs room for 32.
#[unsafe(no_mangle)]
pub extern "C" fn zvt_till_order(
    alloc: Global,
    till: &mut ZvtTill,
    kind: u32,
    number: u64,
    out: &mut [u8],
    answer: &mut ZvtStep,
) -> u32
    ensures { MatchBool (nat_lt (length out.old) 32) ((till.new.raw_handle.held ≡ till.old.raw_handle.held)
        × (out.new ≡ out.old) × (answer.new ≡ nothing) × (result ≡ statuses.too_small))
        (OrdersHandle till.old.raw_handle.held kind number till.new.raw_handle.held out.old out.new answer.new result) }
{
    if lacks_capacity(out, answer) {
        return statuses::TOO_SMALL;
    }
    let Some(order) = order_of(kind, number) else {
        return statuses::ARGUMENT;
    };
    let Some(mut end) = till.take(alloc) else {
        return statuses::CLOSED;
    };
    let status = give(&mut end, order, out, answer);
    *till = ZvtTill::of(end);
    status
}

/// Gives the till of a session an order.
fn give(end: &mut Session, order: Order, out: &mut [u8], answer: &mut ZvtStep) -> u32
    requires { 32 ≤ length out.old }
    ensures { OrdersEnd end.old order end.new out.old out.new answer.new result }
{
    match end.till.order(order) {
        Ok(outgoing) => {
            order_card(&mut end.card, &order);
            *answer = ZvtStep {
                send: write_message(&outgoing, out) as u64,
                ..no_step()
            };
            statuses::OK
        }
        Err(why) => {
            *answer = no_step();
            refusal_status(why)
        }
    }
}

/// Reports the state of the till.
#[unsafe(no_mangle)]
pub extern "C" fn zvt_till_state(alloc: Global, till: &mut ZvtTill, state: &mut ZvtState) -> u32
    ensures same { till.new.raw_handle.held ≡ till.old.raw_handle.held }
    ensures said { MatchOption till.old.raw_handle.held (result ≡ statuses.closed)
        (λ end. (result ≡ statuses.ok) × IsStateOf end state.new) }
{
    let Some(end) = till.take(alloc) else {
        return statuses::CLOSED;
    };
    *state = ZvtState {
        total: end.till.till().total(),
        booked: end.till.till().book().len() as u64,
        unclear: end.till.till().unclear().len() as u64,
        unclear_reversals: end.till.till().unclear_reversals() as u64,
        settled: end.till.settled().len() as u64,
        held: end.stream.held() as u64,
        registered: u32::from(end.till.till().registered()),
        running: running_number(end.till.is_asking(), end.till.till().running()),
        last: outcome_numbers(end.till.till().last_outcome()),
    };
    *till = ZvtTill::of(end);
    statuses::OK
}

/// Reports the entry of the book at this index, counted from 0.
#[unsafe(no_mangle)]
pub extern "C" fn zvt_till_entry(
    alloc: Global,
    till: &mut ZvtTill,
    place: usize,
    entry: &mut ZvtEntry,
) -> u32
    ensures same { till.new.raw_handle.held ≡ till.old.raw_handle.held }
    ensures row { MatchOption till.old.raw_handle.held (result ≡ statuses.closed)
        (λ end. MatchOption (slice_get end.till.till.state.book place) (result ≡ statuses.argument)
        (λ row. (result ≡ statuses.ok) × (entry.new ≡ row_of row))) }
{
    let Some(end) = till.take(alloc) else {
        return statuses::CLOSED;
    };
    let status = match end.till.till().book().get(place) {
        Some(row) => {
            *entry = entry_numbers(row);
            statuses::OK
        }
        None => statuses::ARGUMENT,
    };
    *till = ZvtTill::of(end);
    status
}

/// Returns the unclear payment at this index, with the numbers that the terminal named for it.
fn row_at(unclear: &[(Amount, Cause)], heard: &[Numbers], place: usize) -> Option<ZvtEntry>
    ensures { result ≡ option_map (λ row. unclear_row_of row (numbers_of (slice_get heard.now place)))
        (slice_get unclear.now place) }
{
    let numbers = match heard.get(place) {
        Some(numbers) => *numbers,
        None => Numbers::none(),
    };
    match unclear.get(place) {
        Some(row) => Some(unclear_numbers(row, numbers)),
        None => None,
    }
}

/// Returns the unclear payment at this index.
fn unclear_at(till: &Till, place: usize) -> Option<ZvtEntry>
    ensures { result ≡ option_map (λ row. unclear_row_of row (numbers_of (slice_get till.now.heard place)))
        (slice_get till.now.state.unclear place) }
{
    row_at(till.unclear(), till.heard(), place)
}

/// Reports the unclear payment at this index, counted from 0, with the trace and receipt numbers that the terminal
/// named for it.
#[unsafe(no_mangle)]
pub extern "C" fn zvt_till_unclear(
    alloc: Global,
    till: &mut ZvtTill,
    place: usize,
    entry: &mut ZvtEntry,
) -> u32
    ensures same { till.new.raw_handle.held ≡ till.old.raw_handle.held }
    ensures row { MatchOption till.old.raw_handle.held (result ≡ statuses.closed)
        (λ end. MatchOption (slice_get end.till.till.state.unclear place) (result ≡ statuses.argument)
        (λ row. (result ≡ statuses.ok)
        × (entry.new ≡ unclear_row_of row (numbers_of (slice_get end.till.till.heard place))))) }
{
    let Some(end) = till.take(alloc) else {
        return statuses::CLOSED;
    };
    let status = match unclear_at(end.till.till(), place) {
        Some(row) => {
            *entry = row;
            statuses::OK
        }
        None => statuses::ARGUMENT,
    };
    *till = ZvtTill::of(end);
    status
}
