//! Processes input from the terminal. The statuses are the same as for the other calls on a till.
ghost use Rattle.std.specs.Prelude.{◌≡◌, ◌≤◌, ◌<◌, ◌+◌, ◌^◌, None, length, MatchBool, cond, nat_lt, []};
ghost use Rattle.zvt_till.specs.Till.{outcome_at};
ghost use Rattle.zvt_till.specs.Hearing.{heard_as};
ghost use Rattle.zvt_settle.specs.Inside.{both_of};
ghost use Rattle.zvt_settle.specs.Settling.{Line, take};
ghost use Rattle.zvt_c.specs.Feeding.{FeedsEnd, FeedsHandle, Prints, Sends, TellsMessage, replied, status_of_failure};
ghost use Rattle.zvt_c.specs.FeedingAll.{FeedsAll, FeedsAllHandle, added, goes_on};
ghost use Rattle.zvt_c.specs.Lines.{line_in};
ghost use Rattle.zvt_c.specs.Numbers.{nothing, outcome_of, silent};
ghost use Rattle.zvt_c.specs.Statuses as statuses;

use crate::answer::reason_code;
use crate::card::hear_card;
use crate::handle::ZvtTill;
use crate::lines::line_in;
use crate::numbers::{ZvtStep, no_step, outcome_numbers};
use crate::records::put;
use crate::session::Session;
use crate::statuses;
use crate::till::{lacks_capacity, write_message};
use std::alloc::Global;
use zvt_apdu::ApduView;
use zvt_settle::SettlingTill;
use zvt_stream::{FedView, FeedError};
use zvt_till::{Happening, Outcome, heard_view};

/// Processes bytes from the terminal, up to the end of one message. While `message` is 1, feed the remaining bytes
/// again. Writes the bytes to send to `out`, which needs room for 32. Does not write the first line to print.
#[unsafe(no_mangle)]
pub extern "C" fn zvt_till_feed(
    alloc: Global,
    till: &mut ZvtTill,
    piece: &[u8],
    out: &mut [u8],
    answer: &mut ZvtStep,
) -> u32
    ensures full { MatchBool (nat_lt (length out.old) 32) ((till.new.raw_handle.held ≡ till.old.raw_handle.held)
        × (out.new ≡ out.old) × (answer.new ≡ nothing) × (result ≡ statuses.too_small))
        (FeedsHandle till.old.raw_handle.held piece.now till.new.raw_handle.held out.old out.new answer.new result) }
{
    if lacks_capacity(out, answer) {
        return statuses::TOO_SMALL;
    }
    let Some(mut end) = till.take(alloc) else {
        return statuses::CLOSED;
    };
    let status = feed(&mut end, piece, out, &mut [], answer);
    *till = ZvtTill::of(end);
    status
}

/// Processes bytes from the terminal message by message: to their end, to a message with lines to print, or until `out`
/// has room for fewer than 32 further bytes. `out` then contains all replies; send them whatever the status is. The
/// first line to print is written to `line` if it fits; `zvt_till_line` has them all. Feed the remaining bytes again.
#[unsafe(no_mangle)]
pub extern "C" fn zvt_till_feed_all(
    alloc: Global,
    till: &mut ZvtTill,
    piece: &[u8],
    out: &mut [u8],
    line: &mut [u8],
    answer: &mut ZvtStep,
) -> u32
    ensures { MatchBool (nat_lt (length out.old) 32) ((till.new.raw_handle.held ≡ till.old.raw_handle.held)
        × (out.new ≡ out.old) × (line.new ≡ line.old) × (answer.new ≡ nothing) × (result ≡ statuses.too_small))
        (FeedsAllHandle till.old.raw_handle.held piece.now till.new.raw_handle.held out.old out.new line.old line.new
        answer.new result) }
{
    if lacks_capacity(out, answer) {
        return statuses::TOO_SMALL;
    }
    let Some(mut end) = till.take(alloc) else {
        return statuses::CLOSED;
    };
    let status = feed_all(&mut end, piece, out, line, answer);
    *till = ZvtTill::of(end);
    status
}

/// Feeds one message after another.
fn feed_all(
    end: &mut Session,
    piece: &[u8],
    out: &mut [u8],
    line: &mut [u8],
    answer: &mut ZvtStep,
) -> u32
    ensures { FeedsAll end.old piece.now end.new out.old out.new line.old line.new answer.new result }
{
    *answer = no_step();
    'messages: while goes_on(piece.len(), out.len(), answer) {
        let mut one = no_step();
        let status = feed(
            end,
            &piece[answer.taken as usize..],
            &mut out[answer.send as usize..],
            line,
            &mut one,
        );
        add(answer, &one);
        if status != statuses::OK {
            return status;
        }
    }
    statuses::OK
}

/// Returns whether to process another message: bytes are left, there is room for a reply, and no line waits.
fn goes_on(piece: usize, buffer: usize, answer: &ZvtStep) -> bool
    requires { answer.now.send ≤ buffer }
    ensures { result ≡ goes_on piece buffer answer.now }
{
    answer.taken < piece as u64 && 32 <= buffer as u64 - answer.send && answer.printed == 0
}

/// Adds the step of one message to the steps before it.
fn add(answer: &mut ZvtStep, one: &ZvtStep)
    requires taken { answer.old.taken + one.now.taken < 2 ^ 64 }
    requires send { answer.old.send + one.now.send < 2 ^ 64 }
    ensures { answer.new ≡ added answer.old one.now }
{
    *answer = ZvtStep {
        taken: answer.taken + one.taken,
        send: answer.send + one.send,
        place: one.place,
        line: one.line,
        reason: one.reason,
        message: if one.message == 0 { answer.message } else { 1 },
        printed: one.printed,
        outcome: if answer.outcome.kind == 0 {
            one.outcome
        } else {
            answer.outcome
        },
    };
}

/// Lets the till process a message, and writes its reply. Returns the size of the reply, and the outcome of the running
/// order if this message ended it.
fn hear(till: &mut SettlingTill, apdu: &ApduView<'_>, out: &mut [u8]) -> (usize, Option<Outcome>)
    requires { 32 ≤ length out.old }
    ensures state { both_of till.new ≡ take (both_of till.old) (Line (Happening.Heard (heard_as apdu.now))) }
    ensures sent { Sends (replied till.old.till.state apdu.now) out.old out.new result.0 }
    ensures buffer { result.0 ≤ length out.old }
    ensures outcome { result.1 ≡ cond till.old.till.state.line_up
        (outcome_at till.old.till.state (Happening.Heard (heard_as apdu.now))) None }
{
    let reply = till.hear(heard_view(apdu));
    let size = match &reply.send {
        Some(outgoing) => write_message(outgoing, out),
        None => 0,
    };
    (size, reply.outcome)
}

/// Writes the first line that the message has to print, if it fits. Returns its size, and 1 if there is one.
fn put_line(apdu: &ApduView<'_>, line: &mut [u8]) -> (usize, u32)
    ensures { Prints (line_in apdu.now 0) line.old line.new result.0 result.1 }
{
    let Some(text) = line_in(apdu, 0) else {
        return (0, 0);
    };
    (put(text, line), 1)
}

/// Lets the till process a message that ends after that many bytes of the input, and returns the step.
fn report(
    till: &mut SettlingTill,
    apdu: &ApduView<'_>,
    taken: usize,
    out: &mut [u8],
    line: &mut [u8],
) -> ZvtStep
    requires { 32 ≤ length out.old }
    ensures told { TellsMessage apdu.now taken (both_of till.old) (both_of till.new) out.old out.new line.old line.new
        result }
    ensures buffer { result.send ≤ length out.old }
{
    let (send, outcome) = hear(till, apdu, out);
    let (size, printed) = put_line(apdu, line);
    ZvtStep {
        taken: taken as u64,
        send: send as u64,
        place: 0,
        line: size as u64,
        reason: 0,
        message: 1,
        printed,
        outcome: outcome_numbers(outcome),
    }
}

/// Returns a step that sends nothing.
fn silent(taken: usize, place: usize, reason: u32, outcome: Option<Outcome>) -> ZvtStep
    ensures { result ≡ silent taken place reason (outcome_of outcome) }
{
    ZvtStep {
        taken: taken as u64,
        place: place as u64,
        reason,
        outcome: outcome_numbers(outcome),
        ..no_step()
    }
}

/// Processes bytes up to the end of one message.
fn feed(
    end: &mut Session,
    piece: &[u8],
    out: &mut [u8],
    line: &mut [u8],
    answer: &mut ZvtStep,
) -> u32
    requires { 32 ≤ length out.old }
    ensures fed { FeedsEnd end.old piece.now end.new out.old out.new line.old line.new answer.new result }
    ensures taken { answer.new.taken ≤ length piece.now }
    ensures buffer { answer.new.send ≤ length out.old }
    ensures goes { result ≡ statuses.ok → 0 < length piece.now → 0 < answer.new.taken }
{
    match end.stream.feed_view(piece) {
        Ok(FedView::Message { taken }) => {
            let Some(apdu) = end.stream.lent() else {
                unreachable!()
            };
            hear_card(&mut end.card, end.till.till().running().is_some(), &apdu);
            *answer = report(&mut end.till, &apdu, taken, out, line);
            statuses::OK
        }
        Ok(FedView::More) => {
            *answer = silent(piece.len(), 0, 0, None);
            statuses::OK
        }
        Ok(FedView::Refused { place, why }) => {
            *answer = silent(0, place, reason_code(why), end.till.malformed());
            statuses::REFUSED
        }
        Err(why) => {
            *answer = no_step();
            failed(why)
        }
    }
}

/// Returns the status of a feed that failed.
fn failed(why: FeedError) -> u32
    ensures { result ≡ status_of_failure why }
{
    match why {
        FeedError::Stopped => statuses::STOPPED,
        FeedError::Memory => statuses::NO_MEMORY,
    }
}
