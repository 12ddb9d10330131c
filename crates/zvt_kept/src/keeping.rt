//! The steps of a till, each recorded in its journal first.
ghost use Rattle.std.specs.Prelude.{◌≡◌, ◌≤◌, ◌++◌, [], List, OnOk, Some, ℕ, length, true};
ghost use Rattle.zvt_apdu.specs.Grammar.{Spells};
ghost use Rattle.zvt_grammar.specs.Reading.{padded};
ghost use Rattle.zvt_journal.specs.Text.{IsSettled};
ghost use Rattle.zvt_kept.specs.KeptTill.{Adds, Asks, HasNoted, KeepsSome, Orders, Recorded, Takes, standing_of};
ghost use Rattle.zvt_kept.specs.Logs.{opening_of};
ghost use Rattle.zvt_kept.specs.Masking.{masked};
ghost use Rattle.zvt_kept.specs.Records.{IsSpelledOrder, ask_record, asked, heard, kept_in, lost, ordered};
ghost use Rattle.zvt_journal.specs.Text.{recovered};
ghost use Rattle.zvt_settle.specs.Inside.{both_of, till_inside};
ghost use Rattle.zvt_till.specs.Hearing.{heard_as};
ghost use Rattle.zvt_till.specs.Line.{Answers as IsAnswer};
ghost use Rattle.zvt_till.specs.Refusals.{refusal};
ghost use Rattle.zvt_till.specs.Sending.{reply_to};
ghost use Rattle.zvt_till.specs.Settings.{settings_of};
ghost use Rattle.zvt_till.specs.Till.{facts_of};

use crate::note::Note;
use crate::records::{put_ask, put_heard, put_lost, put_opening, put_order};
use std::alloc::Global;
use zvt_apdu::{ApduView, Brief, MAX_BRIEF_LEN};
use zvt_journal::{Device, DeviceError, Journal, NoSpace};
use zvt_settle::SettlingTill;
use zvt_stream::Answers;
use zvt_text::Text;
use zvt_till::{
    BookFault, Heard, Order, Outgoing, Till, TillSettings, Untaken, heard_view, reply_to,
};

/// Gives the till an order once the journal contains it, and returns the message to send. An order that the till
/// refuses needs no disk space. If the disk has no space, the till and the journal's records stay as they were. If the
/// journal fails, `failure` says why.
pub(crate) fn take_order<D: Device>(
    alloc: Global,
    till: &mut SettlingTill,
    journal: &mut Journal<D>,
    failure: &mut Option<DeviceError>,
    order: Order,
    note: &Note,
) -> Result<Outgoing, Untaken>
    requires { (till_inside till.old).state.line_up ≡ true → KeepsSome (D.seen journal.old.device)
        (D.may_leave journal.old.device) journal.old.gate (both_of till.old) }
    ensures { Orders D.seen D.may_leave D.moment D.left_since D.faults order note.now
        (standing_of till.old journal.old.device journal.old.gate)
        (standing_of till.new journal.new.device journal.new.gate) failure.old
        failure.new result }
{
    has_words(till.till(), &order);
    let outgoing = match till.prepare(&order) {
        Err(why) => return Err(Untaken::Order(why)),
        Ok(outgoing) => outgoing,
    };
    if let Err(NoSpace) = journal.reserve() {
        return Err(Untaken::Book(BookFault::NoSpace));
    }
    till.begin(order);
    match keep_order(alloc, journal, &order, note, &outgoing) {
        Ok(()) => Ok(outgoing),
        Err(why) => {
            let _ = till.lost();
            *failure = Some(why);
            Err(Untaken::Book(BookFault::Failed))
        }
    }
}

/// Lets the till ask once the journal contains the ask, and returns the message to send. If the disk has no space, the
/// till and the journal's records stay as they were. If the journal fails, `failure` says why.
pub(crate) fn take_ask<D: Device>(
    alloc: Global,
    till: &mut SettlingTill,
    journal: &mut Journal<D>,
    failure: &mut Option<DeviceError>,
    note: &Note,
) -> Result<[u8; 6], Untaken>
    requires { (till_inside till.old).state.line_up ≡ true → KeepsSome (D.seen journal.old.device)
        (D.may_leave journal.old.device) journal.old.gate (both_of till.old) }
    ensures { Asks D.seen D.may_leave D.moment D.left_since D.faults note.now
        (standing_of till.old journal.old.device journal.old.gate)
        (standing_of till.new journal.new.device journal.new.gate) failure.old failure.new result }
{
    let message = match till.prepare_ask() {
        Err(why) => return Err(Untaken::Order(why)),
        Ok(message) => message,
    };
    match journal.reserve() {
        Err(NoSpace) => return Err(Untaken::Book(BookFault::NoSpace)),
        Ok(()) => {}
    }
    till.begin_ask();
    match keep_ask(alloc, journal, note) {
        Ok(()) => Ok(message),
        Err(fault) => {
            let _ = till.lost();
            *failure = Some(fault);
            Err(Untaken::Book(BookFault::Failed))
        }
    }
}

/// Lets the till process a message once the journal contains it, and returns the bytes to send.
pub(crate) fn take_message<D: Device>(
    alloc: Global,
    till: &mut SettlingTill,
    journal: &mut Journal<D>,
    apdu: &ApduView<'_>,
) -> Result<Answers, DeviceError>
    requires up { (till_inside till.old).state.line_up ≡ true }
    requires kept { KeepsSome (D.seen journal.old.device) (D.may_leave journal.old.device) journal.old.gate
        (both_of till.old) }
    ensures { Takes D.seen D.may_leave D.moment D.left_since D.faults apdu.now
        (standing_of till.old journal.old.device journal.old.gate)
        (standing_of till.new journal.new.device journal.new.gate) result }
{
    let heard = heard_view(apdu);
    let answers = answers_to(&heard);
    match keep_heard(alloc, journal, apdu, answers.bytes()) {
        Ok(()) => {
            let _ = till.hear(heard);
            Ok(answers)
        }
        Err(why) => {
            let _ = till.lost();
            Err(why)
        }
    }
}

/// Every order that the till accepts can be written into a record: amounts and entry numbers have at most twelve
/// digits. The calls only make the bounds of amounts and books known to the proof.
fn has_words(till: &Till, order: &Order)
    ensures { refusal (facts_of till.now.state) order.now ≡ None → IsSpelledOrder order.now }
{
    match order {
        Order::Pay(amount) => {
            let _ = amount.get();
        }
        Order::Reverse(_) => {
            let _ = till.book();
        }
        _ => {}
    }
}

/// Makes the record of an order durable.
fn keep_order<D: Device>(
    alloc: Global,
    journal: &mut Journal<D>,
    order: &Order,
    note: &Note,
    outgoing: &Outgoing,
) -> Result<(), DeviceError>
    requires settled { IsSettled (D.seen journal.old.device) (D.may_leave journal.old.device) journal.old.gate }
    requires room { D.has_capacity journal.old.device ≡ true }
    requires spelled { IsSpelledOrder order.now }
    ensures recorded { Recorded D.seen D.may_leave D.moment D.left_since D.faults (ordered order.now note.now)
        journal.old.device journal.new.device journal.old.gate journal.new.gate result }
    ensures noted { OnOk result (HasNoted D.seen order.now note.now journal.old.device journal.new.device) }
{
    let mut buffer = [0; MAX_BRIEF_LEN];
    let size = masked(outgoing).put(&mut buffer);
    let mut text = Text::new(alloc);
    put_order(&mut text, order, note, &buffer[..size])?;
    journal.append(text.bytes())
}

/// Makes the record of an ask durable.
fn keep_ask<D: Device>(
    alloc: Global,
    journal: &mut Journal<D>,
    note: &Note,
) -> Result<(), DeviceError>
    requires settled { IsSettled (D.seen journal.old.device) (D.may_leave journal.old.device) journal.old.gate }
    requires room { D.has_capacity journal.old.device ≡ true }
    ensures recorded { Recorded D.seen D.may_leave D.moment D.left_since D.faults (asked note.now)
        journal.old.device journal.new.device journal.old.gate journal.new.gate result }
    ensures noted { OnOk result (recovered (D.seen journal.new.device)
        ≡ recovered (D.seen journal.old.device) ++ ask_record note.now) }
{
    let mut text = Text::new(alloc);
    put_ask(&mut text, note)?;
    journal.append(text.bytes())
}

/// Makes the record of a message and of the reply to it durable.
fn keep_heard<D: Device>(
    alloc: Global,
    journal: &mut Journal<D>,
    message: &ApduView<'_>,
    answers: &[u8],
) -> Result<(), DeviceError>
    requires settled { IsSettled (D.seen journal.old.device) (D.may_leave journal.old.device) journal.old.gate }
    requires few { length answers.now ≤ 32 }
    ensures { (bytes : List ℕ) × ∥ Spells padded message.now bytes ∥₁ × Recorded D.seen D.may_leave D.moment
        D.left_since D.faults (heard bytes) journal.old.device journal.new.device journal.old.gate
        journal.new.gate result }
{
    let mut text = Text::new(alloc);
    put_heard(&mut text, message.bytes(), answers)?;
    journal.append(text.bytes())
}

/// Makes the opening of the journal of a till with these settings durable.
pub(crate) fn keep_opening<D: Device>(
    alloc: Global,
    journal: &mut Journal<D>,
    settings: &TillSettings,
) -> Result<(), DeviceError>
    requires { IsSettled (D.seen journal.old.device) (D.may_leave journal.old.device) journal.old.gate }
    ensures adds { Adds D.seen D.may_leave D.moment D.left_since D.faults (opening_of (settings_of settings.now))
        journal.old.device journal.new.device journal.old.gate journal.new.gate result }
    ensures kept { kept_in (opening_of (settings_of settings.now)) ≡ Some [] }
{
    let mut text = Text::new(alloc);
    let by_receipt = settings.rules.reversal_by_receipt;
    put_opening(&mut text, settings.currency, by_receipt)?;
    journal.reserve()?;
    journal.append(text.bytes())
}

/// Makes the record durable that the line was lost and a new one is up.
pub(crate) fn keep_lost<D: Device>(
    alloc: Global,
    journal: &mut Journal<D>,
) -> Result<(), DeviceError>
    requires { IsSettled (D.seen journal.old.device) (D.may_leave journal.old.device) journal.old.gate }
    ensures { Recorded D.seen D.may_leave D.moment D.left_since D.faults lost journal.old.device journal.new.device
        journal.old.gate journal.new.gate result }
{
    let mut text = Text::new(alloc);
    put_lost(&mut text)?;
    journal.append(text.bytes())
}

/// Returns the message without its password, as a journal contains it.
fn masked(outgoing: &Outgoing) -> Outgoing
    ensures { result ≡ masked outgoing.now }
{
    let brief = match outgoing.brief {
        Brief::Register {
            config,
            currency,
            ..
        } => Brief::Register {
            password: [0; 3],
            config,
            currency,
        },
        Brief::Reverse { receipt, .. } => Brief::Reverse {
            password: [0; 3],
            receipt,
        },
        Brief::CloseDay { .. } => Brief::CloseDay { password: [0; 3] },
        other => other,
    };
    Outgoing { brief }
}

/// Returns the bytes with which a connected till replies immediately.
pub fn answers_to(heard: &Heard) -> Answers
    ensures answers { IsAnswer (reply_to heard.now) result }
    ensures few { length result.bytes ≤ 32 }
{
    let mut answers = Answers::new();
    if let Some(outgoing) = reply_to(heard) {
        let mut buffer = [0; MAX_BRIEF_LEN];
        let size = outgoing.put(&mut buffer);
        answers.add(&buffer[..size]);
    }
    answers
}
