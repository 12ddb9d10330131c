//! The answers of orders: their statuses and their JSON, with members sorted by name.
ghost use Rattle.std.specs.Prelude.{◌≡◌, ◌++◌, OnOk, Some, option_map};
ghost use Rattle.std.specs.List.{flat_map};
ghost use Rattle.zvt_text.specs.Meanings.{meaning_of};
ghost use Rattle.zvt_till.specs.declared.outcomes.Outcome.TheVariants.{Unclear};
ghost use Rattle.zvt_service.specs.declared.fates.Fate.TheVariants.{Ended};
ghost use Rattle.zvt_serve.specs.Answers.{advice_part, amount_part, answer_text, bool_text, cause_part, code_part};
ghost use Rattle.zvt_serve.specs.Answers.{code_text};
ghost use Rattle.zvt_serve.specs.Answers.{event_text, first_members, key_letter, key_part, meaning_part, order_name};
ghost use Rattle.zvt_serve.specs.Answers.{names_part, numbers_part, outcome_name, outcome_status, paid_part};
ghost use Rattle.zvt_serve.specs.Answers.{receipt_part, settled_part, words_part};

use std::alloc::AllocError;
use zvt_bcd::Trace;
use zvt_service::{Fate, Verdict};
use zvt_text::Text;
use zvt_till::{Cause, Order, Outcome};

/// Returns the status of the answer for an order of which this is known.
///
/// An unclear order is no success: a client that looks at the status alone hands out nothing for it.
pub fn outcome_status(fate: &Fate) -> u16
    ensures { result ≡ outcome_status fate.now }
{
    match fate {
        Fate::Running => 202,
        Fate::Ended(Outcome::Registered | Outcome::Paid { .. }) => 200,
        Fate::Ended(Outcome::Reversed | Outcome::DayClosed) => 200,
        Fate::Ended(Outcome::Declined(_) | Outcome::Refused(_) | Outcome::Aborted(_)) => 402,
        Fate::Ended(Outcome::Unclear(_)) => 424,
        Fate::Settled(Verdict::Paid { .. }) => 200,
        Fate::Settled(Verdict::NotPaid) => 402,
    }
}

/// Returns the name of an order.
pub fn order_name(order: &Order) -> &'static str
    ensures { result.now ≡ order_name order.now }
{
    match order {
        Order::Register => "register",
        Order::Pay(_) => "pay",
        Order::Reverse(_) => "reverse",
        Order::CloseDay => "close",
        Order::Cancel => "cancel",
    }
}

/// Returns the name of an outcome or of a verdict, or `running`.
pub fn outcome_name(fate: &Fate) -> &'static str
    ensures { result.now ≡ outcome_name fate.now }
{
    match fate {
        Fate::Running => "running",
        Fate::Ended(Outcome::Registered) => "registered",
        Fate::Ended(Outcome::Paid { .. }) => "paid",
        Fate::Ended(Outcome::Reversed) => "reversed",
        Fate::Ended(Outcome::DayClosed) => "day closed",
        Fate::Ended(Outcome::Declined(_)) => "declined",
        Fate::Ended(Outcome::Refused(_)) => "refused",
        Fate::Ended(Outcome::Aborted(_)) => "aborted",
        Fate::Ended(Outcome::Unclear(_)) => "unclear",
        Fate::Settled(Verdict::Paid { .. }) => "paid",
        Fate::Settled(Verdict::NotPaid) => "not paid",
    }
}

/// Appends the JSON object of an order, and a line feed. `reversed` is whether a completed reversal took the payment
/// back.
///
/// Fails only if an allocation fails; the text is then incomplete.
#[tactic(auto, unfolding(crate::specs::Answers::answer_text))]
pub fn put_answer(
    text: &mut Text,
    key: Option<&[u8]>,
    order: &Order,
    fate: &Fate,
    reversed: bool,
) -> Result<(), AllocError>
    ensures { OnOk result (text.new ≡ text.old
        ++ answer_text (option_map (λ k. k.now) key.entry) order.now fate.now reversed) }
{
    text.word(b"{")?;
    put_first_members(text, key, order, fate)?;
    put_names(text, order, fate)?;
    put_paid(text, fate, reversed)?;
    put_words(text, fate)?;
    text.word(b"}\n")
}

/// Appends what listeners are told when the order with this key ends.
///
/// Fails only if an allocation fails; the text is then incomplete.
#[tactic(auto, unfolding(crate::specs::Answers::event_text))]
pub fn put_end(text: &mut Text, key: &[u8], fate: &Fate) -> Result<(), AllocError>
    ensures { OnOk result (text.new ≡ text.old ++ event_text key.now fate.now) }
{
    text.word(b"{")?;
    put_key(text, Some(key))?;
    text.word(b"\"outcome\":\"")?;
    text.word(outcome_name(fate).as_bytes())?;
    text.word(b"\"}")
}

/// Writes the members before the order.
#[tactic(auto, unfolding(crate::specs::Answers::first_members))]
fn put_first_members(
    text: &mut Text,
    key: Option<&[u8]>,
    order: &Order,
    fate: &Fate,
) -> Result<(), AllocError>
    ensures { OnOk result (text.new ≡ text.old
        ++ first_members (option_map (λ k. k.now) key.entry) order.now fate.now) }
{
    put_advice(text, fate)?;
    put_amount(text, order)?;
    put_cause(text, fate)?;
    put_code(text, fate)?;
    put_key(text, key)
}

/// Writes the names of an order and its outcome.
#[tactic(auto, unfolding(crate::specs::Answers::names_part))]
fn put_names(text: &mut Text, order: &Order, fate: &Fate) -> Result<(), AllocError>
    ensures { OnOk result (text.new ≡ text.old ++ names_part order.now fate.now) }
{
    text.word(b"\"order\":\"")?;
    text.word(order_name(order).as_bytes())?;
    text.word(b"\",\"outcome\":\"")?;
    text.word(outcome_name(fate).as_bytes())?;
    text.word(b"\"")
}

fn put_advice(text: &mut Text, fate: &Fate) -> Result<(), AllocError>
    ensures { OnOk result (text.new ≡ text.old ++ advice_part fate.now) }
{
    match fate {
        Fate::Ended(Outcome::Unclear(_)) => text.word(
            b"\"advice\":\"It is unknown whether the terminal took the order. Look at its receipts before \
you send another.\",",
        ),
        _ => Ok(()),
    }
}

fn put_amount(text: &mut Text, order: &Order) -> Result<(), AllocError>
    ensures { OnOk result (text.new ≡ text.old ++ amount_part order.now) }
{
    match order {
        Order::Pay(amount) => {
            text.word(b"\"amount\":")?;
            text.number(amount.get())?;
            text.word(b",")
        }
        _ => Ok(()),
    }
}

fn put_cause(text: &mut Text, fate: &Fate) -> Result<(), AllocError>
    ensures { OnOk result (text.new ≡ text.old ++ cause_part fate.now) }
{
    match fate {
        Fate::Ended(Outcome::Unclear(cause)) => put_cause_name(text, *cause),
        _ => Ok(()),
    }
}

fn put_cause_name(text: &mut Text, cause: Cause) -> Result<(), AllocError>
    ensures { OnOk result (text.new ≡ text.old ++ cause_part (Ended (Unclear cause))) }
{
    text.word(b"\"cause\":\"")?;
    text.word(cause.name().as_bytes())?;
    text.word(b"\",")
}

fn put_code(text: &mut Text, fate: &Fate) -> Result<(), AllocError>
    ensures { OnOk result (text.new ≡ text.old ++ code_part fate.now) }
{
    match fate {
        Fate::Ended(Outcome::Declined(code)) => put_code_digits(text, *code),
        Fate::Ended(Outcome::Refused(code)) => put_code_digits(text, *code),
        Fate::Ended(Outcome::Aborted(code)) => put_code_digits(text, *code),
        _ => Ok(()),
    }
}

fn put_code_digits(text: &mut Text, code: u8) -> Result<(), AllocError>
    ensures { OnOk result (text.new ≡ text.old ++ code_text code) }
{
    text.word(b"\"code\":\"")?;
    zvt_text::hexadecimal(text, &[code])?;
    text.word(b"\",")
}

fn put_key(text: &mut Text, key: Option<&[u8]>) -> Result<(), AllocError>
    ensures { OnOk result (text.new ≡ text.old ++ key_part (option_map (λ k. k.now) key.entry)) }
{
    match key {
        Some(key) => put_key_letters(text, key),
        None => Ok(()),
    }
}

fn put_key_letters(text: &mut Text, key: &[u8]) -> Result<(), AllocError>
    ensures { OnOk result (text.new ≡ text.old ++ key_part (Some key.now)) }
{
    text.word(b"\"key\":\"")?;
    put_letters(text, key)?;
    text.word(b"\",")
}

/// Writes the letters of a reference, escaped as JSON requires.
pub(crate) fn put_letters(text: &mut Text, letters: &[u8]) -> Result<(), AllocError>
    ensures { OnOk result (text.new ≡ text.old ++ flat_map key_letter letters.now) }
{
    let mut rest = letters;
    'letters: while let [letter, more @ ..] = rest {
        put_letter(text, *letter)?;
        rest = more;
    }
    Ok(())
}

fn put_letter(text: &mut Text, letter: u8) -> Result<(), AllocError>
    ensures { OnOk result (text.new ≡ text.old ++ key_letter letter) }
{
    if letter == b'"' || letter == b'\\' {
        text.word(&[b'\\', letter])
    } else {
        text.push(letter)
    }
}

/// Writes the numbers of a payment that happened, and whether it was taken back, or that an ask settled that it did not
/// happen.
fn put_paid(text: &mut Text, fate: &Fate, reversed: bool) -> Result<(), AllocError>
    ensures { OnOk result (text.new ≡ text.old ++ paid_part fate.now reversed) }
{
    match fate {
        Fate::Ended(Outcome::Paid { trace, receipt }) => {
            put_numbers(text, *trace, *receipt, reversed, false)
        }
        Fate::Settled(Verdict::Paid { trace, receipt }) => {
            put_numbers(text, *trace, *receipt, reversed, true)
        }
        Fate::Settled(Verdict::NotPaid) => put_settled(text, true),
        _ => Ok(()),
    }
}

fn put_numbers(
    text: &mut Text,
    trace: Trace,
    receipt: Option<[u8; 2]>,
    reversed: bool,
    settled: bool,
) -> Result<(), AllocError>
    ensures { OnOk result (text.new ≡ text.old ++ numbers_part trace receipt reversed settled) }
{
    put_receipt(text, receipt)?;
    text.word(b",\"reversed\":")?;
    put_bool(text, reversed)?;
    put_settled(text, settled)?;
    text.word(b",\"trace\":")?;
    text.number(trace.get())
}

/// Writes that an ask settled the payment, if one did.
fn put_settled(text: &mut Text, settled: bool) -> Result<(), AllocError>
    ensures { OnOk result (text.new ≡ text.old ++ settled_part settled) }
{
    if settled {
        text.word(b",\"settled\":true")
    } else {
        Ok(())
    }
}

fn put_receipt(text: &mut Text, receipt: Option<[u8; 2]>) -> Result<(), AllocError>
    ensures { OnOk result (text.new ≡ text.old ++ receipt_part receipt) }
{
    match receipt {
        Some(number) => put_receipt_number(text, number.as_slice()),
        None => Ok(()),
    }
}

fn put_receipt_number(text: &mut Text, number: &[u8]) -> Result<(), AllocError>
    ensures { OnOk result (text.new ≡ text.old ++ receipt_part (Some number.now)) }
{
    text.word(b",\"receipt\":\"")?;
    zvt_text::hexadecimal(text, number)?;
    text.word(b"\"")
}

/// Writes the meaning of the code with which the terminal ended an order.
fn put_words(text: &mut Text, fate: &Fate) -> Result<(), AllocError>
    ensures { OnOk result (text.new ≡ text.old ++ words_part fate.now) }
{
    match fate {
        Fate::Ended(Outcome::Declined(code)) => put_meaning(text, *code),
        Fate::Ended(Outcome::Refused(code)) => put_meaning(text, *code),
        Fate::Ended(Outcome::Aborted(code)) => put_meaning(text, *code),
        _ => Ok(()),
    }
}

fn put_meaning(text: &mut Text, code: u8) -> Result<(), AllocError>
    ensures { OnOk result (text.new ≡ text.old ++ meaning_part (meaning_of code)) }
{
    let Some(words) = zvt_text::meaning(code) else {
        return Ok(());
    };
    text.word(b",\"words\":\"")?;
    text.word(words.as_bytes())?;
    text.word(b"\"")
}

/// Writes `true` or `false`.
pub(crate) fn put_bool(text: &mut Text, value: bool) -> Result<(), AllocError>
    ensures { OnOk result (text.new ≡ text.old ++ bool_text value) }
{
    if value {
        text.word(b"true")
    } else {
        text.word(b"false")
    }
}
