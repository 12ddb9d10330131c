//! Writes what the findings about a trace say.
ghost use Rattle.std.specs.Prelude.{◌≡◌, ◌++◌, OnOk, option_map};
ghost use Rattle.std.specs.Option.{option_copied};
ghost use Rattle.zvt_report.specs.FindingTexts.{amount_part, approval_advice, approval_text, bracketed};
ghost use Rattle.zvt_report.specs.FindingTexts.{currencies_text, cut_off_text, finding_advice, look_for};
ghost use Rattle.zvt_report.specs.FindingTexts.{finding_text, finding_title, goes_on, head_part, maker_advice};
ghost use Rattle.zvt_report.specs.FindingTexts.{message_name, message_part, refused_text, side_name, swapped_text};
ghost use Rattle.zvt_report.specs.FindingTexts.{why_words};

use crate::amounts::{amount, count};
use crate::columns::zeros;
use crate::currencies::Decimals;
use crate::findings::Finding;
use crate::phrases::trace_part;
use std::alloc::AllocError;
use zvt_apdu::{Kind, kind_at};
use zvt_bcd::{Amount, Currency, Trace};
use zvt_grammar::Why;
use zvt_text::{Text, command_name, currency_digits, hexadecimal};
use zvt_trace::{Direction, Head};

/// Returns the name of a side.
fn side_name(from: Direction) -> &'static [u8]
    ensures { result.now ≡ side_name from }
{
    match from {
        Direction::FromTill => b"till",
        Direction::FromTerminal => b"terminal",
    }
}

/// Returns the name of a message of this kind with these control bytes, if it is known.
fn message_name(kind: Kind, high: u8, low: u8) -> Option<&'static str>
    ensures { option_map (λ name. name.now) result ≡ message_name kind high low }
{
    match kind {
        Kind::Ack => Some("acknowledgement"),
        Kind::Nack => Some("negative acknowledgement"),
        Kind::Registration => Some("registration"),
        Kind::Authorisation => Some("payment"),
        Kind::Reversal => Some("reversal"),
        Kind::EndOfDay => Some("end of day"),
        Kind::AbortOrder => Some("abort"),
        Kind::Status => Some("status information"),
        Kind::Intermediate => Some("intermediate status"),
        Kind::PrintLine => Some("print line"),
        Kind::TextBlock => Some("text block"),
        Kind::Completion => Some("completion"),
        Kind::Abort => Some("abort"),
        Kind::Other => command_name(high, low),
    }
}

/// Writes a name in brackets, if there is one.
fn bracketed(text: &mut Text, name: Option<&str>) -> Result<(), AllocError>
    ensures { OnOk result (text.new ≡ text.old ++ bracketed (option_copied name.entry)) }
{
    match name {
        Some(name) => {
            text.word(b" (")?;
            text.word(name.as_bytes())?;
            text.word(b")")
        }
        None => Ok(()),
    }
}

/// Writes the control bytes of a message, as far as they have come, and its name.
#[tactic(auto, unfolding(crate::specs::FindingTexts::head_part))]
fn head_part(text: &mut Text, head: Head) -> Result<(), AllocError>
    ensures { OnOk result (text.new ≡ text.old ++ head_part head) }
{
    match head {
        Head::Empty => Ok(()),
        Head::One(high) => {
            text.push(b' ')?;
            hexadecimal(text, &[high])
        }
        Head::Two(high, low) => {
            text.push(b' ')?;
            hexadecimal(text, &[high, low])?;
            bracketed(text, message_name(kind_at(high, low), high, low))
        }
    }
}

/// Writes which message of this side it is.
#[tactic(auto, unfolding(crate::specs::FindingTexts::message_part))]
fn message_part(text: &mut Text, from: Direction, head: Head) -> Result<(), AllocError>
    ensures { OnOk result (text.new ≡ text.old ++ message_part from head) }
{
    text.word(b"The ")?;
    text.word(side_name(from))?;
    text.word(b"'s message")?;
    head_part(text, head)
}

/// Returns what is wrong with the fatal byte of a message.
fn why_words(why: Why) -> &'static [u8]
    ensures { result.now ≡ why_words why }
{
    match why {
        Why::NotShortest => b"a length has a longer form than necessary",
        Why::DoesNotFit => b"what it begins or counts does not fit",
        Why::LengthForm => b"no length begins with it",
        Why::TooDeep => b"objects are nested more than six levels deep",
        Why::TagTooLong => b"a tag has more than three bytes",
        Why::UnknownField => b"no known field begins with it",
        Why::NotDigit => b"it must be two digits",
        Why::LengthDigit => b"a digit of a length must be F0 to F9",
    }
}

/// Returns how the report goes on after a refused message.
fn goes_on(reads_on: bool) -> &'static [u8]
    ensures { result.now ≡ goes_on reads_on }
{
    if reads_on {
        b"The report goes on after the message."
    } else {
        b"The report goes on with the next connection."
    }
}

/// Writes where and why a message was refused.
fn refused_text(text: &mut Text, place: usize, why: Why, reads_on: bool) -> Result<(), AllocError>
    ensures { OnOk result (text.new ≡ text.old ++ refused_text place why reads_on) }
{
    text.word(b"Its byte ")?;
    text.number(place)?;
    text.word(b", counted from 0, is refused: ")?;
    text.word(why_words(why))?;
    text.word(b" (")?;
    text.word(why.name().as_bytes())?;
    text.word(b"). ")?;
    text.word(goes_on(reads_on))
}

/// Writes who should know of a refused message.
fn maker_advice(text: &mut Text, from: Direction) -> Result<(), AllocError>
    ensures { OnOk result (text.new ≡ text.old ++ maker_advice from) }
{
    text.word(b"Send this report to the maker of the ")?;
    text.word(side_name(from))?;
    text.word(b".")
}

/// Writes where a message was cut off.
fn cut_off_text(text: &mut Text, have: usize) -> Result<(), AllocError>
    ensures { OnOk result (text.new ≡ text.old ++ cut_off_text have) }
{
    text.word(b"It breaks off after ")?;
    count(text, have, b"byte")?;
    text.word(b", where the trace or the connection ended.")
}

/// Writes how many orders came from the terminal's side.
fn swapped_text(text: &mut Text, orders: usize) -> Result<(), AllocError>
    ensures { OnOk result (text.new ≡ text.old ++ swapped_text orders) }
{
    text.word(b"The terminal's side (<) sent ")?;
    count(text, orders, b"order")?;
    text.word(b", which only a till sends, and the till's side (>) sent none.")
}

/// Writes which two currencies are named, and where the other one is named first.
fn currencies_text(
    text: &mut Text,
    first: Currency,
    other: Currency,
    line: u64,
) -> Result<(), AllocError>
    ensures { OnOk result (text.new ≡ text.old ++ currencies_text first other line) }
{
    text.word(b"A registration names currency ")?;
    currency_digits(text, first)?;
    text.word(b", and the one in line ")?;
    text.number(line)?;
    text.word(b" names ")?;
    currency_digits(text, other)?;
    text.word(b". The totals add amounts of both.")
}

/// Writes an amount after a comma, if there is one.
fn amount_part(
    text: &mut Text,
    decimals: Decimals,
    given: &Option<Amount>,
) -> Result<(), AllocError>
    ensures { OnOk result (text.new ≡ text.old ++ amount_part decimals given.now) }
{
    match given {
        Some(given) => {
            text.word(b", ")?;
            amount(text, decimals, u128::from(given.get()))
        }
        None => Ok(()),
    }
}

/// Writes where an approval could not be read on, and what it says before that.
#[tactic(auto, unfolding(crate::specs::FindingTexts::approval_text))]
fn approval_text(
    text: &mut Text,
    decimals: Decimals,
    place: usize,
    amount: &Option<Amount>,
    trace: &Option<Trace>,
) -> Result<(), AllocError>
    ensures { OnOk result (text.new ≡ text.old ++ approval_text decimals place amount.now trace.now) }
{
    text.word(b"The terminal's answer could not be read to its end (byte ")?;
    text.number(place)?;
    text.word(b"). What stands before that says: approved")?;
    amount_part(text, decimals, amount)?;
    trace_part(text, trace)?;
    text.word(b".")
}

/// Writes what to look for in the terminal's journal.
fn look_for(text: &mut Text, trace: &Option<Trace>) -> Result<(), AllocError>
    ensures { OnOk result (text.new ≡ text.old ++ look_for trace.now) }
{
    match trace {
        Some(trace) => {
            text.word(b"Look for trace ")?;
            zeros(text, 6, u128::from(trace.get()))
        }
        None => text.word(b"Look"),
    }
}

/// Writes what to do about an approval that could not be read to its end.
#[tactic(auto, unfolding(crate::specs::FindingTexts::approval_advice))]
fn approval_advice(text: &mut Text, trace: &Option<Trace>) -> Result<(), AllocError>
    ensures { OnOk result (text.new ≡ text.old ++ approval_advice trace.now) }
{
    text.word(b"If it answers a payment, the customer has probably been charged. ")?;
    look_for(text, trace)?;
    text.word(b" in the terminal's journal, and send this report to the maker of the terminal.")
}

/// Writes the title of a finding.
pub(crate) fn finding_title(text: &mut Text, finding: &Finding) -> Result<(), AllocError>
    ensures { OnOk result (text.new ≡ text.old ++ finding_title finding.now) }
{
    match *finding {
        Finding::Swapped(_) => text.word(b"The marks > and < are swapped"),
        Finding::ApprovalUnreadable { .. } => text.word(b"The terminal's approval cannot be read"),
        Finding::Currencies { .. } => text.word(b"The trace has two currencies"),
        Finding::Refused { from, head, .. } => {
            message_part(text, from, head)?;
            text.word(b" cannot be read")
        }
        Finding::CutOff { from, head, .. } => {
            message_part(text, from, head)?;
            text.word(b" is incomplete")
        }
        Finding::MoreRefused(more) => {
            count(text, more, b"more message")?;
            text.word(b" refused or cut off")
        }
    }
}

/// Writes what was found.
pub(crate) fn finding_text(
    text: &mut Text,
    decimals: Decimals,
    finding: &Finding,
) -> Result<(), AllocError>
    ensures { OnOk result (text.new ≡ text.old ++ finding_text decimals finding.now) }
{
    match *finding {
        Finding::Swapped(orders) => swapped_text(text, orders),
        Finding::ApprovalUnreadable {
            place,
            amount,
            trace,
            ..
        } => approval_text(text, decimals, place, &amount, &trace),
        Finding::Currencies { first, other, line } => currencies_text(text, first, other, line),
        Finding::Refused {
            place,
            why,
            reads_on,
            ..
        } => refused_text(text, place, why, reads_on),
        Finding::CutOff { have, .. } => cut_off_text(text, have),
        Finding::MoreRefused(_) => {
            text.word(b"This list has only the first messages that were refused or cut off.")
        }
    }
}

/// Writes what to do about a finding.
pub(crate) fn finding_advice(text: &mut Text, finding: &Finding) -> Result<(), AllocError>
    ensures { OnOk result (text.new ≡ text.old ++ finding_advice finding.now) }
{
    match *finding {
        Finding::Swapped(_) => text.word(
            b"Swap the marks of the trace (tr '<>' '><'), and make this report again.",
        ),
        Finding::ApprovalUnreadable { trace, .. } => approval_advice(text, &trace),
        Finding::Currencies { .. } => text.word(
            b"Split the trace where the currency changes, and make a report of each part.",
        ),
        Finding::Refused { from, .. } => maker_advice(text, from),
        Finding::CutOff { .. } => text.word(
            b"If the trace was cut short, make this report again from the whole trace.",
        ),
        Finding::MoreRefused(_) => text.word(b"'zvt show' names the others."),
    }
}
