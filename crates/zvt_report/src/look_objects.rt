//! Writes the objects of the orders that a person should look at.
ghost use Rattle.std.specs.Prelude.{◌≡◌, ◌++◌, ◌<◌, false, length, true, OnOk};
ghost use Rattle.serde_json.specs.Data.{string};
ghost use Rattle.serde_json.specs.Written.{members_text};
ghost use Rattle.zvt_json.specs.Strings.{line_text};
ghost use Rattle.zvt_report.specs.Advices as advices;
ghost use Rattle.zvt_report.specs.LookObjects.{look_line, look_members, look_told, look_value, looks_json, more_of};
ghost use Rattle.zvt_report.specs.LookObjects.{order_member, payment_at, told, told_text, weight_member};
ghost use Rattle.zvt_report.specs.Sentences as sentences;
ghost use Rattle.zvt_report.specs.declared.members.Name.TheVariants as name;

use crate::advices::advice;
use crate::cases::Look;
use crate::closings::Closing;
use crate::currencies::Decimals;
use crate::facts::{Facts, facts_of};
use crate::members::{Member, Name, Value, Word, write_comma, write_member, write_name};
use crate::parts::{cause_of, count, lines, maybe_cause, maybe_count, said_as};
use crate::places::payments_in;
use crate::quoting::quoted_text;
use crate::rows::{OrderMessage, OrderRow};
use crate::sentences::account;
use crate::time_members::maybe_time;
use crate::titles::title;
use std::alloc::AllocError;
use zvt_text::Text;
use zvt_till::{Entry, Sent};

/// Returns the number of the payment at this place, if the order there is one.
fn payment_at(place: usize, rows: &[OrderRow], order: &Sent) -> Option<usize>
    requires { place < length rows.now }
    ensures { result ≡ payment_at place rows.now order.now }
{
    match order {
        Sent::Pay(_) => Some(payments_in(&rows[..place]) + 1),
        _ => None,
    }
}

/// Returns the member with the number of the order at this place, if there is one.
fn order_member(name: Name, place: Option<usize>) -> Option<Member>
    ensures { result ≡ order_member name place }
{
    said_as(name, Value::Count(u128::from(place? as u64) + 1))
}

/// Returns the member with the weight of a look.
fn weight_member(look: &Look) -> Option<Member>
    ensures { result ≡ weight_member look.now }
{
    said_as(Name::Weight, Value::Word(Word::Weight(look.case.weight())))
}

/// Writes a sentence under this name, with a comma before it if there is an earlier member.
#[tactic(auto, unfolding(crate::specs::LookObjects::told_text))]
pub(crate) fn sentence(
    text: &mut Text,
    later: bool,
    name: Name,
    sentence: &[u8],
) -> Result<(), AllocError>
    ensures { OnOk result (text.new ≡ text.old ++ told_text later name (string sentence.now)) }
{
    write_comma(text, later)?;
    write_name(text, name)?;
    quoted_text(text, sentence)
}

/// Writes members after others.
#[tactic(auto, unfolding(crate::specs::LookObjects::told_text, crate::specs::LookObjects::more_of))]
pub(crate) fn more(text: &mut Text, members: &[Option<Member>]) -> Result<(), AllocError>
    ensures { OnOk result (text.new ≡ text.old ++ more_of members.now) }
{
    let mut rest = members;
    'members: while let [first, after @ ..] = rest {
        if let Some(member) = first {
            write_member(text, true, member)?;
        }
        rest = after;
    }
    Ok(())
}

/// Writes what to do about an order.
fn advice_member(
    text: &mut Text,
    note: &mut Text,
    decimals: Decimals,
    facts: &Facts,
    look: &Look,
) -> Result<(), AllocError>
    ensures { OnOk result (text.new ≡ text.old ++ told_text false name.Advice
        (string (advices.advice decimals facts.now look.now.case))) }
{
    note.clear();
    advice(note, decimals, facts, look.case)?;
    sentence(text, false, Name::Advice, note.bytes())
}

/// Writes what happened to an order.
fn text_member(
    text: &mut Text,
    note: &mut Text,
    decimals: Decimals,
    facts: &Facts,
    look: &Look,
) -> Result<(), AllocError>
    ensures { OnOk result (text.new ≡ text.old ++ told_text true name.Text
        (string (sentences.account decimals facts.now look.now.case))) }
{
    note.clear();
    account(note, decimals, facts, look.case)?;
    sentence(text, true, Name::Text, note.bytes())
}

/// Writes the title of an order.
fn title_member(
    text: &mut Text,
    note: &mut Text,
    decimals: Decimals,
    facts: &Facts,
    look: &Look,
) -> Result<(), AllocError>
    ensures { OnOk result (text.new ≡ text.old ++ told_text true name.Title
        (string (sentences.title decimals facts.now look.now.case))) }
{
    note.clear();
    title(note, decimals, facts, look.case)?;
    sentence(text, true, Name::Title, note.bytes())
}

/// Writes the members between the sentences.
fn middle(text: &mut Text, rows: &[OrderRow], look: &Look, row: &OrderRow) -> Result<(), AllocError>
    requires { look.now.order < length rows.now }
    ensures { OnOk result (text.new ≡ text.old ++ more_of (look_members rows.now look.now row.now)) }
{
    let members = [
        order_member(Name::Again, look.again),
        said_as(Name::Case, Value::Word(Word::Case(look.case))),
        maybe_cause(Name::Cause, cause_of(&row.outcome)),
        order_member(Name::ConfirmedBy, look.confirmed_by),
        lines(row),
        count(Name::Order, look.order as u64 + 1),
        maybe_count(Name::Payment, payment_at(look.order, rows, &row.order)),
    ];
    more(text, &members)
}

/// Writes the members of a look.
fn look_members(
    text: &mut Text,
    note: &mut Text,
    decimals: Decimals,
    facts: &Facts,
    rows: &[OrderRow],
    look: &Look,
) -> Result<(), AllocError>
    requires { look.now.order < length rows.now }
    ensures { OnOk result (text.new ≡ text.old
        ++ members_text false (told (look_told decimals facts.now rows.now look.now))) }
{
    advice_member(text, note, decimals, facts, look)?;
    middle(text, rows, look, &facts.row)?;
    text_member(text, note, decimals, facts, look)?;
    more(text, &[maybe_time(&facts.row.time)])?;
    title_member(text, note, decimals, facts, look)?;
    more(text, &[weight_member(look)])?;
    text.push(b'}')
}

/// Writes the object of a look.
fn write_look(
    text: &mut Text,
    note: &mut Text,
    decimals: Decimals,
    facts: &Facts,
    rows: &[OrderRow],
    look: &Look,
) -> Result<(), AllocError>
    requires { look.now.order < length rows.now }
    ensures { OnOk result (text.new ≡ text.old
        ++ line_text (look_value (look_told decimals facts.now rows.now look.now))) }
{
    text.word(b"{\"look\":{")?;
    look_members(text, note, decimals, facts, rows, look)?;
    text.word(b"}\n")
}

/// Writes the object of a look at one of these rows.
fn look_row(
    text: &mut Text,
    note: &mut Text,
    decimals: Decimals,
    book: &[Entry],
    closings: &[Option<Closing>],
    messages: &[OrderMessage],
    rows: &[OrderRow],
    look: &Look,
) -> Result<(), AllocError>
    ensures { OnOk result (text.new ≡ text.old
        ++ look_line decimals book.now closings.now messages.now rows.now look.now) }
{
    match facts_of(book, closings, messages, rows, look) {
        Some(facts) => write_look(text, note, decimals, &facts, rows, look),
        None => Ok(()),
    }
}

/// Writes one object per look. The sentences are put together in `note`, whose own text is lost.
pub(crate) fn look_rows(
    text: &mut Text,
    note: &mut Text,
    decimals: Decimals,
    book: &[Entry],
    closings: &[Option<Closing>],
    messages: &[OrderMessage],
    rows: &[OrderRow],
    looks: &[Look],
) -> Result<(), AllocError>
    ensures { OnOk result (text.new ≡ text.old
        ++ looks_json decimals book.now closings.now messages.now rows.now looks.now) }
{
    for look in looks {
        look_row(text, note, decimals, book, closings, messages, rows, look)?;
    }
    Ok(())
}
