//! Writes the orders that a person should look at.
ghost use Rattle.std.specs.Prelude.{◌≡◌, ◌++◌, ◌≤◌, ◌^◌, IfOk, OnOk};
ghost use Rattle.zvt_report.specs.LookList.{account_lines, advice_lines, is_listed, is_urgent, lines_part};
ghost use Rattle.zvt_report.specs.LookList.{listed_after, listed_looks, look_head, look_of, look_text, looks_from};
ghost use Rattle.zvt_report.specs.LookList.{step_text, urgent_count, weight_text};

use crate::advices::advice;
use crate::cases::{Case, Look, Weight};
use crate::closings::Closing;
use crate::columns::right;
use crate::currencies::Decimals;
use crate::facts::{Facts, facts_of};
use crate::rows::{OrderMessage, OrderRow};
use crate::sentences::account;
use crate::times::time_first;
use crate::titles::title;
use crate::wrapping::wrapped;
use std::alloc::AllocError;
use zvt_text::Text;
use zvt_till::Entry;

/// Writes how urgent a case or a finding is.
#[tactic(auto, unfolding(crate::specs::LookList::weight_text))]
pub(crate) fn weight(text: &mut Text, weight: Weight) -> Result<(), AllocError>
    ensures { OnOk result (text.new ≡ text.old ++ weight_text weight) }
{
    match weight {
        Weight::Act => text.word(b"ACT    "),
        Weight::Check => text.word(b"CHECK  "),
        Weight::Note => text.word(b"NOTE   "),
    }
}

/// Writes the time and the lines of an order, and the end of the line.
#[tactic(auto, unfolding(crate::specs::LookList::lines_part))]
pub(crate) fn lines_part(text: &mut Text, row: &OrderRow) -> Result<(), AllocError>
    ensures { OnOk result (text.new ≡ text.old ++ lines_part row.now) }
{
    text.word(b" (")?;
    time_first(text, &row.time)?;
    text.word(b"lines ")?;
    text.number(row.first)?;
    text.push(b'-')?;
    text.number(row.last)?;
    text.word(b")\n")
}

/// Writes an empty line and the line with the title.
#[tactic(auto, unfolding(crate::specs::LookList::look_head))]
fn look_head(
    text: &mut Text,
    decimals: Decimals,
    number: u128,
    facts: &Facts,
    case: Case,
) -> Result<(), AllocError>
    ensures { OnOk result (text.new ≡ text.old ++ look_head decimals number facts.now case) }
{
    text.push(b'\n')?;
    right(text, 2, b"", number)?;
    text.word(b". ")?;
    weight(text, case.weight())?;
    title(text, decimals, facts, case)?;
    lines_part(text, &facts.row)
}

/// Writes what happened to an order.
#[tactic(auto, unfolding(crate::specs::LookList::account_lines))]
pub(crate) fn account_lines(text: &mut Text, sentence: &[u8]) -> Result<(), AllocError>
    ensures { OnOk result (text.new ≡ text.old ++ account_lines sentence.now) }
{
    text.word(b"    ")?;
    wrapped(text, 4, sentence)?;
    text.push(b'\n')
}

/// Writes what to do about an order.
#[tactic(auto, unfolding(crate::specs::LookList::advice_lines))]
pub(crate) fn advice_lines(text: &mut Text, sentence: &[u8]) -> Result<(), AllocError>
    ensures { OnOk result (text.new ≡ text.old ++ advice_lines sentence.now) }
{
    text.word(b"    -> ")?;
    wrapped(text, 7, sentence)?;
    text.push(b'\n')
}

/// Writes an order in this case. The sentences are put together in `note`, whose own text is lost.
#[tactic(auto, unfolding(crate::specs::LookList::look_text))]
fn look_text(
    text: &mut Text,
    note: &mut Text,
    decimals: Decimals,
    number: u128,
    facts: &Facts,
    case: Case,
) -> Result<(), AllocError>
    ensures { OnOk result (text.new ≡ text.old ++ look_text decimals number facts.now case) }
{
    look_head(text, decimals, number, facts, case)?;
    note.clear();
    account(note, decimals, facts, case)?;
    account_lines(text, note.bytes())?;
    note.clear();
    advice(note, decimals, facts, case)?;
    advice_lines(text, note.bytes())
}

/// Writes a look under this number.
#[tactic(auto, unfolding(crate::specs::LookList::look_of))]
fn look_of(
    text: &mut Text,
    note: &mut Text,
    decimals: Decimals,
    book: &[Entry],
    closings: &[Option<Closing>],
    messages: &[OrderMessage],
    rows: &[OrderRow],
    number: u128,
    look: &Look,
) -> Result<(), AllocError>
    ensures { OnOk result (text.new ≡ text.old
        ++ look_of decimals book.now closings.now messages.now rows.now number look.now) }
{
    let Some(facts) = facts_of(book, closings, messages, rows, look) else {
        return Ok(());
    };
    look_text(text, note, decimals, number, &facts, look.case)
}

/// Whether the case is urgent.
fn is_urgent(case: Case) -> bool
    ensures { result ≡ is_urgent case }
{
    case.weight().is_urgent()
}

/// Whether a case is listed in the round of the urgent ones, or in the other one.
pub(crate) fn is_listed(urgent: bool, case: Case) -> bool
    ensures { result ≡ is_listed urgent case }
{
    if urgent {
        is_urgent(case)
    } else {
        !is_urgent(case)
    }
}

/// Writes a look if it is listed in this round, and returns how many are listed then.
fn step(
    text: &mut Text,
    note: &mut Text,
    decimals: Decimals,
    book: &[Entry],
    closings: &[Option<Closing>],
    messages: &[OrderMessage],
    rows: &[OrderRow],
    urgent: bool,
    listed: u128,
    look: &Look,
) -> Result<u128, AllocError>
    requires { listed ≤ 2 ^ 100 }
    ensures { IfOk result (λ after. (after ≡ listed_after urgent listed look.now)
        × (text.new ≡ text.old
        ++ step_text decimals book.now closings.now messages.now rows.now urgent listed look.now)) }
{
    if !is_listed(urgent, look.case) {
        return Ok(listed);
    }
    look_of(
        text,
        note,
        decimals,
        book,
        closings,
        messages,
        rows,
        listed + 1,
        look,
    )?;
    Ok(listed + 1)
}

/// Writes the looks of one round. Their numbers follow `before`.
fn looks_from(
    text: &mut Text,
    note: &mut Text,
    decimals: Decimals,
    book: &[Entry],
    closings: &[Option<Closing>],
    messages: &[OrderMessage],
    rows: &[OrderRow],
    urgent: bool,
    before: u128,
    looks: &[Look],
) -> Result<(), AllocError>
    requires { before ≤ 2 ^ 64 }
    ensures { OnOk result (text.new ≡ text.old
        ++ looks_from decimals book.now closings.now messages.now rows.now urgent before looks.now) }
{
    let mut listed = before;
    let mut rest = looks;
    'looks: while let [look, later @ ..] = rest {
        listed = step(
            text, note, decimals, book, closings, messages, rows, urgent, listed, look,
        )?;
        rest = later;
    }
    Ok(())
}

/// Returns the number of urgent looks.
pub(crate) fn urgent_count(looks: &[Look]) -> usize
    ensures { result ≡ urgent_count looks.now }
{
    looks.iter().filter(|look| is_urgent(look.case)).count()
}

/// Writes the looks under their heading, the urgent ones first. The sentences are put together in `note`, whose own
/// text is lost.
pub(crate) fn listed_looks(
    text: &mut Text,
    note: &mut Text,
    decimals: Decimals,
    book: &[Entry],
    closings: &[Option<Closing>],
    messages: &[OrderMessage],
    rows: &[OrderRow],
    looks: &[Look],
) -> Result<(), AllocError>
    ensures { OnOk result (text.new ≡ text.old
        ++ listed_looks decimals book.now closings.now messages.now rows.now looks.now) }
{
    let urgent = urgent_count(looks) as u128;
    text.word(b"Look at these\n")?;
    looks_from(
        text, note, decimals, book, closings, messages, rows, true, 0, looks,
    )?;
    looks_from(
        text, note, decimals, book, closings, messages, rows, false, urgent, looks,
    )
}
