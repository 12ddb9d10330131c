//! Writes what two payments of one amount have in common, and how far they are apart.
ghost use Rattle.std.specs.Prelude.{◌≡◌, ◌++◌, OnOk};
ghost use Rattle.zvt_report.specs.Apart.{apart, apart_part, card_part, same_number, seconds_text, seconds_to};
ghost use Rattle.zvt_report.specs.Apart.{span_part};

use crate::alike::seconds;
use crate::cards::card_number;
use crate::rows::OrderRow;
use std::alloc::AllocError;
use zvt_text::Text;
use zvt_trace::Moment;

/// The number of seconds of a day, less one.
const WITHIN_A_DAY: u64 = 86399;

/// Whether both numbers are known and the same.
fn same_number(a: Option<[u8; 10]>, b: Option<[u8; 10]>) -> bool
    ensures { result ≡ same_number a b }
{
    match (a, b) {
        (Some(a), Some(b)) => a == b,
        _ => false,
    }
}

/// Writes that two payments were made with one card, if the terminal named one masked number for both.
#[tactic(auto, unfolding(crate::specs::Apart::card_part))]
pub(crate) fn card_part(text: &mut Text, row: &OrderRow, other: &OrderRow) -> Result<(), AllocError>
    ensures { OnOk result (text.new ≡ text.old ++ card_part row.now other.now) }
{
    if same_number(card_number(&row.card), card_number(&other.card)) {
        text.word(b" with the same card")
    } else {
        Ok(())
    }
}

/// Returns the seconds from one moment to a later one, if it is less than a day.
fn seconds_to(before: &Moment, after: &Moment) -> Option<u64>
    ensures { result ≡ seconds_to before.now after.now }
{
    let (before, after) = (seconds(before), seconds(after));
    if before <= after && after - before <= WITHIN_A_DAY {
        Some(after - before)
    } else {
        None
    }
}

/// Returns the seconds from one moment to a later one, if both are known and it is less than a day.
fn apart(before: &Option<Moment>, after: &Option<Moment>) -> Option<u64>
    ensures { result ≡ apart before.now after.now }
{
    match (before, after) {
        (Some(before), Some(after)) => seconds_to(before, after),
        _ => None,
    }
}

/// Writes seconds, and from two minutes on whole minutes.
#[tactic(auto, unfolding(crate::specs::Apart::seconds_text))]
fn seconds_text(text: &mut Text, seconds: u64) -> Result<(), AllocError>
    ensures { OnOk result (text.new ≡ text.old ++ seconds_text seconds) }
{
    if seconds <= 119 {
        text.number(seconds)?;
        text.word(b" s ")
    } else {
        text.number(seconds / 60)?;
        text.word(b" min ")
    }
}

/// Writes seconds before this word, if they are known.
fn span_part(text: &mut Text, word: &[u8], seconds: Option<u64>) -> Result<(), AllocError>
    ensures { OnOk result (text.new ≡ text.old ++ span_part word.now seconds) }
{
    match seconds {
        Some(seconds) => {
            text.word(b", ")?;
            seconds_text(text, seconds)?;
            text.word(word)
        }
        None => Ok(()),
    }
}

/// Writes how far two payments are apart before this word, if that is known.
#[tactic(auto, unfolding(crate::specs::Apart::apart_part))]
pub(crate) fn apart_part(
    text: &mut Text,
    word: &[u8],
    row: &OrderRow,
    other: &OrderRow,
) -> Result<(), AllocError>
    ensures { OnOk result (text.new ≡ text.old ++ apart_part word.now row.now other.now) }
{
    span_part(text, word, apart(&row.time, &other.time))
}
