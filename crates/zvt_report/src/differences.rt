//! Writes how the total of an end of day differs from the book.
ghost use Rattle.std.specs.Prelude.{◌≡◌, ◌++◌, OnOk};
ghost use Rattle.zvt_report.specs.Differences.{close_distance, difference_text, distance, distance_part, joining};
ghost use Rattle.zvt_report.specs.Differences.{next_share, same_sign, share_text, share_words, shares_advice};
ghost use Rattle.zvt_report.specs.Differences.{shares_part};
ghost use Rattle.zvt_report.specs.Differences.{stated_text, totals_part, totals_text};

use crate::amounts::amount;
use crate::closings::Closing;
use crate::currencies::Decimals;
use crate::facts::{Share, ShareName, Shares};
use std::alloc::AllocError;
use zvt_text::Text;

/// Returns by how much two sums differ.
fn distance(a: u128, b: u128) -> u128
    ensures { result ≡ distance a b }
{
    if b <= a { a - b } else { b - a }
}

/// Returns by how much the total differs from the book.
fn close_distance(closing: &Closing) -> u128
    ensures { result ≡ close_distance closing.now }
{
    match closing.covered {
        Some(covered) => distance(covered, closing.booked),
        None => 0,
    }
}

/// Writes by how much the total differs from the book.
#[tactic(auto, unfolding(crate::specs::Differences::distance_part))]
pub(crate) fn distance_part(
    text: &mut Text,
    decimals: Decimals,
    closing: &Option<Closing>,
) -> Result<(), AllocError>
    ensures { OnOk result (text.new ≡ text.old ++ distance_part decimals closing.now) }
{
    match closing {
        Some(closing) => {
            text.word(b" by ")?;
            amount(text, decimals, close_distance(closing))
        }
        None => Ok(()),
    }
}

/// Writes a sum less another one.
#[tactic(auto, unfolding(crate::specs::Differences::difference_text))]
fn difference_text(
    text: &mut Text,
    decimals: Decimals,
    more: u128,
    less: u128,
) -> Result<(), AllocError>
    ensures { OnOk result (text.new ≡ text.old ++ difference_text decimals more less) }
{
    if less <= more {
        amount(text, decimals, more - less)
    } else {
        text.push(b'-')?;
        amount(text, decimals, less - more)
    }
}

/// Writes the total that the terminal states, or a dash if there is none.
#[tactic(auto, unfolding(crate::specs::Differences::stated_text))]
fn stated_text(text: &mut Text, decimals: Decimals, stated: Option<u128>) -> Result<(), AllocError>
    ensures { OnOk result (text.new ≡ text.old ++ stated_text decimals stated) }
{
    match stated {
        Some(stated) => amount(text, decimals, stated),
        None => text.push(b'-'),
    }
}

/// Writes the total, the book, and by how much they differ.
#[tactic(auto, unfolding(crate::specs::Differences::totals_text))]
fn totals_text(text: &mut Text, decimals: Decimals, closing: &Closing) -> Result<(), AllocError>
    ensures { OnOk result (text.new ≡ text.old ++ totals_text decimals closing.now) }
{
    text.word(b"The terminal's total is ")?;
    stated_text(text, decimals, closing.stated)?;
    text.word(b", and the book has ")?;
    difference_text(text, decimals, closing.booked, closing.taken_back)?;
    text.word(b": a difference of ")?;
    amount(text, decimals, close_distance(closing))?;
    text.push(b'.')
}

/// Writes the same of an end of day, if there is one.
#[tactic(auto, unfolding(crate::specs::Differences::totals_part))]
pub(crate) fn totals_part(
    text: &mut Text,
    decimals: Decimals,
    closing: &Option<Closing>,
) -> Result<(), AllocError>
    ensures { OnOk result (text.new ≡ text.old ++ totals_part decimals closing.now) }
{
    match closing {
        Some(closing) => totals_text(text, decimals, closing),
        None => Ok(()),
    }
}

/// Returns what an order is called, up to its amount.
fn share_words(name: ShareName) -> &'static [u8]
    ensures { result.now ≡ share_words name }
{
    match name {
        ShareName::Payment => b"the unclear payment of ",
        ShareName::Reversal => b"the unclear reversal of ",
        ShareName::Refund => b"the refund of ",
        ShareName::Order => b"the order of ",
    }
}

/// Writes an order that makes up a part of a difference.
#[tactic(auto, unfolding(crate::specs::Differences::share_text))]
fn share_text(text: &mut Text, decimals: Decimals, share: &Share) -> Result<(), AllocError>
    ensures { OnOk result (text.new ≡ text.old ++ share_text decimals share.now) }
{
    text.word(share_words(share.name))?;
    amount(text, decimals, u128::from(share.amount))?;
    text.word(b" (line ")?;
    text.number(share.line)?;
    text.push(b')')
}

/// Whether two orders change a total in one direction.
fn same_sign(a: bool, b: bool) -> bool
    ensures { result ≡ same_sign a b }
{
    (a && b) || (!a && !b)
}

/// Returns the word before a share after the first one.
fn joining(same: bool) -> &'static [u8]
    ensures { result.now ≡ joining same }
{
    if same { b" and " } else { b" less " }
}

/// Writes a share after the first one.
#[tactic(auto, unfolding(crate::specs::Differences::next_share))]
fn next_share(
    text: &mut Text,
    decimals: Decimals,
    first: &Share,
    next: &Share,
) -> Result<(), AllocError>
    ensures { OnOk result (text.new ≡ text.old ++ next_share decimals first.now next.now) }
{
    text.word(joining(same_sign(first.adds, next.adds)))?;
    share_text(text, decimals, next)
}

/// Writes the orders that make up a difference, if they are known.
#[tactic(auto, unfolding(crate::specs::Differences::shares_part))]
pub(crate) fn shares_part(
    text: &mut Text,
    decimals: Decimals,
    shares: &Shares,
) -> Result<(), AllocError>
    ensures { OnOk result (text.new ≡ text.old ++ shares_part decimals shares.now) }
{
    match shares {
        Shares::Nothing => Ok(()),
        Shares::One(a) => {
            text.word(b" It is exactly ")?;
            share_text(text, decimals, a)?;
            text.push(b'.')
        }
        Shares::Two(a, b) => {
            text.word(b" It is exactly ")?;
            share_text(text, decimals, a)?;
            next_share(text, decimals, a, b)?;
            text.push(b'.')
        }
        Shares::Three(a, b, c) => {
            text.word(b" It is exactly ")?;
            share_text(text, decimals, a)?;
            next_share(text, decimals, a, b)?;
            next_share(text, decimals, a, c)?;
            text.push(b'.')
        }
    }
}

/// Returns what to do about a difference that these orders make up.
pub(crate) fn shares_advice(shares: &Shares) -> &'static [u8]
    ensures { result.now ≡ shares_advice shares.now }
{
    match shares {
        Shares::Nothing => {
            b"Settle the unclear payments and reversals first. Then compare the payments with the terminal's receipts."
        }
        Shares::One(_) => b"If this order is unclear, settle it. Nothing else is missing.",
        Shares::Two(..) | Shares::Three(..) => {
            b"If one of these orders is unclear, settle it. Nothing else is missing."
        }
    }
}
