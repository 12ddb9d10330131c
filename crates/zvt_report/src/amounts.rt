//! Writes amounts of money.
ghost use Rattle.std.specs.Prelude.{◌≡◌, ◌++◌, OnOk};
ghost use Rattle.zvt_report.specs.Amounts.{amount_column, amount_text, count_text, fraction, whole};

use crate::columns::{right, zeros};
use crate::currencies::Decimals;
use std::alloc::AllocError;
use zvt_text::Text;

/// The width of a column of amounts before the decimal point: twelve digits, which is room for every amount.
const BEFORE_POINT: usize = 12;

/// Returns the number before the decimal point.
fn whole(decimals: Decimals, units: u128) -> u128
    ensures { result ≡ whole decimals units }
{
    match decimals {
        Decimals::Zero => units,
        Decimals::Two => units / 100,
        Decimals::Three => units / 1000,
    }
}

/// Writes the decimal point and the digits after it.
fn fraction(text: &mut Text, decimals: Decimals, units: u128) -> Result<(), AllocError>
    ensures { OnOk result (text.new ≡ text.old ++ fraction decimals units) }
{
    match decimals {
        Decimals::Zero => Ok(()),
        Decimals::Two => {
            text.push(b'.')?;
            zeros(text, 2, units % 100)
        }
        Decimals::Three => {
            text.push(b'.')?;
            zeros(text, 3, units % 1000)
        }
    }
}

/// Writes an amount in a sentence.
#[tactic(auto, unfolding(crate::specs::Amounts::amount_text))]
pub(crate) fn amount(text: &mut Text, decimals: Decimals, units: u128) -> Result<(), AllocError>
    ensures { OnOk result (text.new ≡ text.old ++ amount_text decimals units) }
{
    text.number(whole(decimals, units))?;
    fraction(text, decimals, units)
}

/// Writes an amount with its sign in a column.
#[tactic(auto, unfolding(crate::specs::Amounts::amount_column))]
pub(crate) fn amount_column(
    text: &mut Text,
    decimals: Decimals,
    sign: &[u8],
    units: u128,
) -> Result<(), AllocError>
    ensures { OnOk result (text.new ≡ text.old ++ amount_column decimals sign.now units) }
{
    right(text, BEFORE_POINT, sign, whole(decimals, units))?;
    fraction(text, decimals, units)
}

/// Writes how many things there are, such as `2 payments`.
#[tactic(auto, unfolding(crate::specs::Amounts::count_text))]
pub(crate) fn count(text: &mut Text, count: usize, word: &[u8]) -> Result<(), AllocError>
    ensures { OnOk result (text.new ≡ text.old ++ count_text count word.now) }
{
    text.number(count)?;
    text.push(b' ')?;
    text.word(word)?;
    if count != 1 {
        text.push(b's')?;
    }
    Ok(())
}
