//! Texts in columns of a fixed width. A column holds every amount of a payment and every number of a line up to a
//! million, so that widths need not be measured. A longer text pushes the rest of its row to the right.
ghost use Rattle.std.specs.Prelude.{◌≡◌, ◌++◌, replicate, OnOk};
ghost use Rattle.std.specs.Fmt.{decimal};
ghost use Rattle.zvt_text.specs.Numbers.{zero_padded};
ghost use Rattle.zvt_report.specs.Columns.{left_aligned, right_aligned};

use itoa::Buffer;
use std::alloc::AllocError;
use zvt_text::Text;

/// Writes a character that many times.
pub(crate) fn repeat(text: &mut Text, character: u8, count: usize) -> Result<(), AllocError>
    ensures { OnOk result (text.new ≡ text.old ++ replicate count character) }
{
    for _ in 0..count {
        text.push(character)?;
    }
    Ok(())
}

/// Writes a sign and a number at the right end of a column.
pub(crate) fn right(
    text: &mut Text,
    width: usize,
    sign: &[u8],
    number: u128,
) -> Result<(), AllocError>
    ensures { OnOk result (text.new ≡ text.old ++ right_aligned width (sign.now ++ decimal number)) }
{
    let mut buffer = Buffer::new();
    let digits = buffer.format(number);
    let free = width
        .saturating_sub(sign.len())
        .saturating_sub(digits.len());
    repeat(text, b' ', free)?;
    text.word(sign)?;
    text.word(digits.as_bytes())
}

/// Writes a word at the left end of a column.
pub(crate) fn left(text: &mut Text, width: usize, word: &[u8]) -> Result<(), AllocError>
    ensures { OnOk result (text.new ≡ text.old ++ left_aligned width word.now) }
{
    text.word(word)?;
    repeat(text, b' ', width.saturating_sub(word.len()))
}

/// Writes a number in at least this many digits.
pub(crate) fn zeros(text: &mut Text, width: usize, number: u128) -> Result<(), AllocError>
    ensures { OnOk result (text.new ≡ text.old ++ zero_padded width number) }
{
    let mut buffer = Buffer::new();
    let digits = buffer.format(number);
    repeat(text, b'0', width.saturating_sub(digits.len()))?;
    text.word(digits.as_bytes())
}
