//! Counts with their nouns, in the singular or the plural.
ghost use Rattle.std.specs.Prelude.{◌≡◌, ◌++◌, OnOk};
ghost use Rattle.zvt_show.specs.Notes.{counted};

use std::alloc::AllocError;
use zvt_text::Text;

/// Adds a count with its noun, as `1 line` or `2 lines`.
pub(crate) fn put_many(text: &mut Text, count: u64, word: &[u8]) -> Result<(), AllocError>
    ensures { OnOk result (text.new ≡ text.old ++ counted count word.now) }
{
    text.number(count)?;
    text.push(b' ')?;
    text.word(word)?;
    if count == 1 {
        return Ok(());
    }
    text.push(b's')
}
