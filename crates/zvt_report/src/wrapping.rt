//! Breaks sentences into lines.
ghost use Rattle.std.specs.Prelude.{◌≡◌, ◌++◌, IfOk, OnOk};
ghost use Rattle.zvt_report.specs.Wrapping.{free_after, letter_text, word_length, wrapped};

use crate::columns::repeat;
use std::alloc::AllocError;
use zvt_text::Text;

/// The greatest number of columns of a line, unless a single word is longer.
const LINE_WIDTH: usize = 76;

/// Returns the number of letters of the word that begins here.
fn word_length(text: &[u8]) -> usize
    ensures { result ≡ word_length text.now }
{
    text.iter().take_while(|letter| **letter != b' ').count()
}

/// Writes the next letter of a sentence, before `later`, in a line with `free` columns left. Returns how many columns
/// are left after it.
fn put(
    text: &mut Text,
    indent: usize,
    width: usize,
    free: usize,
    letter: u8,
    later: &[u8],
) -> Result<usize, AllocError>
    ensures { IfOk result (λ left. (left ≡ free_after width free letter later.now)
        × (text.new ≡ text.old ++ letter_text indent free letter later.now)) }
{
    if letter != b' ' {
        text.push(letter)?;
        return Ok(free.saturating_sub(1));
    }
    if word_length(later) < free {
        text.push(b' ')?;
        return Ok(free.saturating_sub(1));
    }
    text.push(b'\n')?;
    repeat(text, b' ', indent)?;
    Ok(width)
}

/// Writes a sentence that begins after its indentation. Its lines are broken at blanks.
#[tactic(auto, unfolding(crate::specs::Wrapping::wrapped))]
pub(crate) fn wrapped(text: &mut Text, indent: usize, sentence: &[u8]) -> Result<(), AllocError>
    ensures { OnOk result (text.new ≡ text.old ++ wrapped indent sentence.now) }
{
    let width = LINE_WIDTH.saturating_sub(indent);
    let mut free = width;
    let mut rest = sentence;
    'letters: while let [letter, later @ ..] = rest {
        free = put(text, indent, width, free, *letter, later)?;
        rest = later;
    }
    Ok(())
}
