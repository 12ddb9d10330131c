//! Comments that are marks for the player.
ghost use Rattle.std.specs.Prelude.{◌≡◌, Ok, Err, MatchResult, option_map};
ghost use Rattle.zvt_text.specs.Words.{number_in};
ghost use Rattle.zvt_play.specs.Script.{act_of, comment_says, mark_of, named_in};

use crate::line::ScriptLineError;
use crate::numbers::NumberField;
use crate::step::Action;
use zvt_text::words::{decimal_number, trailing};

/// The most digits of a number of milliseconds.
const MAX_DIGITS: usize = 7;

/// The most digits of a name.
const NAME_DIGITS: usize = 2;

/// Reads a comment: a mark if it begins with `#~`, and otherwise nothing.
pub(crate) fn read_comment(line: &[u8]) -> Result<Option<Action>, ScriptLineError>
    ensures { MatchResult result (λ read. comment_says line.now ≡ Ok (option_map act_of read))
        (λ why. comment_says line.now ≡ Err why) }
{
    let Some(words) = trailing(b"#~", line) else {
        return Ok(None);
    };
    match mark(words) {
        Some(action) => Ok(Some(action)),
        None => Err(ScriptLineError::Mark),
    }
}

/// Returns the action of a mark, given the text after `#~`.
fn mark(words: &[u8]) -> Option<Action>
    ensures { option_map act_of result ≡ mark_of words.now }
{
    if words == b" silent".as_slice() {
        return Some(Action::Silence);
    }
    if let Some(digits) = trailing(b" listen ", words) {
        return Some(Action::Listen(number(digits)?));
    }
    if let Some(words) = trailing(b" bind ", words) {
        let (field, name) = named(words)?;
        return Some(Action::Bind { field, name });
    }
    if let Some(words) = trailing(b" same ", words) {
        let (field, name) = named(words)?;
        return Some(Action::Same { field, name });
    }
    if let Some(words) = trailing(b" use ", words) {
        let (field, name) = named(words)?;
        return Some(Action::Use { field, name });
    }
    Some(Action::Wait(number(trailing(b" ", words)?)?))
}

/// Reads a field and the number of a name, such as `87 n1`.
fn named(words: &[u8]) -> Option<(NumberField, u8)>
    ensures { result ≡ named_in words.now }
{
    if let Some(digits) = trailing(b"0B n", words) {
        return Some((NumberField::Trace, name(digits)?));
    }
    if let Some(digits) = trailing(b"37 n", words) {
        return Some((NumberField::Original, name(digits)?));
    }
    Some((NumberField::Receipt, name(trailing(b"87 n", words)?)?))
}

/// Reads the number of a name: one or two digits.
fn name(digits: &[u8]) -> Option<u8>
    ensures { result ≡ number_in 2 digits.now }
{
    let number = decimal_number(digits, NAME_DIGITS)?;
    Some(number as u8)
}

/// Reads a number of one to seven decimal digits.
fn number(digits: &[u8]) -> Option<u32>
    ensures { result ≡ number_in 7 digits.now }
{
    let number = decimal_number(digits, MAX_DIGITS)?;
    Some(number as u32)
}
