//! Hides long numbers in printed texts: all but their last four digits.
ghost use Rattle.std.specs.Prelude.{◌≡◌, ◌++◌, ◌+◌, ◌<◌, ◌^◌, false, length, min, OnOk};
ghost use Rattle.zvt_report.specs.Masking.{character_of, digits_ahead, digits_before, digits_of, goes_on, hides};
ghost use Rattle.zvt_report.specs.Masking.{is_digit, is_joint, joins, masked, shown_as};

use std::alloc::AllocError;
use zvt_text::Text;

/// The number of digits from which a number is long.
const LONG: usize = 13;

/// The number of its digits that are shown.
const SHOWN: usize = 4;

/// What a character is to a number.
#[derive(Clone, Copy)]
enum Character {
    Digit,
    /// A character that may stand once between two digits.
    Joint,
    Other,
}

/// Whether a character is a digit.
fn is_digit(character: u8) -> bool
    ensures { result ≡ is_digit character }
{
    b'0' <= character && character <= b'9'
}

/// Whether a character may stand between two digits of a number.
fn is_joint(character: u8) -> bool
    ensures { result ≡ is_joint character }
{
    character == b' ' || (character == b'-' || character == b'.')
}

/// Returns what a character is to a number. A second character between two digits ends it.
fn character_of(joined: bool, character: u8) -> Character
    ensures { result ≡ character_of joined character }
{
    if is_digit(character) {
        Character::Digit
    } else if is_joint(character) && !joined {
        Character::Joint
    } else {
        Character::Other
    }
}

/// Whether a character joins digits.
fn joins(kind: Character) -> bool
    ensures { result ≡ joins kind }
{
    match kind {
        Character::Joint => true,
        Character::Digit | Character::Other => false,
    }
}

/// Returns 1 for a digit, and 0 for another character.
fn digits_of(kind: Character) -> usize
    ensures { result ≡ digits_of kind }
{
    match kind {
        Character::Digit => 1,
        Character::Joint | Character::Other => 0,
    }
}

/// Whether a number goes on with a character.
fn goes_on(kind: Character) -> bool
    ensures { result ≡ goes_on kind }
{
    match kind {
        Character::Digit | Character::Joint => true,
        Character::Other => false,
    }
}

/// Returns the number of digits with which a number goes on after a digit, up to 12: with more, the digit is hidden in
/// any case.
fn digits_ahead(rest: &[u8]) -> usize
    ensures { result ≡ min (digits_ahead false rest.now) 12 }
{
    let mut found = 0;
    let mut joined = false;
    let mut left = rest;
    'digits: while let [character, later @ ..] = left {
        if found == LONG - 1 {
            return found;
        }
        let kind = character_of(joined, *character);
        if !goes_on(kind) {
            return found;
        }
        found += digits_of(kind);
        joined = joins(kind);
        left = later;
    }
    found
}

/// Whether a digit is hidden that comes after `before` digits of its number, and before these characters.
fn hides(before: usize, rest: &[u8]) -> bool
    requires { before < 2 ^ 63 }
    ensures { result ≡ hides before (digits_ahead false rest.now) }
{
    let ahead = digits_ahead(rest);
    SHOWN <= ahead && LONG <= before + 1 + ahead
}

/// Returns a character as it is shown.
fn shown_as(kind: Character, before: usize, character: u8, rest: &[u8]) -> u8
    requires { before < 2 ^ 63 }
    ensures { result ≡ shown_as kind before character rest.now }
{
    match kind {
        Character::Digit => { if hides(before, rest) { b'*' } else { character } }
        Character::Joint | Character::Other => character,
    }
}

/// Returns the number of digits of the number so far.
fn digits_before(kind: Character, before: usize) -> usize
    requires { before < 2 ^ 63 }
    ensures { result ≡ digits_before kind before }
{
    match kind {
        Character::Digit => before + 1,
        Character::Joint => before,
        Character::Other => 0,
    }
}

/// Writes a text with an asterisk for each hidden digit.
pub(crate) fn masked(text: &mut Text, bytes: &[u8]) -> Result<(), AllocError>
    ensures { OnOk result (text.new ≡ text.old ++ masked bytes.now) }
{
    let mut before = 0;
    let mut joined = false;
    let mut rest = bytes;
    'characters: while let [character, later @ ..] = rest {
        let kind = character_of(joined, *character);
        text.push(shown_as(kind, before, *character, later))?;
        before = digits_before(kind, before);
        joined = joins(kind);
        rest = later;
    }
    Ok(())
}
