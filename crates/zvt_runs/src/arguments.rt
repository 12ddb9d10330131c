//! Steps of a run, and the words that name them.
ghost use Rattle.std.specs.Prelude.{◌≡◌, if◌then◌else◌, Some, None, option_map};
ghost use Rattle.std.specs.Char.{digit_value, is_ascii_hexdigit};
ghost use Rattle.zvt_runs.specs.Words.{amount_of, ask_of, code_in, code_of, declined, declining, digits_of};
ghost use Rattle.zvt_runs.specs.Words.{ends_number, entry_of, numbered, step_of};

use zvt_bcd::Amount;
use zvt_kept::is_reference;
use zvt_term::Verdict;
use zvt_text::words::{decimal_number, size_before, trailing};
use zvt_till::Order;

/// The ends of a line that a run operates.
#[derive(Clone, Copy)]
pub enum Ends {
    /// The till and the terminal.
    Both,
    /// The till alone.
    Till,
}

/// One step of a run.
#[derive(Clone, Copy)]
pub enum Step {
    /// Registers the till on its line.
    Register,
    /// Pays this amount.
    Pay(Amount),
    /// Reverses the payment at this index of the till's book, counted from 0.
    Reverse(usize),
    /// Closes the day.
    CloseDay,
    /// Pays this amount, and the terminal declines it with this result code.
    Decline { amount: Amount, code: u8 },
    /// Asks the terminal for its last transaction (PA00P015, Repeat Receipt).
    Ask,
    /// Asks as [`Step::Ask`] does, if the till is registered and the answer can be of use: an unclear order is pending,
    /// or the till does not know the terminal's last transaction.
    Settle,
}

impl Step {
    ghost use Rattle.zvt_runs.specs.Steps.{order_of, verdict_of};

    /// Returns the order that the till is given. A step that asks gives it none.
    pub fn order(&self) -> Option<Order>
        ensures { result ≡ order_of self.now }
    {
        match self {
            Step::Register => Some(Order::Register),
            Step::Pay(amount) => Some(Order::Pay(*amount)),
            Step::Reverse(entry) => Some(Order::Reverse(*entry)),
            Step::CloseDay => Some(Order::CloseDay),
            Step::Decline { amount, .. } => Some(Order::Pay(*amount)),
            Step::Ask | Step::Settle => None,
        }
    }

    /// Returns the terminal's decision on the order.
    pub fn verdict(&self) -> Verdict
        ensures { result ≡ verdict_of self.now }
    {
        match self {
            Step::Decline { code, .. } => Verdict::Decline(*code),
            _ => Verdict::Approve,
        }
    }
}

/// The maximum number of digits in a number.
const MAX_DIGITS: usize = 12;

/// Parses an amount.
fn amount(digits: &[u8]) -> Option<Amount>
    ensures { result ≡ amount_of digits.now }
{
    let units = decimal_number(digits, MAX_DIGITS)?;
    Amount::new(units)
}

/// Parses the number of an entry, which is counted from 1, and returns its index.
fn entry(digits: &[u8]) -> Option<usize>
    ensures { result ≡ entry_of digits.now }
{
    let number = decimal_number(digits, MAX_DIGITS)?;
    if number == 0 {
        None
    } else {
        Some(number as usize - 1)
    }
}

/// Returns the value of a hexadecimal digit in upper or lower case.
pub(crate) fn digit(byte: u8) -> Option<u8>
    ensures { result ≡ (if is_ascii_hexdigit byte then Some (digit_value byte) else None) }
{
    match byte {
        b'0'..=b'9' => Some(byte - b'0'),
        b'A'..=b'F' => Some(byte - b'A' + 10),
        b'a'..=b'f' => Some(byte - b'a' + 10),
        _ => None,
    }
}

/// Parses a result code of two hexadecimal digits. 00 is not accepted.
fn code(high: u8, low: u8) -> Option<u8>
    ensures { result ≡ code_of high low }
{
    let code = digit(high)? * 16 + digit(low)?;
    if code == 0 { None } else { Some(code) }
}

/// Returns a payment to be declined, if both its amount and its code are valid.
fn declining(amount: Option<Amount>, code: Option<u8>) -> Option<Step>
    ensures { result ≡ declining amount code }
{
    let amount = amount?;
    let code = code?;
    Some(Step::Decline { amount, code })
}

/// Parses a payment to be declined: the amount, a colon and the code.
fn declined(words: &[u8]) -> Option<Step>
    ensures { result ≡ declined words.now }
{
    let prefix = words.len().checked_sub(3)?;
    let (digits, code_after) = words.split_at(prefix);
    match code_after {
        [b':', high, low] => declining(amount(digits), code(*high, *low)),
        _ => None,
    }
}

/// Returns the digits of a number that ends the word or is followed by a reference.
fn digits_of(tail: &[u8]) -> Option<&[u8]>
    ensures { option_map (λ digits. digits.now) result ≡ digits_of tail.now }
{
    let (digits, rest) = tail.split_at(size_before(b':', tail));
    if ends_number(rest) {
        Some(digits)
    } else {
        None
    }
}

/// Returns whether a number ends here: nothing follows it, or a reference.
fn ends_number(rest: &[u8]) -> bool
    ensures { result ≡ ends_number rest.now }
{
    if rest.is_empty() {
        return true;
    }
    match trailing(b":ref=", rest) {
        Some(reference) => is_reference(reference),
        None => false,
    }
}

/// Parses a step with a number.
fn numbered(ends: Ends, word: &[u8]) -> Option<Step>
    ensures { result ≡ numbered ends word.now }
{
    if let Some(tail) = trailing(b"pay:", word) {
        return Some(Step::Pay(amount(digits_of(tail)?)?));
    }
    if let Some(tail) = trailing(b"reverse:", word) {
        return Some(Step::Reverse(entry(digits_of(tail)?)?));
    }
    match ends {
        Ends::Both => declined(trailing(b"decline:", word)?),
        Ends::Till => None,
    }
}

/// Returns the step that asks, if the terminal is elsewhere.
fn ask_of(ends: Ends) -> Option<Step>
    ensures { result ≡ ask_of ends }
{
    match ends {
        Ends::Both => None,
        Ends::Till => Some(Step::Ask),
    }
}

/// Parses a step: `register`, `pay:N`, `reverse:N` and `close`. A run of the till alone also has `ask`, and a run of
/// both ends has `decline:N:XX`.
///
/// N is one to twelve decimal digits, not all of them 0. In `pay` and `decline` it is an amount in the currency's
/// smallest unit, and in `reverse` an entry of the book, counted from 1. XX is two hexadecimal digits in upper or lower
/// case, but not 00. A payment and a reversal may have a reference for the till's book, such as `pay:1234:ref=A-1009`:
/// 1 to 40 printable ASCII characters without a space.
pub fn step_of(ends: Ends, word: &str) -> Option<Step>
    ensures { result ≡ step_of ends word.now }
{
    match word {
        "register" => Some(Step::Register),
        "close" => Some(Step::CloseDay),
        "ask" => ask_of(ends),
        _ => numbered(ends, word.as_bytes()),
    }
}

/// Parses a result code of two hexadecimal digits in upper or lower case. 00 is not accepted, because it means success.
pub fn result_code(word: &str) -> Option<u8>
    ensures { result ≡ code_in word.now }
{
    match word.as_bytes() {
        [high, low] => code(*high, *low),
        _ => None,
    }
}
