//! The totals by card of an end of day.
ghost use Rattle.std.specs.Prelude.{◌≡◌, ◌+◌, ◌≤◌, true, length};
ghost use Rattle.std.specs.List.{list_all};
ghost use Rattle.std.specs.Option.{option_copied};
ghost use Rattle.zvt_bcd.specs.Digits.{AreDigits, is_digit_pair};
ghost use Rattle.zvt_report.specs.CardTotals.{group_at, groups_in, is_used, total_in, total_of, totals_in};

use zvt_bcd::{is_digits, number};

/// The number of bytes of the totals by card.
const SIZE: usize = 53;

/// The cards of a group, in the order of BMP 60.
#[derive(Clone, Copy)]
pub enum CardBrand {
    Girocard,
    Jcb,
    Mastercard,
    AmericanExpress,
    Visa,
    Diners,
    Others,
}

impl CardBrand {
    ghost use Rattle.std.specs.Prelude.{◌≡◌};
    ghost use Rattle.zvt_report.specs.CardTotals.{brand_name};

    /// Returns the name of the cards, in ASCII.
    pub fn name(self) -> &'static str
        ensures { result.now ≡ brand_name self }
    {
        match self {
            CardBrand::Girocard => "girocard",
            CardBrand::Jcb => "JCB",
            CardBrand::Mastercard => "Mastercard",
            CardBrand::AmericanExpress => "American Express",
            CardBrand::Visa => "VISA",
            CardBrand::Diners => "Diners",
            CardBrand::Others => "others",
        }
    }
}

/// The number of payments with the cards of a brand, and their sum.
#[derive(Clone, Copy)]
pub struct CardGroup {
    pub brand: CardBrand,
    pub count: u8,
    pub sum: u64,
}

/// Whether a group has a payment or a sum.
pub(crate) fn is_used(group: &CardGroup) -> bool
    ensures { result ≡ is_used group.now }
{
    group.count != 0 || group.sum != 0
}

/// The totals by card.
#[derive(Clone, Copy)]
pub struct CardTotals {
    /// The first receipt number.
    pub first: [u8; 2],
    /// The last receipt number.
    pub last: [u8; 2],
    /// A group for each brand, in their order.
    pub groups: [CardGroup; 7],
}

/// Whether each byte is two digits.
pub(crate) fn all_digits(bytes: &[u8]) -> bool
    ensures value { result ≡ list_all is_digit_pair bytes.now }
    ensures digits { result ≡ true → AreDigits bytes.now }
{
    is_digits(bytes)
}

/// Returns the number in at most six bytes, if each is two digits.
fn total_of(bytes: &[u8]) -> Option<u64>
    ensures { result ≡ total_of bytes.now }
{
    if bytes.len() <= 6 && all_digits(bytes) {
        Some(number(bytes))
    } else {
        None
    }
}

/// Returns the total in the content of BMP 04.
pub(crate) fn total_in(content: Option<&[u8]>) -> Option<u64>
    ensures { result ≡ total_in (option_copied content.entry) }
{
    total_of(content?)
}

/// Returns the group whose count has this index.
fn group_at(content: &[u8], brand: CardBrand, at: usize) -> Option<CardGroup>
    requires { at + 7 ≤ length content.now }
    ensures { result ≡ group_at content.now (brand, at) }
{
    let sum = total_of(&content[at + 1..at + 7])?;
    Some(CardGroup {
        brand,
        count: content[at],
        sum,
    })
}

/// Returns the groups after the two receipt numbers.
fn groups_in(content: &[u8]) -> Option<[CardGroup; 7]>
    requires { length content.now ≡ 53 }
    ensures { result ≡ groups_in content.now }
{
    Some([
        group_at(content, CardBrand::Girocard, 4)?,
        group_at(content, CardBrand::Jcb, 11)?,
        group_at(content, CardBrand::Mastercard, 18)?,
        group_at(content, CardBrand::AmericanExpress, 25)?,
        group_at(content, CardBrand::Visa, 32)?,
        group_at(content, CardBrand::Diners, 39)?,
        group_at(content, CardBrand::Others, 46)?,
    ])
}

/// Returns the totals by card in the content of BMP 60. Only contents of 53 bytes, whose sums are digits, are read.
pub(crate) fn totals_in(content: Option<&[u8]>) -> Option<CardTotals>
    ensures { result ≡ totals_in (option_copied content.entry) }
{
    let content = content?;
    if content.len() != SIZE {
        return None;
    }
    let groups = groups_in(content)?;
    Some(CardTotals {
        first: [content[0], content[1]],
        last: [content[2], content[3]],
        groups,
    })
}
