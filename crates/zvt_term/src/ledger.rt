//! The rows of the terminal's ledger.
ghost use Rattle.std.specs.Prelude.{◌≡◌};
ghost use Rattle.std.specs.Option.{option_copied};
ghost use Rattle.zvt_till.specs.Statuses.{spells};
ghost use Rattle.zvt_term.specs.Ledger.{is_approval, takes_back, approval_by, is_taken_back};

use zvt_bcd::{Amount, Currency, is_digits, number};

/// A row of the ledger: an approval, or the reversal of one.
#[derive(Clone, Copy, Debug, PartialEq, Eq)]
pub struct Row {
    /// The row's number, counted from 1.
    pub number: u16,
    pub amount: Amount,
    /// The currency that the till's registration named, if any.
    pub currency: Option<Currency>,
    /// The number of the approval that this row reverses, or `None` for an approval.
    pub reverses: Option<u16>,
}

/// Returns whether these digits spell the number.
fn spells(digits: [u8; 2], row_number: u16) -> bool
    ensures { result ≡ spells digits row_number }
{
    is_digits(digits.as_slice()) && number(digits.as_slice()) == u64::from(row_number)
}

impl Row {
    ghost use Rattle.std.specs.Prelude.{◌≡◌};
    ghost use Rattle.zvt_term.specs.Ledger.{takes_back, is_approval_named};

    /// Returns whether this row reverses the approval of that number.
    fn takes_back(&self, original: u16) -> bool
        ensures { result ≡ takes_back original self.now }
    {
        self.reverses == Some(original)
    }

    /// Returns whether this row is an approval whose number the digits spell.
    fn is_approval_named(&self, digits: [u8; 2]) -> bool
        ensures { result ≡ is_approval_named digits self.now }
    {
        self.reverses.is_none() && spells(digits, self.number)
    }
}

/// Returns the approval whose number the digits spell.
pub(crate) fn approval_by(rows: &[Row], digits: [u8; 2]) -> Option<Row>
    ensures { result ≡ approval_by digits rows.now }
{
    rows.iter()
        .copied()
        .find(|row| row.is_approval_named(digits))
}

/// Returns whether the approval of that number was reversed.
pub(crate) fn is_taken_back(rows: &[Row], original: u16) -> bool
    ensures { result ≡ is_taken_back original rows.now }
{
    rows.iter().any(|row| row.takes_back(original))
}
