//! The sum of the net totals of several reports.
ghost use Rattle.std.specs.Prelude.{◌≡◌};
ghost use Rattle.zvt_report.specs.NetSum.{all_units, are_in, sum_of, summed};

use crate::sums::net_total;
use zvt_bcd::Currency;
use zvt_till::Entry;

/// A net total.
#[derive(Clone, Copy)]
pub(crate) struct Net {
    /// The currency that all registrations name, if they do.
    pub(crate) currency: Option<Currency>,
    /// In the smallest unit of the currency.
    pub(crate) units: u128,
}

impl Net {
    ghost use Rattle.std.specs.Prelude.{◌≡◌};
    ghost use Rattle.zvt_report.specs.NetSum.{is_in, net_of};

    /// Returns the net total of a book in this currency.
    pub(crate) fn new(currency: Option<Currency>, book: &[Entry]) -> Net
        ensures { result ≡ net_of currency book.now }
    {
        Net {
            currency,
            units: net_total(book),
        }
    }

    /// Whether it is in this currency.
    fn is_in(&self, currency: Currency) -> bool
        ensures { result ≡ is_in currency self.now }
    {
        match self.currency {
            Some(own) => own.get() == currency.get(),
            None => false,
        }
    }
}

/// Returns the sum of these net totals in the smallest unit of their currency. It saturates.
fn all_units(nets: &[Net]) -> u128
    ensures { result ≡ all_units nets.now }
{
    let mut sum: u128 = 0;
    for net in nets {
        sum = sum.saturating_add(net.units);
    }
    sum
}

/// Whether all of these net totals are in this currency.
fn are_in(currency: Currency, nets: &[Net]) -> bool
    ensures { result ≡ are_in currency nets.now }
{
    nets.iter().all(|net| net.is_in(currency))
}

/// Returns the sum of these net totals, if all are in this currency.
fn summed(currency: Currency, nets: &[Net]) -> Option<Net>
    ensures { result ≡ summed currency nets.now }
{
    if are_in(currency, nets) {
        Some(Net {
            currency: Some(currency),
            units: all_units(nets),
        })
    } else {
        None
    }
}

/// Returns the sum of these net totals, if there are two at least, and all are in one currency.
pub(crate) fn sum_of(nets: &[Net]) -> Option<Net>
    ensures { result ≡ sum_of nets.now }
{
    match nets {
        [first, _, ..] => summed(first.currency?, nets),
        _ => None,
    }
}
