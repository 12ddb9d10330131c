//! The ends of day whose total differs from the book.
ghost use Rattle.std.specs.Prelude.{◌≡◌};
ghost use Rattle.zvt_report.specs.Differing.{closing_at, differs, differs_at};

use crate::closings::Closing;

/// Returns the closing at this place, if the order there closed a day.
pub(crate) fn closing_at(closings: &[Option<Closing>], place: usize) -> Option<Closing>
    ensures { result ≡ closing_at closings.now place }
{
    *closings.get(place)?
}

/// Whether the stated total differs from the book.
fn differs(closing: &Closing) -> bool
    ensures { result ≡ differs closing.now }
{
    match closing.covered {
        Some(covered) => covered != closing.booked,
        None => false,
    }
}

/// Whether the order at this place closed a day with a total that differs from the book.
pub(crate) fn differs_at(closings: &[Option<Closing>], place: usize) -> bool
    ensures { result ≡ differs_at closings.now place }
{
    match closing_at(closings, place) {
        Some(closing) => differs(&closing),
        None => false,
    }
}
