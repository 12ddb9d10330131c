//! How a page marks what became of an order.
ghost use Rattle.std.specs.Prelude.{◌≡◌};
ghost use Rattle.zvt_report.specs.Tones.{doubt_tone, entry_tone, outcome_tone, payment_tone};

use zvt_till::{Doubt, Entry, Outcome};

/// What an order means for the money.
#[derive(Clone, Copy)]
pub(crate) enum Tone {
    /// It was done, and stands.
    Done,
    /// A person should look at it.
    Open,
    /// It has no effect: it was not done, or it was taken back.
    Void,
}

impl Tone {
    ghost use Rattle.std.specs.Prelude.{◌≡◌};
    ghost use Rattle.zvt_report.specs.Tones.{row_class, tone_class};

    /// Returns the class of the words that say what became of the order.
    pub(crate) fn class(self) -> &'static [u8]
        ensures { result.now ≡ tone_class self }
    {
        match self {
            Tone::Done => b"dot c-ok",
            Tone::Open => b"dot c-act",
            Tone::Void => b"dot c-soft",
        }
    }

    /// Returns the class of the order's row. Most rows have none.
    pub(crate) fn row_class(self) -> &'static [u8]
        ensures { result.now ≡ row_class self }
    {
        match self {
            Tone::Done | Tone::Open => b"",
            Tone::Void => b"gone",
        }
    }
}

/// Returns the tone of an outcome.
pub(crate) fn outcome_tone(outcome: &Outcome) -> Tone
    ensures { result ≡ outcome_tone outcome.now }
{
    match outcome {
        Outcome::Declined(_) | Outcome::Refused(_) | Outcome::Aborted(_) => Tone::Void,
        Outcome::Unclear(_) => Tone::Open,
        Outcome::Registered | Outcome::Paid { .. } | Outcome::Reversed | Outcome::DayClosed => {
            Tone::Done
        }
    }
}

/// Returns the tone of a payment that stands.
fn doubt_tone(doubt: &Doubt) -> Tone
    ensures { result ≡ doubt_tone doubt.now }
{
    match doubt {
        Doubt::No => Tone::Done,
        Doubt::Unclear(_) | Doubt::TakenBack => Tone::Open,
    }
}

/// Returns the tone of a payment that was booked.
fn entry_tone(reversed: bool, doubt: &Doubt) -> Tone
    ensures { result ≡ entry_tone reversed doubt.now }
{
    if reversed {
        Tone::Void
    } else {
        doubt_tone(doubt)
    }
}

/// Returns the tone of a payment, as its entry says if it was booked.
pub(crate) fn payment_tone(entry: &Option<Entry>, outcome: &Outcome) -> Tone
    ensures { result ≡ payment_tone entry.now outcome.now }
{
    match entry {
        Some(entry) => entry_tone(entry.reversed, &entry.doubt),
        None => outcome_tone(outcome),
    }
}
