//! How urgent an order or a finding is, on a page.
ghost use Rattle.std.specs.Prelude.{◌≡◌};
ghost use Rattle.zvt_report.specs.PageWeights.{weight_class, weight_word};

use crate::cases::Weight;

/// Returns the class of an item of this weight, which gives it a shape and a colour.
pub(crate) fn weight_class(weight: Weight) -> &'static [u8]
    ensures { result.now ≡ weight_class weight }
{
    match weight {
        Weight::Act => b"act",
        Weight::Check => b"check",
        Weight::Note => b"note",
    }
}

/// Returns the word for a weight.
pub(crate) fn weight_word(weight: Weight) -> &'static [u8]
    ensures { result.now ≡ weight_word weight }
{
    match weight {
        Weight::Act => b"Act",
        Weight::Check => b"Check",
        Weight::Note => b"Note",
    }
}
