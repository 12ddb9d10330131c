//! Laws of what a till hands out. Each is stated as the contract of an empty function.
ghost use Rattle.zvt_c.specs.Cards.{FewDigitsShow};

/// A masked number shows at most ten digits.
pub fn few_digits_show()
    ensures { FewDigitsShow }
{}
