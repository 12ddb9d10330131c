//! Reasons why a byte is refused.
ghost use Rattle.std.specs.Prelude.{◌≡◌};

use std::fmt;

/// Reason why a byte is refused.
#[derive(Clone, Copy, Debug, PartialEq, Eq)]
pub enum Why {
    /// A length has a longer form than necessary.
    NotShortest,
    /// The item that the byte begins or counts does not fit what encloses it, or leaves a single byte over.
    DoesNotFit,
    /// No form of length begins with this byte.
    LengthForm,
    /// An object would be nested more than six levels deep.
    TooDeep,
    /// A tag would have more than three bytes.
    TagTooLong,
    /// The table of BMPs does not list this one.
    UnknownField,
    /// Half of the byte is not a decimal digit where digits are required.
    NotDigit,
    /// A digit of an LL or LLL length is not F0 to F9.
    LengthDigit,
}

impl Why {
    ghost use Rattle.zvt_grammar.specs.Names.{why_name};

    /// Returns the name of the reason as every output writes it.
    pub fn name(self) -> &'static str
        ensures { result.now ≡ why_name self }
    {
        match self {
            Why::NotShortest => "NotShortest",
            Why::DoesNotFit => "DoesNotFit",
            Why::LengthForm => "LengthForm",
            Why::TooDeep => "TooDeep",
            Why::TagTooLong => "TagTooLong",
            Why::UnknownField => "UnknownField",
            Why::NotDigit => "NotDigit",
            Why::LengthDigit => "LengthDigit",
        }
    }
}

impl fmt::Display for Why {
    ghost use Rattle.std.specs.Prelude.{Some};
    ghost use Rattle.zvt_grammar.specs.Names.{why_name};

    ghost output = { λ why. Some (why_name why) };

    fn fmt<W: fmt::Write>(&self, f: &mut fmt::Formatter<W>) -> fmt::Result {
        f.write_str(self.name())
    }
}
