//! The forms of length that a reader accepts.

ghost use Rattle.std.specs.Prelude.{◌≡◌};
ghost use Rattle.zvt_grammar.specs.Reading.{least};
ghost use Rattle.zvt_grammar.specs.Lengths.{reading_of};

/// The forms of length that a reader accepts.
#[derive(Clone, Copy, Debug, PartialEq, Eq)]
pub enum Lengths {
    /// Only the shortest form of each length.
    Shortest,
    /// Any form that can hold the length.
    Padded,
}

impl Lengths {
    /// Returns the smallest length that a form may hold if the next shorter form ends below `size`.
    #[inline(always)]
    pub fn least(self, size: usize) -> usize
        ensures { result ≡ least (reading_of self) size }
    {
        match self {
            Lengths::Shortest => size,
            Lengths::Padded => 0,
        }
    }
}
