//! The two sides of a line.
use std::fmt;

/// The side that sends.
#[derive(Clone, Copy, Debug, PartialEq, Eq)]
pub enum Direction {
    FromTill,
    FromTerminal,
}

impl Direction {
    ghost use Rattle.std.specs.Prelude.{◌≡◌};
    ghost use Rattle.zvt_trace.specs.Lines.{direction_text};
    ghost use Rattle.zvt_trace.specs.Emitting.{other};

    /// Returns the mark of this side in a trace.
    pub fn sign(self) -> &'static str
        ensures { result.now ≡ direction_text self }
    {
        match self {
            Direction::FromTill => ">",
            Direction::FromTerminal => "<",
        }
    }

    /// Returns the other side.
    pub(crate) fn other(self) -> Direction
        ensures { result ≡ other self }
    {
        match self {
            Direction::FromTill => Direction::FromTerminal,
            Direction::FromTerminal => Direction::FromTill,
        }
    }
}

impl fmt::Display for Direction {
    ghost use Rattle.std.specs.Prelude.{Some};
    ghost use Rattle.zvt_trace.specs.Lines.{direction_text};

    ghost output = { λ from. Some (direction_text from) };

    fn fmt<W: fmt::Write>(&self, f: &mut fmt::Formatter<W>) -> fmt::Result {
        f.write_str(self.sign())
    }
}
