//! The terminal as a machine on a line.
ghost use Rattle.std.specs.Prelude.{◌≡◌, true, false};

use crate::terminal::{Input, Terminal};
use crate::turns::Verdict;
use std::alloc::{AllocError, Global};
use zvt_apdu::ApduView;
use zvt_stream::{Answers, Machine};

/// A terminal, with its decision on the next authorisations. It serves its line for as long as the line lasts.
#[derive(Drop)]
pub struct Served {
    pub terminal: Terminal,
    pub verdict: Verdict,
}

impl Served {
    /// Sets the decision on the next authorisations.
    pub fn decide(&mut self, verdict: Verdict)
        ensures terminal { self.new.terminal ≡ self.old.terminal }
        ensures verdict { self.new.verdict ≡ verdict }
    {
        self.verdict = verdict;
    }
}

impl Machine for Served {
    ghost use Rattle.zvt_term.specs.Served.{served_hears, served_loses};

    ghost hears = { served_hears };

    ghost loses = { served_loses };

    ghost malforms = { served_loses };

    ghost is_resting = { λ served. false };

    ghost wants_memory = { true };

    fn hear(&mut self, _alloc: Global, apdu: &ApduView<'_>) -> Result<Answers, AllocError> {
        self.terminal.step(Input::View(apdu), self.verdict)
    }

    fn resting(&self) -> bool {
        false
    }

    fn lost(&mut self) {
        let _ = self.terminal.step(Input::Lost, self.verdict);
    }

    fn malformed(&mut self) {
        let _ = self.terminal.step(Input::Malformed, self.verdict);
    }
}
