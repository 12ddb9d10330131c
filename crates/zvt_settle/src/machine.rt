//! A till that settles, as a machine that receives and answers messages.
ghost use Rattle.std.specs.Prelude.{◌≡◌};
ghost use Rattle.zvt_settle.specs.OnLine.{settling_rests};

use crate::settling::SettlingTill;
use std::alloc::{AllocError, Global};
use zvt_apdu::{ApduView, MAX_BRIEF_LEN};
use zvt_stream::{Answers, Machine};
use zvt_till::heard_view;

impl SettlingTill {
    /// Returns whether neither an order nor an ask is running.
    fn is_resting(&self) -> bool
        ensures { result ≡ settling_rests self.now }
    {
        self.till().running().is_none() && !self.is_asking()
    }
}

/// It is at rest while neither an order nor an ask is running. It never runs out of memory.
impl Machine for SettlingTill {
    ghost use Rattle.std.specs.Prelude.{false};
    ghost use Rattle.zvt_settle.specs.OnLine.{settling_hears, settling_loses, settling_malforms, settling_rests};

    ghost hears = { settling_hears };

    ghost loses = { settling_loses };

    ghost malforms = { settling_malforms };

    ghost is_resting = { settling_rests };

    ghost wants_memory = { false };

    fn hear(&mut self, _alloc: Global, apdu: &ApduView<'_>) -> Result<Answers, AllocError> {
        let answer = SettlingTill::hear(self, heard_view(apdu)).send;
        let mut answers = Answers::new();
        if let Some(outgoing) = answer {
            let mut buffer = [0; MAX_BRIEF_LEN];
            let size = outgoing.put(&mut buffer);
            answers.add(&buffer[..size]);
        }
        Ok(answers)
    }

    fn resting(&self) -> bool {
        self.is_resting()
    }

    fn lost(&mut self) {
        let _ = SettlingTill::lost(self);
    }

    fn malformed(&mut self) {
        let _ = SettlingTill::malformed(self);
    }
}
