//! The till that asks: a till that settles alone, or one with a book.
ghost use Rattle.std.specs.Prelude.{◌≡◌, ℕ, List, Result};
ghost use Rattle.zvt_settle.specs.Askers.{IsAsker};
ghost use Rattle.zvt_settle.specs.Inside.{settling_of, till_inside};
ghost use Rattle.zvt_settle.specs.Settling.{Settling};
ghost use Rattle.zvt_till.specs.declared.keeper.Untaken.{Untaken};

use crate::settling::SettlingTill;
use std::alloc::Global;
use zvt_till::{Keeper, Untaken};

/// The till that asks: a till that settles alone, or one with a book that records each event before anything follows
/// from it.
pub trait Asker: Keeper {
    /// What was settled and what is pending, in contracts.
    ghost settling: { Self → Settling };

    /// The ask was accepted with the bytes of this message, or was not accepted.
    ghost asks: { Self → Result (List ℕ) Untaken → Self → Type 0 };

    /// Returns the till that settles.
    fn settling(&self) -> &SettlingTill
        ensures till { till_inside result.now ≡ Self.till self.now }
        ensures settling { settling_of result.now ≡ settling self.now };

    /// Starts an ask and returns the message to send. By then a book contains the ask's record.
    fn ask(&mut self, alloc: Global) -> Result<[u8; 6], Untaken>
        ensures { asks self.old result self.new };

    /// Whatever happens to the one that asks happens to its till, and to what it settles.
    ghost is_asker: { IsAsker asks Self.hears Self.loses Self.malforms Self.is_resting Self.till settling Self.failed };
}

/// A till alone asks by itself.
impl Asker for SettlingTill {
    ghost use Rattle.zvt_settle.specs.Askers.{settling_asks, settling_is_asker};

    ghost settling = { settling_of };

    ghost asks = { settling_asks };

    ghost is_asker = { settling_is_asker };

    fn settling(&self) -> &SettlingTill {
        self
    }

    fn ask(&mut self, _alloc: Global) -> Result<[u8; 6], Untaken> {
        match SettlingTill::ask(self) {
            Ok(bytes) => Ok(bytes),
            Err(why) => Err(Untaken::Order(why)),
        }
    }
}
