//! The trace numbers in use.
ghost use Rattle.std.specs.Prelude.{◌≡◌, ◌||◌, ℕ, true, false, nat_eq, OnOk, OnErr};

use std::alloc::{AllocError, Global};
use std::marker::Model;
use zvt_bcd::Trace;

/// The number of words with a bit for each number from 0 to 999,999.
const WORDS: usize = 15_625;

/// The set of trace numbers in use. It allocates its 125,000 bytes at once, so looking a number up and inserting one
/// take constant time.
#[derive(Drop)]
pub struct UsedTraces {
    /// A number is bit `number % 64` of word `number / 64`. Without capacity there are no words.
    words: Vec<u64>,
}

impl Model for UsedTraces {
    ghost use Rattle.std.specs.Prelude.{ℕ, List};

    ghost Value = { List ℕ };

    ghost view = { λ used. used.words.items };
}

impl UsedTraces {
    ghost use Rattle.zvt_till.specs.UsedTraces.{has_capacity, has};

    /// Creates an empty set without capacity.
    pub fn new(alloc: Global) -> UsedTraces
        ensures { (number : ℕ) → has result number ≡ false }
    {
        UsedTraces {
            words: Vec::new(alloc),
        }
    }

    /// Returns whether any number can be inserted without allocating.
    pub fn has_capacity(&self) -> bool
        ensures { result ≡ has_capacity self.now }
    {
        WORDS <= self.words.len()
    }

    /// Reserves memory so that any number can be inserted without allocating.
    pub fn reserve_for(&mut self) -> Result<(), AllocError>
        ensures room { OnOk result (has_capacity self.new ≡ true) }
        ensures has { OnOk result ((number : ℕ) → has self.new number ≡ has self.old number) }
        ensures full { OnErr result (has_capacity self.old ≡ false) }
        ensures unchanged { OnErr result (self.new ≡ self.old) }
    {
        if self.words.len() < WORDS {
            self.words.resize(WORDS, 0)?;
        }
        Ok(())
    }

    /// Returns whether the number is in use.
    pub fn contains(&self, trace: Trace) -> bool
        ensures { result ≡ has self.now trace }
    {
        let number = trace.get() as usize;
        match self.words.get(number / 64) {
            Some(word) => word >> (number % 64) & 1 == 1,
            None => false,
        }
    }

    /// Inserts the number.
    pub fn insert(&mut self, trace: Trace)
        requires { has_capacity self.old ≡ true }
        ensures room { has_capacity self.new ≡ true }
        ensures has { (number : ℕ) → has self.new number ≡ (nat_eq trace number || has self.old number) }
    {
        let number = trace.get() as usize;
        self.words[number / 64] |= 1 << (number % 64);
    }
}
