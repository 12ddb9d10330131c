//! The record of the calls on a file. Only contracts see it: it takes no memory.
ghost use Rattle.std.specs.Prelude.{◌≡◌, List, ℕ, [], ◌∷◌};
ghost use Rattle.std.specs.Borrow.{ftrue};
ghost use Rattle.zvt_journal.specs.Calls.{Event};

use crate::call::Call;
use std::marker::Model;

/// The content of a file when it was opened, and the calls made since with their results, newest first.
#[derive(Drop)]
pub struct GhostCalls {
    pub ghost start: { List ℕ },
    pub ghost made: { List Event },
}

impl Model for GhostCalls {
    ghost also_owns = { λ _. ftrue };
}

impl GhostCalls {
    /// Returns the record of no calls on a file with these bytes.
    pub fn none(_bytes: &[u8]) -> GhostCalls
        ensures { (result.start ≡ _bytes.now) × (result.made ≡ []) }
    {
        GhostCalls {}
    }

    /// Returns the record with one more call, its bytes, and whether it returned `Ok`.
    pub fn with(&self, _call: &Call, _bytes: &[u8], _done: bool) -> GhostCalls
        ensures { (result.start ≡ self.now.start) × (result.made ≡ (_call.now, _bytes.now, _done) ∷ self.now.made) }
    {
        GhostCalls {}
    }
}
