//! A counter that exists only in contracts: it has no limit and takes no memory.
ghost use Rattle.std.specs.Prelude.{◌≡◌, ℕ, ◌+◌};
ghost use Rattle.std.specs.Borrow.{ftrue};

use std::marker::Model;

/// How often something happened. It exists only in contracts.
#[derive(Drop)]
pub struct GhostCount {
    ghost count: { ℕ },
}

impl Model for GhostCount {
    ghost also_owns = { λ _. ftrue };
}

impl GhostCount {
    /// Creates a counter at zero.
    pub fn zero() -> GhostCount
        ensures { result.count ≡ 0 }
    {
        GhostCount {}
    }

    /// Returns the count after one more event.
    pub fn next(&self) -> GhostCount
        ensures { result.count ≡ self.now.count + 1 }
    {
        GhostCount {}
    }
}
