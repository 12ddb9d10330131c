//! A text that exists only in contracts.
ghost use Rattle.std.specs.Prelude.{◌≡◌, ℕ, List, [], ◌++◌};
ghost use Rattle.std.specs.Borrow.{ftrue};

use std::marker::Model;

/// A text that exists only in contracts: it takes no memory.
#[derive(Drop)]
pub struct GhostText {
    pub ghost text: { List ℕ },
}

impl Model for GhostText {
    ghost also_owns = { λ _. ftrue };
}

impl GhostText {
    /// Creates an empty text.
    pub(crate) fn empty() -> GhostText
        ensures { result.text ≡ [] }
    {
        GhostText {}
    }

    /// Returns the text with these bytes behind it.
    pub(crate) fn with(&self, _bytes: &[u8]) -> GhostText
        ensures { result.text ≡ self.now.text ++ _bytes.now }
    {
        GhostText {}
    }
}
