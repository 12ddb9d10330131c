//! The control bytes that begin a message.
//!
//! `then` is `#[inline(always)]`, as all of a step of the judge is.

ghost use Rattle.std.specs.Prelude.{◌≡◌, ◌++◌, ◌∷◌, [], ℕ, List};
ghost use Rattle.zvt_stream.specs.Head.{head_of};

/// The control bytes of a message, as far as they have come (PA00P015, general command structure).
#[derive(Clone, Copy, Debug, PartialEq, Eq)]
pub enum Head {
    Empty,
    One(u8),
    Two(u8, u8),
}

impl Head {
    /// Returns the control bytes of a message that begins with these bytes.
    pub fn of(bytes: &[u8]) -> Head
        ensures { result ≡ head_of bytes.now }
    {
        Head::Empty.before(bytes)
    }

    /// Returns the control bytes after one more byte of the message.
    #[inline(always)]
    pub fn then(self, byte: u8) -> Head
        ensures { (bytes : List ℕ) → self ≡ head_of bytes → result ≡ head_of (bytes ++ byte ∷ []) }
    {
        match self {
            Head::Empty => Head::One(byte),
            Head::One(first) => Head::Two(first, byte),
            Head::Two(_, _) => self,
        }
    }

    /// Returns the control bytes of the message after these further bytes.
    pub fn before(self, bytes: &[u8]) -> Head
        ensures { (held : List ℕ) → self ≡ head_of held → result ≡ head_of (held ++ bytes.now) }
    {
        match bytes {
            [] => self,
            [first] => self.then(*first),
            [first, second, ..] => self.then(*first).then(*second),
        }
    }
}
