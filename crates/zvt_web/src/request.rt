//! Requests.

use crate::words::same_letters;

/// A whole request, as far as the guards and routes read it.
///
/// The texts are the bytes that the client sent, unchecked. A header that was not sent is `None`.
#[derive(Debug, Drop)]
pub struct Request {
    /// Such as `POST`. Upper case matters.
    pub method: Vec<u8>,
    /// The target up to its first `?`.
    pub path: Vec<u8>,
    /// The header `Idempotency-Key`.
    pub key: Option<Vec<u8>>,
    pub authorization: Option<Vec<u8>>,
    pub host: Option<Vec<u8>>,
    pub origin: Option<Vec<u8>>,
    pub prefer: Option<Vec<u8>>,
    /// The header `Last-Event-ID`.
    pub last_event: Option<Vec<u8>>,
    pub body: Vec<u8>,
}

impl Request {
    ghost use Rattle.std.specs.Prelude.{◌≡◌};
    ghost use Rattle.zvt_web.specs.Request.{prefers_async, request_of};

    /// Returns whether the client wants an answer at once, while its order runs: `Prefer: respond-async`.
    pub fn prefers_async(&self) -> bool
        ensures { result ≡ prefers_async (request_of self.now) }
    {
        match &self.prefer {
            Some(preference) => same_letters(preference, b"respond-async"),
            None => false,
        }
    }
}
