//! How much of a message a text shows.
ghost use Rattle.std.specs.Prelude.{◌≡◌};
ghost use Rattle.zvt_text.specs.TextOptions.{plain_text, safe_text};

/// How much of a message a text shows. No text shows a password, or the content of a field that the BMP table hides.
#[derive(Clone, Copy, Debug, PartialEq, Eq)]
pub struct TextOptions {
    /// Whether the contents of objects with card data, and the data of messages outside the payment profile, are hidden
    /// too.
    pub safe: bool,
    /// Whether words say what codes mean, and what commands, card types and tags are called.
    pub explained: bool,
}

impl TextOptions {
    /// Returns the options for a text that hides only what every text hides.
    pub fn plain() -> TextOptions
        ensures { result ≡ plain_text }
    {
        TextOptions {
            safe: false,
            explained: false,
        }
    }

    /// Returns the options for a safe text.
    pub fn safe() -> TextOptions
        ensures { result ≡ safe_text }
    {
        TextOptions {
            safe: true,
            explained: false,
        }
    }
}
