//! What a safe text hides. The table of BMPs lists the fields whose content no text shows, and this module adds the
//! tags of objects with card data. In messages outside the payment profile nothing is known to be harmless, since the
//! data of many commands begins with a password: a safe text has only their size.
ghost use Rattle.std.specs.Prelude.{◌≡◌};
ghost use Rattle.zvt_text.specs.Secrets.{hides_tag, is_secret_tag};

use crate::text_options::TextOptions;

/// Returns whether a text hides the content of objects with this tag.
pub(crate) fn hides_tag(options: TextOptions, tag: &[u8]) -> bool
    ensures { result ≡ hides_tag options tag.now }
{
    options.safe && is_secret_tag(tag)
}

/// Returns whether objects with this tag have card data: the track 2 of a card (57), or its number (5A).
pub fn is_secret_tag(tag: &[u8]) -> bool
    ensures { result ≡ is_secret_tag tag.now }
{
    match tag {
        [tag] => *tag == 0x57 || *tag == 0x5A,
        _ => false,
    }
}
