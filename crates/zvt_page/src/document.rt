//! Writes a page around its body.
ghost use Rattle.std.specs.Prelude.{◌≡◌, ◌++◌, OnOk};
ghost use Rattle.zvt_page.specs.Document.{document_end, document_start};

use crate::escapes::escaped;
use crate::style::STYLE;
use std::alloc::AllocError;
use zvt_text::Text;

/// What comes before the style sheet. The policy lets a browser load nothing and run nothing.
const BEFORE_STYLE: &str = "<!DOCTYPE html>
<html lang=\"en\"><head><meta charset=\"utf-8\">
<meta name=\"viewport\" content=\"width=device-width,initial-scale=1\">
<meta http-equiv=\"Content-Security-Policy\" content=\"default-src 'none'; \
style-src 'unsafe-inline'; base-uri 'none'; form-action 'none'\">
<meta name=\"referrer\" content=\"no-referrer\">
<style>";

/// What comes between the style sheet and the title.
const BEFORE_TITLE: &str = "</style>
<title>";

/// What comes between the title and the body.
const BEFORE_BODY: &str = "</title></head>
<body>
";

/// What comes after the body.
const AFTER_BODY: &str = "
</body></html>
";

/// Writes a page with this title up to its body: the style sheet stands in it, and it refers to no other file.
#[tactic(auto, unfolding(crate::specs::Document::document_start))]
pub fn document_start(text: &mut Text, title: &[u8]) -> Result<(), AllocError>
    ensures { OnOk result (text.new ≡ text.old ++ document_start title.now) }
{
    text.word(BEFORE_STYLE.as_bytes())?;
    text.word(STYLE.as_bytes())?;
    text.word(BEFORE_TITLE.as_bytes())?;
    escaped(text, title)?;
    text.word(BEFORE_BODY.as_bytes())
}

/// Writes the end of a page, after its body.
#[tactic(auto, unfolding(crate::specs::Document::document_end))]
pub fn document_end(text: &mut Text) -> Result<(), AllocError>
    ensures { OnOk result (text.new ≡ text.old ++ document_end) }
{
    text.word(AFTER_BODY.as_bytes())
}
