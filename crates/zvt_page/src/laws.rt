//! Laws of every page, each stated as the contract of an empty function.
ghost use Rattle.zvt_page.specs.Laws.{EscapedIsHarmless, PagesAreReadBack};

/// Escaped text has none of `< > " '`, and no control character.
pub fn escaped_is_harmless()
    ensures { EscapedIsHarmless }
{}

/// Two pages that are written alike have the same elements, attributes and characters at the same places. So there is
/// one way to read a page, and no text in it begins or ends an element.
pub fn pages_are_read_back()
    ensures { PagesAreReadBack }
{}
