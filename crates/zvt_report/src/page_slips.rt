//! Writes slips to a page.
ghost use Rattle.std.specs.Prelude.{◌≡◌, ◌++◌, OnOk};
ghost use Rattle.zvt_page.specs.Html.{render};
ghost use Rattle.zvt_report.specs.PageSlips.{codepage_of, paper, paper_line, slip_html, slip_title};
ghost use Rattle.zvt_report.specs.Slips.{slip_at};

use crate::page_parts::from_to;
use crate::slip_kinds::SlipPlace;
use std::alloc::AllocError;
use std::str;
use zvt_page::{Element, end, leaf, start};
use zvt_text::{Codepage, Text, printed_line};

/// Returns the code page of a text: UTF-8 if the text is valid in it, or else code page 437.
fn codepage_of(text: &[u8]) -> Codepage
    ensures { result ≡ codepage_of text.now }
{
    match str::from_utf8(text) {
        Ok(_) => Codepage::Utf8,
        Err(_) => Codepage::Cp437,
    }
}

/// Writes a line of a slip.
#[tactic(auto, unfolding(crate::specs::PageSlips::paper_line))]
fn paper_line(page: &mut Text, note: &mut Text, line: &Text) -> Result<(), AllocError>
    ensures { OnOk result (page.new ≡ page.old ++ render (paper_line line.now)) }
{
    let bytes = line.bytes();
    note.clear();
    printed_line(note, codepage_of(bytes), bytes)?;
    leaf(page, Element::Span, b"", note.bytes())
}

/// Writes the lines of a slip.
fn paper(page: &mut Text, note: &mut Text, texts: &[Text]) -> Result<(), AllocError>
    ensures { OnOk result (page.new ≡ page.old ++ render (paper texts.now)) }
{
    let mut rest = texts;
    'texts: while let [line, later @ ..] = rest {
        paper_line(page, note, line)?;
        rest = later;
    }
    Ok(())
}

/// Writes what a slip is, and where it stands.
fn slip_title(text: &mut Text, place: &SlipPlace) -> Result<(), AllocError>
    ensures { OnOk result (text.new ≡ text.old ++ slip_title place.now.kind place.now.first place.now.last) }
{
    text.word(place.kind.title().as_bytes())?;
    text.word(b" (lines ")?;
    from_to(text, place.first, place.last)?;
    text.word(b")")
}

/// Writes a slip with these texts under its title.
#[tactic(auto, unfolding(crate::specs::PageSlips::slip_html))]
pub(crate) fn slip_html(
    page: &mut Text,
    note: &mut Text,
    place: &SlipPlace,
    texts: &[Text],
) -> Result<(), AllocError>
    ensures { OnOk result (page.new ≡ page.old ++ render (slip_html (slip_at place.now texts.now))) }
{
    note.clear();
    slip_title(note, place)?;
    leaf(page, Element::H3, b"", note.bytes())?;
    start(page, Element::Pre, b"slip", None)?;
    paper(page, note, texts)?;
    end(page, Element::Pre)
}
