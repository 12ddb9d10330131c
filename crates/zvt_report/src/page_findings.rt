//! Writes the findings about a trace to a page.
ghost use Rattle.std.specs.Prelude.{◌≡◌, ◌++◌, OnOk, codes};
ghost use Rattle.std.specs.Fmt.{decimal};
ghost use Rattle.zvt_page.specs.Html.{render};
ghost use Rattle.zvt_report.specs.FindingTexts as texts;
ghost use Rattle.zvt_report.specs.PageEvents.{lines_at};
ghost use Rattle.zvt_report.specs.PageFindings.{finding_item, finding_items, line_part, sentences_part};

use crate::currencies::Decimals;
use crate::finding_texts::{finding_advice, finding_text, finding_title};
use crate::findings::Finding;
use crate::page_events::{has_line, link_start};
use crate::page_weights::{weight_class, weight_word};
use std::alloc::AllocError;
use zvt_page::{Element, end, escaped, leaf, start};
use zvt_text::Text;

/// Puts the words for a line in place of the note.
fn line_words(note: &mut Text, line: u64) -> Result<(), AllocError>
    ensures { OnOk result (note.new ≡ codes "line " ++ decimal line) }
{
    note.clear();
    note.word(b"line ")?;
    note.number(line)
}

/// Writes the number of a line, with a link if the line is shown.
#[tactic(auto, unfolding(crate::specs::PageEvents::line_link, crate::specs::PageEvents::lines_at))]
fn line_at(page: &mut Text, note: &mut Text, shown: &[u64], line: u64) -> Result<(), AllocError>
    ensures { OnOk result (page.new ≡ page.old ++ render (lines_at shown.now line (codes "line " ++ decimal line))) }
{
    if has_line(shown, line) {
        link_start(page, note, line)?;
        line_words(note, line)?;
        escaped(page, note.bytes())?;
        return end(page, Element::A);
    }
    line_words(note, line)?;
    leaf(page, Element::Span, b"at", note.bytes())
}

/// Writes the line of a finding, if it has one.
fn line_part(
    page: &mut Text,
    note: &mut Text,
    shown: &[u64],
    line: Option<u64>,
) -> Result<(), AllocError>
    ensures { OnOk result (page.new ≡ page.old ++ render (line_part shown.now line)) }
{
    match line {
        Some(line) => line_at(page, note, shown, line),
        None => Ok(()),
    }
}

/// Writes what was found and what to do about it.
#[tactic(auto, unfolding(crate::specs::PageFindings::sentences_part))]
fn sentences_part(
    page: &mut Text,
    note: &mut Text,
    decimals: Decimals,
    finding: &Finding,
) -> Result<(), AllocError>
    ensures { OnOk result (page.new ≡ page.old ++ render (sentences_part decimals finding.now)) }
{
    note.clear();
    finding_text(note, decimals, finding)?;
    leaf(page, Element::P, b"why", note.bytes())?;
    note.clear();
    finding_advice(note, finding)?;
    leaf(page, Element::P, b"do", note.bytes())
}

/// Writes a finding.
#[tactic(auto, unfolding(crate::specs::PageFindings::finding_item))]
fn finding_item(
    page: &mut Text,
    note: &mut Text,
    shown: &[u64],
    decimals: Decimals,
    finding: &Finding,
) -> Result<(), AllocError>
    ensures { OnOk result (page.new ≡ page.old ++ render (finding_item shown.now decimals finding.now)) }
{
    let weight = finding.weight();
    start(page, Element::Li, weight_class(weight), None)?;
    leaf(page, Element::Span, b"sev", weight_word(weight))?;
    note.clear();
    finding_title(note, finding)?;
    leaf(page, Element::H3, b"", note.bytes())?;
    line_part(page, note, shown, finding.line())?;
    sentences_part(page, note, decimals, finding)?;
    end(page, Element::Li)
}

/// Writes findings, with links to the lines that the dialogue shows. The sentences are put together in `note`, whose
/// own text is lost.
pub(crate) fn finding_items(
    page: &mut Text,
    note: &mut Text,
    shown: &[u64],
    decimals: Decimals,
    findings: &[Finding],
) -> Result<(), AllocError>
    ensures { OnOk result (page.new ≡ page.old ++ render (finding_items shown.now decimals findings.now)) }
{
    let mut rest = findings;
    'findings: while let [finding, later @ ..] = rest {
        finding_item(page, note, shown, decimals, finding)?;
        rest = later;
    }
    Ok(())
}
