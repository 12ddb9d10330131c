//! Writes the findings about a trace as text.
ghost use Rattle.std.specs.Prelude.{◌≡◌, ◌++◌, ◌≤◌, ◌^◌, OnOk};
ghost use Rattle.zvt_report.specs.FindingList.{finding_head, finding_lines, findings_text, is_nothing};
ghost use Rattle.zvt_report.specs.FindingList.{line_part, looks_text};

use crate::cases::Look;
use crate::closings::Closing;
use crate::columns::right;
use crate::currencies::Decimals;
use crate::finding_texts::{finding_advice, finding_text, finding_title};
use crate::findings::Finding;
use crate::look_list::{account_lines, advice_lines, listed_looks, weight};
use crate::rows::{OrderMessage, OrderRow};
use std::alloc::AllocError;
use zvt_text::Text;
use zvt_till::Entry;

/// Writes the line of a finding, if it has one, and the end of the line.
fn line_part(text: &mut Text, line: Option<u64>) -> Result<(), AllocError>
    ensures { OnOk result (text.new ≡ text.old ++ line_part line) }
{
    match line {
        Some(line) => {
            text.word(b" (line ")?;
            text.number(line)?;
            text.word(b")\n")
        }
        None => text.word(b"\n"),
    }
}

/// Writes an empty line and the line with the title.
#[tactic(auto, unfolding(crate::specs::FindingList::finding_head))]
fn finding_head(text: &mut Text, number: u128, finding: &Finding) -> Result<(), AllocError>
    ensures { OnOk result (text.new ≡ text.old ++ finding_head number finding.now) }
{
    text.push(b'\n')?;
    right(text, 2, b"", number)?;
    text.word(b". ")?;
    weight(text, finding.weight())?;
    finding_title(text, finding)?;
    line_part(text, finding.line())
}

/// Writes a finding under this number. The sentences are put together in `note`, whose own text is lost.
#[tactic(auto, unfolding(crate::specs::FindingList::finding_lines))]
fn finding_lines(
    text: &mut Text,
    note: &mut Text,
    decimals: Decimals,
    number: u128,
    finding: &Finding,
) -> Result<(), AllocError>
    ensures { OnOk result (text.new ≡ text.old ++ finding_lines decimals number finding.now) }
{
    finding_head(text, number, finding)?;
    note.clear();
    finding_text(note, decimals, finding)?;
    account_lines(text, note.bytes())?;
    note.clear();
    finding_advice(note, finding)?;
    advice_lines(text, note.bytes())
}

/// Writes findings. Their numbers follow `before`.
pub(crate) fn findings_text(
    text: &mut Text,
    note: &mut Text,
    decimals: Decimals,
    before: u128,
    findings: &[Finding],
) -> Result<(), AllocError>
    requires { before ≤ 2 ^ 64 }
    ensures { OnOk result (text.new ≡ text.old ++ findings_text decimals before findings.now) }
{
    let mut listed = before;
    let mut rest = findings;
    'findings: while let [finding, later @ ..] = rest {
        listed += 1;
        finding_lines(text, note, decimals, listed, finding)?;
        rest = later;
    }
    Ok(())
}

/// Whether there is neither an order nor a finding to look at.
pub(crate) fn is_nothing(looks: &[Look], findings: &[Finding]) -> bool
    ensures { result ≡ is_nothing looks.now findings.now }
{
    match (looks, findings) {
        ([], []) => true,
        _ => false,
    }
}

/// Writes the looks, the urgent ones first, and then the findings. The sentences are put together in `note`, whose own
/// text is lost.
pub(crate) fn looks_text(
    text: &mut Text,
    note: &mut Text,
    decimals: Decimals,
    book: &[Entry],
    closings: &[Option<Closing>],
    messages: &[OrderMessage],
    rows: &[OrderRow],
    looks: &[Look],
    findings: &[Finding],
) -> Result<(), AllocError>
    ensures { OnOk result (text.new ≡ text.old
        ++ looks_text decimals book.now closings.now messages.now rows.now looks.now findings.now) }
{
    if is_nothing(looks, findings) {
        return text.word(b"Look at these: nothing\n");
    }
    listed_looks(text, note, decimals, book, closings, messages, rows, looks)?;
    findings_text(text, note, decimals, looks.len() as u128, findings)
}
