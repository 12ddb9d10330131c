//! Writes the objects of the findings about a trace.
ghost use Rattle.std.specs.Prelude.{◌≡◌, ◌++◌, false, true, OnOk};
ghost use Rattle.serde_json.specs.Data.{string};
ghost use Rattle.serde_json.specs.Written.{members_text};
ghost use Rattle.zvt_json.specs.Strings.{line_text};
ghost use Rattle.zvt_report.specs.FindingObjects.{amount_of, control_member, finding_members, finding_told};
ghost use Rattle.zvt_report.specs.FindingObjects.{finding_value, findings_json, last_members, line_member, trace_of};
ghost use Rattle.zvt_report.specs.FindingObjects.{weight_member};
ghost use Rattle.zvt_report.specs.FindingTexts as texts;
ghost use Rattle.zvt_report.specs.LookObjects.{more_of, told, told_text};
ghost use Rattle.zvt_report.specs.declared.members.Name.TheVariants as name;

use crate::currencies::Decimals;
use crate::finding_texts::{finding_advice, finding_text, finding_title};
use crate::findings::Finding;
use crate::look_objects::{more, sentence};
use crate::members::{Member, Name, Value, Word};
use crate::parts::{maybe_amount, maybe_trace, said_as};
use std::alloc::AllocError;
use zvt_bcd::{Amount, Trace};
use zvt_text::Text;
use zvt_trace::Head;

/// Returns the member of the control bytes of a message, if both have come.
fn control_member(head: Head) -> Option<Member>
    ensures { result ≡ control_member head }
{
    match head {
        Head::Two(high, low) => said_as(Name::Control, Value::Bytes([high, low])),
        Head::Empty | Head::One(_) => None,
    }
}

/// Returns the amount that a finding states, if it states one.
fn amount_of(finding: &Finding) -> Option<Amount>
    ensures { result ≡ amount_of finding.now }
{
    match finding {
        Finding::ApprovalUnreadable { amount, .. } => *amount,
        _ => None,
    }
}

/// Returns the trace number that a finding states, if it states one.
fn trace_of(finding: &Finding) -> Option<Trace>
    ensures { result ≡ trace_of finding.now }
{
    match finding {
        Finding::ApprovalUnreadable { trace, .. } => *trace,
        _ => None,
    }
}

/// Returns the member of the line of a finding, if it has one.
fn line_member(line: Option<u64>) -> Option<Member>
    ensures { result ≡ line_member line }
{
    let line = line?;
    said_as(Name::Lines, Value::Lines(line, line))
}

/// Returns the member of the weight of a finding.
fn weight_member(finding: &Finding) -> Option<Member>
    ensures { result ≡ weight_member finding.now }
{
    said_as(Name::Weight, Value::Word(Word::Weight(finding.weight())))
}

/// Writes what to do about a finding.
fn advice_member(text: &mut Text, note: &mut Text, finding: &Finding) -> Result<(), AllocError>
    ensures { OnOk result (text.new ≡ text.old
        ++ told_text false name.Advice (string (texts.finding_advice finding.now))) }
{
    note.clear();
    finding_advice(note, finding)?;
    sentence(text, false, Name::Advice, note.bytes())
}

/// Writes what was found.
fn text_member(
    text: &mut Text,
    note: &mut Text,
    decimals: Decimals,
    finding: &Finding,
) -> Result<(), AllocError>
    ensures { OnOk result (text.new ≡ text.old
        ++ told_text true name.Text (string (texts.finding_text decimals finding.now))) }
{
    note.clear();
    finding_text(note, decimals, finding)?;
    sentence(text, true, Name::Text, note.bytes())
}

/// Writes the title of a finding.
fn title_member(text: &mut Text, note: &mut Text, finding: &Finding) -> Result<(), AllocError>
    ensures { OnOk result (text.new ≡ text.old
        ++ told_text true name.Title (string (texts.finding_title finding.now))) }
{
    note.clear();
    finding_title(note, finding)?;
    sentence(text, true, Name::Title, note.bytes())
}

/// Writes the members between the sentences.
fn middle(text: &mut Text, finding: &Finding) -> Result<(), AllocError>
    ensures { OnOk result (text.new ≡ text.old ++ more_of (finding_members finding.now)) }
{
    let members = [
        maybe_amount(Name::Amount, amount_of(finding)),
        said_as(Name::Case, Value::Word(Word::Finding(*finding))),
        control_member(finding.head()),
        line_member(finding.line()),
    ];
    more(text, &members)
}

/// Writes the members after the sentences.
fn last_members(text: &mut Text, finding: &Finding) -> Result<(), AllocError>
    ensures { OnOk result (text.new ≡ text.old ++ more_of (last_members finding.now)) }
{
    let members = [maybe_trace(trace_of(finding)), weight_member(finding)];
    more(text, &members)
}

/// Writes the members of a finding.
fn finding_members(
    text: &mut Text,
    note: &mut Text,
    decimals: Decimals,
    finding: &Finding,
) -> Result<(), AllocError>
    ensures { OnOk result (text.new ≡ text.old
        ++ members_text false (told (finding_told decimals finding.now))) }
{
    advice_member(text, note, finding)?;
    middle(text, finding)?;
    text_member(text, note, decimals, finding)?;
    title_member(text, note, finding)?;
    last_members(text, finding)?;
    text.push(b'}')
}

/// Writes the object of a finding.
fn write_finding(
    text: &mut Text,
    note: &mut Text,
    decimals: Decimals,
    finding: &Finding,
) -> Result<(), AllocError>
    ensures { OnOk result (text.new ≡ text.old ++ line_text (finding_value decimals finding.now)) }
{
    text.word(b"{\"look\":{")?;
    finding_members(text, note, decimals, finding)?;
    text.word(b"}\n")
}

/// Writes one object per finding. The sentences are put together in `note`, whose own text is lost.
pub(crate) fn finding_rows(
    text: &mut Text,
    note: &mut Text,
    decimals: Decimals,
    findings: &[Finding],
) -> Result<(), AllocError>
    ensures { OnOk result (text.new ≡ text.old ++ findings_json decimals findings.now) }
{
    for finding in findings {
        write_finding(text, note, decimals, finding)?;
    }
    Ok(())
}
