//! Writes slips as JSON.
ghost use Rattle.std.specs.Prelude.{◌≡◌, ◌++◌, false, OnOk};
ghost use Rattle.serde_json.specs.Written.{comma_if, compact_text, items_text};
ghost use Rattle.zvt_json.specs.Strings.{text_value};
ghost use Rattle.zvt_report.specs.SlipObjects.{kind_words, order_words, place_words, slashed, slashed_byte};
ghost use Rattle.zvt_report.specs.SlipObjects.{slip_line, text_items};
ghost use Rattle.zvt_report.specs.Slips.{slip_at};

use crate::members::write_comma;
use crate::slip_kinds::{SlipKind, SlipPlace};
use std::alloc::AllocError;
use zvt_text::{Text, hexadecimal, is_plain};

/// Writes a byte of a text, as it is or in hexadecimal.
fn slashed_byte(text: &mut Text, byte: u8) -> Result<(), AllocError>
    ensures { OnOk result (text.new ≡ text.old ++ slashed_byte byte) }
{
    if is_plain(byte) {
        return text.push(byte);
    }
    text.word(b"\\\\x")?;
    hexadecimal(text, &[byte])
}

/// Writes the bytes of a text.
fn slashed(text: &mut Text, bytes: &[u8]) -> Result<(), AllocError>
    ensures { OnOk result (text.new ≡ text.old ++ slashed bytes.now) }
{
    for byte in bytes {
        slashed_byte(text, *byte)?;
    }
    Ok(())
}

/// Writes a text between quotation marks.
fn quoted_text(text: &mut Text, bytes: &[u8]) -> Result<(), AllocError>
    ensures { OnOk result (text.new ≡ text.old ++ compact_text (text_value bytes.now)) }
{
    text.push(b'"')?;
    slashed(text, bytes)?;
    text.push(b'"')
}

/// Writes a text, with a comma before it if there is an earlier one.
fn write_text(text: &mut Text, later: bool, line: &Text) -> Result<(), AllocError>
    ensures { OnOk result (text.new ≡ text.old ++ (comma_if later ++ compact_text (text_value line.now))) }
{
    write_comma(text, later)?;
    quoted_text(text, line.bytes())
}

/// Writes texts, and the end of the array.
fn write_texts(text: &mut Text, texts: &[Text]) -> Result<(), AllocError>
    ensures { OnOk result (text.new ≡ text.old ++ items_text false (text_items texts.now)) }
{
    let mut later = false;
    let mut rest = texts;
    'texts: while let [line, after @ ..] = rest {
        write_text(text, later, line)?;
        later = true;
        rest = after;
    }
    text.push(b']')
}

/// Writes the number of the order, if there is one.
fn order_words(text: &mut Text, order: usize) -> Result<(), AllocError>
    ensures { OnOk result (text.new ≡ text.old ++ order_words order) }
{
    if order == 0 {
        return Ok(());
    }
    text.word(b"\"order\":")?;
    text.number(order)?;
    text.word(b",")
}

/// Writes what comes before the lines.
#[tactic(auto, unfolding(crate::specs::SlipObjects::kind_words))]
fn kind_words(text: &mut Text, kind: SlipKind) -> Result<(), AllocError>
    ensures { OnOk result (text.new ≡ text.old ++ kind_words kind) }
{
    text.word(b"{\"slip\":{\"kind\":\"")?;
    text.word(kind.name().as_bytes())?;
    text.word(b"\",\"lines\":[")
}

/// Writes what comes before the texts.
fn place_words(text: &mut Text, place: &SlipPlace) -> Result<(), AllocError>
    ensures { OnOk result (text.new ≡ text.old
        ++ place_words place.now.kind place.now.first place.now.last place.now.order) }
{
    kind_words(text, place.kind)?;
    text.number(place.first)?;
    text.word(b",")?;
    text.number(place.last)?;
    text.word(b"],")?;
    order_words(text, place.order)?;
    text.word(b"\"texts\":[")
}

/// Writes the line of a slip with these texts.
pub(crate) fn slip_line(
    text: &mut Text,
    place: &SlipPlace,
    texts: &[Text],
) -> Result<(), AllocError>
    ensures { OnOk result (text.new ≡ text.old ++ slip_line (slip_at place.now texts.now)) }
{
    place_words(text, place)?;
    write_texts(text, texts)?;
    text.word(b"}}\n")
}
