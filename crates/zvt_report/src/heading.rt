//! Writes the first line of a report: the day, its hours, and the terminal.
ghost use Rattle.std.specs.Prelude.{◌≡◌, ◌++◌, OnOk};
ghost use Rattle.zvt_report.specs.Heading.{has_head, head_by, head_part, head_words, terminal_alone, terminal_part};

use crate::times::{Times, span_words};
use std::alloc::AllocError;
use zvt_text::{Text, hexadecimal};

/// Whether a trace has times or names its terminal.
pub(crate) fn has_head(times: &Times, terminal: Option<[u8; 4]>) -> bool
    ensures { result ≡ has_head times.now terminal }
{
    times.span.is_some() || terminal.is_some()
}

/// Writes the terminal after other words, if it is named.
fn terminal_part(text: &mut Text, terminal: Option<[u8; 4]>) -> Result<(), AllocError>
    ensures { OnOk result (text.new ≡ text.old ++ terminal_part terminal) }
{
    match terminal {
        Some(id) => {
            text.word(b", terminal ")?;
            hexadecimal(text, id.as_slice())
        }
        None => Ok(()),
    }
}

/// Writes the terminal, if it is named.
fn terminal_alone(text: &mut Text, terminal: Option<[u8; 4]>) -> Result<(), AllocError>
    ensures { OnOk result (text.new ≡ text.old ++ terminal_alone terminal) }
{
    match terminal {
        Some(id) => {
            text.word(b"Terminal ")?;
            hexadecimal(text, id.as_slice())
        }
        None => Ok(()),
    }
}

/// Writes the day and the hours of a trace, and its terminal, as far as they are known.
#[tactic(auto, unfolding(crate::specs::Heading::head_words))]
pub(crate) fn head_words(
    text: &mut Text,
    times: &Times,
    terminal: Option<[u8; 4]>,
) -> Result<(), AllocError>
    ensures { OnOk result (text.new ≡ text.old ++ head_words times.now terminal) }
{
    match &times.span {
        Some((from, to)) => {
            span_words(text, times.zone, from, to)?;
            terminal_part(text, terminal)
        }
        None => terminal_alone(text, terminal),
    }
}

/// Writes a line with the day and the hours of a trace and its terminal, and an empty line, if any of them is known.
#[tactic(auto, unfolding(crate::specs::Heading::head_part))]
pub(crate) fn head_part(
    text: &mut Text,
    times: &Times,
    terminal: Option<[u8; 4]>,
) -> Result<(), AllocError>
    ensures { OnOk result (text.new ≡ text.old ++ head_part times.now terminal) }
{
    if !has_head(times, terminal) {
        return Ok(());
    }
    head_words(text, times, terminal)?;
    text.word(b"\n\n")
}
