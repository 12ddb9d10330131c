//! The JSON of events other than messages.
ghost use Rattle.std.specs.Prelude.{◌≤◌, length};
ghost use Rattle.zvt_text.specs.Writing.{Puts};
ghost use Rattle.zvt_json.specs.Texts.{lost_text, reason_text, refused_text, resumed_text, side_text, stopped_text};
ghost use Rattle.zvt_json.specs.Texts.{truncated_text};

use crate::messages::sender;
use crate::strings::byte;
use zvt_grammar::Why;
use zvt_text::cursor::{Full, decimal, fixed, push, word};
use zvt_trace::{Direction, Refusal};

/// Writes the event of refused bytes.
pub(crate) fn refused(
    buffer: &mut [u8],
    at: usize,
    from: Direction,
    line: u64,
    refusal: Refusal<'_>,
) -> Result<usize, Full>
    requires { at ≤ length buffer.old }
    ensures { Puts result at buffer.old buffer.new (refused_text from line refusal.entry.byte
        (length refusal.entry.before.now) refusal.entry.why) }
{
    let Refusal { byte, why, .. } = refusal;
    let place = refusal.place();
    let at = side(buffer, at, from, line)?;
    let at = fixed(buffer, at, *b",\"refused\":")?;
    let at = reason(buffer, at, byte, place, why)?;
    push(buffer, at, b'}')
}

/// Writes the event of a piece that is skipped after a refusal.
pub(crate) fn stopped(
    buffer: &mut [u8],
    at: usize,
    from: Direction,
    line: u64,
) -> Result<usize, Full>
    requires { at ≤ length buffer.old }
    ensures { Puts result at buffer.old buffer.new (stopped_text from line) }
{
    let at = side(buffer, at, from, line)?;
    fixed(buffer, at, *b",\"stopped\":true}")
}

/// Writes the event of a side that is read on after a refused message of this size.
pub(crate) fn resumed(
    buffer: &mut [u8],
    at: usize,
    from: Direction,
    line: u64,
    size: usize,
) -> Result<usize, Full>
    requires { at ≤ length buffer.old }
    ensures { Puts result at buffer.old buffer.new (resumed_text from line size) }
{
    let at = side(buffer, at, from, line)?;
    let at = fixed(buffer, at, *b",\"resumed\":")?;
    let at = decimal(buffer, at, size as u64)?;
    push(buffer, at, b'}')
}

/// Writes the event of a message that is cut off after this many bytes.
pub(crate) fn truncated(
    buffer: &mut [u8],
    at: usize,
    from: Direction,
    line: u64,
    have: usize,
) -> Result<usize, Full>
    requires { at ≤ length buffer.old }
    ensures { Puts result at buffer.old buffer.new (truncated_text from line have) }
{
    let at = side(buffer, at, from, line)?;
    let at = fixed(buffer, at, *b",\"truncated\":{\"after\":")?;
    let at = decimal(buffer, at, have as u64)?;
    fixed(buffer, at, *b"}}")
}

/// Writes the event of a lost connection.
pub(crate) fn lost(buffer: &mut [u8], at: usize, line: u64) -> Result<usize, Full>
    requires { at ≤ length buffer.old }
    ensures { Puts result at buffer.old buffer.new (lost_text line) }
{
    let at = fixed(buffer, at, *b"{\"line\":")?;
    let at = decimal(buffer, at, line)?;
    fixed(buffer, at, *b",\"lost\":true}")
}

/// Writes the side of an event, and its line.
fn side(buffer: &mut [u8], at: usize, from: Direction, line: u64) -> Result<usize, Full>
    requires { at ≤ length buffer.old }
    ensures { Puts result at buffer.old buffer.new (side_text from line) }
{
    let at = push(buffer, at, b'{')?;
    let at = sender(buffer, at, from)?;
    let at = fixed(buffer, at, *b",\"line\":")?;
    decimal(buffer, at, line)
}

/// Writes the refused byte, its position and the reason.
fn reason(buffer: &mut [u8], at: usize, first: u8, place: usize, why: Why) -> Result<usize, Full>
    requires { at ≤ length buffer.old }
    ensures { Puts result at buffer.old buffer.new (reason_text first place why) }
{
    let at = fixed(buffer, at, *b"{\"byte\":\"")?;
    let at = byte(buffer, at, first)?;
    let at = fixed(buffer, at, *b",\"place\":")?;
    let at = decimal(buffer, at, place as u64)?;
    let at = fixed(buffer, at, *b",\"reason\":\"")?;
    let at = word(buffer, at, why.name().as_bytes())?;
    fixed(buffer, at, *b"\"}")
}
