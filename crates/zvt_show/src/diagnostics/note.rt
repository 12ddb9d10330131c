//! The note of one bad stream.
ghost use Rattle.std.specs.Prelude.{◌≡◌, ◌++◌, OnOk, length};
ghost use Rattle.zvt_stream.specs.Head.{head_of};
ghost use Rattle.zvt_trace.specs.TraceEvent.{event_of};
ghost use Rattle.zvt_show.specs.Notes.{begun_text, control_part, cut_off_note, head_name, line_text, place_text};
ghost use Rattle.zvt_show.specs.Notes.{reason_text, refused_note, event_note};

use std::alloc::AllocError;
use zvt_apdu::{Kind, kind_at};
use zvt_grammar::Why;
use zvt_text::{Text, hexadecimal, kind_name};
use zvt_trace::{Direction, Head, Refusal, TraceEvent};

/// Adds where a stream was refused or cut off, in which message, and why. Adds nothing for another event.
pub(crate) fn put(
    text: &mut Text,
    line: u64,
    trace_event: &TraceEvent<'_>,
) -> Result<(), AllocError>
    ensures { OnOk result (text.new ≡ text.old ++ event_note line (event_of trace_event.now)) }
{
    match trace_event {
        TraceEvent::Refused { from, refusal } => put_refused(text, line, *from, refusal),
        TraceEvent::CutOff { from, bytes } => put_cut_off(text, line, *from, bytes),
        TraceEvent::Message { .. }
        | TraceEvent::Unread { .. }
        | TraceEvent::Resumed { .. }
        | TraceEvent::Lost => Ok(()),
    }
}

/// Adds where and why a message was refused.
fn put_refused(
    text: &mut Text,
    line: u64,
    from: Direction,
    refusal: &Refusal<'_>,
) -> Result<(), AllocError>
    ensures { OnOk result (text.new ≡ text.old ++ refused_note line from refusal.now.before.now refusal.now.byte
        refusal.now.why) }
{
    put_begun(text, line, from, refusal.head())?;
    put_place(text, refusal.place(), refusal.byte)?;
    put_reason(text, refusal.why)
}

/// Adds the place of the fatal byte, and the byte.
fn put_place(text: &mut Text, place: usize, byte: u8) -> Result<(), AllocError>
    ensures { OnOk result (text.new ≡ text.old ++ place_text place byte) }
{
    text.word(b" refused at ")?;
    text.number(place as u64)?;
    text.word(b", byte ")?;
    hexadecimal(text, &[byte])
}

/// Adds the reason, and ends the line.
fn put_reason(text: &mut Text, why: Why) -> Result<(), AllocError>
    ensures { OnOk result (text.new ≡ text.old ++ reason_text why) }
{
    text.word(b": ")?;
    text.word(why.name().as_bytes())?;
    text.push(b'\n')
}

/// Adds where the message was cut off that begins with these bytes.
fn put_cut_off(text: &mut Text, line: u64, from: Direction, bytes: &[u8]) -> Result<(), AllocError>
    ensures { OnOk result (text.new ≡ text.old ++ cut_off_note line from (head_of bytes.now) (length bytes.now)) }
{
    put_have(text, line, from, Head::of(bytes), bytes.len())
}

/// Adds that a message was cut off after this many bytes.
fn put_have(
    text: &mut Text,
    line: u64,
    from: Direction,
    head: Head,
    have: usize,
) -> Result<(), AllocError>
    ensures { OnOk result (text.new ≡ text.old ++ cut_off_note line from head have) }
{
    put_begun(text, line, from, head)?;
    text.word(b" cut off after ")?;
    text.number(have as u64)?;
    text.push(b'\n')
}

/// Adds the number of the line.
fn put_line(text: &mut Text, line: u64) -> Result<(), AllocError>
    ensures { OnOk result (text.new ≡ text.old ++ line_text line) }
{
    text.word(b"zvt: line ")?;
    text.number(line)?;
    text.word(b" of the trace: ")
}

/// Adds the number of the line, the sender, and the incomplete message.
fn put_begun(text: &mut Text, line: u64, from: Direction, head: Head) -> Result<(), AllocError>
    ensures { OnOk result (text.new ≡ text.old ++ begun_text line from head) }
{
    put_line(text, line)?;
    text.word(from.sign().as_bytes())?;
    text.push(b' ')?;
    put_name(text, head)
}

/// Adds the name of the message with these control bytes.
fn put_name(text: &mut Text, head: Head) -> Result<(), AllocError>
    ensures { OnOk result (text.new ≡ text.old ++ head_name head) }
{
    match head {
        Head::Empty => text.word(b"a message"),
        Head::One(high) => {
            text.word(b"a message of ")?;
            hexadecimal(text, &[high])
        }
        Head::Two(high, low) => {
            let kind = kind_at(high, low);
            text.word(kind_name(kind).as_bytes())?;
            put_control(text, kind, high, low)
        }
    }
}

/// Adds the control bytes of a message without a name.
fn put_control(text: &mut Text, kind: Kind, high: u8, low: u8) -> Result<(), AllocError>
    ensures { OnOk result (text.new ≡ text.old ++ control_part kind high low) }
{
    match kind {
        Kind::Other => {
            text.push(b' ')?;
            hexadecimal(text, &[high, low])
        }
        _ => Ok(()),
    }
}
