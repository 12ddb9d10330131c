//! Transitions by one byte.
//!
//! Each transition is `#[inline(always)]`: a step becomes one function, and no byte costs a call.
ghost use Rattle.std.specs.Prelude.{◌≡◌, ℕ, ◌+◌, ◌<◌, ◌≤◌, ◌^◌, false, true};
ghost use Rattle.zvt_grammar.specs.Reading.{Reading};
ghost use Rattle.zvt_grammar.specs.Lengths.{reading_of};
ghost use Rattle.zvt_stream.specs.Parts as at;
ghost use Rattle.zvt_stream.specs.Moves.{BeginsData, IsReady, Judged, Judges, Keeps, leads_to};
ghost use Rattle.zvt_stream.specs.declared.transitions.Part.TheVariants as part;
ghost use Rattle.zvt_stream.specs.DecoderState.{HasDigits};

use arrayvec::ArrayVec;
use zvt_apdu::judge_size;
use zvt_field::Shape;
use zvt_field::judge::{judge_bmp, judge_content_byte, judge_digit};
use zvt_grammar::{Lengths, Why};
use zvt_tlv::{LengthAt, LengthNext, TagAt, TagNext, judge_length, judge_tag};

/// Role of the next byte.
#[derive(Clone, Copy)]
pub(crate) enum Part {
    FirstControl,
    SecondControl,
    FirstSize,
    LowSize,
    HighSize,
    /// A byte of data without fields.
    Payload,
    /// A byte before the fields.
    Head,
    /// The name of a field.
    Name,
    /// A digit of a field's length.
    Digit,
    /// A byte of a field's content, of any value.
    Content,
    /// A byte of a field's content, of two digits.
    Digits,
    /// A byte of a container's length.
    Container,
    /// A byte of an object's tag.
    Tag,
    /// A byte of an object's length.
    Length,
    /// A byte of an object's content.
    Object,
}

/// Position in a message: the part of the state that almost every byte changes.
#[derive(Clone, Copy)]
pub(crate) struct Goes {
    /// The part that the next byte plays.
    pub(crate) part: Part,
    /// Bytes of a content or before the fields that are to come, or digits of a length after the next one.
    pub(crate) more: usize,
    /// The bytes of the innermost level that are to come.
    pub(crate) left: usize,
}

/// The part of the state that few bytes change: the open levels, and what the tests of the next byte need to know
/// about earlier bytes.
#[derive(Drop)]
pub(crate) struct Levels {
    /// The control bytes that were judged.
    pub(crate) high: u8,
    pub(crate) low: u8,
    /// What the digits or the bytes of a length say so far, or how many bytes of digits are to come before the fields.
    pub(crate) number: usize,
    pub(crate) tag: TagAt,
    pub(crate) length: LengthAt,
    /// Whether the object holds objects.
    pub(crate) nests: bool,
    /// For each level around the innermost one, the bytes that are to come after the level in it. The frame is the
    /// first.
    pub(crate) outer: ArrayVec<usize, 7>,
}

/// Result of a byte.
#[derive(Clone, Copy)]
pub(crate) enum Transition {
    /// Another byte of the same item.
    Within,
    /// The end of an item.
    Ends,
    /// A level inside of the item, and that many bytes of the item's own level after it.
    Opens { trailing: usize },
}

#[inline(always)]
pub(crate) fn judge_first_size(
    goes: &mut Goes,
    levels: &mut Levels,
    byte: u8,
) -> Result<Transition, Why>
    ensures judges { (r : Reading) → Judged r part.FirstSize goes.old levels.old byte result goes.new levels.new }
    ensures keeps { Keeps levels.old levels.new }
{
    if byte == 0xFF {
        goes.part = Part::LowSize;
        return Ok(Transition::Within);
    }
    begin_data(goes, levels, usize::from(byte))
}

#[inline(always)]
pub(crate) fn judge_low_size(
    goes: &mut Goes,
    levels: &mut Levels,
    byte: u8,
) -> Result<Transition, Why>
    ensures judges { (r : Reading) → Judged r part.LowSize goes.old levels.old byte result goes.new levels.new }
    ensures keeps { Keeps levels.old levels.new }
{
    goes.part = Part::HighSize;
    levels.number = usize::from(byte);
    Ok(Transition::Within)
}

#[inline(always)]
pub(crate) fn judge_high_size(
    goes: &mut Goes,
    levels: &mut Levels,
    byte: u8,
    lengths: Lengths,
) -> Result<Transition, Why>
    requires { levels.old.number < 256 }
    ensures judges { (left depth : ℕ) → Judges (reading_of lengths)
        (at.HighSize levels.old.high levels.old.low levels.old.number) left depth byte
        (leads_to result goes.new levels.new) }
    ensures keeps { Keeps levels.old levels.new }
{
    let size = 256 * usize::from(byte) + levels.number;
    if size < lengths.least(255) {
        return Err(Why::NotShortest);
    }
    begin_data(goes, levels, size)
}

/// Data of that size begins.
#[inline(always)]
fn begin_data(goes: &mut Goes, levels: &mut Levels, size: usize) -> Result<Transition, Why>
    ensures begins { (r : Reading) → BeginsData r levels.old.high levels.old.low size
        (leads_to result goes.new levels.new) }
    ensures keeps { Keeps levels.old levels.new }
{
    let layout = judge_size(levels.high, levels.low, size)?;
    if size == 0 {
        goes.left = 0;
        return Ok(Transition::Ends);
    }
    goes.left = size;
    if !layout.fields {
        goes.part = Part::Payload;
        return Ok(Transition::Within);
    }
    if layout.free + layout.digits == 0 {
        return Ok(Transition::Opens { trailing: 0 });
    }
    goes.part = Part::Head;
    goes.more = layout.free;
    levels.number = layout.digits;
    Ok(Transition::Within)
}

#[inline]
pub(crate) fn judge_payload(goes: &mut Goes) -> Result<Transition, Why>
    requires { 0 < goes.old.left }
    ensures { (levels : Levels) (r : Reading) (depth byte : ℕ) → byte < 256 → Judges r at.Payload goes.old.left depth
        byte (leads_to result goes.new levels) }
{
    if goes.left == 1 {
        goes.left = 0;
        return Ok(Transition::Ends);
    }
    goes.part = Part::Payload;
    goes.left -= 1;
    Ok(Transition::Within)
}

#[inline(always)]
pub(crate) fn judge_head(goes: &mut Goes, levels: &mut Levels, byte: u8) -> Result<Transition, Why>
    requires { IsReady (at.Head goes.old.more levels.old.number) goes.old.left }
    ensures judges { (r : Reading) → Judged r part.Head goes.old levels.old byte result goes.new levels.new }
    ensures keeps { Keeps levels.old levels.new }
{
    judge_content_byte(goes.more == 0, byte)?;
    goes.part = Part::Head;
    goes.left -= 1;
    if goes.more + levels.number == 1 {
        return Ok(Transition::Opens { trailing: 0 });
    }
    if goes.more > 0 {
        goes.more -= 1;
        return Ok(Transition::Within);
    }
    levels.number -= 1;
    Ok(Transition::Within)
}

#[inline(always)]
pub(crate) fn judge_field(
    goes: &mut Goes,
    levels: &mut Levels,
    byte: u8,
    lengths: Lengths,
) -> Result<Transition, Why>
    requires { 2 ≤ goes.old.left }
    ensures judges { Judged (reading_of lengths) part.Name goes.old levels.old byte result goes.new levels.new }
    ensures keeps { Keeps levels.old levels.new }
{
    goes.left -= 1;
    match judge_bmp(goes.left, byte, lengths)? {
        Shape::Fixed(more) => {
            goes.part = Part::Content;
            goes.more = more;
            Ok(Transition::Within)
        }
        Shape::Digits(more) => {
            goes.part = Part::Digits;
            goes.more = more;
            Ok(Transition::Within)
        }
        Shape::Ll => {
            goes.part = Part::Digit;
            goes.more = 1;
            levels.number = 0;
            Ok(Transition::Within)
        }
        Shape::Lll => {
            goes.part = Part::Digit;
            goes.more = 2;
            levels.number = 0;
            Ok(Transition::Within)
        }
        Shape::Tree => {
            goes.part = Part::Container;
            levels.length = LengthAt::First;
            Ok(Transition::Within)
        }
    }
}

#[inline]
pub(crate) fn judge_count(goes: &mut Goes, levels: &mut Levels, byte: u8) -> Result<Transition, Why>
    requires { HasDigits goes.old.more levels.old.number goes.old.left }
    ensures judges { (r : Reading) → Judged r part.Digit goes.old levels.old byte result goes.new levels.new }
    ensures keeps { Keeps levels.old levels.new }
{
    goes.left -= 1;
    let number = judge_digit(goes.more, levels.number, goes.left, byte)?;
    if goes.more > 0 {
        goes.part = Part::Digit;
        goes.more -= 1;
        levels.number = number;
        return Ok(Transition::Within);
    }
    if number == 0 {
        return Ok(Transition::Ends);
    }
    goes.part = Part::Content;
    goes.more = number;
    Ok(Transition::Within)
}

/// A byte of a field's content of any value.
#[inline]
pub(crate) fn judge_free(goes: &mut Goes) -> Result<Transition, Why>
    requires { IsReady (at.Content false goes.old.more) goes.old.left }
    ensures { (levels : Levels) (r : Reading) (depth byte : ℕ) → byte < 256 → Judges r (at.Content false goes.old.more)
        goes.old.left depth byte (leads_to result goes.new levels) }
{
    goes.part = Part::Content;
    goes.left -= 1;
    goes.more -= 1;
    if goes.more == 0 {
        return Ok(Transition::Ends);
    }
    Ok(Transition::Within)
}

/// A byte of a field's content of digits.
#[inline]
pub(crate) fn judge_digits(goes: &mut Goes, byte: u8) -> Result<Transition, Why>
    requires { IsReady (at.Content true goes.old.more) goes.old.left }
    ensures { (levels : Levels) (r : Reading) → Judged r part.Digits goes.old levels byte result goes.new levels }
{
    judge_content_byte(true, byte)?;
    goes.part = Part::Digits;
    goes.left -= 1;
    goes.more -= 1;
    if goes.more == 0 {
        return Ok(Transition::Ends);
    }
    Ok(Transition::Within)
}

#[inline(always)]
pub(crate) fn judge_container(
    goes: &mut Goes,
    levels: &mut Levels,
    byte: u8,
    lengths: Lengths,
) -> Result<Transition, Why>
    requires { 1 ≤ goes.old.left }
    ensures judges { Judged (reading_of lengths) part.Container goes.old levels.old byte result goes.new levels.new }
    ensures keeps { Keeps levels.old levels.new }
{
    goes.part = Part::Container;
    goes.left -= 1;
    match judge_length(levels.length, goes.left, true, byte, lengths)? {
        LengthNext::More(at) => {
            levels.length = at;
            Ok(Transition::Within)
        }
        LengthNext::Done(size) => {
            let trailing = goes.left - size;
            goes.left = size;
            Ok(Transition::Opens { trailing })
        }
    }
}

#[inline(always)]
pub(crate) fn judge_object_tag(
    goes: &mut Goes,
    levels: &mut Levels,
    depth: usize,
    byte: u8,
    lengths: Lengths,
) -> Result<Transition, Why>
    requires { 2 ≤ goes.old.left }
    ensures judges { Judges (reading_of lengths) (at.Tag levels.old.tag) goes.old.left depth byte
        (leads_to result goes.new levels.new) }
    ensures keeps { Keeps levels.old levels.new }
{
    goes.left -= 1;
    match judge_tag(levels.tag, goes.left, depth, byte, lengths)? {
        TagNext::More(at) => {
            goes.part = Part::Tag;
            levels.tag = at;
            Ok(Transition::Within)
        }
        TagNext::Done { constructed } => {
            goes.part = Part::Length;
            levels.nests = constructed;
            levels.length = LengthAt::First;
            Ok(Transition::Within)
        }
    }
}

#[inline(always)]
pub(crate) fn judge_object_length(
    goes: &mut Goes,
    levels: &mut Levels,
    byte: u8,
    lengths: Lengths,
) -> Result<Transition, Why>
    requires { 1 ≤ goes.old.left }
    ensures judges { Judged (reading_of lengths) part.Length goes.old levels.old byte result goes.new levels.new }
    ensures keeps { Keeps levels.old levels.new }
{
    goes.left -= 1;
    match judge_length(levels.length, goes.left, levels.nests, byte, lengths)? {
        LengthNext::More(at) => {
            goes.part = Part::Length;
            levels.length = at;
            Ok(Transition::Within)
        }
        LengthNext::Done(size) => {
            if levels.nests {
                let trailing = goes.left - size;
                goes.left = size;
                return Ok(Transition::Opens { trailing });
            }
            if size == 0 {
                return Ok(Transition::Ends);
            }
            goes.part = Part::Object;
            goes.more = size;
            Ok(Transition::Within)
        }
    }
}

#[inline]
pub(crate) fn judge_object_content(goes: &mut Goes) -> Result<Transition, Why>
    requires { IsReady (at.Object goes.old.more) goes.old.left }
    ensures { (levels : Levels) (r : Reading) (depth byte : ℕ) → byte < 256 → Judges r (at.Object goes.old.more)
        goes.old.left depth byte (leads_to result goes.new levels) }
{
    goes.part = Part::Object;
    goes.left -= 1;
    goes.more -= 1;
    if goes.more == 0 {
        return Ok(Transition::Ends);
    }
    Ok(Transition::Within)
}
