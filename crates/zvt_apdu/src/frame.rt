//! The frame of a message: control bytes, length and data.

ghost use Rattle.std.specs.Prelude.{◌≡◌, ◌≤◌, length, slice_index_or};
ghost use Rattle.zvt_grammar.specs.Lengths.{reading_of};
ghost use Rattle.zvt_apdu.specs.Grammar.{form_of};
ghost use Rattle.zvt_apdu.specs.Judging.{AnswersOpening, JudgesSize, bytes_after, can_fill, head_size, layout_of};

use crate::kinds::{Kind, kind_at};
use zvt_grammar::{Lengths, Scan, Why};

/// The form of a message's data: some bytes followed by free bytes, some bytes followed by fields, or the data of a
/// registration.
#[derive(Clone, Copy)]
pub(crate) enum Form {
    BytesFrom(usize),
    FieldsFrom(usize),
    Registration,
}

/// The parts of a message's data: the number of fixed bytes, the number of bytes of digits, and whether fields or free
/// bytes follow.
#[derive(Clone, Copy)]
pub struct Layout {
    pub free: usize,
    pub digits: usize,
    pub fields: bool,
}

/// The control bytes and the length of a message, and where its data starts.
#[derive(Clone, Copy)]
pub(crate) struct Opening {
    pub(crate) high: u8,
    pub(crate) low: u8,
    pub(crate) start: usize,
    pub(crate) size: usize,
}

/// Returns the form of the data after these control bytes if they belong to a named message.
#[inline(always)]
pub(crate) fn form_of(high: u8, low: u8) -> Option<Form>
    ensures { result ≡ form_of high low }
{
    match kind_at(high, low) {
        Kind::Registration => Some(Form::Registration),
        Kind::Authorisation
        | Kind::AbortOrder
        | Kind::Status
        | Kind::TextBlock
        | Kind::Completion => Some(Form::FieldsFrom(0)),
        Kind::Reversal | Kind::EndOfDay => Some(Form::FieldsFrom(3)),
        Kind::Ack | Kind::Nack => Some(Form::BytesFrom(0)),
        Kind::Intermediate | Kind::PrintLine | Kind::Abort => Some(Form::BytesFrom(1)),
        Kind::Other => None,
    }
}

/// Returns the layout of data of this size after these control bytes.
#[inline(always)]
pub(crate) fn layout_of(high: u8, low: u8, size: usize) -> Layout
    ensures { result ≡ layout_of high low size }
{
    match form_of(high, low) {
        None => bytes_after(0),
        Some(Form::BytesFrom(count)) => bytes_after(count),
        Some(Form::FieldsFrom(count)) => Layout {
            free: count,
            digits: 0,
            fields: true,
        },
        Some(Form::Registration) => if size <= 4 {
            bytes_after(4)
        } else {
            Layout {
                free: 4,
                digits: 2,
                fields: true,
            }
        },
    }
}

fn bytes_after(count: usize) -> Layout
    ensures { result ≡ bytes_after count }
{
    Layout {
        free: count,
        digits: 0,
        fields: false,
    }
}

/// Returns whether data of this many bytes can have this layout.
fn can_fill(layout: Layout, size: usize) -> bool
    requires { head_size layout ≤ 6 }
    ensures { result ≡ can_fill layout size }
{
    let head = layout.free + layout.digits;
    head <= size && !(layout.fields && size == head + 1)
}

/// Checks the length of the data after these control bytes and returns the parts of data of that size.
#[inline(always)]
pub fn judge_size(high: u8, low: u8, size: usize) -> Result<Layout, Why>
    ensures { JudgesSize high low size result }
{
    let layout = layout_of(high, low, size);
    if can_fill(layout, size) {
        Ok(layout)
    } else {
        Err(Why::DoesNotFit)
    }
}

/// Reads the control bytes and the length, in the forms that the caller asks for.
#[inline(always)]
pub(crate) fn scan_opening(bytes: &[u8], lengths: Lengths) -> Scan<Opening>
    ensures { AnswersOpening (reading_of lengths) bytes.now result }
{
    let [high, low, first, ..] = bytes else {
        return Scan::More;
    };
    if *first == 0xFF {
        return scan_long_opening(bytes, lengths);
    }
    let size = usize::from(*first);
    if !can_fill(layout_of(*high, *low, size), size) {
        return Scan::Refused {
            place: 2,
            why: Why::DoesNotFit,
        };
    }
    Scan::Whole(Opening {
        high: *high,
        low: *low,
        start: 3,
        size,
    })
}

/// Reads the control bytes and a length of three bytes, whose first is FF.
#[inline(always)]
fn scan_long_opening(bytes: &[u8], lengths: Lengths) -> Scan<Opening>
    requires some { 3 ≤ length bytes.now }
    requires long { slice_index_or bytes.now 2 0 ≡ 0xFF }
    ensures { AnswersOpening (reading_of lengths) bytes.now result }
{
    let [high, low, _, size_low, size_high, ..] = bytes else {
        return Scan::More;
    };
    let size = usize::from(*size_low) + 256 * usize::from(*size_high);
    if size < lengths.least(255) {
        return Scan::Refused {
            place: 4,
            why: Why::NotShortest,
        };
    }
    if !can_fill(layout_of(*high, *low, size), size) {
        return Scan::Refused {
            place: 4,
            why: Why::DoesNotFit,
        };
    }
    Scan::Whole(Opening {
        high: *high,
        low: *low,
        start: 5,
        size,
    })
}
