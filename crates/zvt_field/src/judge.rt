//! Decides whether a BMP, a digit of a length or a byte of content can follow.

ghost use Rattle.std.specs.Prelude.{◌≡◌, ◌≤◌, ◌<◌, ◌-◌, ◌^◌};
ghost use Rattle.zvt_grammar.specs.Tests.{fits};
ghost use Rattle.zvt_grammar.specs.Lengths.{reading_of};
ghost use Rattle.zvt_field.specs.Answers.{JudgesBmp, JudgesDigit, JudgesLl, JudgesContent, has_digits};

use crate::Shape;
use crate::table::shape;
use zvt_bcd::ll_digit;
use zvt_grammar::{Lengths, Why};

/// Whether an item of `size` more bytes ends its level or leaves room for another one.
#[inline(always)]
fn fits(size: usize, left: usize) -> bool
    requires { size < 2 ^ 16 }
    ensures { result ≡ fits size left }
{
    size <= left && left - size != 1
}

/// Judges a BMP. `left` counts the bytes of the fields after it.
#[inline(always)]
pub fn judge_bmp(left: usize, byte: u8, lengths: Lengths) -> Result<Shape, Why>
    ensures { JudgesBmp (reading_of lengths) left byte result }
{
    let Some(shape) = shape(byte) else {
        return Err(Why::UnknownField);
    };
    let enough = match shape {
        Shape::Fixed(size) | Shape::Digits(size) => fits(size, left),
        Shape::Ll => left >= 2,
        Shape::Lll => left >= 3,
        Shape::Tree => match lengths {
            Lengths::Shortest => left != 2,
            Lengths::Padded => true,
        },
    };
    if enough {
        Ok(shape)
    } else {
        Err(Why::DoesNotFit)
    }
}

/// Judges a digit of a length and returns the number so far. `more` digits follow it, and `before` is the number before
/// it. `left` counts the bytes of the fields after it.
#[inline(always)]
pub fn judge_digit(more: usize, before: usize, left: usize, byte: u8) -> Result<usize, Why>
    requires more { more ≤ 2 }
    requires before { before ≤ 99 }
    ensures { JudgesDigit more before left byte result }
{
    let Some(value) = ll_digit(byte) else {
        return Err(Why::LengthDigit);
    };
    let number = 10 * before + usize::from(value);
    let enough = match more {
        0 => fits(number, left),
        1 => 1 + 10 * number <= left,
        _ => 2 + 100 * number <= left,
    };
    if enough {
        Ok(number)
    } else {
        Err(Why::DoesNotFit)
    }
}

/// Position in a length of digits: how many digits are left, including this one, and the value of the digits before
/// it.
///
/// Before the first digit two or three are left, and the number is 0.
#[derive(Clone, Copy)]
pub struct LlAt {
    pub digits_left: u8,
    pub so_far: u16,
}

/// The state after a digit of a length.
#[derive(Clone, Copy)]
pub enum LlNext {
    /// Another digit.
    More(LlAt),
    /// The length is whole: that many bytes of content follow.
    Done(u16),
}

/// Judges a digit of a length by its place, as [`judge_digit`] does. `left` counts the bytes of the fields after it.
#[inline(always)]
pub fn judge_ll(at: LlAt, left: usize, byte: u8) -> Result<LlNext, Why>
    requires some { 1 ≤ at.digits_left }
    requires few { at.digits_left ≤ 3 }
    requires so_far { at.so_far < 10 ^ (3 - at.digits_left) }
    ensures { JudgesLl at left byte result }
{
    let more = at.digits_left - 1;
    let number = judge_digit(usize::from(more), usize::from(at.so_far), left, byte)?;
    if more == 0 {
        return Ok(LlNext::Done(number as u16));
    }
    Ok(LlNext::More(LlAt {
        digits_left: more,
        so_far: number as u16,
    }))
}

/// Judges a byte of the content of a field of this shape.
#[inline(always)]
pub fn judge_content(shape: Shape, byte: u8) -> Result<(), Why>
    ensures { JudgesContent (has_digits shape) byte result }
{
    judge_content_byte(matches!(shape, Shape::Digits(_)), byte)
}

/// Judges a byte of content, which is digits or any bytes.
#[inline(always)]
pub fn judge_content_byte(digits: bool, byte: u8) -> Result<(), Why>
    ensures { JudgesContent digits byte result }
{
    if digits && (byte / 16 > 9 || byte % 16 > 9) {
        Err(Why::NotDigit)
    } else {
        Ok(())
    }
}
