//! Decides byte by byte, without memory, whether a tag or a length can continue, and if not, why.

ghost use Rattle.std.specs.Prelude.{◌≡◌, ℕ, ◌+◌, ◌<◌, ◌^◌};
ghost use Rattle.zvt_grammar.specs.Tests.{fits};
ghost use Rattle.zvt_tlv.specs.Answers.{JudgesContent, Judges, role_of_tag, after_tag_byte, role_of_length};
ghost use Rattle.zvt_tlv.specs.Answers.{after_length_byte};
ghost use Rattle.zvt_tlv.specs.Judging.{avoids, content_fits, long_form, first_tag, second_tag, first_length};
ghost use Rattle.zvt_grammar.specs.Lengths.{reading_of};

use zvt_grammar::{Lengths, Why};

/// Which byte of a tag comes next.
#[derive(Clone, Copy)]
pub enum TagAt {
    First,
    Second { constructed: bool },
    Third { constructed: bool },
}

/// The state after a byte of a tag.
#[derive(Clone, Copy)]
pub enum TagNext {
    /// Another byte of the tag.
    More(TagAt),
    /// The tag is whole: a length follows.
    Done { constructed: bool },
}

/// Which byte of a length comes next.
#[derive(Clone, Copy)]
pub enum LengthAt {
    First,
    After81,
    High82,
    Low82 { high: u8 },
}

/// The state after a byte of a length.
#[derive(Clone, Copy)]
pub enum LengthNext {
    /// Another byte of the length.
    More(LengthAt),
    /// The length is whole: that many bytes of content follow.
    Done(usize),
}

/// The deepest level of an object.
const DEEPEST: usize = 6;

/// Whether an item of `size` more bytes ends its level or leaves room for another item, which has at least two bytes.
#[inline(always)]
fn fits(size: usize, left: usize) -> bool
    requires { size < 2 ^ 16 }
    ensures { result ≡ fits size left }
{
    left == size || size + 2 <= left
}

/// Whether content of this length fits. A single byte cannot be the content of a constructed object.
#[inline(always)]
fn content_fits(nests: bool, size: usize, left: usize) -> bool
    requires { size < 2 ^ 16 }
    ensures { result ≡ content_fits nests size left }
{
    fits(size, left) && !(nests && size == 1)
}

/// Returns whether the remaining room avoids the sizes at which a shortest length would leave a single byte for
/// objects.
#[inline(always)]
fn avoids(lengths: Lengths, nests: bool, left: usize, size: usize) -> bool
    ensures { result ≡ avoids (reading_of lengths) nests left size }
{
    match lengths {
        Lengths::Shortest => !(nests && left == size),
        Lengths::Padded => true,
    }
}

/// Judges one byte of the tag of an object at the given depth. `left` counts the bytes of the enclosing content after
/// it.
#[inline(always)]
pub fn judge_tag(
    at: TagAt,
    left: usize,
    depth: usize,
    byte: u8,
    lengths: Lengths,
) -> Result<TagNext, Why>
    ensures { Judges (reading_of lengths) depth (role_of_tag at) left byte after_tag_byte result }
{
    match at {
        TagAt::First => judge_first_tag_byte(left, depth, byte, lengths),
        TagAt::Second { constructed } => judge_second_tag_byte(
            constructed,
            left,
            depth,
            byte,
            lengths,
        ),
        TagAt::Third { constructed } => {
            if byte >= 128 {
                return Err(Why::TagTooLong);
            }
            Ok(TagNext::Done { constructed })
        }
    }
}

#[inline(always)]
fn judge_first_tag_byte(
    left: usize,
    depth: usize,
    byte: u8,
    lengths: Lengths,
) -> Result<TagNext, Why>
    ensures { Judges (reading_of lengths) depth first_tag left byte after_tag_byte result }
{
    let constructed = byte / 32 % 2 == 1;
    if constructed && depth >= DEEPEST {
        return Err(Why::TooDeep);
    }
    if byte % 32 == 31 {
        if left < 2 {
            return Err(Why::DoesNotFit);
        }
        return Ok(TagNext::More(TagAt::Second { constructed }));
    }
    if !avoids(lengths, constructed, left, 2) {
        return Err(Why::DoesNotFit);
    }
    Ok(TagNext::Done { constructed })
}

#[inline(always)]
fn judge_second_tag_byte(
    constructed: bool,
    left: usize,
    depth: usize,
    byte: u8,
    lengths: Lengths,
) -> Result<TagNext, Why>
    ensures { Judges (reading_of lengths) depth (second_tag constructed) left byte after_tag_byte result }
{
    if byte < 128 {
        if !avoids(lengths, constructed, left, 2) {
            return Err(Why::DoesNotFit);
        }
        return Ok(TagNext::Done { constructed });
    }
    if left < 2 || !avoids(lengths, constructed, left, 3) {
        return Err(Why::DoesNotFit);
    }
    Ok(TagNext::More(TagAt::Third { constructed }))
}

/// Judges one byte of a length. `nests` says that objects follow: after a constructed tag, and after a length without
/// a tag. `left` is the number of bytes of the enclosing content after this byte.
#[inline(always)]
pub fn judge_length(
    at: LengthAt,
    left: usize,
    nests: bool,
    byte: u8,
    lengths: Lengths,
) -> Result<LengthNext, Why>
    ensures { (depth : ℕ) → Judges (reading_of lengths) depth (role_of_length nests at) left byte
        (after_length_byte nests) result }
{
    match at {
        LengthAt::First => judge_first_length_byte(left, nests, byte, lengths),
        LengthAt::After81 => {
            let size = usize::from(byte);
            if size < lengths.least(128) {
                return Err(Why::NotShortest);
            }
            judge_content(size, left, nests)
        }
        LengthAt::High82 => {
            let high = usize::from(byte);
            if high < lengths.least(1) {
                return Err(Why::NotShortest);
            }
            if left < 1 + 256 * high {
                return Err(Why::DoesNotFit);
            }
            Ok(LengthNext::More(LengthAt::Low82 { high: byte }))
        }
        LengthAt::Low82 { high } => judge_content(
            256 * usize::from(high) + usize::from(byte),
            left,
            nests,
        ),
    }
}

/// Judges a complete length.
#[inline(always)]
fn judge_content(size: usize, left: usize, nests: bool) -> Result<LengthNext, Why>
    requires { size < 2 ^ 16 }
    ensures { JudgesContent nests size left result }
{
    if content_fits(nests, size, left) {
        Ok(LengthNext::Done(size))
    } else {
        Err(Why::DoesNotFit)
    }
}

#[inline(always)]
fn judge_first_length_byte(
    left: usize,
    nests: bool,
    byte: u8,
    lengths: Lengths,
) -> Result<LengthNext, Why>
    ensures { (depth : ℕ) → Judges (reading_of lengths) depth (first_length nests) left byte
        (after_length_byte nests) result }
{
    match byte {
        0..128 => judge_content(usize::from(byte), left, nests),
        0x81 => match long_form(lengths, nests, left, 128, 1) {
            Some(why) => Err(why),
            None => Ok(LengthNext::More(LengthAt::After81)),
        },
        0x82 => match long_form(lengths, nests, left, 256, 2) {
            Some(why) => Err(why),
            None => Ok(LengthNext::More(LengthAt::High82)),
        },
        _ => Err(Why::LengthForm),
    }
}

/// Returns why no length in this many further bytes can follow. The shortest reading accepts its form from `least` on.
#[inline(always)]
fn long_form(lengths: Lengths, nests: bool, left: usize, least: usize, bytes: usize) -> Option<Why>
    requires { bytes + least < 2 ^ 16 }
    ensures { result ≡ long_form (reading_of lengths) nests left least bytes }
{
    match lengths {
        Lengths::Shortest => {
            if left < bytes + least {
                return Some(Why::NotShortest);
            }
        }
        Lengths::Padded => {
            if left < bytes || (nests && left == bytes + 1) {
                return Some(Why::DoesNotFit);
            }
        }
    }
    None
}
