//! Reads tags and lengths.

ghost use Rattle.std.specs.Prelude.{◌≢◌, [], ◌<◌};
ghost use Rattle.zvt_grammar.specs.Beginnings.{Alive};
ghost use Rattle.zvt_tlv.specs.Answers.{Answers, TagFound, HeadFound};
ghost use Rattle.zvt_grammar.specs.Lengths.{reading_of};
ghost use Rattle.zvt_tlv.specs.Sized.{SizedIn, AnswersSize};

use crate::judge::{LengthAt, LengthNext, TagAt, TagNext, judge_length, judge_tag};
use zvt_grammar::{Lengths, Scan};

/// The tag and the length of an object.
#[derive(Clone, Copy)]
pub struct Head {
    pub tag_size: usize,
    pub constructed: bool,
    /// Number of content bytes that follow.
    pub content: usize,
    /// Size of the tag and the length together.
    pub size: usize,
}

/// Reads a tag at the given depth, within the bytes of its room. Returns its size and whether it is constructed.
fn scan_tag(bytes: &[u8], room: usize, depth: usize, lengths: Lengths) -> Scan<(usize, bool)>
    requires some { 0 < room }
    requires filled { room ≢ 1 }
    ensures { Answers (reading_of lengths) depth room bytes.now
        (λ t. TagFound (reading_of lengths) depth room bytes.now t.0 t.1) result }
{
    let mut at = TagAt::First;
    for count in 0..bytes.len() {
        match judge_tag(at, room - count - 1, depth, bytes[count], lengths) {
            Err(why) => return Scan::Refused { place: count, why },
            Ok(TagNext::More(next)) => at = next,
            Ok(TagNext::Done { constructed }) => return Scan::Whole((count + 1, constructed)),
        }
    }
    Scan::More
}

/// Reads the length after a tag.
fn scan_length(
    bytes: &[u8],
    room: usize,
    depth: usize,
    tag_size: usize,
    constructed: bool,
    lengths: Lengths,
) -> Scan<Head>
    requires { TagFound (reading_of lengths) depth room bytes.now tag_size constructed }
    ensures { Answers (reading_of lengths) depth room bytes.now
        (HeadFound (reading_of lengths) depth room bytes.now) result }
{
    let mut at = LengthAt::First;
    for count in tag_size..bytes.len() {
        match judge_length(at, room - count - 1, constructed, bytes[count], lengths) {
            Err(why) => return Scan::Refused { place: count, why },
            Ok(LengthNext::More(next)) => at = next,
            Ok(LengthNext::Done(content)) => {
                return Scan::Whole(Head {
                    tag_size,
                    constructed,
                    content,
                    size: count + 1,
                });
            }
        }
    }
    Scan::More
}

/// Reads a tag and its length at the given depth, within the bytes of their room.
pub fn scan_head(bytes: &[u8], room: usize, depth: usize, lengths: Lengths) -> Scan<Head>
    requires some { 0 < room }
    requires filled { room ≢ 1 }
    ensures { Answers (reading_of lengths) depth room bytes.now
        (HeadFound (reading_of lengths) depth room bytes.now) result }
{
    match scan_tag(bytes, room, depth, lengths) {
        Scan::Whole((tag_size, constructed)) => scan_length(
            bytes,
            room,
            depth,
            tag_size,
            constructed,
            lengths,
        ),
        Scan::More => Scan::More,
        Scan::Refused { place, why } => Scan::Refused { place, why },
    }
}

/// Reads a length that precedes objects without a tag, within `room` bytes. Returns the size of the length and the
/// value it gives.
pub fn scan_size(bytes: &[u8], room: usize, lengths: Lengths) -> Scan<(usize, usize)>
    requires { Alive (SizedIn (reading_of lengths) room) [] }
    ensures { AnswersSize (reading_of lengths) room bytes.now result }
{
    let mut at = LengthAt::First;
    for count in 0..bytes.len() {
        match judge_length(at, room - count - 1, true, bytes[count], lengths) {
            Err(why) => return Scan::Refused { place: count, why },
            Ok(LengthNext::More(next)) => at = next,
            Ok(LengthNext::Done(content)) => return Scan::Whole((count + 1, content)),
        }
    }
    Scan::More
}
