//! The state after a judged byte, and the judging of rare bytes.

ghost use Rattle.std.specs.Prelude.{◌≡◌, ℕ, ◌<◌, List, Ok, length, reverse, true};
ghost use Rattle.zvt_grammar.specs.Reading.{Reading};
ghost use Rattle.zvt_grammar.specs.Lengths.{reading_of};
ghost use Rattle.zvt_stream.specs.DecoderState.{Between};
ghost use Rattle.zvt_stream.specs.Moves.{outer_of, opens};
ghost use Rattle.zvt_stream.specs.Judge.{Advances, IsJudge, StandsFor, is_rare, state_of, Closes, Follows, Settles};

use crate::judge::Judged;
use crate::transitions::{
    Goes, Levels, Part, Transition, judge_container, judge_head, judge_high_size, judge_low_size,
    judge_object_length, judge_object_tag,
};
use arrayvec::ArrayVec;
use zvt_grammar::{Lengths, Why};
use zvt_tlv::TagAt;

/// Judges a byte whose role is rare.
#[cold]
#[inline(never)]
pub(crate) fn rare_step(
    lengths: Lengths,
    goes: &mut Goes,
    levels: &mut Levels,
    byte: u8,
) -> Result<Judged, Why>
    requires judge { IsJudge (state_of (reading_of lengths) goes.old levels.old) }
    requires rare { is_rare goes.old.part ≡ true }
    ensures { (bytes : List ℕ) → StandsFor (state_of (reading_of lengths) goes.old levels.old) bytes
        → Advances (reading_of lengths) bytes byte result (state_of (reading_of lengths) goes.new levels.new) }
{
    match goes.part {
        Part::LowSize => follow(judge_low_size(goes, levels, byte), goes, levels),
        Part::HighSize => follow(judge_high_size(goes, levels, byte, lengths), goes, levels),
        Part::Head => follow(judge_head(goes, levels, byte), goes, levels),
        Part::Container => follow(judge_container(goes, levels, byte, lengths), goes, levels),
        Part::Tag => {
            let depth = levels.outer.len().saturating_sub(1);
            follow(
                judge_object_tag(goes, levels, depth, byte, lengths),
                goes,
                levels,
            )
        }
        Part::Length => follow(
            judge_object_length(goes, levels, byte, lengths),
            goes,
            levels,
        ),
        _ => unreachable!(),
    }
}

/// Moves on after a byte that follows the control bytes.
#[inline]
pub(crate) fn follow(
    moved: Result<Transition, Why>,
    goes: &mut Goes,
    levels: &mut Levels,
) -> Result<Judged, Why>
    requires { (trailing : ℕ) → moved ≡ Ok (opens trailing) → length levels.old.outer.items < 7 }
    ensures { (r : Reading) (bytes : List ℕ) → Follows r moved goes.old levels.old result goes.new levels.new bytes }
{
    match moved {
        Ok(Transition::Within) => Ok(Judged::Open),
        Ok(Transition::Ends) => Ok(settle(goes, levels)),
        Ok(Transition::Opens { trailing }) => {
            levels.outer.push(trailing);
            Ok(settle(goes, levels))
        }
        Err(why) => Err(why),
    }
}

/// Continues in the innermost incomplete level, or reports the end of the message.
#[inline]
fn settle(goes: &mut Goes, levels: &mut Levels) -> Judged
    ensures { (r : Reading) (bytes : List ℕ) → Between r goes.old.left (outer_of levels.old) bytes
        → Settles r levels.old goes.new levels.new bytes result }
{
    match close(goes.left, &mut levels.outer) {
        Some(left) => {
            goes.left = left;
            if levels.outer.len() == 1 {
                goes.part = Part::Name;
                return Judged::Open;
            }
            goes.part = Part::Tag;
            levels.tag = TagAt::First;
            Judged::Open
        }
        None => Judged::Ended,
    }
}

/// Closes the levels that are full. Returns how many bytes the innermost remaining level lacks, or `None` if all are
/// full.
#[inline]
fn close(left: usize, outer: &mut ArrayVec<usize, 7>) -> Option<usize>
    ensures { Closes left (reverse outer.old.items) (reverse outer.new.items) result }
{
    let mut open = left;
    while open == 0 {
        match outer.pop() {
            Some(trailing) => open = trailing,
            None => return None,
        }
    }
    Some(open)
}
