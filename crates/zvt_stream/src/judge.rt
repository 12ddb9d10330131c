//! The judge of a line's bytes: `Judge::step` looks at each of them once, and it alone counts.
//!
//! The functions of a run and of a step are `#[inline(always)]`: no byte costs a call. The compiler drops the hint from
//! a function that becomes too large, so bytes with rare roles are judged apart. `bench/throughput` counts the
//! instructions for a byte.

ghost use Rattle.std.specs.Prelude.{◌≡◌, ℕ, ◌+◌, ◌≤◌, List, [], ◌++◌, length, take};
ghost use Rattle.zvt_grammar.specs.Reading.{AreBytes, padded, shortest};
ghost use Rattle.zvt_grammar.specs.Lengths.{reading_of};
ghost use Rattle.zvt_stream.specs.Head.{head_of};
ghost use Rattle.zvt_stream.specs.Moves.{outer_of};
ghost use Rattle.zvt_stream.specs.Judge.{start, beginning, Advances, IsJudge, StandsFor, HasLevelsIn, Stepped, Ran};
ghost use Rattle.zvt_stream.specs.Judge.{HasRoomFor, kept_by, taken_by, judged_of, state_of};

use crate::advance::{follow, rare_step};
use crate::head::Head;
use crate::transitions::{
    Goes, Levels, Part, judge_count, judge_digits, judge_field, judge_first_size, judge_free,
    judge_object_content, judge_payload,
};
use arrayvec::ArrayVec;
use std::marker::Model;
use zvt_grammar::{Lengths, Why};
use zvt_io::GhostCount;
use zvt_tlv::{LengthAt, TagAt};

/// The number of bytes judged. It exists only in contracts, and takes neither memory nor time.
#[derive(Drop)]
pub struct Steps {
    judged: GhostCount,
}

impl Steps {
    /// Creates a counter at zero.
    pub fn new() -> Steps
        ensures { judged_of result ≡ 0 }
    {
        Steps {
            judged: GhostCount::zero(),
        }
    }
}

/// Result of judging a byte.
#[derive(Clone, Copy)]
pub enum Judged {
    /// The bytes are the beginning of a message.
    Open,
    /// The bytes are a complete message.
    Ended,
}

/// Result of judging bytes.
#[derive(Clone, Copy)]
pub enum DecodeRun {
    /// All bytes were judged. They are the beginning of a message.
    Open,
    /// The first `taken` of them end a message.
    Ended { taken: usize },
    /// No message starts with the bytes up to and including the one at `at`.
    Refused { at: usize, why: Why },
}

/// The state of a message that is being read: the role of the next byte, and the open levels. The levels are the frame,
/// the fields, a container and nested objects. For each one the judge counts the bytes that are still to come.
#[derive(Drop)]
pub struct Judge {
    /// The accepted forms of length.
    lengths: Lengths,
    goes: Goes,
    levels: Levels,
}

impl Model for Judge {
    ghost use Rattle.zvt_grammar.specs.Lengths.{reading_of};
    ghost use Rattle.zvt_stream.specs.Judge.{JudgeState, IsJudge, state_of};

    ghost Value = { JudgeState };

    ghost view = { λ j. state_of (reading_of j.lengths) j.goes j.levels };

    ghost invariant = { λ j. IsJudge (state_of (reading_of j.lengths) j.goes j.levels) };
}

impl Judge {
    /// Creates a judge at the start of a message that accepts only the shortest lengths.
    pub fn new() -> Judge
        ensures new { result ≡ start shortest }
        ensures stands { StandsFor result [] }
    {
        Judge::of(Lengths::Shortest)
    }

    /// Creates a judge at the start of a message that also accepts padded lengths.
    pub fn loose() -> Judge
        ensures new { result ≡ start padded }
        ensures stands { StandsFor result [] }
    {
        Judge::of(Lengths::Padded)
    }

    /// Creates a judge at the start of a message that accepts the given forms of length.
    pub(crate) fn of(lengths: Lengths) -> Judge
        ensures new { result ≡ start (reading_of lengths) }
        ensures stands { StandsFor result [] }
    {
        Judge {
            lengths,
            goes: beginning(),
            levels: no_levels(0, 0),
        }
    }

    /// Creates a judge after the control bytes of a message, as far as they have arrived.
    pub(crate) fn after(lengths: Lengths, head: Head) -> Judge
        ensures stands { (bytes : List ℕ) → AreBytes bytes → head ≡ head_of bytes → StandsFor result (take 2 bytes) }
        ensures reading { result.reading ≡ reading_of lengths }
        ensures one_level { result.outer ≡ [] }
    {
        match head {
            Head::Empty => Judge::of(lengths),
            Head::One(high) => Judge {
                lengths,
                goes: Goes {
                    part: Part::SecondControl,
                    more: 0,
                    left: 1,
                },
                levels: no_levels(high, 0),
            },
            Head::Two(high, low) => Judge {
                lengths,
                goes: Goes {
                    part: Part::FirstSize,
                    more: 0,
                    left: 1,
                },
                levels: no_levels(high, low),
            },
        }
    }

    /// The accepted forms of length.
    pub fn lengths(&self) -> Lengths
        ensures { reading_of result ≡ self.now.reading }
    {
        self.lengths
    }

    /// Returns another judge at the same position.
    pub fn again(&self) -> Judge
        ensures { result ≡ self.now }
    {
        let mut outer = ArrayVec::new();
        let levels = &self.levels;
        let _ = outer.try_extend_from_slice(levels.outer.as_slice());
        Judge {
            lengths: self.lengths,
            goes: self.goes,
            levels: Levels {
                high: levels.high,
                low: levels.low,
                number: levels.number,
                tag: levels.tag,
                length: levels.length,
                nests: levels.nests,
                outer,
            },
        }
    }

    /// Returns the number of open levels, including the frame: at most eight, since objects nest six deep.
    pub fn levels(&self) -> usize
        ensures levels { (bytes : List ℕ) → StandsFor self.now bytes → HasLevelsIn self.now.reading bytes result }
        ensures one { self.now.outer ≡ [] → result ≡ 1 }
        ensures most { result ≤ 8 }
    {
        1 + self.levels.outer.len()
    }

    /// Returns the control bytes of the unfinished message, as far as they were judged.
    #[inline(always)]
    pub fn head(&self) -> Head
        ensures { (bytes : List ℕ) → StandsFor self.now bytes → result ≡ head_of bytes }
    {
        match self.goes.part {
            Part::FirstControl => Head::Empty,
            Part::SecondControl => Head::One(self.levels.high),
            _ => Head::Two(self.levels.high, self.levels.low),
        }
    }

    /// Judges the next byte. After the end of a message and after a refusal, the judge is at the start of a message
    /// again.
    pub fn step(&mut self, steps: &mut Steps, byte: u8) -> Result<Judged, Why>
        ensures judged { (bytes : List ℕ) → StandsFor self.old bytes → Stepped self.old.reading bytes byte
            result self.new }
        ensures count { judged_of steps.new ≡ judged_of steps.old + 1 }
    {
        let mut now = self.goes;
        match step(
            self.lengths,
            &mut now,
            &mut self.goes,
            &mut self.levels,
            steps,
            byte,
        ) {
            Ok(Judged::Open) => {
                self.goes = now;
                Ok(Judged::Open)
            }
            Ok(Judged::Ended) => {
                self.goes = beginning();
                Ok(Judged::Ended)
            }
            Err(why) => {
                self.goes = beginning();
                self.levels.outer.clear();
                Err(why)
            }
        }
    }

    /// Judges bytes one after another up to the end of a message, and writes each one to the buffer.
    #[inline(always)]
    pub fn run(&mut self, steps: &mut Steps, bytes: &[u8], room: &mut [u8]) -> DecodeRun
        requires { HasRoomFor self.old (length bytes.now) (length room.old) }
        ensures written { take (kept_by bytes.now result) room.new ≡ take (kept_by bytes.now result) bytes.now }
        ensures size { length room.new ≡ length room.old }
        ensures judged { (held : List ℕ) → StandsFor self.old held → Ran self.old.reading held bytes.now
            result self.new }
        ensures count { judged_of steps.new ≡ judged_of steps.old + taken_by bytes.now result }
    {
        run(
            self.lengths,
            &mut self.goes,
            &mut self.levels,
            steps,
            bytes,
            room,
        )
    }
}

/// Returns the levels of a message after its control bytes.
fn no_levels(high: u8, low: u8) -> Levels
    ensures high { result.high ≡ high }
    ensures low { result.low ≡ low }
    ensures outer { outer_of result ≡ [] }
{
    Levels {
        high,
        low,
        number: 0,
        tag: TagAt::First,
        length: LengthAt::First,
        nests: false,
        outer: ArrayVec::new(),
    }
}

/// Returns the state at the start of a message.
#[inline(always)]
fn beginning() -> Goes
    ensures { result ≡ beginning }
{
    Goes {
        part: Part::FirstControl,
        more: 0,
        left: 1,
    }
}

/// Judges bytes one after another, up to the end of a message, and writes each to the room. The state is copied field
/// by field so that it stays in registers: a copy of the whole struct would include its padding.
#[inline(always)]
fn run(
    lengths: Lengths,
    goes: &mut Goes,
    levels: &mut Levels,
    steps: &mut Steps,
    bytes: &[u8],
    room: &mut [u8],
) -> DecodeRun
    requires { HasRoomFor (state_of (reading_of lengths) goes.old levels.old) (length bytes.now) (length room.old) }
    ensures written { take (kept_by bytes.now result) room.new ≡ take (kept_by bytes.now result) bytes.now }
    ensures size { length room.new ≡ length room.old }
    ensures judged { (held : List ℕ) → StandsFor (state_of (reading_of lengths) goes.old levels.old) held
        → Ran (reading_of lengths) held bytes.now result (state_of (reading_of lengths) goes.new levels.new) }
    ensures count { judged_of steps.new ≡ judged_of steps.old + taken_by bytes.now result }
{
    let mut now = Goes {
        part: goes.part,
        more: goes.more,
        left: goes.left,
    };
    let mut taken = 0;
    'bytes: while taken < bytes.len() {
        let byte = bytes[taken];
        room[taken] = byte;
        match step(lengths, &mut now, goes, levels, steps, byte) {
            Ok(Judged::Open) => {}
            Ok(Judged::Ended) => {
                *goes = beginning();
                return DecodeRun::Ended { taken: taken + 1 };
            }
            Err(why) => {
                *goes = beginning();
                levels.outer.clear();
                return DecodeRun::Refused { at: taken, why };
            }
        }
        taken += 1;
    }
    goes.part = now.part;
    goes.more = now.more;
    goes.left = now.left;
    DecodeRun::Open
}

/// Judges the next byte, and counts it. A byte with a rare role is judged in `kept`, because a call would keep `goes`
/// in memory.
#[inline(always)]
fn step(
    lengths: Lengths,
    goes: &mut Goes,
    kept: &mut Goes,
    levels: &mut Levels,
    steps: &mut Steps,
    byte: u8,
) -> Result<Judged, Why>
    requires { IsJudge (state_of (reading_of lengths) goes.old levels.old) }
    ensures judged { (bytes : List ℕ) → StandsFor (state_of (reading_of lengths) goes.old levels.old) bytes
        → Advances (reading_of lengths) bytes byte result (state_of (reading_of lengths) goes.new levels.new) }
    ensures count { judged_of steps.new ≡ judged_of steps.old + 1 }
{
    steps.judged = steps.judged.next();
    match goes.part {
        Part::Digits => follow(judge_digits(goes, byte), goes, levels),
        Part::Content => follow(judge_free(goes), goes, levels),
        Part::Object => follow(judge_object_content(goes), goes, levels),
        Part::Payload => follow(judge_payload(goes), goes, levels),
        Part::Name => follow(judge_field(goes, levels, byte, lengths), goes, levels),
        Part::FirstControl => {
            levels.high = byte;
            goes.part = Part::SecondControl;
            Ok(Judged::Open)
        }
        Part::SecondControl => {
            levels.low = byte;
            goes.part = Part::FirstSize;
            Ok(Judged::Open)
        }
        Part::FirstSize => follow(judge_first_size(goes, levels, byte), goes, levels),
        Part::Digit => follow(judge_count(goes, levels, byte), goes, levels),
        _ => {
            kept.part = goes.part;
            kept.more = goes.more;
            kept.left = goes.left;
            let judged = rare_step(lengths, kept, levels, byte);
            goes.part = kept.part;
            goes.more = kept.more;
            goes.left = kept.left;
            judged
        }
    }
}
