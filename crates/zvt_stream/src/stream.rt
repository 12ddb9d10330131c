//! Assembles messages from pieces of a line.
//!
//! `feed_view` and `head` are `#[inline(always)]`: a reader that feeds byte by byte calls both for each byte.

ghost use Rattle.std.specs.Prelude.{◌≡◌, ◌+◌, ◌<◌, ◌≤◌, [], None, IfOk, IfSome, IsNone, IsSome, OnErr};
ghost use Rattle.std.specs.Prelude.{length, take, true, MatchResult};
ghost use Rattle.std.specs.Result.{IsErrOf};
ghost use Rattle.zvt_grammar.specs.Lengths.{reading_of};
ghost use Rattle.zvt_apdu.specs.Grammar.{Spells};
ghost use Rattle.zvt_stream.specs.LineReading.{Judges, Reads, UnfinishedBy};
ghost use Rattle.zvt_stream.specs.StreamState.{Keeps, IsReserved};
ghost use Rattle.zvt_stream.specs.Lending.{LentBytes, lent_once};
ghost use Rattle.zvt_stream.specs.Feeds.{Feeds, Lends, taken_by, taken_in_view};
ghost use Rattle.zvt_stream.specs.Head.{head_of};
ghost use Rattle.zvt_stream.specs.Judge.{HasLevelsBy, IsMessageIn, judged_of};

use crate::buffer::Held;
use crate::head::Head;
use crate::judge::{DecodeRun, Judge, Steps};
use crate::unread::{go_on, heard_frame, pass_frame, seen_frame};
use std::alloc::{AllocError, Global};
use std::marker::Model;
use thiserror::Error;
use zvt_apdu::{Apdu, ApduView, scan_message, view};
use zvt_grammar::{Lengths, Scan, Why};

/// The result of feeding a piece of input to a [`Stream`].
#[derive(Drop)]
pub enum Fed {
    /// A complete message. It ends with the first `taken` bytes of the piece; feed the remaining bytes to continue.
    Message { apdu: Apdu, taken: usize },
    /// The whole piece was taken, and no message ended in it.
    More,
    /// The input is invalid: no message starts with the bytes up to and including the one at `place`, an offset from
    /// the start of the message. The stream accepts no further input.
    Refused { place: usize, why: Why },
}

/// The result of feeding a piece with `feed_view`. The stream lends the message.
#[derive(Clone, Copy, Debug, Drop, PartialEq, Eq)]
pub enum FedView {
    /// A message ended after the first `taken` bytes of the piece, and `Stream::lent` shows it. The caller feeds the
    /// rest of the piece.
    Message { taken: usize },
    /// The whole piece was taken, and no message ended in it.
    More,
    /// The input is invalid, as in `Fed::Refused`.
    Refused { place: usize, why: Why },
}

/// Why a piece was not taken.
#[derive(Clone, Copy, Debug, Drop, PartialEq, Eq, Error)]
pub enum FeedError {
    /// Earlier bytes were refused.
    #[error("the stream refused earlier bytes: make a new one for a new connection")]
    Stopped,
    /// An allocation failed. No input was consumed, so the same piece can be fed again. A message lent by an earlier
    /// call is no longer available.
    #[error("out of memory: no input was consumed, and the same piece can be fed again")]
    Memory,
}

impl From<AllocError> for FeedError {
    ghost use Rattle.zvt_stream.specs.declared.stream.FeedError.TheVariants.{Memory};

    ghost from_gives = { λ _ error. error ≡ Memory };

    fn from(_refused: AllocError) -> FeedError {
        FeedError::Memory
    }
}

/// The stream ended inside a message, after `have` of its bytes.
#[derive(Clone, Copy, Debug, Drop, PartialEq, Eq, Error)]
#[error("the input ends inside a message, after {have} of its bytes")]
pub struct Truncated {
    pub have: usize,
}

/// Reassembles the messages of one direction of a connection from pieces of any size.
///
/// Use [`feed_view`](Stream::feed_view) if you are done with each message before the next call: it lends the message
/// without copying it. Use [`feed`](Stream::feed) to get an owned `Apdu`, which allocates.
#[derive(Drop)]
pub struct Stream {
    pub(crate) held: Held,
    pub(crate) judge: Judge,
    pub(crate) steps: Steps,
    /// Whether it goes on after a frame that holds no message.
    pub(crate) passes: bool,
    /// Whether bytes were refused: it passes their frame, or takes no more.
    pub(crate) refused: bool,
    pub(crate) has_message: bool,
    ghost spelled: { LentBytes has_message refused held.bytes } by { lent_once has_message refused held.bytes },
}

impl Model for Stream {
    ghost use Rattle.zvt_stream.specs.StreamState.{StreamState, state_code, IsSound};
    ghost use Rattle.zvt_stream.specs.Lending.{held_of, lent_of};
    ghost use Rattle.std.specs.Prelude.{◌≡◌, true};
    ghost use Rattle.zvt_stream.specs.Judge.{StandsFor, judged_of};
    ghost use Rattle.zvt_stream.specs.LineReading.{line_reading};
    ghost use Rattle.zvt_stream.specs.Passing.{Knows, judged_bytes, stops};

    ghost Value = { StreamState };

    ghost coded = { state_code };

    ghost view = { λ s. record {
      held = held_of s.has_message s.held.bytes;
      stopped = stops s.refused s.passes;
      lent = lent_of s.has_message s.refused s.held.bytes s.spelled;
      room = s.held.room;
      judged = judged_of s.steps;
      reading = line_reading s.passes s.judge.reading;
      refused_bytes = s.held.refused;
    } };

    ghost invariant = { λ s. IsSound (line_reading s.passes s.judge.reading) (held_of s.has_message s.held.bytes)
        (stops s.refused s.passes)
        × StandsFor s.judge (judged_bytes s.refused (held_of s.has_message s.held.bytes))
        × Knows s.passes s.refused s.has_message s.judge s.held.bytes };
}

impl Stream {
    /// Returns the message found by the last feed, if that was a `feed_view`. The next feed ends the loan.
    pub fn lent(&self) -> Option<ApduView<'_>>
        ensures { result ≡ self.now.lent }
    {
        if self.has_message {
            Some(self.message())
        } else {
            None
        }
    }

    /// Returns the bytes of the lent message. On an open line they may be a frame that was not read.
    pub fn lent_bytes(&self) -> Option<&[u8]>
        ensures some { IfSome self.now.lent (λ m. IfSome result (λ bytes. Reads self.now.reading m bytes.now)
            × IsSome result) }
        ensures none { self.now.lent ≡ None → IsNone result }
    {
        if !self.has_message {
            None
        } else if self.refused {
            Some(self.held.frame())
        } else {
            Some(self.held.spelled())
        }
    }

    /// Consumes input up to the end of the next message, or the whole piece if no message ends in it. Invalid input is
    /// reported by the call that contains the offending byte; every later call returns `Stopped`.
    ///
    /// Each byte is judged once. The message is built from the bytes held.
    pub fn feed(&mut self, alloc: Global, piece: &[u8]) -> Result<Fed, FeedError>
        ensures fed { IfOk result (λ fed. Feeds self.old piece.now fed self.new) }
        ensures stopped { self.old.stopped ≡ true → IsErrOf result FeedError.Stopped }
        ensures only { IsErrOf result FeedError.Stopped → self.old.stopped ≡ true }
        ensures err { OnErr result (Keeps self.old self.new) }
        ensures lent { self.new.lent ≡ None }
        ensures room { self.old.room ≤ self.new.room }
        ensures count { MatchResult result (λ fed. Judges self.old.reading self.old.held
            (take (taken_by self.old piece.now fed) piece.now) self.old.judged self.new.judged)
            (λ _. self.new.judged ≤ self.old.judged + length piece.now) }
    {
        self.give_up();
        if self.refused {
            let passed = go_on(&mut self.held, &mut self.judge, self.passes, piece)?;
            self.refused = passed.is_none();
            return Ok(heard_frame(alloc, &mut self.held, passed));
        }
        let lengths = self.judge.lengths();
        self.held.reserve_for(piece.len())?;
        let before = self.held.len();
        let mut judge = self.judge.again();
        match self.held.judge(&mut judge, &mut self.steps, piece) {
            DecodeRun::Open => {
                self.judge = judge;
                Ok(Fed::More)
            }
            DecodeRun::Ended { taken } => {
                let apdu = message(alloc, &mut self.held, before, lengths)?;
                self.judge = judge;
                Ok(Fed::Message { apdu, taken })
            }
            DecodeRun::Refused { at, why } => {
                if self.passes {
                    let passed = pass_frame(&mut self.held, &mut self.judge, piece);
                    self.refused = passed.is_none();
                    return Ok(heard_frame(alloc, &mut self.held, passed));
                }
                let place = self.held.len() + at;
                self.held.refuse(&piece[..at + 1]);
                self.judge = judge;
                self.refused = true;
                Ok(Fed::Refused { place, why })
            }
        }
    }

    /// Takes bytes as `feed` does, and lends the message until the next feed instead of building it. Allocates only if
    /// the buffer has no room for the longest message that the piece may end.
    #[inline(always)]
    pub fn feed_view(&mut self, piece: &[u8]) -> Result<FedView, FeedError>
        ensures fed { IfOk result (λ fed. Lends self.old piece.now fed self.new) }
        ensures stopped { self.old.stopped ≡ true → IsErrOf result FeedError.Stopped }
        ensures only { IsErrOf result FeedError.Stopped → self.old.stopped ≡ true }
        ensures err { OnErr result (Keeps self.old self.new) }
        ensures room { self.old.room ≤ self.new.room }
        ensures frugal { IsReserved self.old → IsErrOf result FeedError.Memory → ⊥ }
        ensures count { MatchResult result (λ fed. Judges self.old.reading self.old.held
            (take (taken_in_view self.old piece.now fed) piece.now) self.old.judged self.new.judged)
            (λ _. self.new.judged ≡ self.old.judged) }
    {
        self.give_up();
        if self.refused {
            let passed = go_on(&mut self.held, &mut self.judge, self.passes, piece)?;
            self.has_message = passed.is_some();
            return Ok(seen_frame(passed));
        }
        self.held.reserve_for(piece.len())?;
        match self.held.judge(&mut self.judge, &mut self.steps, piece) {
            DecodeRun::Open => Ok(FedView::More),
            DecodeRun::Ended { taken } => {
                self.has_message = true;
                Ok(FedView::Message { taken })
            }
            DecodeRun::Refused { at, why } => {
                if self.passes {
                    let passed = pass_frame(&mut self.held, &mut self.judge, piece);
                    self.refused = true;
                    self.has_message = passed.is_some();
                    return Ok(seen_frame(passed));
                }
                let place = self.held.len() + at;
                self.held.refuse(&piece[..at + 1]);
                self.refused = true;
                Ok(FedView::Refused { place, why })
            }
        }
    }

    /// Returns the bytes of the refused message, up to and including the first after which no message can follow. There
    /// are none before a refusal.
    pub fn refused_bytes(&self) -> &[u8]
        ensures { result.now ≡ self.now.refused_bytes }
    {
        self.held.refused()
    }

    /// Checks that the input does not end in the middle of a message. Always succeeds after a refusal, because the
    /// stream then holds no bytes.
    pub fn finish(&self) -> Result<(), Truncated>
        ensures { MatchResult result (λ _. self.now.held ≡ [])
            (λ truncated. (0 < truncated.have) × (truncated.have ≡ length self.now.held)) }
    {
        match self.held() {
            0 => Ok(()),
            have => Err(Truncated { have }),
        }
    }

    /// Returns the number of bytes held of an incomplete message, at most 65,539. It is 0 after a refusal and while a
    /// message is lent.
    pub fn held(&self) -> usize
        ensures count { result ≡ length self.now.held }
        ensures unfinished { UnfinishedBy self.now.reading self.now.held }
        ensures few { result < 65540 }
        ensures none { self.now.stopped ≡ true → self.now.held ≡ [] }
    {
        if self.has_message { 0 } else { self.held.len() }
    }

    /// Returns the bytes held of an incomplete message.
    pub fn unfinished(&self) -> &[u8]
        ensures { result.now ≡ self.now.held }
    {
        if self.has_message {
            &[]
        } else {
            self.held.bytes()
        }
    }

    /// Returns the control bytes of the unfinished message, as far as they have arrived.
    #[inline(always)]
    pub fn head(&self) -> Head
        ensures { result ≡ head_of self.now.held }
    {
        self.judge.head()
    }

    /// Returns the number of open levels: 0 if the stream holds no bytes, otherwise the frame, the fields, and nested
    /// containers and objects.
    pub fn levels(&self) -> usize
        ensures none { self.now.held ≡ [] → result ≡ 0 }
        ensures some { 0 < length self.now.held → HasLevelsBy self.now.reading self.now.held result }
        ensures most { result ≤ 8 }
    {
        if self.held() == 0 {
            0
        } else {
            self.judge.levels()
        }
    }
}

/// Takes the message out of the buffer. If an allocation fails, the first `before` bytes stay.
fn message(
    alloc: Global,
    held: &mut Held,
    before: usize,
    lengths: Lengths,
) -> Result<Apdu, AllocError>
    requires whole { IsMessageIn (reading_of lengths) held.old.bytes }
    requires before { before ≤ length held.old.bytes }
    ensures ok { IfOk result (λ apdu. Spells (reading_of lengths) apdu held.old.bytes × (held.new.bytes ≡ [])) }
    ensures err { OnErr result (held.new.bytes ≡ take before held.old.bytes) }
    ensures room { held.old.room ≤ held.new.room }
{
    match whole(alloc, held.spelled(), lengths) {
        Ok(apdu) => {
            held.cut(0);
            Ok(apdu)
        }
        Err(refused) => {
            held.cut(before);
            Err(refused)
        }
    }
}

/// Builds the message from its bytes.
fn whole(alloc: Global, bytes: &[u8], lengths: Lengths) -> Result<Apdu, AllocError>
    requires { IsMessageIn (reading_of lengths) bytes.now }
    ensures { IfOk result (λ apdu. Spells (reading_of lengths) apdu bytes.now) }
{
    match scan_message(alloc, bytes, lengths) {
        Ok(Scan::Whole((apdu, _))) => Ok(apdu),
        Ok(Scan::More) => unreachable!(),
        Ok(Scan::Refused { .. }) => unreachable!(),
        Err(refused) => Err(refused),
    }
}
