//! Frames that hold no message. An open stream passes each of them by its own length, and a stand-in is heard for it.
ghost use Rattle.std.specs.Prelude.{◌≡◌, ◌+◌, ◌≤◌, IfOk, IsSome, OnErr, Some, length, min, false, true};
ghost use Rattle.std.specs.Result.{IsErrOf};
ghost use Rattle.zvt_grammar.specs.Reading.{AreBytes, Reading};
ghost use Rattle.zvt_apdu.specs.Grammar.{Spells};
ghost use Rattle.zvt_apdu.specs.Messages.{message_of};
ghost use Rattle.zvt_stream.specs.Head.{head_of};
ghost use Rattle.zvt_stream.specs.LineReading.{kind_named, stand_in};
ghost use Rattle.zvt_stream.specs.Passing.{HearsFrame, NoFrame, Passes, Rests, missing, seen_as};
ghost use Rattle.zvt_stream.specs.StreamState.{Keeps};

use crate::buffer::Held;
use crate::head::Head;
use crate::judge::Judge;
use crate::stream::{Fed, FedView, FeedError, Stream};
use std::alloc::Global;
use zvt_apdu::{Apdu, ApduView, Kind, Message, checked, kind_at, view};
use zvt_field::Fields;

/// Returns how many bytes a frame with this beginning still needs, as far as its length has arrived.
#[cold]
pub(crate) fn missing(bytes: &[u8]) -> usize
    ensures { result ≡ missing bytes.now }
{
    match bytes {
        [] => 3,
        [_] => 2,
        [_, _] | [_, _, 0xFF, _] => 1,
        [_, _, 0xFF] => 2,
        [_, _, 0xFF, low, high, content @ ..] => {
            (256 * *high as usize + *low as usize).saturating_sub(content.len())
        }
        [_, _, size, content @ ..] => (*size as usize).saturating_sub(content.len()),
    }
}

/// Notes for the proof that each is a byte.
pub(crate) fn note_bytes(bytes: &[u8])
    ensures { AreBytes bytes.now }
{}

/// Returns the kind of the frame that begins with these control bytes.
pub(crate) fn kind_named(head: Head) -> Kind
    ensures { result ≡ kind_named head }
{
    match head {
        Head::Two(high, low) => kind_at(high, low),
        Head::One(_) | Head::Empty => Kind::Other,
    }
}

/// Returns the encoding of the message that is heard for an unread frame of this kind.
pub(crate) fn stand_in(kind: Kind) -> &'static [u8]
    ensures { (r : Reading) → Spells r (stand_in kind) result.now }
{
    match kind {
        Kind::Status => &[0x04, 0x0F, 0x00],
        Kind::Completion => &[0x06, 0x0F, 0x00],
        Kind::Abort => &[0x06, 0x1E, 0x01, 0xFF],
        _ => &[0xFF, 0xFF, 0x00],
    }
}

/// Returns the message that is heard for an unread frame of this kind.
fn stand_in_message(alloc: Global, kind: Kind) -> Apdu
    ensures { result ≡ stand_in kind }
{
    match checked(unchecked_stand_in(alloc, kind)) {
        Ok(apdu) => apdu,
        Err(_) => unreachable!(),
    }
}

fn unchecked_stand_in(alloc: Global, kind: Kind) -> Message
    ensures { message_of result ≡ stand_in kind }
{
    match kind {
        Kind::Status => Message::Status(Fields::new(alloc)),
        Kind::Completion => Message::Completion(Fields::new(alloc)),
        Kind::Abort => Message::Abort {
            code: 0xFF,
            payload: Vec::new(alloc),
        },
        _ => Message::Other {
            control: [0xFF, 0xFF],
            payload: Vec::new(alloc),
        },
    }
}

/// Takes the bytes of a frame that is refused, and puts the judge after its control bytes, or at the next message if
/// the frame ended.
#[cold]
#[inline(never)]
pub(crate) fn pass_frame(held: &mut Held, judge: &mut Judge, piece: &[u8]) -> Option<usize>
    requires begun { NoFrame held.old.bytes }
    requires room { min (length held.old.bytes + length piece.now) 65540 ≤ held.old.room }
    ensures passes { Passes held.old.bytes piece.now result held.new.bytes }
    ensures rests { Rests judge.old.reading held.new.bytes result judge.new }
    ensures room { held.new.room ≡ held.old.room }
{
    let passed = held.pass(piece);
    match passed {
        Some(_) => *judge = Judge::of(judge.lengths()),
        None => *judge = Judge::after(judge.lengths(), held.head()),
    }
    passed
}

/// Takes bytes after refused ones. A stream that does not pass frames takes none.
#[cold]
#[inline(never)]
pub(crate) fn go_on(
    held: &mut Held,
    judge: &mut Judge,
    passes: bool,
    piece: &[u8],
) -> Result<Option<usize>, FeedError>
    requires begun { passes ≡ true → NoFrame held.old.bytes }
    requires few { length held.old.bytes ≤ 65540 }
    ensures ok { IfOk result (λ passed. (passes ≡ true) × Passes held.old.bytes piece.now passed held.new.bytes
        × Rests judge.old.reading held.new.bytes passed judge.new) }
    ensures stopped { passes ≡ false → IsErrOf result FeedError.Stopped }
    ensures only { IsErrOf result FeedError.Stopped → passes ≡ false }
    ensures err { OnErr result ((held.new.bytes ≡ held.old.bytes) × (judge.new ≡ judge.old)) }
    ensures room { held.old.room ≤ held.new.room }
    ensures frugal { 65540 ≤ held.old.room → IsErrOf result FeedError.Memory → ⊥ }
{
    if !passes {
        return Err(FeedError::Stopped);
    }
    held.reserve_for(piece.len())?;
    Ok(pass_frame(held, judge, piece))
}

/// Returns what a feed finds that passed a frame.
pub(crate) fn seen_frame(passed: Option<usize>) -> FedView
    ensures { result ≡ seen_as passed }
{
    match passed {
        Some(taken) => FedView::Message { taken },
        None => FedView::More,
    }
}

/// Takes the stand-in of a frame that was passed out of the buffer.
pub(crate) fn heard_frame(alloc: Global, held: &mut Held, passed: Option<usize>) -> Fed
    ensures hears { HearsFrame held.old.bytes passed result held.new.bytes }
    ensures room { held.new.room ≡ held.old.room }
{
    match passed {
        Some(taken) => {
            let apdu = stand_in_message(alloc, kind_named(held.head()));
            held.cut(0);
            Fed::Message { apdu, taken }
        }
        None => Fed::More,
    }
}

impl Stream {
    /// Returns the lent message: the one that the bytes spell, or the stand-in of an unread frame.
    #[inline(always)]
    pub(crate) fn message(&self) -> ApduView<'_>
        requires { IsSome self.now.lent }
        ensures { Some result ≡ self.now.lent }
    {
        if self.refused {
            view(self.held.stand_in())
        } else {
            view(self.held.spelled())
        }
    }

    // Gives up the message that is borrowed.
    pub(crate) fn give_up(&mut self)
        ensures keeps { Keeps self.old self.new }
        ensures room { self.new.room ≡ self.old.room }
        ensures count { self.new.judged ≡ self.old.judged }
    {
        if self.has_message {
            self.has_message = false;
            self.refused = false;
            self.held.cut(0);
        }
    }
}
