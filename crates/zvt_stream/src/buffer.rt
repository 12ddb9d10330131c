//! The bytes of an unfinished message.
//!
//! The methods that each feed calls are `#[inline(always)]`: a chunk of one byte costs no call. `grow` is `#[cold]`,
//! since few feeds need more capacity.

ghost use Rattle.std.specs.Prelude.{◌≡◌, ◌+◌, ◌<◌, ◌≤◌, [], ◌∷◌, ◌++◌, length, min, take, IfOk, IsOk, OnErr, OnOk};
ghost use Rattle.zvt_grammar.specs.Reading.{Reading};
ghost use Rattle.zvt_apdu.specs.Grammar.{Spells};
ghost use Rattle.zvt_apdu.specs.Views.{MessageBytes};
ghost use Rattle.zvt_stream.specs.Head.{head_of};
ghost use Rattle.zvt_stream.specs.Judge.{StandsFor, Ran, kept_by, taken_by, judged_of};
ghost use Rattle.zvt_stream.specs.LineReading.{kind_named, stand_in};
ghost use Rattle.zvt_stream.specs.OpenReading.{IsFramed};
ghost use Rattle.zvt_stream.specs.Passing.{NoFrame, Passes};

use crate::head::Head;
use crate::judge::{DecodeRun, Judge, Steps};
use crate::unread::{kind_named, missing, note_bytes, stand_in};
use std::alloc::{AllocError, Global};
use std::marker::Model;

/// Size of the longest message in bytes.
pub const MAX_APDU_LEN: usize = 65_540;

/// The capacity for the first bytes.
const FIRST_CAPACITY: usize = 64;

/// The bytes of an unfinished message. They can be borrowed only once the message is complete.
#[derive(Drop)]
pub struct Held {
    /// The bytes, and the capacity after them.
    room: Vec<u8>,
    size: usize,
    /// How many bytes at the start of the room are a message that was refused.
    refused: usize,
}

impl Model for Held {
    ghost use Rattle.std.specs.Prelude.{◌≤◌, length, take};
    ghost use Rattle.zvt_stream.specs.Lending.{HeldState};

    ghost Value = { HeldState };

    ghost view = { λ h. record {
      bytes = take h.size h.room.items;
      room = length h.room.items;
      refused = take h.refused h.room.items;
    } };

    ghost invariant = { λ h. (h.size ≤ length h.room.items) × (h.refused ≤ length h.room.items) };
}

impl Held {
    /// Creates an empty buffer without capacity.
    pub fn new(alloc: Global) -> Held
        ensures { result ≡ record { bytes = []; room = 0; refused = [] } }
    {
        Held {
            room: Vec::new(alloc),
            size: 0,
            refused: 0,
        }
    }

    /// Creates an empty buffer with capacity for the longest message, so that adding bytes never allocates.
    pub fn reserved(alloc: Global) -> Result<Held, AllocError>
        ensures { IfOk result (λ held. held ≡ record { bytes = []; room = 65540; refused = [] }) }
    {
        let mut room = Vec::new(alloc);
        room.resize(MAX_APDU_LEN, 0)?;
        Ok(Held {
            room,
            size: 0,
            refused: 0,
        })
    }

    /// Reserves capacity for the given number of bytes, or for the rest of the longest message if that is less. If the
    /// allocation fails, nothing changes.
    #[inline(always)]
    pub fn reserve_for(&mut self, more: usize) -> Result<(), AllocError>
        requires { length self.old.bytes ≤ 65540 }
        ensures bytes { self.new.bytes ≡ self.old.bytes }
        ensures room { self.old.room ≤ self.new.room }
        ensures ok { OnOk result (min (length self.old.bytes + more) 65540 ≤ self.new.room) }
        ensures err { OnErr result (self.new ≡ self.old) }
        ensures full { OnErr result (self.old.room < min (length self.old.bytes + more) 65540) }
    {
        if more <= self.room.len() - self.size {
            return Ok(());
        }
        grow(
            &mut self.room,
            self.size + more.min(MAX_APDU_LEN - self.size),
        )
    }

    /// Appends a byte. If the allocation fails, nothing changes.
    pub fn add(&mut self, byte: u8) -> Result<(), AllocError>
        ensures ok { OnOk result (self.new.bytes ≡ self.old.bytes ++ byte ∷ []) }
        ensures err { OnErr result (self.new.bytes ≡ self.old.bytes) }
        ensures room { self.old.room ≤ self.new.room }
        ensures frugal { length self.old.bytes < self.old.room → IsOk result }
    {
        self.add_all(&[byte])
    }

    /// Appends bytes. If the allocation fails, nothing changes.
    pub fn add_all(&mut self, bytes: &[u8]) -> Result<(), AllocError>
        ensures ok { OnOk result (self.new.bytes ≡ self.old.bytes ++ bytes.now) }
        ensures err { OnErr result (self.new.bytes ≡ self.old.bytes) }
        ensures room { self.old.room ≤ self.new.room }
        ensures frugal { length self.old.bytes + length bytes.now ≤ self.old.room → IsOk result }
    {
        let Some(least) = self.size.checked_add(bytes.len()) else {
            return Err(AllocError);
        };
        grow(&mut self.room, least)?;
        self.put(bytes);
        Ok(())
    }

    /// Judges the bytes that follow the held ones and keeps them: all, those up to the end of a message, or none.
    #[inline(always)]
    pub fn judge(&mut self, judge: &mut Judge, steps: &mut Steps, piece: &[u8]) -> DecodeRun
        requires stands { StandsFor judge.old self.old.bytes }
        requires room { min (length self.old.bytes + length piece.now) 65540 ≤ self.old.room }
        ensures judged { Ran judge.old.reading self.old.bytes piece.now result judge.new }
        ensures count { judged_of steps.new ≡ judged_of steps.old + taken_by piece.now result }
        ensures bytes { self.new.bytes ≡ self.old.bytes ++ take (kept_by piece.now result) piece.now }
        ensures room { self.new.room ≡ self.old.room }
    {
        let at = self.size;
        let ran = judge.run(steps, piece, &mut self.room[at..]);
        match ran {
            DecodeRun::Open => self.size = at + piece.len(),
            DecodeRun::Ended { taken } => self.size = at + taken,
            DecodeRun::Refused { .. } => {}
        }
        ran
    }

    /// Takes the bytes of a frame from the piece, without judging them. Returns how many end it, or `None` if all of
    /// the piece was taken and the frame goes on.
    #[cold]
    #[inline(never)]
    pub(crate) fn pass(&mut self, piece: &[u8]) -> Option<usize>
        requires begun { NoFrame self.old.bytes }
        requires room { min (length self.old.bytes + length piece.now) 65540 ≤ self.old.room }
        ensures passes { Passes self.old.bytes piece.now result self.new.bytes }
        ensures room { self.new.room ≡ self.old.room }
    {
        let mut taken = 0;
        'frame: loop {
            let bytes = self.arrived();
            note_bytes(bytes);
            let lacking = missing(bytes);
            let count = lacking.min(piece.len() - taken);
            if lacking == 0 {
                return Some(taken);
            }
            if count == 0 {
                return None;
            }
            self.put(&piece[taken..taken + count]);
            taken += count;
        }
    }

    /// Returns the control bytes, as far as they have arrived.
    pub(crate) fn head(&self) -> Head
        ensures { result ≡ head_of self.now.bytes }
    {
        Head::of(self.arrived())
    }

    /// Returns the bytes of a frame.
    pub(crate) fn frame(&self) -> &[u8]
        requires { IsFramed self.now.bytes }
        ensures { result.now ≡ self.now.bytes }
    {
        self.arrived()
    }

    /// Returns the encoding of the message that is heard for a frame that is not read.
    pub(crate) fn stand_in(&self) -> &[u8]
        ensures { (r : Reading) → Spells r (stand_in (kind_named (head_of self.now.bytes))) result.now }
    {
        stand_in(kind_named(self.head()))
    }

    fn arrived(&self) -> &[u8]
        ensures { result.now ≡ self.now.bytes }
    {
        &self.room[..self.size]
    }

    /// Appends bytes for which there is capacity.
    #[inline(always)]
    pub fn put(&mut self, bytes: &[u8])
        requires { length self.old.bytes + length bytes.now ≤ self.old.room }
        ensures bytes { self.new.bytes ≡ self.old.bytes ++ bytes.now }
        ensures room { self.new.room ≡ self.old.room }
    {
        let at = self.size;
        // A peer that sends byte by byte costs no call for each.
        if let [byte] = bytes {
            self.room[at] = *byte;
            self.size = at + 1;
            return;
        }
        let end = at + bytes.len();
        self.room[at..end].copy_from_slice(bytes);
        self.size = end;
    }

    /// Keeps the first `count` bytes, and the capacity.
    #[inline(always)]
    pub fn cut(&mut self, count: usize)
        requires { count ≤ length self.old.bytes }
        ensures bytes { self.new.bytes ≡ take count self.old.bytes }
        ensures room { self.new.room ≡ self.old.room }
    {
        self.size = count;
    }

    /// Takes the last bytes of a message that is refused. From then on no byte of it is held, and `refused` returns it.
    #[cold]
    #[inline(never)]
    pub(crate) fn refuse(&mut self, last: &[u8])
        requires { length self.old.bytes + length last.now ≤ self.old.room }
        ensures bytes { self.new.bytes ≡ [] }
        ensures refused { self.new.refused ≡ self.old.bytes ++ last.now }
        ensures room { self.new.room ≡ self.old.room }
    {
        self.put(last);
        self.refused = self.size;
        self.size = 0;
    }

    /// Returns the bytes of the message that `refuse` was called for, until bytes are added.
    pub(crate) fn refused(&self) -> &[u8]
        ensures { result.now ≡ self.now.refused }
    {
        &self.room[..self.refused]
    }

    /// Returns the number of bytes.
    #[inline(always)]
    pub fn len(&self) -> usize
        ensures { result ≡ length self.now.bytes }
    {
        self.size
    }

    /// Returns the bytes.
    pub(crate) fn bytes(&self) -> &[u8]
        ensures { result.now ≡ self.now.bytes }
    {
        &self.room[..self.size]
    }

    /// Returns the bytes of a complete message.
    #[inline(always)]
    pub fn spelled(&self) -> &[u8]
        requires { MessageBytes self.now.bytes }
        ensures { result.now ≡ self.now.bytes }
    {
        &self.room[..self.size]
    }
}

/// Raises the capacity to at least `least` bytes, and at least doubles it if it has to grow.
#[cold]
fn grow(room: &mut Vec<u8>, least: usize) -> Result<(), AllocError>
    ensures ok { OnOk result ((least ≤ length room.new.items)
        × (take (length room.old.items) room.new.items ≡ room.old.items)) }
    ensures err { OnErr result ((room.new.items ≡ room.old.items) × (length room.old.items < least)) }
{
    if least <= room.len() {
        return Ok(());
    }
    room.resize(
        least.max(FIRST_CAPACITY).max(room.len().saturating_mul(2)),
        0,
    )
}
