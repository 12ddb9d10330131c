//! The walk over a whole trace, and both sides of its line.
ghost use Rattle.std.specs.Prelude.{◌≡◌, ◌<◌, ◌≤◌, ◌+◌, ◌*◌, ◌++◌, [], ℕ, List, length, IfOk, OnOk};
ghost use Rattle.std.specs.Borrow.{sem};
ghost use Rattle.std.specs.Str.Lines.{lines};
ghost use Rattle.zvt_grammar.specs.Reading.{Reading};
ghost use Rattle.zvt_grammar.specs.Lengths.{reading_of};
ghost use Rattle.zvt_trace.specs.Meanings.{GoesOn, Reads, SpellsBytes, bytes_in, meant_by};
ghost use Rattle.zvt_trace.specs.Meanings as meaning;
ghost use Rattle.zvt_trace.specs.Lending.{LendsSide, side_of};
ghost use Rattle.zvt_trace.specs.Trace.{Sides, new_line};
ghost use Rattle.zvt_trace.specs.Emitting.{LineEnds};
ghost use Rattle.zvt_trace.specs.TraceEvent.{At};
ghost use Rattle.zvt_trace.specs.Listening.{AnswersFrom, AnswersWalk, EmitsEnd, EmitsLine, FollowBoth, HasWalked};
ghost use Rattle.zvt_trace.specs.Listening.{IsSound, TakeBy, WalksFirst, WalksLine, WalksOn, most, reading_by};
ghost use Rattle.zvt_trace.specs.Listening.{scope_of};
ghost use Rattle.zvt_trace.specs.Lines.{piece_text};
ghost use Rattle.zvt_trace.specs.Written.{limit};

use crate::both::Both;
use crate::direction::Direction;
use crate::emit::{WalkOptions, emit_truncation, emit_unread};
use crate::event::TraceEvent;
use crate::fault::{Tally, TraceFault, TraceLineError};
use crate::feed::{Piece, feed_piece};
use crate::line::{CHUNK, Plain, TraceLine, plain_piece, read_line};
use crate::lines::next_line;
use crate::listener::{Listener, ListenerError, Scope};
use crate::side::SideReader;
use std::alloc::Global;
use zvt_grammar::Lengths;

/// Reads a trace line by line and passes each event to the listener, including messages that are cut off by its end.
/// `lengths` selects strict or padded lengths.
///
/// Stops at the first line that is not valid, without an event for it. Returns the number of messages and of bad
/// streams, which have invalid or incomplete messages. If the walk fails, the listener has heard every event of the
/// lines before, and the first few of the current line.
pub fn walk<L: Listener>(
    listener: &mut L,
    alloc: Global,
    scope: Scope,
    lengths: Lengths,
    trace: &[u8],
) -> Result<Tally, TraceFault>
    requires { length trace.now ≤ limit }
    ensures { AnswersWalk (reading_of lengths) L.hears L.fails scope (lines trace.now) listener.old
        listener.new result }
{
    let mut progress = Progress::new(alloc, scope, lengths);
    progress.read_lines(listener, trace)?;
    progress.finish(listener)
}

/// The state of a walk: both sides, the number of the last line, the tally of all lines, and their size in bytes.
#[derive(Drop)]
pub(crate) struct Progress {
    options: WalkOptions,
    sides: BothSides,
    number: u64,
    tally: Tally,
    size: u64,
}

impl Progress {
    /// Creates the state before the first line.
    pub(crate) fn new(alloc: Global, scope: Scope, lengths: Lengths) -> Progress
        ensures walked { HasWalked (reading_of lengths) scope [] [] result }
        ensures sound { IsSound result }
        ensures reading { result.options.lengths ≡ lengths }
        ensures scope { result.options.scope ≡ scope }
        ensures size { result.size ≡ 0 }
    {
        Progress {
            options: WalkOptions {
                alloc,
                scope,
                lengths,
            },
            sides: BothSides::new(alloc, lengths),
            number: 0,
            tally: Tally::none(),
            size: 0,
        }
    }

    /// Returns the size of all lines, in bytes.
    pub(crate) fn size(&self) -> u64
        ensures { result ≡ self.now.size }
    {
        self.size
    }

    /// Emits the events of all lines of the text.
    pub(crate) fn read_lines<L: Listener>(
        &mut self,
        listener: &mut L,
        text: &[u8],
    ) -> Result<(), TraceFault>
        requires sound { IsSound self.old }
        requires fits { self.old.size + length text.now ≤ most }
        ensures walks { (before : List (List ℕ)) (earlier : List At) → HasWalked (reading_by self.old)
            (scope_of self.old) before earlier self.old → WalksOn (reading_by self.old) L.hears L.fails
            (scope_of self.old) (before ++ lines text.now) earlier self.new listener.old listener.new result }
        ensures sound { OnOk result (IsSound self.new) }
        ensures size { OnOk result (self.new.size ≡ self.old.size + length text.now) }
        ensures options { self.new.options ≡ self.old.options }
    {
        let options = self.options;
        let mut number = self.number;
        let mut both = Both {
            first: self.tally,
            second: listener,
        };
        let mut buffer = [0; CHUNK];
        let mut rest = text;
        'lines: while !rest.is_empty() {
            number += 1;
            let sides = &mut self.sides;
            let Some(plain) = plain_piece(&mut buffer, rest) else {
                rest = emit_other(&mut both, &options, sides, number, &mut buffer, rest)?;
                continue 'lines;
            };
            let Plain { from, count, after } = plain;
            let piece = Piece {
                bytes: &buffer[..count],
                undecoded: &[],
            };
            sides.feed_piece(&mut both, &options, number, from, piece)?;
            rest = after;
        }
        self.number = number;
        self.tally = both.first;
        self.size += text.len() as u64;
        Ok(())
    }

    /// Emits the events of the line that spells these bytes of a side.
    pub(crate) fn take<L: Listener>(
        &mut self,
        listener: &mut L,
        from: Direction,
        bytes: &[u8],
    ) -> Result<(), TraceFault>
        requires sound { IsSound self.old }
        requires fits { self.old.size + (2 * length bytes.now + 3) ≤ most }
        ensures walks { (before : List (List ℕ)) (earlier : List At) → HasWalked (reading_by self.old)
            (scope_of self.old) before earlier self.old → WalksOn (reading_by self.old) L.hears L.fails
            (scope_of self.old) (before ++ lines (piece_text from bytes.now)) earlier self.new listener.old
            listener.new result }
        ensures sound { OnOk result (IsSound self.new) }
        ensures size { OnOk result (self.new.size ≡ self.old.size + (2 * length bytes.now + 3)) }
        ensures options { self.new.options ≡ self.old.options }
    {
        let options = self.options;
        let number = self.number + 1;
        let mut both = Both {
            first: self.tally,
            second: listener,
        };
        let line = TraceLine::Piece {
            from,
            bytes,
            undecoded: &[],
        };
        emit_line(&mut both, &options, &mut self.sides, number, Ok(line))?;
        self.number = number;
        self.tally = both.first;
        self.size += 2 * bytes.len() as u64 + 3;
        Ok(())
    }

    /// Emits the messages that the end of the trace cuts off, and returns the tally.
    pub(crate) fn finish<L: Listener>(self, listener: &mut L) -> Result<Tally, TraceFault>
        requires sound { IsSound self }
        ensures { (before : List (List ℕ)) (earlier : List At) → HasWalked (reading_by self) (scope_of self) before
            earlier self → AnswersFrom (reading_by self) L.hears L.fails (scope_of self) before earlier listener.old
            listener.new result }
    {
        let mut both = Both {
            first: self.tally,
            second: listener,
        };
        self.sides.emit_end(&mut both, self.number)?;
        Ok(both.first)
    }
}

/// Emits the events of the first line of the text, in any form, and returns the rest of the text.
#[inline(never)]
fn emit_other<'t, L: Listener>(
    listener: &mut L,
    options: &WalkOptions,
    sides: &mut BothSides,
    number: u64,
    buffer: &mut [u8],
    rest: &'t [u8],
) -> Result<&'t [u8], TraceFault>
    requires reading { TakeBy (reading_of options.now.lengths) sides.old }
    requires some { 0 < length rest.now }
    ensures reading { OnOk result (TakeBy (reading_of options.now.lengths) sides.new) }
    ensures emits { (state : Sides) → FollowBoth (reading_of options.now.lengths) sides.old state
        → WalksFirst (λ after. after.now) (reading_of options.now.lengths) L.hears L.fails options.now.scope number
        rest.now state sides.new listener.old listener.new result }
    ensures less { IfOk result (λ after. length after.now < length rest.now) }
    ensures size { length buffer.new ≡ length buffer.old }
{
    let (line, after) = next_line(rest);
    emit_line(listener, options, sides, number, read_line(buffer, line))?;
    Ok(after)
}

/// Emits the events of the line with this number, or returns its fault.
fn emit_line<L: Listener>(
    listener: &mut L,
    options: &WalkOptions,
    sides: &mut BothSides,
    number: u64,
    read: Result<TraceLine<'_, '_>, TraceLineError>,
) -> Result<(), TraceFault>
    requires reading { TakeBy (reading_of options.now.lengths) sides.old }
    requires read { (content : List ℕ) × Reads content read }
    ensures reading { OnOk result (TakeBy (reading_of options.now.lengths) sides.new) }
    ensures emits { (content : List ℕ) → Reads content read.entry → (state : Sides)
        → FollowBoth (reading_of options.now.lengths) sides.old state → WalksLine (reading_of options.now.lengths)
        L.hears L.fails options.now.scope number content state sides.new listener.old listener.new result }
{
    let line = match read {
        Ok(line) => line,
        Err(what) => return Err(TraceFault::Trace { line: number, what }),
    };
    // Through a listener lent once more, as in `feed_piece`.
    let mut lent = listener;
    sides.emit(&mut lent, options, number, &line)?;
    Ok(())
}

/// Both sides of the line. After a refusal that stops both, neither is fed.
#[derive(Drop)]
pub(crate) struct BothSides {
    till: SideReader,
    terminal: SideReader,
    rejected: bool,
}

impl BothSides {
    /// Creates both sides of a new line.
    pub(crate) fn new(alloc: Global, lengths: Lengths) -> BothSides
        ensures follows { FollowBoth (reading_of lengths) result new_line }
        ensures reading { TakeBy (reading_of lengths) result }
    {
        BothSides {
            till: SideReader::new(alloc, lengths),
            terminal: SideReader::new(alloc, lengths),
            rejected: false,
        }
    }

    /// Returns the reader of this side.
    #[inline(always)]
    fn side(&mut self, from: Direction) -> &mut SideReader
        ensures* writes_back { sem 𝓛 (LendsSide self.entry from result) }
        ensures value { result.now ≡ side_of from self.old }
    {
        match from {
            Direction::FromTill => &mut self.till,
            Direction::FromTerminal => &mut self.terminal,
        }
    }

    /// Emits the events of the line with this number.
    fn emit<L: Listener>(
        &mut self,
        listener: &mut L,
        options: &WalkOptions,
        number: u64,
        line: &TraceLine<'_, '_>,
    ) -> Result<(), ListenerError>
        requires reading { TakeBy (reading_of options.now.lengths) self.old }
        requires goes_on { GoesOn line.now }
        ensures reading { OnOk result (TakeBy (reading_of options.now.lengths) self.new) }
        ensures emits { (sides : Sides) → FollowBoth (reading_of options.now.lengths) self.old sides
            → EmitsLine (reading_of options.now.lengths) L.hears L.fails options.now.scope number (meant_by line.now)
            sides self.new listener.old listener.new result }
    {
        match line {
            TraceLine::Comment => Ok(()),
            TraceLine::Piece {
                from,
                bytes,
                undecoded,
            } => {
                let piece = Piece { bytes, undecoded };
                self.feed_piece(listener, options, number, *from, piece)
            }
            TraceLine::Lost => self.lose(listener, options, number),
        }
    }

    /// Emits the messages that the loss of the connection cuts off, and then the loss. Both sides start afresh.
    pub(crate) fn lose<L: Listener>(
        &mut self,
        listener: &mut L,
        options: &WalkOptions,
        number: u64,
    ) -> Result<(), ListenerError>
        ensures reading { OnOk result (TakeBy (reading_of options.now.lengths) self.new) }
        ensures emits { (sides : Sides) → FollowBoth (reading_of options.now.lengths) self.old sides
            → EmitsLine (reading_of options.now.lengths) L.hears L.fails options.now.scope number meaning.lost sides
            self.new listener.old listener.new result }
    {
        self.emit_end(listener, number)?;
        listener.hear(number, &TraceEvent::Lost)?;
        *self = BothSides::new(options.alloc, options.lengths);
        Ok(())
    }

    /// Emits the events of a piece.
    #[inline(always)]
    pub(crate) fn feed_piece<L: Listener>(
        &mut self,
        listener: &mut L,
        options: &WalkOptions,
        line: u64,
        from: Direction,
        piece: Piece<'_>,
    ) -> Result<(), ListenerError>
        requires reading { TakeBy (reading_of options.now.lengths) self.old }
        requires spelled { SpellsBytes piece.undecoded.now }
        ensures reading { OnOk result (TakeBy (reading_of options.now.lengths) self.new) }
        ensures emits { (sides : Sides) → FollowBoth (reading_of options.now.lengths) self.old sides
            → EmitsLine (reading_of options.now.lengths) L.hears L.fails options.now.scope line
            (meaning.piece from (bytes_in piece.entry)) sides self.new listener.old listener.new result }
    {
        if self.rejected {
            return emit_unread(listener, line, from);
        }
        let reader = self.side(from);
        feed_piece(listener, options, line, from, reader, piece)?;
        if reader.has_stopped() && options.scope == Scope::WholeLine {
            let other = match from {
                Direction::FromTill => &self.terminal,
                Direction::FromTerminal => &self.till,
            };
            emit_truncation(listener, line, from.other(), &other.stream)?;
            self.rejected = true;
        }
        Ok(())
    }

    /// Emits the messages that the end of the line cuts off.
    pub(crate) fn emit_end<L: Listener>(
        &self,
        listener: &mut L,
        number: u64,
    ) -> Result<(), ListenerError>
        ensures { (r : Reading) (sides : Sides) → FollowBoth r self.now sides → EmitsEnd L.hears L.fails
            (LineEnds r number sides) 2 listener.old listener.new result }
    {
        if self.rejected {
            return Ok(());
        }
        emit_truncation(listener, number, Direction::FromTill, &self.till.stream)?;
        emit_truncation(
            listener,
            number,
            Direction::FromTerminal,
            &self.terminal.stream,
        )
    }
}
