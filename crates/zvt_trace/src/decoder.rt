//! The line between a till and its terminal, whose bytes become events.
ghost use Rattle.std.specs.Prelude.{◌≡◌, OnOk};
ghost use Rattle.zvt_grammar.specs.Lengths.{reading_of};
ghost use Rattle.zvt_trace.specs.Decoding.{IsLine, Stands, line_reading, line_scope};
ghost use Rattle.zvt_trace.specs.Emitting.{LineEnds};
ghost use Rattle.zvt_trace.specs.Listening.{EmitsEnd, EmitsLine};
ghost use Rattle.zvt_trace.specs.Meanings as meaning;
ghost use Rattle.zvt_trace.specs.Trace.{Sides, new_line};

use crate::direction::Direction;
use crate::emit::WalkOptions;
use crate::feed::Piece;
use crate::listener::{Listener, ListenerError, Scope};
use crate::walker::BothSides;
use std::alloc::Global;
use zvt_grammar::Lengths;

/// Takes the bytes of both sides of a line, however they are cut, and emits the events that they make.
#[derive(Drop)]
pub struct Line {
    options: WalkOptions,
    sides: BothSides,
}

impl Line {
    /// Creates a line on which nothing was sent. A refusal leaves as much unread as the scope says. The messages have
    /// such lengths.
    pub fn new(alloc: Global, scope: Scope, lengths: Lengths) -> Line
        ensures stands { Stands result new_line }
        ensures reading { line_reading result ≡ reading_of lengths }
        ensures scope { line_scope result ≡ scope }
        ensures sound { IsLine result }
    {
        Line {
            options: WalkOptions {
                alloc,
                scope,
                lengths,
            },
            sides: BothSides::new(alloc, lengths),
        }
    }

    /// Emits the events of bytes that this side sent at once, with this number. After a fault, do not use the line
    /// again.
    pub fn take<L: Listener>(
        &mut self,
        listener: &mut L,
        number: u64,
        from: Direction,
        bytes: &[u8],
    ) -> Result<(), ListenerError>
        requires { IsLine self.old }
        ensures emits { (sides : Sides) → Stands self.old sides → EmitsLine (line_reading self.old) L.hears L.fails
            (line_scope self.old) number (meaning.piece from bytes.now) sides self.new.sides listener.old
            listener.new result }
        ensures sound { OnOk result (IsLine self.new) }
        ensures options { self.new.options ≡ self.old.options }
    {
        let piece = Piece {
            bytes,
            undecoded: &[],
        };
        self.sides
            .feed_piece(listener, &self.options, number, from, piece)
    }

    /// Emits which messages are cut off because the connection was lost, and that it was, with this number. Both sides
    /// begin anew.
    pub fn lose<L: Listener>(&mut self, listener: &mut L, number: u64) -> Result<(), ListenerError>
        ensures emits { (sides : Sides) → Stands self.old sides → EmitsLine (line_reading self.old) L.hears L.fails
            (line_scope self.old) number meaning.lost sides self.new.sides listener.old listener.new result }
        ensures sound { OnOk result (IsLine self.new) }
        ensures options { self.new.options ≡ self.old.options }
    {
        self.sides.lose(listener, &self.options, number)
    }

    /// Emits the messages that the end of the line cuts off, with this number.
    pub fn finish<L: Listener>(&self, listener: &mut L, number: u64) -> Result<(), ListenerError>
        ensures emits { (sides : Sides) → Stands self.now sides → EmitsEnd L.hears L.fails
            (LineEnds (line_reading self.now) number sides) 2 listener.old listener.new result }
    {
        self.sides.emit_end(listener, number)
    }
}
