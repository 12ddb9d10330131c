//! The lines that are not read after a refusal.
ghost use Rattle.std.specs.Prelude.{◌≡◌, ◌++◌, [], ◌∷◌, ℕ, List, OnOk};
ghost use Rattle.zvt_trace.specs.TraceEvent.{At, on};
ghost use Rattle.zvt_trace.specs.TraceEvent as trace_event;
ghost use Rattle.zvt_show.specs.Notes.{advice, counted_side, last_text, side_mark, unread_count, unread_note};
ghost use Rattle.zvt_show.specs.Notes.{unread_of};
ghost use Rattle.zvt_show.specs.Noting.{CountsAfter, one_more};

use crate::diagnostics::plural::put_many;
use std::alloc::AllocError;
use zvt_text::Text;
use zvt_trace::{Direction, Scope};

/// The number of lines of a trace that were not read, and the last such line.
#[derive(Clone, Copy)]
pub(crate) struct Unread {
    pub(crate) count: u64,
    pub(crate) last: u64,
}

impl Unread {
    /// Starts with every line read.
    fn none() -> Unread
        ensures { (result.count ≡ 0) × (result.last ≡ 0) }
    {
        Unread { count: 0, last: 0 }
    }

    /// Records a line that was not read.
    fn add(&mut self, line: u64)
        ensures { self.new ≡ one_more self.old line }
    {
        self.count = self.count.saturating_add(1);
        self.last = line;
    }

    /// Adds how many lines were not read.
    fn put(&self, text: &mut Text, scope: Scope, side: Direction) -> Result<(), AllocError>
        ensures { OnOk result (text.new ≡ text.old ++ unread_note scope side self.now.count self.now.last) }
    {
        if self.count == 0 {
            return Ok(());
        }
        put_count(text, self.count, scope, side)?;
        put_last(text, scope, self.last)
    }
}

/// Adds the number of lines, and the side if the other one is still read.
fn put_count(text: &mut Text, count: u64, scope: Scope, side: Direction) -> Result<(), AllocError>
    ensures { OnOk result (text.new ≡ text.old ++ unread_count scope side count) }
{
    text.word(b"zvt: ")?;
    put_many(text, count, b"line")?;
    put_mark(text, scope, side)
}

/// Adds the last line, and how to read on.
fn put_last(text: &mut Text, scope: Scope, last: u64) -> Result<(), AllocError>
    ensures { OnOk result (text.new ≡ text.old ++ last_text scope last) }
{
    text.word(b" not read after that, up to line ")?;
    text.number(last)?;
    put_advice(text, scope)?;
    text.push(b'\n')
}

/// Adds how to read on, if a refusal leaves more than its message unread.
fn put_advice(text: &mut Text, scope: Scope) -> Result<(), AllocError>
    ensures { OnOk result (text.new ≡ text.old ++ advice scope) }
{
    match scope {
        Scope::OneMessage => Ok(()),
        Scope::OneSide | Scope::WholeLine => {
            text.word(b": 'show', 'audit' and 'receipts' read on with --open")
        }
    }
}

/// Adds the side, if the other one is still read.
fn put_mark(text: &mut Text, scope: Scope, side: Direction) -> Result<(), AllocError>
    ensures { OnOk result (text.new ≡ text.old ++ side_mark scope side) }
{
    match scope {
        Scope::OneMessage | Scope::OneSide => {
            text.word(b" of ")?;
            text.word(side.sign().as_bytes())
        }
        Scope::WholeLine => Ok(()),
    }
}

/// The lines of each side that are not read. If a refusal stops the reading of both sides, they are counted together.
#[derive(Clone, Copy)]
pub(crate) struct SkippedLines {
    till: Unread,
    terminal: Unread,
}

impl SkippedLines {
    /// Starts with every line of both sides read.
    pub(crate) fn nothing() -> SkippedLines
        ensures { (scope : _) → CountsAfter scope result [] }
    {
        SkippedLines {
            till: Unread::none(),
            terminal: Unread::none(),
        }
    }

    /// Records a piece that was not read.
    pub(crate) fn add(&mut self, scope: Scope, line: u64, from: Direction)
        ensures { (events : List At) → CountsAfter scope self.old events → CountsAfter scope self.new
            (events ++ on line (trace_event.unread from) ∷ []) }
    {
        match counted_side(scope, from) {
            Direction::FromTill => self.till.add(line),
            Direction::FromTerminal => self.terminal.add(line),
        }
    }

    /// Adds what was not read, first of the till and then of the terminal.
    pub(crate) fn put(&self, text: &mut Text, scope: Scope) -> Result<(), AllocError>
        ensures { (events : List At) → CountsAfter scope self.now events
            → OnOk result (text.new ≡ text.old ++ unread_of scope events) }
    {
        self.till.put(text, scope, Direction::FromTill)?;
        self.terminal.put(text, scope, Direction::FromTerminal)
    }
}

/// Returns the side for which an unread piece is counted.
fn counted_side(scope: Scope, from: Direction) -> Direction
    ensures { result ≡ counted_side scope from }
{
    match scope {
        Scope::OneMessage | Scope::OneSide => from,
        Scope::WholeLine => Direction::FromTill,
    }
}
