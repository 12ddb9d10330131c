//! What the time marks of a trace say about a day.
ghost use Rattle.std.specs.Prelude.{◌≡◌, ◌++◌, IfOk, OnOk};
ghost use Rattle.zvt_report.specs.Times.{back_line, back_note, bad_line, bad_note, clock_notes, first_line, from_words};
ghost use Rattle.zvt_report.specs.Times.{have_times, last_of, later_date, to_words};
ghost use Rattle.zvt_report.specs.Times.{span_of, span_words, time_column, time_first, timed_day};
ghost use Rattle.zvt_report.specs.Times.{timed_row, timed_rows, times_in};

use crate::amounts::count;
use crate::books::DayBooks;
use crate::rows::OrderRow;
use crate::zones::{Zone, write_zone};
use std::alloc::{AllocError, Global};
use zvt_text::Text;
use zvt_trace::{Moment, Moments, Timed, time_at, went_back};

/// What the time marks of a trace say about the trace as a whole.
#[derive(Clone, Copy)]
pub struct Times {
    /// The zone of the moments.
    pub zone: Zone,
    /// The moments of the first and of the last line that has one.
    pub span: Option<(Moment, Moment)>,
    /// The first line whose moment is before the moment of the line above it that has one.
    pub went_back: Option<u64>,
    /// The number of time marks that can't be read.
    pub bad: usize,
    /// The line of the first of them.
    pub first_bad: Option<u64>,
}

/// Returns the last of these lines. `first` is the one before them.
fn last_of(first: &Timed, later: &[Timed]) -> Timed
    ensures { result ≡ last_of first.now later.now }
{
    let mut last = *first;
    let mut rest = later;
    'times: while let [next, more @ ..] = rest {
        last = *next;
        rest = more;
    }
    last
}

/// Returns the moments of the first and of the last line, if there is one.
fn span_of(zone: Zone, times: &[Timed]) -> Option<(Moment, Moment)>
    ensures { result ≡ span_of zone times.now }
{
    match times {
        [first, later @ ..] => {
            let last = last_of(first, later);
            Some((zone.show(&first.moment), zone.show(&last.moment)))
        }
        [] => None,
    }
}

/// Returns the first of these lines.
fn first_line(lines: &[u64]) -> Option<u64>
    ensures { result ≡ first_line lines.now }
{
    match lines {
        [line, ..] => Some(*line),
        [] => None,
    }
}

/// Returns what the moments of a trace say about it, on the clock of this zone.
pub(crate) fn times_in(zone: Zone, moments: &Moments) -> Times
    ensures { result ≡ times_in zone moments.now.times.items moments.now.bad.items }
{
    let times = moments.times.as_slice();
    Times {
        zone,
        span: span_of(zone, times),
        went_back: went_back(times),
        bad: moments.bad.len(),
        first_bad: first_line(moments.bad.as_slice()),
    }
}

/// Returns the time of an order, if its first line has one.
fn time_of(zone: Zone, times: &[Timed], row: &OrderRow) -> Option<Moment>
    ensures { result ≡ (timed_row zone times.now row.now).time }
{
    match time_at(times, row.first) {
        Some(moment) => Some(zone.show(&moment)),
        None => None,
    }
}

/// Returns the row of an order with its time.
fn timed_row(zone: Zone, times: &[Timed], row: &OrderRow) -> OrderRow
    ensures { result ≡ timed_row zone times.now row.now }
{
    OrderRow {
        order: row.order,
        first: row.first,
        last: row.last,
        outcome: row.outcome,
        approval: row.approval,
        time: time_of(zone, times, row),
        card: row.card,
    }
}

/// Returns the rows of orders with their times.
fn timed_rows(
    alloc: Global,
    zone: Zone,
    times: &[Timed],
    rows: &[OrderRow],
) -> Result<Vec<OrderRow>, AllocError>
    ensures { IfOk result (λ found. found.items ≡ timed_rows zone times.now rows.now) }
{
    let mut found = Vec::new(alloc);
    let mut rest = rows;
    'rows: while let [row, later @ ..] = rest {
        found.push(timed_row(zone, times, row))?;
        rest = later;
    }
    Ok(found)
}

/// Returns a day whose orders have their times, on the clock of this zone.
pub(crate) fn timed_day(
    alloc: Global,
    zone: Zone,
    times: &[Timed],
    books: DayBooks,
) -> Result<DayBooks, AllocError>
    ensures { IfOk result (λ new. new ≡ timed_day zone times.now books) }
{
    let orders = timed_rows(alloc, zone, times, books.orders.as_slice())?;
    Ok(DayBooks {
        book: books.book,
        unclear: books.unclear,
        orders,
    })
}

/// Returns whether an order has a time.
pub(crate) fn have_times(rows: &[OrderRow]) -> bool
    ensures { result ≡ have_times rows.now }
{
    rows.iter().any(|row| row.time.is_some())
}

/// Writes the date of the second moment, unless it is the date of the first.
fn later_date(text: &mut Text, from: &Moment, to: &Moment) -> Result<(), AllocError>
    ensures { OnOk result (text.new ≡ text.old ++ later_date from.now to.now) }
{
    if from.year == to.year && (from.month == to.month && from.day == to.day) {
        return Ok(());
    }
    text.word(&to.date())?;
    text.push(b' ')
}

/// Writes the date and the time of a moment.
#[tactic(auto, unfolding(crate::specs::Times::from_words))]
fn from_words(text: &mut Text, from: &Moment) -> Result<(), AllocError>
    ensures { OnOk result (text.new ≡ text.old ++ from_words from.now) }
{
    text.word(&from.date())?;
    text.push(b' ')?;
    text.word(&from.clock())
}

/// Writes the time of a moment, its date if that is not the date of the earlier one, and the zone.
#[tactic(auto, unfolding(crate::specs::Times::to_words))]
fn to_words(text: &mut Text, zone: Zone, from: &Moment, to: &Moment) -> Result<(), AllocError>
    ensures { OnOk result (text.new ≡ text.old ++ to_words zone from.now to.now) }
{
    later_date(text, from, to)?;
    text.word(&to.clock())?;
    text.push(b' ')?;
    write_zone(text, zone)
}

/// Writes the day and the hours between two moments.
#[tactic(auto, unfolding(crate::specs::Times::span_words))]
pub(crate) fn span_words(
    text: &mut Text,
    zone: Zone,
    from: &Moment,
    to: &Moment,
) -> Result<(), AllocError>
    ensures { OnOk result (text.new ≡ text.old ++ span_words zone from.now to.now) }
{
    from_words(text, from)?;
    text.word(b" to ")?;
    to_words(text, zone, from, to)
}

/// Writes at which line the clock went back.
fn back_line(text: &mut Text, line: u64) -> Result<(), AllocError>
    ensures { OnOk result (text.new ≡ text.old ++ back_line line) }
{
    text.word(b"The clock of the time marks goes back at line ")?;
    text.number(line)?;
    text.word(b".\n")
}

/// Writes at which line the clock went back, if it did.
#[tactic(auto, unfolding(crate::specs::Times::back_note))]
fn back_note(text: &mut Text, line: Option<u64>) -> Result<(), AllocError>
    ensures { OnOk result (text.new ≡ text.old ++ back_note line) }
{
    match line {
        Some(line) => back_line(text, line),
        None => Ok(()),
    }
}

/// Writes how many time marks can't be read, and the line of the first.
fn bad_line(text: &mut Text, bad: usize, line: u64) -> Result<(), AllocError>
    ensures { OnOk result (text.new ≡ text.old ++ bad_line bad line) }
{
    count(text, bad, b"time mark")?;
    text.word(b" cannot be read: see line ")?;
    text.number(line)?;
    text.word(b".\n")
}

/// Writes how many time marks can't be read, and the line of the first, if there is one.
#[tactic(auto, unfolding(crate::specs::Times::bad_note))]
fn bad_note(text: &mut Text, bad: usize, first: Option<u64>) -> Result<(), AllocError>
    ensures { OnOk result (text.new ≡ text.old ++ bad_note bad first) }
{
    match first {
        Some(line) => bad_line(text, bad, line),
        None => Ok(()),
    }
}

/// Writes what is wrong with the time marks.
#[tactic(auto, unfolding(crate::specs::Times::clock_notes))]
pub(crate) fn clock_notes(text: &mut Text, times: &Times) -> Result<(), AllocError>
    ensures { OnOk result (text.new ≡ text.old ++ clock_notes times.now) }
{
    back_note(text, times.went_back)?;
    bad_note(text, times.bad, times.first_bad)
}

/// Writes the time of day in its column, and a dash if there is none.
#[tactic(auto, unfolding(crate::specs::Times::time_column))]
pub(crate) fn time_column(text: &mut Text, time: &Option<Moment>) -> Result<(), AllocError>
    ensures { OnOk result (text.new ≡ text.old ++ time_column time.now) }
{
    match time {
        Some(time) => {
            text.word(b"  ")?;
            text.word(&time.clock())
        }
        None => text.word(b"  -       "),
    }
}

/// Writes the time of day before other words in a bracket, if there is one.
#[tactic(auto, unfolding(crate::specs::Times::time_first))]
pub(crate) fn time_first(text: &mut Text, time: &Option<Moment>) -> Result<(), AllocError>
    ensures { OnOk result (text.new ≡ text.old ++ time_first time.now) }
{
    match time {
        Some(time) => {
            text.word(&time.clock())?;
            text.word(b", ")
        }
        None => Ok(()),
    }
}
