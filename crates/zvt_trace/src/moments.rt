//! The moments of a trace's lines.
ghost use Rattle.std.specs.Prelude.{◌≡◌, ◌++◌, IfOk, option_map};
ghost use Rattle.std.specs.Str.Lines.{lines};
ghost use Rattle.zvt_trace.specs.Moments.{after_order, bad_line, bad_marks_of, begins_mark, comment_time, is_bad_mark};
ghost use Rattle.zvt_trace.specs.Moments.{is_comment, line_times, mark_after, moment_to_second, order_time};
ghost use Rattle.zvt_trace.specs.Moments.{time_at, times_of, went_back, without_word};

use crate::lines::next_line;
use crate::moment::Moment;
use std::alloc::{AllocError, Global};
use zvt_text::words::{size_before, trailing};

/// A line of a trace, counted from 1, and its moment.
#[derive(Clone, Copy, Debug, PartialEq, Eq)]
pub struct Timed {
    pub line: u64,
    pub moment: Moment,
}

/// The moments of a trace's lines. A comment line that is a time mark, or that begins the record of an order in a book
/// and has a time, belongs to the next line that is not a comment.
#[derive(Drop)]
pub struct Moments {
    /// The lines that have a moment, in their order.
    pub times: Vec<Timed>,
    /// The lines that begin with `#@` and are no marks, in their order.
    pub bad: Vec<u64>,
}

/// Returns the moments of a trace's lines.
pub fn moments_of(alloc: Global, trace: &[u8]) -> Result<Moments, AllocError>
    ensures times { IfOk result (λ found. found.times.items ≡ times_of (lines trace.now)) }
    ensures bad { IfOk result (λ found. found.bad.items ≡ bad_marks_of (lines trace.now)) }
{
    let mut times = Vec::new(alloc);
    let mut bad = Vec::new(alloc);
    let mut mark = None;
    let mut number = 0;
    let mut rest = trace;
    'lines: while !rest.is_empty() {
        let (line, after) = next_line(rest);
        number += 1;
        add_time(&mut times, number, &mark, line)?;
        add_bad(&mut bad, number, line)?;
        mark = mark_after(mark, line);
        rest = after;
    }
    Ok(Moments { times, bad })
}

/// Returns the moment of the line with this number, if it is one of these.
pub fn time_at(times: &[Timed], line: u64) -> Option<Moment>
    ensures { result ≡ time_at times.now line }
{
    let mut rest = times;
    'times: while let [first, later @ ..] = rest {
        if first.line == line {
            return Some(first.moment);
        }
        rest = later;
    }
    None
}

/// Returns the first of these lines at which the clock went back: its moment is before the moment of the line above it
/// that has one.
pub fn went_back(times: &[Timed]) -> Option<u64>
    ensures { result ≡ went_back times.now }
{
    let [first, later @ ..] = times else {
        return None;
    };
    let mut before = first.moment;
    let mut rest = later;
    'times: while let [next, more @ ..] = rest {
        if next.moment.instant() < before.instant() {
            return Some(next.line);
        }
        before = next.moment;
        rest = more;
    }
    None
}

/// Adds the line with this number, if it has a moment.
fn add_time(
    times: &mut Vec<Timed>,
    number: u64,
    mark: &Option<Moment>,
    line: &[u8],
) -> Result<(), AllocError>
    ensures { IfOk result (λ _. times.new.items ≡ times.old.items ++ line_times number mark.now line.now) }
{
    if is_comment(line) {
        return Ok(());
    }
    if let Some(moment) = mark {
        times.push(Timed {
            line: number,
            moment: *moment,
        })?;
    }
    Ok(())
}

/// Adds the line with this number, if it is a bad mark.
fn add_bad(bad: &mut Vec<u64>, number: u64, line: &[u8]) -> Result<(), AllocError>
    ensures { IfOk result (λ _. bad.new.items ≡ bad.old.items ++ bad_line number line.now) }
{
    if is_bad_mark(line) {
        bad.push(number)?;
    }
    Ok(())
}

/// Returns whether a line begins like a mark but is not one.
fn is_bad_mark(line: &[u8]) -> bool
    ensures { result ≡ is_bad_mark line.now }
{
    begins_mark(line) && Moment::of_mark(line).is_none()
}

/// Returns the mark for the next line.
fn mark_after(mark: Option<Moment>, line: &[u8]) -> Option<Moment>
    ensures { result ≡ mark_after mark line.now }
{
    if !is_comment(line) {
        return None;
    }
    match comment_time(line) {
        Some(next) => Some(next),
        None => mark,
    }
}

/// Returns the moment that a comment states for the next line: a time mark, or the time of an order in a book.
fn comment_time(line: &[u8]) -> Option<Moment>
    ensures { result ≡ comment_time line.now }
{
    match Moment::of_mark(line) {
        Some(moment) => Some(moment),
        None => order_time(line),
    }
}

/// Returns the time of an order from the first line of its record in a book, as `# pay 500 at 2026-11-28T09:14:03Z`.
fn order_time(line: &[u8]) -> Option<Moment>
    ensures { result ≡ order_time line.now }
{
    let words = trailing(b"# ", line)?;
    let rest = after_order(words)?;
    moment_to_second(trailing(b" at ", rest)?)
}

/// Returns what follows the words of an order.
fn after_order(words: &[u8]) -> Option<&[u8]>
    ensures { option_map (λ rest. rest.now) result ≡ after_order words.now }
{
    if let Some(rest) = trailing(b"register", words) {
        return Some(rest);
    }
    if let Some(rest) = trailing(b"close", words) {
        return Some(rest);
    }
    if let Some(rest) = trailing(b"cancel", words) {
        return Some(rest);
    }
    if let Some(number) = trailing(b"pay ", words) {
        return Some(without_word(number));
    }
    Some(without_word(trailing(b"reverse ", words)?))
}

/// Returns what follows the first word.
fn without_word(words: &[u8]) -> &[u8]
    ensures { result.now ≡ without_word words.now }
{
    words.split_at(size_before(b' ', words)).1
}

/// Reads a moment to the second at the beginning of a text, as `2026-11-28T09:14:03Z`.
fn moment_to_second(text: &[u8]) -> Option<Moment>
    ensures { result ≡ moment_to_second text.now }
{
    if text.len() < 20 {
        return None;
    }
    let mut mark = *b"#@ 0000-00-00T00:00:00Z";
    mark[3..].copy_from_slice(&text[..20]);
    Moment::of_mark(&mark)
}

/// Returns whether a line is a comment or empty.
fn is_comment(line: &[u8]) -> bool
    ensures { result ≡ is_comment line.now }
{
    match line {
        [] => true,
        [first, ..] => *first == b'#',
    }
}

/// Returns whether a line begins as a mark.
fn begins_mark(line: &[u8]) -> bool
    ensures { result ≡ begins_mark line.now }
{
    match line {
        [first, second, ..] => *first == b'#' && *second == b'@',
        _ => false,
    }
}
