//! Moments, and the lines of a trace that mark them.
ghost use Rattle.std.specs.Prelude.{◌≡◌, ◌≤◌, ◌<◌, ◌/◌, ◌%◌, ◌+◌, ◌++◌, length};
ghost use Rattle.zvt_trace.specs.Marks.{days_in_month, digit_at, fraction_text, has_form, is_leap_year, moment_in};
ghost use Rattle.zvt_trace.specs.Marks.{three_at, three_digits, two_at, two_digits};

use arrayvec::ArrayVec;
use zvt_text::words::fits;

/// The longest mark, without its `Z`. A 0 stands for any digit.
const FORM: &[u8] = b"#@ 0000-00-00T00:00:00.000000000";

/// The size of a mark without a fraction of a second.
const WHOLE_SECONDS: usize = 23;

/// A date and a time of day in UTC, to the nanosecond.
#[derive(Clone, Copy, Debug, PartialEq, Eq)]
pub struct Moment {
    pub year: u16,
    pub month: u8,
    pub day: u8,
    pub hour: u8,
    pub minute: u8,
    pub second: u8,
    pub nanosecond: u32,
}

impl Moment {
    ghost use Rattle.std.specs.Prelude.{◌≡◌, ◌≤◌, ◌++◌, length};
    ghost use Rattle.zvt_trace.specs.Marks.{clock_text, date_text, is_real, mark_of, mark_text, moment_text};
    ghost use Rattle.zvt_trace.specs.Moments.{instant};

    /// Reads a line without its line feed. Returns `None` unless it is a mark, as `#@ 2026-11-28T09:14:03.250Z`.
    pub fn of_mark(line: &[u8]) -> Option<Moment>
        ensures { result ≡ mark_of line.now }
    {
        if !has_form(line) {
            return None;
        }
        let moment = moment_in(line);
        if !moment.is_real() {
            return None;
        }
        Some(moment)
    }

    /// Returns whether the calendar has this date, in a year of four digits, and a clock shows this time.
    pub fn is_real(&self) -> bool
        ensures { result ≡ is_real self.now }
    {
        self.year < 10_000
            && (1 <= self.month && self.month <= 12)
            && (1 <= self.day && self.day <= days_in_month(self.year, self.month))
            && self.hour < 24
            && self.minute < 60
            && self.second < 60
            && self.nanosecond < 1_000_000_000
    }

    /// Returns the mark of this moment, as `#@ 2026-11-28T09:14:03.250Z`.
    pub fn mark(&self) -> ArrayVec<u8, 33>
        ensures { result.items ≡ mark_text self.now }
    {
        let mut mark = ArrayVec::new();
        add(&mut mark, b"#@ ");
        add(&mut mark, self.text().as_slice());
        mark
    }

    /// Returns the text of this moment, as `2026-11-28T09:14:03.250Z`: with milliseconds, and with nanoseconds only if
    /// they say more.
    pub fn text(&self) -> ArrayVec<u8, 33>
        ensures text { result.items ≡ moment_text self.now }
        ensures few { length result.items ≤ 30 }
    {
        let mut text = ArrayVec::new();
        add(&mut text, &self.date());
        add(&mut text, b"T");
        add(&mut text, &self.clock());
        add(&mut text, b".");
        add_fraction(&mut text, self.nanosecond);
        add(&mut text, b"Z");
        text
    }

    /// Returns a number that grows with time.
    pub(crate) fn instant(&self) -> u128
        ensures { result ≡ instant self.now }
    {
        let days = (u128::from(self.year) * 12 + u128::from(self.month)) * 31
            + u128::from(self.day);
        let minutes = (days * 24 + u128::from(self.hour)) * 60 + u128::from(self.minute);
        (minutes * 60 + u128::from(self.second)) * 1_000_000_000 + u128::from(self.nanosecond)
    }

    /// Returns the date, as `2026-11-28`.
    pub fn date(&self) -> [u8; 10]
        ensures { result ≡ date_text self.now }
    {
        let [thousand, century, decade, year] = four_digits(self.year);
        let [month, month_unit] = two_digits(self.month);
        let [day, day_unit] = two_digits(self.day);
        [
            thousand, century, decade, year, b'-', month, month_unit, b'-', day, day_unit,
        ]
    }

    /// Returns the time of day to the second, as `09:14:03`.
    pub fn clock(&self) -> [u8; 8]
        ensures { result ≡ clock_text self.now }
    {
        let [hour, hour_unit] = two_digits(self.hour);
        let [minute, minute_unit] = two_digits(self.minute);
        let [second, second_unit] = two_digits(self.second);
        [
            hour,
            hour_unit,
            b':',
            minute,
            minute_unit,
            b':',
            second,
            second_unit,
        ]
    }
}

/// Appends a part of a mark.
fn add(text: &mut ArrayVec<u8, 33>, part: &[u8])
    requires { length text.old.items + length part.now ≤ 33 }
    ensures { text.new.items ≡ text.old.items ++ part.now }
{
    let _ = text.try_extend_from_slice(part);
}

/// Appends the fraction of a second.
fn add_fraction(text: &mut ArrayVec<u8, 33>, nanosecond: u32)
    requires { length text.old.items ≤ 24 }
    ensures text { text.new.items ≡ text.old.items ++ fraction_text nanosecond }
    ensures few { length text.new.items ≤ length text.old.items + 9 }
{
    add(text, &three_digits(nanosecond / 1_000_000));
    if nanosecond % 1_000_000 != 0 {
        add(text, &three_digits(nanosecond / 1_000));
        add(text, &three_digits(nanosecond));
    }
}

/// Returns the last two digits of a number.
fn two_digits(number: u8) -> [u8; 2]
    ensures { result ≡ two_digits number }
{
    [b'0' + number / 10 % 10, b'0' + number % 10]
}

/// Returns the last four digits of a number.
fn four_digits(number: u16) -> [u8; 4]
    ensures { result ≡ two_digits (number / 100) ++ two_digits (number % 100) }
{
    [
        b'0' + (number / 1_000 % 10) as u8,
        b'0' + (number / 100 % 10) as u8,
        b'0' + (number / 10 % 10) as u8,
        b'0' + (number % 10) as u8,
    ]
}

/// Returns the last three digits of a number.
fn three_digits(number: u32) -> [u8; 3]
    ensures { result ≡ three_digits number }
{
    [
        b'0' + (number / 100 % 10) as u8,
        b'0' + (number / 10 % 10) as u8,
        b'0' + (number % 10) as u8,
    ]
}

/// Returns the number of days in a month.
fn days_in_month(year: u16, month: u8) -> u8
    ensures { result ≡ days_in_month year month }
{
    match month {
        2 if is_leap_year(year) => 29,
        2 => 28,
        4 | 6 | 9 | 11 => 30,
        _ => 31,
    }
}

fn is_leap_year(year: u16) -> bool
    ensures { result ≡ is_leap_year year }
{
    year % 4 == 0 && (year % 100 != 0 || year % 400 == 0)
}

/// Returns whether a line has the form of a mark.
fn has_form(line: &[u8]) -> bool
    ensures { result ≡ has_form line.now }
{
    let size = line.len();
    if size != WHOLE_SECONDS && (size < 25 || size > 33) {
        return false;
    }
    line[size - 1] == b'Z' && fits(&FORM[..size - 1], &line[..size - 1])
}

/// Returns the moment whose digits stand at their places of a line.
fn moment_in(line: &[u8]) -> Moment
    ensures { result ≡ moment_in line.now }
{
    Moment {
        year: u16::from(two_at(line, 3)) * 100 + u16::from(two_at(line, 5)),
        month: two_at(line, 8),
        day: two_at(line, 11),
        hour: two_at(line, 14),
        minute: two_at(line, 17),
        second: two_at(line, 20),
        nanosecond: three_at(line, 23) * 1_000_000
            + three_at(line, 26) * 1_000
            + three_at(line, 29),
    }
}

/// Returns the number that two digits spell.
fn two_at(line: &[u8], place: usize) -> u8
    requires { place ≤ 100 }
    ensures number { result ≡ two_at line.now place }
    ensures few { result < 100 }
{
    digit_at(line, place) * 10 + digit_at(line, place + 1)
}

/// Returns the number that three digits spell.
fn three_at(line: &[u8], place: usize) -> u32
    requires { place < 100 }
    ensures number { result ≡ three_at line.now place }
    ensures few { result < 1_000 }
{
    u32::from(digit_at(line, place)) * 100 + u32::from(two_at(line, place + 1))
}

/// Returns the digit at this place, or 0 if there is none.
fn digit_at(line: &[u8], place: usize) -> u8
    ensures number { result ≡ digit_at line.now place }
    ensures few { result < 10 }
{
    match line.get(place) {
        Some(byte) if byte.is_ascii_digit() => *byte - b'0',
        _ => 0,
    }
}
