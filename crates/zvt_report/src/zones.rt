//! Zones, and the moments that their clocks show.
ghost use Rattle.std.specs.Prelude.{◌≡◌, ◌≤◌, ◌++◌, OnOk};
ghost use Rattle.zvt_report.specs.Zones.{at_minute, day_after, day_before, minutes_in, month_after, month_before};
ghost use Rattle.zvt_report.specs.Zones.{month_end, near, on_date, on_day, real_or, sign_of, two, year_after, zone_in};
ghost use Rattle.zvt_report.specs.Zones.{zone_text};
ghost use Rattle.zvt_trace.specs.Marks.{two_digits};

use std::alloc::AllocError;
use zvt_text::Text;
use zvt_trace::Moment;

/// The minutes of fourteen hours.
const FARTHEST: u32 = 840;

/// The minutes of a day.
const DAY: u64 = 1_440;

/// How far the clocks of a place are from UTC.
#[derive(Clone, Copy)]
pub struct Zone {
    /// Whether its clocks are behind UTC.
    pub west: bool,
    pub minutes: u32,
}

impl Zone {
    ghost use Rattle.std.specs.Prelude.{◌≡◌};
    ghost use Rattle.zvt_report.specs.Zones.{shown_in, utc, zone_of};

    /// Returns the zone of UTC itself.
    pub fn utc() -> Zone
        ensures { result ≡ utc }
    {
        Zone {
            west: false,
            minutes: 0,
        }
    }

    /// Reads a zone from its hours and minutes, as `+01:00`. Returns `None` if the text has another form, or is more
    /// than fourteen hours from UTC.
    pub fn of(text: &[u8]) -> Option<Zone>
        ensures { result ≡ zone_of text.now }
    {
        match text {
            [sign, a, b, colon, c, d] => {
                let has_form = (*sign == b'+' || *sign == b'-')
                    && *colon == b':'
                    && (a.is_ascii_digit()
                        && (b.is_ascii_digit() && (c.is_ascii_digit() && d.is_ascii_digit())));
                if !has_form {
                    return None;
                }
                zone_in(*sign == b'-', two(*a, *b), two(*c, *d))
            }
            _ => None,
        }
    }

    /// Returns what a clock of this zone shows at a moment in UTC.
    pub(crate) fn show(self, moment: &Moment) -> Moment
        ensures { result ≡ shown_in self moment.now }
    {
        let minutes = minutes_in(self, moment);
        at_minute(minutes, &on_day(minutes / DAY, moment))
    }
}

/// Returns the number of two digits.
fn two(tens: u8, ones: u8) -> u32
    ensures number { result ≡ two tens ones }
    ensures few { result ≤ 10_000 }
{
    u32::from(tens.saturating_sub(b'0')) * 10 + u32::from(ones.saturating_sub(b'0'))
}

/// Whether these are whole hours and minutes, and at most fourteen hours.
fn near(hours: u32, minutes: u32) -> bool
    requires { hours ≤ 10_000 }
    ensures { result ≡ near hours minutes }
{
    minutes < 60 && hours * 60 + minutes <= FARTHEST
}

/// Returns the zone of these hours and minutes.
fn zone_in(west: bool, hours: u32, minutes: u32) -> Option<Zone>
    requires { hours ≤ 10_000 }
    ensures { result ≡ zone_in west hours minutes }
{
    if !near(hours, minutes) {
        return None;
    }
    Some(Zone {
        west,
        minutes: hours * 60 + minutes,
    })
}

/// Returns the minutes since the day before began, on a clock of this zone.
fn minutes_in(zone: Zone, moment: &Moment) -> u64
    ensures { result ≡ minutes_in zone moment.now }
{
    let utc = DAY + u64::from(moment.hour) * 60 + u64::from(moment.minute);
    if zone.west {
        utc.saturating_sub(u64::from(zone.minutes))
    } else {
        utc + u64::from(zone.minutes)
    }
}

/// Returns the same time of day at this date.
fn on_date(year: u16, month: u8, day: u8, moment: &Moment) -> Moment
    ensures { result ≡ on_date year month day moment.now }
{
    Moment {
        year,
        month,
        day,
        hour: moment.hour,
        minute: moment.minute,
        second: moment.second,
        nanosecond: moment.nanosecond,
    }
}

/// Returns the next year of four digits.
fn year_after(year: u16) -> u16
    ensures { result ≡ year_after year }
{
    if year < 9999 { year + 1 } else { year }
}

/// Returns the same time of day on the first day of the next month.
fn month_after(moment: &Moment) -> Moment
    ensures { result ≡ month_after moment.now }
{
    if moment.month < 12 {
        on_date(moment.year, moment.month + 1, 1, moment)
    } else {
        on_date(year_after(moment.year), 1, 1, moment)
    }
}

/// Returns the first moment if the calendar has it, and otherwise the other one.
fn real_or(moment: Moment, other: Moment) -> Moment
    ensures { result ≡ real_or moment other }
{
    if moment.is_real() { moment } else { other }
}

/// Returns the same time of the next day.
fn day_after(moment: &Moment) -> Moment
    ensures { result ≡ day_after moment.now }
{
    if moment.day < 31 {
        let next = on_date(moment.year, moment.month, moment.day + 1, moment);
        real_or(next, month_after(moment))
    } else {
        month_after(moment)
    }
}

/// Returns the same time of day on the last day of this month.
fn month_end(year: u16, month: u8, moment: &Moment) -> Moment
    ensures { result ≡ month_end year month moment.now }
{
    let short = real_or(
        on_date(year, month, 29, moment),
        on_date(year, month, 28, moment),
    );
    let long = real_or(on_date(year, month, 30, moment), short);
    real_or(on_date(year, month, 31, moment), long)
}

/// Returns the same time of day on the last day of the month before.
fn month_before(moment: &Moment) -> Moment
    ensures { result ≡ month_before moment.now }
{
    if 1 < moment.month {
        month_end(moment.year, moment.month - 1, moment)
    } else {
        month_end(moment.year.saturating_sub(1), 12, moment)
    }
}

/// Returns the same time of the day before.
fn day_before(moment: &Moment) -> Moment
    ensures { result ≡ day_before moment.now }
{
    if 1 < moment.day {
        on_date(moment.year, moment.month, moment.day - 1, moment)
    } else {
        month_before(moment)
    }
}

/// Returns the same time of the day before, of the same day, or of the next one, counted from 0.
fn on_day(days: u64, moment: &Moment) -> Moment
    ensures { result ≡ on_day days moment.now }
{
    match days {
        0 => day_before(moment),
        1 => *moment,
        _ => day_after(moment),
    }
}

/// Returns the moment at this minute of the same day.
fn at_minute(minute: u64, moment: &Moment) -> Moment
    ensures { result ≡ at_minute minute moment.now }
{
    Moment {
        year: moment.year,
        month: moment.month,
        day: moment.day,
        hour: (minute / 60 % 24) as u8,
        minute: (minute % 60) as u8,
        second: moment.second,
        nanosecond: moment.nanosecond,
    }
}

/// Returns the sign before the hours of a zone.
fn sign_of(west: bool) -> &'static [u8]
    ensures { result.now ≡ sign_of west }
{
    if west { b"-" } else { b"+" }
}

/// Returns the last two digits of a number.
fn two_digits(number: u32) -> [u8; 2]
    ensures { result ≡ two_digits number }
{
    [b'0' + (number / 10 % 10) as u8, b'0' + (number % 10) as u8]
}

/// Writes the name of a zone, as `UTC+01:00`.
#[tactic(auto, unfolding(crate::specs::Zones::zone_text))]
pub(crate) fn write_zone(text: &mut Text, zone: Zone) -> Result<(), AllocError>
    ensures { OnOk result (text.new ≡ text.old ++ zone_text zone) }
{
    text.word(b"UTC")?;
    if zone.minutes == 0 {
        return Ok(());
    }
    text.word(sign_of(zone.west))?;
    text.word(&two_digits(zone.minutes / 60))?;
    text.word(b":")?;
    text.word(&two_digits(zone.minutes % 60))
}
