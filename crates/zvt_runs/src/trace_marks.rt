//! The moments of a trace's time marks.
ghost use Rattle.std.specs.Prelude.{◌≡◌, IfSome, ℤ, Some};
ghost use Rattle.zvt_runs.specs.TraceMarks.{ShowsAt, moment_shown};

use crate::order_notes::Clocked;
use jiff::Timestamp;
use jiff::civil::DateTime;
use jiff::tz::Offset;
use std::rt::Clock;
use zvt_trace::{Moment, MomentSource};

/// Moments to the millisecond, or `None` if the clock cannot be read.
impl<C: Clock> MomentSource for Clocked<'_, C> {
    fn now(&self) -> Option<Moment>
        ensures { IfSome result (λ moment. (nanoseconds : ℤ) × ShowsAt nanoseconds (Some moment)) }
    {
        moment_at(Timestamp::now(self.clock).ok()?)
    }
}

/// Returns the moment that a clock in UTC shows at this instant, to the millisecond.
fn moment_at(instant: Timestamp) -> Option<Moment>
    ensures { ShowsAt instant.nanosecond result }
{
    moment_shown(Offset::UTC.to_datetime(instant))
}

/// Returns the moment that a clock shows, to the millisecond. Returns `None` before the year 0.
fn moment_shown(clock: DateTime) -> Option<Moment>
    ensures { result ≡ moment_shown clock }
{
    if clock.year() < 0 {
        return None;
    }
    let moment = Moment {
        year: clock.year().unsigned_abs(),
        month: clock.month().unsigned_abs(),
        day: clock.day().unsigned_abs(),
        hour: clock.hour().unsigned_abs(),
        minute: clock.minute().unsigned_abs(),
        second: clock.second().unsigned_abs(),
        nanosecond: u32::from(clock.millisecond().unsigned_abs()) * 1_000_000,
    };
    if moment.is_real() { Some(moment) } else { None }
}
