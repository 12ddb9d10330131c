//! Moments, and the times in the records of orders.
ghost use Rattle.std.specs.Prelude.{◌≡◌, IfSome, Some};
ghost use Rattle.zvt_kept.specs.Notes.{reference_in};

use arrayvec::ArrayString;
use jiff::Timestamp;
use jiff_fmt::temporal::DateTimePrinter;
use std::io;
use std::rt::Clock;
use std::time::{Instant, SystemTime};
use zvt_kept::Note;

/// A moment, in milliseconds since the server started.
#[derive(Clone, Copy, Debug, PartialEq, Eq)]
pub(crate) struct Moment {
    milliseconds: u64,
}

impl Moment {
    /// Returns whether this many milliseconds or more have passed since an earlier moment.
    pub(crate) fn is_late(self, since: Moment, milliseconds: u64) -> bool {
        self.milliseconds.saturating_sub(since.milliseconds) >= milliseconds
    }

    /// Returns whether the moment is before another.
    pub(crate) fn is_before(self, other: Moment) -> bool {
        self.milliseconds < other.milliseconds
    }
}

/// Measures the time since the server started.
#[derive(Drop)]
pub(crate) struct Stopwatch {
    begun: Instant,
}

impl Stopwatch {
    pub(crate) fn start<C: Clock>(clock: &C) -> io::Result<Stopwatch> {
        Ok(Stopwatch {
            begun: Instant::now(clock)?,
        })
    }

    pub(crate) fn now<C: Clock>(&self, clock: &C) -> io::Result<Moment> {
        let passed = self.begun.elapsed(clock)?.as_millis();
        Ok(Moment {
            milliseconds: u64::try_from(passed).unwrap_or(u64::MAX),
        })
    }
}

/// Returns the note of an order with this key: the time, unless the clock cannot be read, and the key. Returns `None`
/// if the key is not a reference.
pub(crate) fn keyed_note<C: Clock>(clock: &C, key: &[u8]) -> Option<Note>
    ensures { IfSome result (λ note. reference_in note ≡ Some key.now) }
{
    let time = current_time(clock);
    let at = time.as_ref().map(|text| text.as_str().as_bytes());
    match Note::new(at, Some(key)) {
        Some(note) => Some(note),
        None => Note::new(None, Some(key)),
    }
}

/// Returns a note with the time, unless the clock cannot be read.
pub(crate) fn timed_note<C: Clock>(clock: &C) -> Note {
    let time = current_time(clock);
    let at = time.as_ref().map(|text| text.as_str().as_bytes());
    match Note::new(at, None) {
        Some(note) => note,
        None => Note::none(),
    }
}

/// Returns the time to the second, in UTC.
fn current_time<C: Clock>(clock: &C) -> Option<ArrayString<33>> {
    let now = SystemTime::now(clock).ok()?;
    let seconds = now.duration_since(SystemTime::UNIX_EPOCH).ok()?.as_secs();
    let at = Timestamp::from_second(i64::try_from(seconds).ok()?).ok()?;
    Some(DateTimePrinter::new().timestamp_text(at.to_plain()))
}
