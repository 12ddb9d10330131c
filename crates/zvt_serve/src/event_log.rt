//! The last events, which listeners may ask for again.

use std::alloc::{AllocError, Global};

/// The most events that are kept.
const KEPT: u64 = 1000;

/// The last events, numbered from 1.
#[derive(Drop)]
pub(crate) struct EventLog {
    /// The event with number `n` is at `(n - 1) % KEPT`.
    lines: Vec<Vec<u8>>,
    /// The number of the last event.
    last: u64,
}

impl EventLog {
    pub(crate) fn new(alloc: Global) -> EventLog {
        EventLog {
            lines: Vec::new(alloc),
            last: 0,
        }
    }

    /// Returns the number of the last event, or 0.
    pub(crate) fn last(&self) -> u64 {
        self.last
    }

    /// Returns the number of the oldest event that is kept.
    pub(crate) fn oldest(&self) -> u64 {
        self.last.saturating_sub(KEPT - 1).max(1)
    }

    /// Adds an event. If an allocation fails, the event is missing.
    pub(crate) fn add(&mut self, line: Vec<u8>) -> Result<(), AllocError> {
        if self.last == u64::MAX {
            return Ok(());
        }
        match self.lines.get_mut(place(self.last)) {
            Some(old) => *old = line,
            None => self.lines.push(line)?,
        }
        self.last += 1;
        Ok(())
    }

    /// Returns the event with this number, if it is kept.
    pub(crate) fn get(&self, number: u64) -> Option<&[u8]> {
        if number < self.oldest() || number > self.last {
            return None;
        }
        let line = self.lines.get(place(number.checked_sub(1)?))?;
        Some(line.as_slice())
    }

    /// Returns the number of the first event for a listener that has seen the events up to this number. A number that
    /// this service did not give is from an earlier one: the listener has then seen none of these events.
    pub(crate) fn first_after(&self, seen: Option<u64>) -> u64 {
        match seen {
            None => self.last.saturating_add(1),
            Some(seen) if seen > self.last => self.oldest(),
            Some(seen) => self.oldest().max(seen.saturating_add(1)),
        }
    }
}

/// Returns where the event after this many others is kept.
fn place(before: u64) -> usize {
    (before % KEPT) as usize
}
