//! An output that never keeps its writer waiting.
ghost use Rattle.std.specs.Prelude.{◌≤◌, IfOk, length};

use mio::unix::SourceFd;
use mio::{Events, Interest, Poll, Token};
use std::alloc::Global;
use std::io::{self, ErrorKind, Write};
use std::net::Net;
use std::os::fd::RawFd;
use std::time::Duration;

/// The most text that is held for an output that nobody reads, in bytes. More is dropped.
const MAX_HELD: usize = 4 << 20;

/// The most that is written at once to an output that may wait, in bytes: a pipe that is ready takes as much.
const MAX_PART: usize = 4_096;

const OUTPUT: Token = Token(0);

/// An output whose reader may be slow or stop reading, as `less` and a stopped terminal do.
///
/// A write passes on what the output takes without waiting, and holds the rest until the next write. If more than 4 MiB
/// would be held, the text is dropped, and a line in the output says how much. A file never waits, so its text is
/// written at once.
#[derive(Drop)]
pub struct Screen<W> {
    alloc: Global,
    inner: W,
    gate: Option<Gate>,
    held: Vec<u8>,
    /// How many bytes were dropped since a line said so.
    dropped: u64,
    /// Whether the first of them end a line whose beginning was printed.
    ends_line: bool,
    /// How many bytes were dropped in all.
    lost: u64,
}

/// Tells whether an output takes text without waiting.
#[derive(Drop)]
struct Gate {
    poll: Poll,
    events: Events,
    descriptor: RawFd,
}

impl Gate {
    /// The gate of an output that may wait, as a pipe or a terminal may. `None` for a file, which never does.
    fn of<R: Net>(rt: &R, alloc: Global, descriptor: RawFd) -> Option<Gate> {
        let Ok(poll) = Poll::new(rt) else {
            return None;
        };
        let Ok(events) = Events::with_capacity(alloc, 1) else {
            return None;
        };
        let mut source = SourceFd(&descriptor);
        match poll
            .registry()
            .register(&mut source, OUTPUT, Interest::WRITABLE)
        {
            Ok(()) => Some(Gate {
                poll,
                events,
                descriptor,
            }),
            Err(_) => None,
        }
    }

    /// Whether the output takes text now.
    fn is_open(&mut self) -> bool {
        let mut source = SourceFd(&self.descriptor);
        let asked = self
            .poll
            .registry()
            .reregister(&mut source, OUTPUT, Interest::WRITABLE);
        if asked.is_err() {
            return true;
        }
        match self
            .poll
            .poll(&mut self.events, Some(Duration::from_secs(0)))
        {
            Ok(()) => self.events.iter().next().is_some(),
            Err(_) => true,
        }
    }
}

impl<W: Write> Screen<W> {
    /// An output that writes to `inner`, whose file descriptor this is.
    pub fn new<R: Net>(rt: &R, alloc: Global, inner: W, descriptor: RawFd) -> Screen<W> {
        Screen {
            alloc,
            inner,
            gate: Gate::of(rt, alloc, descriptor),
            held: Vec::new(alloc),
            dropped: 0,
            ends_line: false,
            lost: 0,
        }
    }

    /// How many bytes of text were dropped.
    pub fn lost(&self) -> u64 {
        self.lost
    }

    /// Writes what is held, and waits until the output takes it.
    pub fn finish(&mut self) -> io::Result<()> {
        self.note_dropped();
        let written = self.inner.write_all(self.held.as_slice());
        self.held.clear();
        written
    }

    /// Holds the rest of a text, or drops it if too much is held. `begun` says whether the text's first part was
    /// written.
    fn hold(&mut self, rest: &[u8], begun: bool) {
        if rest.is_empty() {
            return;
        }
        let fits = rest.len() <= MAX_HELD && self.held.len() <= MAX_HELD - rest.len();
        if self.dropped == 0 && fits && self.held.extend_from_slice(rest).is_ok() {
            return;
        }
        self.ends_line |= begun;
        self.dropped = self.dropped.saturating_add(rest.len() as u64);
        self.lost = self.lost.saturating_add(rest.len() as u64);
    }

    /// Holds a line that says how much was dropped, if text was.
    fn note_dropped(&mut self) {
        if self.dropped == 0 {
            return;
        }
        let start = if self.ends_line { "\n" } else { "" };
        let Ok(note) = format!(in self.alloc;
            "{start}# {} bytes were not printed, because nobody read this output\n",
            self.dropped
        ) else {
            return;
        };
        if self.held.extend_from_slice(note.as_bytes()).is_ok() {
            self.dropped = 0;
            self.ends_line = false;
        }
    }

    /// Writes what is held, and then how much was dropped, as far as the output takes it without waiting.
    fn pass_on(&mut self) -> io::Result<()> {
        self.pass_held()?;
        if self.held.is_empty() && self.dropped > 0 {
            self.note_dropped();
            self.pass_held()?;
        }
        Ok(())
    }

    /// Writes what is held, as far as the output takes it without waiting.
    fn pass_held(&mut self) -> io::Result<()> {
        let passed = pass(&mut self.inner, &mut self.gate, self.held.as_slice())?;
        let rest = self.held.len() - passed;
        self.held.copy_within(passed.., 0);
        self.held.truncate(rest);
        Ok(())
    }
}

/// Writes as much of the text as the output takes without waiting. Returns how much that is.
fn pass<W: Write>(inner: &mut W, gate: &mut Option<Gate>, text: &[u8]) -> io::Result<usize>
    ensures { IfOk result (λ passed. passed ≤ length text.now) }
{
    let mut passed = 0;
    'parts: while passed < text.len() {
        let most = match gate {
            Some(gate) => {
                if !gate.is_open() {
                    return Ok(passed);
                }
                MAX_PART
            }
            None => text.len(),
        };
        let size = (text.len() - passed).min(most);
        let count = inner.write(&text[passed..passed + size])?;
        if count == 0 {
            return Err(io::Error::from(ErrorKind::WriteZero));
        }
        passed += count;
    }
    Ok(passed)
}

impl<W: Write> Write for Screen<W> {
    fn write(&mut self, bytes: &[u8]) -> io::Result<usize> {
        if !self.held.is_empty() || self.dropped > 0 {
            self.pass_on()?;
        }
        let mut passed = 0;
        if self.held.is_empty() && self.dropped == 0 {
            passed = pass(&mut self.inner, &mut self.gate, bytes)?;
        }
        self.hold(&bytes[passed..], passed > 0);
        Ok(bytes.len())
    }

    fn flush(&mut self) -> io::Result<()> {
        self.inner.flush()
    }
}
