//! Finds out whether a terminal was silent for longer than its till waits.
ghost use Rattle.std.specs.Prelude.{◌≡◌, false, Option, ℕ};
ghost use Rattle.zvt_runs.specs.Traced.{by_silence};

use crate::EndFault;
use crate::tcp::ends::TillLine;
use std::io::{self, ErrorKind, Read, Write};
use std::net::TcpStream;
use std::rt::Clock;

/// A connection that knows whether its last read timed out.
#[derive(Clone, Copy)]
pub(crate) struct Socket<'a> {
    stream: &'a TcpStream,
    waited: bool,
}

impl<'a> Socket<'a> {
    /// Wraps this connection before its first read.
    pub(crate) fn new(stream: &'a TcpStream) -> Socket<'a>
        ensures { result.waited ≡ false }
    {
        Socket {
            stream,
            waited: false,
        }
    }
}

impl Read for Socket<'_> {
    fn read(&mut self, buffer: &mut [u8]) -> io::Result<usize> {
        let mut stream = self.stream;
        let answer = stream.read(buffer);
        self.waited = match &answer {
            Ok(_) => false,
            Err(error) => is_time_out(error.kind()),
        };
        answer
    }
}

impl Write for Socket<'_> {
    fn write(&mut self, bytes: &[u8]) -> io::Result<usize> {
        let mut stream = self.stream;
        stream.write(bytes)
    }

    fn flush(&mut self) -> io::Result<()> {
        Ok(())
    }
}

/// Returns whether an error of this kind means that a read timed out.
fn is_time_out(kind: ErrorKind) -> bool {
    matches!(kind, ErrorKind::WouldBlock | ErrorKind::TimedOut)
}

/// Returns this number of seconds if the last read of this end timed out.
pub(crate) fn waited<C: Clock>(end: &TillLine<'_, C>, seconds: u16) -> Option<u16> {
    if end.reader.device.inner.waited {
        Some(seconds)
    } else {
        None
    }
}

/// Returns the result of a run, given the seconds after which its last read timed out, if it did.
pub(crate) fn by_silence(waited: Option<u16>, answer: Result<(), EndFault>) -> Result<(), EndFault>
    ensures { result ≡ by_silence waited answer }
{
    match (waited, answer) {
        (Some(seconds), Err(EndFault::Line(_))) => Err(EndFault::Silent { seconds }),
        (_, answer) => answer,
    }
}
