//! Shows the progress of a long command over several files.
use std::io::{self, IsTerminal};
use std::time::Instant;

/// The number of seconds before a command shows its progress.
const SECONDS: u64 = 1;

/// Shows the number of finished files on a line of a terminal device, which the next text overwrites. Shows nothing
/// during the first second, if standard error is not a terminal device, or if standard output is one, because the
/// output itself then shows the progress.
#[derive(Drop)]
pub struct Progress {
    files: usize,
    done: usize,
    started: Option<Instant>,
    is_shown: bool,
}

impl Progress {
    /// Starts at 0 of the given number of files.
    pub fn new(rt: &HostRuntime, files: usize) -> Progress {
        let is_wanted = rt.stderr().is_terminal() && !rt.stdout().is_terminal();
        Progress {
            files,
            done: 0,
            started: if is_wanted {
                Instant::now(rt).ok()
            } else {
                None
            },
            is_shown: false,
        }
    }

    /// Counts one more finished file.
    pub fn step(&mut self, rt: &HostRuntime) -> io::Result<()> {
        self.done = self.done.saturating_add(1);
        let Some(started) = self.started else {
            return Ok(());
        };
        if started.elapsed(rt)?.as_secs() < SECONDS {
            return Ok(());
        }
        self.is_shown = true;
        let (done, files) = (self.done, self.files);
        eprint!(rt; "zvt: {done} of {files} files\x1b[K\r")
    }

    /// Clears the line.
    pub fn clear(&mut self, rt: &HostRuntime) -> io::Result<()> {
        if !self.is_shown {
            return Ok(());
        }
        self.is_shown = false;
        eprint!(rt; "\x1b[K")
    }
}
