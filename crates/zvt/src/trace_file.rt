//! The file for the trace of a run.
ghost use Rattle.std.specs.Prelude.{◌≡◌, IfSome, is_some, not};

use crate::exit::Exit;
use crate::reports::{report_failed, report_on};
use std::fs::{File, OpenOptions};
use std::io::{self, Read, Seek, SeekFrom, Write};
use zvt_io::Over;
use zvt_runs::Clocked;
use zvt_runs::tcp::RunTrace;
use zvt_text::words::fits;
use zvt_tool::statuses::{DEVICE, TRACE};
use zvt_trace::Marking;

/// The beginning of a journal's first line.
const JOURNAL: [u8; 15] = *b"# zvt journal 1";

/// Maximum number of bytes in the line of a recorded chunk, without its line feed: the side, a space, and 1,024 bytes
/// as digits.
const MOST_OF_A_LINE: usize = 2 + 2 * 1024;

/// The form of a time mark that a run writes. A 0 stands for any digit.
const MARK: &[u8] = b"#@ 0000-00-00T00:00:00.000Z";

/// The report on a file that is a book.
const A_BOOK: &str =
    "this is a till's book, which a trace would end: name another file for the trace";

/// Opens the file for a trace, if one is named. The trace is appended to the file, after a `!` for the lost connection.
/// If a full disk or a crash left an incomplete line at the end of the file, that line is removed first. Reports both,
/// and also a file that cannot be written or that is a journal.
pub fn opened(rt: &HostRuntime, path: Option<&str>) -> Result<Option<File>, Exit> {
    let Some(path) = path else {
        return Ok(None);
    };
    match open(rt, path) {
        Ok(
            Some(
                Trace {
                    file,
                    cut,
                    is_appended,
                },
            ),
        ) => {
            report_cut(rt, path, cut)?;
            if is_appended {
                report_on(rt, path, "the trace goes behind what this file has")?;
            }
            Ok(Some(file))
        }
        Ok(None) => {
            report_on(rt, path, A_BOOK)?;
            Err(Exit::Status(TRACE))
        }
        Err(error) => {
            report_failed(rt, path, "cannot create the trace file", &error)?;
            Err(Exit::Status(DEVICE))
        }
    }
}

/// Returns the trace of a run, if it has a file.
pub fn run_trace(file: Option<&File>, no_times: bool) -> Option<RunTrace<'_>>
    ensures some { is_some result ≡ is_some file.entry }
    ensures marks { IfSome result (λ trace. trace.marks_times ≡ not no_times) }
{
    match file {
        Some(file) => Some(RunTrace {
            file,
            marks_times: !no_times,
        }),
        None => None,
    }
}

/// The device of a trace whose failed writes are reported at once.
pub type ReportedTrace<'a> = Marking<Over<ReportedFile<'a>>, Option<Clocked<'a, HostRuntime>>>;

/// The file of a trace. A failed write is reported at once.
#[derive(Drop)]
pub struct ReportedFile<'a> {
    rt: &'a HostRuntime,
    file: &'a File,
    /// What follows from a failed write, for people.
    consequence: &'static str,
}

impl Write for ReportedFile<'_> {
    fn write(&mut self, bytes: &[u8]) -> io::Result<usize> {
        let mut file = self.file;
        let answer = file.write(bytes);
        if let Err(error) = &answer {
            let consequence = self.consequence;
            let _ = eprintln!(self.rt;
                "zvt: cannot write the trace file, so {consequence}: {error}"
            );
        }
        answer
    }

    fn flush(&mut self) -> io::Result<()> {
        Ok(())
    }
}

/// Returns the device of a trace that reports a failed write at once, with its consequence.
pub fn reported<'a>(
    rt: &'a HostRuntime,
    trace: RunTrace<'a>,
    consequence: &'static str,
) -> ReportedTrace<'a> {
    let file = Over::new(ReportedFile {
        rt,
        file: trace.file,
        consequence,
    });
    let times = trace.marks_times.then_some(Clocked { clock: rt });
    Marking::new(rt.alloc(), file, times)
}

/// After a run that a device ended, removes an incomplete line from the end of its trace, so that the trace can be
/// read. Reports what it removed, and returns the run's exit status.
pub fn mend_after(
    rt: &HostRuntime,
    path: Option<&str>,
    file: Option<&File>,
    status: u8,
) -> io::Result<u8> {
    if let (Some(path), Some(file)) = (path, file)
        && status == DEVICE
    {
        match mend(rt, path, file) {
            Ok(cut) => report_cut(rt, path, cut)?,
            Err(error) => {
                report_failed(rt, path, "cannot cut off its unfinished line", &error)?;
            }
        }
    }
    Ok(status)
}

/// Removes an incomplete line from the end of this file, and returns its size in bytes.
fn mend(rt: &HostRuntime, path: &str, file: &File) -> io::Result<usize> {
    let found = file.metadata()?;
    if !found.is_file() || found.len() == 0 {
        return Ok(0);
    }
    cut_torn(file, &mut File::open(rt, path)?, found.len())
}

/// Reports the size of an incomplete line that was removed, if one was.
fn report_cut(rt: &HostRuntime, path: &str, cut: usize) -> io::Result<()> {
    if cut == 0 {
        return Ok(());
    }
    eprintln!(rt; "zvt: '{path}': the last line was not finished, so its {cut} bytes were cut off")
}

/// The file of a trace, ready for the first line of a run.
#[derive(Drop)]
struct Trace {
    file: File,
    /// The number of bytes removed from an incomplete line.
    cut: usize,
    /// Whether the file had content before the run.
    is_appended: bool,
}

/// Opens the file for a trace, and creates it if it does not exist. Returns `None` for a journal, which does not
/// change.
fn open(rt: &HostRuntime, path: &str) -> io::Result<Option<Trace>> {
    let mut file = OpenOptions::new().append(true).create(true).open(rt, path)?;
    let found = file.metadata()?;
    if !found.is_file() || found.len() == 0 {
        return Ok(Some(Trace {
            file,
            cut: 0,
            is_appended: false,
        }));
    }
    let mut before = File::open(rt, path)?;
    if is_journal(&mut before)? {
        return Ok(None);
    }
    let cut = cut_torn(&file, &mut before, found.len())?;
    let is_appended = found.len() > cut as u64;
    if is_appended {
        file.write_all(if ends_line(&mut before)? {
            b"!\n"
        } else {
            b"\n!\n"
        })?;
    }
    Ok(Some(Trace {
        file,
        cut,
        is_appended,
    }))
}

/// Removes a line without a line feed from the end of the file, if it is the beginning of a recorded chunk or of a time
/// mark, and returns its size. Leaves any other last line.
fn cut_torn(file: &File, before: &mut File, size: u64) -> io::Result<usize> {
    let mut buffer = [0; MOST_OF_A_LINE + 1];
    let taken = size.min(buffer.len() as u64);
    let last = &mut buffer[..taken as usize];
    before.seek(SeekFrom::Start(size - taken))?;
    before.read_exact(last)?;
    let cut = torn(last).len();
    if cut > 0 {
        file.set_len(size.saturating_sub(cut as u64))?;
    }
    Ok(cut)
}

/// Returns the bytes after the last line feed, if they are the beginning of a recorded chunk or of a time mark.
fn torn(last: &[u8]) -> &[u8] {
    let tail = match last.iter().rposition(|byte| *byte == b'\n') {
        Some(at) => &last[at + 1..],
        None => last,
    };
    let is_torn = match tail {
        [b'<' | b'>'] => true,
        [b'<' | b'>', b' ', digits @ ..] => {
            tail.len() <= MOST_OF_A_LINE && digits.iter().all(u8::is_ascii_hexdigit)
        }
        _ => begins_mark(tail),
    };
    if is_torn { tail } else { &[] }
}

/// Returns whether this is a time mark, or the beginning of one.
fn begins_mark(tail: &[u8]) -> bool {
    let size = tail.len().min(MARK.len());
    fits(&MARK[..size], tail)
}

/// Returns whether the file begins like a journal.
fn is_journal(file: &mut File) -> io::Result<bool> {
    let mut first = [0; JOURNAL.len()];
    match file.read_exact(&mut first) {
        Ok(()) => Ok(first == JOURNAL),
        Err(error) if error.kind() == io::ErrorKind::UnexpectedEof => Ok(false),
        Err(error) => Err(error),
    }
}

/// Returns whether the last byte of the file, which is not empty, ends a line.
fn ends_line(file: &mut File) -> io::Result<bool> {
    let mut last = [0];
    file.seek(SeekFrom::End(-1))?;
    file.read_exact(&mut last)?;
    Ok(last == *b"\n")
}
