//! Why a line of a trace can't be read.
ghost use Rattle.std.specs.Prelude.{◌≡◌, ◌<◌, ◌-◌, count_by, length, position, IfSome};
ghost use Rattle.std.specs.Str.Lines.{lines};
ghost use Rattle.zvt_show.specs.Hints.{hint_at, hint_of, hint_on, is_capture, is_marked, is_no_space};
ghost use Rattle.zvt_show.specs.Hints.{is_strange, is_unfinished, line_hint, piece_hint, reason_of};

use std::fmt;
use zvt_trace::next_line;

/// Why a line of a trace can't be read.
#[derive(Clone, Copy)]
pub enum Hint {
    /// The trace is a capture.
    Capture,
    /// The line begins with a byte order mark.
    Mark,
    /// The trace is a journal, and the line is the rest of a record that a crash cut.
    Unfinished,
    /// The character in this column, counted from 1, is not allowed there.
    Character {
        column: usize,
        byte: u8,
        reason: Reason,
    },
    /// A digit is missing in this column, counted from 1.
    HalfByte {
        column: usize,
    },
}

/// The likely origin of a character that a line cannot contain.
#[derive(Clone, Copy)]
pub enum Reason {
    /// A tab.
    Tab,
    /// The `x` of `0x` before a byte.
    Prefix,
    /// A colon or a dash between bytes.
    Separator,
    /// No known origin.
    Plain,
}

/// Explains why a line, counted from 1, cannot be read. Looks at the line and at the first bytes of the trace. Returns
/// `None` if the line is valid or does not exist.
pub fn hint_on(trace: &[u8], number: u64) -> Option<Hint>
    ensures { result ≡ hint_on trace.now (number - 1) (lines trace.now) }
{
    let mut left = number.saturating_sub(1);
    let mut rest = trace;
    'lines: while !rest.is_empty() {
        let (line, after) = next_line(rest);
        if left == 0 {
            return hint_of(trace, line);
        }
        left -= 1;
        rest = after;
    }
    None
}

/// Returns why the line of the trace can't be read.
fn hint_of(trace: &[u8], line: &[u8]) -> Option<Hint>
    ensures { result ≡ hint_of trace.now line.now }
{
    if is_capture(trace) {
        return Some(Hint::Capture);
    }
    if is_marked(line) {
        return Some(Hint::Mark);
    }
    if is_unfinished(trace, line) {
        return Some(Hint::Unfinished);
    }
    line_hint(line)
}

/// Whether the trace starts like a capture.
fn is_capture(trace: &[u8]) -> bool
    ensures { result ≡ is_capture trace.now }
{
    trace.starts_with(&[0xD4, 0xC3, 0xB2, 0xA1])
        || trace.starts_with(&[0xA1, 0xB2, 0xC3, 0xD4])
        || trace.starts_with(&[0x0A, 0x0D, 0x0D, 0x0A])
        || trace.starts_with(&[0x1F, 0x8B])
}

/// Whether the line begins with a byte order mark.
fn is_marked(line: &[u8]) -> bool
    ensures { result ≡ is_marked line.now }
{
    line.starts_with(&[0xEF, 0xBB, 0xBF])
        || line.starts_with(&[0xFF, 0xFE])
        || line.starts_with(&[0xFE, 0xFF])
}

/// Whether the trace starts like a journal, and the line with a space, like the rest of a record after a crash.
fn is_unfinished(trace: &[u8], line: &[u8]) -> bool
    ensures { result ≡ is_unfinished trace.now line.now }
{
    trace.starts_with(b"# zvt journal 1") && line.starts_with(b" ")
}

/// Returns why the line can't be read, from the line alone.
fn line_hint(line: &[u8]) -> Option<Hint>
    ensures { result ≡ line_hint line.now }
{
    match line {
        [] | [b'#', ..] | [b'!'] => None,
        [b'>' | b'<', text @ ..] => piece_hint(text),
        [b'!', second, ..] => Some(hint_at(2, b'!', *second)),
        [first, ..] => Some(hint_at(1, 0, *first)),
    }
}

/// Returns why the text after a direction can't be read.
fn piece_hint(text: &[u8]) -> Option<Hint>
    ensures { result ≡ piece_hint text.now }
{
    match strange(text) {
        Some(at) => {
            let before = text[at.saturating_sub(1)];
            Some(hint_at(at + 2, before, text[at]))
        }
        None => {
            if digits(text) % 2 == 0 {
                return None;
            }
            let column = text.len() + 2;
            Some(Hint::HalfByte { column })
        }
    }
}

/// Returns the place of the first character that is neither a hexadecimal digit nor a space.
fn strange(text: &[u8]) -> Option<usize>
    ensures place { result ≡ position is_strange text.now }
    ensures within { IfSome result (λ at. at < length text.now) }
{
    text.iter().position(|byte| is_strange(*byte))
}

/// Returns the number of characters that are not spaces.
fn digits(text: &[u8]) -> usize
    ensures { result ≡ count_by is_no_space text.now }
{
    text.iter().filter(|byte| **byte != b' ').count()
}

/// Whether the character is neither a hexadecimal digit nor a space.
fn is_strange(byte: u8) -> bool
    ensures { result ≡ is_strange byte }
{
    !byte.is_ascii_hexdigit() && byte != b' '
}

/// Returns the hint for a character in this column, after another character.
fn hint_at(column: usize, before: u8, byte: u8) -> Hint
    ensures { Some result ≡ hint_at column before byte }
{
    let reason = match byte {
        b'\t' => Reason::Tab,
        b'x' | b'X' if before == b'0' => Reason::Prefix,
        b':' | b'-' => Reason::Separator,
        _ => Reason::Plain,
    };
    Hint::Character {
        column,
        byte,
        reason,
    }
}

impl fmt::Display for Hint {
    ghost use Rattle.std.specs.Prelude.{Some};
    ghost use Rattle.zvt_show.specs.Hints.{hint_text};

    ghost output = { λ hint. Some (hint_text hint) };

    fn fmt<W: fmt::Write>(&self, f: &mut fmt::Formatter<W>) -> fmt::Result {
        match *self {
            Hint::Capture => {
                f.write_str(
                    "the input is a capture, not a trace: see 'From a capture to a trace' in docs/FORMAT.md",
                )
            }
            Hint::Mark => {
                f.write_str(
                    "column 1 has a byte order mark: save the trace as plain text without one",
                )
            }
            Hint::Unfinished => {
                f.write_str(
                    "a crash left this of a record: 'zvt book --records FILE' writes the whole records of a \
                        journal as a trace",
                )
            }
            Hint::Character {
                column,
                byte,
                reason,
            } => {
                let character = Shown(byte);
                write!(f, "column {column} is {character}{reason}")
            }
            Hint::HalfByte { column } => write!(
                f,
                "column {column} is the end of the line: the last byte has only one digit"
            ),
        }
    }
}

impl fmt::Display for Reason {
    ghost use Rattle.std.specs.Prelude.{Some};
    ghost use Rattle.zvt_show.specs.Hints.{reason_text};

    ghost output = { λ reason. Some (reason_text reason) };

    fn fmt<W: fmt::Write>(&self, f: &mut fmt::Formatter<W>) -> fmt::Result {
        f.write_str(match self {
            Reason::Tab => ", a tab: put spaces between bytes",
            Reason::Prefix => ": write bytes without '0x'",
            Reason::Separator => ": put spaces between bytes",
            Reason::Plain => "",
        })
    }
}

/// A character as a message shows it: itself, or its code.
#[derive(Clone, Copy)]
struct Shown(u8);

impl fmt::Display for Shown {
    ghost use Rattle.std.specs.Prelude.{Some};
    ghost use Rattle.zvt_show.specs.Hints.{character_text};

    ghost output = { λ shown. Some (character_text shown.0) };

    fn fmt<W: fmt::Write>(&self, f: &mut fmt::Formatter<W>) -> fmt::Result {
        let byte = self.0;
        if byte >= 0x20 && byte <= 0x7E {
            let character = char::from(byte);
            return write!(f, "'{character}'");
        }
        write!(f, "byte {byte:02X}")
    }
}
