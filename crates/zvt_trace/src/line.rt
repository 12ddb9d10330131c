//! The lines of a trace.
ghost use Rattle.std.specs.Prelude.{◌≡◌, ◌≤◌, length, IfOk, IfSome, Ok, Err};
ghost use Rattle.hex.specs.Hex.{decode_of};
ghost use Rattle.zvt_trace.specs.Meanings.{GoesOn, IsPlain, IsSign, Reads, meant_by, piece_of, size_of, without_spaces};
ghost use Rattle.zvt_trace.specs.declared.fault.TraceLineError.{TraceLineError};

use crate::direction::Direction;
use crate::fault::TraceLineError;
use crate::spelled;

/// The number of bytes of a piece that are decoded at once.
pub(crate) const CHUNK: usize = 4_096;

/// A line of a trace.
#[derive(Drop)]
pub(crate) enum TraceLine<'a, 't> {
    /// A comment or an empty line.
    Comment,
    /// Bytes of one side: the decoded ones, and the text that spells the rest. Only a long line has such text.
    Piece {
        from: Direction,
        bytes: &'a [u8],
        undecoded: &'t [u8],
    },
    /// The line between till and terminal was lost.
    Lost,
}

/// A piece in the plain form: `count` bytes, and the text after its line.
pub(crate) struct Plain<'t> {
    pub(crate) from: Direction,
    pub(crate) count: usize,
    pub(crate) after: &'t [u8],
}

/// Reads the first line if it has the plain form and its bytes fit into the buffer. The plain form is a sign, a space
/// and pairs of digits, so reading the digits also finds the end of the line.
#[inline(always)]
pub(crate) fn plain_piece<'t>(buffer: &mut [u8], rest: &'t [u8]) -> Option<Plain<'t>>
    ensures begins { IfSome result (IsPlain rest.now buffer.new) }
    ensures few { IfSome result (λ plain. plain.count ≤ length buffer.new) }
    ensures size { length buffer.new ≡ length buffer.old }
{
    let [sign, b' ', text @ ..] = rest else {
        return None;
    };
    let from = direction(*sign)?;
    let count = spelled::read_pairs(text, buffer);
    match &text[2 * count..] {
        [b'\n', after @ ..] => Some(Plain { from, count, after }),
        _ => None,
    }
}

/// Returns the side with this mark.
#[inline(always)]
fn direction(sign: u8) -> Option<Direction>
    ensures { IfSome result (IsSign sign) }
{
    match sign {
        b'>' => Some(Direction::FromTill),
        b'<' => Some(Direction::FromTerminal),
        _ => None,
    }
}

/// Reads a line without its line feed. Decodes as many bytes of a piece as fit into the buffer.
#[inline(always)]
pub(crate) fn read_line<'a, 't>(
    buffer: &'a mut [u8],
    line: &'t [u8],
) -> Result<TraceLine<'a, 't>, TraceLineError>
    ensures { Reads line.now result }
{
    match line {
        [] | [b'#', ..] => Ok(TraceLine::Comment),
        [b'>', text @ ..] => read_piece(buffer, Direction::FromTill, text),
        [b'<', text @ ..] => read_piece(buffer, Direction::FromTerminal, text),
        [b'!'] => Ok(TraceLine::Lost),
        _ => Err(TraceLineError::Form),
    }
}

/// Decodes hexadecimal text, as many bytes as fit into the buffer.
#[inline(always)]
fn read_piece<'a, 't>(
    buffer: &'a mut [u8],
    from: Direction,
    text: &'t [u8],
) -> Result<TraceLine<'a, 't>, TraceLineError>
    ensures ok { IfOk result (λ read. piece_of from (decode_of (without_spaces text.now)) ≡ Ok (meant_by read)) }
    ensures wrong { (what : TraceLineError) → result ≡ Err what
        → piece_of from (decode_of (without_spaces text.now)) ≡ Err what }
    ensures few { IfOk result (λ read. size_of (meant_by read) ≤ length text.now) }
    ensures on { IfOk result GoesOn }
{
    let Some((count, undecoded)) = spelled::read(text, buffer) else {
        return Err(TraceLineError::Hex);
    };
    if !spelled::is_spelled(undecoded) {
        return Err(TraceLineError::Hex);
    }
    Ok(TraceLine::Piece {
        from,
        bytes: &buffer[..count],
        undecoded,
    })
}
