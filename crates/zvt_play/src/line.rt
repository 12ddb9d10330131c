//! Reads lines of a trace as steps of the player.
ghost use Rattle.std.specs.Prelude.{◌≡◌, ℕ, List, Ok, Err, IfErr, IfOk, IsErr, OnOk, option_map};
ghost use Rattle.hex.specs.Hex.{decode_of};
ghost use Rattle.zvt_stream.specs.LineReading.{reading_as};
ghost use Rattle.zvt_trace.specs.Meanings.{piece_of, without_spaces};
ghost use Rattle.zvt_play.specs.Script.{AwaitSays, CanCome, LineSays, SaysBy, act_of};
ghost use Rattle.zvt_play.specs.declared.line.ScriptLineError.{ScriptLineError};
ghost use Rattle.zvt_play.specs.declared.line.BadLine.TheVariants.{Memory};

use crate::marks::read_comment;
use crate::naming::NameFault;
use crate::role::Role;
use crate::step::Action;
use std::alloc::{AllocError, Global};
use thiserror::Error;
use zvt_grammar::Why;
use zvt_stream::{FedView, FeedError, LineForm, Stream};
use zvt_trace::{Direction, TraceLineError, spelled_bytes};

/// The reason why a line can't be played.
#[derive(Clone, Copy, Debug, PartialEq, Eq, Error)]
pub enum ScriptLineError {
    /// It is not a line of a trace.
    #[error("{0}")]
    Trace(TraceLineError),
    /// It begins like a mark, but is not a valid one.
    #[error("expected a mark, e.g. '#~ silent', '#~ 1500', '#~ listen 2000', '#~ bind 87 n1', '#~ same 37 n1' or \
        '#~ use 87 n1'")]
    Mark,
    /// It is a mark with a name that cannot be used here.
    #[error("{0}")]
    Name(NameFault),
    /// It is a line of the other side, and no message starts with its bytes up to and including the one at `at`,
    /// counted from 0.
    #[error("invalid at byte {at} ({why}): no message starts like this. Give a valid message or prefix, or leave \
        the line empty after '<' or '>' to accept any message")]
    NoMessage { at: usize, why: Why },
}

/// The reason why reading a line failed.
#[derive(Clone, Copy)]
pub(crate) enum BadLine {
    Wrong(ScriptLineError),
    Memory,
}

impl From<AllocError> for BadLine {
    ghost from_gives = { λ _ bad. bad ≡ Memory };

    fn from(_refused: AllocError) -> BadLine {
        BadLine::Memory
    }
}

/// Reads a line without its line feed, for a player with this role.
pub(crate) fn read_line(alloc: Global, role: Role, line: &[u8]) -> Result<Option<Action>, BadLine>
    ensures ok { IfOk result (λ read. LineSays (reading_as role.form) role.own line.now
        (Ok (option_map act_of read))) }
    ensures wrong { (why : ScriptLineError) → result ≡ Err (BadLine.Wrong why)
        → LineSays (reading_as role.form) role.own line.now (Err why) }
{
    match line {
        [] => Ok(None),
        [b'#', ..] => match read_comment(line) {
            Ok(action) => Ok(action),
            Err(why) => Err(BadLine::Wrong(why)),
        },
        [b'>', text @ ..] => read_piece(alloc, role, Direction::FromTill, text),
        [b'<', text @ ..] => read_piece(alloc, role, Direction::FromTerminal, text),
        [b'!'] => Ok(Some(Action::Break)),
        _ => Err(BadLine::Wrong(ScriptLineError::Trace(TraceLineError::Form))),
    }
}

/// Reads a line of bytes from the given side. The text is what follows the sign.
fn read_piece(
    alloc: Global,
    role: Role,
    from: Direction,
    text: &[u8],
) -> Result<Option<Action>, BadLine>
    ensures ok { IfOk result (λ read. (line : List ℕ)
        → SaysBy (reading_as role.form) role.own line (piece_of from (decode_of (without_spaces text.now)))
        (Ok (option_map act_of read))) }
    ensures wrong { (why : ScriptLineError) → result ≡ Err (BadLine.Wrong why) → (line : List ℕ)
        → SaysBy (reading_as role.form) role.own line (piece_of from (decode_of (without_spaces text.now)))
        (Err why) }
{
    let bytes = decode(alloc, text)?;
    if role.own == from {
        return Ok(Some(Action::Send(bytes)));
    }
    check(alloc, role.form, bytes.as_slice())?;
    Ok(Some(Action::Await(bytes)))
}

/// Decodes hexadecimal text, which may have spaces.
fn decode(alloc: Global, text: &[u8]) -> Result<Vec<u8>, BadLine>
    ensures ok { IfOk result (λ bytes. decode_of (without_spaces text.now) ≡ Ok bytes.items) }
    ensures wrong { (why : ScriptLineError) → result ≡ Err (BadLine.Wrong why)
        → (why ≡ ScriptLineError.Trace TraceLineError.Hex) × IsErr (decode_of (without_spaces text.now)) }
{
    match spelled_bytes(alloc, text)? {
        Some(bytes) => Ok(bytes),
        None => Err(BadLine::Wrong(ScriptLineError::Trace(TraceLineError::Hex))),
    }
}

/// Checks that the other side can send these bytes: whole messages, and perhaps the beginning of another one. On an
/// open line, it can send any.
fn check(alloc: Global, form: LineForm, bytes: &[u8]) -> Result<(), BadLine>
    ensures ok { OnOk result (CanCome (reading_as form) bytes.now) }
    ensures wrong { (why : ScriptLineError) → result ≡ Err (BadLine.Wrong why)
        → AwaitSays (reading_as form) bytes.now (Err why) }
{
    let mut stream = Stream::reading(alloc, form);
    let mut rest = bytes;
    'messages: loop {
        match stream.feed_view(rest) {
            Ok(FedView::Message { taken }) => rest = &rest[taken..],
            Ok(FedView::More) => return Ok(()),
            Ok(FedView::Refused { place, why }) => {
                let at = bytes.len() - rest.len() + place;
                return Err(BadLine::Wrong(ScriptLineError::NoMessage { at, why }));
            }
            Err(FeedError::Stopped) => unreachable!(),
            Err(FeedError::Memory) => return Err(BadLine::Memory),
        }
    }
}
