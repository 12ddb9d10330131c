//! Reads messages, and writes them as text.
ghost use Rattle.std.specs.Prelude.{◌≡◌, IfSome, IfNone, length};
ghost use Rattle.zvt_text.specs.MessageTexts.{said};
ghost use Rattle.zvt_text.specs.TextOptions.{plain_text};
ghost use Rattle.zvt_c.specs.Answers.{Says};
ghost use Rattle.zvt_c.specs.Texts.{Texts, Writes};

use crate::answer::{ZvtAnswer, bare, found, reason_code};
use crate::statuses;
use std::alloc::Global;
use zvt_apdu::{ApduView, view};
use zvt_grammar::Scan;
use zvt_text::{Text, TextOptions};

/// Reads the first message: it is complete and has a size, or it is unfinished, or the bytes are refused. Ignores the
/// bytes after a complete message.
#[unsafe(no_mangle)]
pub extern "C" fn zvt_scan(alloc: Global, bytes: &[u8], answer: &mut ZvtAnswer)
    ensures { Says bytes.now answer.new }
{
    *answer = match zvt_apdu::scan(alloc, bytes) {
        Ok(Scan::Whole((_, size))) => found(size),
        Ok(Scan::More) => bare(statuses::MORE),
        Ok(Scan::Refused { place, why }) => ZvtAnswer {
            size: 0,
            place: place as u64,
            reason: reason_code(why),
            status: statuses::REFUSED,
        },
        Err(_) => bare(statuses::NO_MEMORY),
    };
}

/// Writes the first message as text and returns the size of the text, or 0 if there is no complete message or an
/// allocation failed. If the buffer is too small, nothing is written.
#[unsafe(no_mangle)]
pub extern "C" fn zvt_text(
    alloc: Global,
    bytes: &[u8],
    buffer: &mut [u8],
    answer: &mut ZvtAnswer,
) -> usize
    ensures { Texts bytes.now buffer.old buffer.new answer.new result }
{
    match zvt_apdu::scan(alloc, bytes) {
        Ok(Scan::Whole((_, size))) => match report(alloc, &view(&bytes[..size]), buffer) {
            Some(written) => {
                *answer = found(size);
                written
            }
            None => {
                *answer = bare(statuses::NO_MEMORY);
                0
            }
        },
        Ok(Scan::More) => {
            *answer = bare(statuses::MORE);
            0
        }
        Ok(Scan::Refused { place, why }) => {
            *answer = ZvtAnswer {
                size: 0,
                place: place as u64,
                reason: reason_code(why),
                status: statuses::REFUSED,
            };
            0
        }
        Err(_) => {
            *answer = bare(statuses::NO_MEMORY);
            0
        }
    }
}

/// Writes the text of a message if it fits, and returns its size, or `None` if an allocation failed.
fn report(alloc: Global, apdu: &ApduView<'_>, buffer: &mut [u8]) -> Option<usize>
    ensures some { IfSome result (λ size. (size ≡ length (said plain_text apdu.now))
        × Writes (said plain_text apdu.now) buffer.old buffer.new) }
    ensures none { IfNone result (buffer.new ≡ buffer.old) }
{
    let mut text = Text::new(alloc);
    if zvt_text::message(&mut text, TextOptions::plain(), b"", apdu).is_err() {
        return None;
    }
    let size = text.size();
    if size <= buffer.len() {
        buffer[..size].copy_from_slice(text.bytes());
    }
    Some(size)
}
