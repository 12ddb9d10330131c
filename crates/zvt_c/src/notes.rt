//! The notes of a journal's payments.
ghost use Rattle.std.specs.Prelude.{◌≡◌, ◌++◌, OnOk};
ghost use Rattle.zvt_c.specs.Listing.{ListsHandle, ListsNotes, note_line, note_lines, notes_text};

use crate::answer::{ZvtAnswer, bare};
use crate::handle::ZvtTill;
use crate::records::hand_out;
use crate::recovery::{settings, unrecovered};
use crate::statuses;
use std::alloc::{AllocError, Global};
use zvt_kept::{Note, Recovered, recover};
use zvt_text::Text;
use zvt_till::Till;

/// Writes the notes of a journal's payments: one line per booked payment of the till that `zvt_till_recover` makes of
/// the same text, such as `booked at 2026-11-28T09:14:03Z ref A-1009`, then one per unclear payment, such as `unclear`.
/// The words after the first are the note in the record of the payment's order. The answer contains the size of the
/// lines; if the buffer is too small, nothing is written. The handle supplies the settings, and does not change. The
/// status is 0, or 2, 3 or 6 for the reasons of `zvt_till_recover`.
#[unsafe(no_mangle)]
pub extern "C" fn zvt_record_notes(
    alloc: Global,
    till: &mut ZvtTill,
    text: &[u8],
    buffer: &mut [u8],
    answer: &mut ZvtAnswer,
)
    ensures same { till.new.raw_handle.held ≡ till.old.raw_handle.held }
    ensures notes { ListsHandle till.old.raw_handle.held text.now buffer.old buffer.new answer.new }
{
    let Some(end) = till.take(alloc) else {
        *answer = bare(statuses::CLOSED);
        return;
    };
    *answer = list_notes(alloc, end.till.till(), text, buffer);
    *till = ZvtTill::of(end);
}

/// Writes the notes of the till that these records describe, with the settings of the given till.
fn list_notes(alloc: Global, till: &Till, text: &[u8], buffer: &mut [u8]) -> ZvtAnswer
    ensures { ListsNotes till.now.state.settings text.now buffer.old buffer.new result }
{
    match recover(alloc, &settings(till), text) {
        Ok(recovered) => {
            let mut lines = Text::new(alloc);
            let written = say_notes(&mut lines, &recovered);
            hand_out(written, &lines, buffer)
        }
        Err(why) => unrecovered(why),
    }
}

/// Adds the lines of a book's notes, and then the lines of the unclear payments' notes.
fn say_notes(lines: &mut Text, recovered: &Recovered) -> Result<(), AllocError>
    ensures { OnOk result (lines.new ≡ lines.old ++ notes_text recovered.now.booked.items
        recovered.now.unclear.items) }
{
    say_lines(lines, b"booked", recovered.booked.as_slice())?;
    say_lines(lines, b"unclear", recovered.unclear.as_slice())
}

/// Adds the lines of payments of this kind.
fn say_lines(lines: &mut Text, kind: &[u8], notes: &[Note]) -> Result<(), AllocError>
    ensures { OnOk result (lines.new ≡ lines.old ++ note_lines kind.now notes.now) }
{
    for note in notes {
        say_line(lines, kind, note)?;
    }
    Ok(())
}

/// Adds the line of a payment of this kind.
fn say_line(lines: &mut Text, kind: &[u8], note: &Note) -> Result<(), AllocError>
    ensures { OnOk result (lines.new ≡ lines.old ++ note_line kind.now note.now) }
{
    lines.word(kind)?;
    lines.word(note.words())?;
    lines.push(b'\n')
}
