//! The notes that a book keeps on orders: the time, and the reference that a step's word contains.
ghost use Rattle.std.specs.Prelude.{◌≡◌, List, option_map, ℕ};
ghost use Rattle.zvt_runs.specs.Words.{IsNoteOf, reference_of};

use arrayvec::ArrayString;
use jiff::Timestamp;
use jiff_fmt::temporal::DateTimePrinter;
use std::rt::Clock;
use std::time::SystemTime;
use zvt_journal::Device;
use zvt_kept::{KeptTill, Note};
use zvt_text::words::size_before;

/// Supplies the notes of a till's orders.
pub trait NoteSource<K> {
    /// The till, with this note for its next order.
    ghost noted: { K → List ℕ → K };

    /// Gives the till the note for its next order, with the reference in this word of a step.
    fn note_next(&self, till: &mut K, word: &[u8])
        ensures { (note : List ℕ) × IsNoteOf word.now note × (till.new ≡ noted till.old note) };
}

/// No notes, for a till alone, which has no book to keep them in.
#[derive(Clone, Copy)]
pub struct NoNotes;

impl<K> NoteSource<K> for NoNotes {
    ghost use Rattle.zvt_runs.specs.TillRuns.{forgets};

    ghost noted = { forgets };

    fn note_next(&self, _till: &mut K, _word: &[u8]) {}
}

/// Notes with the time of this clock and the reference in the step's word, and moments for the marks of a trace. If the
/// clock cannot be read, there is no time.
#[derive(Clone, Copy)]
pub struct Clocked<'a, C> {
    pub clock: &'a C,
}

impl<D: Device, C: Clock> NoteSource<KeptTill<D>> for Clocked<'_, C> {
    ghost use Rattle.zvt_kept.specs.KeptTill.{with_note};

    ghost noted = { with_note };

    fn note_next(&self, till: &mut KeptTill<D>, word: &[u8]) {
        till.note_next(note_of(self.clock, word));
    }
}

/// Returns the note of the step that this word names.
fn note_of<C: Clock>(clock: &C, word: &[u8]) -> Note
    ensures { IsNoteOf word.now result }
{
    let time = moment(clock);
    let at = time.as_ref().map(|text| text.as_str().as_bytes());
    if let Some(note) = Note::new(at, reference(word)) {
        return note;
    }
    Note::none()
}

/// Returns the time to the second, in UTC.
fn moment<C: Clock>(clock: &C) -> Option<ArrayString<33>> {
    let now = SystemTime::now(clock).ok()?;
    let seconds = now.duration_since(SystemTime::UNIX_EPOCH).ok()?.as_secs();
    let at = Timestamp::from_second(i64::try_from(seconds).ok()?).ok()?;
    Some(DateTimePrinter::new().timestamp_text(at.to_plain()))
}

/// Returns the reference in a step's word, which follows its first `=`.
fn reference(word: &[u8]) -> Option<&[u8]>
    ensures { option_map (λ text. text.now) result ≡ reference_of word.now }
{
    match word.split_at(size_before(b'=', word)).1 {
        [_, reference @ ..] => Some(reference),
        [] => None,
    }
}
