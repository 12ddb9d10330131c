//! Notes: the time and the reference in the record of an order.
ghost use Rattle.std.specs.Prelude.{◌≡◌, ◌≤◌, ◌+◌, ◌++◌, ◌&&◌, drop, if◌then◌else◌, length, option_map, take, true};
ghost use Rattle.std.specs.Char.{is_ascii_graphic};
ghost use Rattle.std.specs.List.{list_all};
ghost use Rattle.zvt_kept.specs.Notes.{fits_if_some, is_moment, is_note, is_reference};
ghost use Rattle.zvt_kept.specs.Notes.{is_reference_part, keyed};

use arrayvec::ArrayVec;
use std::marker::Model;
use zvt_text::words::{fits, trailing};

/// Maximum number of characters in a reference.
pub const MAX_REFERENCE_LEN: usize = 40;

/// The number of bytes in a time.
const MOMENT_LEN: usize = 20;

/// The note in the record of an order: the time of the order, and the caller's reference.
#[derive(Drop)]
pub struct Note {
    words: ArrayVec<u8, 69>,
}

impl Model for Note {
    ghost use Rattle.std.specs.Prelude.{◌≡◌, ◌≤◌, List, ℕ, length, true};
    ghost use Rattle.zvt_kept.specs.Notes.{is_note};

    ghost Value = { List ℕ };

    ghost view = { λ note. note.words.items };

    ghost invariant = { λ note. (is_note note.words.items ≡ true) × (length note.words.items ≤ 69) };
}

impl Note {
    ghost use Rattle.std.specs.Prelude.{[], IfSome, None, Some};
    ghost use Rattle.zvt_kept.specs.Notes.{at_in, is_noted_by, note_of, reference_in};

    /// Creates an empty note.
    pub fn none() -> Note
        ensures { result ≡ [] }
    {
        Note {
            words: ArrayVec::new(),
        }
    }

    /// Creates a note with this time and this reference. Returns `None` unless the time has the form
    /// `2026-11-28T09:14:03Z` and the reference is 1 to 40 printable ASCII characters without a space.
    pub fn new(at: Option<&[u8]>, reference: Option<&[u8]>) -> Option<Note>
        ensures note { result ≡ note_of (option_map (λ text. text.now) at.entry)
            (option_map (λ text. text.now) reference.entry) }
        ensures at { IfSome result (λ note. at_in note ≡ option_map (λ text. text.now) at.entry) }
        ensures reference { IfSome result (λ note. reference_in note ≡ option_map (λ text. text.now) reference.entry) }
    {
        if !are_right(at, reference) {
            return None;
        }
        let mut words = ArrayVec::new();
        add(&mut words, b" at ", at);
        add(&mut words, b" ref ", reference);
        Some(Note { words })
    }

    /// Reads the note in these words, if they are one.
    pub(crate) fn read(words: &[u8]) -> Option<Note>
        ensures { result ≡ (if is_note words.now then Some words.now else None) }
    {
        if is_note(words) {
            Some(Note::of(words))
        } else {
            None
        }
    }

    /// Makes a note of these words.
    fn of(words: &[u8]) -> Note
        requires { is_note words.now ≡ true }
        ensures { result ≡ words.now }
    {
        let mut held = ArrayVec::new();
        let _ = held.try_extend_from_slice(words);
        Note { words: held }
    }

    /// Returns a copy of the note.
    pub fn copied(&self) -> Note
        ensures { result ≡ self.now }
    {
        Note::of(self.words())
    }

    /// Returns the time of the order, as in `2026-11-28T09:14:03Z`.
    pub fn at(&self) -> Option<&[u8]>
        ensures { option_map (λ text. text.now) result ≡ at_in self.now }
    {
        let rest = trailing(b" at ", self.words())?;
        Some(&rest[..MOMENT_LEN])
    }

    /// Returns the caller's reference.
    pub fn reference(&self) -> Option<&[u8]>
        ensures { option_map (λ text. text.now) result ≡ reference_in self.now }
    {
        match trailing(b" at ", self.words()) {
            Some(rest) => trailing(b" ref ", &rest[MOMENT_LEN..]),
            None => trailing(b" ref ", self.words()),
        }
    }

    /// Returns whether the note has this reference.
    pub fn has_reference(&self, reference: &[u8]) -> bool
        ensures { result ≡ is_noted_by reference.now self.now }
    {
        match self.reference() {
            Some(found) => found == reference,
            None => false,
        }
    }

    /// Returns the words that follow the order's own in its record.
    pub fn words(&self) -> &[u8]
        ensures words { result.now ≡ self.now }
        ensures note { is_note self.now ≡ true }
        ensures few { length self.now ≤ 69 }
    {
        self.words.as_slice()
    }
}

/// Returns whether the time and the reference, if given, have the right form.
fn are_right(at: Option<&[u8]>, reference: Option<&[u8]>) -> bool
    ensures { result ≡ (fits_if_some is_moment (option_map (λ text. text.now) at.entry) && fits_if_some is_reference
        (option_map (λ text. text.now) reference.entry)) }
{
    let right_time = match at {
        Some(at) => is_moment(at),
        None => true,
    };
    let right_reference = match reference {
        Some(reference) => is_reference(reference),
        None => true,
    };
    right_time && right_reference
}

/// Adds a word and its key, if there is one.
fn add(words: &mut ArrayVec<u8, 69>, key: &[u8], word: Option<&[u8]>)
    requires { length words.old.items + length (keyed key.now (option_map (λ text. text.now) word)) ≤ 69 }
    ensures { words.new.items ≡ words.old.items ++ keyed key.now (option_map (λ text. text.now) word.entry) }
{
    if let Some(word) = word {
        let _ = words.try_extend_from_slice(key);
        let _ = words.try_extend_from_slice(word);
    }
}

/// Returns whether these words are a note.
pub(crate) fn is_note(words: &[u8]) -> bool
    ensures { result ≡ is_note words.now }
{
    match trailing(b" at ", words) {
        Some(rest) => is_moment_first(rest),
        None => is_reference_part(words),
    }
}

/// Returns whether these words are a time, followed by nothing or by a reference.
fn is_moment_first(rest: &[u8]) -> bool
    ensures { result ≡ is_moment (take 20 rest.now) && is_reference_part (drop 20 rest.now) }
{
    if rest.len() < MOMENT_LEN {
        return false;
    }
    let (moment, words) = rest.split_at(MOMENT_LEN);
    is_moment(moment) && is_reference_part(words)
}

/// Returns whether these words are empty or a reference.
fn is_reference_part(words: &[u8]) -> bool
    ensures { result ≡ is_reference_part words.now }
{
    if words.is_empty() {
        return true;
    }
    match trailing(b" ref ", words) {
        Some(reference) => is_reference(reference),
        None => false,
    }
}

/// Returns whether this is a time to the second.
fn is_moment(text: &[u8]) -> bool
    ensures { result ≡ is_moment text.now }
{
    fits(b"0000-00-00T00:00:00Z", text)
}

/// Returns whether this is a valid reference: 1 to 40 printable ASCII characters, none of them a space.
pub fn is_reference(text: &[u8]) -> bool
    ensures { result ≡ is_reference text.now }
{
    if text.is_empty() || text.len() > MAX_REFERENCE_LEN {
        return false;
    }
    all_graphic(text)
}

/// Returns whether all of these are printable ASCII characters other than the space.
fn all_graphic(text: &[u8]) -> bool
    ensures { result ≡ list_all is_ascii_graphic text.now }
{
    text.iter().all(|byte| byte.is_ascii_graphic())
}
