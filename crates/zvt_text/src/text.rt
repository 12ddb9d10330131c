//! Text that grows.
ghost use Rattle.std.specs.Prelude.{◌≡◌, ℕ, ◌<◌, ◌≤◌, List, [], ◌∷◌, length, take, IfOk, OnErr, OnOk};
ghost use Rattle.zvt_text.specs.Writing.{Adds, Puts};

use crate::cursor::{self, Full};
use itoa::{Buffer, Integer};
use std::alloc::{AllocError, Global};
use std::marker::Model;

/// The capacity for the first text that is written.
const FIRST_CAPACITY: usize = 128;

/// Growing text. If an allocation fails, nothing of the new text is added.
#[derive(Drop)]
pub struct Text {
    /// The text, and spare capacity after it.
    buffer: Vec<u8>,
    size: usize,
}

impl Model for Text {
    ghost use Rattle.std.specs.Prelude.{ℕ, ◌≤◌, List, length, take};
    ghost use Rattle.std.specs.Coded.{coded_list, coded_ℕ};

    ghost Value = { List ℕ };

    ghost coded = { coded_list coded_ℕ };

    ghost view = { λ t. take t.size t.buffer.items };

    ghost invariant = { λ t. t.size ≤ length t.buffer.items };
}

impl Text {
    /// Creates an empty text.
    pub fn new(alloc: Global) -> Text
        ensures { result ≡ [] }
    {
        Text {
            buffer: Vec::new(alloc),
            size: 0,
        }
    }

    /// Creates an empty text with capacity for `size` bytes.
    pub fn with_capacity(alloc: Global, size: usize) -> Result<Text, AllocError>
        ensures { IfOk result (λ text. text ≡ []) }
    {
        let mut buffer = Vec::new(alloc);
        buffer.resize(size, 0)?;
        Ok(Text { buffer, size: 0 })
    }

    /// Returns the bytes.
    #[inline(always)]
    pub fn bytes(&self) -> &[u8]
        ensures { result.now ≡ self.now }
    {
        &self.buffer[..self.size]
    }

    /// Returns the number of bytes.
    #[inline(always)]
    pub fn size(&self) -> usize
        ensures { result ≡ length self.now }
    {
        self.size
    }

    /// Removes the whole text.
    #[inline(always)]
    pub fn clear(&mut self)
        ensures { self.new ≡ [] }
    {
        self.size = 0;
    }

    /// Writes one ASCII character.
    #[inline(always)]
    pub fn push(&mut self, character: u8) -> Result<(), AllocError>
        ensures { Adds result self.old self.new (character ∷ []) }
    {
        self.add(&Character(character))
    }

    /// Writes a word.
    #[inline(always)]
    pub fn word(&mut self, word: &[u8]) -> Result<(), AllocError>
        ensures { Adds result self.old self.new word.now }
    {
        self.add(&Word(word))
    }

    /// Writes a number in decimal digits.
    pub fn number<I: Integer>(&mut self, number: I) -> Result<(), AllocError>
        ensures { Adds result self.old self.new (I.text number) }
    {
        self.word(Buffer::new().format(number).as_bytes())
    }

    /// Appends a text, completely or not at all.
    #[inline(always)]
    pub fn add<S: Says>(&mut self, what: &S) -> Result<(), AllocError>
        ensures { Adds result self.old self.new (S.said what.now) }
    {
        'tries: loop {
            if let Ok(end) = put_after(&mut self.buffer, self.size, what) {
                self.size = end;
                return Ok(());
            }
            grow(&mut self.buffer)?;
        }
    }
}

/// A value that can be written to a [`Text`], completely or not at all.
pub trait Says {
    ghost said: { Self → List ℕ };

    /// Writes it at the start of the buffer and returns its size.
    fn put(&self, buffer: &mut [u8]) -> Result<usize, Full>
        ensures { Puts result 0 buffer.old buffer.new (said self.now) };
}

/// One character.
#[derive(Drop)]
struct Character(u8);

impl Says for Character {
    ghost said = { λ c. c.0 ∷ [] };

    #[inline(always)]
    fn put(&self, buffer: &mut [u8]) -> Result<usize, Full> {
        cursor::push(buffer, 0, self.0)
    }
}

/// One word.
#[derive(Drop)]
struct Word<'a>(&'a [u8]);

impl Says for Word<'_> {
    ghost said = { λ w. w.0.now };

    #[inline(always)]
    fn put(&self, buffer: &mut [u8]) -> Result<usize, Full> {
        cursor::word(buffer, 0, self.0)
    }
}

/// Writes the value after the text in the buffer and returns the index after it.
#[inline(always)]
fn put_after<S: Says>(buffer: &mut [u8], size: usize, what: &S) -> Result<usize, Full>
    requires { size ≤ length buffer.old }
    ensures puts { Puts result size buffer.old buffer.new (S.said what.now) }
    ensures keeps { take size buffer.new ≡ take size buffer.old }
{
    let end = what.put(&mut buffer[size..])?;
    Ok(size + end)
}

/// Doubles the capacity.
#[cold]
fn grow(buffer: &mut Vec<u8>) -> Result<(), AllocError>
    ensures ok { OnOk result ((length buffer.old.items < length buffer.new.items)
        × (take (length buffer.old.items) buffer.new.items ≡ buffer.old.items)) }
    ensures err { OnErr result (buffer.new.items ≡ buffer.old.items) }
{
    let Some(twice) = buffer.len().checked_mul(2) else {
        return Err(AllocError);
    };
    buffer.resize(twice.max(FIRST_CAPACITY), 0)
}
