//! Views borrow the bytes of objects that a reader found complete. They copy nothing and allocate nothing. They accept
//! lengths in any form, so the same view serves both readers.

ghost use Rattle.std.specs.Prelude.{◌≡◌, ℕ, List, ◌++◌, length};
ghost use Rattle.zvt_grammar.specs.Reading.{padded};
ghost use Rattle.zvt_tlv.specs.Grammar.{IsTag, IsLength, Objects, Spells};
ghost use Rattle.zvt_tlv.specs.Views.{ForestBytes, forest_once, ContentOf, content_once, TagFirst, LengthFirst};
ghost use Rattle.zvt_tlv.specs.Views.{ObjectFirst, Starts};

use std::marker::Model;

/// An object: its tag, and its content without the length.
#[derive(Clone, Copy, Drop)]
pub struct TlvView<'a> {
    pub tag: &'a [u8],
    pub content: &'a [u8],
    pub ghost inside: { ContentOf tag.now content.now } by { content_once tag.now content.now },
}

impl<'a> TlvView<'a> {
    ghost use Rattle.zvt_tlv.specs.Lent.{IsChildren};

    /// Returns the objects inside, if the tag is constructed.
    pub fn children(&self) -> Option<ForestView<'a>>
        ensures { IsChildren self.now result }
    {
        match self.tag {
            [first, ..] if *first / 32 % 2 == 1 => Some(ForestView {
                bytes: self.content,
            }),
            _ => None,
        }
    }
}

/// Iterates over the objects that the bytes encode, in order. In contracts, its value is the objects that are left.
#[derive(Drop)]
pub struct ForestView<'a> {
    bytes: &'a [u8],
    ghost spelled: { ForestBytes bytes.now } by { forest_once bytes.now },
}

impl<'a> Model for ForestView<'a> {
    ghost use Rattle.zvt_tlv.specs.Grammar.{Objects};
    ghost use Rattle.zvt_tlv.specs.Coding.{objects_code};

    ghost Value = { Objects };

    ghost coded = { objects_code };

    ghost view = { λ v. v.spelled.0 };
}

impl<'a> ForestView<'a> {
    /// Returns a view of bytes that encode objects, with lengths in any form.
    pub fn of(bytes: &'a [u8]) -> ForestView<'a>
        requires { ForestBytes bytes.now }
        ensures { (f : Objects) → Spells padded 1 f bytes.now → result ≡ f }
    {
        ForestView { bytes }
    }

    /// Returns the bytes of the objects that are left.
    pub fn bytes(&self) -> &'a [u8]
        ensures { ∥ Spells padded 1 self.now result.now ∥₁ }
    {
        self.bytes
    }
}

impl<'a> Iterator for ForestView<'a> {
    ghost use Rattle.zvt_tlv.specs.Lent.{GivesObject, objects_left};

    type Item = TlvView<'a>;

    ghost next_gives = { GivesObject };

    ghost remaining = { objects_left };

    fn next(&mut self) -> Option<TlvView<'a>> {
        let bytes = self.bytes;
        if bytes.is_empty() {
            return None;
        }
        let (tag, content, after) = first_object(bytes);
        self.bytes = after;
        Some(TlvView { tag, content })
    }
}

/// Returns the size of the first tag.
fn tag_size(bytes: &[u8]) -> usize
    requires { ∥ TagFirst bytes.now ∥₁ }
    ensures value { (tag after : List ℕ) → bytes.now ≡ tag ++ after → IsTag tag → result ≡ length tag }
{
    if bytes[0] % 32 != 31 {
        1
    } else if bytes[1] < 128 {
        2
    } else {
        3
    }
}

/// Returns the size of the length at the start, and its value.
pub fn length_first(bytes: &[u8]) -> (usize, usize)
    requires { ∥ LengthFirst bytes.now ∥₁ }
    ensures { (n : ℕ) (size after : List ℕ) → bytes.now ≡ size ++ after → IsLength padded n size
        → (result.0 ≡ length size) × (result.1 ≡ n) }
{
    match bytes[0] {
        0x81 => (2, bytes[1] as usize),
        0x82 => (3, bytes[1] as usize * 256 + bytes[2] as usize),
        short => (1, short as usize),
    }
}

/// Returns the tag and the content of the first object, and the bytes after it.
fn first_object(bytes: &[u8]) -> (&[u8], &[u8], &[u8])
    requires { ∥ ObjectFirst bytes.now ∥₁ }
    ensures { (tag size content after : List ℕ) → Starts tag size content after bytes.now → (result.0.now ≡ tag)
        × (result.1.now ≡ content) × (result.2.now ≡ after) }
{
    let (tag, rest) = bytes.split_at(tag_size(bytes));
    let (size, count) = length_first(rest);
    let (content, after) = rest[size..].split_at(count);
    (tag, content, after)
}
