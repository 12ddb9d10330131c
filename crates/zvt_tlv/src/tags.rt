//! Tags.

ghost use Rattle.std.specs.Prelude.{◌≡◌, length, ◌≤◌, IfSome, IfNone};
ghost use Rattle.zvt_tlv.specs.Grammar.{IsTag, is_constructed};

use std::marker::Model;

/// The one to three bytes that name an object and say whether it holds other objects. In contracts it is the list of
/// its bytes.
#[derive(Drop)]
pub struct Tag {
    bytes: [u8; 3],
    count: usize,
}

impl Model for Tag {
    ghost use Rattle.std.specs.Prelude.{ℕ, List, take, ◌≤◌};
    ghost use Rattle.zvt_tlv.specs.Grammar.{IsTag};

    ghost Value = { List ℕ };

    ghost view = { λ t. take t.count t.bytes };

    ghost invariant = { λ t. (t.count ≤ 3) × IsTag (take t.count t.bytes) };
}

impl Tag {
    /// Returns these bytes as a tag, or `None` unless they are exactly one tag. A tag has a second byte if the low
    /// five bits of the first are all ones, and a third if bit 8 of the second is set. Bit 8 of the third is clear.
    pub fn checked(bytes: &[u8]) -> Option<Tag>
        ensures some { IfSome result (λ t. (t ≡ bytes.now) × IsTag bytes.now) }
        ensures none { IfNone result (IsTag bytes.now → ⊥) }
    {
        match bytes {
            [first] if *first % 32 != 31 => Some(Tag::of(bytes)),
            [first, second] if *first % 32 == 31 && *second < 128 => Some(Tag::of(bytes)),
            [first, second, third] if *first % 32 == 31 && *second >= 128 && *third < 128 => Some(
                Tag::of(bytes),
            ),
            _ => None,
        }
    }

    /// Makes a tag of bytes that are one.
    pub(crate) fn of(bytes: &[u8]) -> Tag
        requires { IsTag bytes.now }
        ensures { result ≡ bytes.now }
    {
        match bytes {
            [first] => Tag {
                bytes: [*first, 0, 0],
                count: 1,
            },
            [first, second] => Tag {
                bytes: [*first, *second, 0],
                count: 2,
            },
            [first, second, third] => Tag {
                bytes: [*first, *second, *third],
                count: 3,
            },
            _ => unreachable!(),
        }
    }

    /// Returns the bytes.
    pub fn bytes(&self) -> &[u8]
        ensures value { result.now ≡ self.now }
        ensures tag { IsTag self.now }
    {
        &self.bytes[..self.count]
    }

    /// Returns whether the content is objects: bit 6 of the first byte.
    pub fn constructed(&self) -> bool
        ensures value { result ≡ is_constructed self.now }
        ensures tag { IsTag self.now }
    {
        self.bytes[0] / 32 % 2 == 1
    }

    /// Returns the number of bytes.
    pub(crate) fn size(&self) -> usize
        ensures value { result ≡ length self.now }
        ensures small { result ≤ 3 }
    {
        self.count
    }
}
