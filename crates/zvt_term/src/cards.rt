//! The cards of a simulated terminal.
ghost use Rattle.std.specs.Prelude.{◌≡◌, ◌≤◌, length};
ghost use Rattle.zvt_grammar.specs.Reading.{shortest};
ghost use Rattle.zvt_field.specs.Grammar.{FieldList};
ghost use Rattle.zvt_term.specs.Dressing.{card_fields};

/// A card at a simulated terminal.
#[derive(Clone, Copy)]
pub enum Card {
    /// A girocard, with its PIN.
    Girocard,
    /// A Visa card, online.
    Visa,
}

/// Returns the fields of a card, encoded: its number (22), masked except the first four and the last four digits, the
/// payment type (19), the card type (8A) and the card's name (8B), with a zero byte at its end. A girocard has the
/// number of its type at the network operator (8C) too, and a Visa card its expiry date (0E) and sequence number (17).
/// The contract number (2A), the authorisation attribute (3B), a text (3C) and a container (06) with the card type
/// (41), the receipt parameters (45) and the ID of the application (43 in 60) come last.
///
/// PA00P015: Data objects (bitmaps), and TLV-container.
pub(crate) fn card_bytes(card: Card) -> &'static [u8]
    ensures fields { FieldList shortest (card_fields card) result.now }
    ensures short { length result.now ≤ 88 }
{
    match card {
        Card::Girocard => &[
            0x22, 0xF0, 0xF8, 0x67, 0x26, 0xEE, 0xEE, 0xEE, 0xEE, 0x12, 0x34, 0x19, 0x70, 0x8A,
            0x05, 0x8B, 0xF0, 0xF9, b'g', b'i', b'r', b'o', b'c', b'a', b'r', b'd', 0x00, 0x8C,
            0x01, 0x2A, b'1', b'2', b'3', b'4', b'5', b'6', b'7', b'8', b'9', b'0', b'1', b'2',
            b'3', b'4', b'5', 0x3B, b'1', b'2', b'3', b'4', b'5', b'6', 0x00, 0x00, 0x3C, 0xF0,
            0xF0, 0xF8, b'A', b'P', b'P', b'R', b'O', b'V', b'E', b'D', 0x06, 0x14, 0x41, 0x01,
            0x05, 0x45, 0x01, 0x00, 0x60, 0x0C, 0x43, 0x0A, 0xA0, 0x00, 0x00, 0x03, 0x59, 0x10,
            0x10, 0x02, 0x80, 0x01,
        ],
        Card::Visa => &[
            0x22, 0xF0, 0xF8, 0x40, 0x00, 0xEE, 0xEE, 0xEE, 0xEE, 0x00, 0x02, 0x19, 0x60, 0x8A,
            0x0A, 0x8B, 0xF0, 0xF5, b'V', b'i', b's', b'a', 0x00, 0x0E, 0x28, 0x12, 0x17, 0x00,
            0x01, 0x2A, b'1', b'2', b'3', b'4', b'5', b'6', b'7', b'8', b'9', b'0', b'1', b'2',
            b'3', b'4', b'5', 0x3B, b'1', b'2', b'3', b'4', b'5', b'6', 0x00, 0x00, 0x3C, 0xF0,
            0xF0, 0xF8, b'A', b'P', b'P', b'R', b'O', b'V', b'E', b'D', 0x06, 0x11, 0x41, 0x01,
            0x0A, 0x45, 0x01, 0x00, 0x60, 0x09, 0x43, 0x07, 0xA0, 0x00, 0x00, 0x00, 0x03, 0x10,
            0x10,
        ],
    }
}
