//! A view borrows the bytes of a message that a reader found complete. It copies nothing and allocates nothing. It
//! accepts lengths in any form, so the same view serves both readers.

ghost use Rattle.std.specs.Prelude.{◌≡◌, ℕ, List, ◌∷◌, ◌++◌, length};
ghost use Rattle.std.specs.Option.{option_copied};
ghost use Rattle.zvt_grammar.specs.Reading.{padded};
ghost use Rattle.zvt_apdu.specs.Message.{Message};
ghost use Rattle.zvt_apdu.specs.Grammar.{IsControl, IsFrameLength, Data, Spells};
ghost use Rattle.zvt_apdu.specs.Kinds.{kind_of};
ghost use Rattle.zvt_apdu.specs.Views.{MessageBytes, message_once, fields_in, control_of, FrameFirst};
ghost use Rattle.zvt_apdu.specs.Views.{code_in, password_in, config_in, currency_in, status_in, attribute_in, text_in};
ghost use Rattle.zvt_apdu.specs.Views.{payload_in};

use crate::frame::layout_of;
use crate::kinds::{Kind, kind_at};
use std::marker::Model;
use zvt_bcd::{Currency, number};
use zvt_field::FieldsView;

/// A message in the bytes that encode it. In contracts a view is its message.
#[derive(Drop)]
pub struct ApduView<'a> {
    bytes: &'a [u8],
    ghost spelled: { MessageBytes bytes.now } by { message_once bytes.now },
}

impl<'a> Model for ApduView<'a> {
    ghost use Rattle.zvt_apdu.specs.Message.{Message};
    ghost use Rattle.zvt_apdu.specs.MessageCode.{message_code};

    ghost Value = { Message };

    ghost coded = { message_code };

    ghost view = { λ v. v.spelled.0 };
}

/// Returns a view of bytes that are exactly one encoded message.
pub fn view<'a>(bytes: &'a [u8]) -> ApduView<'a>
    requires { MessageBytes bytes.now }
    ensures { (m : Message) → Spells padded m bytes.now → result ≡ m }
{
    ApduView { bytes }
}

impl<'a> ApduView<'a> {
    /// Returns the bytes.
    pub fn bytes(&self) -> &'a [u8]
        ensures { ∥ Spells padded self.now result.now ∥₁ }
    {
        self.bytes
    }

    /// Returns the control bytes.
    pub fn control(&self) -> [u8; 2]
        ensures value { result ≡ control_of self.now }
        ensures named { ∥ IsControl self.now result ∥₁ }
    {
        [self.bytes[0], self.bytes[1]]
    }

    /// Returns the fields of a message that has fields.
    pub fn fields(&self) -> Option<FieldsView<'a>>
        ensures { result ≡ fields_in self.now }
    {
        let bytes = self.bytes;
        let data = data(bytes);
        let layout = layout_of(bytes[0], bytes[1], data.len());
        if layout.fields {
            Some(FieldsView::of(&data[layout.free + layout.digits..]))
        } else {
            None
        }
    }

    /// Returns the kind of the message.
    pub fn kind(&self) -> Kind
        ensures { result ≡ kind_of self.now }
    {
        let [high, low] = self.control();
        kind_at(high, low)
    }

    /// Returns the data, after the control bytes and the length.
    fn data(&self) -> &'a [u8]
        ensures { ∥ Data padded self.now result.now ∥₁ }
    {
        data(self.bytes)
    }

    /// Returns the code of a negative acknowledgement (84) or of an abort (06 1E).
    pub fn code(&self) -> Option<u8>
        ensures { result ≡ code_in self.now }
    {
        match self.kind() {
            Kind::Nack => Some(self.control()[1]),
            Kind::Abort => Some(self.data()[0]),
            _ => None,
        }
    }

    /// Returns the password of a registration, a reversal or an end of day.
    pub fn password(&self) -> Option<[u8; 3]>
        ensures { result ≡ password_in self.now }
    {
        match self.kind() {
            Kind::Registration | Kind::Reversal | Kind::EndOfDay => {
                let data = self.data();
                Some([data[0], data[1], data[2]])
            }
            _ => None,
        }
    }

    /// Returns the configuration byte of a registration.
    pub fn config(&self) -> Option<u8>
        ensures { result ≡ config_in self.now }
    {
        match self.kind() {
            Kind::Registration => Some(self.data()[3]),
            _ => None,
        }
    }

    /// Returns the currency of a registration, if it has one.
    pub fn currency(&self) -> Option<Currency>
        ensures { result ≡ currency_in self.now }
    {
        match self.kind() {
            Kind::Registration => match self.data() {
                [_, _, _, _, high, low, ..] => Currency::new(number(&[*high, *low]) as u16),
                _ => None,
            },
            _ => None,
        }
    }

    /// Returns the status byte of an intermediate status information (04 FF).
    pub fn status(&self) -> Option<u8>
        ensures { result ≡ status_in self.now }
    {
        match self.kind() {
            Kind::Intermediate => Some(self.data()[0]),
            _ => None,
        }
    }

    /// Returns the attribute of a print line.
    pub fn attribute(&self) -> Option<u8>
        ensures { result ≡ attribute_in self.now }
    {
        match self.kind() {
            Kind::PrintLine => Some(self.data()[0]),
            _ => None,
        }
    }

    /// Returns the text of a print line, after its attribute.
    pub fn text(&self) -> Option<&'a [u8]>
        ensures { option_copied result ≡ text_in self.now }
    {
        match self.kind() {
            Kind::PrintLine => Some(&self.data()[1..]),
            _ => None,
        }
    }

    /// Returns the free bytes at the end of an acknowledgement, a negative acknowledgement, an intermediate status, an
    /// abort, or a message that this library does not name.
    pub fn payload(&self) -> Option<&'a [u8]>
        ensures { option_copied result ≡ payload_in self.now }
    {
        match self.kind() {
            Kind::Ack | Kind::Nack | Kind::Other => Some(self.data()),
            Kind::Intermediate | Kind::Abort => Some(&self.data()[1..]),
            _ => None,
        }
    }
}

/// The data of a message, after its control bytes and its length.
fn data(bytes: &[u8]) -> &[u8]
    requires { ∥ FrameFirst bytes.now ∥₁ }
    ensures { (high low : ℕ) (size content : List ℕ) → bytes.now ≡ high ∷ low ∷ (size ++ content)
        → IsFrameLength padded (length content) size → result.now ≡ content }
{
    if bytes[2] == 0xFF {
        &bytes[5..]
    } else {
        &bytes[3..]
    }
}
