//! Received numbers and their names.
ghost use Rattle.std.specs.Prelude.{◌≡◌, IfErr, OnOk, option_map};
ghost use Rattle.std.specs.Option.{option_copied};
ghost use Rattle.zvt_field.specs.Named.{content_of};
ghost use Rattle.zvt_play.specs.Numbers.{Binds, HasNoNew, IsNumbered, bmp_of, bytes_in, has_number, is_number, named};
ghost use Rattle.zvt_play.specs.Numbers.{number_by, number_in, prepared, size_of, unused, used};

use crate::difference::Difference;
use zvt_apdu::ApduView;
use zvt_field::FieldsView;

/// A field whose number identifies a payment at its terminal.
#[derive(Clone, Copy, Debug, Drop, PartialEq, Eq)]
pub enum NumberField {
    /// BMP 0B, the trace number.
    Trace,
    /// BMP 37, the trace number of the original payment.
    Original,
    /// BMP 87, the receipt number.
    Receipt,
}

impl NumberField {
    /// Returns the BMP.
    pub fn bmp(self) -> u8
        ensures { result ≡ bmp_of self }
    {
        match self {
            NumberField::Trace => 0x0B,
            NumberField::Original => 0x37,
            NumberField::Receipt => 0x87,
        }
    }

    /// Returns the number of bytes.
    pub(crate) fn size(self) -> usize
        ensures { result ≡ size_of self }
    {
        match self {
            NumberField::Trace | NumberField::Original => 3,
            NumberField::Receipt => 2,
        }
    }
}

/// The bytes of a received number.
#[derive(Clone, Copy, Drop)]
pub(crate) enum Number {
    Two([u8; 2]),
    Three([u8; 3]),
}

impl Number {
    /// Returns the bytes.
    pub(crate) fn bytes(&self) -> &[u8]
        ensures { result.now ≡ bytes_in self.now }
    {
        match self {
            Number::Two(bytes) => bytes,
            Number::Three(bytes) => bytes,
        }
    }
}

/// The numbers received so far, by name, and the one that the next own line will carry.
#[derive(Drop)]
pub struct Names {
    numbers: [Option<Number>; 256],
    next: Option<Number>,
}

impl Names {
    /// Starts without any name.
    pub fn new() -> Names
        ensures { result ≡ unused }
    {
        Names {
            numbers: [None; 256],
            next: None,
        }
    }

    /// Returns the number of a name.
    pub(crate) fn named(&self, name: u8) -> Option<Number>
        ensures { result ≡ named self.now name }
    {
        self.numbers[usize::from(name)]
    }

    /// Gives a name to the number in this field of the received message. No name may have that number yet.
    pub(crate) fn bind(
        &mut self,
        came: Option<ApduView<'_>>,
        field: NumberField,
        name: u8,
    ) -> Result<(), Difference>
        ensures ok { OnOk result (Binds field name came.entry self.old self.new) }
        ensures err { IfErr result (λ why. (why ≡ Difference.Other 0) × HasNoNew field came.entry self.old
            × (self.new ≡ self.old)) }
    {
        let Some(number) = number_in(came, field) else {
            return Err(Difference::Other { at: 0 });
        };
        if self.has(number.bytes()) {
            return Err(Difference::Other { at: 0 });
        }
        self.numbers[usize::from(name)] = Some(number);
        Ok(())
    }

    /// Whether some name has these bytes.
    fn has(&self, bytes: &[u8]) -> bool
        ensures { result ≡ has_number self.now bytes.now }
    {
        let mut rest = self.numbers.as_slice();
        'numbers: while let [number, after @ ..] = rest {
            if is_number(bytes, *number) {
                return true;
            }
            rest = after;
        }
        false
    }

    /// Checks that this field of the received message has the number of a name.
    pub(crate) fn check(
        &self,
        came: Option<ApduView<'_>>,
        field: NumberField,
        name: u8,
    ) -> Result<(), Difference>
        ensures ok { OnOk result (IsNumbered field name came.entry self.now) }
        ensures err { IfErr result (λ why. (why ≡ Difference.Other 0)
            × (IsNumbered field name came.entry self.now → ⊥)) }
    {
        if let Some(wanted) = self.named(name)
            && let Some(number) = number_in(came, field)
            && number.bytes() == wanted.bytes()
        {
            return Ok(());
        }
        Err(Difference::Other { at: 0 })
    }

    /// Makes the next own line carry the number of a name.
    pub(crate) fn prepare(&mut self, name: u8)
        ensures { self.new ≡ prepared name self.old }
    {
        self.next = self.named(name);
    }

    /// Returns the number that the next own line carries, once.
    pub(crate) fn take(&mut self) -> Option<Number>
        ensures next { result ≡ self.old.next }
        ensures left { self.new ≡ used self.old }
    {
        let next = self.next;
        self.next = None;
        next
    }
}

/// Whether there is a number with these bytes.
fn is_number(bytes: &[u8], number: Option<Number>) -> bool
    ensures { result ≡ is_number bytes.now number }
{
    match number {
        None => false,
        Some(number) => number.bytes() == bytes,
    }
}

/// Returns the number in a field of a message, if the field appears exactly once.
fn number_in(came: Option<ApduView<'_>>, field: NumberField) -> Option<Number>
    ensures { option_map bytes_in result ≡ number_in field came.entry }
{
    number_by(content(&came?.fields()?, field.bmp())?)
}

/// Returns the content of the field with this BMP, if it appears exactly once and is no container.
fn content<'a>(fields: &FieldsView<'a>, bmp: u8) -> Option<&'a [u8]>
    ensures { option_copied result ≡ content_of bmp fields.now }
{
    let field = fields.only(bmp)?;
    match field.tree() {
        Some(_) => None,
        None => Some(field.content),
    }
}

/// Returns two or three bytes as a number.
fn number_by(content: &[u8]) -> Option<Number>
    ensures { option_map bytes_in result ≡ number_by content.now }
{
    match content {
        [first, second] => Some(Number::Two([*first, *second])),
        [first, second, third] => Some(Number::Three([*first, *second, *third])),
        _ => None,
    }
}
