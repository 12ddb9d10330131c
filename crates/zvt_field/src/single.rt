//! Finds the fields of a status information in one pass, each only if it appears exactly once.

ghost use Rattle.std.specs.Prelude.{◌≡◌, List, [], ◌∷◌, IfSome, not, ◌==◌};
ghost use Rattle.std.specs.Option.{option_copied};
ghost use Rattle.zvt_field.specs.Grammar.{Field};
ghost use Rattle.zvt_field.specs.Lent.{shown};
ghost use Rattle.zvt_field.specs.Named.{content_of, count_of};
ghost use Rattle.zvt_field.specs.Single.{Saw, Collected, Says};
ghost use Rattle.zvt_field.specs.Views.{PlainBytes};

use crate::views::{FieldView, FieldsView};
use crate::{bmp, contents};
use zvt_bcd::{Amount, Currency, Trace};

/// Values of fields that are valid only if their BMP appears exactly once.
#[derive(Clone, Copy)]
pub struct Single {
    /// BMP 27.
    pub result: Option<u8>,
    /// BMP 04, unless it is zero.
    pub amount: Option<Amount>,
    /// BMP 0B.
    pub trace: Option<Trace>,
    /// BMP 87: two bytes as they were read, digits or not.
    pub receipt: Option<[u8; 2]>,
    /// BMP 37: three bytes as they were read.
    pub original: Option<[u8; 3]>,
    /// Whether BMP 37 appears at all.
    pub has_original: bool,
    /// BMP 49.
    pub currency: Option<Currency>,
    /// Whether BMP 49 appears at all.
    pub has_currency: bool,
}

/// How often a BMP has appeared so far, and its value.
#[derive(Clone, Copy, Drop)]
pub(crate) enum Slot<'a> {
    Absent,
    Once(FieldView<'a>),
    Many,
}

impl<'a> Slot<'a> {
    /// Sees the next field.
    #[inline(always)]
    fn see(&mut self, bmp: u8, field: &FieldView<'a>)
        ensures { (fields left rest : List Field) → Saw bmp fields self.old left → left ≡ shown field.now ∷ rest
            → Saw bmp fields self.new rest }
    {
        if field.bmp == bmp {
            *self = match self {
                Slot::Absent => Slot::Once(*field),
                _ => Slot::Many,
            };
        }
    }

    /// Returns the bytes of the field if it appears exactly once and is not a container.
    #[inline(always)]
    fn content(&self, bmp: u8) -> Option<&'a [u8]>
        requires { (fields : List Field) × Saw bmp fields self.now [] }
        ensures content { (fields : List Field) → Saw bmp fields self.now [] → option_copied result ≡ content_of
            bmp fields }
        ensures spelled { IfSome result (λ bytes. PlainBytes bmp bytes.now) }
    {
        match self {
            Slot::Once(field) => field.plain(),
            _ => None,
        }
    }

    /// Returns whether the BMP has appeared.
    #[inline(always)]
    fn is_there(&self, bmp: u8) -> bool
        ensures { (fields : List Field) → Saw bmp fields self.now [] → result ≡ not (count_of bmp fields == 0) }
    {
        match self {
            Slot::Absent => false,
            Slot::Once(_) => true,
            Slot::Many => true,
        }
    }
}

/// How often each relevant BMP has appeared so far, and its value.
#[derive(Clone, Copy, Drop)]
pub(crate) struct Slots<'a> {
    pub(crate) result: Slot<'a>,
    pub(crate) amount: Slot<'a>,
    pub(crate) trace: Slot<'a>,
    pub(crate) receipt: Slot<'a>,
    pub(crate) original: Slot<'a>,
    pub(crate) currency: Slot<'a>,
}

impl<'a> Slots<'a> {
    /// Sees the next field.
    #[inline(always)]
    fn see(&mut self, field: &FieldView<'a>)
        ensures { (fields left rest : List Field) → Collected fields self.old left → left ≡ shown field.now ∷ rest
            → Collected fields self.new rest }
    {
        self.result.see(bmp::RESULT, field);
        self.amount.see(bmp::AMOUNT, field);
        self.trace.see(bmp::TRACE, field);
        self.receipt.see(bmp::RECEIPT, field);
        self.original.see(bmp::ORIGINAL, field);
        self.currency.see(bmp::CURRENCY, field);
    }
}

/// Collects the relevant BMPs of all the fields.
#[inline(always)]
fn collect<'a>(fields: &FieldsView<'a>) -> Slots<'a>
    ensures { Collected fields.now result [] }
{
    let mut slots = Slots {
        result: Slot::Absent,
        amount: Slot::Absent,
        trace: Slot::Absent,
        receipt: Slot::Absent,
        original: Slot::Absent,
        currency: Slot::Absent,
    };
    for field in fields.again() {
        slots.see(&field);
    }
    slots
}

/// Returns the values of the fields that are valid only if their BMP appears exactly once.
pub fn read_single(fields: &FieldsView<'_>) -> Single
    ensures { Says fields.now result }
{
    let slots = collect(fields);
    Single {
        result: contents::result(slots.result.content(bmp::RESULT)),
        amount: contents::amount(slots.amount.content(bmp::AMOUNT)),
        trace: contents::trace(slots.trace.content(bmp::TRACE)),
        receipt: contents::receipt(slots.receipt.content(bmp::RECEIPT)),
        original: contents::original(slots.original.content(bmp::ORIGINAL)),
        has_original: slots.original.is_there(bmp::ORIGINAL),
        currency: contents::currency(slots.currency.content(bmp::CURRENCY)),
        has_currency: slots.currency.is_there(bmp::CURRENCY),
    }
}
