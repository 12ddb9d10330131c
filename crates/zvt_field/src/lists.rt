//! Lists of fields that have an encoding together.

ghost use Rattle.std.specs.Prelude.{◌≡◌, [], ◌∷◌, ◌++◌, OnOk, OnErr, IfErr};
ghost use Rattle.zvt_field.specs.Bodies.{HaveSpelling};
ghost use Rattle.zvt_field.specs.Lists.{HaveSize, Refuses};

use crate::Field;
use crate::sizes::{LARGEST, field_size};
use std::alloc::Global;
use std::fmt;
use std::marker::Model;

/// A list of fields that has an encoding, and its size.
#[derive(Drop)]
pub struct Fields {
    list: Vec<Field>,
    pub(crate) size: usize,
}

impl Model for Fields {
    ghost use Rattle.std.specs.Prelude.{List};
    ghost use Rattle.std.specs.Coded.{coded_list};
    ghost use Rattle.zvt_field.specs.Grammar.{Field, field_code};

    ghost Value = { List Field };

    ghost coded = { coded_list field_code };

    ghost use Rattle.zvt_field.specs.Lists.{HaveSize};

    ghost view = { λ f. f.list.items };

    ghost invariant = { λ f. HaveSize f.list.items f.size };
}

/// Why a field cannot be appended. The field is handed back.
#[derive(Drop)]
pub enum PushRefusal {
    /// With this field, the list would exceed 65,535 bytes.
    TooLarge(Field),
    /// An allocation failed.
    Memory(Field),
}

impl fmt::Display for PushRefusal {
    ghost use Rattle.std.specs.Prelude.{Some};
    ghost use Rattle.zvt_field.specs.Lists.{push_refusal_text};

    ghost output = { λ refusal. Some (push_refusal_text refusal) };

    fn fmt<W: fmt::Write>(&self, f: &mut fmt::Formatter<W>) -> fmt::Result {
        f.write_str(match self {
            PushRefusal::TooLarge(_) => "the fields would have more than 65,535 bytes",
            PushRefusal::Memory(_) => "out of memory",
        })
    }
}

impl Fields {
    /// Creates an empty list.
    pub fn new(alloc: Global) -> Fields
        ensures { result ≡ [] }
    {
        Fields {
            list: Vec::new(alloc),
            size: 0,
        }
    }

    /// Makes a list of fields whose encoding has this size.
    pub(crate) fn of(list: Vec<Field>, size: usize) -> Fields
        requires { HaveSize list.items size }
        ensures { result ≡ list.items }
    {
        Fields { list, size }
    }

    /// Appends a field if all of them fit into 65,535 bytes. Otherwise nothing changes and the field is handed back.
    /// The size is checked before memory is allocated.
    pub fn push(&mut self, field: Field) -> Result<(), PushRefusal>
        ensures ok { OnOk result (self.new ≡ self.old ++ field ∷ []) }
        ensures spelled { OnOk result (HaveSpelling (self.old ++ field ∷ [])) }
        ensures err { OnErr result (self.new ≡ self.old) }
        ensures refused { IfErr result (Refuses self.old field) }
    {
        let size = self.size + field_size(&field);
        if size > LARGEST {
            return Err(PushRefusal::TooLarge(field));
        }
        if self.list.reserve(1).is_err() {
            return Err(PushRefusal::Memory(field));
        }
        self.list.push_reserved(field);
        self.size = size;
        Ok(())
    }

    /// Returns the fields in order.
    pub fn list(&self) -> &[Field]
        ensures list { result.now ≡ self.now }
        ensures spelled { HaveSpelling self.now }
    {
        &self.list
    }
}
