//! Objects and their trees.

ghost use Rattle.std.specs.Prelude.{◌≡◌, ◌↔◌, IsOk, IfOk, IfErr};
ghost use Rattle.zvt_tlv.specs.Checks.{HasFault};
ghost use Rattle.zvt_tlv.specs.Spelled.{HasSpelling};
ghost use Rattle.zvt_tlv.specs.Trees.{objects_of};

use crate::checks::first_fault;
use crate::tags::Tag;
use std::marker::Model;
use thiserror::Error;

/// An object: its tag and its content.
#[derive(Drop)]
#[cycle(tree)]
pub struct Tlv {
    pub tag: Tag,
    pub body: Body,
}

/// The content of an object.
#[derive(Drop)]
#[cycle(tree)]
pub enum Body {
    /// Bytes, under a primitive tag.
    Prim(Vec<u8>),
    /// Objects in order, under a constructed tag.
    Cons(Vec<Tlv>),
}

/// Objects that have an encoding: from depth 1 on, in at most 65,535 bytes. In contracts a forest is its tree.
#[derive(Drop)]
pub struct Forest {
    objects: Vec<Tlv>,
}

impl Model for Forest {
    ghost use Rattle.zvt_tlv.specs.Grammar.{Objects};
    ghost use Rattle.zvt_tlv.specs.Coding.{objects_code};

    ghost Value = { Objects };

    ghost coded = { objects_code };

    ghost use Rattle.zvt_tlv.specs.Trees.{objects_of};
    ghost use Rattle.zvt_tlv.specs.Spelled.{HasSpelling};

    ghost view = { λ f. objects_of f.objects.items };

    ghost invariant = { λ f. HasSpelling (objects_of f.objects.items) };
}

/// Why objects have no encoding.
#[derive(Clone, Copy, Debug, Drop, PartialEq, Eq, Error)]
pub enum BadForest {
    /// A tag and its body disagree: one is for objects and the other for bytes.
    #[error("a tag and its content disagree: a constructed tag holds objects, any other holds bytes")]
    Kind,
    /// Objects are nested more than six levels deep, or the innermost of six is constructed.
    #[error("the objects are nested too deep: six levels can be encoded")]
    TooDeep,
    /// The encoding would have more than 65,535 bytes.
    #[error("the objects need more than 65,535 bytes")]
    TooLarge,
}

impl Forest {
    /// Returns these objects as a forest if they have an encoding. Otherwise hands the list back with the first reason
    /// that applies.
    pub fn checked(objects: Vec<Tlv>) -> Result<Forest, (Vec<Tlv>, BadForest)>
        ensures value { IfOk result (λ f. f ≡ objects_of objects.items) }
        ensures exact { IsOk result ↔ HasSpelling (objects_of objects.items) }
        ensures refused { IfErr result (λ e. (e.0 ≡ objects) × HasFault (objects_of objects.items) e.1) }
    {
        match first_fault(&objects) {
            Some(fault) => Err((objects, fault)),
            None => Ok(Forest { objects }),
        }
    }

    /// Makes a forest of objects that have an encoding.
    pub(crate) fn of(objects: Vec<Tlv>) -> Forest
        requires { HasSpelling (objects_of objects.items) }
        ensures { result ≡ objects_of objects.items }
    {
        Forest { objects }
    }

    /// Returns the objects in order.
    pub fn objects(&self) -> &[Tlv]
        ensures list { objects_of result.now ≡ self.now }
        ensures spelled { HasSpelling self.now }
    {
        &self.objects
    }
}
