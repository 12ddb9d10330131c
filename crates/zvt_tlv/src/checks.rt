//! Conditions under which a list of objects has an encoding.

ghost use Rattle.std.specs.Prelude.{◌≡◌, ℕ, List, length, ◌+◌, ◌<◌, ◌≤◌, ◌^◌, nat_lt, ◌&&◌, not, min, suc, MatchOption};
ghost use Rattle.std.specs.Bool.{OnTrue};
ghost use Rattle.zvt_grammar.specs.Reading.{AreBytes};
ghost use Rattle.zvt_tlv.specs.Grammar.{none, is_constructed};
ghost use Rattle.zvt_tlv.specs.Trees.{before, objects_of};
ghost use Rattle.zvt_tlv.specs.Sizes.{size_of};
ghost use Rattle.zvt_tlv.specs.Checks.{kinds_agree, is_shallow, AllParts, HasFault};
ghost use Rattle.zvt_tlv.specs.Spelled.{HasSpelling};

use crate::sizes::length_size;
use crate::trees::{BadForest, Body, Tlv};

/// More bytes than any spelling has.
const TOO_MANY: usize = 65_536;

/// Returns the first reason why the objects have no encoding, if there is one.
pub fn first_fault(objects: &[Tlv]) -> Option<BadForest>
    ensures { MatchOption result (HasSpelling (objects_of objects.now)) (HasFault (objects_of objects.now)) }
{
    if !kinds_agree(objects) {
        return Some(BadForest::Kind);
    }
    if !is_shallow(objects, 1) {
        return Some(BadForest::TooDeep);
    }
    if limited_size(objects) >= TOO_MANY {
        return Some(BadForest::TooLarge);
    }
    None
}

/// Each item of a list of bytes is a byte.
fn note_bytes(bytes: &[u8])
    ensures { AreBytes bytes.now }
{}

/// Whether each body is of the kind that its tag says.
#[cycle(kinds)]
fn kinds_agree(objects: &[Tlv]) -> bool
    ensures value { result ≡ kinds_agree (objects_of objects.now) }
    ensures parts { OnTrue result (AllParts (objects_of objects.now)) }
{
    for object in objects {
        if !kind_agrees(object) {
            return false;
        }
    }
    true
}

#[cycle(kinds)]
fn kind_agrees(object: &Tlv) -> bool
    ensures value { result ≡ kinds_agree (before object.now none) }
    ensures parts { OnTrue result (AllParts (before object.now none)) }
{
    match &object.body {
        Body::Prim(bytes) => {
            note_bytes(bytes);
            !object.tag.constructed()
        }
        Body::Cons(objects) => object.tag.constructed() && kinds_agree(objects),
    }
}

/// Returns whether no constructed object is nested too deeply.
#[cycle(depths)]
fn is_shallow(objects: &[Tlv], depth: usize) -> bool
    requires { depth ≤ 6 }
    ensures { result ≡ is_shallow depth (objects_of objects.now) }
{
    for object in objects {
        if !stands_shallow(object, depth) {
            return false;
        }
    }
    true
}

#[cycle(depths)]
fn stands_shallow(object: &Tlv, depth: usize) -> bool
    requires { depth ≤ 6 }
    ensures { result ≡ is_shallow depth (before object.now none) }
{
    match &object.body {
        Body::Prim(_) => true,
        Body::Cons(objects) => depth < 6 && is_shallow(objects, depth + 1),
    }
}

/// Returns the size of the objects' encoding, or 65,536 if it is larger.
#[cycle(limits)]
fn limited_size(objects: &[Tlv]) -> usize
    ensures { result ≡ min (size_of (objects_of objects.now)) 65536 }
{
    let mut total = 0;
    for object in objects {
        total = (total + limited_object(object)).min(TOO_MANY);
    }
    total
}

#[cycle(limits)]
fn limited_object(object: &Tlv) -> usize
    ensures { result ≡ min (size_of (before object.now none)) 65536 }
{
    let content = match &object.body {
        Body::Prim(bytes) => bytes.len().min(TOO_MANY),
        Body::Cons(objects) => limited_size(objects),
    };
    (object.tag.size() + length_size(content) + content).min(TOO_MANY)
}
