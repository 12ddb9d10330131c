//! The writers. Each writes to the start of a buffer, returns the number of bytes written, and leaves the others
//! unchanged.

ghost use Rattle.std.specs.Prelude.{◌≡◌, length, ◌+◌, ◌<◌, ◌≤◌, ◌^◌, ◌++◌, nat_lt};
ghost use Rattle.zvt_grammar.specs.Reading.{shortest};
ghost use Rattle.zvt_tlv.specs.Grammar.{none, Spells};
ghost use Rattle.zvt_tlv.specs.Sized.{Sized};
ghost use Rattle.zvt_tlv.specs.Sizes.{size_of, length_size, length_bytes, spelling, Puts, Writes};
ghost use Rattle.zvt_tlv.specs.Trees.{before, objects_of};

use crate::sizes::{objects_size, size};
use crate::tags::Tag;
use crate::trees::{Body, Forest, Tlv};

/// Writes the forest's encoding. It takes `size` bytes.
pub fn write_into(forest: &Forest, out: &mut [u8]) -> usize
    requires { size_of forest.now ≤ length out.old }
    ensures { Writes (Spells shortest 1 forest.now) out.old out.new result }
{
    write_objects(out, forest.objects())
}

/// Writes the length of the encoded objects, then the objects: the part of a container after its BMP.
pub fn put_sized(forest: &Forest, out: &mut [u8]) -> usize
    requires { length_size (size_of forest.now) + size_of forest.now ≤ length out.old }
    ensures { Writes (Sized shortest forest.now) out.old out.new result }
{
    let at = put_length(out, size(forest));
    at + write_objects(&mut out[at..], forest.objects())
}

/// Puts bytes at the start.
fn put(out: &mut [u8], bytes: &[u8]) -> usize
    requires { length bytes.now ≤ length out.old }
    ensures { Puts bytes.now out.old out.new result }
{
    out[..bytes.len()].copy_from_slice(bytes);
    bytes.len()
}

/// Writes the shortest length for content of this size.
fn put_length(out: &mut [u8], content: usize) -> usize
    requires small { content < 2 ^ 16 }
    requires room { length_size content ≤ length out.old }
    ensures { Puts (length_bytes content) out.old out.new result }
{
    if content < 128 {
        put(out, &[content as u8])
    } else if content < 256 {
        put(out, &[0x81, content as u8])
    } else {
        put(out, &[0x82, (content / 256) as u8, (content % 256) as u8])
    }
}

/// Writes a tag and the length of its content.
fn put_head(out: &mut [u8], tag: &Tag, content: usize) -> usize
    requires small { content < 2 ^ 16 }
    requires room { length tag.now + length_size content ≤ length out.old }
    ensures { Puts (tag.now ++ length_bytes content) out.old out.new result }
{
    let at = put(out, tag.bytes());
    at + put_length(&mut out[at..], content)
}

/// Writes objects one after another.
#[cycle(writes)]
fn write_objects(out: &mut [u8], objects: &[Tlv]) -> usize
    requires small { size_of (objects_of objects.now) < 2 ^ 16 }
    requires room { size_of (objects_of objects.now) ≤ length out.old }
    ensures { Puts (spelling (objects_of objects.now)) out.old out.new result }
{
    let mut at = 0;
    for object in objects {
        at += write_object(&mut out[at..], object);
    }
    at
}

#[cycle(writes)]
fn write_object(out: &mut [u8], object: &Tlv) -> usize
    requires small { size_of (before object.now none) < 2 ^ 16 }
    requires room { size_of (before object.now none) ≤ length out.old }
    ensures { Puts (spelling (before object.now none)) out.old out.new result }
{
    match &object.body {
        Body::Prim(bytes) => {
            let at = put_head(out, &object.tag, bytes.len());
            at + put(&mut out[at..], bytes)
        }
        Body::Cons(objects) => {
            let at = put_head(out, &object.tag, objects_size(objects));
            at + write_objects(&mut out[at..], objects)
        }
    }
}
