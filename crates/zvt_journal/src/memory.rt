//! A file in memory, for tests. Every call takes effect immediately, so a crash leaves the current content.
ghost use Rattle.std.specs.Prelude.{◌≡◌, ◌≤◌, ◌⊎◌, true, [], ◌∷◌, ◌++◌, length, drop, IfOk, OnOk, OnErr};
ghost use Rattle.std.proofs.Common.{inl};
ghost use Rattle.zvt_journal.specs.Device.{Over};
ghost use Rattle.zvt_journal.specs.Past.{Was, only_last};

use crate::{Device, DeviceError, NoSpace};
use std::alloc::{AllocError, Global};

/// A file in memory. It keeps every past content, so that a test can open what each crash would have left.
#[derive(Drop)]
pub struct Memory {
    alloc: Global,
    bytes: Vec<u8>,
    past: Vec<Vec<u8>>,
}

impl Memory {
    ghost use Rattle.zvt_journal.specs.Memory.{memory_bytes};

    /// A file with these bytes, all of them durable.
    pub fn new(alloc: Global, bytes: Vec<u8>) -> Self
        ensures { memory_bytes result ≡ bytes.items }
    {
        Memory {
            alloc,
            bytes,
            past: Vec::new(alloc),
        }
    }

    /// Returns the bytes that a read would return.
    pub fn bytes(&self) -> &[u8]
        ensures { result.now ≡ memory_bytes self.now }
    {
        &self.bytes
    }

    /// Returns the past contents, oldest first.
    pub fn past(&self) -> &[Vec<u8>] {
        &self.past
    }
}

/// Replaces the content by `next`, and keeps the old content as the newest past one.
fn replace(
    alloc: Global,
    bytes: &mut Vec<u8>,
    past: &mut Vec<Vec<u8>>,
    next: Vec<u8>,
) -> Result<(), AllocError>
    ensures ok { OnOk result (bytes.new.items ≡ next.items) }
    ensures err { OnErr result (bytes.new.items ≡ bytes.old.items) }
    ensures past { OnOk result ((v : _) × (v.items ≡ bytes.old.items) × (past.new.items ≡ past.old.items ++ v ∷ [])) }
    ensures past_err { OnErr result (past.new.items ≡ past.old.items) }
{
    past.push(bytes.to_vec(alloc)?)?;
    *bytes = next;
    Ok(())
}

/// Returns a copy of `old` with these bytes written over it.
fn over(alloc: Global, old: &[u8], at: usize, bytes: &[u8]) -> Result<Vec<u8>, AllocError>
    requires { at ≤ length old.now }
    ensures { IfOk result (λ new. Over at bytes.now old.now new.items) }
{
    let mut new = old[..at].to_vec(alloc)?;
    new.extend_from_slice(bytes)?;
    if bytes.len() < old.len() - at {
        new.extend_from_slice(&old[at + bytes.len()..])?;
    }
    Ok(new)
}

impl Device for Memory {
    ghost seen = { λ m. m.bytes.items };

    ghost may_leave = { λ m file. file ≡ m.bytes.items };

    ghost moment = { λ m. length m.past.items };

    ghost left_since = { λ m t file. (file ≡ m.bytes.items) ⊎ Was (drop t m.past.items) file };

    ghost faults = { λ m. 0 };

    ghost has_capacity = { λ m. true };

    ghost counts_now = { λ m t file le now. inl now };

    ghost only_now = { λ m file left. only_last m.past.items m.bytes.items file left };

    fn reserve(&mut self) -> Result<(), NoSpace> {
        Ok(())
    }

    fn write_at(&mut self, at: usize, bytes: &[u8]) -> Result<(), DeviceError> {
        let next = over(self.alloc, &self.bytes, at, bytes)?;
        Ok(replace(self.alloc, &mut self.bytes, &mut self.past, next)?)
    }

    fn set_byte(&mut self, at: usize, byte: u8) -> Result<(), DeviceError> {
        let next = over(self.alloc, &self.bytes, at, &[byte])?;
        Ok(replace(self.alloc, &mut self.bytes, &mut self.past, next)?)
    }

    fn cut(&mut self, len: usize) -> Result<(), DeviceError> {
        let next = self.bytes[..len].to_vec(self.alloc)?;
        Ok(replace(self.alloc, &mut self.bytes, &mut self.past, next)?)
    }

    fn sync(&mut self) -> Result<(), DeviceError> {
        Ok(())
    }
}
