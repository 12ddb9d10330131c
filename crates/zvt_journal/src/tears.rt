//! Files that a crash may leave, for tests.
ghost use Rattle.std.specs.Prelude.{◌≡◌, take, drop, IfOk};
ghost use Rattle.zvt_journal.specs.Torn.{torn};

use std::alloc::{AllocError, Global};

/// How a crash tears a write.
#[derive(Clone, Copy, Debug)]
pub enum Tear {
    /// The bytes before the index are new.
    First,
    /// The bytes from the index on are new.
    Last,
    /// The bytes before the index are new, and the file already has its new length. Its end is zeros.
    Padded,
}

/// Returns a file that a crash may leave between two contents of a [`Memory`](crate::Memory) that are one call apart.
///
/// A test tries each index up to the greater length. If the call was a truncation, the file ends at the index, or at
/// its new end.
pub fn torn(
    alloc: Global,
    old: &[u8],
    new: &[u8],
    at: usize,
    tear: Tear,
) -> Result<Vec<u8>, AllocError>
    ensures { IfOk result (λ file. file.items ≡ torn tear at old.now new.now) }
{
    if new.len() < old.len() {
        return up_to(old, at.max(new.len())).to_vec(alloc);
    }
    let (begin, end) = match tear {
        Tear::First | Tear::Padded => (up_to(new, at), from(old, at)),
        Tear::Last => (up_to(old, at), from(new, at)),
    };
    let mut file = begin.to_vec(alloc)?;
    file.extend_from_slice(end)?;
    if matches!(tear, Tear::Padded) {
        file.resize(new.len(), 0)?;
    }
    Ok(file)
}

/// Returns the bytes before this index, or all if there are fewer.
fn up_to(bytes: &[u8], at: usize) -> &[u8]
    ensures { result.now ≡ take at bytes.now }
{
    &bytes[..at.min(bytes.len())]
}

/// Returns the bytes from this index on, or none if it is beyond the end.
fn from(bytes: &[u8], at: usize) -> &[u8]
    ensures { result.now ≡ drop at bytes.now }
{
    &bytes[at.min(bytes.len())..]
}
