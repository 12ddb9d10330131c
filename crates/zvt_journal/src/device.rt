//! A file as the journal uses it: what a read returns, and what a crash may leave.
ghost use Rattle.std.specs.Prelude.{◌≡◌, ◌≤◌, ◌<◌, Bool, true, List, [], ◌∷◌, ℕ, length, take, OnErr, OnOk};
ghost use Rattle.zvt_journal.specs.declared.device.DeviceError.TheVariants.{Failed, Memory};
ghost use Rattle.zvt_journal.specs.Device.{Only, Follows, Torn, Swapped, Cut, Over, Elapses, HasCause};

use std::alloc::{AllocError, AllocFailed};
use thiserror::Error;

/// Why a record was not added.
#[derive(Clone, Copy, Debug, Drop, PartialEq, Eq, Error)]
pub enum DeviceError {
    /// An allocation failed. Nothing was written.
    #[error("out of memory: nothing was written")]
    Memory,
    /// A call on the file failed. The result of a further read is unknown, so another process has to open the file
    /// anew.
    #[error("the journal could not be written: check its disk, then open it again in another process")]
    Failed,
    /// The file has 2^60 bytes or more, or the record more than [`MAX_RECORD_LEN`](crate::MAX_RECORD_LEN). Nothing was
    /// written.
    #[error("the journal or the record is too large: nothing was written")]
    Full,
}

/// No disk space could be reserved for the records of a payment. The file is unchanged and can still be written.
#[derive(Clone, Copy, Debug, Drop, PartialEq, Eq, Error)]
#[error("the disk has no room for the records of a payment: free some space")]
pub struct NoSpace;

impl From<NoSpace> for DeviceError {
    ghost from_gives = { λ _ e. e ≡ Failed };

    fn from(_: NoSpace) -> Self {
        DeviceError::Failed
    }
}

impl From<AllocError> for DeviceError {
    ghost from_gives = { λ _ e. e ≡ Memory };

    fn from(_: AllocError) -> Self {
        DeviceError::Memory
    }
}

impl<T: Drop> From<AllocFailed<T>> for DeviceError {
    ghost from_gives = { λ _ e. e ≡ Memory };

    fn from(_: AllocFailed<T>) -> Self {
        DeviceError::Memory
    }
}

/// A file on a disk that can lose power at any moment. Writes become durable only with [`sync`](Device::sync).
///
/// Crash model: until it is synced, each byte of a write is the new byte or the old one, and 0 where the file grew. The
/// bytes of a write may reach the disk in any order. All other bytes keep their values.
///
/// No call reads. Read the file before you make a device of it: no contract of std says what a file holds.
pub trait Device {
    /// The bytes that a read returns.
    ghost seen: { Self → List ℕ };

    /// The files that a crash at this moment may leave.
    ghost may_leave: { Self → List ℕ → Type 0 };

    /// The moment: a number that never decreases.
    ghost moment: { Self → ℕ };

    /// The files that a crash at some moment since that one might have left, during a call or between two.
    ghost left_since: { Self → ℕ → List ℕ → Type 0 };

    /// The number of failures of the disk.
    ghost faults: { Self → ℕ };

    /// Whether disk space is reserved for the next writes.
    ghost has_capacity: { Self → Bool };

    /// Reserves disk space for the records of a payment. Does not change the file.
    fn reserve(&mut self) -> Result<(), NoSpace>
        ensures room { OnOk result (has_capacity self.new ≡ true) }
        ensures seen { seen self.new ≡ seen self.old }
        ensures crash { (file : List ℕ) → may_leave self.new file → may_leave self.old file }
        ensures time { Elapses (moment self.old) (moment self.new) (left_since self.old) (left_since self.new)
            (may_leave self.new) }
        ensures later { faults self.old ≤ faults self.new }
        ensures cause { OnErr result (faults self.old < faults self.new) };

    /// Overwrites bytes of the file, and extends it if they reach beyond its end. Until the next `sync`, a crash may
    /// leave any of them unwritten.
    fn write_at(&mut self, at: usize, bytes: &[u8]) -> Result<(), DeviceError>
        requires { at ≤ length (seen self.old) }
        ensures written { OnOk result (Over at bytes.now (seen self.old) (seen self.new)) }
        ensures crash { Follows (Torn at bytes.now) (may_leave self.old) (may_leave self.new) }
        ensures time { Elapses (moment self.old) (moment self.new) (left_since self.old) (left_since self.new)
            (may_leave self.new) }
        ensures cause { HasCause (faults self.old) (faults self.new) result };

    /// Overwrites one byte. Until the next `sync`, a crash may leave the old byte or the new one.
    fn set_byte(&mut self, at: usize, byte: u8) -> Result<(), DeviceError>
        requires { at < length (seen self.old) }
        ensures written { OnOk result (Over at (byte ∷ []) (seen self.old) (seen self.new)) }
        ensures crash { Follows (Swapped at byte) (may_leave self.old) (may_leave self.new) }
        ensures time { Elapses (moment self.old) (moment self.new) (left_since self.old) (left_since self.new)
            (may_leave self.new) }
        ensures cause { HasCause (faults self.old) (faults self.new) result };

    /// Cuts the file to its first `len` bytes.
    fn cut(&mut self, len: usize) -> Result<(), DeviceError>
        requires { len ≤ length (seen self.old) }
        ensures cut { OnOk result (seen self.new ≡ take len (seen self.old)) }
        ensures crash { Follows (Cut len) (may_leave self.old) (may_leave self.new) }
        ensures time { Elapses (moment self.old) (moment self.new) (left_since self.old) (left_since self.new)
            (may_leave self.new) }
        ensures cause { HasCause (faults self.old) (faults self.new) result };

    /// Makes everything written durable: from then on, a crash leaves exactly the bytes that a read returns.
    fn sync(&mut self) -> Result<(), DeviceError>
        ensures durable { OnOk result (Only (seen self.old) (may_leave self.new)) }
        ensures seen { seen self.new ≡ seen self.old }
        ensures crash { (file : List ℕ) → may_leave self.new file → may_leave self.old file }
        ensures time { Elapses (moment self.old) (moment self.new) (left_since self.old) (left_since self.new)
            (may_leave self.new) }
        ensures cause { HasCause (faults self.old) (faults self.new) result };

    /// This moment is one of the moments since an earlier one.
    ghost counts_now: { (device : Self) (t : ℕ) (file : List ℕ) → t ≤ moment device → may_leave device file
        → left_since device t file };

    /// Since this moment there has been no other.
    ghost only_now: { (device : Self) (file : List ℕ) → left_since device (moment device) file
        → may_leave device file };
}
