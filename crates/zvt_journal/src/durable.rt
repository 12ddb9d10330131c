//! Changes of a file that are durable when they return: one call on the device, and a sync.
ghost use Rattle.std.specs.Prelude.{◌≡◌, ◌≤◌, ◌<◌, [], ◌∷◌, length, take, OnOk, IsErrOf};
ghost use Rattle.zvt_journal.specs.Device.{Only, Torn, Swapped, Cut, Over, LeavesOnly};

use crate::{Device, DeviceError};

/// Writes bytes, and makes them durable.
pub(crate) fn write_synced<D: Device>(
    device: &mut D,
    at: usize,
    bytes: &[u8],
) -> Result<(), DeviceError>
    requires durable { Only (D.seen device.old) (D.may_leave device.old) }
    requires within { at ≤ length (D.seen device.old) }

    ensures written { OnOk result (Over at bytes.now (D.seen device.old) (D.seen device.new)) }
    ensures durable { OnOk result (Only (D.seen device.new) (D.may_leave device.new)) }
    ensures any_moment { LeavesOnly D.moment D.left_since device.old device.new
        (Torn at bytes.now (D.seen device.old)) }
    ensures failed { IsErrOf result DeviceError.Failed → D.faults device.old < D.faults device.new }
    ensures faults { D.faults device.old ≤ D.faults device.new }
    ensures full { IsErrOf result DeviceError.Full → ⊥ }
{
    device.write_at(at, bytes)?;
    device.sync()
}

/// Overwrites one byte, and makes it durable.
pub(crate) fn set_synced<D: Device>(device: &mut D, at: usize, byte: u8) -> Result<(), DeviceError>
    requires durable { Only (D.seen device.old) (D.may_leave device.old) }
    requires within { at < length (D.seen device.old) }

    ensures written { OnOk result (Over at (byte ∷ []) (D.seen device.old) (D.seen device.new)) }
    ensures durable { OnOk result (Only (D.seen device.new) (D.may_leave device.new)) }
    ensures any_moment { LeavesOnly D.moment D.left_since device.old device.new (Swapped at byte (D.seen device.old)) }
    ensures failed { IsErrOf result DeviceError.Failed → D.faults device.old < D.faults device.new }
    ensures faults { D.faults device.old ≤ D.faults device.new }
    ensures full { IsErrOf result DeviceError.Full → ⊥ }
{
    device.set_byte(at, byte)?;
    device.sync()
}

/// Cuts the file, and makes the cut durable.
pub(crate) fn cut_synced<D: Device>(device: &mut D, len: usize) -> Result<(), DeviceError>
    requires durable { Only (D.seen device.old) (D.may_leave device.old) }
    requires within { len ≤ length (D.seen device.old) }

    ensures cut { OnOk result (D.seen device.new ≡ take len (D.seen device.old)) }
    ensures durable { OnOk result (Only (D.seen device.new) (D.may_leave device.new)) }
    ensures any_moment { LeavesOnly D.moment D.left_since device.old device.new (Cut len (D.seen device.old)) }
    ensures failed { IsErrOf result DeviceError.Failed → D.faults device.old < D.faults device.new }
    ensures faults { D.faults device.old ≤ D.faults device.new }
    ensures full { IsErrOf result DeviceError.Full → ⊥ }
{
    device.cut(len)?;
    device.sync()
}
