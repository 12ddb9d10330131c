//! The version of the library, and the number of the struct layouts that a caller shares with it.
ghost use Rattle.std.specs.Prelude.{◌≡◌};
ghost use Rattle.zvt_c.specs.Version.{abi, version};
ghost use Rattle.zvt_c.specs.Saving.{Written};

use crate::names::put_name;

/// Returns the number of the structs' layouts and of the calls' arguments. A caller that was compiled for another
/// number must not use the library.
#[unsafe(no_mangle)]
pub extern "C" fn zvt_abi() -> u32
    ensures { result ≡ abi }
{
    4
}

/// Writes the version (ASCII, no final zero) to the start of the buffer and returns its size. If the buffer is too
/// small, nothing is written.
#[unsafe(no_mangle)]
pub extern "C" fn zvt_version(buffer: &mut [u8]) -> usize
    ensures { Written version result buffer.old buffer.new }
{
    put_name("0.2.0", buffer)
}
