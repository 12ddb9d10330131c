//! Checksums at the end of saved bytes.
ghost use Rattle.std.specs.Prelude.{◌≡◌, ◌<◌};
ghost use Rattle.zvt_till.specs.SnapshotSums.{sums_of};

/// One more than the greatest sum that four bytes of digits hold.
const SUMS: u64 = 100_000_000;

/// Returns the sum of the bytes, and the sum of all partial sums.
pub fn sums_of(bytes: &[u8]) -> (u64, u64)
    ensures sums { result ≡ sums_of bytes.now }
    ensures first { result.0 < SUMS }
    ensures second { result.1 < SUMS }
{
    let mut first = 0;
    let mut second = 0;
    'bytes: for byte in bytes {
        first = (first + u64::from(*byte)) % SUMS;
        second = (second + first) % SUMS;
    }
    (first, second)
}
