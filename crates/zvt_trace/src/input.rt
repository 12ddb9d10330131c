//! Reads a trace, whole or in chunks.
ghost use Rattle.std.specs.Prelude.{◌≡◌, ◌<◌, ◌≤◌, ◌+◌, ℕ, List, length, Err, IfOk, vec_len};
ghost use Rattle.std.specs.Io.KnownBytes.{Consumes};
ghost use Rattle.zvt_trace.specs.Chunks.{ReadsChunk};
ghost use Rattle.zvt_trace.specs.Written.{limit, ReadsPiece, ReadsTrace};

use crate::fault::TraceFault;
use std::alloc::Global;
use zvt_io::{Failed, Source};

/// The maximum size of a trace in memory, in bytes.
pub(crate) const LIMIT: usize = 16_777_216;

/// Reads everything from the reader, up to its end or to the first byte past the limit.
pub fn read_trace<R: Source>(alloc: Global, reader: &mut R) -> Result<Vec<u8>, TraceFault>
    ensures trace { ReadsTrace (R.remaining reader.old) result }
    ensures taken { (taken : List ℕ) × (length taken ≤ limit + 1) × Consumes (R.remaining reader.old)
        (R.remaining reader.new) taken }
    ensures failed { result ≡ Err TraceFault.Read → R.failures reader.old < R.failures reader.new }
    ensures bound { IfOk result (λ trace. vec_len trace ≤ limit) }
{
    let mut trace = Vec::new(alloc);
    let mut buffer = [0u8; 16_384];
    for _turn in 0..=LIMIT {
        let capacity = (LIMIT + 1 - trace.len()).min(buffer.len());
        let taken = read_piece(reader, &mut buffer[..capacity], &mut trace)?;
        if taken == 0 {
            return Ok(trace);
        }
        if trace.len() > LIMIT {
            return Err(TraceFault::TooLong);
        }
    }
    Err(TraceFault::TooLong)
}

/// Reads once and appends the bytes to the trace. Returns their number, which is 0 at the end.
fn read_piece<R: Source>(
    reader: &mut R,
    buffer: &mut [u8],
    trace: &mut Vec<u8>,
) -> Result<usize, TraceFault>
    requires { 0 < length buffer.old }
    ensures piece { ReadsPiece (length buffer.old) (R.remaining reader.old) (R.remaining reader.new) trace.old.items
        trace.new.items result }
    ensures failed { result ≡ Err TraceFault.Read → R.failures reader.old < R.failures reader.new }
    ensures counted { IfOk result (λ _. R.failures reader.new ≡ R.failures reader.old) }
{
    let taken = match reader.read(buffer) {
        Ok(taken) => taken,
        Err(Failed) => return Err(TraceFault::Read),
    };
    trace.extend_from_slice(&buffer[..taken])?;
    Ok(taken)
}

/// Reads a chunk of a trace into the buffer and returns the number of bytes, which is 0 at the end.
pub fn read_chunk<R: Source>(reader: &mut R, buffer: &mut [u8]) -> Result<usize, TraceFault>
    requires { 0 < length buffer.old }
    ensures chunk { ReadsChunk (R.remaining reader.old) (R.remaining reader.new) result buffer.new }
    ensures failed { result ≡ Err TraceFault.Read → R.failures reader.old < R.failures reader.new }
    ensures counted { IfOk result (λ _. R.failures reader.new ≡ R.failures reader.old) }
    ensures size { length buffer.new ≡ length buffer.old }
{
    match reader.read(buffer) {
        Ok(taken) => Ok(taken),
        Err(Failed) => Err(TraceFault::Read),
    }
}
