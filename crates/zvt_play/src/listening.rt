//! Bytes that arrive after the last line.
ghost use Rattle.std.specs.Prelude.{◌≡◌, ◌<◌, length, IfErr, MatchOption, OnOk};
ghost use Rattle.std.specs.Io.KnownBytes.{Consumes};
ghost use Rattle.zvt_play.specs.Playing.{FallsSilent, NoneCame, SaysMore, may_come};
ghost use Rattle.zvt_play.specs.Unheard.{unheard_in};

use crate::difference::Difference;
use crate::unheard::Unheard;
use zvt_io::Source;

/// Listens until the other side closes the connection or sends nothing for the timeout of a read. If it still owes an
/// acknowledgement, that may arrive. Anything else is a surplus.
pub fn listen_on<R: Source>(reader: &mut R, is_owed: bool) -> Result<(), Difference>
    ensures ok { OnOk result (FallsSilent is_owed (R.remaining reader.old) (R.remaining reader.new)
        (R.failures reader.old) (R.failures reader.new)) }
    ensures err { IfErr result (λ why. SaysMore is_owed why (R.remaining reader.old) (R.remaining reader.new)) }
{
    let all = allowed(is_owed);
    let mut rest = all;
    let mut heard = Unheard::new();
    'reads: loop {
        let have = all.len() - rest.len();
        let Some(count) = read_more(reader, &mut heard) else {
            if have == 0 || rest.is_empty() {
                return Ok(());
            }
            return Err(Difference::Surplus { count: have });
        };
        match rest.strip_prefix(heard.bytes()) {
            Some(left) => rest = left,
            None => {
                return Err(Difference::Surplus {
                    count: have + count,
                });
            }
        }
    }
}

/// Returns the bytes that may arrive after the last line.
fn allowed(is_owed: bool) -> &'static [u8]
    ensures { result.now ≡ may_come is_owed }
{
    if is_owed { &[0x80, 0x00, 0x00] } else { &[] }
}

/// Reads once and returns the number of bytes, or `None` if none arrived.
fn read_more<R: Source>(reader: &mut R, heard: &mut Unheard) -> Option<usize>
    ensures { MatchOption result
        (NoneCame (R.remaining reader.old) (R.remaining reader.new) (R.failures reader.old) (R.failures reader.new))
        (λ count. (0 < count) × (length (unheard_in heard.new) ≡ count) × Consumes (R.remaining reader.old)
        (R.remaining reader.new) (unheard_in heard.new) × (R.failures reader.new ≡ R.failures reader.old)) }
{
    match heard.refill(reader) {
        Ok(0) => None,
        Ok(count) => Some(count),
        Err(_) => None,
    }
}
