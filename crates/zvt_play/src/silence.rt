//! A side that never answers.
ghost use Rattle.zvt_play.specs.Playing.{StaysSilent};

use zvt_io::Source;

/// The most reads of a silence.
const MOST_READS: u32 = 1_000_000;

/// Reads and discards bytes until the other side closes the connection or a read fails, for example by its timeout.
/// Ends after 1,000,000 reads at the latest.
pub fn stay_silent<R: Source>(reader: &mut R)
    ensures { StaysSilent (R.remaining reader.old) (R.remaining reader.new) (R.failures reader.old)
        (R.failures reader.new) (R.reads reader.old) (R.reads reader.new) }
{
    let mut buffer = [0; 1_024];
    for _ in 0..MOST_READS {
        match reader.read(&mut buffer) {
            Ok(count) if count > 0 => {}
            _ => return,
        }
    }
}
