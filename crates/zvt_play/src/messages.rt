//! Receives messages and compares them with a line.
ghost use Rattle.std.specs.Prelude.{◌≡◌, ◌+◌, ◌++◌, ℕ, List, IfErr, IfOk, MatchResult, OnOk};
ghost use Rattle.zvt_play.specs.Playing.{Differs, Fills, Hears, IsReady, LeavesOrNot, NextOf, NoMessage, NoMore};
ghost use Rattle.zvt_play.specs.Playing.{failed_reads};
ghost use Rattle.zvt_play.specs.Unheard.{unheard_in};

use crate::difference::Difference;
use crate::unheard::Unheard;
use zvt_io::Source;
use zvt_stream::{FedView, FeedError, Stream};

/// Receives messages until they contain all demanded bytes.
pub(crate) fn hear<R: Source>(
    reader: &mut R,
    stream: &mut Stream,
    unheard: &mut Unheard,
    demanded: &[u8],
) -> Result<(), Difference>
    requires { IsReady stream.old.reading stream.old }
    ensures ok { OnOk result (Hears stream.old.reading demanded.now (unheard_in unheard.old) (R.remaining reader.old)
        (unheard_in unheard.new) (R.remaining reader.new) stream.new.lent) }
    ensures ready { OnOk result (IsReady stream.old.reading stream.new) }
    ensures err { IfErr result (λ why. Differs stream.old.reading why demanded.now (unheard_in unheard.old)
        (R.remaining reader.old) (R.remaining reader.new) stream.new) }
    ensures failures { MatchResult result (λ _. R.failures reader.new ≡ R.failures reader.old)
        (λ why. R.failures reader.new ≡ R.failures reader.old + failed_reads why) }
{
    let mut wanted = demanded;
    'messages: loop {
        match next_message(reader, stream, unheard, wanted)? {
            None => {
                let at = demanded.len() - wanted.len();
                return Err(Difference::Other { at });
            }
            Some([]) => return Ok(()),
            Some(left) => wanted = left,
        }
    }
}

/// Returns the demanded bytes that are left after this message, or `None` if it differs from them.
fn left_after<'d>(demanded: &'d [u8], message: &[u8]) -> Option<&'d [u8]>
    ensures { LeavesOrNot demanded.now message.now result }
{
    match message.strip_prefix(demanded) {
        Some(_) => Some(&[]),
        None => demanded.strip_prefix(message),
    }
}

/// Returns the demanded bytes that are left after the next piece of a message, given those left before it.
fn left_after_more<'d>(left: Option<&'d [u8]>, piece: &[u8]) -> Option<&'d [u8]>
    ensures { (demanded message : List ℕ) → LeavesOrNot demanded message left.entry
        → LeavesOrNot demanded (message ++ piece.now) result }
{
    left_after(left?, piece)
}

/// Reads until the next message is complete, which the stream then lends. Returns the demanded bytes that are left
/// after it, or `None` if it differs from them.
fn next_message<'d, R: Source>(
    reader: &mut R,
    stream: &mut Stream,
    unheard: &mut Unheard,
    demanded: &'d [u8],
) -> Result<Option<&'d [u8]>, Difference>
    requires { IsReady stream.old.reading stream.old }
    ensures ok { IfOk result (λ after. NextOf stream.old.reading demanded.now (unheard_in unheard.old)
        (R.remaining reader.old) (unheard_in unheard.new) (R.remaining reader.new) stream.new after) }
    ensures ready { IfOk result (λ _. IsReady stream.old.reading stream.new) }
    ensures err { IfErr result (λ why. NoMessage stream.old.reading why (unheard_in unheard.old)
        (R.remaining reader.old) (R.remaining reader.new)) }
    ensures failures { MatchResult result (λ _. R.failures reader.new ≡ R.failures reader.old)
        (λ why. R.failures reader.new ≡ R.failures reader.old + failed_reads why) }
{
    let mut left = Some(demanded);
    'pieces: loop {
        let have = stream.held();
        fill(reader, unheard, have)?;
        match stream.feed_view(unheard.bytes()) {
            Ok(FedView::Message { taken }) => {
                let after = left_after_more(left, &unheard.bytes()[..taken]);
                unheard.drop_first(taken);
                return Ok(after);
            }
            Ok(FedView::More) => {
                left = left_after_more(left, unheard.bytes());
                unheard.clear();
            }
            Ok(FedView::Refused { place, why }) => return Err(Difference::Malformed { place, why }),
            Err(FeedError::Stopped) => unreachable!(),
            Err(FeedError::Memory) => unreachable!(),
        }
    }
}

/// Reads more bytes if none are left. `have` bytes of the current message arrived earlier.
fn fill<R: Source>(reader: &mut R, unheard: &mut Unheard, have: usize) -> Result<(), Difference>
    ensures ok { OnOk result (Fills (unheard_in unheard.old) (R.remaining reader.old) (unheard_in unheard.new)
        (R.remaining reader.new)) }
    ensures err { IfErr result (λ why. NoMore why have (unheard_in unheard.old) (R.remaining reader.old)
        (R.remaining reader.new)) }
    ensures failures { MatchResult result (λ _. R.failures reader.new ≡ R.failures reader.old)
        (λ why. R.failures reader.new ≡ R.failures reader.old + failed_reads why) }
{
    if unheard.len() > 0 {
        return Ok(());
    }
    match unheard.refill(reader) {
        Ok(0) => Err(Difference::Closed { have }),
        Ok(_) => Ok(()),
        Err(_) => Err(Difference::Read),
    }
}
