//! Messages of padded lengths in their one strict spelling.

ghost use Rattle.std.specs.Prelude.{IfOk, MatchResult};
ghost use Rattle.zvt_grammar.specs.Reading.{shortest};
ghost use Rattle.zvt_apdu.specs.Grammar.{Spells};
ghost use Rattle.zvt_apdu.specs.Normal.{AnswersNormal, WantsMemory};

use crate::apdu::Apdu;
use crate::reader::scan_loose;
use crate::writer::encode;
use std::alloc::{AllocError, Global};
use zvt_grammar::Scan;

/// Reads the first message, with lengths in any form, and returns its encoding with the shortest lengths, and the
/// number of bytes it was read from, which is never less than the size of that encoding. If there is no message,
/// returns the result of `scan_loose`. The only error is that an allocation fails, either in `scan_loose` or for the
/// encoding.
pub fn normalise(alloc: Global, bytes: &[u8]) -> Result<Scan<(Vec<u8>, usize)>, AllocError>
    ensures { MatchResult result (AnswersNormal bytes.now) (λ _. WantsMemory bytes.now) }
{
    let (apdu, taken) = match scan_loose(alloc, bytes)? {
        Scan::Whole(found) => found,
        Scan::More => return Ok(Scan::More),
        Scan::Refused { place, why } => return Ok(Scan::Refused { place, why }),
    };
    let strict = spelling_of(alloc, apdu)?;
    Ok(Scan::Whole((strict, taken)))
}

/// The strict spelling of a message that is let go.
fn spelling_of(alloc: Global, apdu: Apdu) -> Result<Vec<u8>, AllocError>
    ensures { IfOk result (λ bytes. Spells shortest apdu bytes.items) }
{
    encode(alloc, &apdu)
}
