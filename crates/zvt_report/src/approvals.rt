//! What a status information says that could not be read to its end.
ghost use Rattle.std.specs.Prelude.{◌≡◌, ◌+◌, ◌<◌, ◌^◌, IfSome, MatchResult, length, take};
ghost use Rattle.std.specs.Option.{option_copied};
ghost use Rattle.zvt_field.specs.Grammar.{Field};
ghost use Rattle.zvt_report.specs.Approvals.{HoldsFields, SaysApproved, said_by, status_data};

use std::alloc::{AllocError, Global};
use zvt_bcd::{Amount, Trace};
use zvt_field::{Fields, scan_begun};
use zvt_grammar::Lengths;

/// The size of the data after which no field ends if the message goes on: the largest message has 65,535 bytes of
/// data, and one byte holds no field.
const MOST_DATA: usize = 65_533;

/// What a status information with result 00 states that could not be read to its end.
#[derive(Clone, Copy)]
pub struct UnreadableApproval {
    /// The amount, if there is exactly one.
    pub amount: Option<Amount>,
    /// The trace number, if there is exactly one.
    pub trace: Option<Trace>,
}

/// Returns the first bytes, at most that many.
fn first(bytes: &[u8], size: usize) -> &[u8]
    ensures { result.now ≡ take size bytes.now }
{
    &bytes[..size.min(bytes.len())]
}

/// Returns the data that has come of a status information, at most 65,533 bytes, or `None` for another message or if
/// the length has not come.
fn status_data(bytes: &[u8]) -> Option<&[u8]>
    ensures data { option_copied result ≡ status_data bytes.now }
    ensures few { IfSome result (λ content. length content.now + 2 < 2 ^ 16) }
{
    match bytes {
        [0x04, 0x0F, 0xFF, low, high, data @ ..] => {
            let size = 256 * *high as usize + *low as usize;
            Some(first(data, size.min(MOST_DATA)))
        }
        [0x04, 0x0F, 0xFF, ..] => None,
        [0x04, 0x0F, size, data @ ..] => Some(first(data, *size as usize)),
        _ => None,
    }
}

/// Returns what the fields of a status information state, if the result is 00.
fn said_by(fields: &Fields) -> Option<UnreadableApproval>
    ensures { result ≡ said_by fields.now }
{
    match zvt_field::result(fields) {
        Some(0) => Some(UnreadableApproval {
            amount: zvt_field::amount(fields),
            trace: zvt_field::trace(fields),
        }),
        _ => None,
    }
}

/// Returns the approval that the complete fields of a status information state. The bytes are a message from its first
/// byte on, as far as it could be read. The only error is that an allocation fails. It comes only if the data begins
/// with a complete field, or with a container some of whose objects are stored.
pub(crate) fn approval_in(
    alloc: Global,
    bytes: &[u8],
) -> Result<Option<UnreadableApproval>, AllocError>
    ensures { MatchResult result (SaysApproved bytes.now) (λ _. HoldsFields bytes.now) }
{
    match status_data(bytes) {
        Some(data) => {
            let fields = scan_begun(alloc, data, Lengths::Padded)?;
            Ok(said_by(&fields))
        }
        None => Ok(None),
    }
}
