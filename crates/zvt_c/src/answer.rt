//! Results of reading, as numbers.
ghost use Rattle.std.specs.Prelude.{◌≡◌};
ghost use Rattle.zvt_c.specs.Answers.{code_of_why, answer_of, out_of_memory};
ghost use Rattle.zvt_c.specs.Statuses as statuses;

use crate::statuses;
use zvt_apdu::Apdu;
use zvt_grammar::{Scan, Why};

/// The first message in the bytes. `status` says which of the other numbers apply; the rest are 0.
#[repr(C)]
#[derive(Clone, Copy, Drop)]
pub struct ZvtAnswer {
    /// The size of a complete message, in bytes.
    pub size: u64,
    /// If the bytes are refused, the index of the first byte after which no message can follow.
    pub place: u64,
    /// If the bytes are refused, the reason: 1 to 8.
    pub reason: u32,
    /// 0 whole, 1 more bytes are needed, 2 refused, 3 out of memory.
    pub status: u32,
}

/// Returns the number of a reason.
pub fn reason_code(why: Why) -> u32
    ensures { result ≡ code_of_why why }
{
    match why {
        Why::NotShortest => 1,
        Why::DoesNotFit => 2,
        Why::LengthForm => 3,
        Why::TooDeep => 4,
        Why::TagTooLong => 5,
        Why::UnknownField => 6,
        Why::NotDigit => 7,
        Why::LengthDigit => 8,
    }
}

/// Returns the answer that a complete message of this size comes first.
pub fn found(size: usize) -> ZvtAnswer
    ensures { result ≡ record { size = size; place = 0; reason = 0; status = statuses.ok } }
{
    ZvtAnswer {
        size: size as u64,
        place: 0,
        reason: 0,
        status: statuses::OK,
    }
}

/// Returns an answer that has only a status.
pub fn bare(status: u32) -> ZvtAnswer
    ensures { result ≡ record { size = 0; place = 0; reason = 0; status = status } }
{
    ZvtAnswer {
        size: 0,
        place: 0,
        reason: 0,
        status,
    }
}
