//! Results of a reader, as text.
ghost use Rattle.std.specs.Prelude.{◌≡◌, ◌++◌, ℕ, List, OnOk};
ghost use Rattle.std.specs.String.{string_bytes};
ghost use Rattle.zvt_tool.specs.Vectors.{AnswersAs};

use std::alloc::{AllocError, Global};
use std::fmt::Write;
use zvt_apdu::scan;
use zvt_grammar::Scan;

/// Appends the result of the message reader for these bytes.
pub(crate) fn write_answer(alloc: Global, text: &mut String, bytes: &[u8]) -> Result<(), AllocError>
    ensures { OnOk result ((answer : List ℕ) × AnswersAs bytes.now answer
        × (string_bytes text.new ≡ string_bytes text.old ++ answer)) }
{
    match scan(alloc, bytes) {
        Ok(Scan::Whole((_, size))) => write!(text, "whole {size}"),
        Ok(Scan::More) => text.push_str("more"),
        Ok(Scan::Refused { place, why }) => write!(text, "refused at {place}: {why}"),
        Err(refused) => Err(refused),
    }
}
