//! A whole file of vectors.
ghost use Rattle.std.specs.Prelude.{◌≡◌, ◌+◌, ◌<◌, ◌≤◌, ℕ, List, length, Err, IfOk, IfSome};
ghost use Rattle.std.specs.Io.KnownBytes.{Consumes};
ghost use Rattle.std.specs.Str.Lines.{lines};
ghost use Rattle.zvt_trace.specs.Written.{limit};
ghost use Rattle.zvt_tool.specs.Checked.{AnswersLines, AnswersVectors, ChecksLine, ChecksVector};

use crate::vector_check::answers::write_answer;
use crate::vector_check::got::got;
use crate::vector_check::line::{BadLine, VectorLine, read_line};
use std::alloc::Global;
use zvt_io::{Sink, Source};
use zvt_text::Form;
use zvt_trace::{Tally, TraceFault, next_line, read_trace};

/// Compares each vector with the result of the message reader (`zvt_apdu::scan`). If they differ, writes a line in
/// this form, with the number of the vector's line and the reader's result, and counts it as bad. `messages` of the
/// tally counts the vectors.
///
/// A vector is bytes in hexadecimal, ` = `, and a result: `whole N`, `more`, or `refused at P: R`, where R is the name
/// of a reason. Spaces may separate the bytes, and numbers have no leading zeros. Empty lines and lines that begin
/// with `#` are ignored. Output for the lines before a fault has already been written.
pub fn vectors<R: Source, W: Sink>(
    alloc: Global,
    form: Form,
    reader: &mut R,
    writer: &mut W,
) -> Result<Tally, TraceFault>
    ensures taken { (taken : List ℕ) × (length taken ≤ limit + 1) × Consumes (R.remaining reader.old)
        (R.remaining reader.new) taken }
    ensures writes { IfSome (R.remaining reader.old)
        (λ text. AnswersVectors form text (W.written writer.old) (W.written writer.new) result) }
    ensures read { result ≡ Err TraceFault.Read → R.failures reader.old < R.failures reader.new }
    ensures write { result ≡ Err TraceFault.Write → W.failures writer.old < W.failures writer.new }
{
    let text = read_trace(alloc, reader)?;
    check_lines(alloc, form, text.as_slice(), writer)
}

/// Checks the vectors up to the first line that cannot be read.
fn check_lines<W: Sink>(
    alloc: Global,
    form: Form,
    text: &[u8],
    writer: &mut W,
) -> Result<Tally, TraceFault>
    requires { length text.now ≤ limit }
    ensures writes { AnswersLines form (lines text.now) (W.written writer.old) (W.written writer.new) result }
    ensures write { result ≡ Err TraceFault.Write → W.failures writer.old < W.failures writer.new }
{
    let mut messages = 0;
    let mut bad = 0;
    let mut number = 0;
    let mut rest = text;
    'lines: while !rest.is_empty() {
        let (line, after) = next_line(rest);
        number += 1;
        let counted = check_line(alloc, form, number, line, writer)?;
        messages += counted.messages;
        bad += counted.bad;
        rest = after;
    }
    Ok(Tally { messages, bad })
}

/// Checks the line of this number.
fn check_line<W: Sink>(
    alloc: Global,
    form: Form,
    number: u64,
    line: &[u8],
    writer: &mut W,
) -> Result<Tally, TraceFault>
    ensures checks { ChecksLine form number line.now (W.written writer.old) (W.written writer.new) result }
    ensures one { IfOk result (λ tally. (tally.messages ≤ 1) × (tally.bad ≤ 1)) }
    ensures write { result ≡ Err TraceFault.Write → W.failures writer.old < W.failures writer.new }
    ensures count { IfOk result (λ _. W.failures writer.new ≡ W.failures writer.old) }
{
    match read_line(alloc, line) {
        Ok(VectorLine::Comment) => Ok(Tally {
            messages: 0,
            bad: 0,
        }),
        Ok(VectorLine::Vector { bytes, claim }) => {
            check_vector(alloc, form, number, bytes.as_slice(), claim, writer)
        }
        Err(BadLine::Wrong(what)) => Err(TraceFault::Trace { line: number, what }),
        Err(BadLine::Memory) => Err(TraceFault::Memory),
    }
}

/// Checks a vector, and writes its line if the reader's result differs.
fn check_vector<W: Sink>(
    alloc: Global,
    form: Form,
    number: u64,
    bytes: &[u8],
    claim: &[u8],
    writer: &mut W,
) -> Result<Tally, TraceFault>
    ensures checks { ChecksVector form number bytes.now claim.now (W.written writer.old) (W.written writer.new) result }
    ensures one { IfOk result (λ tally. (tally.messages ≤ 1) × (tally.bad ≤ 1)) }
    ensures write { result ≡ Err TraceFault.Write → W.failures writer.old < W.failures writer.new }
    ensures count { IfOk result (λ _. W.failures writer.new ≡ W.failures writer.old) }
{
    let mut answer = String::new(alloc);
    write_answer(alloc, &mut answer, bytes)?;
    if answer.as_bytes() == claim {
        return Ok(Tally {
            messages: 1,
            bad: 0,
        });
    }
    let text = got(alloc, form, number, answer.as_str())?;
    writer.write_all(text.as_bytes())?;
    Ok(Tally {
        messages: 1,
        bad: 1,
    })
}
