//! The line for a vector that differs from the reader's result.
ghost use Rattle.std.specs.Prelude.{◌≡◌, IfOk};
ghost use Rattle.std.specs.String.{string_bytes};
ghost use Rattle.serde_json.specs.View.{view};
ghost use Rattle.zvt_json.specs.Strings.{line_text};
ghost use Rattle.zvt_tool.specs.Got.{got_in, got_text, got_value};

use serde_json::{Value, json};
use std::alloc::{AllocError, Global};
use zvt_text::Form;

/// Returns the line in this form for a vector in that line of the file, with the reader's result.
pub(crate) fn got(
    alloc: Global,
    form: Form,
    number: u64,
    answer: &str,
) -> Result<String, AllocError>
    ensures { IfOk result (λ line. string_bytes line ≡ got_in form number answer.now) }
{
    match form {
        Form::Text => words(alloc, number, answer),
        Form::Json => object(alloc, number, answer),
    }
}

/// Returns the line of text for a vector in that line of the file, with the reader's result.
fn words(alloc: Global, number: u64, answer: &str) -> Result<String, AllocError>
    ensures { IfOk result (λ line. string_bytes line ≡ got_text number answer.now) }
{
    format!(in alloc; "line {number}: got {answer}\n")
}

/// Returns the JSON line for a vector in that line of the file, with the reader's result.
fn object(alloc: Global, number: u64, answer: &str) -> Result<String, AllocError>
    ensures { IfOk result (λ line. string_bytes line ≡ line_text (got_value number answer.now)) }
{
    let mut line = value(alloc, number, answer)?.to_string(alloc)?;
    line.push('\n')?;
    Ok(line)
}

/// Returns the JSON value for a vector in that line of the file, with the reader's result.
fn value(alloc: Global, number: u64, answer: &str) -> Result<Value, AllocError>
    ensures { IfOk result (λ value. view value ≡ got_value number answer.now) }
{
    json!(in alloc; {"got": answer, "line": number})
}
