//! The verdicts of situations: lines of TAP (the Test Anything Protocol), and a report in the JUnit format.
ghost use Rattle.std.specs.Prelude.{◌≡◌, ◌++◌, OnOk};
ghost use Rattle.zvt_tool.specs.Verdicts.{broken, case, escaped, escaped_byte, plan, suite, verdict_line};

use std::alloc::AllocError;
use zvt_text::Text;

/// Adds the first lines: the version, and the number of situations.
pub fn add_plan(text: &mut Text, situations: usize) -> Result<(), AllocError>
    ensures { OnOk result (text.new ≡ text.old ++ plan situations) }
{
    text.word(b"TAP version 13\n1..")?;
    text.number(situations)?;
    text.push(b'\n')
}

/// Adds the line of the situation with this number, counted from 1, which passed or failed.
pub fn add_verdict(
    text: &mut Text,
    is_passed: bool,
    number: usize,
    name: &str,
) -> Result<(), AllocError>
    ensures { OnOk result (text.new ≡ text.old ++ verdict_line is_passed number name.now) }
{
    if !is_passed {
        text.word(b"not ")?;
    }
    text.word(b"ok ")?;
    text.number(number)?;
    text.word(b" - ")?;
    text.word(name.as_bytes())?;
    text.push(b'\n')
}

/// Appends a situation to the test cases of a report. `difference` describes what arrived instead of the expected
/// bytes, and is empty if the situation passed.
pub fn add_case(text: &mut Text, name: &str, difference: &[u8]) -> Result<(), AllocError>
    ensures { OnOk result (text.new ≡ text.old ++ case name.now difference.now) }
{
    text.word(b"  <testcase name=\"")?;
    add_escaped(text, name.as_bytes())?;
    if difference.is_empty() {
        return text.word(b"\"/>\n");
    }
    text.word(b"\"><failure>")?;
    add_escaped(text, difference)?;
    text.word(b"</failure></testcase>\n")
}

/// Appends a situation whose play broke off to the test cases of a report, with the reason.
pub fn add_error(text: &mut Text, name: &str, why: &[u8]) -> Result<(), AllocError>
    ensures { OnOk result (text.new ≡ text.old ++ broken name.now why.now) }
{
    text.word(b"  <testcase name=\"")?;
    add_escaped(text, name.as_bytes())?;
    text.word(b"\"><error>")?;
    add_escaped(text, why)?;
    text.word(b"</error></testcase>\n")
}

/// Adds the report with these cases. `failed` situations differ, and `broken` broke off.
pub fn add_suite(
    text: &mut Text,
    name: &str,
    situations: usize,
    failed: usize,
    broken: usize,
    cases: &[u8],
) -> Result<(), AllocError>
    ensures { OnOk result (text.new ≡ text.old ++ suite name.now situations failed broken cases.now) }
{
    text.word(b"<?xml version=\"1.0\" encoding=\"UTF-8\"?>\n<testsuite name=\"")?;
    text.word(name.as_bytes())?;
    text.word(b"\" tests=\"")?;
    text.number(situations)?;
    text.word(b"\" failures=\"")?;
    text.number(failed)?;
    text.word(b"\" errors=\"")?;
    text.number(broken)?;
    text.word(b"\">\n")?;
    text.word(cases)?;
    text.word(b"</testsuite>\n")
}

/// Adds the bytes as XML text.
fn add_escaped(text: &mut Text, bytes: &[u8]) -> Result<(), AllocError>
    ensures { OnOk result (text.new ≡ text.old ++ escaped bytes.now) }
{
    let mut rest = bytes;
    'bytes: while let [byte, after @ ..] = rest {
        add_character(text, *byte)?;
        rest = after;
    }
    Ok(())
}

/// Adds one byte as XML text. A control character, which XML does not allow, becomes `?`.
fn add_character(text: &mut Text, byte: u8) -> Result<(), AllocError>
    ensures { OnOk result (text.new ≡ text.old ++ escaped_byte byte) }
{
    match byte {
        b'&' => text.word(b"&amp;"),
        b'<' => text.word(b"&lt;"),
        b'>' => text.word(b"&gt;"),
        b'"' => text.word(b"&quot;"),
        b'\n' => text.push(byte),
        0..=0x1F | 0x7F => text.push(b'?'),
        _ => text.push(byte),
    }
}
