//! Texts about a step that could not be played.
ghost use Rattle.std.specs.Prelude.{◌≡◌, ◌≤◌, ◌++◌, ℕ, List, codes, IfOk, OnOk, length, take};
ghost use Rattle.zvt_stream.specs.LineReading.{reading_as};
ghost use Rattle.zvt_trace.specs.Emitting.{other};
ghost use Rattle.zvt_trace.specs.Lines.{direction_text};
ghost use Rattle.zvt_play.specs.DifferenceTexts.{SaysAwaited, SaysBytes, SaysCame, SaysCause, SaysDifference};
ghost use Rattle.zvt_play.specs.DifferenceTexts.{SaysWanted, SaysWhole, beginning_text, field_text, heard_before};
ghost use Rattle.zvt_play.specs.DifferenceTexts.{name_text, place_text, refusal_text, surplus, unread_text};
ghost use Rattle.zvt_play.specs.Playing.{IsMessage};

use crate::difference::Difference;
use crate::numbers::{Names, Number, NumberField};
use crate::role::Role;
use crate::step::{Action, ScriptStep};
use std::alloc::{AllocError, Global};
use zvt_grammar::Why;
use zvt_stream::{FedView, LineForm, Stream};
use zvt_text::{Text, TextOptions, hexadecimal, message};
use zvt_trace::Direction;

/// Describes a difference: the safe texts of the expected message and of the one that arrived, if any. `came` has the
/// bytes of the latter. An unread message is named by its control bytes, its size, and where and why it is refused. An
/// expected name is shown with its number. For surplus bytes, returns the text of [`surplus_text`].
pub fn difference_text(
    alloc: Global,
    role: Role,
    step: Option<&ScriptStep>,
    names: &Names,
    why: Difference,
    came: Option<&[u8]>,
) -> Result<Text, AllocError>
    ensures { IfOk result (SaysDifference (reading_as role.form) role.own step.entry names.now why came.entry) }
{
    if let Difference::Surplus { count } = why {
        return surplus_text(alloc, step, count);
    }
    let mut text = Text::new(alloc);
    add_place(&mut text, step)?;
    add_other(&mut text, alloc, role, step, names, why, came)?;
    Ok(text)
}

/// Describes bytes that arrived although the trace has none before this step, or before its end.
pub fn surplus_text(
    alloc: Global,
    step: Option<&ScriptStep>,
    count: usize,
) -> Result<Text, AllocError>
    ensures { IfOk result (λ text. text ≡ surplus step.entry count) }
{
    let mut text = Text::new(alloc);
    add_place(&mut text, step)?;
    text.word(b": ")?;
    text.number(count)?;
    text.word(b" bytes came before it that the trace does not have\n")?;
    Ok(text)
}

/// Returns the side that is not played.
fn other_side(own: Direction) -> Direction
    ensures { result ≡ other own }
{
    match own {
        Direction::FromTill => Direction::FromTerminal,
        Direction::FromTerminal => Direction::FromTill,
    }
}

/// Adds where in the trace a step is.
fn add_place(text: &mut Text, step: Option<&ScriptStep>) -> Result<(), AllocError>
    ensures { OnOk result (text.new ≡ text.old ++ place_text step.entry) }
{
    match step {
        None => text.word(b"the end of the trace"),
        Some(step) => {
            text.word(b"line ")?;
            text.number(step.line)
        }
    }
}

/// Adds what is expected from the other side, and what arrived instead.
fn add_other(
    text: &mut Text,
    alloc: Global,
    role: Role,
    step: Option<&ScriptStep>,
    names: &Names,
    why: Difference,
    came: Option<&[u8]>,
) -> Result<(), AllocError>
    ensures { OnOk result ((awaited : List ℕ) × (cause : List ℕ)
        × SaysAwaited (reading_as role.form) step.entry names.now why awaited
        × SaysCause (reading_as role.form) (other role.own) why came.entry cause
        × (text.new ≡ text.old ++ codes " awaits\n" ++ direction_text (other role.own) ++ codes " " ++ awaited
        ++ cause)) }
{
    let from = other_side(role.own);
    text.word(b" awaits\n")?;
    add_sign(text, from)?;
    add_awaited(text, alloc, role.form, step, names, why)?;
    add_cause(text, alloc, role.form, from, why, came)
}

/// Adds the sign of a side, and a space.
fn add_sign(text: &mut Text, from: Direction) -> Result<(), AllocError>
    ensures { OnOk result (text.new ≡ text.old ++ (direction_text from ++ codes " ")) }
{
    text.word(from.sign().as_bytes())?;
    text.push(b' ')
}

/// Adds the expected message.
fn add_awaited(
    text: &mut Text,
    alloc: Global,
    form: LineForm,
    step: Option<&ScriptStep>,
    names: &Names,
    why: Difference,
) -> Result<(), AllocError>
    ensures { OnOk result ((awaited : List ℕ) × SaysAwaited (reading_as form) step.entry names.now why awaited
        × (text.new ≡ text.old ++ awaited)) }
{
    match step {
        Some(
            ScriptStep {
                action: Action::Await(bytes),
                ..
            },
        ) => {
            let before = heard_before(why).min(bytes.len());
            add_wanted(text, alloc, form, &bytes[before..])
        }
        Some(
            ScriptStep {
                action: Action::Bind { field, .. },
                ..
            },
        ) => {
            add_field(text, *field)?;
            text.word(b"a number that has no name yet\n")
        }
        Some(
            ScriptStep {
                action: Action::Same { field, name },
                ..
            },
        ) => {
            add_field(text, *field)?;
            text.word(b"the number ")?;
            add_name(text, *name, names.named(*name))?;
            text.push(b'\n')
        }
        _ => text.word(b"nothing\n"),
    }
}

/// Adds the beginning of a text about a field, which is named by its BMP.
fn add_field(text: &mut Text, field: NumberField) -> Result<(), AllocError>
    ensures { OnOk result (text.new ≡ text.old ++ field_text field) }
{
    text.word(b"a message whose field ")?;
    hexadecimal(text, &[field.bmp()])?;
    text.word(b" has ")
}

/// Adds a name, and its number, if it has one.
fn add_name(text: &mut Text, name: u8, number: Option<Number>) -> Result<(), AllocError>
    ensures { OnOk result (text.new ≡ text.old ++ name_text name number) }
{
    text.word(b"n")?;
    text.number(usize::from(name))?;
    if let Some(number) = number {
        text.word(b" (")?;
        hexadecimal(text, number.bytes())?;
        text.word(b")")?;
    }
    Ok(())
}

/// Returns how many bytes of a step arrived before a difference.
fn heard_before(why: Difference) -> usize
    ensures { result ≡ heard_before why }
{
    match why {
        Difference::Other { at } => at,
        _ => 0,
    }
}

/// Adds the message that is expected to begin with these bytes.
fn add_wanted(
    text: &mut Text,
    alloc: Global,
    form: LineForm,
    wanted: &[u8],
) -> Result<(), AllocError>
    ensures { OnOk result ((first : List ℕ) × SaysWanted (reading_as form) wanted.now first
        × (text.new ≡ text.old ++ first)) }
{
    if wanted.is_empty() {
        return text.word(b"any message\n");
    }
    add_bytes(text, alloc, form, wanted)
}

/// Adds the first message in these bytes, or its beginning if it is incomplete.
fn add_bytes(text: &mut Text, alloc: Global, form: LineForm, bytes: &[u8]) -> Result<(), AllocError>
    ensures { OnOk result ((first : List ℕ) × SaysBytes (reading_as form) bytes.now first
        × (text.new ≡ text.old ++ first)) }
{
    let mut stream = Stream::reading(alloc, form);
    match stream.feed_view(bytes) {
        Ok(FedView::Message { taken }) => add_whole(text, alloc, form, &bytes[..taken]),
        Ok(FedView::More) => add_beginning(text, bytes),
        Ok(FedView::Refused { .. }) => add_beginning(text, bytes),
        Err(_) => Err(AllocError),
    }
}

/// Adds the safe text of a message. An unread message has none: it is named instead.
fn add_whole(text: &mut Text, alloc: Global, form: LineForm, bytes: &[u8]) -> Result<(), AllocError>
    requires { IsMessage (reading_as form) bytes.now }
    ensures { OnOk result ((whole : List ℕ) × SaysWhole (reading_as form) bytes.now whole
        × (text.new ≡ text.old ++ whole)) }
{
    let mut stream = Stream::of(alloc, form.lengths);
    match stream.feed_view(bytes) {
        Ok(FedView::Message { .. }) => match stream.lent() {
            Some(apdu) => message(text, TextOptions::safe(), b"", &apdu),
            None => unreachable!(),
        },
        Ok(FedView::More) => unreachable!(),
        Ok(FedView::Refused { place, why }) => add_unread(text, bytes, place, why),
        Err(_) => Err(AllocError),
    }
}

/// Adds the control bytes of an unread message, its size, and where and why it is refused.
fn add_unread(text: &mut Text, bytes: &[u8], place: usize, why: Why) -> Result<(), AllocError>
    requires { 2 ≤ length bytes.now }
    ensures { OnOk result (text.new ≡ text.old
        ++ unread_text (take 2 bytes.now) (length bytes.now) place why) }
{
    text.word(b"unread ")?;
    hexadecimal(text, &bytes[..2])?;
    text.word(b", ")?;
    text.number(bytes.len())?;
    text.word(b" bytes, ")?;
    add_refusal(text, place, why)
}

/// Adds where and why bytes are refused.
fn add_refusal(text: &mut Text, place: usize, why: Why) -> Result<(), AllocError>
    ensures { OnOk result (text.new ≡ text.old ++ refusal_text place why) }
{
    text.word(b"refused at ")?;
    text.number(place)?;
    text.word(b": ")?;
    text.word(why.name().as_bytes())?;
    text.push(b'\n')
}

/// Adds the first two of these bytes, and their number.
fn add_beginning(text: &mut Text, bytes: &[u8]) -> Result<(), AllocError>
    ensures { OnOk result (text.new ≡ text.old ++ beginning_text bytes.now) }
{
    text.word(b"a message that begins with ")?;
    hexadecimal(text, &bytes[..bytes.len().min(2)])?;
    text.word(b", ")?;
    text.number(bytes.len())?;
    text.word(b" bytes of it are given\n")
}

/// Adds what arrived, or the reason why nothing did.
fn add_cause(
    text: &mut Text,
    alloc: Global,
    form: LineForm,
    from: Direction,
    why: Difference,
    came: Option<&[u8]>,
) -> Result<(), AllocError>
    ensures { OnOk result ((cause : List ℕ) × SaysCause (reading_as form) from why came.entry cause
        × (text.new ≡ text.old ++ cause)) }
{
    match why {
        Difference::Other { .. } => {
            text.word(b"but another message came\n")?;
            add_came(text, alloc, form, from, came)
        }
        Difference::Closed { have } => {
            text.word(b"but the other side closed the connection after ")?;
            text.number(have)?;
            text.word(b" bytes of a message\n")
        }
        Difference::Malformed { place, why } => {
            text.word(b"but no message begins with what came: ")?;
            add_refusal(text, place, why)
        }
        Difference::Read => {
            text.word(b"but nothing came: the other side timed out, or the connection failed\n")
        }
        Difference::Surplus { .. } | Difference::Write => Ok(()),
    }
}

/// Adds the message that arrived, given its bytes.
fn add_came(
    text: &mut Text,
    alloc: Global,
    form: LineForm,
    from: Direction,
    came: Option<&[u8]>,
) -> Result<(), AllocError>
    ensures { OnOk result ((instead : List ℕ) × SaysCame (reading_as form) from came.entry instead
        × (text.new ≡ text.old ++ instead)) }
{
    match came {
        None => Ok(()),
        Some(bytes) => {
            add_sign(text, from)?;
            add_bytes(text, alloc, form, bytes)
        }
    }
}
