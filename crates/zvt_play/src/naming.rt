//! Checks the names of a script: each is bound before it is used, and appears in place of a number.
ghost use Rattle.std.specs.Prelude.{◌≡◌, MatchOption};
ghost use Rattle.zvt_play.specs.Naming.{AreNamed, IsFirstFault, bound_field, bound_here, ends_with, fault_of, has_end};
ghost use Rattle.zvt_play.specs.Naming.{hears_last, is_heard, size_fault};
ghost use Rattle.zvt_play.specs.Playing.{acts_of};
ghost use Rattle.zvt_play.specs.Script.{act_of};

use crate::numbers::NumberField;
use crate::player::LONGEST_LINE;
use crate::step::{Action, ScriptStep};
use thiserror::Error;

/// Reason why a mark with a name cannot be used where it appears.
#[derive(Clone, Copy, Debug, Drop, PartialEq, Eq, Error)]
pub enum NameFault {
    /// A `bind` or `same` does not come after a line of the other side.
    #[error("there is no message to look at: put this mark right after a line of the other side")]
    NoMessage,
    /// A `bind` has a name that is already bound.
    #[error("the name is bound before: take another, of n0 to n99")]
    Bound,
    /// No earlier `bind` has the name.
    #[error("the name is not bound before: write e.g. '#~ bind 87 n1' after the line whose message has the number")]
    Unbound,
    /// The named number and the field differ in size.
    #[error("the named number has another size: fields 0B and 37 have three bytes, and field 87 has two")]
    Size,
    /// A `use` does not come before an own line that ends with the field.
    #[error("no own line that ends with this field comes next: give one, of 258 bytes at most, e.g. '> 06 30 06 \
        00 00 00 87 00 01'")]
    NoField,
}

/// Returns the first step whose mark can't be used where it appears, counted from 0, and the reason.
pub(crate) fn first_fault(steps: &[ScriptStep]) -> Option<(usize, NameFault)>
    ensures { MatchOption result (AreNamed (acts_of steps.now))
        (λ fault. IsFirstFault (acts_of steps.now) fault.0 fault.1) }
{
    for (at, step) in steps.iter().enumerate() {
        if let Some(why) = fault(&steps[..at], &step.action, &steps[at + 1..]) {
            return Some((at, why));
        }
    }
    None
}

/// Returns the reason why a step's mark can't be used between these steps, if there is one.
fn fault(before: &[ScriptStep], action: &Action, after: &[ScriptStep]) -> Option<NameFault>
    ensures { result ≡ fault_of (acts_of before.now) (act_of action.now) (acts_of after.now) }
{
    match action {
        Action::Bind { name, .. } => {
            if !hears_last(before) {
                return Some(NameFault::NoMessage);
            }
            match bound_field(before, *name) {
                None => None,
                Some(_) => Some(NameFault::Bound),
            }
        }
        Action::Same { field, name } => {
            if !hears_last(before) {
                return Some(NameFault::NoMessage);
            }
            size_fault(*field, bound_field(before, *name))
        }
        Action::Use { field, name } => {
            if let Some(why) = size_fault(*field, bound_field(before, *name)) {
                return Some(why);
            }
            if ends_with(*field, after) {
                None
            } else {
                Some(NameFault::NoField)
            }
        }
        _ => None,
    }
}

/// Whether the last step looks at a message of the other side.
fn hears_last(steps: &[ScriptStep]) -> bool
    ensures { result ≡ hears_last (acts_of steps.now) }
{
    match steps {
        [] => false,
        [.., step] => is_heard(&step.action),
    }
}

/// Whether a step looks at a message of the other side.
fn is_heard(action: &Action) -> bool
    ensures { result ≡ is_heard (act_of action.now) }
{
    matches!(
        action,
        Action::Await(_) | Action::Bind { .. } | Action::Same { .. }
    )
}

/// Returns the field of the first step that binds the name, if one does.
fn bound_field(steps: &[ScriptStep], name: u8) -> Option<NumberField>
    ensures { result ≡ bound_field name (acts_of steps.now) }
{
    let mut rest = steps;
    'steps: while let [step, after @ ..] = rest {
        if let Some(field) = bound_here(&step.action, name) {
            return Some(field);
        }
        rest = after;
    }
    None
}

/// Returns the field of this step if it binds the name.
fn bound_here(action: &Action, name: u8) -> Option<NumberField>
    ensures { result ≡ bound_here name (act_of action.now) }
{
    match action {
        Action::Bind { field, name: bound } if *bound == name => Some(*field),
        _ => None,
    }
}

/// Returns the reason why a name can't be used for this field, given the field in which it was bound, if any.
fn size_fault(field: NumberField, bound: Option<NumberField>) -> Option<NameFault>
    ensures { result ≡ size_fault field bound }
{
    match bound {
        None => Some(NameFault::Unbound),
        Some(found) => {
            if found.size() == field.size() {
                None
            } else {
                Some(NameFault::Size)
            }
        }
    }
}

/// Whether the first of these steps sends a line that ends with the field.
fn ends_with(field: NumberField, steps: &[ScriptStep]) -> bool
    ensures { result ≡ ends_with field (acts_of steps.now) }
{
    match steps {
        [
            ScriptStep {
                action: Action::Send(bytes),
                ..
            },
            ..
        ] => has_end(field, bytes.as_slice()),
        _ => false,
    }
}

/// Whether a line ends with the field, and is short enough to have a name's number there.
fn has_end(field: NumberField, bytes: &[u8]) -> bool
    ensures { result ≡ has_end field bytes.now }
{
    let size = field.size();
    if bytes.len() <= size || bytes.len() > LONGEST_LINE {
        return false;
    }
    bytes[bytes.len() - size - 1] == field.bmp()
}
