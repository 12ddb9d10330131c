//! The identifier of the terminal.
ghost use Rattle.std.specs.Prelude.{◌≡◌};
ghost use Rattle.zvt_apdu.specs.Kinds.{kind_of};
ghost use Rattle.zvt_apdu.specs.Views.{fields_in};
ghost use Rattle.zvt_report.specs.TerminalIds.{id_in, id_of, naming_fields, terminal_after, terminal_in};

use crate::card_totals::all_digits;
use crate::statements::content_of;
use zvt_apdu::{ApduView, Kind};
use zvt_field::FieldsView;

/// The BMP of a terminal identifier.
const TERMINAL: u8 = 0x29;

/// Returns the identifier in the content of its field, if it is eight digits.
fn id_of(content: &[u8]) -> Option<[u8; 4]>
    ensures { result ≡ id_of content.now }
{
    match content {
        [a, b, c, d] if all_digits(content) => Some([*a, *b, *c, *d]),
        _ => None,
    }
}

/// Returns the identifier in these fields, if it appears exactly once.
fn id_in(fields: &FieldsView<'_>) -> Option<[u8; 4]>
    ensures { result ≡ id_in fields.now }
{
    id_of(content_of(fields, TERMINAL)?)
}

/// Returns the fields of a status information or a completion.
fn naming_fields<'a>(apdu: &ApduView<'a>) -> Option<FieldsView<'a>>
    ensures { result ≡ naming_fields (kind_of apdu.now) (fields_in apdu.now) }
{
    match apdu.kind() {
        Kind::Status | Kind::Completion => apdu.fields(),
        _ => None,
    }
}

/// Returns the identifier that this message of a terminal names, if it is a status information or a completion.
pub(crate) fn terminal_in(apdu: &ApduView<'_>) -> Option<[u8; 4]>
    ensures { result ≡ terminal_in apdu.now }
{
    match naming_fields(apdu) {
        Some(fields) => id_in(&fields),
        None => None,
    }
}

/// Returns the identifier that was named first. `found` was named after `before`.
pub(crate) fn terminal_after(before: Option<[u8; 4]>, found: Option<[u8; 4]>) -> Option<[u8; 4]>
    ensures { result ≡ terminal_after before found }
{
    match (before, found) {
        (_, None) => before,
        (None, Some(_)) => found,
        (Some(_), Some(_)) => before,
    }
}
