//! Laws of the JSON, each stated as the contract of an empty function.

ghost use Rattle.zvt_json.specs.Laws.{EventsReadBack, PasswordsStayHidden, SafeValuesAgree, SecretsStayHidden};

/// The JSON does not depend on the password of a message, and shows only the size of a field that the table of BMPs
/// hides. [`zvt_field::laws::secrets_are_hidden`] lists these fields.
pub fn secrets_stay_hidden()
    ensures passwords { PasswordsStayHidden }
    ensures fields { SecretsStayHidden }
{}

/// If two messages differ only in their secrets, and these have the same sizes, their JSON is equal.
/// [`zvt_text::laws::safe_texts_agree`] lists the secrets.
pub fn safe_values_agree()
    ensures { SafeValuesAgree }
{}

/// The kit's crate `serde_json` reads the text of each event back as its value.
pub fn events_read_back()
    ensures { EventsReadBack }
{}
