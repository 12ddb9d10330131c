//! Laws of the texts, each stated as the contract of an empty function.

ghost use Rattle.zvt_text.specs.Laws.{PasswordsStayHidden, SafeTextsAgree, SecretsStayHidden};
ghost use Rattle.zvt_text.specs.Receipts.{AsciiStays, TextsAreUtf8};

/// The text does not depend on the password of a message, and shows only the size of a field that the table of BMPs
/// hides. [`zvt_field::laws::secrets_are_hidden`] lists these fields.
pub fn secrets_stay_hidden()
    ensures passwords { PasswordsStayHidden }
    ensures fields { SecretsStayHidden }
{}

/// If two messages differ only in their secrets, and these have the same sizes, their safe texts are equal. Secrets are
/// passwords, the contents of the fields that the table of BMPs hides, the contents of objects with card data at any
/// depth, and the data of messages outside the payment profile.
pub fn safe_texts_agree()
    ensures { SafeTextsAgree }
{}

/// The text of a receipt and a line to print are UTF-8 in every code page, and a code page does not change ASCII.
pub fn receipts_are_text()
    ensures utf8 { TextsAreUtf8 }
    ensures ascii { AsciiStays }
{}
