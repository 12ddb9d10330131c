//! Parts of texts.
ghost use Rattle.std.specs.Prelude.{◌≡◌, ◌++◌, option_map, OnOk};
ghost use Rattle.std.specs.Str.{bytes_eq};
ghost use Rattle.zvt_web.specs.Words.{leading, same_letters, trailing};

use std::alloc::AllocError;

/// Whether the texts are equal.
pub(crate) fn is_text(one: &[u8], other: &[u8]) -> bool
    ensures { result ≡ bytes_eq one.now other.now }
{
    one == other
}

/// Returns the bytes after this prefix, if the text begins with it.
pub(crate) fn trailing<'a>(prefix: &[u8], text: &'a [u8]) -> Option<&'a [u8]>
    ensures { option_map (λ rest. rest.now) result ≡ trailing prefix.now text.now }
{
    text.strip_prefix(prefix)
}

/// Returns the bytes before this suffix, if the text ends with it.
pub(crate) fn leading<'a>(suffix: &[u8], text: &'a [u8]) -> Option<&'a [u8]>
    ensures { option_map (λ rest. rest.now) result ≡ leading suffix.now text.now }
{
    text.strip_suffix(suffix)
}

/// Whether the texts are equal if upper and lower case of ASCII letters count as the same.
pub(crate) fn same_letters(one: &[u8], other: &[u8]) -> bool
    ensures { result ≡ same_letters one.now other.now }
{
    one.eq_ignore_ascii_case(other)
}

/// Appends bytes. Fails only if an allocation fails.
pub(crate) fn put(out: &mut Vec<u8>, bytes: &[u8]) -> Result<(), AllocError>
    ensures { OnOk result (out.new.items ≡ out.old.items ++ bytes.now) }
{
    out.extend_from_slice(bytes)
}
