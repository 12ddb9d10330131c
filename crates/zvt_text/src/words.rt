//! Words that people write: prefixes, forms, and numbers in decimal digits.
ghost use Rattle.std.specs.Prelude.{◌≡◌, ◌<◌, ◌≤◌, ◌==◌, ◌^◌, true, length, option_map, IfSome};
ghost use Rattle.std.specs.Char.{is_ascii_digit};
ghost use Rattle.std.specs.List.{list_all, position, position_or_len};
ghost use Rattle.std.specs.Str.Parse.{digits_value};
ghost use Rattle.zvt_text.specs.Words.{fits, fits_place, is_number, number_in, trailing};

/// Returns the bytes after this prefix, if the word begins with it.
pub fn trailing<'a>(prefix: &[u8], word: &'a [u8]) -> Option<&'a [u8]>
    ensures { option_map (λ rest. rest.now) result ≡ trailing prefix.now word.now }
{
    word.strip_prefix(prefix)
}

/// Parses a number of one to `most` decimal digits. It may have leading zeros but no sign.
pub fn decimal_number(digits: &[u8], most: usize) -> Option<u64>
    requires { most ≤ 19 }
    ensures number { result ≡ number_in most digits.now }
    ensures small { IfSome result (λ number. number < 10 ^ most) }
{
    if is_number(digits, most) {
        Some(value(digits))
    } else {
        None
    }
}

/// Whether these are decimal digits, at least one and at most `most`.
fn is_number(digits: &[u8], most: usize) -> bool
    ensures { result ≡ is_number most digits.now }
{
    let count = digits.len();
    if count == 0 || count > most {
        return false;
    }
    all_digits(digits)
}

/// Whether each of these is a decimal digit.
fn all_digits(bytes: &[u8]) -> bool
    ensures { result ≡ list_all is_ascii_digit bytes.now }
{
    bytes.iter().all(|byte| byte.is_ascii_digit())
}

/// The value of decimal digits.
fn value(digits: &[u8]) -> u64
    requires digits { list_all is_ascii_digit digits.now ≡ true }
    requires few { length digits.now ≤ 19 }
    ensures { result ≡ digits_value 10 digits.now }
{
    let mut value = 0;
    for byte in digits {
        value = value * 10 + u64::from(*byte - b'0');
    }
    value
}

/// Returns whether a text has this form: the same bytes, with any digit for a `0`.
pub fn fits(form: &[u8], text: &[u8]) -> bool
    ensures { result ≡ fits form.now text.now }
{
    let mut places = form;
    let mut rest = text;
    'places: while let [place, more_places @ ..] = places {
        let [byte, more @ ..] = rest else {
            return false;
        };
        if !fits_place(*place, *byte) {
            return false;
        }
        places = more_places;
        rest = more;
    }
    rest.is_empty()
}

/// Returns whether a byte fits this place of the form: a 0 stands for any digit, and every other byte for itself.
fn fits_place(place: u8, byte: u8) -> bool
    ensures { result ≡ fits_place place byte }
{
    if place == b'0' {
        byte.is_ascii_digit()
    } else {
        byte == place
    }
}

/// Returns the number of bytes before the first byte with this value, or the number of all bytes if none has it.
pub fn size_before(byte: u8, words: &[u8]) -> usize
    ensures size { result ≡ position_or_len (λ other. other == byte) words.now }
    ensures fits { result ≤ length words.now }
{
    match first_of(byte, words) {
        Some(size) => size,
        None => words.len(),
    }
}

/// Returns the index of the first byte with this value.
fn first_of(byte: u8, words: &[u8]) -> Option<usize>
    ensures { result ≡ position (λ other. other == byte) words.now }
{
    words.iter().position(|other| *other == byte)
}
