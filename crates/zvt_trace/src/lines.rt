//! The lines of a trace.
ghost use Rattle.std.specs.Prelude.{◌∷◌, ◌==◌, ◌≡◌, ◌<◌, ◌≤◌, ◌+◌, length, MatchOption};
ghost use Rattle.std.specs.List.{position};
ghost use Rattle.std.specs.Str.Lines.{lines, strip_carriage_return};
ghost use Rattle.zvt_trace.specs.Chunks.{EndsAt, EndsFirst, HasNoEnd};

/// The first line, and what follows it.
#[inline(always)]
pub fn next_line(rest: &[u8]) -> (&[u8], &[u8])
    requires { 0 < length rest.now }
    ensures lines { lines rest.now ≡ result.0.now ∷ lines result.1.now }
    ensures shorter { length result.0.now + length result.1.now ≤ length rest.now }
    ensures some { length result.1.now < length rest.now }
{
    match newline(rest) {
        Some(end) => (without_return(&rest[..end]), &rest[end + 1..]),
        None => (rest, &[]),
    }
}

/// Returns the index of the first line feed.
#[inline(always)]
pub(crate) fn newline(bytes: &[u8]) -> Option<usize>
    ensures place { result ≡ position (λ byte. byte == 10) bytes.now }
    ensures ends { MatchOption result (HasNoEnd bytes.now) (EndsFirst bytes.now) }
{
    memchr::memchr(b'\n', bytes)
}

/// Where the last line feed stands.
pub(crate) fn last_newline(bytes: &[u8]) -> Option<usize>
    ensures { MatchOption result (HasNoEnd bytes.now) (EndsAt bytes.now) }
{
    memchr::memrchr(b'\n', bytes)
}

/// The line without one carriage return at its end.
#[inline(always)]
fn without_return(line: &[u8]) -> &[u8]
    ensures value { result.now ≡ strip_carriage_return line.now }
    ensures shorter { length result.now ≤ length line.now }
{
    match line {
        [prefix @ .., b'\r'] => prefix,
        _ => line,
    }
}
