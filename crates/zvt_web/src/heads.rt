//! Keeps what the routes need of the head of a request.
ghost use Rattle.std.specs.Prelude.{◌≡◌, ◌<◌, ◌==◌, All, IfOk, IfSome, length, map, option_map, take};
ghost use Rattle.std.specs.List.{position};
ghost use Rattle.httparse.specs.Spans.{IsHeaderWithin, IsRequestWithin, header_bytes, span_bytes};
ghost use Rattle.zvt_web.specs.Heads.{first_value, head_of, is_doubtful, is_repeated, path_of, started};
ghost use Rattle.zvt_web.specs.Request.{request_of};

use crate::request::Request;
use crate::words::same_letters;
use httparse::spans::{HeaderSpan, RequestSpans};
use std::alloc::{AllocError, Global};

/// Returns the request of a head, with an empty body, or `None` if a header that may come once came twice.
#[tactic(auto, unfolding(crate::specs::Heads::head_of))]
pub(crate) fn head_of(
    alloc: Global,
    input: &[u8],
    head: &RequestSpans,
    spans: &[HeaderSpan],
) -> Result<Option<Request>, AllocError>
    requires { IsRequestWithin input.now spans.now head.now }
    ensures { IfOk result (λ request. option_map request_of request
        ≡ head_of (span_bytes input.now head.now.method) (span_bytes input.now head.now.path)
        (map (header_bytes input.now) (take head.now.headers spans.now))) }
{
    let headers = &spans[..head.headers];
    if is_doubtful(input, headers) {
        return Ok(None);
    }
    Ok(Some(started(
        alloc,
        input,
        head.method.of(input),
        head.path.of(input),
        headers,
    )?))
}

#[tactic(auto, unfolding(crate::specs::Heads::started))]
fn started(
    alloc: Global,
    input: &[u8],
    method: &[u8],
    target: &[u8],
    headers: &[HeaderSpan],
) -> Result<Request, AllocError>
    requires { All (IsHeaderWithin (length input.now)) headers.now }
    ensures { IfOk result (λ request. request_of request
        ≡ started method.now target.now (map (header_bytes input.now) headers.now)) }
{
    Ok(Request {
        method: Vec::from_slice(alloc, method)?,
        path: Vec::from_slice(alloc, path_of(target))?,
        key: copy_of(alloc, first_value(b"idempotency-key", input, headers))?,
        authorization: copy_of(alloc, first_value(b"authorization", input, headers))?,
        host: copy_of(alloc, first_value(b"host", input, headers))?,
        origin: copy_of(alloc, first_value(b"origin", input, headers))?,
        prefer: copy_of(alloc, first_value(b"prefer", input, headers))?,
        last_event: copy_of(alloc, first_value(b"last-event-id", input, headers))?,
        body: Vec::new(alloc),
    })
}

fn copy_of(alloc: Global, bytes: Option<&[u8]>) -> Result<Option<Vec<u8>>, AllocError>
    ensures { IfOk result (λ copy. option_map (λ v. v.items) copy ≡ option_map (λ b. b.now) bytes.entry) }
{
    match bytes {
        Some(bytes) => Ok(Some(Vec::from_slice(alloc, bytes)?)),
        None => Ok(None),
    }
}

/// Whether a header that decides something was sent twice.
fn is_doubtful(input: &[u8], headers: &[HeaderSpan]) -> bool
    requires { All (IsHeaderWithin (length input.now)) headers.now }
    ensures { result ≡ is_doubtful (map (header_bytes input.now) headers.now) }
{
    is_repeated(b"idempotency-key", input, headers)
        || is_repeated(b"authorization", input, headers)
        || is_repeated(b"origin", input, headers)
}

/// Whether two headers have this name.
fn is_repeated(name: &[u8], input: &[u8], headers: &[HeaderSpan]) -> bool
    requires { All (IsHeaderWithin (length input.now)) headers.now }
    ensures { result ≡ is_repeated name.now (map (header_bytes input.now) headers.now) }
{
    let mut rest = headers;
    'headers: while let [header, more @ ..] = rest {
        if same_letters(header.name.of(input), name) {
            return first_value(name, input, more).is_some();
        }
        rest = more;
    }
    false
}

/// Returns the value of the first header with this name.
fn first_value<'a>(name: &[u8], input: &'a [u8], headers: &[HeaderSpan]) -> Option<&'a [u8]>
    requires { All (IsHeaderWithin (length input.now)) headers.now }
    ensures { option_map (λ v. v.now) result ≡ first_value name.now (map (header_bytes input.now) headers.now) }
{
    let mut rest = headers;
    'headers: while let [header, more @ ..] = rest {
        if same_letters(header.name.of(input), name) {
            return Some(header.value.of(input));
        }
        rest = more;
    }
    None
}

/// Returns the target up to its first `?`.
fn path_of(target: &[u8]) -> &[u8]
    ensures { result.now ≡ path_of target.now }
{
    match question_mark(target) {
        Some(end) => &target[..end],
        None => target,
    }
}

/// Returns the place of the first `?`.
fn question_mark(target: &[u8]) -> Option<usize>
    ensures place { result ≡ position (λ character. character == 63) target.now }
    ensures within { IfSome result (λ place. place < length target.now) }
{
    target.iter().position(|character| *character == b'?')
}
