//! What a request asks of the till.
ghost use Rattle.std.specs.Prelude.{◌≡◌, ◌≤◌, codes, option_map, IfSome, MatchResult};
ghost use Rattle.std.specs.List.{list_all};
ghost use Rattle.zvt_web.specs.Ask.{asked};
ghost use Rattle.zvt_web.specs.Request.{request_of};
ghost use Rattle.zvt_web.specs.Routes.{ask_at, ask_elsewhere, ask_of, asked_look, first_at, is_key, is_key_letter};
ghost use Rattle.zvt_web.specs.Routes.{keyed_close, keyed_payment, keyed_reversal, last_event, route_at, route_path};
ghost use Rattle.zvt_web.specs.Routes.{route_verb, routed, sent_key};
ghost use Rattle.zvt_web.specs.Words.{trailing};

use crate::body::{payment_of, whole_number};
use crate::guards::Guards;
use crate::refusals::{Refusal, Verb};
use crate::request::Request;
use crate::words::{is_text, leading, trailing};
use zvt_bcd::{Amount, Currency};

/// What a client asks. The keys are those of the request, and have 16 to 40 characters.
#[derive(Drop)]
pub enum Ask<'a> {
    /// Pay an amount, in this currency if one is named.
    Pay {
        key: &'a [u8],
        amount: Amount,
        currency: Option<Currency>,
    },
    /// Take the payment with the key `payment` back.
    Reverse {
        key: &'a [u8],
        payment: &'a [u8],
    },
    CloseDay {
        key: &'a [u8],
    },
    /// Tell what became of the order with this key.
    Look {
        key: &'a [u8],
    },
    /// Ask the terminal for its last transaction.
    AskTerminal,
    /// Break off the running order.
    Cancel,
    Book,
    Status,
    /// Send events as they come, from the one after this number on if it is given.
    Events {
        after: Option<u64>,
    },
    Stop,
    Page,
    Script,
    Style,
}

/// A path that is always the same.
#[derive(Clone, Copy, Debug, PartialEq, Eq)]
enum Route {
    Payments,
    AskTerminal,
    EndOfDay,
    Cancel,
    Book,
    Status,
    Events,
    Stop,
    Page,
    Script,
    Style,
}

const ROUTES: [Route; 11] = [
    Route::Payments,
    Route::AskTerminal,
    Route::EndOfDay,
    Route::Cancel,
    Route::Book,
    Route::Status,
    Route::Events,
    Route::Stop,
    Route::Page,
    Route::Script,
    Route::Style,
];

/// Returns what this request asks of a service with these guards, or why it is refused.
///
/// The guards are asked first: the host, the origin and the token. Then the path and its method, the key, and the body.
pub fn ask_of<'a>(guards: &Guards, request: &'a Request) -> Result<Ask<'a>, Refusal>
    ensures { MatchResult result (λ ask. ask_of guards.now (request_of request.now) ≡ Ok (asked ask))
        (λ refusal. ask_of guards.now (request_of request.now) ≡ Err refusal) }
{
    match guards.refusal(request) {
        Some(refusal) => Err(refusal),
        None => routed(request),
    }
}

fn routed(request: &Request) -> Result<Ask<'_>, Refusal>
    ensures { MatchResult result (λ ask. routed (request_of request.now) ≡ Ok (asked ask))
        (λ refusal. routed (request_of request.now) ≡ Err refusal) }
{
    match route_at(&request.path) {
        Some(route) => {
            if is_text(&request.method, route.verb().name().as_bytes()) {
                ask_at(route, request)
            } else {
                Err(Refusal::Method(route.verb()))
            }
        }
        None => ask_elsewhere(request),
    }
}

/// What is asked under `/payments/`.
fn ask_elsewhere(request: &Request) -> Result<Ask<'_>, Refusal>
    ensures { MatchResult result
        (λ ask. ask_elsewhere (trailing (codes "/payments/") (request_of request.now).path) (request_of request.now)
        ≡ Ok (asked ask))
        (λ refusal. ask_elsewhere (trailing (codes "/payments/") (request_of request.now).path)
        (request_of request.now) ≡ Err refusal) }
{
    let Some(rest) = trailing(b"/payments/", &request.path) else {
        return Err(Refusal::NotFound);
    };
    match leading(b"/reversal", rest) {
        Some(payment) => {
            if is_text(&request.method, Verb::Post.name().as_bytes()) {
                keyed_reversal(sent_key(&request.key), payment)
            } else {
                Err(Refusal::Method(Verb::Post))
            }
        }
        None => {
            if is_text(&request.method, Verb::Get.name().as_bytes()) {
                asked_look(rest)
            } else {
                Err(Refusal::Method(Verb::Get))
            }
        }
    }
}

fn keyed_reversal<'a>(key: Option<&'a [u8]>, payment: &'a [u8]) -> Result<Ask<'a>, Refusal>
    ensures { MatchResult result
        (λ ask. keyed_reversal (option_map (λ k. k.now) key.entry) payment.now ≡ Ok (asked ask))
        (λ refusal. keyed_reversal (option_map (λ k. k.now) key.entry) payment.now ≡ Err refusal) }
{
    match key {
        Some(key) if is_key(payment) => Ok(Ask::Reverse { key, payment }),
        _ => Err(Refusal::BadKey),
    }
}

fn asked_look(key: &[u8]) -> Result<Ask<'_>, Refusal>
    ensures { MatchResult result (λ ask. asked_look key.now ≡ Ok (asked ask))
        (λ refusal. asked_look key.now ≡ Err refusal) }
{
    if is_key(key) {
        Ok(Ask::Look { key })
    } else {
        Err(Refusal::BadKey)
    }
}

/// What is asked at a route by its method.
fn ask_at(route: Route, request: &Request) -> Result<Ask<'_>, Refusal>
    ensures { MatchResult result (λ ask. ask_at route (request_of request.now) ≡ Ok (asked ask))
        (λ refusal. ask_at route (request_of request.now) ≡ Err refusal) }
{
    match route {
        Route::Payments => keyed_payment(sent_key(&request.key), &request.body),
        Route::AskTerminal => Ok(Ask::AskTerminal),
        Route::EndOfDay => keyed_close(sent_key(&request.key)),
        Route::Cancel => Ok(Ask::Cancel),
        Route::Book => Ok(Ask::Book),
        Route::Status => Ok(Ask::Status),
        Route::Events => Ok(Ask::Events {
            after: last_event(&request.last_event),
        }),
        Route::Stop => Ok(Ask::Stop),
        Route::Page => Ok(Ask::Page),
        Route::Script => Ok(Ask::Script),
        Route::Style => Ok(Ask::Style),
    }
}

fn keyed_payment<'a>(key: Option<&'a [u8]>, body: &[u8]) -> Result<Ask<'a>, Refusal>
    ensures { MatchResult result
        (λ ask. keyed_payment (option_map (λ k. k.now) key.entry) body.now ≡ Ok (asked ask))
        (λ refusal. keyed_payment (option_map (λ k. k.now) key.entry) body.now ≡ Err refusal) }
{
    let Some(key) = key else {
        return Err(Refusal::BadKey);
    };
    let Some((units, currency)) = payment_of(body) else {
        return Err(Refusal::BadBody);
    };
    match Amount::new(units) {
        Some(amount) => Ok(Ask::Pay {
            key,
            amount,
            currency: currency_of(currency),
        }),
        None => Err(Refusal::BadAmount),
    }
}

fn currency_of(number: Option<u16>) -> Option<Currency>
    requires { IfSome number (λ n. n ≤ 9999) }
    ensures { result ≡ number }
{
    match number {
        Some(number) => Currency::new(number),
        None => None,
    }
}

fn keyed_close(key: Option<&[u8]>) -> Result<Ask<'_>, Refusal>
    ensures { MatchResult result (λ ask. keyed_close (option_map (λ k. k.now) key.entry) ≡ Ok (asked ask))
        (λ refusal. keyed_close (option_map (λ k. k.now) key.entry) ≡ Err refusal) }
{
    match key {
        Some(key) => Ok(Ask::CloseDay { key }),
        None => Err(Refusal::BadKey),
    }
}

/// Returns the number of the last event that a listener has, if the header is a number.
fn last_event(sent: &Option<Vec<u8>>) -> Option<u64>
    ensures { result ≡ last_event (option_map (λ v. v.items) sent.now) }
{
    match sent {
        Some(text) => match whole_number(text)? {
            (number, []) => Some(number),
            _ => None,
        },
        None => None,
    }
}

/// Returns the key of the header, if it is one.
fn sent_key(sent: &Option<Vec<u8>>) -> Option<&[u8]>
    ensures { option_map (λ k. k.now) result ≡ sent_key (option_map (λ v. v.items) sent.now) }
{
    match sent {
        Some(key) if is_key(key) => Some(key),
        _ => None,
    }
}

/// Whether this is a key: 16 to 40 letters, digits, `-`, `_` and `.`.
pub fn is_key(key: &[u8]) -> bool
    ensures { result ≡ is_key key.now }
{
    key.len() >= 16 && key.len() <= 40 && has_key_letters(key)
}

fn has_key_letters(key: &[u8]) -> bool
    ensures { result ≡ list_all is_key_letter key.now }
{
    key.iter().all(|letter| is_key_letter(*letter))
}

fn is_key_letter(letter: u8) -> bool
    ensures { result ≡ is_key_letter letter }
{
    letter.is_ascii_alphanumeric() || letter == b'-' || letter == b'_' || letter == b'.'
}

/// Returns the route with this path.
fn route_at(path: &[u8]) -> Option<Route>
    ensures { result ≡ route_at path.now }
{
    first_at(path, &ROUTES)
}

/// Returns the first of these routes with this path.
fn first_at(path: &[u8], routes: &[Route]) -> Option<Route>
    ensures { result ≡ first_at path.now routes.now }
{
    let mut rest = routes;
    'routes: while let [route, more @ ..] = rest {
        if is_text(path, route.path().as_bytes()) {
            return Some(*route);
        }
        rest = more;
    }
    None
}

impl Route {
    fn path(self) -> &'static str
        ensures { result.now ≡ route_path self }
    {
        match self {
            Route::Payments => "/payments",
            Route::AskTerminal => "/ask",
            Route::EndOfDay => "/end-of-day",
            Route::Cancel => "/cancel",
            Route::Book => "/book",
            Route::Status => "/status",
            Route::Events => "/events",
            Route::Stop => "/stop",
            Route::Page => "/",
            Route::Script => "/till.js",
            Route::Style => "/till.css",
        }
    }

    /// Returns the one method that the route takes.
    fn verb(self) -> Verb
        ensures { result ≡ route_verb self }
    {
        match self {
            Route::Payments | Route::AskTerminal | Route::EndOfDay | Route::Cancel | Route::Stop =>
                Verb::Post,
            _ => Verb::Get,
        }
    }
}
