//! Requests of a web client and the answers to them, as their bytes.

use bytes::BytesMut;
use std::alloc::Global;
use std::process::Abort;
use std::test::Fail;
use zvt_web::{Ask, Connection, Guards, Kind, Refusal, Reply, Request, Step, ask_of};

const PAYMENT: &str =
    "POST /payments?shop=1 HTTP/1.1\r\nHost: LOCALHOST:8080\r\nAuthorization: Bearer secret\r\n\
Origin: http://localhost:8080\r\nIdempotency-Key: sale-2026-12-01.7\r\nContent-Length: 34\r\n\r\n\
{\"amount\":1000,\"currency\":\"0978\"}\n";

/// Feeds these bytes until a step other than `Again`.
fn feed(connection: &mut Connection, input: &[u8], out: &mut BytesMut) -> Result<Step, Fail> {
    let mut rest = input;
    for _event in 0..100 {
        let read = connection.read(rest, out)?;
        rest = &rest[read.consumed..];
        match read.step {
            Step::Again => {}
            step => return Ok(step),
        }
    }
    Ok(Step::More)
}

/// Returns the request of these bytes.
fn request_of(alloc: Global, input: &str) -> Result<Request, Fail> {
    let mut out = BytesMut::new(alloc);
    match feed(&mut Connection::new(alloc), input.as_bytes(), &mut out)? {
        Step::Whole(request) => Ok(request),
        _ => Err(Fail::from("no whole request")),
    }
}

/// Returns what a new connection answers to bytes that break a rule, and whether it closes.
fn refusal_to(alloc: Global, input: &[u8]) -> Result<(String, bool), Fail> {
    let mut out = BytesMut::new(alloc);
    let mut connection = Connection::new(alloc);
    match feed(&mut connection, input, &mut out)? {
        Step::Refused(refusal) => connection.refuse(&mut out, refusal)?,
        _ => return Err(Fail::from("not refused")),
    }
    let text = std::str::from_utf8(out.as_slice()).unwrap_or("");
    Ok((String::from_str(alloc, text)?, connection.is_closed()))
}

fn guards(alloc: Global) -> Result<Guards, Fail> {
    Ok(Guards::new(alloc, &["127.0.0.1", "localhost"], 8080, b"secret")?)
}

/// Returns whether the request is refused for this reason.
fn is_refused(alloc: Global, text: &str, why: Refusal) -> Result<bool, Fail> {
    let request = request_of(alloc, text)?;
    let guards = guards(alloc)?;
    let asked = ask_of(&guards, &request);
    Ok(matches!(&asked, Err(refusal) if *refusal == why))
}

/// Returns the units of a payment, or the status of a refusal.
fn units_or_status(guards: &Guards, request: &Request) -> u64 {
    match ask_of(guards, request) {
        Ok(ask) => units_of(&ask),
        Err(refusal) => u64::from(refusal.status()),
    }
}

fn units_of(ask: &Ask<'_>) -> u64 {
    match ask {
        Ask::Pay { amount, .. } => amount.get(),
        _ => 0,
    }
}

#[test]
fn pays(rt: HostRuntime) -> Result<(), Fail> {
    let request = request_of(rt.alloc(), PAYMENT)?;
    let guards = guards(rt.alloc())?;
    let asked = ask_of(&guards, &request);
    let Ok(
        Ask::Pay {
            key,
            amount,
            currency,
        },
    ) = &asked
    else {
        return Err(Fail::from("no payment"));
    };
    assert!(rt; *key == b"sale-2026-12-01.7".as_slice());
    assert_eq!(rt; amount.get(), 1000);
    assert!(rt; currency.is_some());
    assert_eq!(rt; units_or_status(&guards, &request), 1000);
    Ok(())
}

#[test]
fn guards_hold(rt: HostRuntime) -> Result<(), Fail> {
    let alloc = rt.alloc();
    let other_host =
        "GET /book HTTP/1.1\r\nHost: evil.example\r\nAuthorization: Bearer secret\r\n\r\n";
    assert!(rt; is_refused(alloc, other_host, Refusal::Host)?);
    let other_page =
        "GET /book HTTP/1.1\r\nHost: localhost:8080\r\nOrigin: http://evil.example\r\n\r\n";
    assert!(rt; is_refused(alloc, other_page, Refusal::Origin)?);
    let preflight = "OPTIONS /payments HTTP/1.1\r\nHost: localhost:8080\r\n\r\n";
    assert!(rt; is_refused(alloc, preflight, Refusal::Preflight)?);
    let no_token = "GET /book HTTP/1.1\r\nHost: localhost:8080\r\n\r\n";
    assert!(rt; is_refused(alloc, no_token, Refusal::Token)?);
    let longer =
        "GET /book HTTP/1.1\r\nHost: localhost:8080\r\nAuthorization: Bearer secrets\r\n\r\n";
    assert!(rt; is_refused(alloc, longer, Refusal::Token)?);
    let elsewhere =
        "GET /books HTTP/1.1\r\nHost: localhost:8080\r\nAuthorization: Bearer secret\r\n\r\n";
    assert!(rt; is_refused(alloc, elsewhere, Refusal::NotFound)?);
    Ok(())
}

fn assert_refused(rt: &impl Abort, alloc: Global, input: &[u8], start: &str) -> Result<(), Fail> {
    let (text, closes) = refusal_to(alloc, input)?;
    assert!(rt; text.as_str().starts_with(start), "{text}");
    assert!(rt; text.as_str().contains("connection: close\r\n"), "{text}");
    assert!(rt; text.as_str().ends_with("\"sent\":false}\n"), "{text}");
    assert!(rt; closes);
    Ok(())
}

#[test]
fn limits_hold(rt: HostRuntime) -> Result<(), Fail> {
    let alloc = rt.alloc();
    assert_refused(
        &rt,
        alloc,
        b"GET / HTTP/1.1\r\nHost: a\r\nContent-Length: 4097\r\n\r\n",
        "HTTP/1.1 413 ",
    )?;
    assert_refused(
        &rt,
        alloc,
        b"GET / HTTP/1.1\r\nHost: a\r\nTransfer-Encoding: gzip, chunked\r\n\r\n",
        "HTTP/1.1 501 ",
    )?;
    assert_refused(
        &rt,
        alloc,
        b"GET / HTTP/1.1\r\nHost: a\r\nOrigin: b\r\norigin: b\r\n\r\n",
        "HTTP/1.1 400 ",
    )?;
    assert_refused(
        &rt,
        alloc,
        b"GET / HTTP/1.1\r\nHost: a\r\nHost: a\r\n\r\n",
        "HTTP/1.1 400 ",
    )?;
    assert_refused(&rt, alloc, b"\x16\x03\x01\x02\x00", "HTTP/1.1 400 ")?;
    let long = vec![in rt.alloc(); b'a'; 9000]?;
    let mut target = Vec::from_slice(rt.alloc(), b"GET /")?;
    target.extend_from_slice(&long)?;
    assert_refused(&rt, alloc, &target, "HTTP/1.1 414 ")?;
    let mut head = Vec::from_slice(rt.alloc(), b"GET / HTTP/1.1\r\nHost: ")?;
    head.extend_from_slice(&long)?;
    assert_refused(&rt, alloc, &head, "HTTP/1.1 431 ")?;
    let mut many = Vec::from_slice(rt.alloc(), b"GET / HTTP/1.1\r\nHost: a\r\n")?;
    for _header in 0..64 {
        many.extend_from_slice(b"a: b\r\n")?;
    }
    many.extend_from_slice(b"\r\n")?;
    assert_refused(&rt, alloc, &many, "HTTP/1.1 431 ")?;
    let mut chunked = Vec::from_slice(
        rt.alloc(),
        b"POST / HTTP/1.1\r\nHost: a\r\nTransfer-Encoding: chunked\r\n\r\n",
    )?;
    chunked.extend_from_slice(b"1001\r\n")?;
    chunked.extend_from_slice(&long)?;
    assert_refused(&rt, alloc, &chunked, "HTTP/1.1 413 ")
}

#[test]
fn answers(rt: HostRuntime) -> Result<(), Fail> {
    let mut out = BytesMut::new(rt.alloc());
    let mut connection = Connection::new(rt.alloc());
    let waiting =
        b"POST /ask HTTP/1.1\r\nHost: a\r\nExpect: 100-continue\r\nContent-Length: 2\r\n\r\n";
    assert!(rt; matches!(feed(&mut connection, waiting, &mut out)?, Step::More));
    assert!(rt; out.as_slice() == b"HTTP/1.1 100 Continue\r\n\r\n".as_slice());
    out.clear();
    assert!(rt; matches!(feed(&mut connection, b"{}", &mut out)?, Step::Whole(_)));
    let mut reply = Reply::new(202, Kind::Json, b"{}\n");
    reply.location = Some(b"/payments/0123456789abcdef");
    reply.retry_after = Some(b"1");
    reply.replayed = true;
    connection.answer(&mut out, &reply)?;
    assert!(rt;
        out.as_slice()
            == b"HTTP/1.1 202 Accepted\r\ncontent-type: application/json\r\n\
cache-control: no-store\r\nx-content-type-options: nosniff\r\nlocation: /payments/0123456789abcdef\r\n\
retry-after: 1\r\nidempotent-replayed: true\r\ncontent-length: 3\r\n\r\n{}\n"
                .as_slice()
    );
    assert!(rt; !connection.is_closed());
    out.clear();
    assert!(rt;
        matches!(
            feed(
                &mut connection,
                b"HEAD / HTTP/1.1\r\nHost: a\r\n\r\n",
                &mut out
            )?,
            Step::Whole(_)
        )
    );
    connection.decline(&mut out, Refusal::Host)?;
    let text = std::str::from_utf8(out.as_slice()).unwrap_or("");
    assert!(rt;
        text.starts_with("HTTP/1.1 421 Misdirected Request\r\n"),
        "{text}"
    );
    assert!(rt; text.ends_with("\r\n\r\n"), "{text}");
    assert!(rt; !connection.is_closed());
    Ok(())
}

#[test]
fn streams_events(rt: HostRuntime) -> Result<(), Fail> {
    let mut out = BytesMut::new(rt.alloc());
    let mut connection = Connection::new(rt.alloc());
    let asks = b"GET /events HTTP/1.1\r\nHost: a\r\nLast-Event-ID: 6\r\n\r\n";
    assert!(rt; matches!(feed(&mut connection, asks, &mut out)?, Step::Whole(_)));
    connection.begin_events(&mut out)?;
    connection.send_event(&mut out, 7, b"{\"a\":1}\r\nb")?;
    connection.send_heartbeat(&mut out)?;
    assert!(rt;
        out.as_slice()
            == b"HTTP/1.1 200 OK\r\ncontent-type: text/event-stream\r\n\
cache-control: no-store\r\nx-content-type-options: nosniff\r\ntransfer-encoding: chunked\r\n\r\n\
1d\r\nid: 7\ndata: {\"a\":1}\ndata: b\n\n\r\n4\r\n: \n\n\r\n"
                .as_slice()
    );
    Ok(())
}
