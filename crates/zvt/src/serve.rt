//! A till as an HTTP service, as the command line asks for it.

use crate::book;
use crate::earlier::earlier_books;
use crate::exit::Exit;
use crate::one_file::report_one_file;
use crate::reports::{SOME_SECONDS, report_failed, report_invalid, report_on};
use crate::service_host::ServiceHost;
use crate::settings::service_settings;
use crate::token::token;
use crate::trace_file::{self, mend_after, run_trace};
use std::fs::File;
use std::net::{SocketAddr, ToSocketAddrs};
use std::{io, str};
use zvt_journal::FileDevice;
use zvt_serve::{Server, ServerOptions, TerminalOptions};
use zvt_service::Service;
use zvt_stream::LineForm;
use zvt_till::{Outcome, TillSettings};
use zvt_tool::ServeOptions;
use zvt_tool::options::lengths_by;
use zvt_tool::statuses::{DEVICE, DONE, WORDS};
use zvt_web::Guards;

/// The most clients at a time.
const MOST_CLIENTS: u16 = 1000;

/// The report on the key of an order that was running when the service ended.
const UNCLEAR: &str =
    "the order with this key is unclear: look at the terminal's receipts before you send another";

/// Where the service and its terminal are.
#[derive(Clone, Copy)]
struct Addresses {
    service: SocketAddr,
    terminal: SocketAddr,
}

/// Serves a till over HTTP until a client stops it, and returns the exit status.
pub fn serve(rt: &HostRuntime, options: &ServeOptions<'_>) -> Result<u8, Exit> {
    let Some(settings) = service_settings(rt, options)? else {
        return Ok(WORDS);
    };
    if report_numbers(rt, options)? {
        return Ok(WORDS);
    }
    let Some(addresses) = resolved(rt, options)? else {
        return Ok(WORDS);
    };
    let token = token(rt, options.token_file)?;
    serve_at(rt, options, addresses, &settings, token.as_slice())
}

/// Opens the books and the trace, listens, and serves.
fn serve_at(
    rt: &HostRuntime,
    options: &ServeOptions<'_>,
    addresses: Addresses,
    settings: &TillSettings,
    token: &[u8],
) -> Result<u8, Exit> {
    if report_one_file(rt, Some(options.book), options.trace)? {
        return Ok(WORDS);
    }
    let mut service = opened(rt, options, settings)?;
    let trace = trace_file::opened(rt, options.trace)?;
    let bound = Server::bind(rt, rt.alloc(), &server_options(options, addresses));
    let mut server = match bound {
        Ok(server) => server,
        Err(error) => {
            report_failed(rt, options.host, "cannot listen", &error)?;
            return Ok(DEVICE);
        }
    };
    let status = serve_with(
        rt,
        options,
        &mut server,
        &mut service,
        trace.as_ref(),
        token,
    )?;
    Ok(mend_after(rt, options.trace, trace.as_ref(), status)?)
}

/// Opens the book of the service, which knows the earlier books.
fn opened(
    rt: &HostRuntime,
    options: &ServeOptions<'_>,
    settings: &TillSettings,
) -> Result<Service<FileDevice>, Exit> {
    let earlier = earlier_books(rt, options.book, options.earlier.as_slice())?;
    let mut service: Service<FileDevice> = book::open(rt, options.book, settings)?;
    for book in earlier {
        service.remember(book)?;
    }
    Ok(service)
}

/// Serves with this till until a client stops it, or the trace cannot be written.
fn serve_with(
    rt: &HostRuntime,
    options: &ServeOptions<'_>,
    server: &mut Server,
    service: &mut Service<FileDevice>,
    trace: Option<&File>,
    token: &[u8],
) -> io::Result<u8> {
    let address = server.address()?;
    let guards = guards(rt, options, address.port(), token)?;
    let mut host = ServiceHost::new(rt, options.book, run_trace(trace, options.no_times))?;
    println!(rt; "serving at http://{address}")?;
    if let Err(error) = server.run(rt, &guards, service, &mut host) {
        report_failed(rt, options.host, "the service ended", &error)?;
        return Ok(DEVICE);
    }
    if host.lacks_line() {
        report_last(rt, service)?;
        return Ok(DEVICE);
    }
    Ok(DONE)
}

/// Reports the key of the last order if it is unclear how the order ended.
fn report_last(rt: &HostRuntime, service: &Service<FileDevice>) -> io::Result<()> {
    let Some(last) = service.orders().last() else {
        return Ok(());
    };
    if let (Some(Outcome::Unclear(_)), Some(key)) = (&last.outcome, last.note.reference())
        && let Ok(key) = str::from_utf8(key)
    {
        report_on(rt, key, UNCLEAR)?;
    }
    Ok(())
}

fn server_options(options: &ServeOptions<'_>, addresses: Addresses) -> ServerOptions {
    ServerOptions {
        address: addresses.service,
        terminal: TerminalOptions {
            address: addresses.terminal,
            form: LineForm {
                lengths: lengths_by(options.loose),
                passes: options.reads_on,
            },
            timeout: options.timeout,
            asks: !options.no_ask,
        },
        clients: options.clients as usize,
    }
}

/// Returns the guards of the service at this port: its own host names, and the one that the options add.
fn guards(
    rt: &HostRuntime,
    options: &ServeOptions<'_>,
    port: u16,
    token: &[u8],
) -> io::Result<Guards> {
    let own = ["127.0.0.1", "localhost", options.host];
    let more = match options.allow_host {
        Some(name) => [own[0], own[1], own[2], name],
        None => [own[0], own[1], own[2], own[2]],
    };
    Ok(Guards::new(rt.alloc(), &more, port, token)?)
}

/// Returns where the service and its terminal are. Reports the first address that names no host, and returns `None`
/// then.
fn resolved(rt: &HostRuntime, options: &ServeOptions<'_>) -> io::Result<Option<Addresses>> {
    let Some(service) = first_address(rt, options.host, options.port) else {
        report_invalid(
            rt,
            "host",
            options.host,
            "expected a host name or an address of this machine",
        )?;
        return Ok(None);
    };
    let terminal = match host_and_port(options.terminal) {
        Some((host, port)) => first_address(rt, host, port),
        None => None,
    };
    match terminal {
        Some(terminal) => Ok(Some(Addresses { service, terminal })),
        None => {
            let expected = "expected HOST:PORT, e.g. 192.0.2.7:20007";
            report_invalid(rt, "address", options.terminal, expected)?;
            Ok(None)
        }
    }
}

/// Returns the parts of `HOST:PORT`. A host that contains colons is in brackets.
fn host_and_port(text: &str) -> Option<(&str, u16)> {
    let parts = match text.strip_prefix("[") {
        Some(rest) => rest.split_once("]:"),
        None => text.split_once(":"),
    };
    let (host, port) = parts?;
    match port.parse::<u16>() {
        Ok(port) if port > 0 && !host.is_empty() => Some((host, port)),
        _ => None,
    }
}

fn first_address(rt: &HostRuntime, host: &str, port: u16) -> Option<SocketAddr> {
    match (host, port).to_socket_addrs(rt) {
        Ok(mut found) => found.next(),
        Err(_) => None,
    }
}

/// Returns whether a number is out of range, and reports it.
fn report_numbers(rt: &HostRuntime, options: &ServeOptions<'_>) -> io::Result<bool> {
    if options.timeout == 0 {
        report_invalid(rt, "number of seconds", "0", SOME_SECONDS)?;
        return Ok(true);
    }
    if options.clients == 0 || options.clients > MOST_CLIENTS {
        let number = format!(in rt.alloc(); "{}", options.clients)?;
        report_invalid(
            rt,
            "number of clients",
            number.as_str(),
            "expected 1 to 1000",
        )?;
        return Ok(true);
    }
    Ok(false)
}
