//! A simulated terminal over TCP, which serves tills one after another.
ghost use Rattle.std.specs.Prelude.{◌≤◌};
ghost use Rattle.zvt_stream.specs.LineReading.{reading_as};
ghost use Rattle.zvt_runs.specs.Connecting.{given_by};
ghost use Rattle.zvt_runs.specs.Tills.{AnswersService, AnswersTill, AnswersTills, IsOffline, TakesTills};

use crate::tcp::connection::{Door, listen};
use crate::tcp::delay::SocketDelay;
use crate::tcp::ends::{is_broken, terminal_end_of};
use crate::tcp::options::{RunTrace, TerminalRun};
use crate::tcp::reports::{GoneTill, report_address, report_till};
use crate::{EndFault, serve};
use std::alloc::Global;
use std::net::{Net, TcpListener, TcpStream};
use std::rt::Clock;
use zvt_io::Sink;
use zvt_stream::{LineFault, LineForm};
use zvt_term::Extended;

/// Listens, and serves tills one after another with one terminal, waiting for each without limit. The terminal's ledger
/// carries over from till to till, but each till has to register anew.
///
/// A connection that ends between two messages is not a fault. If a connection breaks in another way, only its own till
/// is affected: the remaining tills are served, and then the first such fault is returned as `Line`.
///
/// Fails with `Net` if it cannot listen on the port or accept a connection, with `Trace` if the trace cannot be
/// written, and with `Memory` if an allocation fails while a till connects or is reported.
///
/// The trace contains what the terminal received and answered, as the till sees it. `report` gets the address on which
/// the terminal listens. For each till that disconnects, it gets the rows that the ledger got from that till, and the
/// number of approvals in the ledger. All reports have the form of the run.
pub fn run_terminal<R, W>(
    rt: &R,
    alloc: Global,
    run: &TerminalRun<'_, '_>,
    report: &mut W,
) -> Result<(), EndFault>
where
    R: Net<Listener = TcpListener, Stream = TcpStream> + Clock,
    W: Sink,
    requires { run.now.tid ≤ 99999999 }
    ensures { AnswersService (reading_as run.now.line) run.now.connections run.now.tid run.now.verdict run.now.extras
        result }
{
    let mut door = match listen(rt, run.host, run.port) {
        Ok(door) => door,
        Err(why) => return Err(EndFault::Net(why)),
    };
    report_address(alloc, run.form, &door.listener, report)?;
    let mut served = Extended::new(alloc, run.tid, run.verdict, run.extras);
    serve_tills(rt, alloc, run, &mut door, &mut served, report)
}

/// Serves the tills of a run one after another, each on a connection of its own.
fn serve_tills<R: Net + Clock, W: Sink>(
    rt: &R,
    alloc: Global,
    run: &TerminalRun<'_, '_>,
    door: &mut Door,
    served: &mut Extended,
    report: &mut W,
) -> Result<(), EndFault>
    requires { IsOffline served.old.served.terminal }
    ensures served { AnswersTills (reading_as run.now.line) run.now.connections served.old served.new result }
    ensures taken { TakesTills run.now.connections (given_by door.old) (given_by door.new) result }
{
    let mut first = None;
    'tills: for gone in 0..run.connections {
        let connection = door.next().map_err(EndFault::Net)?;
        let rows_before = served.served.terminal.ledger().len();
        let broke = serve_till(rt, alloc, &connection, run.line, served, run.trace)?;
        let till = GoneTill {
            number: gone + 1,
            broke,
            rows_before,
        };
        report_till(alloc, run.form, &till, &served.served.terminal, report)?;
        if first.is_none() {
            first = broke;
        }
    }
    match first {
        None => Ok(()),
        Some(fault) => Err(EndFault::Line(fault)),
    }
}

/// Serves the till at the other end of this connection, and returns how the line broke, if it did. Fails with `Trace`,
/// or with `Memory` if an allocation failed before the till was served.
fn serve_till<R: Net + Clock>(
    rt: &R,
    alloc: Global,
    connection: &TcpStream,
    line: LineForm,
    served: &mut Extended,
    trace: Option<RunTrace<'_>>,
) -> Result<Option<LineFault>, EndFault>
    requires { IsOffline served.old.served.terminal }
    ensures { AnswersTill (reading_as line) served.old served.new result }
{
    let mut end = terminal_end_of(rt, alloc, connection, line, trace)?;
    let mut delay = SocketDelay::new(rt, alloc, connection, served.extras.delay);
    let broke = serve(alloc, &mut end, served, &mut delay).err();
    if is_broken(rt, alloc, &end, trace) {
        return Err(EndFault::Trace);
    }
    Ok(broke)
}
