//! Small uses of the library, to learn from: [`decode`] reads one message and prints a field of it, [`pieces`] puts one
//! together from pieces, [`listen`] walks over a trace, [`records`] keeps a journal, and [`pay`] runs a till on a line
//! of its own.
//!
//! `uses` runs them all on bytes in memory. `uses HOST PORT` registers and pays 12.34 at the terminal that listens
//! there.
#![tactic(auto)]

mod decode;
mod listen;
mod pay;
mod pieces;
mod records;

use std::process::ExitCode;
use std::{env, io};

fn main(rt: HostRuntime) -> ExitCode {
    match run(&rt) {
        Ok(()) => ExitCode::SUCCESS,
        Err(_) => ExitCode::FAILURE,
    }
}

/// Runs what the arguments ask for. An `Err` is an argument that can't be read, or a failed write.
fn run(rt: &HostRuntime) -> io::Result<()> {
    let mut arguments = env::args(rt)?.skip(1);
    if let Some(host) = arguments.next()
        && let Some(port) = arguments.next()
    {
        return pay::pay_at(rt, host.as_str(), port.parse::<u16>().unwrap_or(0));
    }
    decode::print_amount(rt, &decode::STATUS)?;
    pieces::print_pieces(rt, &pieces::PIECES)?;
    listen::print_counts(rt, listen::TRACE)?;
    records::print_records(rt, b"# a record\n")?;
    pay::pay_in_memory(rt)
}
