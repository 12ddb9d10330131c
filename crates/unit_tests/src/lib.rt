//! Tests of what no contract can say and no run of the program shows, through public calls: of streams, of what a till
//! hears, saves and settles, of web requests, and of words that are printed.
//!
//! Scripts test the rest on the built program: `zvt vectors examples/vectors.txt` and `tests/data/commands.txt` the
//! messages, traces and books, `tests/chunking.py` lines that are cut into pieces, `tests/answered_till.py` a till and
//! what a terminal answers, `tests/fault_injection.py` devices that fail, and `tests/cli_help.py` the command line.
#![tactic(auto)]

#[cfg(test)]
mod asking;
#[cfg(test)]
mod assertions;
#[cfg(test)]
mod hearing;
#[cfg(test)]
mod journals;
#[cfg(test)]
mod names;
#[cfg(test)]
mod requests;
#[cfg(test)]
mod rescan;
#[cfg(test)]
mod saving;
#[cfg(test)]
mod settling;
