//! The fixed surface of the library: each public call and type by its path, used once.
//!
//! A name or form that is gone fails to compile, and a call that gives up fails the run. What a call returns is pinned
//! by its contract; the other crates of tests show what no contract says. docs/DECISIONS.md lists the forms that
//! differ.
#![tactic(auto)]

mod digits;
mod fields;
mod lines;
mod messages;
mod objects;
mod orders;
mod pieces;
mod terminals;
mod tools;
mod views;

use std::io;
use std::process::ExitCode;

fn main(rt: HostRuntime) -> ExitCode {
    match run(&rt) {
        Ok(true) => ExitCode::SUCCESS,
        _ => ExitCode::FAILURE,
    }
}

/// Uses each part, and prints which do as they are to. It returns whether all do.
fn run(rt: &HostRuntime) -> io::Result<bool> {
    let alloc = rt.alloc();
    let rows: [(&str, bool); 10] = [
        ("digits", digits::all()),
        ("objects", objects::all(alloc)),
        ("fields", fields::all(alloc)),
        ("messages", messages::all(alloc)),
        ("views", views::all(alloc)),
        ("pieces", pieces::all(alloc)),
        ("lines", lines::all(alloc)),
        ("orders", orders::all(alloc)),
        ("terminals", terminals::all(alloc)),
        ("tools", tools::all(rt)),
    ];
    let mut right = true;
    for (part, is_right) in rows {
        right &= is_right;
        println!(rt;
            "{part}: {}",
            if is_right { "as fixed" } else { "otherwise" }
        )?;
    }
    Ok(right)
}
