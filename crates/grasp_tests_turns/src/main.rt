//! What is done in a network of two nodes beside its events: nodes that begin anew, and prefixes in doubt that are settled.
//! Standard input is a table of rows. A row begins with the line `row NAME`; each line behind it is a step, and nothing has
//! happened before the first. Each line is written with what it comes to.
//!
//! The nodes are 1 and 2, on one link; node 1 holds fd01::/32, and the steps speak of fd01::/64. `want NODE` has the node's
//! agent want 64 bits from the other node, `agent NODE` makes its next call, and `agent NODE held` without sending what is
//! queued; `drain NODE` sends it. `register NODE` and `discover NODE` are calls of another agent. `datagram NUMBER`, `arrive
//! NUMBER`, `bytes NUMBER near` and `bytes NUMBER far` deliver. `restart NODE` begins a node anew with what it has, `empty NODE`
//! with nothing and `greedy NODE` with the prefix free, each where it may. `dead NODE` tells whether the prefix may be settled,
//! `settle NODE` does it, and `tell NODE` tells what the node has of the prefix.
#![tactic(auto)]

mod bench;
mod image;
mod row;
mod run;
mod step;
mod words;

use grasp_io::{ReadError, StdSource, read_all};
use row::{Lines, run_table};
use std::io;
use std::process::ExitCode;

/// The most bytes that a table may have.
const TABLE_LIMIT: u64 = 1_048_576;

/// Runs the table on standard input.
fn main(rt: HostRuntime) -> io::Result<ExitCode> {
    let mut source = StdSource::new(rt.stdin());
    let table = match read_all(rt.alloc(), &mut source, TABLE_LIMIT) {
        Ok(table) => table,
        Err(ReadError::OutOfMemory) => return stop(&rt, "out of memory"),
        Err(ReadError::Fault) => return stop(&rt, "read fault"),
        Err(ReadError::TooLarge) => return stop(&rt, "too large"),
    };
    let Ok(text) = std::str::from_utf8(&table) else {
        return stop(&rt, "not text");
    };
    match run_table(rt.alloc(), text) {
        Ok(lines) => tell(&rt, &lines),
        Err(_) => stop(&rt, "out of memory"),
    }
}

/// Tells what each line comes to.
fn tell(rt: &HostRuntime, lines: &Lines) -> io::Result<ExitCode> {
    for line in lines.as_slice() {
        rt.println(line.as_str())?;
    }
    Ok(ExitCode::from(0))
}

/// Tells why the table isn't run.
fn stop(rt: &HostRuntime, reason: &str) -> io::Result<ExitCode> {
    rt.eprintln(reason)?;
    Ok(ExitCode::from(2))
}
