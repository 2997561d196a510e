//! The worked rows of the tool. Standard input is a table of rows, each the words and the input of one call and what it
//! must come to: what is written, the fault line and the number that the program exits with. A row is run over streams in
//! memory, all at once and one byte at a time. What differs is written, and last how many rows there are and how many
//! differ.
//!
//! A table is lines; `#` begins a comment. `row NAME WORD..` begins a row, and these lines belong to it:
//!
//! - `< TEXT` and `> TEXT` append a line to the input and to the output that is wanted; `<- TEXT` and `>- TEXT` append it
//!   without its end; `<x DIGITS` and `>x DIGITS` append bytes; `<* COUNT DIGITS` and `>* COUNT DIGITS` append them so often;
//! - `= LINE = ANSWER` appends the line to the input, of an agent's line the words up to the node, and the report to the
//!   output;
//! - `status NUMBER` and `fault LINE`, where the status isn't 0;
//! - `pieces COUNT` runs the row with so many bytes a call alone; `read-fails NUMBER` and `write-fails NUMBER` let that call
//!   of the source or the sink fail;
//! - `faults COUNT` lets each of the first so many reads and writes fail too, one in each run: all at once and one byte at a
//!   time. A run in which a read failed comes to a read fault, with nothing written; one in which a write failed comes to a
//!   write fault, with a beginning of the row's output written; and every other run to what the row comes to.
#![tactic(auto)]

mod failing;
mod fault;
mod row;
mod run;
mod table;

use failing::differs_failing;
use fault::TableFault;
use grasp_io::{ReadError, StdSource, read_all};
use row::Row;
use run::differs;
use std::io;
use std::process::ExitCode;
use table::rows_of;

/// The most bytes that a table may have.
const TABLE_LIMIT: u64 = 16_777_216;

fn main(rt: HostRuntime) -> io::Result<ExitCode> {
    let mut source = StdSource::new(rt.stdin());
    let table = match read_all(rt.alloc(), &mut source, TABLE_LIMIT) {
        Ok(table) => table,
        Err(ReadError::OutOfMemory) => return stop(&rt, "out of memory"),
        Err(ReadError::Fault) => return stop(&rt, "read fault"),
        Err(ReadError::TooLarge) => return stop(&rt, "too large"),
    };
    let Ok(text) = std::str::from_utf8(&table) else {
        return stop(&rt, "not text");
    };
    match rows_of(rt.alloc(), text) {
        Ok(rows) => run_all(&rt, &rows),
        Err(TableFault::BadLine { line }) => {
            rt.eprintln(format!(in rt.alloc(); "bad table in line {line}")?)?;
            Ok(ExitCode::from(3))
        }
        Err(TableFault::OutOfMemory) => stop(&rt, "out of memory"),
    }
}

/// Runs the rows, and tells what differs.
fn run_all(rt: &HostRuntime, rows: &[Row]) -> io::Result<ExitCode> {
    let mut wrong: u64 = 0;
    for row in rows {
        let difference = match differs(rt.alloc(), row)? {
            Some(difference) => Some(difference),
            None => differs_failing(rt.alloc(), row)?,
        };
        if let Some(difference) = difference {
            rt.println(difference)?;
            wrong = wrong.saturating_add(1);
        }
    }
    let count = rows.len();
    rt.println(format!(in rt.alloc(); "{count} rows, {wrong} differ")?)?;
    Ok(ExitCode::from(if wrong == 0 { 0 } else { 1 }))
}

fn stop(rt: &HostRuntime, reason: &str) -> io::Result<ExitCode> {
    rt.eprintln(reason)?;
    Ok(ExitCode::from(2))
}
