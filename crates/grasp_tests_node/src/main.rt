//! Worked rows of single steps of nodes, and of what nodes are made of. Standard input is a table of rows; a row is lines
//! with the answer that must come to each, and nothing has happened before it. What differs is written, and last how many
//! rows there are and how many differ.
//!
//! A table is lines; one that begins with `#` is a comment, and empty ones are passed over. `row NAME` begins a row, and
//! these lines belong to it:
//!
//! - `size LIMIT` is the most bytes of a message, 2048 where no such line stands;
//! - `link NODE NODE ..` is a link of these nodes. Both stand before the other lines of the row;
//! - `NODE NOW INPUT = ANSWER` is one step: the node's number, the reading of its clock, the input, and its answer;
//! - `NODE kept = COUNT`, `NODE reading = NOW`, `NODE stream HANDLE = STREAM` and `NODE state STREAM = SESSION goes` are what
//!   can be read of a node: with `ends` for `goes` where the session has an outcome, and `none` where there is nothing;
//! - `NODE opens = yes` tells that the node can be opened, and with `no` that it can't;
//! - lines of agents, of pools and of bytes, which stand below.
//!
//! Node k has the address whose bytes are `fd`, fourteen zero bytes and k; it listens there with TCP on port 7017. Its seed
//! is 31 zero bytes and k. Its links are those of the row that name it, in order, and its neighbours on one are the other
//! members in the order of the line.
//!
//! An input is `api AGENT CALL`, `datagram LINK FROM BYTES`, `opened STREAM ADDRESS`, `bytes STREAM BYTES`, `closed STREAM`
//! or `drain MAX`. A call is one of these, where a peer is a node's number, or `at` and a locator:
//!
//! - `asa TEXT`, `unasa`, `objective TEXT FLAGS`, `unobjective TEXT`;
//! - `discover TEXT neg LOOPS TIMEOUT`, or with `syn`;
//! - `request TEXT VALUE LOOPS TIMEOUT wet PEER`, or with `dry`; `synchronize TEXT LOOPS TIMEOUT PEER`;
//! - `listen TEXT`, `unlisten TEXT`, `offer TEXT VALUE`, `unoffer TEXT`;
//! - `step HANDLE VALUE`, `wait HANDLE MILLIS`, `accept HANDLE`, `decline HANDLE TEXT`, or without a text, `invalid HANDLE
//!   VALUE`, or with `-`, `poll HANDLE`;
//! - `flood TEXT VALUE TTL LOOPS`, `floods TEXT`, `expire TEXT NODE`.
//!
//! An answer is `taken`, `turned`, `outofmemory`, `refused NUMBER NAME`, `asa NUMBER`, `done`, `started HANDLE`, `searching`,
//! `nothing`, `notyet`, `found LOCATOR ..`, `incoming HANDLE ADDRESS OBJECTIVE`, `turn OBJECTIVE`, `ended OUTCOME`, or `floods`
//! and an address, an objective and a locator or `none` for each. That of a drain is `none` or its outputs: `datagram LINK TO
//! BYTES`, `dial STREAM LOCATOR`, `send STREAM BYTES` and `close STREAM`. Texts, values, bytes, addresses, objectives and
//! locators are written as in the line of a message.
//!
//! A node may have an agent that decides for itself. `NODE agent prefix ADDRESS LENGTH .. = open` opens one with these roots,
//! `NODE agent reopen PREFIX .. doubt PREFIX .. = open` one with an image of a pool, and `NODE agent beacon NUMBER TTL LOOPS
//! TEXT VALUE = open` and `NODE agent reader NUMBER TEXT = open` open the others; what is answered for bad roots stands at
//! the pools. `NODE NOW next CALL = ANSWER` makes the agent's next call, which must be this one, and tells the agent the
//! answer; where it is another, the answer is `makes` and that call. `NODE want LENGTH LONGEST PEER` is answered `ok`, `busy
//! LENGTH LONGEST` or `full`; `NODE return PREFIX PEER` is answered `ok`, `busy PREFIX`, `notfree` or `full`; and `NODE
//! settle PREFIX` is answered `done` or `undoubted`. `NODE undone` is answered `accepting`, `offering` and `unsent`, each
//! with its prefix where there is one. `NODE tells` is answered `wanting` or `content`, how the last want ended, and the
//! pool; of a reader what it has read; and of a beacon nothing but the word.
//!
//! A row may have a pool. `pool open ADDRESS LENGTH .. = open` opens it with these roots, or the answer is `toomany`, `badroot
//! PLACE` or `overlap FIRST SECOND`. `pool reopen PREFIX .. doubt PREFIX .. = open` opens it with these prefixes free and these
//! doubtful, or the answer is `toomany` or `overlap FIRST SECOND`. `pool take LENGTH` is answered by a prefix or `none`; `pool
//! takeat PREFIX`, `pool isfree PREFIX` and `pool isdoubtful PREFIX` by `yes` or `no`; `pool settle PREFIX` by `done` or
//! `undoubted`; `pool back PREFIX`, `pool confirm PREFIX` and `pool doubt PREFIX` by `done` or `unreserved`; `pool gain PREFIX` by
//! `can gained`, `cannot overlaps PREFIX` or `cannot full`; `pool room` by a count; and `pool holds` by `free PREFIX .. reserved
//! PREFIX .. doubt PREFIX ..`.
//!
//! `item LIMIT BYTES` is answered by the shortest encoding of the item that begins the bytes and, where bytes follow it, by how
//! many it takes, or by `partial`, `malformed AT`, `nottext AT`, `toodeep AT` or `toolong`. `message LIMIT BYTES` is answered by the line
//! of the one message that the bytes are, or by such a word, `notmessage AT`, `truncated AT` or `trailing AT`; `line LIMIT LINE` by
//! the bytes of the line's message, `badtext AT` or `toolong`. `stream LIMIT SIZE BYTES` cuts bytes that come in pieces of this size:
//! the answer has each message behind the count of bytes that had come, then `taken COUNT waiting COUNT`.
//!
//! `for COUNT WORD ..` and `end` stand around lines that are run so often. In a line `{i}` is 0, 1, 2 and so on, `{next}` is 1,
//! 2, 3, `{even}` is 0, 2, 4, `{odd}` is 1, 3, 5, `{word}` is the word of this turn, and `{COUNT*WORD}` is the word so often.
//! No such block stands in another; rows may begin in one.
//!
//! The status is 0 where nothing differs, 1 where something does, 2 where the table can't be read or memory is wanted, and 3
//! where a line is none of a table.
#![tactic(auto)]

mod agent;
mod answer;
mod calls;
mod fault;
mod format;
mod input;
mod plan;
mod pool;
mod repeat;
mod row;
mod row_node;
mod table;

use fault::TableFault;
use grasp_io::{ReadError, StdSource, read_all};
use std::io;
use std::process::ExitCode;
use table::{Report, run_table};

/// The most bytes that a table may have.
const TABLE_LIMIT: u64 = 16_777_216;

/// Runs the table on standard input.
fn main(rt: HostRuntime) -> io::Result<ExitCode> {
    let mut source = StdSource::new(rt.stdin());
    let table = match read_all(rt.alloc(), &mut source, TABLE_LIMIT) {
        Ok(table) => table,
        Err(ReadError::OutOfMemory) => return stop(&rt, "out of memory"),
        Err(ReadError::Fault) => return stop(&rt, "read fault"),
        Err(ReadError::TooLarge) => return stop(&rt, "too large"),
    };
    let Ok(text) = std::str::from_utf8(&table) else {
        return stop(&rt, "not text");
    };
    match run_table(rt.alloc(), text) {
        Ok(report) => tell(&rt, &report),
        Err(TableFault::BadLine { line }) => {
            rt.eprintln(format!(in rt.alloc(); "bad table in line {line}")?)?;
            Ok(ExitCode::from(3))
        }
        Err(TableFault::OutOfMemory) => stop(&rt, "out of memory"),
    }
}

/// Tells what differs, and how many rows there are.
fn tell(rt: &HostRuntime, report: &Report) -> io::Result<ExitCode> {
    for difference in report.differences.as_slice() {
        rt.println(difference.as_str())?;
    }
    let count = report.rows;
    let wrong = report.wrong;
    rt.println(format!(in rt.alloc(); "{count} rows, {wrong} differ")?)?;
    Ok(ExitCode::from(if wrong == 0 { 0 } else { 1 }))
}

/// Tells why the table isn't run.
fn stop(rt: &HostRuntime, reason: &str) -> io::Result<ExitCode> {
    rt.eprintln(reason)?;
    Ok(ExitCode::from(2))
}
