//! The program `grasp_node`: a node that runs for a number of turns, one that serves until it is told to stop, its store, and the
//! clients of such a node.
#![tactic(auto)]

mod check;
mod client;
mod file;
mod help;
mod name;
mod place;
mod run;
mod serve;
mod store;
mod words;

use crate::words::{Asked, task_of, words};
use grasp_io::{StandardFiles, StdSink};
use grasp_node_main::{finish, print_text};
use std::io::Write;
use std::process::ExitCode;
use std::sync::Wait;
use std::thread::Threads;

/// The status of words that are none of the program's.
pub(crate) const USAGE: u8 = 2;

/// The status after a read that failed, or where there is no node.
pub(crate) const READ_FAULT: u8 = 4;

/// The status after a write that failed.
pub(crate) const WRITE_FAULT: u8 = 5;

/// The status after want of memory.
pub(crate) const OUT_OF_MEMORY: u8 = 6;

fn main(rt: HostRuntime) -> ExitCode {
    // Before anything else is opened, so that no socket has the number of a standard stream.
    let _standard = StandardFiles::open(&rt);
    let status = match words(&rt) {
        Ok(words) => answer(&rt, &rt, &words),
        Err(status) => complain(&rt, status),
    };
    ExitCode::from(status)
}

/// Does what the words ask for. Where they are no call, nothing is touched.
fn answer<R: Threads + Wait + Sync>(rt: &HostRuntime, threads: &R, words: &[String]) -> u8 {
    match task_of(words) {
        Some(Asked::Help) => print(rt, help::HELP),
        Some(Asked::Version) => print(rt, help::VERSION),
        Some(Asked::Run(file)) => run::run(rt, threads, words, file),
        Some(Asked::Serve(file)) => serve::serve(rt, threads, words, file),
        Some(Asked::Check(file)) => check::check(rt, file),
        Some(Asked::Init(file)) => store::init(rt, file),
        Some(Asked::Store(file)) => store::show(rt, file),
        Some(Asked::Client(task, socket)) => client::talk(rt, task, socket),
        None => complain(rt, USAGE),
    }
}

/// Says why the words can't be taken.
fn complain(rt: &HostRuntime, status: u8) -> u8 {
    let line = if status == USAGE {
        help::USAGE_LINE
    } else {
        "out of memory"
    };
    let _ = writeln!(rt.stderr(), "{line}");
    status
}

/// Writes a text of the program's own.
fn print(rt: &HostRuntime, text: &str) -> u8 {
    let status = print_text(text, &mut StdSink::new(rt.stdout()));
    finish(&status, &mut StdSink::new(rt.stderr()))
}
