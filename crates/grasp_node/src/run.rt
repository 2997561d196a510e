//! A node that makes its turns.
use crate::{file, name};
use grasp_io::{
    FileSource, Journal, Links, LogLevel, LogSwitch, MioLinks, StdClock, StdSink, random_seed,
};
use grasp_node_main::{Status, finish, node_main};
use grasp_trace::Traced;
use std::env::{self, VarError};
use std::io::Write;
use std::sync::Wait;
use std::thread::Threads;

/// Runs a node, and returns the status to end with, after the fault line was told.
pub(crate) fn run<R: Threads + Wait + Sync>(
    rt: &HostRuntime,
    threads: &R,
    words: &[String],
    file: &str,
) -> u8 {
    let status = run_seeded(rt, threads, words, file);
    if status == Status::ReadFault {
        tell_missing(rt, file);
    }
    let mut errors = StdSink::new(rt.stderr());
    finish(&status, &mut errors)
}

/// Says why the file can't be read, where that is so.
fn tell_missing(rt: &HostRuntime, file: &str) {
    let _ = file::read(rt, file);
}

/// Runs a node with a seed of the machine's, and its agents in threads of the second runtime. Where the environment has
/// GRASP_TRACE, what the node's links give and take is written to standard error, behind the time and the node's address.
fn run_seeded<R: Threads + Wait + Sync>(
    rt: &HostRuntime,
    threads: &R,
    words: &[String],
    file: &str,
) -> Status {
    let Some(seed) = random_seed(rt) else {
        return Status::ReadFault;
    };
    let mut links = MioLinks::new(rt, rt.alloc());
    if let Err(VarError::NotPresent) = env::var(rt, "GRASP_TRACE") {
        let status = run_over(rt, threads, words, file, seed, &mut links);
        return ended(rt, status, links);
    }
    let name = name::of_file(rt, file);
    let switch = LogSwitch::new(LogLevel::Traffic);
    let journal = Journal::new(
        rt.stderr(),
        rt,
        name.as_str().trim_start(),
        &switch,
        LogLevel::Traffic,
    );
    let mut traced = Traced::new(rt.alloc(), links, journal);
    let status = run_over(rt, threads, words, file, seed, &mut traced);
    ended(rt, status, traced.into_links())
}

/// Ends all streams, and says why the links couldn't be opened where that is so.
fn ended(rt: &HostRuntime, status: Status, mut links: MioLinks<&HostRuntime>) -> Status {
    links.settle();
    if let Some(why) = links.why() {
        let _ = writeln!(rt.stderr(), "grasp_node: {why}");
    }
    status
}

/// Runs a node over these links.
fn run_over<R: Threads + Wait + Sync, L: Links>(
    rt: &HostRuntime,
    threads: &R,
    words: &[String],
    file: &str,
    seed: [u8; 32],
    links: &mut L,
) -> Status {
    let mut source = FileSource::open(rt, file);
    let mut sink = StdSink::new(rt.stdout());
    let mut clock = StdClock::new(rt);
    node_main(
        threads,
        rt.alloc(),
        words,
        &mut source,
        &mut sink,
        links,
        &mut clock,
        seed,
    )
}
