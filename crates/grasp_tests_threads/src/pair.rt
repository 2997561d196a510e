//! Two whole nodes over the loopback of the machine, each with its agents in threads: one is delegated a prefix by the other.

use grasp_io::{MemSink, MemSource, MioLinks, StdClock};
use grasp_node_main::{Gate, Status, node_run};
use std::io;
use std::net::{Ipv4Addr, SocketAddr, TcpListener};
use std::sync::Wait;
use std::sync::atomic::{AtomicU64, Ordering};
use std::test::Fail;
use std::thread::{Threads, join, yield_now};

/// How often the taker looks for the giver, before it begins all the same.
const LOOKS: u64 = 1_000_000;

/// A port of this address at which nobody listens just now.
fn free_port(rt: &HostRuntime, ip: Ipv4Addr) -> io::Result<u16> {
    let listener = TcpListener::bind(rt, SocketAddr::from((ip, 0)))?;
    Ok(listener.local_addr()?.port())
}

/// The gate of the giver, whose agent calls once its links are open.
#[derive(Drop)]
struct Giver<'a> {
    opened: &'a AtomicU64,
}

impl Gate for Giver<'_> {
    fn before(&self, _agent: u8, _call: u64) {
        self.opened.store(1, Ordering::SeqCst);
    }
}

/// The gate of the taker, whose agent waits for the giver's links.
#[derive(Drop)]
struct Taker<'a> {
    opened: &'a AtomicU64,
}

impl Gate for Taker<'_> {
    fn before(&self, _agent: u8, call: u64) {
        if call == 0 {
            for _look in 0..LOOKS {
                if self.opened.load(Ordering::SeqCst) == 1 {
                    return;
                }
                yield_now();
            }
        }
    }
}

/// Runs the node of this configuration, and gives its status and what it wrote.
fn run<'a, R: Threads + Wait + Sync, G: Gate + Sync>(
    rt: &HostRuntime,
    threads: &R,
    words: &[String],
    config: &str,
    seed: u8,
    gate: &G,
) -> (Status, MemSink<'a>) {
    let alloc = rt.alloc();
    let mut source = MemSource::new(config.as_bytes());
    let mut sink = MemSink::new(alloc);
    let mut links = MioLinks::new(rt, alloc);
    let mut clock = StdClock::new(rt);
    let status = node_run(
        threads,
        alloc,
        words,
        &mut source,
        &mut sink,
        &mut links,
        &mut clock,
        [seed; 32],
        gate,
    );
    (status, sink)
}

/// Runs two nodes beside each other.
fn run_both<'a, R: Threads + Wait + Sync>(
    rt: &HostRuntime,
    threads: &R,
    words: &[String],
    giver: &str,
    taker: &str,
) -> ((Status, MemSink<'a>), (Status, MemSink<'a>)) {
    let opened = AtomicU64::new(0);
    let giving = Giver { opened: &opened };
    let taking = Taker { opened: &opened };
    join(
        threads,
        || -> (Status, MemSink) { run(rt, threads, words, giver, 7, &giving) },
        || -> (Status, MemSink) { run(rt, threads, words, taker, 8, &taking) },
    )
}

/// The prefix of 56 bits that is wanted is the first of those that the giver holds. It is held by the taker in the end, and the giver
/// holds the rest.
#[test]
fn a_prefix_is_delegated_over_loopback(rt: HostRuntime) -> Result<(), Fail> {
    let alloc = rt.alloc();
    let one = free_port(&rt, Ipv4Addr::new(127, 0, 0, 1))?;
    let two = free_port(&rt, Ipv4Addr::new(127, 0, 0, 2))?;
    let giver = format!(in alloc;
        "address = \"fd000000000000000000000000000001\"
listen = \"7f000001:{one}\"
turns = 300
wait = 10
roots = [\"20010db8000000000000000000000000/48\"]
link = [{{ neighbour = [{{ address = \"fd000000000000000000000000000002\", at = \"7f000002:{two}\" }}] }}]
"
    )?;
    let taker = format!(in alloc;
        "address = \"fd000000000000000000000000000002\"
listen = \"7f000002:{two}\"
turns = 200
wait = 10
link = [{{ neighbour = [{{ address = \"fd000000000000000000000000000001\", at = \"7f000001:{one}\" }}] }}]
want = [{{ length = 56, longest = 64, peer = \"7f000001:{one}\" }}]
"
    )?;
    let words = vec![in alloc;
        String::from_str(alloc, "run")?,
        String::from_str(alloc, "node.toml")?,
    ]?;
    let (given, taken) = run_both(&rt, &rt, &words, giver.as_str(), taker.as_str());
    assert!(rt; given.0 == Status::Ok);
    assert!(rt; taken.0 == Status::Ok);
    let held =
        b"prefixes held 20010db8000000000000000000000000/56 reserved doubt\nwant 56 64 = held 20010db8000000000000000000000000/56\n";
    assert!(rt; taken.1.written() == held.as_slice());
    let rest = b"prefixes held 20010db8000001000000000000000000/56 ";
    assert!(rt; given.1.written().starts_with(rest));
    Ok(())
}
