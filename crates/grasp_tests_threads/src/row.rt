//! A row: what a node is given, and what must come of it.

ghost use Rattle.std.specs.Prelude.{◌≡◌, ◌<◌};

use grasp_cbor::{Octets, OutOfMemory};
use grasp_io::{Arrival, MemClock, MemLinks, MemSink, MemSource};
use grasp_node_main::{Status, node_main};
use grasp_types::{Address, Input, Output};
use std::alloc::Global;
use std::sync::Wait;
use std::sync::ledger::{Blank, Ledger};
use std::thread::Threads;

/// A flood of node 1 that lasts for 1000 milliseconds: the objective `a` with flags 5, loop count 1 and value 7 (RFC 8990,
/// section 2.8.11).
const FLOOD: [u8; 31] = [
    0x85, 0x09, 0x01, 0x50, 0xfd, 0, 0, 0, 0, 0, 0, 0, 0, 0, 0, 0, 0, 0, 0, 0x01, 0x19, 0x03, 0xe8,
    0x82, 0x84, 0x61, 0x61, 0x05, 0x01, 0x07, 0x80,
];

/// What comes in by the links.
#[derive(Clone, Copy)]
pub(crate) enum Incoming {
    /// Nothing.
    Nothing,
    /// The flood, at the first ask.
    Flood,
    /// At the first ask a peer opens a stream, which ends at the second.
    Stream,
}

/// What fails.
#[derive(Clone, Copy, PartialEq)]
pub(crate) enum Fault {
    /// A read of one byte.
    Read,
    /// A write of four bytes.
    Write,
    /// A send.
    Send,
    /// An ask, which gives nothing.
    Ask,
    /// A reading of the clock, which is a second later than the one before.
    Reading,
    /// The opening of the links.
    Open,
}

/// What a node is given, and what must come of it.
#[derive(Clone, Copy)]
pub(crate) struct Row<'a> {
    pub(crate) name: &'a str,
    pub(crate) config: &'a str,
    pub(crate) incoming: Incoming,
    /// What the clock reads.
    pub(crate) readings: &'a [u64],
    /// What fails, and at which of its calls, counted from 1.
    pub(crate) fault: Option<Fault>,
    pub(crate) place: [u64; 1],
    /// The status that must come.
    pub(crate) status: Status,
    /// One of these must be written, or so many of its bytes.
    pub(crate) texts: &'a [&'a str],
    pub(crate) most: usize,
    /// How often the links must be asked, and how many datagrams must be handed to them.
    pub(crate) asks: usize,
    pub(crate) datagrams: usize,
}

impl Row<'_> {
    /// The places of this fault.
    fn places(&self, fault: Fault) -> &[u64] {
        if self.fault == Some(fault) {
            &self.place
        } else {
            &[]
        }
    }
}

/// An arrival at this ask.
fn at(ask: u64, input: Input) -> Arrival {
    Arrival { ask, input }
}

/// What comes.
fn arrivals(alloc: Global, incoming: Incoming) -> Result<Vec<Arrival>, OutOfMemory> {
    let mut list = Vec::new(alloc);
    match incoming {
        Incoming::Nothing => (),
        Incoming::Flood => {
            let bytes = Octets::of(alloc, &FLOOD)?;
            list.push(at(
                1,
                Input::Datagram {
                    link: 0,
                    from: 0,
                    bytes,
                },
            ))?;
        }
        Incoming::Stream => {
            let from = Address::V4(0x7f00_0001);
            list.push(at(1, Input::Opened { stream: 1, from }))?;
            list.push(at(2, Input::Closed { stream: 1 }))?;
        }
    }
    Ok(list)
}

/// The words of the call.
fn words(alloc: Global) -> Result<Vec<String>, OutOfMemory> {
    let mut words = Vec::new(alloc);
    words.push(String::from_str(alloc, "run")?)?;
    words.push(String::from_str(alloc, "node.toml")?)?;
    Ok(words)
}

/// At most so many of the bytes.
fn front(bytes: &[u8], most: usize) -> &[u8] {
    bytes.get(..most).unwrap_or(bytes)
}

/// Whether one of the row's texts was written.
fn is_wanted(row: &Row, written: &[u8]) -> bool {
    row.texts
        .iter()
        .any(|text| front(text.as_bytes(), row.most) == written)
}

/// How many of the outputs are datagrams to the first neighbour of the first link.
fn datagrams(outputs: &[Output]) -> usize {
    outputs
        .iter()
        .filter(|output| matches!(output, Output::Datagram { link: 0, to: 0, .. }))
        .count()
}

/// Runs the row's node, and tells what differs.
pub(crate) fn differs<R: Threads + Wait + Sync, L: Ledger>(
    rt: &R,
    alloc: Global,
    blank: Blank,
    row: &Row,
) -> Result<Option<&'static str>, OutOfMemory>
    requires name { blank.name ≡ L.name }
    requires parts { blank.parts ≡ L.parts }
    requires some { 0 < blank.parts }
{
    let words = words(alloc)?;
    let arrivals = arrivals(alloc, row.incoming)?;
    let mut clock = MemClock::<L>::new(blank, row.readings);
    let mut source = MemSource::new(row.config.as_bytes())
        .in_pieces(1)
        .failing_at(row.places(Fault::Read));
    let mut sink = MemSink::new(alloc)
        .in_pieces(4)
        .failing_at(row.places(Fault::Write));
    let mut links = MemLinks::new(alloc, &arrivals)
        .failing_at(row.places(Fault::Send))
        .quiet_at(row.places(Fault::Ask));
    if row.fault == Some(Fault::Open) {
        links = links.refusing();
    }
    let status = node_main(
        rt,
        alloc,
        &words,
        &mut source,
        &mut sink,
        &mut links,
        &mut clock,
        [7; 32],
    );
    if status != row.status {
        return Ok(Some("the status"));
    }
    if !is_wanted(row, sink.written()) {
        return Ok(Some("the text"));
    }
    if links.waits().len() != row.asks {
        return Ok(Some("the asks"));
    }
    if datagrams(links.handed()) != row.datagrams {
        return Ok(Some("the datagrams"));
    }
    Ok(None)
}
