//! A run over links in memory, with ample memory: each thing that comes or goes has its line, and none is left out.

use grasp_cbor::{Octets, OutOfMemory};
use grasp_io::{Arrival, Counted, Journal, Links, LogLevel, LogSwitch, MemLinks, MemSink};
use grasp_trace::Traced;
use grasp_types::{Address, Input, Locator, Output, Proto};
use std::alloc::Global;
use std::io;
use std::io::Read;
use std::str::from_utf8;
use std::test::Fail;

/// What comes as datagrams: a message, and a byte that is none.
const DATAGRAMS: [&[u8]; 2] = [&[0x83, 0x07, 0x01, 0x19, 0x13, 0x88], &[0xff]];

/// What comes on a stream: two messages, the second in two pieces, and a byte that begins none.
const PIECES: [&[u8]; 3] = [
    &[0x81, 0x00, 0x83, 0x07, 0x01],
    &[0x19, 0x13, 0x88],
    &[0xff],
];

/// What is sent: a message.
const NOOP: &[u8] = &[0x81, 0x00];

/// The sends that fail: those of the four outputs when they go once more.
const FAILING: &[u64] = &[5, 6, 7, 8];

/// The lines of all this.
const LINES: &str = "\
received datagram 1 2 wait 1 5000
received datagram 1 2 no message in 1 bytes
received opening 1 7f000001
received message 1 noop
received message 1 wait 1 5000
received stream 1 no message at 8
received closing 1
sent datagram 3 4 noop
sent dial 0 v4 7f000001 tcp 7017
sent message 0 noop
sent closing 0
lost datagram 3 4 noop
failed dial 0 v4 7f000001 tcp 7017
failed message 0 noop
failed closing 0
";

/// An input that comes as soon as those before it were given.
fn next(input: Input) -> Arrival {
    Arrival { ask: 1, input }
}

/// What comes.
fn arrivals(alloc: Global) -> Result<Vec<Arrival>, OutOfMemory> {
    let mut list = Vec::new(alloc);
    for bytes in DATAGRAMS {
        let bytes = Octets::of(alloc, bytes)?;
        list.push(next(Input::Datagram {
            link: 1,
            from: 2,
            bytes,
        }))?;
    }
    let from = Address::V4(0x7f00_0001);
    list.push(next(Input::Opened { stream: 1, from }))?;
    for piece in PIECES {
        let bytes = Octets::of(alloc, piece)?;
        list.push(next(Input::Bytes { stream: 1, bytes }))?;
    }
    list.push(next(Input::Closed { stream: 1 }))?;
    Ok(list)
}

/// What goes.
fn outputs(alloc: Global) -> Result<Vec<Output>, OutOfMemory> {
    let mut list = Vec::new(alloc);
    let bytes = Octets::of(alloc, NOOP)?;
    list.push(Output::Datagram {
        link: 3,
        to: 4,
        bytes,
    })?;
    let to = Locator::V4 {
        address: 0x7f00_0001,
        proto: Proto::Tcp,
        port: 7017,
    };
    list.push(Output::Dial { stream: 0, to })?;
    let bytes = Octets::of(alloc, NOOP)?;
    list.push(Output::Send { stream: 0, bytes })?;
    list.push(Output::Close { stream: 0 })?;
    Ok(list)
}

#[test]
fn each_line_is_written(rt: HostRuntime) -> Result<(), Fail> {
    let arrivals = arrivals(rt.alloc())?;
    let outputs = outputs(rt.alloc())?;
    let links = MemLinks::new(rt.alloc(), &arrivals).failing_at(FAILING);
    let mut traced = Traced::new(rt.alloc(), links, MemSink::new(rt.alloc()));
    for _ in 0..arrivals.len() {
        let _asked = traced.ask(0);
    }
    for _ in 0..2 {
        for output in &outputs {
            let _sent = traced.send(output);
        }
    }
    let written = from_utf8(traced.sink().written());
    assert_eq!(rt; written, Ok(LINES));
    assert_eq!(rt; traced.left_out(), 0);
    assert_eq!(rt; traced.counters(), traced.into_links().counters());
    Ok(())
}

#[test]
fn over_a_journal_each_line_has_its_time_and_a_name(rt: HostRuntime) -> Result<(), Fail> {
    let (mut reader, writer) = io::pipe(&rt)?;
    let switch = LogSwitch::new(LogLevel::Events);
    let journal = Journal::new(writer, rt, "7f000001", &switch, LogLevel::Traffic);
    let links = MemLinks::new(rt.alloc(), &[]);
    let mut traced = Traced::new(rt.alloc(), links, journal);
    let close = Output::Close { stream: 4 };
    let _quiet = traced.send(&close);
    switch.set(LogLevel::Traffic);
    let _told = traced.send(&close);
    let mut block = [0u8; 256];
    let count = reader.read(&mut block)?;
    let line = &block[..count];
    assert_eq!(rt;
        line.len(),
        b"2026-11-29T07:10:29.828Z 7f000001 sent closing 4\n".len()
    );
    assert!(rt; line.ends_with(b"Z 7f000001 sent closing 4\n"));
    Ok(())
}
