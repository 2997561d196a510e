//! A fault at each of the first eight places: of reads, writes, sends, asks and readings of the clock.

use crate::row::{Fault, Row, differs};
use crate::rows::{IDLE_NODE, READER_AND_BEACON, READER_HEARS};
use grasp_node_main::Status;
use std::marker::Brand;
use std::sync::ledger::Blank;
use std::test::Fail;

/// A read that fails ends the program before the links are opened; of a write that fails nothing is written, and what was
/// before it is; a datagram that is lost, an ask that gives nothing and a clock that jumps past the end of a flood change no
/// status.
const FAULTS: [Row<'static>; 9] = [
    Row {
        name: "idle, read",
        fault: Some(Fault::Read),
        status: Status::ReadFault,
        most: 0,
        asks: 0,
        ..IDLE_NODE
    },
    Row {
        name: "idle, write",
        fault: Some(Fault::Write),
        status: Status::WriteFault,
        ..IDLE_NODE
    },
    Row {
        name: "idle, send",
        fault: Some(Fault::Send),
        ..IDLE_NODE
    },
    Row {
        name: "idle, ask",
        fault: Some(Fault::Ask),
        ..IDLE_NODE
    },
    Row {
        name: "reader, read",
        fault: Some(Fault::Read),
        status: Status::ReadFault,
        most: 0,
        asks: 0,
        ..READER_HEARS
    },
    Row {
        name: "reader, write",
        fault: Some(Fault::Write),
        status: Status::WriteFault,
        ..READER_HEARS
    },
    Row {
        name: "reader and beacon, send",
        config: READER_AND_BEACON,
        fault: Some(Fault::Send),
        asks: 5,
        datagrams: 1,
        ..READER_HEARS
    },
    Row {
        name: "reader, ask",
        fault: Some(Fault::Ask),
        ..READER_HEARS
    },
    Row {
        name: "reader, reading",
        fault: Some(Fault::Reading),
        ..READER_HEARS
    },
];

/// Readings of which the eighth is a second later than those before.
const JUMP: &[u64] = &[0, 0, 0, 0, 0, 0, 0, 1000];

/// Readings of which this one, from 1 to 8, is the first after the jump.
fn readings(place: u64) -> &'static [u64] {
    let before = 8u64.saturating_sub(place) as usize;
    JUMP.get(before..).unwrap_or(JUMP)
}

/// The row with its fault at this place. Each write before it was of four bytes, and the first datagram alone is sent.
fn failing_at(row: Row<'static>, place: u64) -> Row<'static> {
    let mut failing = row;
    failing.place = [place];
    match row.fault {
        Some(Fault::Write) => failing.most = (place as usize).saturating_sub(1).saturating_mul(4),
        Some(Fault::Send) if place == 1 => failing.datagrams = 0,
        Some(Fault::Reading) => failing.readings = readings(place),
        _ => (),
    }
    failing
}

#[test]
fn each_place(rt: HostRuntime) -> Result<(), Fail> {
    for number in 0..72 {
        let place = number % 8 + 1;
        let row = failing_at(FAULTS[(number / 8) as usize], place);
        let name = row.name;
        let difference = differs::<_, Brand>(&rt, rt.alloc(), Blank::new(1), &row)?;
        assert_eq!(rt; difference, None, "{name} {place}");
    }
    Ok(())
}
