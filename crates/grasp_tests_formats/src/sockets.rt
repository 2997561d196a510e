//! Links over the loopback of the machine.

use grasp_cbor::{Octets, OutOfMemory};
use grasp_io::{Asked, Failed, LinkPlan, Links, MioLinks, Sent};
use grasp_types::{Address, Input, LinkLists, List, Locator, Neighbour, Output, Proto};
use std::alloc::Global;
use std::io;
use std::net::{Ipv4Addr, SocketAddr, TcpListener, TcpStream};
use std::test::Fail;
use std::time::{CpuClock, Duration, Instant};

const LOOPBACK: u32 = 0x7f00_0001;

fn at(port: u16) -> Locator {
    Locator::V4 {
        address: LOOPBACK,
        proto: Proto::Tcp,
        port,
    }
}

/// One link with one neighbour, at this port.
fn link_to(alloc: Global, port: u16) -> Result<LinkLists, OutOfMemory> {
    let mut neighbours = List::new(alloc);
    neighbours.push(Neighbour {
        address: Address::V4(LOOPBACK),
        locator: at(port),
    })?;
    let mut links = List::new(alloc);
    links.push(neighbours)?;
    Ok(links)
}

/// Two ports at which nobody listens just now.
fn free_ports(rt: &HostRuntime) -> io::Result<(u16, u16)> {
    let ip = SocketAddr::from((Ipv4Addr::LOCALHOST, 0));
    let one = TcpListener::bind(rt, ip)?;
    let other = TcpListener::bind(rt, ip)?;
    Ok((one.local_addr()?.port(), other.local_addr()?.port()))
}

/// The next input within two seconds. The other node is asked too, so that it goes on.
fn next<L: Links>(links: &mut L, other: &mut L) -> Option<Input> {
    for _ in 0..100 {
        match links.ask(20) {
            Asked::Got(input) => return Some(input),
            Asked::Nothing => {}
            Asked::OutOfMemory => return None,
        }
        if let Asked::Got(_) = other.ask(0) {
            return None;
        }
    }
    None
}

/// Whether one node's datagram comes to the other.
fn datagram_comes<L: Links>(bytes: Octets, from: &mut L, to: &mut L) -> bool {
    let output = Output::Datagram {
        link: 0,
        to: 0,
        bytes,
    };
    from.send(&output) == Sent::Sent
        && match (next(to, from), &output) {
            (Some(Input::Datagram { link, from, bytes }), Output::Datagram { bytes: sent, .. }) => {
                (link, from) == (0, 0) && bytes.bytes() == sent.bytes()
            }
            _ => false,
        }
}

/// Whether bytes on a stream come to the other node, which knows the stream by another number.
fn bytes_come<L: Links>(bytes: Octets, from: (&mut L, u64), to: (&mut L, u64)) -> bool {
    let (from, stream) = from;
    let (to, number) = to;
    let output = Output::Send { stream, bytes };
    from.send(&output) == Sent::Sent
        && match (next(to, from), &output) {
            (Some(Input::Bytes { stream, bytes }), Output::Send { bytes: sent, .. }) => {
                stream == number && bytes.bytes() == sent.bytes()
            }
            _ => false,
        }
}

fn opening_comes<L: Links>(to: Locator, a: &mut L, b: &mut L) -> bool {
    a.send(&Output::Dial { stream: 0, to }) == Sent::Sent
        && matches!(next(b, a), Some(Input::Opened { stream: 1, .. }))
}

fn closing_comes<L: Links>(a: &mut L, b: &mut L) -> bool {
    a.send(&Output::Close { stream: 0 }) == Sent::Sent
        && matches!(next(b, a), Some(Input::Closed { stream: 1 }))
}

/// What the first of the two sends comes to the second, and on a stream also the other way. What doesn't.
fn talk<L: Links>(
    alloc: Global,
    port: u16,
    a: &mut L,
    b: &mut L,
) -> Result<Option<&'static str>, OutOfMemory> {
    let long = Octets::from_vec(Vec::from_elem(alloc, 7u8, 60000)?);
    if !datagram_comes(long, a, b) {
        return Ok(Some("datagram"));
    }
    if !opening_comes(at(port), a, b) {
        return Ok(Some("opening"));
    }
    if !bytes_come(Octets::of(alloc, b"hello")?, (a, 0), (b, 1)) {
        return Ok(Some("bytes"));
    }
    if !bytes_come(Octets::of(alloc, b"world")?, (b, 1), (a, 0)) {
        return Ok(Some("bytes back"));
    }
    if !closing_comes(a, b) {
        return Ok(Some("closing"));
    }
    Ok(None)
}

#[test]
fn two_nodes_talk(rt: HostRuntime) -> Result<(), Fail> {
    let (port_a, port_b) = free_ports(&rt)?;
    let mut a = MioLinks::new(rt, rt.alloc());
    let mut b = MioLinks::new(rt, rt.alloc());
    let plan_a = LinkPlan {
        listen: at(port_a),
        links: link_to(rt.alloc(), port_b)?,
    };
    let plan_b = LinkPlan {
        listen: at(port_b),
        links: link_to(rt.alloc(), port_a)?,
    };
    assert_eq!(rt; a.open(&plan_a), Ok(()));
    assert_eq!(rt; b.open(&plan_b), Ok(()));
    assert_eq!(rt; b.open(&plan_a), Err(Failed));
    assert_eq!(rt; talk(rt.alloc(), port_b, &mut a, &mut b)?, None);
    a.settle();
    assert_eq!(rt; (a.faults(), b.faults()), (0, 1));
    Ok(())
}

#[test]
fn an_idle_ask_takes_no_work(rt: HostRuntime) -> Result<(), Fail> {
    let (port, other) = free_ports(&rt)?;
    let mut links = MioLinks::new(rt, rt.alloc());
    let plan = LinkPlan {
        listen: at(port),
        links: link_to(rt.alloc(), other)?,
    };
    assert_eq!(rt; links.open(&plan), Ok(()));
    let start = Instant::now(&rt)?;
    let worked = rt.process_cpu_time()?;
    assert!(rt; matches!(links.ask(200), Asked::Nothing));
    assert!(rt; start.elapsed(&rt)? >= Duration::from_millis(200));
    let worked = rt.process_cpu_time()?.saturating_sub(worked);
    assert!(rt; worked < Duration::from_millis(50), "{worked:?}");
    Ok(())
}

/// The next input within two seconds.
fn comes<L: Links>(links: &mut L) -> Option<Input> {
    for _ in 0..100 {
        match links.ask(20) {
            Asked::Got(input) => return Some(input),
            Asked::Nothing => {}
            Asked::OutOfMemory => return None,
        }
    }
    None
}

/// A peer that goes without reading what was sent to it resets the stream, which is told as its end.
#[test]
fn a_reset_ends_a_stream(rt: HostRuntime) -> Result<(), Fail> {
    let (port, other) = free_ports(&rt)?;
    let mut links = MioLinks::new(rt, rt.alloc());
    let plan = LinkPlan {
        listen: at(port),
        links: link_to(rt.alloc(), other)?,
    };
    assert_eq!(rt; links.open(&plan), Ok(()));
    let peer = TcpStream::connect(&rt, SocketAddr::from((Ipv4Addr::LOCALHOST, port)))?;
    assert!(rt; matches!(comes(&mut links), Some(Input::Opened { stream: 1, .. })));
    let bytes = Octets::of(rt.alloc(), b"unread")?;
    let sent = links.send(&Output::Send { stream: 1, bytes });
    assert_eq!(rt; sent, Sent::Sent);
    // The bytes are written at the next ask, at the latest.
    assert!(rt; matches!(links.ask(20), Asked::Nothing));
    drop(peer);
    assert!(rt; matches!(comes(&mut links), Some(Input::Closed { stream: 1 })));
    assert_eq!(rt; links.faults(), 0);
    Ok(())
}
