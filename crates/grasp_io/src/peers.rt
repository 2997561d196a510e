//! The neighbours of a node by the addresses of their sockets.
use grasp_cbor::OutOfMemory;
use grasp_types::{Address, LinkLists, Locator};
use std::alloc::Global;
use std::net::{IpAddr, Ipv4Addr, Ipv6Addr, SocketAddr};

#[derive(Drop)]
struct Peer {
    link: u8,
    number: u8,
    at: SocketAddr,
}

/// The neighbours, each with its link, its number on it and the address of its socket.
#[derive(Drop)]
pub(crate) struct Peers {
    held: Vec<Peer>,
}

impl Peers {
    /// The neighbours of these links. One without an IP address is left out.
    pub(crate) fn of(alloc: Global, links: &LinkLists) -> Result<Peers, OutOfMemory> {
        let mut held = Vec::new(alloc);
        for (link, neighbours) in (0..=u8::MAX).zip(links.slice().iter()) {
            for (number, neighbour) in (0..=u8::MAX).zip(neighbours.slice().iter()) {
                if let Some(at) = socket_addr(&neighbour.locator) {
                    held.push(Peer { link, number, at })?;
                }
            }
        }
        Ok(Peers { held })
    }

    /// The link and the number of the neighbour whose socket is here.
    pub(crate) fn at(&self, at: &SocketAddr) -> Option<(u8, u8)> {
        let peer = self.held.iter().find(|peer| is_same(&peer.at, at))?;
        Some((peer.link, peer.number))
    }

    /// Where the socket of a neighbour is.
    pub(crate) fn socket_of(&self, link: u8, number: u8) -> Option<SocketAddr> {
        let peer = self
            .held
            .iter()
            .find(|peer| peer.link == link && peer.number == number)?;
        Some(peer.at)
    }
}

/// Where streams to this locator go, where it can be dialled.
pub(crate) fn dial_addr(locator: &Locator) -> Option<SocketAddr> {
    if locator.is_dialable() {
        socket_addr(locator)
    } else {
        None
    }
}

/// Where dials of a node come from that listens here: from the same address, unless that stands for any.
pub(crate) fn source_of(listen: SocketAddr) -> Option<SocketAddr> {
    if listen.ip().is_unspecified() {
        None
    } else {
        Some(SocketAddr::new(listen.ip(), 0))
    }
}

/// The address of a node whose socket is here.
pub(crate) fn address_of(addr: &SocketAddr) -> Address {
    match addr.ip().to_canonical() {
        IpAddr::V4(ip) => Address::V4(ip.to_bits()),
        IpAddr::V6(ip) => Address::V6(ip.to_bits()),
    }
}

fn socket_addr(locator: &Locator) -> Option<SocketAddr> {
    match locator {
        Locator::V4 { address, port, .. } => {
            Some(SocketAddr::from((Ipv4Addr::from_bits(*address), *port)))
        }
        Locator::V6 { address, port, .. } => {
            Some(SocketAddr::from((Ipv6Addr::from_bits(*address), *port)))
        }
        Locator::Fqdn { .. } => None,
        Locator::Uri { .. } => None,
    }
}

// Whether address and port are the same. The flow and the scope of IPv6 are left out.
fn is_same(a: &SocketAddr, b: &SocketAddr) -> bool {
    a.ip().to_canonical() == b.ip().to_canonical() && a.port() == b.port()
}
