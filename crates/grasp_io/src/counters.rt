//! What links count, and what failed last.
use grasp_types::Proto;
use std::net::SocketAddr;
use std::{fmt, io};

/// What the links of a node counted. Each count ends at 2^64 - 1.
#[derive(Clone, Copy, Debug, PartialEq, Eq)]
pub struct Counters {
    /// Datagrams of neighbours that were given.
    pub received: u64,
    /// Datagrams that were sent.
    pub sent: u64,
    /// Datagrams that the system didn't take.
    pub lost: u64,
    /// Datagrams of others than neighbours, which were dropped.
    pub strangers: u64,
    /// Streams of peers that were given.
    pub opened: u64,
    /// Streams that were dialled.
    pub dialled: u64,
    /// Dials that failed.
    pub failed_dials: u64,
    /// Streams of peers that may open none.
    pub not_allowed: u64,
    /// Streams of peers that had as many already as one address may have.
    pub too_many: u64,
    /// Streams that were ended for their silence.
    pub silent: u64,
    /// Bytes that came on streams.
    pub bytes_received: u64,
    /// Bytes that were taken for streams.
    pub bytes_sent: u64,
    /// How often something failed.
    pub faults: u64,
}

impl Counters {
    /// Nothing was counted yet.
    pub fn new() -> Counters {
        Counters {
            received: 0,
            sent: 0,
            lost: 0,
            strangers: 0,
            opened: 0,
            dialled: 0,
            failed_dials: 0,
            not_allowed: 0,
            too_many: 0,
            silent: 0,
            bytes_received: 0,
            bytes_sent: 0,
            faults: 0,
        }
    }
}

/// One more, or 2^64 - 1.
pub(crate) fn add_one(counter: &mut u64) {
    *counter = counter.saturating_add(1);
}

/// Something that failed, and why.
#[derive(Clone, Copy)]
pub enum LinkFault {
    /// The links couldn't be opened, before any address was taken.
    Open {
        error: io::Error,
    },
    /// The address couldn't be listened at: for streams with TCP, for datagrams with UDP.
    Listen {
        proto: Proto,
        at: SocketAddr,
        error: io::Error,
    },
    /// A stream that the node dialled wasn't connected.
    Dial {
        stream: u64,
        to: SocketAddr,
        error: io::Error,
    },
    /// A connection couldn't be taken.
    Accept {
        error: io::Error,
    },
    /// The sockets couldn't be waited for.
    Wait {
        error: io::Error,
    },
}

impl fmt::Display for LinkFault {
    fn fmt<W: fmt::Write>(&self, f: &mut fmt::Formatter<W>) -> fmt::Result {
        match self {
            LinkFault::Open { error } => write!(f, "open: {error}"),
            LinkFault::Listen { proto, at, error } => {
                let kind = match proto {
                    Proto::Tcp => "tcp",
                    Proto::Udp => "udp",
                };
                write!(f, "listen {at} ({kind}): {error}")
            }
            LinkFault::Dial { stream, to, error } => write!(f, "dial {stream} to {to}: {error}"),
            LinkFault::Accept { error } => write!(f, "accept: {error}"),
            LinkFault::Wait { error } => write!(f, "wait: {error}"),
        }
    }
}

/// What counts what it does. Reading the counts changes nothing.
pub trait Counted {
    /// What was counted.
    fn counters(&self) -> Counters;

    /// What failed last, where something did that is told.
    fn last_fault(&self) -> Option<LinkFault>;

    /// Who sent the last datagram that was dropped because its sender is no neighbour.
    fn last_stranger(&self) -> Option<SocketAddr>;
}
