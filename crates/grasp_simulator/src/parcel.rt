//! Datagrams that were sent.

ghost use Rattle.std.specs.Prelude.{◌≡◌};
ghost use Rattle.grasp_simulator.specs.Lending.{is_so};

use grasp_cbor::Octets;

/// A datagram that was sent: who receives it, on which of its links and from which of its neighbours there, and its bytes.
#[derive(Debug, Drop)]
pub struct Parcel {
    /// The node that receives it.
    pub receiver: u8,
    /// On which of its links, from 0 on.
    pub link: u8,
    /// From which of its neighbours there, from 0 on.
    pub from: u8,
    /// Its bytes.
    pub bytes: Octets,
}

impl Parcel {
    /// Whether it comes to this node on this link, from this neighbour, with these bytes.
    pub(crate) fn is_so(&self, node: u8, link: u8, from: u8, bytes: &[u8]) -> bool
        ensures { result ≡ is_so node link from bytes.now self.now }
    {
        self.receiver == node
            && self.link == link
            && self.from == from
            && self.bytes.bytes() == bytes
    }
}
