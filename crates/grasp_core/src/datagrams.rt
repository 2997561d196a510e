//! A datagram from a neighbour.

ghost use Rattle.std.specs.Prelude.{◌≡◌, Some, false, IfOk, OnOk, OnErr};
ghost use Rattle.grasp_core.specs.Carried.{after_carried};
ghost use Rattle.grasp_core.specs.Contract.{Meeting, MeetsDatagram, GivesDatagram};
ghost use Rattle.grasp_model_node.specs.Datagrams.{after_datagram};
ghost use Rattle.grasp_model_node.specs.Node.{NodeState};
ghost use Rattle.grasp_core.specs.Stands.{NodeStands};

use crate::NodeCore;
use crate::carried::{Carried, carried_of};
use grasp_cbor::OutOfMemory;
use grasp_discovery::Cause;
use grasp_types::{Message, Neighbour, Reply};
use grasp_wire::{CutFault, OneFault, decode_one};

impl NodeCore {
    /// A datagram comes on a link from a neighbour.
    pub(crate) fn datagram(&mut self, link: u8, from: u8, bytes: &[u8]) -> Reply
        ensures { (x : Meeting) → MeetsDatagram self.old bytes.now x → GivesDatagram self.new link from x result }
    {
        match self.decoded(bytes) {
            Ok(Some(message)) => self.reply_to(link, from, message),
            Ok(None) => Reply::Taken,
            Err(_) => Reply::OutOfMemory,
        }
    }

    /// The message that a datagram carries.
    fn decoded(&self, bytes: &[u8]) -> Result<Option<Message>, OutOfMemory>
        ensures { IfOk result (λ carried. (x : Meeting) → MeetsDatagram self.now bytes.now x → x.coming.carried ≡ carried) }
    {
        match decode_one(self.alloc, bytes, self.streams.limit()) {
            Ok(message) => Ok(Some(message)),
            Err(fault) => {
                if wants_memory(fault) {
                    Err(OutOfMemory)
                } else {
                    Ok(None)
                }
            }
        }
    }

    /// A message comes by datagram, and is taken unless memory is wanted.
    fn reply_to(&mut self, link: u8, from: u8, message: Message) -> Reply
        ensures { (x : Meeting) → NodeStands self.old x.node → x.coming.carried ≡ Some message → GivesDatagram self.new link from x result }
    {
        match self.message_came(link, from, message) {
            Ok(()) => Reply::Taken,
            Err(_) => Reply::OutOfMemory,
        }
    }

    /// A message comes by datagram. After an `Err` all is as before.
    #[tactic(auto, unfolding(grasp_model_node::specs::Datagrams::after_datagram))]
    fn message_came(&mut self, link: u8, from: u8, message: Message) -> Result<(), OutOfMemory>
        ensures ok { OnOk result ((n : NodeState) → NodeStands self.old n → NodeStands self.new (after_datagram n link from (Some message))) }
        ensures err { OnErr result ((n : NodeState) → NodeStands self.old n → NodeStands self.new n) }
    {
        let carried = carried_of(message);
        match self.neighbour(link, from) {
            Ok(Some(neighbour)) => self.carried(Cause { link, from }, neighbour, carried),
            Ok(None) => Ok(()),
            Err(_) => Err(OutOfMemory),
        }
    }

    /// This comes from a neighbour. After an `Err` all is as before.
    fn carried(
        &mut self,
        cause: Cause,
        neighbour: Neighbour,
        carried: Carried,
    ) -> Result<(), OutOfMemory>
        ensures ok { OnOk result ((n : NodeState) → NodeStands self.old n → NodeStands self.new (after_carried n cause neighbour carried)) }
        ensures err { OnErr result ((n : NodeState) → NodeStands self.old n → NodeStands self.new n) }
    {
        match carried {
            Carried::Discovery {
                session,
                initiator,
                objective,
            } => self.discovery_came(cause, neighbour, session, initiator, &objective),
            Carried::Flood {
                session,
                initiator,
                ttl,
                parts,
            } => self.flood_came(cause.link, session, initiator, ttl, &parts),
            Carried::Other => Ok(()),
        }
    }
}

/// Whether memory was wanted.
fn wants_memory(fault: OneFault) -> bool
    ensures { result ≡ false → ¬ (fault ≡ OneFault.Cut CutFault.OutOfMemory) }
{
    matches!(fault, OneFault::Cut(CutFault::OutOfMemory))
}
