//! The calls of agents.

ghost use Rattle.grasp_model_node.specs.Node.{NodeState};
ghost use Rattle.grasp_core.specs.Stands.{NodeStands};
ghost use Rattle.grasp_model_node.specs.Step.{MayCall, after_call};

use crate::NodeCore;
use grasp_types::{ApiAnswer, ApiRefused, Call};

impl NodeCore {
    /// Answers a call of an agent, or refuses it.
    pub(crate) fn call(&mut self, asa: u32, call: Call) -> Result<ApiAnswer, ApiRefused>
        ensures { (n : NodeState) → NodeStands self.old n → MayCall n asa call result × NodeStands self.new (after_call n asa call result) }
    {
        match call {
            Call::RegisterAsa { name } => self.register_asa(name),
            Call::DeregisterAsa => self.deregister_asa(asa),
            Call::RegisterObjective { name, flags } => self.register_objective(asa, name, flags),
            Call::DeregisterObjective { name } => self.deregister_objective(asa, name),
            Call::Discover {
                name,
                kind,
                loops,
                timeout,
            } => self.discover(asa, name, kind, loops, timeout),
            Call::RequestNegotiate {
                name,
                value,
                loops,
                timeout,
                dry,
                peer,
            } => self.request_negotiate(asa, name, value, loops, timeout, dry, peer),
            Call::ListenNegotiate { name } => self.listen_negotiate(asa, name),
            Call::StopListenNegotiate { name } => self.stop_listen_negotiate(asa, name),
            Call::NegotiateStep { handle, value } => self.negotiate_step(asa, handle, value),
            Call::NegotiateWait { handle, millis } => self.negotiate_wait(asa, handle, millis),
            Call::EndNegotiate { handle, verdict } => self.end_negotiate(asa, handle, verdict),
            Call::SendInvalid { handle, detail } => self.send_invalid(asa, handle, detail),
            Call::Poll { handle } => self.poll(asa, handle),
            Call::Synchronize {
                name,
                loops,
                timeout,
                peer,
            } => self.synchronize(asa, name, loops, timeout, peer),
            Call::ListenSynchronize { name, value } => self.listen_synchronize(asa, name, value),
            Call::StopListenSynchronize { name } => self.stop_listen_synchronize(asa, name),
            Call::Flood {
                name,
                value,
                ttl,
                loops,
            } => self.flood(asa, name, value, ttl, loops),
            Call::GetFlood { name } => self.get_flood(asa, name),
            Call::ExpireFlood { name, initiator } => self.expire_flood(asa, name, initiator),
        }
    }
}
