//! The calls on searches and floods (RFC 8991, sections 2.3.4 and 2.3.6).

ghost use Rattle.std.specs.Prelude.{◌≡◌, ◌≤◌, ◌+◌, false, map, length, [], ◌∷◌, IfOk, OnOk, OnErr};
ghost use Rattle.grasp_model_node.specs.Answered.{if_answered, Is};
ghost use Rattle.grasp_model_node.specs.Draws.{next_session};
ghost use Rattle.grasp_model_node.specs.FloodCalls.{MayDiscover, after_discovering, find_of, is_fresh, wanted_flags, discovery_message, begun};
ghost use Rattle.grasp_model_node.specs.FloodCalls.{count_all, MayFlood, after_flooding, MayGet, MayExpire, after_expiring};
ghost use Rattle.grasp_model_node.specs.Moves.{with_discoveries};
ghost use Rattle.grasp_model_node.specs.Node.{NodeState};
ghost use Rattle.grasp_core.specs.Outgoing.{IsReady, looked_up, search_tests, searched, IsSearching, sought_name, flood_of};
ghost use Rattle.grasp_model_node.specs.Queue.{fits, output_of, along, all_ways};
ghost use Rattle.grasp_model_node.specs.Refusals.{MayAnswer};
ghost use Rattle.grasp_core.specs.Stands.{NodeStands};
ghost use Rattle.grasp_model_node.specs.Tests.{sending};
ghost use Rattle.grasp_discovery.specs.Discoveries.{is_searching, with_search, search_from};
ghost use Rattle.grasp_discovery.specs.Topic.{topic_of};
ghost use Rattle.grasp_discovery.specs.declared.answers.Find.TheVariants.{Fresh};
ghost use Rattle.grasp_types.specs.declared.reply.ApiAnswer.TheVariants.{Searching};

use crate::NodeCore;
use grasp_cbor::{Chars, OutOfMemory};
use grasp_discovery::{BeginRefused, Find};
use grasp_types::{
    Address, ApiAnswer, ApiRefused, Flags, FloodPart, FloodParts, Kind, Message, Objective, Output,
    Value,
};
use grasp_wire::flood_fits;

impl NodeCore {
    /// Looks for an objective.
    pub(crate) fn discover(
        &mut self,
        asa: u32,
        name: Chars,
        kind: Kind,
        loops: u8,
        timeout: u32,
    ) -> Result<ApiAnswer, ApiRefused>
        ensures { (n : NodeState) → NodeStands self.old n
            → MayDiscover n asa name kind loops result
            × NodeStands self.new (after_discovering n asa name kind loops timeout result) }
    {
        self.known(asa)?;
        match self.look_up(asa, &name, kind) {
            Ok(Find::Found(locators)) => Ok(ApiAnswer::Found(locators)),
            Ok(Find::NotYet) => Ok(ApiAnswer::NotYet),
            Ok(Find::Nothing) => Ok(ApiAnswer::Nothing),
            Ok(Find::Fresh) => self.search_for(asa, name, kind, loops, timeout),
            Err(_) => Err(ApiRefused::OutOfMemory),
        }
    }

    /// What is known of an objective, or how the agent's search for it stands.
    #[tactic(auto, unfolding(grasp_model_node::specs::Moves::with_discoveries))]
    fn look_up(&mut self, asa: u32, name: &Chars, kind: Kind) -> Result<Find, OutOfMemory>
        ensures answer { IfOk result (λ answer. (n : NodeState) → NodeStands self.old n → answer ≡ find_of n asa name.now kind) }
        ensures known { OnErr result ((n : NodeState) → NodeStands self.old n → is_fresh (find_of n asa name.now kind) ≡ false) }
        ensures fresh { IfOk result (λ answer. answer ≡ Fresh → is_searching self.new.discovery asa (topic_of name.now kind) ≡ false) }
        ensures after { (n : NodeState) → NodeStands self.old n → NodeStands self.new (looked_up n asa (topic_of name.now kind) result) }
    {
        match self.discovery.find(asa, name, kind) {
            Ok(answer) => Ok(answer),
            Err(fault) => Err(fault),
        }
    }

    /// Begins a search, where its message can be sent.
    fn search_for(
        &mut self,
        asa: u32,
        name: Chars,
        kind: Kind,
        loops: u8,
        timeout: u32,
    ) -> Result<ApiAnswer, ApiRefused>
        requires { is_searching self.old.discovery asa (topic_of name kind) ≡ false }
        ensures answer { (n : NodeState) → NodeStands self.old n
            → MayAnswer (search_tests n) (sending n (discovery_message n name kind loops) (count_all n)) (Unit {0})
            (Is Searching) result }
        ensures after { (n : NodeState) → NodeStands self.old n → NodeStands self.new (if_answered n (begun n asa name kind loops timeout) result) }
    {
        if self.discovery.full() {
            return Err(ApiRefused::SessionsFull);
        }
        let message = self.discovery_message(name, kind, loops);
        match self.ready_datagrams(&message) {
            Ok(outputs) => self.start_search(asa, kind, timeout, message, outputs),
            Err(refused) => Err(refused),
        }
    }

    /// The message that begins a search.
    fn discovery_message(&self, name: Chars, kind: Kind, loops: u8) -> Message
        ensures is { (n : NodeState) → NodeStands self.now n → result ≡ discovery_message n name kind loops }
        ensures name { sought_name result ≡ name }
    {
        Message::Discovery {
            session: self.next_session(),
            initiator: self.plan.address,
            objective: Objective {
                name,
                flags: wanted_flags(kind),
                loops,
                value: None,
            },
        }
    }

    /// Begins the search of this message, which is sent.
    fn start_search(
        &mut self,
        asa: u32,
        kind: Kind,
        timeout: u32,
        message: Message,
        outputs: Vec<Output>,
    ) -> Result<ApiAnswer, ApiRefused>
        requires new { is_searching self.old.discovery asa (topic_of (sought_name message) kind) ≡ false }
        requires room { length self.old.queue + length outputs.items ≤ 256 }
        ensures answer { IsSearching result }
        ensures after { (n : NodeState) → NodeStands self.old n
            → outputs.items ≡ map output_of (along message (all_ways n.plan.links))
            → NodeStands self.new (if_answered n (searched n asa kind timeout message) result) }
    {
        let Message::Discovery {
            session,
            objective,
            ..
        } = message
        else {
            return Err(ApiRefused::OutOfMemory);
        };
        match self.keep_search(asa, objective.name, kind, session, timeout) {
            Ok(()) => {
                self.send_datagrams(outputs);
                Ok(ApiAnswer::Searching)
            }
            Err(_) => Err(ApiRefused::OutOfMemory),
        }
    }

    /// Keeps a search that begins. After an `Err` all is as before.
    #[tactic(auto, unfolding(grasp_model_node::specs::Moves::with_discoveries))]
    fn keep_search(
        &mut self,
        asa: u32,
        name: Chars,
        kind: Kind,
        session: u32,
        timeout: u32,
    ) -> Result<(), BeginRefused>
        requires { is_searching self.old.discovery asa (topic_of name kind) ≡ false }
        ensures ok { OnOk result ((n : NodeState) → NodeStands self.old n
            → NodeStands self.new
            (with_discoveries n (with_search n.discoveries (search_from n.reading asa (topic_of name kind) session timeout)))) }
        ensures err { OnErr result ((n : NodeState) → NodeStands self.old n → NodeStands self.new n) }
        ensures queue { self.new.queue ≡ self.old.queue }
    {
        self.discovery
            .begin(self.reading, asa, name, kind, session, timeout)
    }

    /// Floods an objective.
    pub(crate) fn flood(
        &mut self,
        asa: u32,
        name: Chars,
        value: Value,
        ttl: u32,
        loops: u8,
    ) -> Result<ApiAnswer, ApiRefused>
        ensures { (n : NodeState) → NodeStands self.old n
            → MayFlood n asa name value ttl loops result × NodeStands self.new (after_flooding n asa name value ttl loops result) }
    {
        let flags = match self.synchronizable(asa, &name) {
            Ok(flags) => flags,
            Err(refused) => return Err(refused),
        };
        let objective = Objective {
            name,
            flags,
            loops,
            value: Some(value),
        };
        let part = FloodPart {
            objective,
            locator: None,
        };
        match self.ready_flood(ttl, part) {
            Ok(outputs) => {
                self.send_datagrams(outputs);
                Ok(ApiAnswer::Done)
            }
            Err(refused) => Err(refused),
        }
    }

    /// The datagrams of a flood of this part, where they can be sent.
    fn ready_flood(&self, ttl: u32, part: FloodPart) -> Result<Vec<Output>, ApiRefused>
        ensures outputs { IfOk result
            (λ outputs. (n : NodeState) → NodeStands self.now n
            → outputs.items ≡ map output_of (along (flood_of n ttl part) (all_ways n.plan.links))) }
        ensures room { IfOk result (λ outputs. length self.now.queue + length outputs.items ≤ 256) }
        ensures reply { (n : NodeState) → NodeStands self.now n → IsReady (sending n (flood_of n ttl part) (count_all n)) result }
    {
        let session = self.next_session();
        let fits = self.flood_fits(session, ttl, &part);
        self.may_send(fits, self.ways.len())?;
        match self.flood_outputs(session, ttl, part) {
            Ok(outputs) => Ok(outputs),
            Err(_) => Err(ApiRefused::OutOfMemory),
        }
    }

    /// Whether a flood of this part is short enough to be sent.
    fn flood_fits(&self, session: u32, ttl: u32, part: &FloodPart) -> bool
        ensures { (n : NodeState) → NodeStands self.now n → result ≡ fits n.plan.limit (Message.Flood session n.plan.address ttl (part.now ∷ [])) }
    {
        flood_fits(session, &self.plan.address, ttl, part, self.streams.limit())
    }

    /// The datagrams of a flood of this part to every neighbour of every link.
    fn flood_outputs(
        &self,
        session: u32,
        ttl: u32,
        part: FloodPart,
    ) -> Result<Vec<Output>, OutOfMemory>
        ensures outputs { IfOk result (λ outputs. (n : NodeState) → NodeStands self.now n
            → outputs.items ≡ map output_of
            (along (Message.Flood session n.plan.address ttl (part ∷ [])) (all_ways n.plan.links))) }
        ensures count { IfOk result (λ outputs. length outputs.items ≡ length self.now.ways.items) }
    {
        let parts = match FloodParts::of(self.alloc, part) {
            Ok(parts) => parts,
            Err(fault) => return Err(fault),
        };
        let message = Message::Flood {
            session,
            initiator: self.plan.address,
            ttl,
            parts,
        };
        match self.datagrams_for(&message) {
            Ok(outputs) => Ok(outputs),
            Err(fault) => Err(fault),
        }
    }

    /// What floods told of an objective.
    pub(crate) fn get_flood(&mut self, asa: u32, name: Chars) -> Result<ApiAnswer, ApiRefused>
        ensures { (n : NodeState) → NodeStands self.old n → MayGet n asa name result × NodeStands self.new n }
    {
        self.known(asa)?;
        match self.floods.get(&name) {
            Ok(reads) => Ok(ApiAnswer::Floods(reads)),
            Err(_) => Err(ApiRefused::OutOfMemory),
        }
    }

    /// Forgets what a flood told. It takes no memory.
    #[tactic(auto, unfolding(grasp_model_node::specs::Moves::with_floods))]
    pub(crate) fn expire_flood(
        &mut self,
        asa: u32,
        name: Chars,
        initiator: Address,
    ) -> Result<ApiAnswer, ApiRefused>
        ensures { (n : NodeState) → NodeStands self.old n
            → MayExpire n asa name initiator result × NodeStands self.new (after_expiring n name initiator result) }
    {
        self.known(asa)?;
        if self.floods.drop_one(&name, initiator) {
            Ok(ApiAnswer::Done)
        } else {
            Err(ApiRefused::NoFlood)
        }
    }
}

/// The flags of an objective that is looked for.
fn wanted_flags(kind: Kind) -> Flags
    ensures { result ≡ wanted_flags kind }
{
    match kind {
        Kind::Negotiation => Flags::DISC_NEG,
        Kind::Synchronization => Flags::DISC_SYNCH,
    }
}
