//! The requests of agents (RFC 8991, sections 2.3.5 and 2.3.6).

ghost use Rattle.std.specs.Prelude.{◌≡◌, ◌≤◌, ◌<◌, ◌^◌, ◌+◌, Some, length, IfOk, OnOk};
ghost use Rattle.grasp_model_node.specs.Answered.{if_answered, Is};
ghost use Rattle.grasp_model_node.specs.Node.{NodeState};
ghost use Rattle.grasp_core.specs.Outgoing.{IsReady, MaySend, dial_tests, IsRequest, asked, dialled, IsBegun};
ghost use Rattle.grasp_model_node.specs.Queue.{encoding};
ghost use Rattle.grasp_model_node.specs.Refusals.{early, as_unit};
ghost use Rattle.grasp_model_node.specs.SessionCalls.{MayRequest, after_request, MaySynchronize, after_synchronizing, request_of, requested, started};
ghost use Rattle.grasp_core.specs.Stands.{NodeStands};
ghost use Rattle.grasp_model_node.specs.Tests.{request_tests, synchronize_tests, owned_flags, sending};
ghost use Rattle.grasp_model_node.specs.Draws.{next_session};
ghost use Rattle.grasp_session.specs.Sessions.{start_reply};

use crate::NodeCore;
use grasp_cbor::{Chars, Octets};
use grasp_session::Begin;
use grasp_types::{ApiAnswer, ApiRefused, Flags, Kind, Locator, Message, Objective, Value};
use grasp_wire::encoded;

/// A request that can be sent, with its encoding.
#[derive(Drop)]
struct ReadyRequest {
    message: Message,
    bytes: Octets,
}

impl NodeCore {
    /// Begins a negotiation with a peer.
    pub(crate) fn request_negotiate(
        &mut self,
        asa: u32,
        name: Chars,
        value: Value,
        loops: u8,
        timeout: u32,
        dry: bool,
        peer: Locator,
    ) -> Result<ApiAnswer, ApiRefused>
        ensures { (n : NodeState) → NodeStands self.old n
            → MayRequest n asa name value loops dry peer result
            × NodeStands self.new (after_request n asa name value loops timeout dry peer result) }
    {
        let flags = match self.may_request(asa, &name, dry, &peer) {
            Ok(flags) => flags,
            Err(refused) => return Err(refused),
        };
        let objective = Objective {
            name,
            flags: flags.with_dry(dry),
            loops,
            value: Some(value),
        };
        self.begin_request(asa, Kind::Negotiation, timeout, objective, peer)
    }

    /// Asks a peer for the value of an objective.
    pub(crate) fn synchronize(
        &mut self,
        asa: u32,
        name: Chars,
        loops: u8,
        timeout: u32,
        peer: Locator,
    ) -> Result<ApiAnswer, ApiRefused>
        ensures { (n : NodeState) → NodeStands self.old n
            → MaySynchronize n asa name loops peer result
            × NodeStands self.new (after_synchronizing n asa name loops timeout peer result) }
    {
        let flags = match self.may_synchronize(asa, &name, &peer) {
            Ok(flags) => flags,
            Err(refused) => return Err(refused),
        };
        let objective = Objective {
            name,
            flags: flags.with_dry(false),
            loops,
            value: None,
        };
        self.begin_request(asa, Kind::Synchronization, timeout, objective, peer)
    }

    /// The registered flags of the objective of a negotiation, or the first refusal that holds before its message.
    #[tactic(auto, using(crate::proofs::Asking::request_refused, crate::proofs::Asking::request_dry, crate::proofs::Asking::request_dials))]
    fn may_request(
        &self,
        asa: u32,
        name: &Chars,
        dry: bool,
        peer: &Locator,
    ) -> Result<Flags, ApiRefused>
        ensures reply { (n : NodeState) → NodeStands self.now n → as_unit result ≡ early (request_tests n asa name.now dry peer.now) }
        ensures flags { IfOk result (λ flags. (n : NodeState) → NodeStands self.now n → owned_flags n asa name.now ≡ Some flags) }
        ensures positive { OnOk result (0 < asa) }
        ensures dialled { OnOk result (self.now.streams.dialled < 2 ^ 62) }
    {
        let flags = match self.negotiable(asa, name) {
            Ok(flags) => flags,
            Err(refused) => return Err(refused),
        };
        if dry && !flags.has_dry() {
            return Err(ApiRefused::NotDry);
        }
        match self.may_dial(peer) {
            Ok(()) => Ok(flags),
            Err(refused) => Err(refused),
        }
    }

    /// The registered flags of the objective of a synchronization, or the first refusal that holds before its message.
    #[tactic(auto, using(crate::proofs::Asking::synchronize_refused, crate::proofs::Asking::synchronize_dials))]
    fn may_synchronize(&self, asa: u32, name: &Chars, peer: &Locator) -> Result<Flags, ApiRefused>
        ensures reply { (n : NodeState) → NodeStands self.now n → as_unit result ≡ early (synchronize_tests n asa name.now peer.now) }
        ensures flags { IfOk result (λ flags. (n : NodeState) → NodeStands self.now n → owned_flags n asa name.now ≡ Some flags) }
        ensures positive { OnOk result (0 < asa) }
        ensures dialled { OnOk result (self.now.streams.dialled < 2 ^ 62) }
    {
        let flags = match self.synchronizable(asa, name) {
            Ok(flags) => flags,
            Err(refused) => return Err(refused),
        };
        match self.may_dial(peer) {
            Ok(()) => Ok(flags),
            Err(refused) => Err(refused),
        }
    }

    /// Whether this peer can be dialled for a session that begins, or the first refusal that holds.
    fn may_dial(&self, peer: &Locator) -> Result<(), ApiRefused>
        ensures reply { (n : NodeState) → NodeStands self.now n → result ≡ early (dial_tests n peer.now) }
        ensures dialled { OnOk result (self.now.streams.dialled < 2 ^ 62) }
    {
        if !peer.is_dialable() {
            return Err(ApiRefused::BadLocator);
        }
        if self.table.full() {
            return Err(ApiRefused::SessionsFull);
        }
        if self.streams.is_dialled_out() {
            return Err(ApiRefused::StreamsFull);
        }
        Ok(())
    }

    /// Sends a request of this kind for this objective to a peer, where it can be sent, and begins its session.
    fn begin_request(
        &mut self,
        asa: u32,
        kind: Kind,
        timeout: u32,
        objective: Objective,
        peer: Locator,
    ) -> Result<ApiAnswer, ApiRefused>
        requires owner { 0 < asa }
        requires dialled { self.old.streams.dialled < 2 ^ 62 }
        ensures answer { (n : NodeState) → NodeStands self.old n
            → MaySend (sending n (request_of kind (next_session n) objective) 2) (Is (started (start_reply n.sessions))) result }
        ensures after { (n : NodeState) → NodeStands self.old n
            → NodeStands self.new (if_answered n (requested n asa kind timeout objective peer) result) }
    {
        let session = self.next_session();
        let message = request_of(kind, session, objective);
        match self.ready_request(message) {
            Ok(ready) => self.dial_request(asa, timeout, peer, ready),
            Err(refused) => Err(refused),
        }
    }

    /// A request with its encoding, where it and its dial can be sent.
    fn ready_request(&self, message: Message) -> Result<ReadyRequest, ApiRefused>
        ensures bytes { IfOk result (λ ready. ready.bytes ≡ encoding ready.message) }
        ensures same { IfOk result (λ ready. ready.message ≡ message) }
        ensures room { OnOk result (length self.now.queue + 2 ≤ 256) }
        ensures reply { (n : NodeState) → NodeStands self.now n → IsReady (sending n message 2) result }
    {
        self.may_send(self.short_enough(&message), 2)?;
        let Ok(bytes) = encoded(self.alloc, &message, self.streams.limit()) else {
            return Err(ApiRefused::OutOfMemory);
        };
        Ok(ReadyRequest { message, bytes })
    }

    /// Dials the peer, sends it the request that is ready, and begins its session.
    #[tactic(auto, unfolding(grasp_model_node::specs::Moves::with_sessions, grasp_model_node::specs::Moves::with_draw, grasp_model_node::specs::Moves::dial_record, grasp_model_node::specs::Moves::queue_up))]
    fn dial_request(
        &mut self,
        asa: u32,
        timeout: u32,
        peer: Locator,
        ready: ReadyRequest,
    ) -> Result<ApiAnswer, ApiRefused>
        requires owner { 0 < asa }
        requires request { IsRequest ready.message }
        requires bytes { ready.bytes ≡ encoding ready.message }
        requires room { length self.old.queue + 2 ≤ 256 }
        requires dialled { self.old.streams.dialled < 2 ^ 62 }
        ensures answer { (n : NodeState) → NodeStands self.old n → IsBegun n result }
        ensures after { (n : NodeState) → NodeStands self.old n
            → NodeStands self.new (if_answered n (dialled n asa timeout peer ready.message) result) }
    {
        // No live session has the number of a stream that wasn't dialled before.
        let stream = self.streams.next();
        if self.table.state(stream).is_some() {
            return Err(ApiRefused::OutOfMemory);
        }
        let Ok(()) = self.streams.dial() else {
            return Err(ApiRefused::OutOfMemory);
        };
        let ReadyRequest { message, bytes } = ready;
        self.draws.draw();
        self.queue.dial(stream, peer, &message, bytes);
        // The table isn't full: a request is refused where it is.
        match self
            .table
            .start(self.reading, begin_of(asa, timeout, stream, message))
        {
            Ok(handle) => Ok(ApiAnswer::Started(handle)),
            Err(_) => Ok(ApiAnswer::NotYet),
        }
    }
}

/// A request of this kind.
fn request_of(kind: Kind, session: u32, objective: Objective) -> Message
    ensures is { result ≡ request_of kind session objective }
    ensures request { IsRequest result }
{
    match kind {
        Kind::Negotiation => Message::ReqNeg { session, objective },
        Kind::Synchronization => Message::ReqSyn { session, objective },
    }
}

/// The session that begins with a request of this end.
fn begin_of(asa: u32, timeout: u32, stream: u64, message: Message) -> Begin
    requires { IsRequest message }
    ensures { result ≡ asked asa timeout stream message }
{
    let (kind, session, objective) = match message {
        Message::ReqNeg { session, objective } => (Kind::Negotiation, session, objective),
        Message::ReqSyn { session, objective } => (Kind::Synchronization, session, objective),
        _ => unreachable!(),
    };
    Begin {
        owner: asa,
        kind,
        requester: true,
        session,
        stream,
        timeout,
        objective,
        taken: true,
    }
}
