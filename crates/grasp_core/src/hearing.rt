//! One message that comes on an open stream.

ghost use Rattle.std.specs.Prelude.{◌≡◌, Some, None, IfOk, OnOk, OnErr};
ghost use Rattle.grasp_session.specs.Sessions.{state_reply, start_reply, after_mark};
ghost use Rattle.grasp_session.specs.Stands.{state_answer};
ghost use Rattle.grasp_session.specs.Transcript.{Faulty};
ghost use Rattle.grasp_model_node.specs.Declines.{declined_for};
ghost use Rattle.grasp_core.specs.First.{first_heard};
ghost use Rattle.grasp_model_node.specs.Hear.{hear, hear_first, hear_later, hear_request, hear_synchronization, listened, goes_on, is_listened, after_refusal};
ghost use Rattle.grasp_model_node.specs.Moves.{answer, with_sessions};
ghost use Rattle.grasp_model_node.specs.Node.{NodeState};
ghost use Rattle.grasp_core.specs.Stands.{NodeStands};

use crate::NodeCore;
use crate::first::{First, first_of};
use grasp_asa::Registry;
use grasp_cbor::{Chars, OutOfMemory};
use grasp_session::{Begin, Received};
use grasp_types::{Kind, Message, Objective, Value, Verdict};

/// For how many milliseconds a listener's session waits.
const TIMEOUT: u32 = 60000;

impl NodeCore {
    /// A message comes on an open stream: whether the stream stays open. After an `Err` all is as before.
    #[tactic(auto, unfolding(grasp_model_node::specs::Hear::hear))]
    pub(crate) fn hear(&mut self, stream: u64, message: Message) -> Result<bool, OutOfMemory>
        ensures ok { IfOk result (λ stays. (n : NodeState) → NodeStands self.old n
            → (stays ≡ (hear n stream message).is_open) × NodeStands self.new (hear n stream message).node) }
        ensures err { OnErr result ((n : NodeState) → NodeStands self.old n → NodeStands self.new n) }
    {
        if self.table.state(stream).is_some() {
            self.later(stream, message)
        } else {
            self.first(stream, message)
        }
    }

    /// What came on a stream is bad: its session, where it has no outcome, is told so, and ends. After an `Err` all is as
    /// before.
    pub(crate) fn refuse(&mut self, stream: u64) -> Result<(), OutOfMemory>
        ensures ok { OnOk result ((n : NodeState) → NodeStands self.old n → NodeStands self.new (after_refusal n stream)) }
        ensures err { OnErr result ((n : NodeState) → NodeStands self.old n → NodeStands self.new n) }
    {
        let Some((session, ended)) = self.table.state(stream) else {
            return Ok(());
        };
        if ended {
            return Ok(());
        }
        self.invalid(stream, session)?;
        self.mark_bad(stream);
        Ok(())
    }

    /// The session of a stream ends by what is bad.
    #[tactic(auto, unfolding(grasp_model_node::specs::Moves::with_sessions))]
    fn mark_bad(&mut self, stream: u64)
        ensures { (n : NodeState) → NodeStands self.old n → NodeStands self.new (with_sessions n (after_mark n.sessions stream Faulty)) }
    {
        self.table.bad(stream);
    }

    /// Whether the stream has a session without an outcome.
    fn goes_on(&self, stream: u64) -> bool
        ensures { (n : NodeState) → NodeStands self.now n → result ≡ goes_on (state_reply n.sessions stream) }
    {
        match self.table.state(stream) {
            Some((_, ended)) => !ended,
            None => false,
        }
    }

    /// A message comes for a session.
    #[tactic(auto, unfolding(grasp_model_node::specs::Moves::with_sessions))]
    fn later(&mut self, stream: u64, message: Message) -> Result<bool, OutOfMemory>
        ensures ok { IfOk result (λ stays. (n : NodeState) → NodeStands self.old n
            → (stays ≡ (hear_later n stream message).is_open) × NodeStands self.new (hear_later n stream message).node) }
        ensures err { OnErr result ((n : NodeState) → NodeStands self.old n → NodeStands self.new n) }
    {
        match self.table.receive(self.reading, stream, message) {
            Received::Bad => {
                self.refuse(stream)?;
                Ok(false)
            }
            Received::Kept => Ok(self.goes_on(stream)),
            Received::Ignored => Ok(self.goes_on(stream)),
        }
    }

    /// The first message comes.
    fn first(&mut self, stream: u64, message: Message) -> Result<bool, OutOfMemory>
        requires { state_answer self.old.table stream ≡ None }
        ensures ok { IfOk result (λ stays. (n : NodeState) → NodeStands self.old n
            → (stays ≡ (hear_first n stream message).is_open) × NodeStands self.new (hear_first n stream message).node) }
        ensures err { OnErr result ((n : NodeState) → NodeStands self.old n → NodeStands self.new n) }
    {
        self.asked(stream, first_of(message))
    }

    /// The first message asks for this.
    fn asked(&mut self, stream: u64, first: First) -> Result<bool, OutOfMemory>
        requires { state_answer self.old.table stream ≡ None }
        ensures ok { IfOk result (λ stays. (n : NodeState) → NodeStands self.old n
            → (stays ≡ (first_heard n stream first).is_open) × NodeStands self.new (first_heard n stream first).node) }
        ensures err { OnErr result ((n : NodeState) → NodeStands self.old n → NodeStands self.new n) }
    {
        match first {
            First::Nothing => Ok(true),
            First::Request { session, objective } => self.request(stream, session, objective),
            First::Synchronization { session, objective } => {
                self.synchronization(stream, session, objective)
            }
            First::Response {
                session,
                initiator,
                ttl,
                answer,
                objective,
            } => self.response(Message::Response {
                session,
                initiator,
                ttl,
                answer,
                objective,
            }),
            First::Over => Ok(false),
            First::Strange { session } => {
                self.invalid(stream, session)?;
                Ok(false)
            }
        }
    }

    /// Answers by M_INVALID without detail.
    fn invalid(&mut self, stream: u64, session: u32) -> Result<(), OutOfMemory>
        ensures ok { OnOk result ((n : NodeState) → NodeStands self.old n → NodeStands self.new (answer n stream (Message.Invalid session None))) }
        ensures err { OnErr result ((n : NodeState) → NodeStands self.old n → NodeStands self.new n) }
    {
        self.answer(
            stream,
            Message::Invalid {
                session,
                detail: None,
            },
        )
    }

    /// A request for negotiation comes: it begins a session, or is declined.
    fn request(
        &mut self,
        stream: u64,
        session: u32,
        objective: Objective,
    ) -> Result<bool, OutOfMemory>
        requires { state_answer self.old.table stream ≡ None }
        ensures ok { IfOk result (λ stays. (n : NodeState) → NodeStands self.old n
            → (stays ≡ (hear_request n stream session objective).is_open)
            × NodeStands self.new (hear_request n stream session objective).node) }
        ensures err { OnErr result ((n : NodeState) → NodeStands self.old n → NodeStands self.new n) }
    {
        if !is_listened_for(&self.registry, &objective) {
            self.decline(stream, session, "unlistened")?;
            return Ok(false);
        }
        self.listened(stream, session, objective)
    }

    /// A request comes that is listened for.
    #[tactic(auto, unfolding(grasp_model_node::specs::Moves::with_sessions))]
    fn listened(
        &mut self,
        stream: u64,
        session: u32,
        objective: Objective,
    ) -> Result<bool, OutOfMemory>
        requires { state_answer self.old.table stream ≡ None }
        ensures ok { IfOk result (λ stays. (n : NodeState) → NodeStands self.old n
            → (stays ≡ (listened n stream session objective (start_reply n.sessions)).is_open)
            × NodeStands self.new (listened n stream session objective (start_reply n.sessions)).node) }
        ensures err { OnErr result ((n : NodeState) → NodeStands self.old n → NodeStands self.new n) }
    {
        let begin = Begin {
            owner: 0,
            kind: Kind::Negotiation,
            requester: false,
            session,
            stream,
            timeout: TIMEOUT,
            objective,
            taken: false,
        };
        match self.table.start(self.reading, begin) {
            Ok(_) => Ok(true),
            Err(_) => {
                self.decline(stream, session, "busy")?;
                Ok(false)
            }
        }
    }

    /// A request for synchronization comes: it is answered where a value is offered, or declined.
    fn synchronization(
        &mut self,
        stream: u64,
        session: u32,
        objective: Objective,
    ) -> Result<bool, OutOfMemory>
        ensures ok { IfOk result (λ stays. (n : NodeState) → NodeStands self.old n
            → (stays ≡ (hear_synchronization n stream session objective).is_open)
            × NodeStands self.new (hear_synchronization n stream session objective).node) }
        ensures err { OnErr result ((n : NodeState) → NodeStands self.old n → NodeStands self.new n) }
    {
        if !objective.flags.has_synch() {
            self.decline(stream, session, "unlistened")?;
            return Ok(false);
        }
        match self.registry.offered(&objective.name) {
            Ok(Some(value)) => {
                self.synch(stream, session, objective, value)?;
                Ok(false)
            }
            Ok(None) => {
                self.decline(stream, session, "unlistened")?;
                Ok(false)
            }
            Err(_) => Err(OutOfMemory),
        }
    }

    /// Answers a request for synchronization by its objective with this value.
    fn synch(
        &mut self,
        stream: u64,
        session: u32,
        objective: Objective,
        value: Value,
    ) -> Result<(), OutOfMemory>
        ensures ok { OnOk result ((n : NodeState) → NodeStands self.old n
            → NodeStands self.new (answer n stream (Message.Synch session (record objective { value = Some value })))) }
        ensures err { OnErr result ((n : NodeState) → NodeStands self.old n → NodeStands self.new n) }
    {
        let objective = Objective {
            name: objective.name,
            flags: objective.flags,
            loops: objective.loops,
            value: Some(value),
        };
        self.answer(stream, Message::Synch { session, objective })
    }

    /// Declines a request, for this reason.
    fn decline(&mut self, stream: u64, session: u32, reason: &str) -> Result<(), OutOfMemory>
        ensures ok { OnOk result
            ((n : NodeState) → NodeStands self.old n
            → NodeStands self.new (answer n stream (Message.End session (declined_for reason.now)))) }
        ensures err { OnErr result ((n : NodeState) → NodeStands self.old n → NodeStands self.new n) }
    {
        let reason = Chars::of(self.alloc, reason)?;
        let verdict = Verdict::Decline(Some(reason));
        self.answer(stream, Message::End { session, verdict })
    }
}

/// Whether a request for this objective is listened for.
fn is_listened_for(registry: &Registry, objective: &Objective) -> bool
    ensures { result ≡ is_listened registry.now objective.now }
{
    if registry.listener(&objective.name).is_none() {
        return false;
    }
    match registry.flags_of(&objective.name) {
        Some(flags) => {
            flags.has_neg()
                && objective.flags.has_neg()
                && !objective.flags.has_synch()
                && (!objective.flags.has_dry() || flags.has_dry())
        }
        None => false,
    }
}
