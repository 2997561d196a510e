//! The declines of sessions that no agent has taken: they are made before anything changes, and then said.

ghost use Rattle.std.specs.Prelude.{◌≡◌, ◌+◌, ◌≤◌, ◌++◌, ◌∷◌, [], true, Ok, All, map, length, IfOk, OnOk, if◌then◌else◌};
ghost use Rattle.grasp_asa.specs.Answers.{names_of};
ghost use Rattle.grasp_session.specs.Sessions.{Sessions, session_at};
ghost use Rattle.grasp_session.specs.Stands.{Stands, check_answer};
ghost use Rattle.grasp_model_node.specs.Declines.{decline_at, declines_of, may_decline, declined, removed, after_decline, after_declines};
ghost use Rattle.grasp_model_node.specs.Node.{NodeState};
ghost use Rattle.grasp_core.specs.Planned.{planned_as, IsPlanned};
ghost use Rattle.grasp_model_node.specs.RegistryCalls.{declines_for};
ghost use Rattle.grasp_core.specs.Stands.{NodeStands};

use crate::NodeCore;
use grasp_cbor::{Chars, Octets, OutOfMemory};
use grasp_session::{Act, Table};
use grasp_types::{Handle, Message, Plain, Verdict};
use grasp_wire::encoded;
use std::alloc::Global;

/// How many sessions are live at most.
pub(crate) const MOST_SESSIONS: u32 = 64;

/// A decline that is to be said: its session, the stream, the message with its encoding, and the verdict.
#[derive(Drop)]
pub(crate) struct Planned {
    pub(crate) handle: Handle,
    pub(crate) stream: u64,
    pub(crate) message: Message,
    pub(crate) bytes: Octets,
    pub(crate) verdict: Verdict,
}

impl NodeCore {
    /// The declines of all untaken sessions of an objective, in rising order of their numbers.
    pub(crate) fn plan_of(&self, name: &Chars) -> Result<Vec<Planned>, OutOfMemory>
        ensures plan { IfOk result (λ plan. (n : NodeState) → NodeStands self.now n → map planned_as plan.items ≡ declines_of n.sessions name.now) }
        ensures planned { IfOk result (λ plan. All IsPlanned plan.items) }
    {
        let mut plan = Vec::new(self.alloc);
        add_declines(self.alloc, &self.table, name, self.plan.limit, &mut plan)?;
        Ok(plan)
    }

    /// The declines of all untaken sessions of an agent's objectives, in the order in which these were registered.
    pub(crate) fn plan_for(&self, asa: u32) -> Result<Vec<Planned>, OutOfMemory>
        ensures plan { IfOk result
            (λ plan. (n : NodeState) → NodeStands self.now n
            → map planned_as plan.items ≡ declines_for n.sessions (names_of n.registrations asa)) }
        ensures planned { IfOk result (λ plan. All IsPlanned plan.items) }
    {
        let mut plan = Vec::new(self.alloc);
        // It ends at the first place past the agent's last objective.
        for i in 0..u64::MAX {
            let Some(name) = self.registry.name_of(asa, i) else {
                return Ok(plan);
            };
            add_declines(self.alloc, &self.table, name, self.plan.limit, &mut plan)?;
        }
        Err(OutOfMemory)
    }

    /// Declines as planned.
    pub(crate) fn decline_all(&mut self, plan: Vec<Planned>)
        requires { All IsPlanned plan.items }
        ensures { (n : NodeState) → NodeStands self.old n → NodeStands self.new (after_declines n (map planned_as plan.items)) }
    {
        for planned in plan {
            self.decline_one(planned);
        }
    }

    /// Declines one session, whose stream begins closing.
    fn decline_one(&mut self, planned: Planned)
        requires { IsPlanned planned }
        ensures { (n : NodeState) → NodeStands self.old n → NodeStands self.new (after_decline n (planned_as planned)) }
    {
        let stream = planned.stream;
        self.end_untaken(planned);
        self.begin_closing(stream);
    }

    /// A session ends by its decline, where that can be said, or leaves without a word.
    fn end_untaken(&mut self, planned: Planned)
        requires { IsPlanned planned }
        ensures { (n : NodeState) → NodeStands self.old n
            → NodeStands self.new
            (if may_decline n planned.handle then declined n (planned_as planned) else removed n planned.handle) }
    {
        if self.may_decline(planned.handle) {
            self.say_decline(planned);
        } else {
            self.remove_session(planned.handle);
        }
    }

    /// Whether a decline can be said in this session.
    fn may_decline(&self, handle: Handle) -> bool
        ensures answer { (n : NodeState) → NodeStands self.now n → result ≡ may_decline n handle }
        ensures room { result ≡ true → length self.now.queue + 1 ≤ 256 }
        ensures allowed { result ≡ true → check_answer self.now.table 0 handle Act.End ≡ Ok tt }
    {
        self.queue.has_room(1) && self.table.check(0, handle, Act::End).is_ok()
    }

    /// Says a decline.
    #[tactic(auto, unfolding(grasp_model_node::specs::Moves::with_sessions, grasp_model_node::specs::Moves::queue_up))]
    fn say_decline(&mut self, planned: Planned)
        requires planned { IsPlanned planned }
        requires room { length self.old.queue + 1 ≤ 256 }
        requires allowed { check_answer self.old.table 0 planned.handle Act.End ≡ Ok tt }
        ensures { (n : NodeState) → NodeStands self.old n → NodeStands self.new (declined n (planned_as planned)) }
    {
        let Planned {
            handle,
            stream,
            message,
            bytes,
            verdict,
        } = planned;
        let Ok(_said) = self.table.end(self.reading, 0, handle, verdict) else {
            return;
        };
        self.queue.send(stream, &message, bytes);
    }

    /// A session leaves without a word.
    #[tactic(auto, unfolding(grasp_model_node::specs::Moves::with_sessions))]
    pub(crate) fn remove_session(&mut self, handle: Handle)
        ensures { (n : NodeState) → NodeStands self.old n → NodeStands self.new (removed n handle) }
    {
        match self.table.stream(handle) {
            Some(_stream) => self.table.remove(handle),
            None => {}
        }
    }
}

/// Adds the declines of all untaken sessions of an objective, in rising order of their numbers.
fn add_declines(
    alloc: Global,
    table: &Table,
    name: &Chars,
    limit: u32,
    plan: &mut Vec<Planned>,
) -> Result<(), OutOfMemory>
    ensures plan { OnOk result
        ((z : Sessions) → Stands table.now z
        → map planned_as plan.new.items ≡ map planned_as plan.old.items ++ declines_of z name.now) }
    ensures planned { OnOk result (All IsPlanned plan.old.items → All IsPlanned plan.new.items) }
{
    let mut above = 0;
    let mut left = MOST_SESSIONS;
    while left > 0 {
        let Some(handle) = table.untaken_above(name, above) else {
            return Ok(());
        };
        plan.push(plan_decline(alloc, table, handle, limit)?)?;
        above = handle.number;
        left -= 1;
    }
    Ok(())
}

/// The decline of one session without an outcome.
fn plan_decline(
    alloc: Global,
    table: &Table,
    handle: Handle,
    limit: u32,
) -> Result<Planned, OutOfMemory>
    ensures plan { IfOk result
        (λ planned. (z : Sessions) → Stands table.now z
        → decline_at handle (session_at z handle) [] ≡ planned_as planned ∷ []) }
    ensures planned { IfOk result IsPlanned }
{
    let Some(stream) = table.stream(handle) else {
        return Err(OutOfMemory);
    };
    let Some(session) = table.session(handle) else {
        return Err(OutOfMemory);
    };
    let verdict = Verdict::Decline(Some(Chars::of(alloc, "unlistened")?));
    let message = Message::End {
        session,
        verdict: verdict.copy()?,
    };
    let Ok(bytes) = encoded(alloc, &message, limit) else {
        return Err(OutOfMemory);
    };
    Ok(Planned {
        handle,
        stream,
        message,
        bytes,
        verdict,
    })
}
