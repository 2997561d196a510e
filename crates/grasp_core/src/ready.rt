//! The messages of acts in sessions: whether they fit, and their encodings, before anything is said.

ghost use Rattle.std.specs.Prelude.{◌≡◌, Ok, IfOk};
ghost use Rattle.grasp_session.specs.Stands.{check_answer};
ghost use Rattle.grasp_session.specs.Transcript.{SayStep, SayWait, SayEnd, SayInvalid};
ghost use Rattle.grasp_session.specs.declared.answer.Act.TheVariants as act;
ghost use Rattle.grasp_model_node.specs.Node.{NodeState};
ghost use Rattle.grasp_model_node.specs.Queue.{fits, encoding};
ghost use Rattle.grasp_core.specs.Sayings.{IsReady};
ghost use Rattle.grasp_model_node.specs.SessionCalls.{act_message, stream_at};
ghost use Rattle.grasp_core.specs.Stands.{NodeStands};

use crate::NodeCore;
use grasp_cbor::{Octets, OutOfMemory};
use grasp_session::{messages_are_made, tables_answer_so};
use grasp_types::{Handle, Message, Plain, Value, Verdict};
use grasp_wire::encoded;

/// A message of a session, the stream that carries it, and its encoding.
#[derive(Drop)]
pub(crate) struct Ready {
    pub(crate) stream: u64,
    pub(crate) message: Message,
    pub(crate) bytes: Octets,
}

impl NodeCore {
    /// Whether the step with this value fits.
    pub(crate) fn step_fits(&self, asa: u32, handle: Handle, value: &Value) -> bool
        requires { check_answer self.now.table asa handle act.Step ≡ Ok tt }
        ensures { (n : NodeState) → NodeStands self.now n → result ≡ fits n.plan.limit (act_message n handle (SayStep value.now)) }
    {
        messages_are_made();
        tables_answer_so();
        let Some(session) = self.table.session(handle) else {
            return false;
        };
        let Some(last) = self.table.last(handle) else {
            return false;
        };
        let loops = last.loops.saturating_sub(1);
        grasp_wire::step_fits(
            session,
            &last.name,
            last.flags,
            loops,
            value,
            self.plan.limit,
        )
    }

    /// Whether the end with this verdict fits.
    pub(crate) fn end_fits(&self, asa: u32, handle: Handle, verdict: &Verdict) -> bool
        requires { check_answer self.now.table asa handle act.End ≡ Ok tt }
        ensures { (n : NodeState) → NodeStands self.now n → result ≡ fits n.plan.limit (act_message n handle (SayEnd verdict.now)) }
    {
        messages_are_made();
        tables_answer_so();
        match self.table.session(handle) {
            Some(session) => grasp_wire::end_fits(session, verdict, self.plan.limit),
            None => false,
        }
    }

    /// Whether the invalid message with this detail fits.
    pub(crate) fn invalid_fits(&self, asa: u32, handle: Handle, detail: &Option<Value>) -> bool
        requires { check_answer self.now.table asa handle act.Invalid ≡ Ok tt }
        ensures { (n : NodeState) → NodeStands self.now n → result ≡ fits n.plan.limit (act_message n handle (SayInvalid detail.now)) }
    {
        messages_are_made();
        tables_answer_so();
        match self.table.session(handle) {
            Some(session) => grasp_wire::invalid_fits(session, detail, self.plan.limit),
            None => false,
        }
    }

    /// The step with this value, with its encoding.
    pub(crate) fn step_ready(
        &self,
        asa: u32,
        handle: Handle,
        value: &Value,
    ) -> Result<Ready, OutOfMemory>
        requires { check_answer self.now.table asa handle act.Step ≡ Ok tt }
        ensures bytes { IfOk result (λ ready. ready.bytes ≡ encoding ready.message) }
        ensures ready { IfOk result (λ ready. (n : NodeState) → NodeStands self.now n → IsReady n handle (SayStep value.now) ready) }
    {
        match self.table.step_message(asa, handle, value) {
            Ok(message) => self.encode_for(handle, message),
            Err(error) => Err(error),
        }
    }

    /// The wait of so many milliseconds, with its encoding.
    pub(crate) fn wait_ready(&self, handle: Handle, millis: u32) -> Result<Ready, OutOfMemory>
        ensures bytes { IfOk result (λ ready. ready.bytes ≡ encoding ready.message) }
        ensures ready { IfOk result (λ ready. (n : NodeState) → NodeStands self.now n → IsReady n handle (SayWait millis) ready) }
    {
        messages_are_made();
        match self.table.session(handle) {
            Some(session) => self.encode_for(handle, Message::Wait { session, millis }),
            None => Err(OutOfMemory),
        }
    }

    /// The end with this verdict, with its encoding.
    pub(crate) fn end_ready(&self, handle: Handle, verdict: &Verdict) -> Result<Ready, OutOfMemory>
        ensures bytes { IfOk result (λ ready. ready.bytes ≡ encoding ready.message) }
        ensures ready { IfOk result (λ ready. (n : NodeState) → NodeStands self.now n → IsReady n handle (SayEnd verdict.now) ready) }
    {
        messages_are_made();
        let verdict = verdict.copy()?;
        match self.table.session(handle) {
            Some(session) => self.encode_for(handle, Message::End { session, verdict }),
            None => Err(OutOfMemory),
        }
    }

    /// The invalid message with this detail, with its encoding.
    pub(crate) fn invalid_ready(
        &self,
        handle: Handle,
        detail: &Option<Value>,
    ) -> Result<Ready, OutOfMemory>
        ensures bytes { IfOk result (λ ready. ready.bytes ≡ encoding ready.message) }
        ensures ready { IfOk result (λ ready. (n : NodeState) → NodeStands self.now n → IsReady n handle (SayInvalid detail.now) ready) }
    {
        messages_are_made();
        let detail = detail.copy()?;
        match self.table.session(handle) {
            Some(session) => self.encode_for(handle, Message::Invalid { session, detail }),
            None => Err(OutOfMemory),
        }
    }

    /// A message of a session, with its encoding.
    fn encode_for(&self, handle: Handle, message: Message) -> Result<Ready, OutOfMemory>
        ensures bytes { IfOk result (λ ready. ready.bytes ≡ encoding ready.message) }
        ensures same { IfOk result (λ ready. ready.message ≡ message) }
        ensures stream { IfOk result (λ ready. (n : NodeState) → NodeStands self.now n → ready.stream ≡ stream_at n handle) }
    {
        let Some(stream) = self.table.stream(handle) else {
            return Err(OutOfMemory);
        };
        match encoded(self.alloc, &message, self.plan.limit) {
            Ok(bytes) => Ok(Ready {
                stream,
                message,
                bytes,
            }),
            Err(_) => Err(OutOfMemory),
        }
    }
}
