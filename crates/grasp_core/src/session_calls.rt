//! The calls on sessions (RFC 8991, section 2.3.5).

ghost use Rattle.std.specs.Prelude.{◌≡◌, ◌<◌, ◌+◌, ◌≤◌, ◌∷◌, [], true, Some, Ok, length};
ghost use Rattle.grasp_session.specs.Sessions.{after_say};
ghost use Rattle.grasp_session.specs.Stands.{check_answer, IsUntaken};
ghost use Rattle.grasp_session.specs.Transcript.{SayStep, SayWait, SayEnd, SayInvalid};
ghost use Rattle.grasp_model_node.specs.Answered.{if_answered};
ghost use Rattle.grasp_model_node.specs.Moves.{with_sessions, queue_up, begin_closing};
ghost use Rattle.grasp_model_node.specs.Node.{NodeState};
ghost use Rattle.grasp_model_node.specs.Queue.{send, encoding};
ghost use Rattle.grasp_core.specs.Sayings.{IsSaid, IsTaken};
ghost use Rattle.grasp_model_node.specs.RegistryCalls.{with_mark};
ghost use Rattle.grasp_model_node.specs.SessionCalls.{MayStep, after_step, MayWait, after_wait, MayEnd, after_end, MayInvalid, after_invalid};
ghost use Rattle.grasp_model_node.specs.SessionCalls.{MayPollNode, after_polling, MayListen, after_listening, opener_at, taken_in, with_adopted};
ghost use Rattle.grasp_core.specs.Stands.{NodeStands};

use crate::NodeCore;
use crate::ready::Ready;
use grasp_cbor::{Chars, Octets};
use grasp_session::{Act, SessionRefused};
use grasp_types::{Address, ApiAnswer, ApiRefused, Handle, Message, Value, Verdict};

impl NodeCore {
    /// Offers a value by a step.
    pub(crate) fn negotiate_step(
        &mut self,
        asa: u32,
        handle: Handle,
        value: Value,
    ) -> Result<ApiAnswer, ApiRefused>
        ensures { (n : NodeState) → NodeStands self.old n
            → MayStep n asa handle value result × NodeStands self.new (after_step n handle value result) }
    {
        self.may_act(asa, handle, Act::Step)?;
        let fits = self.step_fits(asa, handle, &value);
        self.may_send(fits, 1)?;
        match self.step_ready(asa, handle, &value) {
            Ok(ready) => self.say_step(asa, handle, value, ready),
            Err(_) => Err(ApiRefused::OutOfMemory),
        }
    }

    /// Asks for more time.
    pub(crate) fn negotiate_wait(
        &mut self,
        asa: u32,
        handle: Handle,
        millis: u32,
    ) -> Result<ApiAnswer, ApiRefused>
        ensures { (n : NodeState) → NodeStands self.old n → MayWait n asa handle result × NodeStands self.new (after_wait n handle millis result) }
    {
        self.may_act(asa, handle, Act::Wait)?;
        self.may_send(true, 1)?;
        match self.wait_ready(handle, millis) {
            Ok(ready) => self.say_wait(asa, handle, millis, ready),
            Err(_) => Err(ApiRefused::OutOfMemory),
        }
    }

    /// Accepts or declines.
    pub(crate) fn end_negotiate(
        &mut self,
        asa: u32,
        handle: Handle,
        verdict: Verdict,
    ) -> Result<ApiAnswer, ApiRefused>
        ensures { (n : NodeState) → NodeStands self.old n
            → MayEnd n asa handle verdict result × NodeStands self.new (after_end n handle verdict result) }
    {
        self.may_act(asa, handle, Act::End)?;
        let fits = self.end_fits(asa, handle, &verdict);
        self.may_send(fits, 1)?;
        match self.end_ready(handle, &verdict) {
            Ok(ready) => self.end_with(asa, handle, verdict, ready),
            Err(_) => Err(ApiRefused::OutOfMemory),
        }
    }

    /// Gives up a session.
    pub(crate) fn send_invalid(
        &mut self,
        asa: u32,
        handle: Handle,
        detail: Option<Value>,
    ) -> Result<ApiAnswer, ApiRefused>
        ensures { (n : NodeState) → NodeStands self.old n
            → MayInvalid n asa handle detail result × NodeStands self.new (after_invalid n handle detail result) }
    {
        self.may_act(asa, handle, Act::Invalid)?;
        let fits = self.invalid_fits(asa, handle, &detail);
        self.may_send(fits, 1)?;
        match self.invalid_ready(handle, &detail) {
            Ok(ready) => {
                self.give_up(asa, handle, detail, ready);
                Ok(ApiAnswer::Done)
            }
            Err(_) => Err(ApiRefused::OutOfMemory),
        }
    }

    /// How a session stands.
    #[tactic(auto, unfolding(grasp_model_node::specs::Moves::with_sessions))]
    pub(crate) fn poll(&mut self, asa: u32, handle: Handle) -> Result<ApiAnswer, ApiRefused>
        ensures { (n : NodeState) → NodeStands self.old n → MayPollNode n asa handle result × NodeStands self.new (after_polling n handle result) }
    {
        if !self.registry.knows(asa) {
            return Err(ApiRefused::NoAsa);
        }
        match self.table.poll(asa, handle) {
            Ok(progress) => Ok(ApiAnswer::Polled(progress)),
            Err(SessionRefused::NoSession) => Err(ApiRefused::NoSession),
            Err(_) => Err(ApiRefused::OutOfMemory),
        }
    }

    /// Listens for requests of an objective, and takes its untaken session of the least number.
    pub(crate) fn listen_negotiate(
        &mut self,
        asa: u32,
        name: Chars,
    ) -> Result<ApiAnswer, ApiRefused>
        ensures { (n : NodeState) → NodeStands self.old n → MayListen n asa name result × NodeStands self.new (after_listening n asa name result) }
    {
        let _flags = match self.negotiable(asa, &name) {
            Ok(flags) => flags,
            Err(refused) => return Err(refused),
        };
        match self.table.untaken(&name) {
            Some(handle) => self.take_untaken(asa, &name, handle),
            None => {
                self.mark_listening(asa, &name);
                Ok(ApiAnswer::NotYet)
            }
        }
    }

    /// Says the step that is ready.
    fn say_step(
        &mut self,
        asa: u32,
        handle: Handle,
        value: Value,
        ready: Ready,
    ) -> Result<ApiAnswer, ApiRefused>
        requires allowed { check_answer self.old.table asa handle Act.Step ≡ Ok tt }
        requires bytes { ready.bytes ≡ encoding ready.message }
        requires room { length self.old.queue + 1 ≤ 256 }
        ensures answer { IsSaid result }
        ensures says { (n : NodeState) → NodeStands self.old n
            → NodeStands self.new (if_answered n (queue_up (with_sessions n
            (after_say n.sessions n.reading handle (SayStep value))) (send ready.stream ready.message ∷ [])) result) }
    {
        let Ready {
            stream,
            message,
            bytes,
        } = ready;
        self.send_step(asa, handle, value, stream, &message, bytes)
    }

    /// Says a step, and queues its message for its stream.
    #[tactic(auto, unfolding(grasp_model_node::specs::Moves::with_sessions, grasp_model_node::specs::Moves::queue_up))]
    fn send_step(
        &mut self,
        asa: u32,
        handle: Handle,
        value: Value,
        stream: u64,
        message: &Message,
        bytes: Octets,
    ) -> Result<ApiAnswer, ApiRefused>
        requires allowed { check_answer self.old.table asa handle Act.Step ≡ Ok tt }
        requires bytes { bytes ≡ encoding message.now }
        requires room { length self.old.queue + 1 ≤ 256 }
        ensures answer { IsSaid result }
        ensures says { (n : NodeState) → NodeStands self.old n
            → NodeStands self.new (if_answered n (queue_up (with_sessions n
            (after_say n.sessions n.reading handle (SayStep value))) (send stream message.now ∷ [])) result) }
    {
        match self.table.step(self.reading, asa, handle, value) {
            Ok(_said) => {
                self.queue.send(stream, message, bytes);
                Ok(ApiAnswer::Done)
            }
            Err(_) => Err(ApiRefused::OutOfMemory),
        }
    }

    /// Says the wait that is ready.
    #[tactic(auto, unfolding(grasp_model_node::specs::Moves::with_sessions, grasp_model_node::specs::Moves::queue_up))]
    fn say_wait(
        &mut self,
        asa: u32,
        handle: Handle,
        millis: u32,
        ready: Ready,
    ) -> Result<ApiAnswer, ApiRefused>
        requires allowed { check_answer self.old.table asa handle Act.Wait ≡ Ok tt }
        requires bytes { ready.bytes ≡ encoding ready.message }
        requires room { length self.old.queue + 1 ≤ 256 }
        ensures answer { IsSaid result }
        ensures says { (n : NodeState) → NodeStands self.old n
            → NodeStands self.new (if_answered n (queue_up (with_sessions n
            (after_say n.sessions n.reading handle (SayWait millis))) (send ready.stream ready.message ∷ [])) result) }
    {
        let Ready {
            stream,
            message,
            bytes,
        } = ready;
        let _said = self.table.wait(self.reading, asa, handle, millis);
        self.queue.send(stream, &message, bytes);
        Ok(ApiAnswer::Done)
    }

    /// Says the end that is ready, after which the stream begins closing.
    fn end_with(
        &mut self,
        asa: u32,
        handle: Handle,
        verdict: Verdict,
        ready: Ready,
    ) -> Result<ApiAnswer, ApiRefused>
        requires allowed { check_answer self.old.table asa handle Act.End ≡ Ok tt }
        requires bytes { ready.bytes ≡ encoding ready.message }
        requires room { length self.old.queue + 1 ≤ 256 }
        ensures answer { IsSaid result }
        ensures says { (n : NodeState) → NodeStands self.old n
            → NodeStands self.new (if_answered n (begin_closing (queue_up
            (with_sessions n (after_say n.sessions n.reading handle (SayEnd verdict)))
            (send ready.stream ready.message ∷ [])) ready.stream) result) }
    {
        let stream = ready.stream;
        match self.say_verdict(asa, handle, verdict, ready) {
            Ok(answer) => {
                self.begin_closing(stream);
                Ok(answer)
            }
            Err(refused) => Err(refused),
        }
    }

    /// Says the end that is ready.
    fn say_verdict(
        &mut self,
        asa: u32,
        handle: Handle,
        verdict: Verdict,
        ready: Ready,
    ) -> Result<ApiAnswer, ApiRefused>
        requires allowed { check_answer self.old.table asa handle Act.End ≡ Ok tt }
        requires bytes { ready.bytes ≡ encoding ready.message }
        requires room { length self.old.queue + 1 ≤ 256 }
        ensures answer { IsSaid result }
        ensures says { (n : NodeState) → NodeStands self.old n
            → NodeStands self.new (if_answered n (queue_up (with_sessions n
            (after_say n.sessions n.reading handle (SayEnd verdict))) (send ready.stream ready.message ∷ [])) result) }
    {
        let Ready {
            stream,
            message,
            bytes,
        } = ready;
        self.send_verdict(asa, handle, verdict, stream, &message, bytes)
    }

    /// Says an end, and queues its message for its stream.
    #[tactic(auto, unfolding(grasp_model_node::specs::Moves::with_sessions, grasp_model_node::specs::Moves::queue_up))]
    fn send_verdict(
        &mut self,
        asa: u32,
        handle: Handle,
        verdict: Verdict,
        stream: u64,
        message: &Message,
        bytes: Octets,
    ) -> Result<ApiAnswer, ApiRefused>
        requires allowed { check_answer self.old.table asa handle Act.End ≡ Ok tt }
        requires bytes { bytes ≡ encoding message.now }
        requires room { length self.old.queue + 1 ≤ 256 }
        ensures answer { IsSaid result }
        ensures says { (n : NodeState) → NodeStands self.old n
            → NodeStands self.new (if_answered n (queue_up (with_sessions n
            (after_say n.sessions n.reading handle (SayEnd verdict))) (send stream message.now ∷ [])) result) }
    {
        match self.table.end(self.reading, asa, handle, verdict) {
            Ok(_said) => {
                self.queue.send(stream, message, bytes);
                Ok(ApiAnswer::Done)
            }
            Err(_) => Err(ApiRefused::OutOfMemory),
        }
    }

    /// Says the invalid message that is ready, after which the stream begins closing.
    fn give_up(&mut self, asa: u32, handle: Handle, detail: Option<Value>, ready: Ready)
        requires allowed { check_answer self.old.table asa handle Act.Invalid ≡ Ok tt }
        requires bytes { ready.bytes ≡ encoding ready.message }
        requires room { length self.old.queue + 1 ≤ 256 }
        ensures { (n : NodeState) → NodeStands self.old n
            → NodeStands self.new (begin_closing (queue_up (with_sessions n
            (after_say n.sessions n.reading handle (SayInvalid detail))) (send ready.stream ready.message ∷ [])) ready.stream) }
    {
        let stream = ready.stream;
        self.say_invalid(asa, handle, detail, ready);
        self.begin_closing(stream);
    }

    /// Says the invalid message that is ready.
    #[tactic(auto, unfolding(grasp_model_node::specs::Moves::with_sessions, grasp_model_node::specs::Moves::queue_up))]
    fn say_invalid(&mut self, asa: u32, handle: Handle, detail: Option<Value>, ready: Ready)
        requires allowed { check_answer self.old.table asa handle Act.Invalid ≡ Ok tt }
        requires bytes { ready.bytes ≡ encoding ready.message }
        requires room { length self.old.queue + 1 ≤ 256 }
        ensures { (n : NodeState) → NodeStands self.old n
            → NodeStands self.new (queue_up (with_sessions n (after_say n.sessions n.reading handle (SayInvalid detail)))
            (send ready.stream ready.message ∷ [])) }
    {
        let Ready {
            stream,
            message,
            bytes,
        } = ready;
        let _said = self.table.invalid(self.reading, asa, handle, detail);
        self.queue.send(stream, &message, bytes);
    }

    /// An agent takes an untaken session of an objective that it listens for from now on.
    #[tactic(auto, unfolding(grasp_model_node::specs::Moves::with_registrations, grasp_model_node::specs::Moves::with_sessions))]
    fn take_untaken(
        &mut self,
        asa: u32,
        name: &Chars,
        handle: Handle,
    ) -> Result<ApiAnswer, ApiRefused>
        requires untaken { IsUntaken self.old.table handle }
        requires owner { 0 < asa }
        ensures answer { (n : NodeState) → NodeStands self.old n → IsTaken (taken_in n (Some handle)) result }
        ensures takes { (n : NodeState) → NodeStands self.old n
            → NodeStands self.new (if_answered n (with_adopted (with_mark n asa name.now true) asa (Some handle)) result) }
    {
        let from = self.session_opener(handle);
        match self.table.adopt(asa, handle) {
            Ok(objective) => {
                let _marked = self.registry.listen(asa, name, true);
                Ok(ApiAnswer::Incoming {
                    handle,
                    from,
                    objective,
                })
            }
            Err(_) => Err(ApiRefused::OutOfMemory),
        }
    }

    /// The address that was told at the opening of a session's stream.
    fn session_opener(&self, handle: Handle) -> Address
        ensures { (n : NodeState) → NodeStands self.now n → result ≡ opener_at n handle }
    {
        let stream = self.table.stream(handle).unwrap_or(0);
        self.streams.opener(stream).unwrap_or(Address::V4(0))
    }

    /// An objective is listened for.
    #[tactic(auto, unfolding(grasp_model_node::specs::Moves::with_registrations))]
    fn mark_listening(&mut self, asa: u32, name: &Chars)
        ensures { (n : NodeState) → NodeStands self.old n → NodeStands self.new (with_mark n asa name.now true) }
    {
        let _answer = self.registry.listen(asa, name, true);
    }
}
