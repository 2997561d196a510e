//! The agent that asks whether a prefix in doubt was ever accepted, and answers whoever asks.

ghost use Rattle.std.specs.Prelude.{◌≡◌, Some, IfOk};
ghost use Rattle.grasp_agent.specs.Replies.{answer_in, progress_in};
ghost use Rattle.grasp_types.specs.declared.session.Progress.TheVariants as progress;
ghost use Rattle.grasp_doubter.specs.Asking.{after_ask, ask_reply};
ghost use Rattle.grasp_doubter.specs.Calls.{asking_call, next_call};
ghost use Rattle.grasp_doubter.specs.Replies.{advanced, after_answered, after_ask_progress, after_duty, after_hearing, after_question, after_request};
ghost use Rattle.grasp_doubter.specs.Replies.{after_take, decides, may_say_never};
ghost use Rattle.grasp_doubter.specs.Seeing.{accepting, after_answer, after_done, after_ending, after_outcome, after_progress, after_saw, after_step};
ghost use Rattle.grasp_doubter.specs.States.{answering_duty, ask_session, asking_duty, duties, duty_of, first_doubter};

use crate::answers::{is_again, polled, progress, refused, started};
use crate::asking::{Ask, AskFault, is_unasked, session_of};
use crate::duty::{DoubtAct, DoubtDuty};
use crate::prefixes::{any_overlaps, is_address, is_doubtful};
use crate::question::{Question, offered_in, offered_of, question_of};
use crate::seen::{
    MOST_OFFERED, MOST_OPENERS, Opener, Sent, drop_opener, drop_sent, keep_set_aside, opener_of,
    put_opener, put_sent, sent_to,
};
use grasp_agent::{Agent, PrefixAgent};
use grasp_cbor::OutOfMemory;
use grasp_types::{
    Address, ApiAnswer, By, Call, Handle, Locator, Outcome, Prefix, Progress, Reply,
};
use std::alloc::Global;
use std::marker::Model;

/// So many accepted prefixes are kept. With one more the doubter doesn't know all of them any more.
const MOST_ACCEPTED: usize = 1024;

/// A doubter answers in at most so many sessions at once.
const MOST_ANSWERING: usize = 64;

/// The agent that asks the requester of a prefix in doubt whether it ever accepted it, and answers such questions for its own
/// node. It is told each call of the agent of prefixes there.
///
/// `open` takes all the memory that it will need, but for what a call holds.
#[derive(Drop)]
pub struct Doubter {
    alloc: Global,
    address: Address,
    openers: Vec<Opener>,
    offered: Vec<Sent>,
    accepted: Vec<Prefix>,
    lost: bool,
    ask: Option<Ask>,
    answering: Vec<Handle>,
    act: Option<DoubtAct>,
    cursor: u64,
}

impl Model for Doubter {
    ghost use Rattle.grasp_doubter.specs.States.{DoubterState};
    ghost use Rattle.grasp_doubter.specs.Stored.{IsStored, state_of};

    ghost Value = { DoubterState };

    ghost view = { state_of };

    ghost invariant = { IsStored };
}

impl Doubter {
    /// A doubter of the node of this address, which has seen nothing and made no call. Its opening calls are made by who runs
    /// it.
    pub fn open(alloc: Global, address: Address) -> Result<Doubter, OutOfMemory>
        ensures { IfOk result (λ doubter. doubter ≡ first_doubter address) }
    {
        let openers = Vec::with_capacity(alloc, MOST_OPENERS)?;
        let offered = Vec::with_capacity(alloc, MOST_OFFERED)?;
        let accepted = Vec::with_capacity(alloc, MOST_ACCEPTED)?;
        let answering = Vec::with_capacity(alloc, MOST_ANSWERING)?;
        Ok(Doubter {
            alloc,
            address,
            openers,
            offered,
            accepted,
            lost: false,
            ask: None,
            answering,
            act: None,
            cursor: 0,
        })
    }

    /// Is told a call of the agent of prefixes, once the agent has taken its reply. It takes no memory.
    #[tactic(auto, unfolding(crate::specs::Seeing::after_saw))]
    pub fn saw(&mut self, agent: &PrefixAgent, call: &Call, reply: &Reply)
        ensures { self.new ≡ after_saw self.old agent.now.pool call.now reply.now }
    {
        if let Reply::Api(answer) = reply {
            self.see(call, answer);
        }
        keep_set_aside(&mut self.offered, agent.pool());
    }

    /// Such a call was answered so.
    fn see(&mut self, call: &Call, answer: &ApiAnswer)
        ensures { self.new ≡ after_answer self.old call.now answer.now }
    {
        match answer {
            ApiAnswer::Incoming { handle, from, .. } => {
                put_opener(&mut self.openers, *handle, *from);
            }
            ApiAnswer::Done => self.see_done(call),
            ApiAnswer::Polled(progress) => self.see_progress(polled(call), progress),
            _ => (),
        }
    }

    /// Such a call was done.
    fn see_done(&mut self, call: &Call)
        ensures { self.new ≡ after_done self.old call.now }
    {
        if let Call::NegotiateStep { handle, value } = call {
            self.see_step(*handle, offered_in(value));
        }
    }

    /// A step offered this.
    fn see_step(&mut self, handle: Handle, prefix: Option<Prefix>)
        ensures { self.new ≡ after_step self.old handle prefix }
    {
        if let Some(prefix) = prefix {
            let address = opener_of(&self.openers, handle);
            put_sent(&mut self.offered, prefix, address);
        }
    }

    /// A session of the agent of prefixes stands so.
    fn see_progress(&mut self, handle: Option<Handle>, progress: &Progress)
        ensures { self.new ≡ after_progress self.old handle progress.now }
    {
        if let Progress::Ended(outcome) = progress {
            self.see_ending(handle, outcome);
        }
    }

    /// A session of the agent of prefixes ended so.
    fn see_ending(&mut self, handle: Option<Handle>, outcome: &Outcome)
        ensures { self.new ≡ after_ending self.old handle outcome.now }
    {
        if let Some(handle) = handle {
            drop_opener(&mut self.openers, handle);
        }
        self.see_outcome(outcome);
    }

    /// What was accepted with this outcome is kept.
    fn see_outcome(&mut self, outcome: &Outcome)
        ensures { self.new ≡ after_outcome self.old outcome.now }
    {
        if let Outcome::Agreed {
            by: By::Mine,
            objective,
        } = outcome
        {
            self.see_accepted(offered_of(&objective.value));
        }
    }

    /// This was accepted.
    fn see_accepted(&mut self, prefix: Option<Prefix>)
        ensures { self.new ≡ accepting self.old prefix }
    {
        let Some(prefix) = prefix else {
            return;
        };
        if self.accepted.len() < MOST_ACCEPTED {
            let Ok(()) = self.accepted.push(prefix) else {
                unreachable!()
            };
        } else {
            self.lost = true;
        }
    }

    /// Asks the node to which this prefix was offered whether it ever accepted it, at this peer.
    ///
    /// `Busy` exactly where a question isn't finished, then `NotDoubtful` exactly where the prefix isn't in doubt, then
    /// `NotGiven` exactly where no step has offered it since it was last reserved. It takes no memory.
    pub fn ask(
        &mut self,
        agent: &PrefixAgent,
        prefix: Prefix,
        peer: Locator,
    ) -> Result<(), AskFault>
        ensures reply { result ≡ ask_reply self.old agent.now.pool prefix }
        ensures after { self.new ≡ after_ask self.old prefix peer result }
    {
        if let Some(ask) = &self.ask {
            return Err(AskFault::Busy { prefix: ask.prefix });
        }
        if !is_doubtful(agent.pool(), prefix) {
            return Err(AskFault::NotDoubtful);
        }
        let Some(address) = sent_to(&self.offered, prefix) else {
            return Err(AskFault::NotGiven);
        };
        self.ask = Some(Ask {
            prefix,
            address,
            peer,
            session: None,
        });
        Ok(())
    }

    /// The call that is next.
    #[tactic(auto, unfolding(crate::specs::Calls::next_call))]
    pub fn next(&self) -> Result<Call, OutOfMemory>
        ensures { IfOk result (λ call. call ≡ next_call self.now) }
    {
        match self.act {
            Some(act) => act.call(self.alloc),
            None => self.asking_call(),
        }
    }

    /// The request of a question that wasn't requested, and else the duty that is next.
    fn asking_call(&self) -> Result<Call, OutOfMemory>
        ensures { IfOk result (λ call. call ≡ asking_call self.now.ask (duty_of self.now)) }
    {
        if let Some(ask) = &self.ask {
            if ask.session.is_none() {
                return ask.call(self.alloc);
            }
        }
        self.duty().call(self.alloc)
    }

    /// The duty that is next.
    fn duty(&self) -> DoubtDuty
        ensures { result ≡ duty_of self.now }
    {
        if self.cursor == 0 {
            return DoubtDuty::Listen;
        }
        self.asking_duty(self.cursor - 1)
    }

    /// The duty at this place behind listening.
    fn asking_duty(&self, place: u64) -> DoubtDuty
        ensures { result ≡ asking_duty (ask_session self.now.ask) self.now.answering place }
    {
        match session_of(&self.ask) {
            None => self.answering_duty(place),
            Some(handle) if place == 0 => DoubtDuty::Ask(handle),
            Some(_) => self.answering_duty(place - 1),
        }
    }

    /// The answering session at this place, as a duty.
    fn answering_duty(&self, place: u64) -> DoubtDuty
        ensures { result ≡ answering_duty self.now.answering place }
    {
        match self.answering.get(place as usize) {
            Some(handle) => DoubtDuty::Answer {
                place,
                handle: *handle,
            },
            None => DoubtDuty::Listen,
        }
    }

    /// How many duties there are, 1 to 66: to listen, the session of its question, and those in which it answers.
    pub fn circle(&self) -> u64
        ensures { result ≡ duties self.now }
    {
        let mut count = 1 + self.answering.len() as u64;
        if session_of(&self.ask).is_some() {
            count += 1;
        }
        count
    }

    /// Takes the reply to the call that was next, beside the agent of prefixes of its node.
    ///
    /// The answer is the prefix that was asked of, exactly where the node that was asked has accepted the question: it never
    /// accepted the prefix, and can't any more. It takes no memory.
    #[tactic(auto, unfolding(crate::specs::Replies::after_take))]
    pub fn take(&mut self, agent: &PrefixAgent, reply: &Reply) -> Option<Prefix>
        ensures { record { after = self.new; settled = result } ≡ after_take self.old agent.now reply.now }
    {
        if is_again(reply) {
            return None;
        }
        if self.act.is_some() {
            self.act = None;
            return None;
        }
        if is_unasked(&self.ask) {
            self.take_request_reply(reply);
            return None;
        }
        let settled = self.take_duty_reply(agent, self.duty(), reply);
        self.advance();
        settled
    }

    /// Takes the reply to the request of its question.
    fn take_request_reply(&mut self, reply: &Reply)
        ensures { self.new ≡ after_request self.old reply.now }
    {
        if refused(reply).is_some() {
            self.ask = None;
        } else if let Some(handle) = started(reply) {
            if let Some(ask) = &mut self.ask {
                ask.session = Some(handle);
            }
        }
    }

    /// Takes the reply to a duty.
    fn take_duty_reply(
        &mut self,
        agent: &PrefixAgent,
        duty: DoubtDuty,
        reply: &Reply,
    ) -> Option<Prefix>
        ensures { record { after = self.new; settled = result } ≡ after_duty self.old agent.now duty reply.now }
    {
        match duty {
            DoubtDuty::Listen => {
                self.hear(agent, reply);
                None
            }
            DoubtDuty::Ask(_) => match progress(reply) {
                Some(Progress::Ended(outcome)) => self.take_outcome(outcome),
                _ => None,
            },
            DoubtDuty::Answer { place, handle: _ } => {
                self.take_answered(place, reply);
                None
            }
        }
    }

    /// Takes a question that came.
    fn hear(&mut self, agent: &PrefixAgent, reply: &Reply)
        ensures { self.new ≡ after_hearing self.old agent.now (answer_in reply.now) }
    {
        if let Reply::Api(
            ApiAnswer::Incoming {
                handle,
                objective,
                ..
            },
        ) = reply
        {
            self.decide(agent, *handle, question_of(&objective.value));
        }
    }

    /// A question joins those that are answered, and is decided.
    fn decide(&mut self, agent: &PrefixAgent, handle: Handle, question: Option<Question>)
        ensures { self.new ≡ after_question self.old agent.now handle question }
    {
        if self.answering.len() >= MOST_ANSWERING {
            return;
        }
        let accepts = self.decides(agent, question);
        let Ok(()) = self.answering.push(handle) else {
            unreachable!()
        };
        self.act = Some(DoubtAct { handle, accepts });
    }

    /// Whether a question is accepted.
    fn decides(&self, agent: &PrefixAgent, question: Option<Question>) -> bool
        ensures { result ≡ decides self.now agent.now question }
    {
        match question {
            Some(question) => self.may_say_never(agent, question),
            None => false,
        }
    }

    /// Whether this node never accepted the prefix of this question, and is the one that is asked.
    fn may_say_never(&self, agent: &PrefixAgent, question: Question) -> bool
        ensures { result ≡ may_say_never self.now agent.now question }
    {
        is_address(question.address, self.address)
            && !self.lost
            && !agent.wanting()
            && !any_overlaps(&self.accepted, question.prefix)
    }

    /// The session of its question ended so.
    fn take_outcome(&mut self, outcome: &Outcome) -> Option<Prefix>
        ensures { record { after = self.new; settled = result } ≡ after_ask_progress self.old self.old.ask (Some (progress.Ended outcome.now)) }
    {
        let Some(ask) = self.ask.take() else {
            return None;
        };
        match outcome {
            Outcome::Agreed { by: By::Theirs, .. } => {
                drop_sent(&mut self.offered, ask.prefix);
                Some(ask.prefix)
            }
            _ => None,
        }
    }

    /// The answering session at this place stands so.
    fn take_answered(&mut self, place: u64, reply: &Reply)
        ensures { self.new ≡ after_answered self.old place (progress_in (answer_in reply.now)) }
    {
        if let Some(Progress::Ended(_)) = progress(reply) {
            if (place as usize) < self.answering.len() {
                let _left = self.answering.remove(place as usize);
            }
        }
    }

    /// The next duty comes, and after the last one the first.
    fn advance(&mut self)
        ensures { self.new ≡ advanced self.old }
    {
        self.cursor = if self.cursor + 1 < self.circle() {
            self.cursor + 1
        } else {
            0
        };
    }
}
