//! The agent that manages prefixes (RFC 8992).

ghost use Rattle.std.specs.Prelude.{◌≡◌, ◌↔◌, ◌≤◌, true, [], Some, None, IfOk, IfSome, IsSome, IsTrue, MatchResult, Contains, slice_get};
ghost use Rattle.grasp_pool.specs.Answers.{IsOpened, IsReopened, IsRootFault, IsImageFault};
ghost use Rattle.grasp_pool.specs.Functions.{pool_of, pool_of_image};
ghost use Rattle.grasp_pool.specs.declared.fault.PoolFault.TheVariants as pool_fault;
ghost use Rattle.grasp_agent.specs.Calls.{next_call, opening_call, asking_call, returning_call};
ghost use Rattle.grasp_agent.specs.Changes.{change_of, duty_change};
ghost use Rattle.grasp_agent.specs.Decisions.{giver_decision, after_deciding};
ghost use Rattle.grasp_agent.specs.Kept.{IsKept, returned};
ghost use Rattle.grasp_agent.specs.Replies.{want_reply, after_want, return_reply, after_return, after_settling, after_reply, after_opening};
ghost use Rattle.grasp_agent.specs.Replies.{after_incoming, after_act, after_dropping, after_doing, after_asking, after_returning, after_unsent};
ghost use Rattle.grasp_agent.specs.Replies.{after_duty, after_want_progress, after_back_progress, after_give_progress, after_giver_turn};
ghost use Rattle.grasp_agent.specs.Replies.{after_giver_end, finished, giving_back, settled, settling, advanced, incoming_in, answer_in};
ghost use Rattle.grasp_agent.specs.States.{first_agent, is_open, accepted_by, offered_by, duties, duty_of, giving_duty, back_duty, want_duty};
ghost use Rattle.grasp_agent.specs.States.{want_session, back_session, unsent_of};

use crate::act::{Act, accepted_by, offered_by};
use crate::agent::Agent;
use crate::back::{Return, ReturnFault, back_of, is_returning, unsent_of};
use crate::change::{PoolChange, act_change, give_change, heard_change, returning_change};
use crate::decision::GiverDecision;
use crate::duty::{Duty, objective_name};
use crate::giver::give;
use crate::giving::Giving;
use crate::replies::{
    incoming, is_again, is_answered, is_done, number, progress, refused, started,
};
use crate::requester::ask;
use crate::stage::Stage;
use crate::want::{Want, WantEnd, WantFault, is_asking, session_of};
use grasp_cbor::{Chars, OutOfMemory};
use grasp_pool::{Pool, PoolFault, PoolImage, RootPrefix};
use grasp_types::{By, Call, Flags, Handle, Locator, Objective, Outcome, Prefix, Progress, Reply};
use std::alloc::Global;
use std::marker::Model;

/// An agent gives in at most so many sessions at once.
const MOST_GIVING: usize = 64;

/// The agent that manages the prefixes of a node: it gives prefixes to the agents of other nodes, asks for one where it is
/// told to want one, and gives one back where it is told to.
///
/// `open` and `reopen` take all the memory that it will need, but for what a call holds.
#[derive(Drop)]
pub struct PrefixAgent {
    alloc: Global,
    pool: Pool,
    asa: u32,
    stage: Stage,
    want: Option<Want>,
    back: Option<Return>,
    giving: Vec<Giving>,
    act: Option<Act>,
    cursor: u64,
    last: Option<WantEnd>,
}

impl Model for PrefixAgent {
    ghost use Rattle.grasp_agent.specs.States.{AgentState};
    ghost use Rattle.grasp_agent.specs.Stored.{state_of, IsStored};

    ghost Value = { AgentState };

    ghost view = { state_of };

    ghost invariant = { IsStored };
}

impl PrefixAgent {
    /// An agent whose pool is that of the roots, and that has made no call.
    ///
    /// The faults are those of `Pool::open`, in its order.
    pub fn open(alloc: Global, roots: &[RootPrefix]) -> Result<PrefixAgent, PoolFault>
        ensures agent { IfOk result (λ agent. agent ≡ first_agent (pool_of roots.now)) }
        ensures opened { MatchResult result (λ _. IsOpened roots.now (pool_of roots.now)) (λ fault. IsRootFault roots.now fault) }
        ensures kept { IfOk result IsKept }
    {
        let pool = Pool::open(alloc, roots)?;
        PrefixAgent::with_pool(alloc, pool)
    }

    /// An agent whose pool is that of the image, and that has made no call.
    ///
    /// The faults are those of `Pool::reopen`, in its order. It takes all the memory that the agent will need, but for what a call
    /// holds.
    pub fn reopen(alloc: Global, image: &PoolImage) -> Result<PrefixAgent, PoolFault>
        ensures agent { IfOk result (λ agent. agent ≡ first_agent (pool_of_image image.now)) }
        ensures reopened { MatchResult result (λ _. IsReopened image.now (pool_of_image image.now)) (λ fault. IsImageFault image.now fault) }
        ensures kept { IfOk result IsKept }
    {
        let pool = Pool::reopen(alloc, image)?;
        PrefixAgent::with_pool(alloc, pool)
    }

    /// An agent with this pool that has made no call.
    fn with_pool(alloc: Global, pool: Pool) -> Result<PrefixAgent, PoolFault>
        requires { pool.reserved ≡ [] }
        ensures agent { MatchResult result (λ agent. agent ≡ first_agent pool) (λ fault. fault ≡ pool_fault.OutOfMemory) }
        ensures kept { IfOk result IsKept }
    {
        let Ok(giving) = Vec::with_capacity(alloc, MOST_GIVING) else {
            return Err(PoolFault::OutOfMemory);
        };
        Ok(PrefixAgent {
            alloc,
            pool,
            asa: 0,
            stage: Stage::Registering,
            want: None,
            back: None,
            giving,
            act: None,
            cursor: 0,
            last: None,
        })
    }

    /// Wants a prefix of this length, or one that is longer, up to the longest, and asks this peer for it.
    ///
    /// `Busy` exactly where a want isn't finished, then `Full` exactly where the pool has no room. It takes no memory.
    pub fn want(&mut self, length: u8, longest: u8, peer: Locator) -> Result<(), WantFault>
        requires least { 1 ≤ length }
        requires ordered { length ≤ longest }
        requires most { longest ≤ 128 }
        ensures reply { result ≡ want_reply self.old }
        ensures after { self.new ≡ after_want self.old length longest peer result }
        ensures kept { IsKept self.new }
    {
        if let Some(want) = &self.want {
            return Err(WantFault::Busy {
                length: want.length,
                longest: want.longest,
            });
        }
        if self.pool.room() == 0 {
            return Err(WantFault::Full);
        }
        self.want = Some(Want {
            length,
            longest,
            peer,
            session: None,
        });
        Ok(())
    }

    /// Gives a prefix back to this peer. It is reserved until the session of the return ends, or its request is refused.
    ///
    /// `Busy` exactly where a return isn't finished, then `NotFree` exactly where an address of the prefix isn't free, then
    /// `Full` exactly where the pool has room for fewer than 128 prefixes. It takes no memory.
    pub fn hand_back(&mut self, prefix: Prefix, peer: Locator) -> Result<(), ReturnFault>
        ensures reply { result ≡ return_reply self.old prefix }
        ensures after { self.new ≡ after_return self.old prefix peer result }
        ensures kept { IsKept self.new }
    {
        // What is read of a prefix tells that it is one.
        let _address = prefix.address();
        if let Some(back) = &self.back {
            return Err(ReturnFault::Busy {
                prefix: back.prefix,
            });
        }
        if !self.pool.is_free(prefix) {
            return Err(ReturnFault::NotFree);
        }
        if !self.pool.take_at(prefix) {
            return Err(ReturnFault::Full);
        }
        self.back = Some(Return {
            prefix,
            peer,
            session: None,
        });
        Ok(())
    }

    /// Makes a doubtful prefix free, where it is known that its offer was never taken.
    pub fn settle(&mut self, prefix: Prefix)
        requires { Contains self.old.pool.doubtful prefix }
        ensures after { self.new ≡ after_settling self.old prefix }
        ensures kept { IsKept self.new }
    {
        self.pool.settle(prefix);
    }

    /// The prefix of an act of acceptance that isn't done.
    pub fn accepting(&self) -> Option<Prefix>
        ensures { result ≡ accepted_by self.now.act }
    {
        accepted_by(&self.act)
    }

    /// The offer of an act that isn't done.
    pub fn offering(&self) -> Option<Prefix>
        ensures { result ≡ offered_by self.now.act }
    {
        offered_by(&self.act)
    }

    /// The prefix of a return that wasn't requested.
    pub fn unsent(&self) -> Option<Prefix>
        ensures { result ≡ unsent_of self.now.back }
    {
        unsent_of(&self.back)
    }

    /// Whether a want isn't finished.
    pub fn wanting(&self) -> bool
        ensures { IsTrue result ↔ IsSome self.now.want }
    {
        self.want.is_some()
    }

    /// The pool of the agent's prefixes. Those that are free are held by the node.
    pub fn pool(&self) -> &Pool
        ensures pool { result.now ≡ self.now.pool }
        ensures kept { IsKept self.now }
    {
        &self.pool
    }

    /// How the want that was finished last ended, or `None` where none was.
    pub fn last(&self) -> Option<WantEnd>
        ensures { result ≡ self.now.last }
    {
        self.last
    }

    /// How many duties there are, 1 to 67: to listen, the session of its want, that of its return, and those in which it gives.
    ///
    /// So many calls in a row come to each of them once.
    pub fn circle(&self) -> u64
        ensures { result ≡ duties self.now }
    {
        let mut count = 1 + self.giving.len() as u64;
        if session_of(&self.want).is_some() {
            count += 1;
        }
        if back_of(&self.back).is_some() {
            count += 1;
        }
        count
    }

    /// What the reply to the call that was next will change in the pool.
    ///
    /// What is offered anew after `Decided` is told by `offering`, once the reply is taken.
    #[tactic(auto, unfolding(crate::specs::Changes::change_of))]
    pub fn effect(&self, reply: &Reply) -> PoolChange
        ensures { result ≡ change_of self.now reply.now }
    {
        if is_again(reply) || !self.stage.is_open() {
            return PoolChange::Stays;
        }
        if let Some(act) = self.act {
            return act_change(act, reply);
        }
        if is_asking(&self.want) {
            return PoolChange::Stays;
        }
        if is_returning(&self.back) {
            return returning_change(self.returned(), reply);
        }
        self.duty_change(self.duty(), reply)
    }

    /// What the reply to a duty changes in the pool.
    fn duty_change(&self, duty: Duty, reply: &Reply) -> PoolChange
        ensures { result ≡ duty_change self.now duty reply.now }
    {
        let Some(progress) = progress(reply) else {
            return PoolChange::Stays;
        };
        match duty {
            Duty::Listen | Duty::Want(_) => PoolChange::Stays,
            Duty::Return(_) => heard_change(self.returned(), progress),
            Duty::Give { place, handle: _ } => match self.giving.get(place as usize) {
                Some(giving) => give_change(*giving, progress),
                None => PoolChange::Stays,
            },
        }
    }

    /// The opening call that is next.
    #[tactic(auto, unfolding(crate::specs::Calls::agent_name))]
    fn opening_call(&self) -> Result<Call, OutOfMemory>
        ensures { IfOk result (λ call. call ≡ opening_call self.now.stage) }
    {
        match self.stage {
            Stage::Registering => Ok(Call::RegisterAsa {
                name: Chars::of(self.alloc, "prefix agent")?,
            }),
            Stage::Declaring => Ok(Call::RegisterObjective {
                name: objective_name(self.alloc)?,
                flags: Flags::DISC_NEG,
            }),
            Stage::Opening | Stage::Serving => Ok(Call::ListenNegotiate {
                name: objective_name(self.alloc)?,
            }),
        }
    }

    /// The request of a want that wasn't requested, and else what comes behind it.
    fn asking_call(&self) -> Result<Call, OutOfMemory>
        ensures { IfOk result (λ call. call ≡ asking_call self.now.want self.now.back (duty_of self.now)) }
    {
        if let Some(want) = &self.want {
            if want.session.is_none() {
                return want.call(self.alloc);
            }
        }
        self.returning_call()
    }

    /// The request of a return that wasn't requested, and else the duty that is next.
    fn returning_call(&self) -> Result<Call, OutOfMemory>
        ensures { IfOk result (λ call. call ≡ returning_call self.now.back (duty_of self.now)) }
    {
        if let Some(back) = &self.back {
            if back.session.is_none() {
                return back.call(self.alloc);
            }
        }
        self.duty().call(self.alloc)
    }

    /// The duty that is next.
    fn duty(&self) -> Duty
        ensures { result ≡ duty_of self.now }
    {
        if self.cursor == 0 {
            return Duty::Listen;
        }
        self.want_duty(self.cursor - 1)
    }

    /// The duty at this place behind listening.
    fn want_duty(&self, place: u64) -> Duty
        ensures { result ≡ want_duty (want_session self.now.want) (back_session self.now.back) self.now.giving place }
    {
        match session_of(&self.want) {
            None => self.back_duty(place),
            Some(handle) if place == 0 => Duty::Want(handle),
            Some(_) => self.back_duty(place - 1),
        }
    }

    /// The duty at this place behind the want's.
    fn back_duty(&self, place: u64) -> Duty
        ensures { result ≡ back_duty (back_session self.now.back) self.now.giving place }
    {
        match back_of(&self.back) {
            None => self.giving_duty(place),
            Some(handle) if place == 0 => Duty::Return(handle),
            Some(_) => self.giving_duty(place - 1),
        }
    }

    /// The giving session at this place, as a duty.
    fn giving_duty(&self, place: u64) -> Duty
        ensures { result ≡ giving_duty self.now.giving place }
    {
        match self.giving.get(place as usize) {
            Some(giving) => Duty::Give {
                place,
                handle: giving.handle,
            },
            None => Duty::Listen,
        }
    }

    /// Takes the reply to the call that was next.
    #[tactic(auto, unfolding(crate::specs::Replies::after_reply))]
    fn take_reply(&mut self, reply: &Reply)
        ensures { self.new ≡ after_reply self.old reply.now }
    {
        if is_again(reply) {
            return;
        }
        if !self.stage.is_open() {
            return self.take_opening_reply(reply);
        }
        if let Some(act) = self.act {
            return self.take_act_reply(act, reply);
        }
        if is_asking(&self.want) {
            return self.take_request_reply(reply);
        }
        if is_returning(&self.back) {
            return self.take_return_reply(reply);
        }
        let duty = self.duty();
        self.take_duty_reply(duty, reply);
        self.advance();
    }

    /// Takes the reply to an opening call.
    fn take_opening_reply(&mut self, reply: &Reply)
        ensures { self.new ≡ after_opening self.old reply.now }
    {
        match self.stage {
            Stage::Registering => {
                if let Some(number) = number(reply) {
                    self.asa = number;
                    self.stage = Stage::Declaring;
                }
            }
            Stage::Declaring => {
                if is_done(reply) {
                    self.stage = Stage::Opening;
                }
            }
            Stage::Opening => {
                if is_answered(reply) {
                    self.stage = Stage::Serving;
                    self.add_session(reply);
                }
            }
            Stage::Serving => (),
        }
    }

    /// Takes a session that a peer began as the last in which this agent gives.
    fn add_session(&mut self, reply: &Reply)
        requires { is_open self.old.stage ≡ true }
        ensures { self.new ≡ after_incoming self.old (incoming_in (answer_in reply.now)) }
    {
        if let Some(handle) = incoming(reply) {
            if self.giving.len() < MOST_GIVING {
                let giving = Giving {
                    handle,
                    offer: None,
                    first: true,
                };
                let Ok(()) = self.giving.push(giving) else {
                    unreachable!()
                };
            }
        }
    }

    /// Takes the reply to an act.
    fn take_act_reply(&mut self, act: Act, reply: &Reply)
        requires { self.old.act ≡ Some act }
        ensures { self.new ≡ after_act self.old act reply.now }
    {
        if refused(reply).is_some() {
            self.act_refused(act);
        } else if is_done(reply) {
            self.act_done(act);
        }
    }

    /// Drops an act that was refused. A prefix that it would have offered goes back.
    fn act_refused(&mut self, act: Act)
        requires { self.old.act ≡ Some act }
        ensures { self.new ≡ after_dropping self.old act }
    {
        self.act = None;
        if let Act::Offer {
            place,
            handle: _,
            prefix,
        } = act
        {
            let place = place as usize;
            self.giving[place] = self.giving[place].without_offer();
            self.pool.give_back(prefix);
        }
    }

    /// An act is done. An acceptance gains its prefix.
    fn act_done(&mut self, act: Act)
        requires { self.old.act ≡ Some act }
        ensures { self.new ≡ after_doing self.old act }
    {
        self.act = None;
        if let Act::Accept { handle: _, prefix } = act {
            let _gained = self.pool.gain(prefix);
        }
    }

    /// Takes the reply to the request of a want.
    fn take_request_reply(&mut self, reply: &Reply)
        requires serves { is_open self.old.stage ≡ true }
        requires none { self.old.act ≡ None }
        ensures { self.new ≡ after_asking self.old reply.now }
    {
        if let Some(refused) = refused(reply) {
            self.finish_want(WantEnd::Refused(refused));
        } else if let Some(handle) = started(reply) {
            if let Some(want) = &mut self.want {
                want.session = Some(handle);
            }
        }
    }

    /// Takes the reply to the request of a return.
    fn take_return_reply(&mut self, reply: &Reply)
        requires serves { is_open self.old.stage ≡ true }
        requires none { self.old.act ≡ None }
        ensures { self.new ≡ after_returning self.old reply.now }
    {
        if refused(reply).is_some() {
            self.return_unsent();
        } else if let Some(handle) = started(reply) {
            if let Some(back) = &mut self.back {
                back.session = Some(handle);
            }
        }
    }

    /// A return that was never offered goes back.
    fn return_unsent(&mut self)
        requires serves { is_open self.old.stage ≡ true }
        requires none { self.old.act ≡ None }
        ensures { self.new ≡ after_unsent self.old self.old.back }
    {
        let Some(prefix) = self.returned() else {
            return;
        };
        self.back = None;
        self.pool.give_back(prefix);
    }

    /// The prefix that is given back.
    fn returned(&self) -> Option<Prefix>
        ensures { result ≡ returned self.now.back }
    {
        match &self.back {
            Some(back) => Some(back.prefix),
            None => None,
        }
    }

    /// The want is finished.
    fn finish_want(&mut self, end: WantEnd)
        requires none { self.old.act ≡ None }
        ensures { self.new ≡ finished self.old end }
    {
        self.want = None;
        self.last = Some(end);
    }

    /// Takes the reply to a duty.
    fn take_duty_reply(&mut self, duty: Duty, reply: &Reply)
        requires serves { is_open self.old.stage ≡ true }
        requires none { self.old.act ≡ None }
        requires next { duty ≡ duty_of self.old }
        ensures { self.new ≡ after_duty self.old duty reply.now }
    {
        match duty {
            Duty::Listen => self.add_session(reply),
            Duty::Want(handle) => {
                if let Some(progress) = progress(reply) {
                    self.take_want_progress(handle, progress);
                }
            }
            Duty::Return(_) => {
                if let Some(progress) = progress(reply) {
                    self.take_return_progress(progress);
                }
            }
            Duty::Give { place, handle: _ } => {
                if let Some(progress) = progress(reply) {
                    self.take_giving_progress(place, progress);
                }
            }
        }
    }

    /// The session of the want stands so.
    fn take_want_progress(&mut self, handle: Handle, progress: &Progress)
        requires serves { is_open self.old.stage ≡ true }
        requires none { self.old.act ≡ None }
        requires session { want_session self.old.want ≡ Some handle }
        ensures { self.new ≡ after_want_progress self.old self.old.want handle (Some progress.now) }
    {
        let Some(want) = &self.want else {
            return;
        };
        match progress {
            Progress::NotYet => (),
            Progress::Turn(objective) => {
                let decision = ask(&self.pool, want, objective);
                self.act = Some(Act::of_want(handle, decision));
            }
            Progress::Ended(outcome) => self.finish_want(WantEnd::of(outcome)),
        }
    }

    /// The session of the return stands so. Its turn never comes.
    fn take_return_progress(&mut self, progress: &Progress)
        requires serves { is_open self.old.stage ≡ true }
        requires none { self.old.act ≡ None }
        ensures { self.new ≡ after_back_progress self.old self.old.back (Some progress.now) }
    {
        let Some(prefix) = self.returned() else {
            return;
        };
        if let Progress::Ended(outcome) = progress {
            self.back = None;
            settle_offer(&mut self.pool, prefix, outcome);
        }
    }

    /// The giving session at this place stands so.
    fn take_giving_progress(&mut self, place: u64, progress: &Progress)
        requires serves { is_open self.old.stage ≡ true }
        requires none { self.old.act ≡ None }
        ensures { self.new ≡ after_give_progress self.old place (slice_get self.old.giving place) (Some progress.now) }
    {
        let Some(giving) = self.giving.get(place as usize).copied() else {
            return;
        };
        match progress {
            Progress::NotYet => (),
            Progress::Turn(objective) => self.decide(place, giving, objective),
            Progress::Ended(outcome) => self.end_giving(place, giving, outcome),
        }
    }

    /// The turn is this agent's in a giving session: its last offer goes back, and it decides anew.
    fn decide(&mut self, place: u64, giving: Giving, objective: &Objective)
        requires serves { is_open self.old.stage ≡ true }
        requires none { self.old.act ≡ None }
        requires place { slice_get self.old.giving place ≡ Some giving }
        ensures { self.new ≡ after_giver_turn self.old place giving objective.now }
    {
        let handle = giving.handle;
        let decision = decision_of(&mut self.pool, &giving, objective);
        self.giving[place as usize] = giving.after(&decision);
        self.act = Some(Act::of_giver(place, handle, decision));
    }

    /// A giving session ended: its offer is confirmed, goes back or is in doubt, and the session leaves.
    fn end_giving(&mut self, place: u64, giving: Giving, outcome: &Outcome)
        requires serves { is_open self.old.stage ≡ true }
        requires none { self.old.act ≡ None }
        requires place { slice_get self.old.giving place ≡ Some giving }
        ensures { self.new ≡ after_giver_end self.old place giving outcome.now }
    {
        settle_last(&mut self.pool, giving.offer, outcome);
        let _left = self.giving.remove(place as usize);
    }

    /// The next duty comes, and after the last one the first.
    fn advance(&mut self)
        ensures { self.new ≡ advanced self.old }
    {
        self.cursor = if self.cursor + 1 < self.circle() {
            self.cursor + 1
        } else {
            0
        };
    }
}

impl Agent for PrefixAgent {
    ghost next_call = { next_call };

    ghost after_reply = { after_reply };

    ghost number = { λ agent. agent.asa };

    #[tactic(auto, unfolding(crate::specs::Calls::next_call))]
    fn next(&self) -> Result<Call, OutOfMemory>
        ensures { IfOk result (λ call. call ≡ next_call self.now) }
    {
        if !self.stage.is_open() {
            return self.opening_call();
        }
        match self.act {
            Some(act) => act.call(self.alloc),
            None => self.asking_call(),
        }
    }

    fn take(&mut self, reply: &Reply)
        ensures reply { self.new ≡ after_reply self.old reply.now }
        ensures kept { IsKept self.new }
    {
        self.take_reply(reply);
        // What is true of every agent is known where a field is read.
        let _pool = &self.pool;
    }

    fn asa(&self) -> u32
        ensures { result ≡ self.now.asa }
    {
        self.asa
    }
}

/// What a giver decides in its turn, once its last offer went back.
fn decision_of(pool: &mut Pool, giving: &Giving, objective: &Objective) -> GiverDecision
    requires { IfSome giving.now.offer (λ prefix. Contains pool.old.reserved prefix) }
    ensures decides { result ≡ giver_decision (giving_back pool.old giving.now.offer) objective.now.value objective.now.loops giving.now.first }
    ensures after { pool.new ≡ after_deciding (giving_back pool.old giving.now.offer) result }
{
    take_back(pool, giving.offer);
    give(pool, &objective.value, objective.loops, giving.first)
}

/// An offer that was made before goes back.
fn take_back(pool: &mut Pool, offer: Option<Prefix>)
    requires { IfSome offer (λ prefix. Contains pool.old.reserved prefix) }
    ensures { pool.new ≡ giving_back pool.old offer }
{
    if let Some(prefix) = offer {
        pool.give_back(prefix);
    }
}

/// What becomes of the last offer of a session that ended, where there is one.
fn settle_last(pool: &mut Pool, offer: Option<Prefix>, outcome: &Outcome)
    requires { IfSome offer (λ prefix. Contains pool.old.reserved prefix) }
    ensures { pool.new ≡ settling pool.old offer outcome.now }
{
    if let Some(prefix) = offer {
        settle_offer(pool, prefix, outcome);
    }
}

/// What becomes of an offer when its session ends: it is confirmed by the peer's acceptance, free by the peer's decline,
/// and in doubt by all else.
fn settle_offer(pool: &mut Pool, prefix: Prefix, outcome: &Outcome)
    requires { Contains pool.old.reserved prefix }
    ensures { pool.new ≡ settled pool.old prefix outcome.now }
{
    match outcome {
        Outcome::Agreed {
            by: By::Theirs,
            objective: _,
        } => pool.confirm(prefix),
        Outcome::Declined {
            by: By::Theirs,
            reason: _,
        } => pool.give_back(prefix),
        _ => pool.doubt(prefix),
    }
}
