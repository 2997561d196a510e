//! The agent of prefixes as it serves.

ghost use Rattle.std.specs.Prelude.{◌≡◌, map, Some, IfOk, OnOk, OnErr};
ghost use Rattle.grasp_pool.specs.Functions.{pool_of};
ghost use Rattle.grasp_crew.specs.Nudges.{wanted_of};
ghost use Rattle.grasp_crew.specs.Steward.{first_steward, steward_of, may_want, steward_nudge, nudge_of_place, steward_told, steward_due};
ghost use Rattle.grasp_crew.specs.Steward.{steward_call, steward_after, steward_woken, is_asked, with_want, without_want, tries_with};
ghost use Rattle.grasp_crew.specs.Trying.{ripe_place, given, tried, dropped};

use crate::replies::is_quiet;
use crate::trying::{Pace, Trying, with_untried};
use grasp_agent::{Agent, PrefixAgent};
use grasp_cbor::OutOfMemory;
use grasp_node_main::WantPlan;
use grasp_pool::{Pool, RootPrefix};
use grasp_types::{Input, List, Plain, Reply};
use std::alloc::Global;
use std::marker::Model;

/// The agent that manages a node's prefixes (RFC 8992), with what it is to want, as long as it serves.
#[derive(Drop)]
pub struct Steward {
    agent: PrefixAgent,
    wants: List<WantPlan>,
    tries: Vec<Trying>,
    asking: u64,
    quiet: u64,
    pace: Pace,
}

impl Model for Steward {
    ghost use Rattle.std.specs.Prelude.{map};
    ghost use Rattle.grasp_crew.specs.Nudges.{wanted_of};
    ghost use Rattle.grasp_crew.specs.Steward.{StewardState};

    ghost Value = { StewardState };

    ghost view = { λ m. record { agent = m.agent; wants = map wanted_of m.wants; tries = m.tries.items; asking = m.asking; quiet = m.quiet; pace = m.pace } };
}

impl Steward {
    /// An agent that holds these roots, which `Pool::open` accepts, and has made no call.
    ///
    /// Roots that aren't accepted are answered as want of memory.
    pub fn open(
        alloc: Global,
        roots: &[RootPrefix],
        wants: List<WantPlan>,
        pace: Pace,
    ) -> Result<Steward, OutOfMemory>
        ensures { IfOk result (λ m. m ≡ first_steward (pool_of roots.now) wants pace) }
    {
        let Ok(agent) = PrefixAgent::open(alloc, roots) else {
            return Err(OutOfMemory);
        };
        Steward::of(alloc, agent, wants, pace)
    }

    /// This agent, none of whose wants was given.
    pub fn of(
        alloc: Global,
        agent: PrefixAgent,
        wants: List<WantPlan>,
        pace: Pace,
    ) -> Result<Steward, OutOfMemory>
        ensures { IfOk result (λ m. m ≡ steward_of agent wants pace) }
    {
        let mut tries = Vec::new(alloc);
        for _want in wants.slice() {
            tries.push(Trying::untried(pace))?;
        }
        Ok(Steward {
            agent,
            wants,
            tries,
            asking: 0,
            quiet: 0,
            pace,
        })
    }

    /// Tells the agent to want what is due at this reading. After an `Err` it is as before.
    pub fn tell(&mut self, now: u64) -> Result<(), OutOfMemory>
        ensures told { OnOk result (self.new ≡ steward_told self.old (steward_nudge now self.old)) }
        ensures stays { OnErr result (self.new ≡ self.old) }
    {
        if !self.may_want() {
            return Ok(());
        }
        match self.ripe(now) {
            Some(place) => self.give(place as u64),
            None => Ok(()),
        }
    }

    /// Whether the agent takes a want.
    fn may_want(&self) -> bool
        ensures { result ≡ may_want self.now.agent }
    {
        !self.agent.wanting() && self.agent.pool().room() > 0
    }

    /// The place of the first want that may be given at this reading.
    fn ripe(&self, now: u64) -> Option<usize>
        ensures { result ≡ ripe_place now self.now.tries }
    {
        self.tries.iter().position(|t| t.is_ripe(now))
    }

    /// Gives the want at this place to the agent. After an `Err` the agent is as before.
    fn give(&mut self, place: u64) -> Result<(), OutOfMemory>
        ensures told { OnOk result (self.new ≡ steward_told self.old (nudge_of_place self.old (Some place))) }
        ensures stays { OnErr result (self.new ≡ self.old) }
    {
        let Some(want) = self.wants.at(place) else {
            return Ok(());
        };
        let _count = self.wants.len();
        let peer = want.peer.copy()?;
        let _taken = self.agent.want(want.length, want.longest, peer);
        self.asking = place;
        self.quiet = 0;
        self.note_given(place);
        Ok(())
    }

    /// Notes that the want at this place was given.
    fn note_given(&mut self, place: u64)
        ensures { self.new ≡ record self.old { tries = tries_with given self.old.tries place } }
    {
        let place = place as usize;
        if place < self.tries.len() {
            self.tries[place] = self.tries[place].given();
        }
    }

    /// Whether a call is due.
    pub fn is_due(&self) -> bool
        ensures { result ≡ steward_due self.now }
    {
        self.quiet < self.agent.circle()
    }

    /// Its next call.
    pub fn call(&self) -> Result<Input, OutOfMemory>
        ensures { IfOk result (λ i. i ≡ steward_call self.now) }
    {
        Ok(Input::Api {
            asa: self.agent.asa(),
            call: self.agent.next()?,
        })
    }

    /// Takes the reply to that call, at this reading in milliseconds.
    #[tactic(auto, unfolding(crate::specs::Steward::steward_after))]
    pub fn take(&mut self, now: u64, reply: &Reply)
        ensures { self.new ≡ steward_after now self.old reply.now }
    {
        let wanted = self.agent.wanting();
        self.agent.take(reply);
        self.quiet = if is_quiet(reply) {
            self.quiet.saturating_add(1)
        } else {
            0
        };
        if wanted && !self.agent.wanting() {
            self.note_end(now);
        }
    }

    /// Notes how the want ended that was given last.
    fn note_end(&mut self, now: u64)
        ensures { self.new ≡ record self.old { tries = tries_with (tried now self.old.pace self.old.agent.last) self.old.tries self.old.asking } }
    {
        let place = self.asking as usize;
        if place < self.tries.len() {
            self.tries[place] = self.tries[place].tried(now, self.pace, self.agent.last());
        }
    }

    /// Something came that may tell it something.
    pub fn wake(&mut self)
        ensures { self.new ≡ steward_woken self.old }
    {
        self.quiet = 0;
    }

    /// Adds a want, which may be given at once. After an `Err` nothing is claimed of the agent.
    pub fn add(&mut self, alloc: Global, want: WantPlan) -> Result<(), OutOfMemory>
        ensures { OnOk result (self.new ≡ with_want self.old (wanted_of want)) }
    {
        self.tries = with_untried(alloc, &self.tries, self.pace)?;
        self.wants.push(want)
    }

    /// Takes back the want at this place. Where its session lives, that goes on.
    pub fn drop_want(&mut self, place: u64)
        ensures { self.new ≡ without_want self.old place }
    {
        let place = place as usize;
        if place < self.tries.len() {
            self.tries[place] = self.tries[place].dropped();
        }
    }

    /// The agent.
    pub fn agent(&self) -> &PrefixAgent
        ensures { result.now ≡ self.now.agent }
    {
        &self.agent
    }

    /// The prefixes that the agent holds.
    pub fn pool(&self) -> &Pool
        ensures { result.now ≡ self.now.agent.pool }
    {
        self.agent.pool()
    }

    /// What the agent is to want.
    pub fn wants(&self) -> &[WantPlan]
        ensures { map wanted_of result.now ≡ self.now.wants }
    {
        self.wants.slice()
    }

    /// How each of them was tried, beside it.
    pub fn tries(&self) -> &[Trying]
        ensures { result.now ≡ self.now.tries }
    {
        &self.tries
    }

    /// Whether the want at this place is being asked for.
    pub fn is_asked(&self, place: u64) -> bool
        ensures { result ≡ is_asked self.now place }
    {
        self.agent.wanting() && self.asking == place
    }

    /// The first reading at which a want may be given, or the greatest one where none may: for how long to wait.
    pub fn next_reading(&self) -> u64 {
        let mut first = u64::MAX;
        if !self.may_want() {
            return first;
        }
        for tried in &self.tries {
            if tried.is_open() {
                first = first.min(tried.next);
            }
        }
        first
    }
}
