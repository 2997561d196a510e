//! The registry of a node's agents and objectives.

ghost use Rattle.std.specs.Prelude.{◌≡◌, ◌<◌, true, IfOk, IfErr, OnErr, IsSome, Err, option_map, slice_get, find, position};
ghost use Rattle.grasp_asa.specs.Answers.{nothing_registered, register_asa_answer, after_register_asa, deregister_asa_answer, after_deregister_asa};
ghost use Rattle.grasp_asa.specs.Answers.{register_objective_answer, after_register_objective, deregister_objective_answer};
ghost use Rattle.grasp_asa.specs.Answers.{after_deregister_objective, owned_answer, listen_answer, after_listen, offer_answer, after_offer};
ghost use Rattle.grasp_asa.specs.Answers.{flags_registered, listener_of, value_offered, names_of};
ghost use Rattle.grasp_asa.specs.Place.{IsPlaceOf};
ghost use Rattle.grasp_asa.specs.Registrations.{IsRegistry, is_registered, is_agent_name, is_taken, is_named, is_of, is_both_or_neither, is_dry_alone};

use crate::entry::{Agent, Registered};
use grasp_cbor::{Chars, OutOfMemory};
use grasp_types::{ApiRefused, Flags, Plain, Value};
use std::alloc::Global;
use std::marker::Model;

/// How many agents a node has at most.
const MOST_AGENTS: usize = 32;

/// How many objectives a node has at most.
const MOST_OBJECTIVES: usize = 64;

/// The agents of a node and their objectives, in the order of their registration.
///
/// It holds at most 32 agents and 64 objectives. Agents are numbered from 1, and a number is never used again. Memory
/// is taken by `new`, and by `offered` for its copy, and by no other call.
#[derive(Debug, Drop)]
pub struct Registry {
    agents: Vec<Agent>,
    objectives: Vec<Registered>,
    made: u32,
}

impl Model for Registry {
    ghost use Rattle.grasp_asa.specs.Registrations.{Registrations};
    ghost use Rattle.grasp_asa.specs.RegistrationsCode.{coded_registrations};

    ghost Value = { Registrations };

    ghost coded = { coded_registrations };

    ghost use Rattle.grasp_asa.specs.Room.{registrations_of, HasRoom};

    ghost view = { registrations_of };

    ghost invariant = { HasRoom };
}

impl Registry {
    /// A registry in which nothing is registered, and nothing ever was.
    pub fn new(alloc: Global) -> Result<Registry, OutOfMemory>
        ensures empty { IfOk result (λ r. r ≡ nothing_registered) }
        ensures registry { IfOk result IsRegistry }
    {
        Ok(Registry {
            agents: Vec::with_capacity(alloc, MOST_AGENTS)?,
            objectives: Vec::with_capacity(alloc, MOST_OBJECTIVES)?,
            made: 0,
        })
    }

    /// Registers an agent under this name, and answers its number.
    pub fn register_asa(&mut self, name: Chars) -> Result<u32, ApiRefused>
        ensures answer { result ≡ register_asa_answer self.old name }
        ensures after { self.new ≡ after_register_asa self.old name result }
        ensures registry { IsRegistry self.new }
    {
        if self.agents.len() >= MOST_AGENTS || self.made == u32::MAX {
            return Err(ApiRefused::AsasFull);
        }
        if self.is_agent_name(&name) {
            return Err(ApiRefused::DuplicateAsa);
        }
        let number = self.made + 1;
        self.made = number;
        let Ok(()) = self.agents.push(Agent { number, name }) else {
            unreachable!()
        };
        Ok(number)
    }

    /// Takes the agent of this number out, and its objectives with it.
    pub fn deregister_asa(&mut self, asa: u32) -> Result<(), ApiRefused>
        ensures answer { result ≡ deregister_asa_answer self.old asa }
        ensures after { self.new ≡ after_deregister_asa self.old asa result }
        ensures registry { IsRegistry self.new }
    {
        if !self.knows(asa) {
            return Err(ApiRefused::NoAsa);
        }
        self.objectives.retain(|o| o.owner != asa);
        self.agents.retain(|a| a.number != asa);
        Ok(())
    }

    /// Whether a registered agent has this number. It takes no memory.
    pub fn knows(&self, asa: u32) -> bool
        ensures knows { result ≡ is_registered self.now asa }
        ensures positive { result ≡ true → 0 < asa }
        ensures registry { IsRegistry self.now }
    {
        self.agents.iter().any(|a| a.number == asa)
    }

    /// Registers an objective for this agent. It isn't listened for yet, and no value is offered.
    pub fn register_objective(
        &mut self,
        asa: u32,
        name: Chars,
        flags: Flags,
    ) -> Result<(), ApiRefused>
        ensures answer { result ≡ register_objective_answer self.old asa name flags }
        ensures after { self.new ≡ after_register_objective self.old asa name flags result }
        ensures registry { IsRegistry self.new }
    {
        if !self.knows(asa) {
            return Err(ApiRefused::NoAsa);
        }
        if is_both_or_neither(flags) {
            return Err(ApiRefused::NotBoth);
        }
        if self.objectives.len() >= MOST_OBJECTIVES {
            return Err(ApiRefused::ObjectivesFull);
        }
        if self.is_taken(&name) {
            return Err(ApiRefused::ObjectiveTaken);
        }
        if is_dry_alone(flags) {
            return Err(ApiRefused::NotDry);
        }
        let objective = Registered {
            owner: asa,
            name,
            flags,
            listening: false,
            offered: None,
        };
        let Ok(()) = self.objectives.push(objective) else {
            unreachable!()
        };
        Ok(())
    }

    /// Takes this agent's objective of this name out, with its mark and the value that it is offered with.
    pub fn deregister_objective(&mut self, asa: u32, name: &Chars) -> Result<(), ApiRefused>
        ensures answer { result ≡ deregister_objective_answer self.old asa name.now }
        ensures after { self.new ≡ after_deregister_objective self.old asa name.now result }
        ensures registry { IsRegistry self.new }
    {
        self.place_of(asa, name)?;
        self.objectives.retain(|o| !o.is_of(asa, name));
        Ok(())
    }

    /// The flags of this agent's objective of this name.
    pub fn owned(&self, asa: u32, name: &Chars) -> Result<Flags, ApiRefused>
        ensures { result ≡ owned_answer self.now asa name.now }
    {
        let i = self.place_of(asa, name)?;
        Ok(self.objectives[i].flags)
    }

    /// The flags under which this name is registered at this node, or `None` where it isn't.
    pub fn flags_of(&self, name: &Chars) -> Option<Flags>
        ensures { result ≡ flags_registered self.now name.now }
    {
        Some(self.named(name)?.flags)
    }

    /// Marks this agent's objective as listened for, or ends the mark.
    pub fn listen(&mut self, asa: u32, name: &Chars, on: bool) -> Result<(), ApiRefused>
        ensures answer { result ≡ listen_answer self.old asa name.now }
        ensures after { self.new ≡ after_listen self.old name.now on result }
        ensures registry { IsRegistry self.new }
    {
        let i = self.place_of(asa, name)?;
        if !self.objectives[i].flags.has_neg() {
            return Err(ApiRefused::NotNegotiable);
        }
        self.objectives[i].listening = on;
        Ok(())
    }

    /// Offers this value of this agent's objective for synchronization in place of the last one, or none.
    pub fn offer(&mut self, asa: u32, name: &Chars, value: Option<Value>) -> Result<(), ApiRefused>
        ensures answer { result ≡ offer_answer self.old asa name.now }
        ensures after { self.new ≡ after_offer self.old name.now value result }
        ensures registry { IsRegistry self.new }
    {
        let i = self.place_of(asa, name)?;
        if !self.objectives[i].flags.has_synch() {
            return Err(ApiRefused::NotSynchronizable);
        }
        self.objectives[i].offered = value;
        Ok(())
    }

    /// The agent that listens for the objective of this name, or `None` where none does.
    pub fn listener(&self, name: &Chars) -> Option<u32>
        ensures { result ≡ listener_of self.now name.now }
    {
        let objective = self
            .objectives
            .iter()
            .find(|o| o.is_named(name) && o.listening)?;
        Some(objective.owner)
    }

    /// A copy of the value that the objective of this name is offered with, or `None` where there is none. Memory is
    /// wanted for such a value alone.
    pub fn offered(&self, name: &Chars) -> Result<Option<Value>, OutOfMemory>
        ensures offered { IfOk result (λ value. value ≡ value_offered self.now name.now) }
        ensures wanted { OnErr result (IsSome (value_offered self.now name.now)) }
    {
        match self.value_of(name) {
            Some(value) => Ok(Some(value.copy()?)),
            None => Ok(None),
        }
    }

    /// The name of this agent's objective at this place, counted from 0 in the order of registration, or `None` past
    /// its last.
    pub fn name_of(&self, asa: u32, i: u64) -> Option<&Chars>
        ensures { option_map (λ name. name.now) result ≡ slice_get (names_of self.now asa) i }
    {
        self.objectives
            .iter()
            .filter(|o| o.owner == asa)
            .map(|o| &o.name)
            .nth(i as usize)
    }

    /// Whether a registered agent has this name.
    fn is_agent_name(&self, name: &Chars) -> bool
        ensures { result ≡ is_agent_name self.now name.now }
    {
        self.agents.iter().any(|a| a.is_named(name))
    }

    /// Whether an agent of this node has registered the name.
    fn is_taken(&self, name: &Chars) -> bool
        ensures { result ≡ is_taken self.now name.now }
    {
        self.objectives.iter().any(|o| o.is_named(name))
    }

    /// The value that the objective of this name is offered with.
    fn value_of(&self, name: &Chars) -> Option<&Value>
        ensures { option_map (λ value. value.now) result ≡ value_offered self.now name.now }
    {
        self.named(name)?.offered.as_ref()
    }

    /// The objective of this name.
    fn named(&self, name: &Chars) -> Option<&Registered>
        ensures { option_map (λ o. o.now) result ≡ find (is_named name.now) self.now.objectives }
    {
        self.objectives.iter().find(|o| o.is_named(name))
    }

    /// The place of the objective that this agent registered under this name.
    fn position_of(&self, asa: u32, name: &Chars) -> Option<usize>
        ensures { result ≡ position (is_of asa name.now) self.now.objectives }
    {
        self.objectives.iter().position(|o| o.is_of(asa, name))
    }

    /// The same place, where the agent and its objective are registered.
    fn place_of(&self, asa: u32, name: &Chars) -> Result<usize, ApiRefused>
        ensures place { IfOk result (IsPlaceOf self.now asa name.now) }
        ensures refused { IfErr result (λ e. owned_answer self.now asa name.now ≡ Err e) }
    {
        if !self.knows(asa) {
            return Err(ApiRefused::NoAsa);
        }
        match self.position_of(asa, name) {
            Some(i) => Ok(i),
            None => Err(ApiRefused::NotYourObjective),
        }
    }
}

/// Whether the flags have both F_NEG and F_SYNCH, or neither.
fn is_both_or_neither(flags: Flags) -> bool
    ensures { result ≡ is_both_or_neither flags }
{
    flags.has_neg() == flags.has_synch()
}

/// Whether the flags have F_NEG_DRY without F_NEG.
fn is_dry_alone(flags: Flags) -> bool
    ensures { result ≡ is_dry_alone flags }
{
    flags.has_dry() && !flags.has_neg()
}
