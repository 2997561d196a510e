//! The tests of calls that more than one call makes, in rising number.

ghost use Rattle.std.specs.Prelude.{◌≡◌, ◌≤◌, ◌<◌, ◌+◌, Ok, Some, not, length, IfOk, OnOk};
ghost use Rattle.grasp_session.specs.Stands.{check_answer};
ghost use Rattle.grasp_model_node.specs.Draws.{is_used, first_unused, next_session};
ghost use Rattle.grasp_model_node.specs.Moves.{with_draw};
ghost use Rattle.grasp_model_node.specs.Node.{NodeState};
ghost use Rattle.grasp_model_node.specs.Queue.{has_room};
ghost use Rattle.grasp_model_node.specs.Refusals.{early, late, as_unit};
ghost use Rattle.grasp_core.specs.Stands.{NodeStands};
ghost use Rattle.grasp_model_node.specs.Tests.{agent_tests, act_tests, negotiation_tests, synchronization_tests, owned_flags};

use crate::NodeCore;
use grasp_cbor::Chars;
use grasp_session::{Act, SessionRefused};
use grasp_types::{ApiRefused, Flags, Handle};

impl NodeCore {
    /// Whether an agent of this number is registered.
    pub(crate) fn known(&self, asa: u32) -> Result<(), ApiRefused>
        ensures reply { (n : NodeState) → NodeStands self.now n → result ≡ early (agent_tests n asa) }
        ensures positive { OnOk result (0 < asa) }
    {
        if self.registry.knows(asa) {
            Ok(())
        } else {
            Err(ApiRefused::NoAsa)
        }
    }

    /// The flags of this agent's objective for negotiation, or the first refusal that holds.
    #[tactic(auto, using(crate::proofs::Owning::owned_found, crate::proofs::Owning::owned_missed))]
    pub(crate) fn negotiable(&self, asa: u32, name: &Chars) -> Result<Flags, ApiRefused>
        ensures reply { (n : NodeState) → NodeStands self.now n → as_unit result ≡ early (negotiation_tests n asa name.now) }
        ensures flags { IfOk result (λ flags. (n : NodeState) → NodeStands self.now n → owned_flags n asa name.now ≡ Some flags) }
        ensures positive { OnOk result (0 < asa) }
    {
        if !self.registry.knows(asa) {
            return Err(ApiRefused::NoAsa);
        }
        let Ok(flags) = self.registry.owned(asa, name) else {
            return Err(ApiRefused::NotYourObjective);
        };
        if !flags.has_neg() {
            return Err(ApiRefused::NotNegotiable);
        }
        Ok(flags)
    }

    /// The flags of this agent's objective for synchronization, or the first refusal that holds.
    #[tactic(auto, using(crate::proofs::Owning::owned_found, crate::proofs::Owning::owned_missed))]
    pub(crate) fn synchronizable(&self, asa: u32, name: &Chars) -> Result<Flags, ApiRefused>
        ensures reply { (n : NodeState) → NodeStands self.now n → as_unit result ≡ early (synchronization_tests n asa name.now) }
        ensures flags { IfOk result (λ flags. (n : NodeState) → NodeStands self.now n → owned_flags n asa name.now ≡ Some flags) }
        ensures positive { OnOk result (0 < asa) }
    {
        if !self.registry.knows(asa) {
            return Err(ApiRefused::NoAsa);
        }
        let Ok(flags) = self.registry.owned(asa, name) else {
            return Err(ApiRefused::NotYourObjective);
        };
        if !flags.has_synch() {
            return Err(ApiRefused::NotSynchronizable);
        }
        Ok(flags)
    }

    /// Whether this agent may do this in its session, or the first refusal that holds.
    pub(crate) fn may_act(&self, asa: u32, handle: Handle, act: Act) -> Result<(), ApiRefused>
        ensures ok { OnOk result (check_answer self.now.table asa handle act ≡ Ok tt) }
        ensures reply { (n : NodeState) → NodeStands self.now n → result ≡ early (act_tests n asa handle act) }
    {
        if !self.registry.knows(asa) {
            return Err(ApiRefused::NoAsa);
        }
        match self.table.check(asa, handle, act) {
            Ok(()) => Ok(()),
            Err(SessionRefused::NoSession) => Err(ApiRefused::NoSession),
            Err(SessionRefused::NotYourTurn) => Err(ApiRefused::NotYourTurn),
            Err(SessionRefused::LoopsSpent) => Err(ApiRefused::LoopsSpent),
            Err(SessionRefused::WaitsSpent) => Err(ApiRefused::WaitsSpent),
            Err(_) => Err(ApiRefused::OutOfMemory),
        }
    }

    /// Whether what fits, or doesn't, can be sent with so many outputs in all, or the first refusal that holds.
    pub(crate) fn may_send(&self, fits: bool, count: usize) -> Result<(), ApiRefused>
        ensures reply { (n : NodeState) → NodeStands self.now n
            → result ≡ late (record { too_long = not fits; outbox_full = not (has_room n.queue count) }) }
        ensures room { OnOk result (length self.now.queue + count ≤ 256) }
    {
        if !fits {
            return Err(ApiRefused::TooLong);
        }
        if !self.queue.has_room(count) {
            return Err(ApiRefused::OutboxFull);
        }
        Ok(())
    }

    /// The session number that is drawn next.
    pub(crate) fn next_session(&self) -> u32
        ensures { (n : NodeState) → NodeStands self.now n → result ≡ next_session n }
    {
        self.unused(self.draws.next)
    }

    /// The first number from this one on that no request of this node's and no search has.
    #[tactic(auto, using(crate::proofs::Drawn::unused_on))]
    fn unused(&self, first: u32) -> u32
        ensures { (n : NodeState) → NodeStands self.now n → result ≡ first_unused (is_used n) 128 first }
    {
        let mut number = first;
        let mut left: u32 = 128;
        while left > 0 {
            if !self.uses(number) {
                return number;
            }
            number = number.wrapping_add(1);
            left -= 1;
        }
        number
    }

    /// Whether a live session that this node requested, or a kept search, has this number.
    fn uses(&self, number: u32) -> bool
        ensures { (n : NodeState) → NodeStands self.now n → result ≡ is_used n number }
    {
        self.table.uses(number) || self.discovery.uses(number)
    }

    /// One word is drawn.
    pub(crate) fn draw(&mut self)
        ensures { (n : NodeState) → NodeStands self.old n → NodeStands self.new (with_draw n) }
    {
        self.draws.draw();
    }
}
