//! The calls of the agents in a round.

ghost use Rattle.std.specs.Prelude.{◌≡◌, MatchResult, map};
ghost use Rattle.grasp_crew.specs.Servants.{after_call, woken};
ghost use Rattle.grasp_service.specs.Cuts.{CutsAround, CutsOff, IsCutAsking};
ghost use Rattle.grasp_service.specs.Deeds.{Acts, ActsAll, told_at};
ghost use Rattle.grasp_service.specs.Keeping.{behind_of, kept_after};
ghost use Rattle.grasp_shelf.specs.Shelves.{KeptOn};

use crate::cut::Cut;
use crate::keeping::{keep_after, keep_before};
use crate::pool_events::{Changing, add_changes, change_by};
use crate::want_events::{Asked, add_end, asked_of};
use grasp_cbor::{Octets, OutOfMemory};
use grasp_core::NodeCore;
use grasp_crew::{Servant, Steward};
use grasp_disk::Disk;
use grasp_service_visits::is_starved;
use grasp_shared::step_core;
use grasp_shelf::Shelf;
use grasp_types::{List, Reply};
use std::alloc::Global;

/// Something came that may tell the agents something.
pub(crate) fn wake_all(crew: &mut [Servant])
    ensures { crew.new ≡ map woken crew.old }
{
    for servant in crew.iter_mut() {
        servant.wake();
    }
}

/// Each agent is told what is due, and makes a call where one is due, in order, at a reading in milliseconds. The store is asked
/// around the calls of the agent of prefixes.
#[tactic(auto, using(crate::proofs::Deeds::acts_none, crate::proofs::Deeds::acts_all))]
pub(crate) fn act_all<B: Disk>(
    alloc: Global,
    core: &mut NodeCore,
    crew: &mut [Servant],
    shelf: &mut Shelf<B>,
    events: &mut List<Octets>,
    now: u64,
) -> Result<(), Cut>
    ensures { MatchResult result (λ _. ActsAll B.stands B.faults core.old crew.old shelf.old now core.new crew.new shelf.new)
        (λ cut. CutsOff B.stands B.faults core.old now crew.old shelf.old cut core.new shelf.new) }
{
    for i in 0..crew.len() {
        act(alloc, core, &mut crew[i], shelf, events, now)?;
    }
    Ok(())
}

/// An agent is told what is due, and makes a call where one is due. The store is asked around the call.
#[tactic(auto, using(crate::proofs::Deeds::acting))]
fn act<B: Disk>(
    alloc: Global,
    core: &mut NodeCore,
    servant: &mut Servant,
    shelf: &mut Shelf<B>,
    events: &mut List<Octets>,
    now: u64,
) -> Result<(), Cut>
    ensures { MatchResult result (λ _. Acts B.stands B.faults core.old servant.old shelf.old now core.new servant.new shelf.new)
        (λ cut. CutsAround B.stands B.faults core.old now (told_at now servant.old) shelf.old cut core.new shelf.new) }
{
    servant.tell(now)?;
    if !servant.is_due() {
        return Ok(());
    }
    let input = servant.call()?;
    keep_before(shelf, servant, &input)?;
    let asked = asked_of(servant);
    let reply = step_core(core, 0, input);
    if is_starved(&reply) {
        drop(reply);
        Err(Cut::OutOfMemory)
    } else {
        take_reply(alloc, servant, shelf, events, now, reply, asked)
    }
}

/// The agent takes the reply, and the store is asked; what it tells besides is an event.
#[tactic(auto, using(crate::proofs::Deeds::taking))]
fn take_reply<B: Disk>(
    alloc: Global,
    servant: &mut Servant,
    shelf: &mut Shelf<B>,
    events: &mut List<Octets>,
    now: u64,
    reply: Reply,
    asked: Option<Asked>,
) -> Result<(), Cut>
    ensures takes { servant.new ≡ after_call now servant.old reply }
    ensures kept { MatchResult result (λ _. KeptOn B.stands B.faults shelf.old (kept_after servant.new) shelf.new)
        (λ cut. IsCutAsking B.stands B.faults shelf.old (behind_of servant.new) cut shelf.new) }
{
    hear(alloc, servant, events, now, reply, asked)?;
    keep_after(shelf, servant)?;
    Ok(())
}

/// The agent takes the reply, and what it tells besides is an event.
fn hear(
    alloc: Global,
    servant: &mut Servant,
    events: &mut List<Octets>,
    now: u64,
    reply: Reply,
    asked: Option<Asked>,
) -> Result<(), OutOfMemory>
    ensures { servant.new ≡ after_call now servant.old reply }
{
    match servant {
        Servant::Steward(steward) => {
            let changing = change_by(steward.agent(), &reply);
            steward.take(now, &reply);
            let told = tell_of(alloc, events, now, steward, asked, &changing, &reply);
            drop(reply);
            told
        }
        Servant::Herald(herald) => {
            herald.take(now, &reply);
            drop(reply);
            Ok(())
        }
        Servant::Listener(listener) => {
            listener.take(reply);
            Ok(())
        }
    }
}

/// Adds what a reply has changed of the prefixes of an agent, and that a want ended by it.
fn tell_of(
    alloc: Global,
    events: &mut List<Octets>,
    now: u64,
    steward: &Steward,
    asked: Option<Asked>,
    changing: &Changing,
    reply: &Reply,
) -> Result<(), OutOfMemory> {
    add_changes(alloc, events, now, steward.agent(), changing)?;
    add_end(alloc, events, now, steward, asked, reply)
}
