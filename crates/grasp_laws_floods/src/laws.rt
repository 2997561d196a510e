//! What is so of the floods and discoveries of every network that turns lead to. They say nothing at run time.

ghost use Rattle.grasp_laws_floods.specs.Sought.{AddressesTellNodes, SearchIsTold};
ghost use Rattle.grasp_laws_floods.specs.Laws.{
  DiscoveriesAreReal,
  OtherFloodsAreReal,
  ReadFloodsAreReal,
  ReadsComeLater,
  RelaysAreOnceHere,
};

/// Each flood that an agent read was begun by a call at its initiator, with this name, value and flags.
#[tactic(auto, using(crate::proofs::Runs::read_floods_are_real))]
pub fn read_floods_are_real()
    ensures { ReadFloodsAreReal }
{}

/// So was each flood in a datagram that was sent, in a queue, and in a node's cache.
#[tactic(auto, using(crate::proofs::Runs::other_floods_are_real))]
pub fn other_floods_are_real()
    ensures { OtherFloodsAreReal }
{}

/// What is read at an event was flooded before it.
#[tactic(auto, using(crate::proofs::Runs::reads_come_later))]
pub fn reads_come_later()
    ensures { ReadsComeLater }
{}

/// What a node of a network sends on it sends on once, with the loop count less by one.
pub fn relays_are_once_here()
    ensures { RelaysAreOnceHere }
{}

/// Each discovery in a datagram, in a queue and in a node's memory was begun by a search at its initiator, and looks for
/// what that search looks for.
#[tactic(auto, using(crate::proofs::LooksRuns::discoveries_are_real))]
pub fn discoveries_are_real()
    ensures { DiscoveriesAreReal }
{}

/// Two lives with one address are of one node; and where no two searches were begun under one session number at one address,
/// this number and the initiator of a discovery tell what it looks for.
pub fn initiators_tell_searches()
    ensures nodes { AddressesTellNodes }
    ensures searches { SearchIsTold }
{}
