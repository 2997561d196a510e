//! In whose hand each address of a root is. They say nothing at run time.

ghost use Rattle.grasp_laws_prefixes.specs.Hands.{FirstHoldings, NothingAppears, NothingIsLost};
ghost use Rattle.grasp_laws_prefixes.specs.Known.{OffersAreKnown};
ghost use Rattle.grasp_laws_prefixes.specs.Settled.{DeadAreFound, FormerOffersAreKnown, SettledAreHeld};

use crate::prefix_laws::grounds_hold;

/// In the first network of a good setting a node holds exactly the addresses of its member's roots.
pub fn first_holdings()
    ensures { FirstHoldings }
{}

/// What a node holds in any of its lives, and what lies in an offer that may still be accepted, is an address of some root.
pub fn nothing_appears()
    ensures { NothingAppears }
{
    grounds_hold();
}

/// Where no node has begun anew, each address of a root is held by a node, or lies in an offer that may still be accepted.
pub fn nothing_is_lost()
    ensures { NothingIsLost }
{
    grounds_hold();
}

/// Each offer that is listed is for a stream, or for none as yet, and a node has one of a prefix, in whichever of its lives. What is to be
/// returned is listed, what is offered in a session is listed for its stream or was settled, and what was settled is accepted never.
pub fn offers_are_known()
    ensures { OffersAreKnown }
{
    grounds_hold();
}

/// After a settling, the life that settled the IPv6 prefix holds each address of it.
pub fn settled_are_held()
    ensures { SettledAreHeld }
{
    grounds_hold();
}

/// An offer that is listed for a stream on which it is never accepted may be settled at its node, where the present life has it in doubt.
pub fn dead_are_found()
    ensures { DeadAreFound }
{
    grounds_hold();
}

/// What the agent of a life, present or ended, offers in a session is listed for the stream of that session, or was settled.
pub fn former_offers_are_known()
    ensures { FormerOffersAreKnown }
{
    grounds_hold();
}
