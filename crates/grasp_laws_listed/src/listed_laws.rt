//! Laws of the offers that a network lists. They say nothing at run time.

ghost use Rattle.grasp_laws_listed.specs.Doubts.{DoubtedWereOffered, OneOfferAStream};
ghost use Rattle.grasp_laws_listed.specs.Reserved.{ReservedAreOffered};

use grasp_laws_agents::{agents_are_kept, agents_give};
use grasp_laws_network::nodes_are_sound;
use grasp_laws_prefixes::{grounds_hold, offers_are_known};

/// What a present node has reserved is listed for the stream of a live session in which its agent offers it, as the last offer there
/// or one about to be made, or for none where it is yet to be returned. At each end of a stream one prefix is offered so.
pub fn reserved_are_offered()
    ensures { ReservedAreOffered }
{
    agents_are_kept();
    agents_give();
    nodes_are_sound();
    offers_are_known();
}

/// What is listed for a stream and is in doubt at its node, or was offered in a life that has ended, was the last offer of a session there that is
/// over.
pub fn doubted_were_offered()
    ensures { DoubtedWereOffered }
{
    grounds_hold();
}

/// At most one offer is listed for a stream.
pub fn one_offer_a_stream()
    ensures { OneOfferAStream }
{
    grounds_hold();
}
