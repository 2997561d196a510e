//! What a side of a negotiation that has accepted came to. They say nothing at run time.

ghost use Rattle.grasp_laws_questions.specs.Agreeing.{AcceptancesAgree, ListedAreAsked, RequestersSaw};

use grasp_laws_prefixes::grounds_hold;

/// A side that has said an acceptance came to an agreement by it, on the last offer of the other side.
pub fn acceptances_agree()
    ensures { AcceptancesAgree }
{
    grounds_hold();
}

/// Where something was said in a negotiation, the side that dialled has a session.
pub fn requesters_saw()
    ensures { RequestersSaw }
{
    grounds_hold();
}

/// The stream of a listed offer is a negotiation of PrefixManager in which something was said.
pub fn listed_are_asked()
    ensures { ListedAreAsked }
{
    grounds_hold();
}
