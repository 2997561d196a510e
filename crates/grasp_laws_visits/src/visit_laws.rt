//! Laws of what visitors may do to a node. They say nothing at run time.

ghost use Rattle.grasp_laws_visits.specs.Calls.{VisitorsCallAsTheirOwn};
ghost use Rattle.grasp_laws_visits.specs.Guests.{GuestsOrderNothing};
ghost use Rattle.grasp_laws_visits.specs.Orders.{ChangesWereOrdered};
ghost use Rattle.grasp_laws_visits.specs.Rounds.{RoundsAreSittings};
ghost use Rattle.grasp_laws_visits.specs.Taken.{OrdersAreTaken};

/// Whatever guests write, the node's agents want what they wanted, as much is logged, and the node goes on. Each order of a guest is denied.
pub fn guests_order_nothing()
    ensures { GuestsOrderNothing }
{}

/// Visitors may change what the node wants, how much it logs, or whether it is to end. Then one that is no guest wrote the line that orders just that.
pub fn changes_were_ordered()
    ensures { ChangesWereOrdered }
{}

/// What a visitor orders that is no guest is done, and the answer says so. It isn't done only where there is no room for a want, or no such want.
pub fn orders_are_taken()
    ensures { OrdersAreTaken }
{}

/// A visitor calls what it wrote, by the number that its own calls were answered, and of the sessions that they were answered. Once it left it only
/// deregisters its agent.
pub fn visitors_call_as_their_own()
    ensures { VisitorsCallAsTheirOwn }
{}

/// What comes of visitors in the rounds of a node that serves, and what is called for them, are sittings.
pub fn rounds_are_sittings()
    ensures { RoundsAreSittings }
{}
