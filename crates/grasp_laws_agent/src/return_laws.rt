//! How an agent of PrefixManager gives prefixes back, and which of its calls it makes again.

ghost use Rattle.grasp_laws_agent.specs.Returns.{ReturnsAreRead, ReturnsAreAnswered, WantsAreRequested, ReturnsAreRequested, DutiesAreInOrder};
ghost use Rattle.grasp_laws_agent.specs.Returns.{SettlingsSettle, RefusalsAreRepeated};

/// A prefix that is given back is read exactly from the value that gives it back.
#[tactic(auto, using(crate::proofs::LawReturns::returns_are_read))]
pub fn returns_are_read()
    ensures { ReturnsAreRead }
{}

/// A return begins exactly where there is no other, its prefix is all free and there is room for the rest, and else the first
/// of these that fails is answered. It reserves the prefix, and with a fault nothing changes.
pub fn returns_are_answered()
    ensures { ReturnsAreAnswered }
{}

/// An agent requests what it wants and what it gives back with these values, loops and timeouts.
pub fn returns_are_requested()
    ensures wants { WantsAreRequested }
    ensures returns { ReturnsAreRequested }
{}

/// The duties of an agent are to listen, the want's session, that of the return, and the giving sessions in their order.
pub fn duties_are_in_order()
    ensures { DutiesAreInOrder }
{}

/// A doubtful prefix that is settled is free, and nothing else changes.
#[tactic(auto, using(crate::proofs::LawReturns::settlings_settle))]
pub fn settlings_settle()
    ensures { SettlingsSettle }
{}

/// A call is made again exactly where the queue had no room for its outputs or there was no memory, and nothing changes.
#[tactic(auto, using(crate::proofs::LawReturns::refusals_are_repeated))]
pub fn refusals_are_repeated()
    ensures { RefusalsAreRepeated }
{}
