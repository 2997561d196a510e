//! What every event leaves as it is, and what it only adds to. They say nothing at run time.

ghost use Rattle.grasp_laws_network.specs.Keeping.{VisitsAreHere, SeatsStay, WantsChangeWants, ReturnsChangeReturns, QueuesGrow, OutcomesAgree};
ghost use Rattle.grasp_laws_network.specs.Keeping.{WhatWasSentStays, WhatWasSentStaysOverTurns, BytesAreCounted};
ghost use Rattle.grasp_laws_network.specs.Nodes.{NodesAreSound};

/// An event makes its step in a life that is there, as it stands.
pub fn visits_are_here()
    ensures { VisitsAreHere }
{}

/// No event begins a life of a node or takes one away, and of each it is known whose it is.
pub fn seats_stay()
    ensures { SeatsStay }
{}

/// A want changes the want of its node's agent, and nothing else.
pub fn wants_change_wants()
    ensures { WantsChangeWants }
{}

/// A return changes the return and the pool of its node's agent, and the offers, and nothing else.
pub fn returns_change_returns()
    ensures { ReturnsChangeReturns }
{}

/// A step that doesn't drain leaves what is queued as it is, and what it queues stands behind it.
pub fn queues_grow()
    ensures { QueuesGrow }
{}

/// An event comes out in one way, where there is memory: the same report, and the same network after it.
pub fn outcomes_agree()
    ensures { OutcomesAgree }
{}

/// No event takes back what was said, sent or delivered, or what is remembered of replies.
pub fn what_was_sent_stays()
    ensures { WhatWasSentStays }
{}

/// No turn does: no event, no settling and no restart.
pub fn what_was_sent_stays_over_turns()
    ensures { WhatWasSentStaysOverTurns }
{}

/// The count of bytes is that of all datagrams and streams that were sent.
pub fn bytes_are_counted()
    ensures { BytesAreCounted }
{}

/// Each life of a node of a network that turns lead to is one to which steps lead: its lists stay within their limits, its
/// sessions are those to which calls of a table lead, and its plan is its member's.
pub fn nodes_are_sound()
    ensures { NodesAreSound }
{}
