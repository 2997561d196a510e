//! Laws of what a node sends. They say nothing at run time.

ghost use Rattle.grasp_laws_sending.specs.Draining.{DrainsAreExact};
ghost use Rattle.grasp_laws_sending.specs.Fitting.{QueuesFit, WhatIsGivenFits};
ghost use Rattle.grasp_laws_sending.specs.Recording.{WhatIsSentIsRecorded};

/// Every message that is queued has at most as many bytes as the node's limit allows, whatever its agents and its peers do.
pub fn queues_fit()
    ensures { QueuesFit }
{}

/// So has every datagram and every piece of a stream that a drain gives.
pub fn what_is_given_fits()
    ensures { WhatIsGivenFits }
{}

/// A drain gives the first outputs that are queued, at most so many, and behind the last of them the first closings, and
/// changes nothing else.
pub fn drains_are_exact()
    ensures { DrainsAreExact }
{}

/// What an agent says in a session and what it requests is written down there at the clock reading as it is sent, and nothing else.
pub fn what_is_sent_is_recorded()
    ensures { WhatIsSentIsRecorded }
{}
