//! What is so of the lives of the nodes of a network. It says nothing at run time.

ghost use Rattle.grasp_laws_network.specs.Lives.{EventsKeepLives, LivesAreKept, SettledStay};
ghost use Rattle.grasp_laws_network.specs.TurnsDo.{RestartsBeginAnew, SettlingsFree};

/// Of each life it is known whose it is, and each member has a present one. One that has ended holds nothing, and has nothing to
/// offer that it hasn't offered.
pub fn lives_are_kept()
    ensures { LivesAreKept }
{}

/// No event begins a life of a node or settles a prefix, and so no run of events does.
pub fn events_keep_lives()
    ensures { EventsKeepLives }
{}

/// What was settled stays so, whatever turn is taken.
pub fn settled_stay()
    ensures { SettledStay }
{}

/// A member that begins anew has one life more, its present one, which begins with the image's pool. The life that ends keeps its
/// node, and has its agent as that is at its end. The sides of streams that have their ends in it or wait for the member are told
/// that they are closed, what it was to offer is listed no more, and nothing else changes.
pub fn restarts_begin_anew()
    ensures { RestartsBeginAnew }
{}

/// A prefix that is settled is free in its member's present life, its offer is a settled one, and nothing else changes.
pub fn settlings_free()
    ensures { SettlingsFree }
{}
