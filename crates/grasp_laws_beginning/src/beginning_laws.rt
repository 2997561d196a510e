//! Laws of how a step begins. They say nothing at run time.

ghost use Rattle.grasp_laws_beginning.specs.Expiring.{BeginningsExpire};
ghost use Rattle.grasp_laws_beginning.specs.Reading.{WhatComesIsRead};
ghost use Rattle.grasp_laws_beginning.specs.TimingOut.{DueTimeOut};

/// At the beginning of a step just what has ended by the larger of the two times is over or gone: searches, cached locators,
/// floods and memories. Of the streams just those of sessions that time out begin closing.
pub fn beginnings_expire()
    ensures { BeginningsExpire }
{}

/// A piece of a stream and a datagram are read with the limit of the node's plan.
pub fn what_comes_is_read()
    ensures { WhatComesIsRead }
{}

/// A session that is due by the larger of the two times is marked as timed out then, where an agent has it, and is gone elsewhere.
pub fn due_time_out()
    ensures { DueTimeOut }
{}
