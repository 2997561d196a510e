//! Laws of what is said, sent and delivered on the streams of a network. They say nothing at run time.

ghost use Rattle.grasp_laws_delivery.specs.Fits.{SaidFits};
ghost use Rattle.grasp_laws_delivery.specs.Undrained.{UndrainedAreReached};
ghost use Rattle.grasp_laws_delivery.specs.Pieces.{FrontsAreCut, PiecesAdd, WhatWasSaidIsGiven};
ghost use Rattle.grasp_laws_delivery.specs.Records.{RecordsHoldWhatCame};
ghost use Rattle.grasp_laws_delivery.specs.Saying.{SaidIsSentOrQueued};

use crate::stream_laws::streams_are_ready;

/// What a side of a stream said is what it sent and then what its node has queued for the stream; and no more of it was
/// delivered than was sent.
pub fn what_is_said_is_sent_or_queued()
    ensures { SaidIsSentOrQueued }
{
    streams_are_ready();
}

/// What came on an open stream of a node is what was delivered of what the other side sent.
pub fn records_hold_what_came()
    ensures { RecordsHoldWhatCame }
{
    streams_are_ready();
}

/// The first bytes of what was sent are cut into the first messages, and a piece that comes adds the next ones and no fault.
pub fn pieces_give_what_was_said()
    ensures cut { FrontsAreCut }
    ensures add { PiecesAdd }
{}

/// An open stream is given the first messages that the other side sent, and each piece gives the next ones and no fault.
pub fn what_was_said_is_given()
    ensures { WhatWasSaidIsGiven }
{
    streams_are_ready();
}

/// Turns lead to the network after an event's step, before the drain behind it.
pub fn undrained_are_reached()
    ensures { UndrainedAreReached }
{}

/// Each message that is said is one, and fits the limit of the plans.
pub fn what_is_said_fits()
    ensures { SaidFits }
{}
