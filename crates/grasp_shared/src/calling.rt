//! The call with which a turn ends, as a name for proofs.

ghost use Rattle.grasp_shared.specs.Calls.{Answered};

use std::marker::Brand;

/// Each turn picks it.
pub trait Calling {
    ghost call: { Answered };
}

impl Calling for Brand {
    ghost use Rattle.grasp_types.specs.declared.reply.Reply.TheVariants.{Taken};
    ghost use Rattle.grasp_types.specs.declared.traffic.Input.TheVariants.{Drain};

    ghost call = { record { now = 0; input = Drain 0; reply = Taken } };
}
