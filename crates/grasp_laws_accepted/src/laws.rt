//! What it means for a prefix in doubt that the taking side has accepted. They say nothing at run time.

ghost use Rattle.grasp_laws_accepted.specs.Agreeing.{AcceptedDoubtsAgree};

use grasp_laws_listed::doubted_were_offered;
use grasp_laws_prefixes::grounds_hold;

/// Where the taking side has accepted what is listed for a stream and in doubt, it came to an agreement by which that prefix is offered.
pub fn accepted_doubts_agree()
    ensures { AcceptedDoubtsAgree }
{
    grounds_hold();
    doubted_were_offered();
}
