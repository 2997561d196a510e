//! What is asked of the store around the calls of an agent.

ghost use Rattle.std.specs.Prelude.{◌≡◌, MatchResult};
ghost use Rattle.grasp_crew.specs.Servants.{call_of};
ghost use Rattle.grasp_service.specs.Cuts.{FailsAsked};
ghost use Rattle.grasp_service.specs.Keeping.{ahead_of, behind_of, opening_of, kept_ahead, kept_after, kept_opening};
ghost use Rattle.grasp_shelf.specs.Shelves.{KeptOn};

use grasp_crew::Servant;
use grasp_disk::Disk;
use grasp_shelf::Shelf;
use grasp_store::KeepFault;
use grasp_types::Input;

/// Asks the store before this call of an agent, where it is the one that manages prefixes.
#[tactic(auto, using(crate::proofs::Kept::asking))]
pub(crate) fn keep_before<B: Disk>(
    shelf: &mut Shelf<B>,
    servant: &Servant,
    input: &Input,
) -> Result<(), KeepFault>
    requires { input.now ≡ call_of servant.now }
    ensures { MatchResult result (λ _. KeptOn B.stands B.faults shelf.old (kept_ahead servant.now) shelf.new)
        (λ fault. FailsAsked B.stands B.faults shelf.old (ahead_of servant.now) fault shelf.new) }
{
    match servant {
        Servant::Steward(steward) => {
            let Input::Api { call, .. } = input else {
                unreachable!()
            };
            shelf.before(steward.agent(), call)
        }
        Servant::Herald(_) => Ok(()),
        Servant::Listener(_) => Ok(()),
    }
}

/// Asks the store behind a call of an agent, where it is the one that manages prefixes.
#[tactic(auto, using(crate::proofs::Kept::asking))]
pub(crate) fn keep_after<B: Disk>(shelf: &mut Shelf<B>, servant: &Servant) -> Result<(), KeepFault>
    ensures { MatchResult result (λ _. KeptOn B.stands B.faults shelf.old (kept_after servant.now) shelf.new)
        (λ fault. FailsAsked B.stands B.faults shelf.old (behind_of servant.now) fault shelf.new) }
{
    match servant {
        Servant::Steward(steward) => shelf.after(steward.agent()),
        Servant::Herald(_) => Ok(()),
        Servant::Listener(_) => Ok(()),
    }
}

/// Asks the store behind the opening calls of the agents, of which the first manages prefixes.
#[tactic(auto, using(crate::proofs::Kept::asking))]
pub(crate) fn keep_opening<B: Disk>(shelf: &mut Shelf<B>, crew: &[Servant]) -> Result<(), KeepFault>
    ensures { MatchResult result (λ _. KeptOn B.stands B.faults shelf.old (kept_opening crew.now) shelf.new)
        (λ fault. FailsAsked B.stands B.faults shelf.old (opening_of crew.now) fault shelf.new) }
{
    match crew {
        [servant, ..] => keep_after(shelf, servant),
        [] => Ok(()),
    }
}
