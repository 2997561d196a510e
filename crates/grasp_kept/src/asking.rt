//! A disk is asked around a call of an agent.

ghost use Rattle.std.specs.Prelude.{◌≡◌, true, false};
ghost use Rattle.grasp_agent.specs.Calls.{next_call};
ghost use Rattle.grasp_kept.specs.Asking.{AskedBefore, AskedBehind, FailsBefore, FailsBehind, IsGoing, NeverStops, SavesBefore, SavesBehind};

use grasp_agent::PrefixAgent;
use grasp_disk::MemDisk;
use grasp_store::{KeepFault, Keeper};
use grasp_types::Call;

/// Before the call, where the disk never stops.
pub(crate) fn ask_before(keeper: &mut Keeper<MemDisk>, agent: &PrefixAgent, call: &Call)
    requires is_next { call.now ≡ next_call agent.now }
    requires goes { NeverStops keeper.old }
    ensures { AskedBefore keeper.old keeper.new agent.now }
{
    match keeper.before(agent, call) {
        Ok(()) => {}
        Err(_) => unreachable!(),
    }
}

/// Behind it.
pub(crate) fn ask_behind(keeper: &mut Keeper<MemDisk>, agent: &PrefixAgent)
    requires { NeverStops keeper.old }
    ensures { AskedBehind keeper.old keeper.new agent.now }
{
    match keeper.after(agent) {
        Ok(()) => {}
        Err(_) => unreachable!(),
    }
}

/// Before the call, where the disk may stop. The answer is whether it hasn't.
pub(crate) fn try_before(keeper: &mut Keeper<MemDisk>, agent: &PrefixAgent, call: &Call) -> bool
    requires is_next { call.now ≡ next_call agent.now }
    requires goes { IsGoing keeper.old }
    ensures done { result ≡ true → SavesBefore keeper.old keeper.new agent.now }
    ensures stopped { result ≡ false → FailsBefore keeper.old keeper.new agent.now }
{
    match keeper.before(agent, call) {
        Ok(()) => true,
        Err(fault) => match fault {
            KeepFault::DiskFault => false,
            _ => unreachable!(),
        },
    }
}

/// Behind it.
pub(crate) fn try_behind(keeper: &mut Keeper<MemDisk>, agent: &PrefixAgent) -> bool
    requires { IsGoing keeper.old }
    ensures done { result ≡ true → SavesBehind keeper.old keeper.new agent.now }
    ensures stopped { result ≡ false → FailsBehind keeper.old keeper.new agent.now }
{
    match keeper.after(agent) {
        Ok(()) => true,
        Err(fault) => match fault {
            KeepFault::DiskFault => false,
            _ => unreachable!(),
        },
    }
}
