//! Why the record of a script ended early.

ghost use Rattle.std.specs.Prelude.{◌≡◌};
ghost use Rattle.grasp_runner.specs.Scripts.{fault_of};

use grasp_model_network::WorldStop;
use grasp_runner::RunFault;

/// The fault for which a network was stopped.
pub(crate) fn stop_fault(stop: WorldStop) -> RunFault
    ensures { result ≡ fault_of stop }
{
    match stop {
        WorldStop::TooMuch => RunFault::TooMuch,
        WorldStop::OutOfMemory => RunFault::OutOfMemory,
    }
}
