//! Why the run of a script ended early.

ghost use Rattle.std.specs.Prelude.{◌≡◌};
ghost use Rattle.grasp_runner.specs.Scripts.{fault_of};

use grasp_cbor::OutOfMemory;
use grasp_io::Failed;
use grasp_model_network::WorldStop;

/// Why the run of a script ended early.
#[derive(Clone, Copy, Debug, PartialEq, Eq)]
pub enum RunFault {
    /// The datagrams and streams that were sent have more than 268435456 bytes.
    TooMuch,
    /// There was no memory.
    OutOfMemory,
    /// A write failed.
    WriteFault,
}

impl From<OutOfMemory> for RunFault {
    ghost use Rattle.std.specs.Prelude.{◌≡◌};
    ghost use Rattle.grasp_runner.specs.declared.fault.RunFault.TheVariants as faults;

    ghost from_gives = { λ _ e. e ≡ faults.OutOfMemory };

    fn from(_: OutOfMemory) -> RunFault {
        RunFault::OutOfMemory
    }
}

impl From<Failed> for RunFault {
    ghost use Rattle.std.specs.Prelude.{◌≡◌};
    ghost use Rattle.grasp_runner.specs.declared.fault.RunFault.TheVariants as faults;

    ghost from_gives = { λ _ e. e ≡ faults.WriteFault };

    fn from(_: Failed) -> RunFault {
        RunFault::WriteFault
    }
}

/// The fault for which a network was stopped.
pub(crate) fn stop_fault(stop: WorldStop) -> RunFault
    ensures { result ≡ fault_of stop }
{
    match stop {
        WorldStop::TooMuch => RunFault::TooMuch,
        WorldStop::OutOfMemory => RunFault::OutOfMemory,
    }
}
