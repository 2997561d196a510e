//! Why a line of a record fails.

ghost use Rattle.std.specs.Prelude.{◌≡◌};
ghost use Rattle.grasp_audit.specs.LineFaults.{fault_at, stopped_by, told_of, verdict_of};

use grasp_cbor::OutOfMemory;
use grasp_model_audit::AuditFault;
use grasp_model_network::WorldStop;

/// Why a line fails, or wasn't audited.
#[derive(Clone, Copy, Debug, PartialEq, Eq)]
pub(crate) enum LineFault {
    /// It is none of a record, or tells a reading that is too low.
    BadRecord,
    /// What it says came in wasn't sent there, or doesn't come there next.
    NotSent,
    /// The node's own agent makes another call next.
    NotAgent,
    /// With it too much is sent.
    TooMuch,
    /// The answer is another one.
    NotStep,
    /// There was no memory.
    OutOfMemory,
}

/// What a stop of the network comes to.
pub(crate) fn stop_fault(stop: WorldStop) -> LineFault
    ensures { result ≡ stopped_by stop }
{
    match stop {
        WorldStop::TooMuch => LineFault::TooMuch,
        WorldStop::OutOfMemory => LineFault::OutOfMemory,
    }
}

/// Whether it is told so, or want of memory.
pub(crate) fn told_or_starved(told: Result<bool, OutOfMemory>) -> Result<bool, LineFault>
    ensures { result ≡ told_of told }
{
    match told {
        Ok(yes) => Ok(yes),
        Err(OutOfMemory) => Err(LineFault::OutOfMemory),
    }
}

/// A line is to be answered as it says.
pub(crate) fn verdict_of(answered: Result<bool, LineFault>) -> Result<(), LineFault>
    ensures { result ≡ verdict_of answered }
{
    match answered {
        Ok(true) => Ok(()),
        Ok(false) => Err(LineFault::NotStep),
        Err(fault) => Err(fault),
    }
}

/// The fault of a text whose line of this number fails so.
pub(crate) fn fault_at(fault: LineFault, line: u64) -> AuditFault
    ensures { result ≡ fault_at fault line }
{
    match fault {
        LineFault::BadRecord => AuditFault::BadRecord { line },
        LineFault::NotSent => AuditFault::NotSent { line },
        LineFault::NotAgent => AuditFault::NotAgent { line },
        LineFault::TooMuch => AuditFault::TooMuch,
        LineFault::NotStep => AuditFault::NotStep { line },
        LineFault::OutOfMemory => AuditFault::OutOfMemory,
    }
}
