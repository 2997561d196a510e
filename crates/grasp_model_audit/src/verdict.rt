//! What an audit of a text comes to.

use grasp_cbor::OutOfMemory;
use grasp_model_network::WorldStop;
use std::alloc::AllocError;

/// The text is the record of a run.
#[derive(Clone, Copy, Debug, PartialEq, Eq)]
pub struct Audit {
    /// How many nodes its plan has.
    pub nodes: u8,
    /// How many lines it has, those of its header too.
    pub lines: u64,
}

/// Why a text isn't the record of a run: the first line that fails, numbered from 1, and the first of the causes that it has; or why it
/// wasn't audited.
#[derive(Clone, Copy, Debug, PartialEq, Eq)]
pub enum AuditFault {
    /// The line is none of a record, or it tells a reading of its node's clock that is below an earlier one.
    BadRecord { line: u64 },
    /// What the line says came from elsewhere wasn't sent there, or isn't what comes there next.
    NotSent { line: u64 },
    /// The node's own agent makes another call next.
    NotAgent { line: u64 },
    /// With this line the datagrams and streams that were sent have more bytes than may be sent.
    TooMuch,
    /// The node, or its own agent, answers otherwise.
    NotStep { line: u64 },
    /// There was no memory.
    OutOfMemory,
}

impl From<OutOfMemory> for AuditFault {
    ghost use Rattle.std.specs.Prelude.{◌≡◌};
    ghost use Rattle.grasp_model_audit.specs.declared.verdict.AuditFault.TheVariants as faults;

    ghost from_gives = { λ _ e. e ≡ faults.OutOfMemory };

    fn from(_: OutOfMemory) -> AuditFault {
        AuditFault::OutOfMemory
    }
}

impl From<AllocError> for AuditFault {
    ghost use Rattle.std.specs.Prelude.{◌≡◌};
    ghost use Rattle.grasp_model_audit.specs.declared.verdict.AuditFault.TheVariants as faults;

    ghost from_gives = { λ _ e. e ≡ faults.OutOfMemory };

    fn from(_: AllocError) -> AuditFault {
        AuditFault::OutOfMemory
    }
}

impl From<WorldStop> for AuditFault {
    ghost use Rattle.std.specs.Prelude.{◌≡◌};
    ghost use Rattle.grasp_model_audit.specs.Verdicts.{stop_fault};

    ghost from_gives = { λ stop e. e ≡ stop_fault stop };

    fn from(stop: WorldStop) -> AuditFault {
        match stop {
            WorldStop::TooMuch => AuditFault::TooMuch,
            WorldStop::OutOfMemory => AuditFault::OutOfMemory,
        }
    }
}
