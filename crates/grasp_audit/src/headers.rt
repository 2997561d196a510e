//! The header of a record.

ghost use Rattle.std.specs.Prelude.{◌≡◌};
ghost use Rattle.grasp_audit.specs.Headers.{EndsHeader, ReadsPlan};

use crate::split::{is_start, split_line};
use grasp_model_audit::AuditFault;
use grasp_model_network::WorldPlan;
use grasp_script::{ScriptFault, read_head};
use std::alloc::Global;

/// Where a record's header ends: behind so many bytes, which have so many lines.
#[derive(Clone, Copy, Debug, PartialEq, Eq)]
pub(crate) struct HeaderEnd {
    pub(crate) bytes: usize,
    pub(crate) lines: u64,
}

/// Where a text's header ends, if it has one: behind its first line `start`, or else at the end of the text.
pub(crate) fn header_end(text: &[u8]) -> HeaderEnd
    ensures { EndsHeader text.now result }
{
    let mut rest = text;
    let mut lines = 0;
    while !rest.is_empty() {
        let (line, behind) = split_line(rest);
        lines += 1;
        rest = behind;
        if is_start(line) {
            return HeaderEnd {
                bytes: text.len() - rest.len(),
                lines,
            };
        }
    }
    HeaderEnd {
        bytes: text.len(),
        lines,
    }
}

/// The plan that a text's header tells. `BadRecord` comes exactly where the text begins with no header.
pub(crate) fn read_plan(alloc: Global, text: &[u8], end: HeaderEnd) -> Result<WorldPlan, AuditFault>
    requires { EndsHeader text.now end }
    ensures { ReadsPlan text.now end result }
{
    match read_head(alloc, &text[..end.bytes]) {
        Ok(head) => Ok(head.plan),
        Err(ScriptFault::BadScript { line }) => Err(AuditFault::BadRecord { line }),
        Err(ScriptFault::OutOfMemory) => Err(AuditFault::OutOfMemory),
    }
}
