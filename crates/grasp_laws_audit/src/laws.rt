//! Laws of records of runs. They say nothing at run time.

ghost use Rattle.grasp_laws_audit.specs.Laws.{AuditedRunsAreSafe, AuditsAgree};
ghost use Rattle.grasp_laws_audit.specs.Recorded.{RecordLinesHold};
ghost use Rattle.grasp_laws_audit.specs.Telling.{HeldLinesTell};
ghost use Rattle.grasp_laws_audit.specs.Written.{RecordsAreAudited};

use grasp_laws_delivery::{steps_are_present, streams_are_ready};
use grasp_model_script::each_network_is_safe;
use grasp_record::{each_record_has_one_line, record_lines_mean_one_thing};
use grasp_wire::one_message_for_bytes;

/// The events of lines that hold are a run, and each network of it is safe.
pub fn audited_runs_are_safe()
    ensures { AuditedRunsAreSafe }
{
    each_network_is_safe();
}

/// A text has one verdict: it is the record of one run, or it has one first line that fails, and one first cause.
pub fn audits_agree()
    ensures { AuditsAgree }
{
    record_lines_mean_one_thing();
}

/// However the lines of a script come out, what is recorded of them holds and leads to the same network, where it is within the
/// ranges of a record.
pub fn record_lines_hold()
    ensures { RecordLinesHold }
{
    each_network_is_safe();
    each_record_has_one_line();
    one_message_for_bytes();
    steps_are_present();
    streams_are_ready();
}

/// The record of a script's run is the record of a run, where its lines are within the ranges of a record.
pub fn records_are_audited()
    ensures { RecordsAreAudited }
{
    record_lines_hold();
}

/// What a line that holds tells is so: what came in, when, and which call the node's own agent made. A line that fails has the number that is told.
pub fn held_lines_tell()
    ensures { HeldLinesTell }
{}
