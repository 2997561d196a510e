//! What the words of reports tell of floods. It says nothing at run time.

ghost use Rattle.grasp_laws_reports.specs.Floods.{FloodsReportsTell};

use grasp_laws_network::replies_are_noted;

/// An event whose report tells of floods is an agent's call that is answered with them, and just these are noted as read. At no
/// other event are floods noted as read.
pub fn floods_reports_tell()
    ensures { FloodsReportsTell }
{
    replies_are_noted();
}
