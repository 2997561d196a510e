//! Laws of the reports of crashes and of questions. They say nothing at run time.

ghost use Rattle.grasp_laws_lines.specs.Reports.{CrashReportsDiffer, QuestionReportsDiffer};

/// Two questions that are answered differently are reported differently.
pub fn reports_of_questions_differ()
    ensures { QuestionReportsDiffer }
{}

/// Two crashes that leave different images are reported differently.
pub fn reports_of_crashes_differ()
    ensures { CrashReportsDiffer }
{}
