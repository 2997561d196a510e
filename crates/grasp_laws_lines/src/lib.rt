//! Laws of the lines of scripts with crashes and with doubters: what each can mean has one line, and its reports tell apart what they
//! tell. No code runs here.
#![tactic(auto)]

mod line_laws;
mod report_laws;

pub use line_laws::{each_crash_has_one_line, each_doubt_act_has_one_line};
pub use report_laws::{reports_of_crashes_differ, reports_of_questions_differ};
