//! Scripts of whole networks, and reports, as text.
//!
//! A script is lines. Its header says which nodes there are, what they hold and how they are linked; each line behind it
//! is an event, or shows a node's state. A report is an event's line, ` = `, and what the event came to.
#![tactic(auto)]

mod acts;
mod called;
mod calls;
mod fault;
mod fits;
mod header;
mod laws;
mod line;
mod names;
mod nodes;
mod opening;
mod places;
mod replies;
mod reports;
mod script;
mod split;
mod states;

pub use acts::{are_lengths, read_line};
pub use called::{may_make, read_call, read_call_name, read_called, read_reason};
pub use calls::push_call;
pub use fault::ScriptFault;
pub use header::HeaderLine;
pub use laws::{
    each_act_has_one_line, lines_mean_one_thing, scripts_have_no_bad_line, texts_have_one_bad_line,
    texts_have_one_script,
};
pub use line::{Line, LineAct, Lines};
pub use names::{CallName, call_name};
pub use places::{read_dry, read_handle, read_node, read_prefix};
pub use replies::{push_api_answer, push_count, push_flood_reads, push_refusal, push_reply};
pub use reports::{push_return, push_want, told_report};
pub use script::{Head, Script, parse_script, read_head};
pub use states::{push_pool, told_state};
