//! The lines of the control protocol: what a visitor asks of a running node, what it is answered, and what it is told of events.
//!
//! A line is words with one blank between two. A request means one thing at most, and what it means has no other line. A
//! visitor is answered its line, ` = `, and the words of the answer.
#![tactic(auto)]

mod answers;
mod asking;
mod calls;
mod events;
mod laws;
mod names;
mod orders;
mod reading;
mod request;

pub use answers::{PlainAnswer, goes_on, push_echo, push_plain, push_read, push_version};
pub use asking::push_request;
pub use calls::push_control_call;
pub use events::{NodeEvent, push_event, push_read_event, push_want_event};
pub use laws::{requests_go_wrong_once, requests_mean_one_thing};
pub use orders::{Order, Standing, push_order};
pub use reading::read_request;
pub use request::{Request, RequestFault};
