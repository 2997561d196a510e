//! Sessions of GRASP: negotiations and synchronizations as functions of what each end saw (RFC 8990, section 2.5).
#![tactic(auto)]

mod answer;
mod begin;
mod places;
mod session;
mod table;
mod table_laws;
mod threads;
mod wanted;

pub use answer::{Act, Received, SessionRefused};
pub use begin::Begin;
pub use table::Table;
pub use table_laws::{messages_are_made, tables_answer_so};
pub use threads::table_may_cross;
