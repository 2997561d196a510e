//! Whether a prefix in doubt was ever accepted: the agent that asks its requester, and answers whoever asks it.
#![tactic(auto)]

mod answers;
mod asking;
mod doubter;
mod duty;
mod prefixes;
mod question;
mod seen;

pub use asking::{Ask, AskFault};
pub use doubter::Doubter;
pub use duty::{DoubtAct, DoubtDuty};
pub use question::{Question, agent_name, objective_name};
pub use seen::{Opener, Sent};
