//! The data types that two or more crates of the node speak of: messages, calls, inputs and answers.
//!
//! Contracts see each of them as plain data: numbers, lists, records and cases, which `≡` compares. Lists are `List` and
//! `NonEmpty`. Each type is `Plain`: its `copy` is, as contracts see it, the same value.
#![tactic(auto)]

mod address;
mod call;
mod flood;
mod laws;
mod links;
mod list;
mod message;
mod non_empty;
mod objective;
mod origin;
mod plain;
mod prefix;
mod reading;
mod refusal;
mod reply;
mod session;
mod threads;
mod traffic;
mod value;

pub use address::{Address, Locator, Locators, Proto, ipv4_of_bytes, ipv6_of_bytes};
pub use call::Call;
pub use flood::{FloodPart, FloodParts, FloodRead, FloodReads};
pub use laws::equal_is_same;
pub use links::{LinkLists, Neighbour, Neighbours};
pub use list::List;
pub use message::{Answer, Message, Verdict, messages_nest_sixteen_deep, one_message_an_item};
pub use non_empty::NonEmpty;
pub use objective::{Flags, Objective};
pub use origin::Origin;
pub use plain::Plain;
pub use prefix::Prefix;
pub use reading::reading_after;
pub use refusal::ApiRefused;
pub use reply::{ApiAnswer, Reply};
pub use session::{By, Handle, Kind, Outcome, Progress};
pub use threads::types_may_cross;
pub use traffic::{Input, Output, Outputs};
pub use value::Value;
