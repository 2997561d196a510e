//! Visitors of a node that serves: each line that one writes is one step of the node at most, and has its answer.
#![tactic(auto)]

mod answer;
mod asking;
mod calling;
mod desk_visits;
mod events;
mod house;
mod orders;
mod serving;
mod telling;
mod tending;
mod visit;
mod words;

pub use answer::Answer;
pub use calling::is_starved;
pub use desk_visits::take_visits;
pub use events::add_event;
pub use house::House;
pub use telling::tell_all;
pub use tending::tend_all;
