//! Laws of registries, sessions, floods and discoveries as tables. No code runs here.
#![tactic(auto)]

mod discoveries;
mod floods;
mod refusals;
mod registrations;
mod registry_laws;
mod searches;
mod synchronizations;

pub use discoveries::{
    answers_are_cached, discoveries_are_known, known_is_live, locators_end_in_time,
    memories_are_of_discoveries,
};
pub use floods::{drops_take_one, flood_ends_are_later, floods_are_known, known_floods_renew};
pub use refusals::{readings_are_sums, refusals_differ};
pub use registrations::{look_ups_are_registered, names_are_registered, registries_are_left};
pub use registry_laws::{
    numbers_are_new, others_leave_an_objective, refusals_are_least, registry_is_kept,
    taken_stays_taken,
};
pub use searches::{askers_asked, finds_say, searches_end};
pub use synchronizations::{requesters_wait, synchronized_outcomes_came, synchs_are_heard};
