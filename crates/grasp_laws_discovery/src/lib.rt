//! Laws of discovered locators in a network: each one that a node tells, caches or finds was answered by the node whose
//! locator it is. No code runs here.
#![tactic(auto)]

mod laws;

pub use laws::{
    answers_are_real, cached_locators_are_real, found_locators_are_real, noted_answers_are_own,
    responses_are_real, responses_have_sources,
};
