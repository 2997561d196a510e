//! Laws of why a node refuses an agent's call: each refusal has its cause, and without a cause no call is refused. No code runs
//! here.
#![tactic(auto)]

mod refusal_laws;

pub use refusal_laws::refusals_have_causes;
