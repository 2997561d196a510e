//! Laws of sessions: of conversations, of what each end saw of them, and of tables of sessions (RFC 8990, section 2.5). No code runs here.
#![tactic(auto)]

mod laws;

pub use laws::{
    accepts_the_last, answers_say, both_agree, calls_are_in_order, calls_go_on, calls_touch_one,
    expiry_ends, first_is_request, legal_is_grammar, look_ups_say, moves_follow, moves_reach,
    next_is_heard, offers_stand, outcomes_say, requests_stay, runs_are_legal, some_talk_agrees,
    steps_bounded, steps_lower_loops, taken_in_order, transcripts_say, turns_hold, turns_say,
    unstepped_hear_none, untaken_are_fresh, views_trail,
};
