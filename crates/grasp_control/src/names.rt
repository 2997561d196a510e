//! The words that say what follows in a request.

ghost use Rattle.std.specs.Prelude.{◌≡◌};
ghost use Rattle.grasp_control.specs.Grammar.{request_of, await_of};

use grasp_script::{CallName, call_name};

/// The first word of a request.
#[derive(Clone, Copy)]
pub(crate) enum RequestName {
    Call(CallName),
    Await,
    State,
    Wants,
    Reads,
    Events,
    Counters,
    Version,
    Want,
    Unwant,
    Log,
    Stop,
}

/// The first word of a call that may have nothing to tell yet.
#[derive(Clone, Copy)]
pub(crate) enum AwaitName {
    Discover,
    Listen,
    Poll,
}

/// The request that this word begins.
#[tactic(auto, unfolding(crate::specs::Grammar::request_of))]
pub(crate) fn request_name(word: &[u8]) -> Option<RequestName>
    ensures { result ≡ request_of word.now }
{
    if word == b"await".as_slice() {
        Some(RequestName::Await)
    } else if word == b"state".as_slice() {
        Some(RequestName::State)
    } else if word == b"wants".as_slice() {
        Some(RequestName::Wants)
    } else if word == b"reads".as_slice() {
        Some(RequestName::Reads)
    } else if word == b"events".as_slice() {
        Some(RequestName::Events)
    } else if word == b"counters".as_slice() {
        Some(RequestName::Counters)
    } else if word == b"version".as_slice() {
        Some(RequestName::Version)
    } else if word == b"want".as_slice() {
        Some(RequestName::Want)
    } else if word == b"unwant".as_slice() {
        Some(RequestName::Unwant)
    } else if word == b"log".as_slice() {
        Some(RequestName::Log)
    } else if word == b"stop".as_slice() {
        Some(RequestName::Stop)
    } else {
        match call_name(word) {
            Some(name) => Some(RequestName::Call(name)),
            None => None,
        }
    }
}

/// The call behind `await` that this word begins.
#[tactic(auto, unfolding(crate::specs::Grammar::await_of))]
pub(crate) fn await_name(word: &[u8]) -> Option<AwaitName>
    ensures { result ≡ await_of word.now }
{
    if word == b"discover".as_slice() {
        Some(AwaitName::Discover)
    } else if word == b"listen".as_slice() {
        Some(AwaitName::Listen)
    } else if word == b"poll".as_slice() {
        Some(AwaitName::Poll)
    } else {
        None
    }
}
