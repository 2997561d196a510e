//! The words that say what follows.

ghost use Rattle.std.specs.Prelude.{◌≡◌};
ghost use Rattle.grasp_script.specs.Grammar.{call_of, first_of, kind_of, dry_of, far_of};

use grasp_types::Kind;

/// The first word of a call.
#[derive(Clone, Copy)]
pub enum CallName {
    Asa,
    Unasa,
    Objective,
    Unobjective,
    Discover,
    Request,
    Listen,
    Unlisten,
    Step,
    Wait,
    Accept,
    Decline,
    Invalid,
    Poll,
    Synchronize,
    Offer,
    Unoffer,
    Flood,
    Floods,
    Expire,
}

/// The first word of a line, or the second one behind `hold`.
#[derive(Clone, Copy)]
pub(crate) enum FirstWord {
    Agent,
    Bytes,
    Arrive,
    Want,
    Clock,
    Cut,
    Hold,
    Api,
    Datagram,
    Drain,
    State,
    Return,
}

/// The call that this first word begins.
#[tactic(auto, unfolding(crate::specs::Grammar::call_of))]
pub fn call_name(word: &[u8]) -> Option<CallName>
    ensures { result ≡ call_of word.now }
{
    if word == b"asa".as_slice() {
        Some(CallName::Asa)
    } else if word == b"unasa".as_slice() {
        Some(CallName::Unasa)
    } else if word == b"objective".as_slice() {
        Some(CallName::Objective)
    } else if word == b"unobjective".as_slice() {
        Some(CallName::Unobjective)
    } else if word == b"discover".as_slice() {
        Some(CallName::Discover)
    } else if word == b"request".as_slice() {
        Some(CallName::Request)
    } else if word == b"listen".as_slice() {
        Some(CallName::Listen)
    } else if word == b"unlisten".as_slice() {
        Some(CallName::Unlisten)
    } else if word == b"step".as_slice() {
        Some(CallName::Step)
    } else if word == b"wait".as_slice() {
        Some(CallName::Wait)
    } else if word == b"accept".as_slice() {
        Some(CallName::Accept)
    } else if word == b"decline".as_slice() {
        Some(CallName::Decline)
    } else if word == b"invalid".as_slice() {
        Some(CallName::Invalid)
    } else if word == b"poll".as_slice() {
        Some(CallName::Poll)
    } else if word == b"synchronize".as_slice() {
        Some(CallName::Synchronize)
    } else if word == b"offer".as_slice() {
        Some(CallName::Offer)
    } else if word == b"unoffer".as_slice() {
        Some(CallName::Unoffer)
    } else if word == b"flood".as_slice() {
        Some(CallName::Flood)
    } else if word == b"floods".as_slice() {
        Some(CallName::Floods)
    } else if word == b"expire".as_slice() {
        Some(CallName::Expire)
    } else {
        None
    }
}

/// The kind of line that this word begins.
#[tactic(auto, unfolding(crate::specs::Grammar::first_of))]
pub(crate) fn first_word(word: &[u8]) -> Option<FirstWord>
    ensures { result ≡ first_of word.now }
{
    if word == b"agent".as_slice() {
        Some(FirstWord::Agent)
    } else if word == b"bytes".as_slice() {
        Some(FirstWord::Bytes)
    } else if word == b"arrive".as_slice() {
        Some(FirstWord::Arrive)
    } else if word == b"want".as_slice() {
        Some(FirstWord::Want)
    } else if word == b"clock".as_slice() {
        Some(FirstWord::Clock)
    } else if word == b"cut".as_slice() {
        Some(FirstWord::Cut)
    } else if word == b"hold".as_slice() {
        Some(FirstWord::Hold)
    } else if word == b"api".as_slice() {
        Some(FirstWord::Api)
    } else if word == b"datagram".as_slice() {
        Some(FirstWord::Datagram)
    } else if word == b"drain".as_slice() {
        Some(FirstWord::Drain)
    } else if word == b"state".as_slice() {
        Some(FirstWord::State)
    } else if word == b"return".as_slice() {
        Some(FirstWord::Return)
    } else {
        None
    }
}

/// What an objective is searched for.
#[tactic(auto, unfolding(crate::specs::Grammar::kind_of))]
pub(crate) fn kind(word: &[u8]) -> Option<Kind>
    ensures { result ≡ kind_of word.now }
{
    if word == b"neg".as_slice() {
        Some(Kind::Negotiation)
    } else if word == b"syn".as_slice() {
        Some(Kind::Synchronization)
    } else {
        None
    }
}

/// Whether a request is a dry run.
#[tactic(auto, unfolding(crate::specs::Grammar::dry_of))]
pub(crate) fn dry(word: &[u8]) -> Option<bool>
    ensures { result ≡ dry_of word.now }
{
    if word == b"dry".as_slice() {
        Some(true)
    } else if word == b"wet".as_slice() {
        Some(false)
    } else {
        None
    }
}

/// Whether a side of a stream is that of the node which was dialled.
#[tactic(auto, unfolding(crate::specs::Grammar::far_of))]
pub(crate) fn far(word: &[u8]) -> Option<bool>
    ensures { result ≡ far_of word.now }
{
    if word == b"far".as_slice() {
        Some(true)
    } else if word == b"near".as_slice() {
        Some(false)
    } else {
        None
    }
}
