//! The words that say what follows.

ghost use Rattle.std.specs.Prelude.{◌≡◌};
ghost use Rattle.grasp_record.specs.Grammar.{input_of, answer_of, outcome_of, want_of, return_of, output_of, refusal_of, by_of, taken_of};

use grasp_types::{ApiRefused, By};

/// The first word of an input.
#[derive(Clone, Copy)]
pub(crate) enum InputName {
    Api,
    Agent,
    Want,
    Return,
    Datagram,
    Opened,
    Bytes,
    Closed,
    Drain,
}

/// The first word of the answer to a call.
#[derive(Clone, Copy)]
pub(crate) enum AnswerName {
    Asa,
    Done,
    Started,
    Searching,
    Found,
    Nothing,
    NotYet,
    Incoming,
    Turn,
    Ended,
    Floods,
    Refused,
}

/// The word behind `ended`.
#[derive(Clone, Copy)]
pub(crate) enum OutcomeName {
    Agreed,
    Declined,
    Synchronized,
    TimedOut,
    Broken,
    Invalid,
}

/// The first word of the answer to a want.
#[derive(Clone, Copy)]
pub(crate) enum WantName {
    Fine,
    Busy,
    Full,
}

/// The first word of the answer to a return.
#[derive(Clone, Copy)]
pub(crate) enum ReturnName {
    Fine,
    Busy,
    NotFree,
    Full,
}

/// The first word of an output.
#[derive(Clone, Copy)]
pub(crate) enum OutputName {
    Datagram,
    Dial,
    Send,
    Close,
}

/// The input that this word begins.
#[tactic(auto, unfolding(crate::specs::Grammar::input_of))]
pub(crate) fn input_name(word: &[u8]) -> Option<InputName>
    ensures { result ≡ input_of word.now }
{
    if word == b"api".as_slice() {
        Some(InputName::Api)
    } else if word == b"agent".as_slice() {
        Some(InputName::Agent)
    } else if word == b"want".as_slice() {
        Some(InputName::Want)
    } else if word == b"return".as_slice() {
        Some(InputName::Return)
    } else if word == b"datagram".as_slice() {
        Some(InputName::Datagram)
    } else if word == b"opened".as_slice() {
        Some(InputName::Opened)
    } else if word == b"bytes".as_slice() {
        Some(InputName::Bytes)
    } else if word == b"closed".as_slice() {
        Some(InputName::Closed)
    } else if word == b"drain".as_slice() {
        Some(InputName::Drain)
    } else {
        None
    }
}

/// The answer to a call that this word begins.
#[tactic(auto, unfolding(crate::specs::Grammar::answer_of))]
pub(crate) fn answer_name(word: &[u8]) -> Option<AnswerName>
    ensures { result ≡ answer_of word.now }
{
    if word == b"asa".as_slice() {
        Some(AnswerName::Asa)
    } else if word == b"done".as_slice() {
        Some(AnswerName::Done)
    } else if word == b"started".as_slice() {
        Some(AnswerName::Started)
    } else if word == b"searching".as_slice() {
        Some(AnswerName::Searching)
    } else if word == b"found".as_slice() {
        Some(AnswerName::Found)
    } else if word == b"nothing".as_slice() {
        Some(AnswerName::Nothing)
    } else if word == b"notyet".as_slice() {
        Some(AnswerName::NotYet)
    } else if word == b"incoming".as_slice() {
        Some(AnswerName::Incoming)
    } else if word == b"turn".as_slice() {
        Some(AnswerName::Turn)
    } else if word == b"ended".as_slice() {
        Some(AnswerName::Ended)
    } else if word == b"floods".as_slice() {
        Some(AnswerName::Floods)
    } else if word == b"refused".as_slice() {
        Some(AnswerName::Refused)
    } else {
        None
    }
}

/// How a session ended, by the word behind `ended`.
#[tactic(auto, unfolding(crate::specs::Grammar::outcome_of))]
pub(crate) fn outcome_name(word: &[u8]) -> Option<OutcomeName>
    ensures { result ≡ outcome_of word.now }
{
    if word == b"agreed".as_slice() {
        Some(OutcomeName::Agreed)
    } else if word == b"declined".as_slice() {
        Some(OutcomeName::Declined)
    } else if word == b"synchronized".as_slice() {
        Some(OutcomeName::Synchronized)
    } else if word == b"timedout".as_slice() {
        Some(OutcomeName::TimedOut)
    } else if word == b"broken".as_slice() {
        Some(OutcomeName::Broken)
    } else if word == b"invalid".as_slice() {
        Some(OutcomeName::Invalid)
    } else {
        None
    }
}

/// The answer to a want that this word begins.
#[tactic(auto, unfolding(crate::specs::Grammar::want_of))]
pub(crate) fn want_name(word: &[u8]) -> Option<WantName>
    ensures { result ≡ want_of word.now }
{
    if word == b"ok".as_slice() {
        Some(WantName::Fine)
    } else if word == b"busy".as_slice() {
        Some(WantName::Busy)
    } else if word == b"full".as_slice() {
        Some(WantName::Full)
    } else {
        None
    }
}

/// The answer to a return that this word begins.
#[tactic(auto, unfolding(crate::specs::Grammar::return_of))]
pub(crate) fn return_name(word: &[u8]) -> Option<ReturnName>
    ensures { result ≡ return_of word.now }
{
    if word == b"ok".as_slice() {
        Some(ReturnName::Fine)
    } else if word == b"busy".as_slice() {
        Some(ReturnName::Busy)
    } else if word == b"notfree".as_slice() {
        Some(ReturnName::NotFree)
    } else if word == b"full".as_slice() {
        Some(ReturnName::Full)
    } else {
        None
    }
}

/// The output that this word begins.
#[tactic(auto, unfolding(crate::specs::Grammar::output_of))]
pub(crate) fn output_name(word: &[u8]) -> Option<OutputName>
    ensures { result ≡ output_of word.now }
{
    if word == b"datagram".as_slice() {
        Some(OutputName::Datagram)
    } else if word == b"dial".as_slice() {
        Some(OutputName::Dial)
    } else if word == b"send".as_slice() {
        Some(OutputName::Send)
    } else if word == b"close".as_slice() {
        Some(OutputName::Close)
    } else {
        None
    }
}

/// The refusal of this name, but for that of want of memory.
#[tactic(auto, unfolding(crate::specs::Grammar::refusal_of))]
pub(crate) fn refusal(word: &[u8]) -> Option<ApiRefused>
    ensures { result ≡ refusal_of word.now }
{
    if word == b"NoAsa".as_slice() {
        Some(ApiRefused::NoAsa)
    } else if word == b"AsasFull".as_slice() {
        Some(ApiRefused::AsasFull)
    } else if word == b"DuplicateAsa".as_slice() {
        Some(ApiRefused::DuplicateAsa)
    } else if word == b"NotBoth".as_slice() {
        Some(ApiRefused::NotBoth)
    } else if word == b"ObjectivesFull".as_slice() {
        Some(ApiRefused::ObjectivesFull)
    } else if word == b"ObjectiveTaken".as_slice() {
        Some(ApiRefused::ObjectiveTaken)
    } else if word == b"NotYourObjective".as_slice() {
        Some(ApiRefused::NotYourObjective)
    } else if word == b"NotNegotiable".as_slice() {
        Some(ApiRefused::NotNegotiable)
    } else if word == b"NotSynchronizable".as_slice() {
        Some(ApiRefused::NotSynchronizable)
    } else if word == b"NotDry".as_slice() {
        Some(ApiRefused::NotDry)
    } else if word == b"BadLocator".as_slice() {
        Some(ApiRefused::BadLocator)
    } else if word == b"NoSession".as_slice() {
        Some(ApiRefused::NoSession)
    } else if word == b"NotYourTurn".as_slice() {
        Some(ApiRefused::NotYourTurn)
    } else if word == b"LoopsSpent".as_slice() {
        Some(ApiRefused::LoopsSpent)
    } else if word == b"WaitsSpent".as_slice() {
        Some(ApiRefused::WaitsSpent)
    } else if word == b"NoFlood".as_slice() {
        Some(ApiRefused::NoFlood)
    } else if word == b"SessionsFull".as_slice() {
        Some(ApiRefused::SessionsFull)
    } else if word == b"StreamsFull".as_slice() {
        Some(ApiRefused::StreamsFull)
    } else if word == b"TooLong".as_slice() {
        Some(ApiRefused::TooLong)
    } else if word == b"OutboxFull".as_slice() {
        Some(ApiRefused::OutboxFull)
    } else {
        None
    }
}

/// Whose doing it was.
#[tactic(auto, unfolding(crate::specs::Grammar::by_of))]
pub(crate) fn by(word: &[u8]) -> Option<By>
    ensures { result ≡ by_of word.now }
{
    if word == b"mine".as_slice() {
        Some(By::Mine)
    } else if word == b"theirs".as_slice() {
        Some(By::Theirs)
    } else {
        None
    }
}

/// Whether what a stream brought was taken, or the stream turned away.
#[tactic(auto, unfolding(crate::specs::Grammar::taken_of))]
pub(crate) fn taken(word: &[u8]) -> Option<bool>
    ensures { result ≡ taken_of word.now }
{
    if word == b"taken".as_slice() {
        Some(true)
    } else if word == b"turned".as_slice() {
        Some(false)
    } else {
        None
    }
}
