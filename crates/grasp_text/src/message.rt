//! Reading the line of a message.

ghost use Rattle.std.specs.Prelude.{◌≡◌, IfOk};
ghost use Rattle.grasp_types.specs.declared.message.Message.{Message};
ghost use Rattle.grasp_text.specs.Laws.{LinesHaveOneMessage, LinesAreTheirWords, LinesArePrintable, LinesHaveOnePlace, LinesAreMessagesOrBad};
ghost use Rattle.grasp_text.specs.Laws.{NumbersAreTaken, TextsAreTaken, ValuesAreTaken, OptionalValuesAreTaken, AddressesAreTaken, NumbersAreRead};
ghost use Rattle.grasp_text.specs.Laws.{TextsAreRead, ValuesAreRead, AddressesAreRead, ObjectivesAreRead, LocatorsAreRead, OptionalLocatorsAreRead};
ghost use Rattle.grasp_text.specs.Line.{IsLineOf, IsNoLine};
ghost use Rattle.grasp_text.specs.Place.{IsPlace, IfBadText};
ghost use Rattle.grasp_text.specs.Grammar.{message_at, named_at, discovery_at, response_at, objective_of_session_at, end_message_at, wait_at};
ghost use Rattle.grasp_text.specs.Grammar.{flood_at, invalid_at, reason_at, verdict_at, are_locators, is_accept, name_of};
ghost use Rattle.grasp_text.specs.Reading.{Reads, word_at, end_at};

use crate::fault::{TextFault, WordFault};
use crate::lists::{read_answers, read_flood_parts};
use crate::names::{MessageName, accepts, message_name, tells_locators};
use crate::parts::read_objective;
use crate::words::Words;
use grasp_cbor::Chars;
use grasp_types::{Answer, Message, Objective, Verdict};
use std::alloc::Global;

/// The message whose line this is.
///
/// `BadText` comes exactly where no message has the line. Its place is that of the first byte of the first
/// word with which, after the words before it, no message's line begins, or the line's length where a word
/// is missing.
pub fn message_of(alloc: Global, line: &[u8]) -> Result<Message, TextFault>
    ensures found { IfOk result (λ m. IsLineOf line.now m) }
    ensures only { (message : Message) → IsLineOf line.now message → IfOk result (λ m. m ≡ message) }
    ensures none { IfBadText result (λ at. IsNoLine line.now) }
    ensures place { IfBadText result (λ at. IsPlace line.now at) }
{
    let mut words = Words::of(line);
    match read_message(alloc, &mut words) {
        Ok(message) => Ok(message),
        Err(WordFault::Unfit { left }) => {
            let at = line.len() as u64 - left;
            Err(TextFault::BadText { at })
        }
        Err(WordFault::OutOfMemory) => Err(TextFault::OutOfMemory),
    }
}

/// A line has at most one message.
pub fn lines_have_one_message()
    ensures { LinesHaveOneMessage }
{}

/// The words of a message's line are the message's words.
#[tactic(auto, using(crate::proofs::Blanks::line_words))]
pub fn lines_are_their_words()
    ensures { LinesAreTheirWords }
{}

/// A message's line is made of printable characters of ASCII alone.
#[tactic(auto, using(crate::proofs::Blanks::lines_printable))]
pub fn lines_are_printable()
    ensures { LinesArePrintable }
{}

/// A line goes wrong at one place at most.
pub fn lines_have_one_place()
    ensures { LinesHaveOnePlace }
{}

/// Every line is a message's, or goes wrong at exactly one place.
#[tactic(auto, using(crate::proofs::Places::line_or_bad))]
pub fn lines_are_messages_or_bad()
    ensures { LinesAreMessagesOrBad }
{}

/// A word that is written is taken from the front of words as what it was written for, another isn't; and where one
/// isn't taken, so many bytes are left from it on.
pub fn words_are_taken()
    ensures numbers { NumbersAreTaken }
    ensures texts { TextsAreTaken }
    ensures values { ValuesAreTaken }
    ensures optional_values { OptionalValuesAreTaken }
    ensures addresses { AddressesAreTaken }
{}

/// The words that are written are read as what they were written for, and no others are.
pub fn words_are_read()
    ensures numbers { NumbersAreRead }
    ensures texts { TextsAreRead }
    ensures values { ValuesAreRead }
    ensures addresses { AddressesAreRead }
    ensures objectives { ObjectivesAreRead }
    ensures locators { LocatorsAreRead }
    ensures optional_locators { OptionalLocatorsAreRead }
{}

/// Takes a message, to the end of the line.
#[tactic(auto, unfolding(crate::specs::Grammar::message_at))]
pub(crate) fn read_message(alloc: Global, words: &mut Words<'_>) -> Result<Message, WordFault>
    ensures { Reads (λ m. m) result words.new (message_at words.old) }
{
    let name = read_name(words)?;
    read_named(alloc, words, name)
}

fn read_name(words: &mut Words<'_>) -> Result<MessageName, WordFault>
    ensures { Reads (λ n. n) result words.new (word_at name_of words.old) }
{
    let (word, unfit) = words.next()?;
    message_name(word).ok_or(unfit)
}

/// Takes what stands behind a message's name.
fn read_named(alloc: Global, words: &mut Words<'_>, name: MessageName) -> Result<Message, WordFault>
    ensures { Reads (λ m. m) result words.new (named_at name words.old) }
{
    match name {
        MessageName::Noop => {
            words.end()?;
            Ok(Message::Noop)
        }
        MessageName::Discovery => read_discovery(alloc, words),
        MessageName::Response => read_response(alloc, words),
        MessageName::RequestNegotiation => {
            let (session, objective) = read_objective_of_session(alloc, words)?;
            Ok(Message::ReqNeg { session, objective })
        }
        MessageName::RequestSynchronization => {
            let (session, objective) = read_objective_of_session(alloc, words)?;
            Ok(Message::ReqSyn { session, objective })
        }
        MessageName::Negotiate => {
            let (session, objective) = read_objective_of_session(alloc, words)?;
            Ok(Message::Negotiate { session, objective })
        }
        MessageName::End => read_end(alloc, words),
        MessageName::Wait => read_wait(words),
        MessageName::Synch => {
            let (session, objective) = read_objective_of_session(alloc, words)?;
            Ok(Message::Synch { session, objective })
        }
        MessageName::Flood => read_flood(alloc, words),
        MessageName::Invalid => read_invalid(alloc, words),
    }
}

#[tactic(auto, unfolding(crate::specs::Grammar::discovery_at))]
fn read_discovery(alloc: Global, words: &mut Words<'_>) -> Result<Message, WordFault>
    ensures { Reads (λ m. m) result words.new (discovery_at words.old) }
{
    let session = words.u32()?;
    let initiator = words.address()?;
    let objective = read_objective(alloc, words)?;
    words.end()?;
    Ok(Message::Discovery {
        session,
        initiator,
        objective,
    })
}

#[tactic(auto, unfolding(crate::specs::Grammar::response_at))]
fn read_response(alloc: Global, words: &mut Words<'_>) -> Result<Message, WordFault>
    ensures { Reads (λ m. m) result words.new (response_at words.old) }
{
    let session = words.u32()?;
    let initiator = words.address()?;
    let ttl = words.u32()?;
    let are_locators = read_tells_locators(words)?;
    let (locators, objective) = read_answers(alloc, words)?;
    let answer = if are_locators {
        Answer::Locators(locators)
    } else {
        Answer::Divert(locators)
    };
    Ok(Message::Response {
        session,
        initiator,
        ttl,
        answer,
        objective,
    })
}

fn read_tells_locators(words: &mut Words<'_>) -> Result<bool, WordFault>
    ensures { Reads (λ b. b) result words.new (word_at are_locators words.old) }
{
    let (word, unfit) = words.next()?;
    tells_locators(word).ok_or(unfit)
}

/// Takes a session and an objective, to the end of the line.
#[tactic(auto, unfolding(crate::specs::Grammar::objective_of_session_at))]
fn read_objective_of_session(
    alloc: Global,
    words: &mut Words<'_>,
) -> Result<(u32, Objective), WordFault>
    ensures { Reads (λ x. x) result words.new (objective_of_session_at words.old) }
{
    let session = words.u32()?;
    let objective = read_objective(alloc, words)?;
    words.end()?;
    Ok((session, objective))
}

#[tactic(auto, unfolding(crate::specs::Grammar::end_message_at))]
fn read_end(alloc: Global, words: &mut Words<'_>) -> Result<Message, WordFault>
    ensures { Reads (λ m. m) result words.new (end_message_at words.old) }
{
    let session = words.u32()?;
    let accept = read_accepts(words)?;
    let verdict = read_verdict(alloc, words, accept)?;
    Ok(Message::End { session, verdict })
}

fn read_accepts(words: &mut Words<'_>) -> Result<bool, WordFault>
    ensures { Reads (λ b. b) result words.new (word_at is_accept words.old) }
{
    let (word, unfit) = words.next()?;
    accepts(word).ok_or(unfit)
}

/// Takes what stands behind `accept` or `decline`.
fn read_verdict(alloc: Global, words: &mut Words<'_>, accept: bool) -> Result<Verdict, WordFault>
    ensures { Reads (λ v. v) result words.new (verdict_at accept words.old) }
{
    if accept {
        words.end()?;
        Ok(Verdict::Accept)
    } else {
        Ok(Verdict::Decline(read_reason(alloc, words)?))
    }
}

/// Takes a reason, where there is one.
fn read_reason(alloc: Global, words: &mut Words<'_>) -> Result<Option<Chars>, WordFault>
    ensures { Reads (λ r. r) result words.new (reason_at words.old) }
{
    if words.is_over() {
        return Ok(None);
    }
    let reason = words.text(alloc)?;
    words.end()?;
    Ok(Some(reason))
}

#[tactic(auto, unfolding(crate::specs::Grammar::wait_at))]
fn read_wait(words: &mut Words<'_>) -> Result<Message, WordFault>
    ensures { Reads (λ m. m) result words.new (wait_at words.old) }
{
    let session = words.u32()?;
    let millis = words.u32()?;
    words.end()?;
    Ok(Message::Wait { session, millis })
}

#[tactic(auto, unfolding(crate::specs::Grammar::flood_at))]
fn read_flood(alloc: Global, words: &mut Words<'_>) -> Result<Message, WordFault>
    ensures { Reads (λ m. m) result words.new (flood_at words.old) }
{
    let session = words.u32()?;
    let initiator = words.address()?;
    let ttl = words.u32()?;
    let parts = read_flood_parts(alloc, words)?;
    Ok(Message::Flood {
        session,
        initiator,
        ttl,
        parts,
    })
}

#[tactic(auto, unfolding(crate::specs::Grammar::invalid_at))]
fn read_invalid(alloc: Global, words: &mut Words<'_>) -> Result<Message, WordFault>
    ensures { Reads (λ m. m) result words.new (invalid_at words.old) }
{
    let session = words.u32()?;
    let detail = words.optional_value(alloc)?;
    words.end()?;
    Ok(Message::Invalid { session, detail })
}
