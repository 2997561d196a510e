//! Reading what a node answered to a call, a want or a return.

ghost use Rattle.std.specs.Prelude.{◌≡◌, []};
ghost use Rattle.grasp_text.specs.Reading.{Reads, word_at};
ghost use Rattle.grasp_record.specs.Grammar.{answer_of, want_of, return_of, refusal_of, asa_at, started_at, found_at, not_yet, incoming_at, turn_at, flood_read_at, each_at, refused_at, answered_at, of_call_at, busy_at, wanted_at, of_want_at, busy_return_at, returned_at, of_return_at};

use crate::line::RecordAnswer;
use crate::names::{
    AnswerName, ReturnName, WantName, answer_name, refusal, return_name, want_name,
};
use crate::outcomes::read_ended;
use grasp_agent::{ReturnFault, WantFault};
use grasp_script::{read_handle, read_prefix};
use grasp_text::{WordFault, Words, read_locator, read_objective, read_optional_locator};
use grasp_types::{ApiAnswer, ApiRefused, FloodRead, FloodReads, Locators, Progress};
use std::alloc::Global;

/// Takes the answer to a call, which was a poll or not, to the end of the line.
#[tactic(auto, unfolding(crate::specs::Grammar::of_call_at))]
pub(crate) fn read_of_call(
    alloc: Global,
    words: &mut Words<'_>,
    polled: bool,
) -> Result<RecordAnswer, WordFault>
    ensures { Reads (λ a. a) result words.new (of_call_at polled words.old) }
{
    let name = read_answer_name(words)?;
    read_answered(alloc, words, name, polled)
}

fn read_answer_name(words: &mut Words<'_>) -> Result<AnswerName, WordFault>
    ensures { Reads (λ n. n) result words.new (word_at answer_of words.old) }
{
    let (word, unfit) = words.next()?;
    answer_name(word).ok_or(unfit)
}

/// Takes what stands behind the first word of the answer to a call.
fn read_answered(
    alloc: Global,
    words: &mut Words<'_>,
    name: AnswerName,
    polled: bool,
) -> Result<RecordAnswer, WordFault>
    ensures { Reads (λ a. a) result words.new (answered_at polled name words.old) }
{
    match name {
        AnswerName::Asa => Ok(RecordAnswer::Api(read_asa(words)?)),
        AnswerName::Done => {
            words.end()?;
            Ok(RecordAnswer::Api(ApiAnswer::Done))
        }
        AnswerName::Started => Ok(RecordAnswer::Api(read_started(words)?)),
        AnswerName::Searching => {
            words.end()?;
            Ok(RecordAnswer::Api(ApiAnswer::Searching))
        }
        AnswerName::Found => Ok(RecordAnswer::Api(read_found(alloc, words)?)),
        AnswerName::Nothing => {
            words.end()?;
            Ok(RecordAnswer::Api(ApiAnswer::Nothing))
        }
        AnswerName::NotYet => {
            words.end()?;
            Ok(RecordAnswer::Api(not_yet(polled)))
        }
        AnswerName::Incoming => Ok(RecordAnswer::Api(read_incoming(alloc, words)?)),
        AnswerName::Turn => Ok(RecordAnswer::Api(read_turn(alloc, words)?)),
        AnswerName::Ended => Ok(RecordAnswer::Api(read_ended(alloc, words)?)),
        AnswerName::Floods => Ok(RecordAnswer::Api(ApiAnswer::Floods(read_floods(alloc, words)?))),
        AnswerName::Refused => read_refused(words),
    }
}

/// What `notyet` answers to a poll, and to another call.
fn not_yet(polled: bool) -> ApiAnswer
    ensures { result ≡ not_yet polled }
{
    if polled {
        ApiAnswer::Polled(Progress::NotYet)
    } else {
        ApiAnswer::NotYet
    }
}

#[tactic(auto, unfolding(crate::specs::Grammar::asa_at))]
fn read_asa(words: &mut Words<'_>) -> Result<ApiAnswer, WordFault>
    ensures { Reads (λ a. a) result words.new (asa_at words.old) }
{
    let number = words.u32()?;
    words.end()?;
    Ok(ApiAnswer::Asa(number))
}

#[tactic(auto, unfolding(crate::specs::Grammar::started_at))]
fn read_started(words: &mut Words<'_>) -> Result<ApiAnswer, WordFault>
    ensures { Reads (λ a. a) result words.new (started_at words.old) }
{
    let handle = read_handle(words)?;
    words.end()?;
    Ok(ApiAnswer::Started(handle))
}

/// Takes one or more locators, to the end of the line.
#[tactic(auto, unfolding(crate::specs::Grammar::found_at))]
fn read_found(alloc: Global, words: &mut Words<'_>) -> Result<ApiAnswer, WordFault>
    ensures { Reads (λ a. a) result words.new (found_at words.old) }
{
    let first = read_locator(alloc, words)?;
    let mut locators = Locators::of(alloc, first)?;
    while !words.is_over() {
        let next = read_locator(alloc, words)?;
        locators.push(next)?;
    }
    Ok(ApiAnswer::Found(locators))
}

#[tactic(auto, unfolding(crate::specs::Grammar::incoming_at))]
fn read_incoming(alloc: Global, words: &mut Words<'_>) -> Result<ApiAnswer, WordFault>
    ensures { Reads (λ a. a) result words.new (incoming_at words.old) }
{
    let handle = read_handle(words)?;
    let from = words.address()?;
    let objective = read_objective(alloc, words)?;
    words.end()?;
    Ok(ApiAnswer::Incoming {
        handle,
        from,
        objective,
    })
}

#[tactic(auto, unfolding(crate::specs::Grammar::turn_at))]
fn read_turn(alloc: Global, words: &mut Words<'_>) -> Result<ApiAnswer, WordFault>
    ensures { Reads (λ a. a) result words.new (turn_at words.old) }
{
    let objective = read_objective(alloc, words)?;
    words.end()?;
    Ok(ApiAnswer::Polled(Progress::Turn(objective)))
}

/// Takes what one flood told.
#[tactic(auto, unfolding(crate::specs::Grammar::flood_read_at))]
fn read_flood_read(alloc: Global, words: &mut Words<'_>) -> Result<FloodRead, WordFault>
    ensures { Reads (λ r. r) result words.new (flood_read_at words.old) }
{
    let initiator = words.address()?;
    let objective = read_objective(alloc, words)?;
    let locator = read_optional_locator(alloc, words)?;
    Ok(FloodRead {
        initiator,
        objective,
        locator,
    })
}

/// Takes what floods told, to the end of the line.
fn read_floods(alloc: Global, words: &mut Words<'_>) -> Result<FloodReads, WordFault>
    ensures { Reads (λ r. r) result words.new (each_at flood_read_at [] words.old) }
{
    let mut reads = FloodReads::new(alloc);
    while !words.is_over() {
        let next = read_flood_read(alloc, words)?;
        reads.push(next)?;
    }
    Ok(reads)
}

fn read_refusal(words: &mut Words<'_>) -> Result<ApiRefused, WordFault>
    ensures { Reads (λ r. r) result words.new (word_at refusal_of words.old) }
{
    let (word, unfit) = words.next()?;
    refusal(word).ok_or(unfit)
}

#[tactic(auto, unfolding(crate::specs::Grammar::refused_at))]
fn read_refused(words: &mut Words<'_>) -> Result<RecordAnswer, WordFault>
    ensures { Reads (λ a. a) result words.new (refused_at words.old) }
{
    let number = words.number(255)? as u8;
    let refusal = read_refusal(words)?;
    if number != refusal.number() {
        return Err(WordFault::Unfit { left: 0 });
    }
    words.end()?;
    Ok(RecordAnswer::Refused(refusal))
}

/// Takes the answer to a want, to the end of the line.
#[tactic(auto, unfolding(crate::specs::Grammar::of_want_at))]
pub(crate) fn read_of_want(words: &mut Words<'_>) -> Result<RecordAnswer, WordFault>
    ensures { Reads (λ a. a) result words.new (of_want_at words.old) }
{
    let name = read_want_name(words)?;
    read_wanted(words, name)
}

fn read_want_name(words: &mut Words<'_>) -> Result<WantName, WordFault>
    ensures { Reads (λ n. n) result words.new (word_at want_of words.old) }
{
    let (word, unfit) = words.next()?;
    want_name(word).ok_or(unfit)
}

/// Takes what stands behind the first word of the answer to a want.
fn read_wanted(words: &mut Words<'_>, name: WantName) -> Result<RecordAnswer, WordFault>
    ensures { Reads (λ a. a) result words.new (wanted_at name words.old) }
{
    match name {
        WantName::Fine => {
            words.end()?;
            Ok(RecordAnswer::Want(Ok(())))
        }
        WantName::Busy => read_busy(words),
        WantName::Full => {
            words.end()?;
            Ok(RecordAnswer::Want(Err(WantFault::Full)))
        }
    }
}

#[tactic(auto, unfolding(crate::specs::Grammar::busy_at))]
fn read_busy(words: &mut Words<'_>) -> Result<RecordAnswer, WordFault>
    ensures { Reads (λ a. a) result words.new (busy_at words.old) }
{
    let length = words.number(255)? as u8;
    let longest = words.number(255)? as u8;
    words.end()?;
    Ok(RecordAnswer::Want(Err(WantFault::Busy { length, longest })))
}

/// Takes the answer to a return, to the end of the line.
#[tactic(auto, unfolding(crate::specs::Grammar::of_return_at))]
pub(crate) fn read_of_return(words: &mut Words<'_>) -> Result<RecordAnswer, WordFault>
    ensures { Reads (λ a. a) result words.new (of_return_at words.old) }
{
    let name = read_return_name(words)?;
    read_returned(words, name)
}

fn read_return_name(words: &mut Words<'_>) -> Result<ReturnName, WordFault>
    ensures { Reads (λ n. n) result words.new (word_at return_of words.old) }
{
    let (word, unfit) = words.next()?;
    return_name(word).ok_or(unfit)
}

/// Takes what stands behind the first word of the answer to a return.
fn read_returned(words: &mut Words<'_>, name: ReturnName) -> Result<RecordAnswer, WordFault>
    ensures { Reads (λ a. a) result words.new (returned_at name words.old) }
{
    match name {
        ReturnName::Fine => {
            words.end()?;
            Ok(RecordAnswer::Return(Ok(())))
        }
        ReturnName::Busy => read_busy_return(words),
        ReturnName::NotFree => {
            words.end()?;
            Ok(RecordAnswer::Return(Err(ReturnFault::NotFree)))
        }
        ReturnName::Full => {
            words.end()?;
            Ok(RecordAnswer::Return(Err(ReturnFault::Full)))
        }
    }
}

#[tactic(auto, unfolding(crate::specs::Grammar::busy_return_at))]
fn read_busy_return(words: &mut Words<'_>) -> Result<RecordAnswer, WordFault>
    ensures { Reads (λ a. a) result words.new (busy_return_at words.old) }
{
    let prefix = read_prefix(words)?;
    words.end()?;
    Ok(RecordAnswer::Return(Err(ReturnFault::Busy { prefix })))
}
