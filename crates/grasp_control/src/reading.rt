//! Reading requests.

ghost use Rattle.std.specs.Prelude.{◌≡◌, IfOk};
ghost use Rattle.grasp_text.specs.Reading.{Reads, word_at};
ghost use Rattle.grasp_config.specs.Levels.{level_of};
ghost use Rattle.grasp_control.specs.Grammar.{length_of, request_of, await_of, request_at, synchronize_at, expire_at, control_called_at, awaited_at, await_at, want_at, unwant_at, log_at, asked_at, request_line_at};
ghost use Rattle.grasp_control.specs.Places.{IsRequestPlace};
ghost use Rattle.grasp_control.specs.Requests.{IsRequestLine, IsNoRequest, IfBadLine};
ghost use Rattle.grasp_control.specs.declared.request.Request.{Request};

use crate::names::{AwaitName, RequestName, await_name, request_name};
use crate::request::{Request, RequestFault};
use grasp_config::LogLevel;
use grasp_script::{CallName, read_called, read_dry};
use grasp_text::{WordFault, Words, number, read_locator};
use grasp_types::Call;
use std::alloc::Global;

/// A prefix has at most so many bits.
const MOST_LENGTH: u64 = 128;

/// The request that a line is, without its line end.
///
/// `BadLine` comes exactly where no request has the line. Its place is that of the first word with which, after the words
/// before it, no request's line begins, or the line's length where a word is missing.
pub fn read_request(alloc: Global, line: &[u8]) -> Result<Request, RequestFault>
    ensures found { IfOk result (λ r. IsRequestLine line.now r) }
    ensures only { (request : Request) → IsRequestLine line.now request → IfOk result (λ r. r ≡ request) }
    ensures none { IfBadLine result (λ at. IsNoRequest line.now) }
    ensures place { IfBadLine result (λ at. IsRequestPlace line.now at) }
{
    let mut words = Words::of(line);
    match read_words(alloc, &mut words) {
        Ok(request) => Ok(request),
        Err(WordFault::Unfit { left }) => {
            let at = line.len() as u64 - left;
            Err(RequestFault::BadLine { at })
        }
        Err(WordFault::OutOfMemory) => Err(RequestFault::OutOfMemory),
    }
}

/// Takes a request, to the end of the line.
#[tactic(auto, unfolding(crate::specs::Grammar::request_line_at))]
fn read_words(alloc: Global, words: &mut Words<'_>) -> Result<Request, WordFault>
    ensures { Reads (λ r. r) result words.new (request_line_at words.old) }
{
    let name = read_request_name(words)?;
    read_asked(alloc, words, name)
}

fn read_request_name(words: &mut Words<'_>) -> Result<RequestName, WordFault>
    ensures { Reads (λ n. n) result words.new (word_at request_of words.old) }
{
    let (word, unfit) = words.next()?;
    request_name(word).ok_or(unfit)
}

/// Takes what stands behind a request's first word.
fn read_asked(alloc: Global, words: &mut Words<'_>, name: RequestName) -> Result<Request, WordFault>
    ensures { Reads (λ r. r) result words.new (asked_at name words.old) }
{
    match name {
        RequestName::Call(name) => Ok(Request::Call(read_control_called(alloc, words, name)?)),
        RequestName::Await => read_await(alloc, words),
        RequestName::State => {
            words.end()?;
            Ok(Request::State)
        }
        RequestName::Wants => {
            words.end()?;
            Ok(Request::Wants)
        }
        RequestName::Reads => {
            words.end()?;
            Ok(Request::Reads)
        }
        RequestName::Events => {
            words.end()?;
            Ok(Request::Events)
        }
        RequestName::Counters => {
            words.end()?;
            Ok(Request::Counters)
        }
        RequestName::Version => {
            words.end()?;
            Ok(Request::Version)
        }
        RequestName::Want => read_want(alloc, words),
        RequestName::Unwant => read_unwant(words),
        RequestName::Log => read_log(words),
        RequestName::Stop => {
            words.end()?;
            Ok(Request::Stop)
        }
    }
}

/// Takes what stands behind a call's first word. The calls that name no peer and no initiator are read as those of a script
/// of one node are.
fn read_control_called(
    alloc: Global,
    words: &mut Words<'_>,
    name: CallName,
) -> Result<Call, WordFault>
    ensures { Reads (λ c. c) result words.new (control_called_at name words.old) }
{
    match name {
        CallName::Request => read_negotiation(alloc, words),
        CallName::Synchronize => read_synchronize(alloc, words),
        CallName::Expire => read_expire(alloc, words),
        name => read_called(alloc, words, name, 1),
    }
}

#[tactic(auto, unfolding(crate::specs::Grammar::request_at))]
fn read_negotiation(alloc: Global, words: &mut Words<'_>) -> Result<Call, WordFault>
    ensures { Reads (λ c. c) result words.new (request_at words.old) }
{
    let name = words.text(alloc)?;
    let value = words.value(alloc)?;
    let loops = words.number(255)? as u8;
    let timeout = words.u32()?;
    let dry = read_dry(words)?;
    let peer = read_locator(alloc, words)?;
    words.end()?;
    Ok(Call::RequestNegotiate {
        name,
        value,
        loops,
        timeout,
        dry,
        peer,
    })
}

#[tactic(auto, unfolding(crate::specs::Grammar::synchronize_at))]
fn read_synchronize(alloc: Global, words: &mut Words<'_>) -> Result<Call, WordFault>
    ensures { Reads (λ c. c) result words.new (synchronize_at words.old) }
{
    let name = words.text(alloc)?;
    let loops = words.number(255)? as u8;
    let timeout = words.u32()?;
    let peer = read_locator(alloc, words)?;
    words.end()?;
    Ok(Call::Synchronize {
        name,
        loops,
        timeout,
        peer,
    })
}

#[tactic(auto, unfolding(crate::specs::Grammar::expire_at))]
fn read_expire(alloc: Global, words: &mut Words<'_>) -> Result<Call, WordFault>
    ensures { Reads (λ c. c) result words.new (expire_at words.old) }
{
    let name = words.text(alloc)?;
    let initiator = words.address()?;
    words.end()?;
    Ok(Call::ExpireFlood { name, initiator })
}

fn read_await_name(words: &mut Words<'_>) -> Result<AwaitName, WordFault>
    ensures { Reads (λ n. n) result words.new (word_at await_of words.old) }
{
    let (word, unfit) = words.next()?;
    await_name(word).ok_or(unfit)
}

/// Takes what stands behind the first word of a call that may have nothing to tell yet.
fn read_awaited(alloc: Global, words: &mut Words<'_>, name: AwaitName) -> Result<Call, WordFault>
    ensures { Reads (λ c. c) result words.new (awaited_at name words.old) }
{
    match name {
        AwaitName::Discover => read_called(alloc, words, CallName::Discover, 1),
        AwaitName::Listen => read_called(alloc, words, CallName::Listen, 1),
        AwaitName::Poll => read_called(alloc, words, CallName::Poll, 1),
    }
}

#[tactic(auto, unfolding(crate::specs::Grammar::await_at))]
fn read_await(alloc: Global, words: &mut Words<'_>) -> Result<Request, WordFault>
    ensures { Reads (λ r. r) result words.new (await_at words.old) }
{
    let millis = words.u32()?;
    let name = read_await_name(words)?;
    let call = read_awaited(alloc, words, name)?;
    Ok(Request::Await { millis, call })
}

/// Takes the length of a prefix, from this one to 128.
#[tactic(auto, unfolding(crate::specs::Grammar::length_of))]
fn read_length(words: &mut Words<'_>, least: u8) -> Result<u8, WordFault>
    ensures { Reads (λ n. n) result words.new (word_at (length_of least) words.old) }
{
    let (word, unfit) = words.next()?;
    match number(word, MOST_LENGTH) {
        Some(n) => {
            if u64::from(least) <= n {
                Ok(n as u8)
            } else {
                Err(unfit)
            }
        }
        None => Err(unfit),
    }
}

#[tactic(auto, unfolding(crate::specs::Grammar::want_at))]
fn read_want(alloc: Global, words: &mut Words<'_>) -> Result<Request, WordFault>
    ensures { Reads (λ r. r) result words.new (want_at words.old) }
{
    let length = read_length(words, 1)?;
    let longest = read_length(words, length)?;
    let peer = read_locator(alloc, words)?;
    words.end()?;
    Ok(Request::Want {
        length,
        longest,
        peer,
    })
}

#[tactic(auto, unfolding(crate::specs::Grammar::unwant_at))]
fn read_unwant(words: &mut Words<'_>) -> Result<Request, WordFault>
    ensures { Reads (λ r. r) result words.new (unwant_at words.old) }
{
    let number = words.number(u64::MAX)?;
    words.end()?;
    Ok(Request::Unwant { number })
}

fn read_level(words: &mut Words<'_>) -> Result<LogLevel, WordFault>
    ensures { Reads (λ l. l) result words.new (word_at level_of words.old) }
{
    let (word, unfit) = words.next()?;
    LogLevel::of(word).ok_or(unfit)
}

#[tactic(auto, unfolding(crate::specs::Grammar::log_at))]
fn read_log(words: &mut Words<'_>) -> Result<Request, WordFault>
    ensures { Reads (λ r. r) result words.new (log_at words.old) }
{
    let level = read_level(words)?;
    words.end()?;
    Ok(Request::Log { level })
}
