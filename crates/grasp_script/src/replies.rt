//! Writing the replies of a node.

ghost use Rattle.std.specs.Prelude.{◌≡◌, ◌++◌, ◌∷◌, [], OnOk, OnErr, codes, decimal, string_bytes};
ghost use Rattle.grasp_cbor.specs.Extends.{Extends};
ghost use Rattle.grasp_types.specs.declared.reply.ApiAnswer.TheVariants as answer;
ghost use Rattle.grasp_types.specs.declared.reply.Reply.TheVariants as reply;
ghost use Rattle.grasp_text.specs.Line.{objective_words, all_locator_words};
ghost use Rattle.grasp_text.specs.Words.{spaced};
ghost use Rattle.grasp_script.specs.Answers.{by_word, outcome_words, progress_words, flood_read_words, all_flood_read_words, answer_words, reply_words};

use grasp_cbor::OutOfMemory;
use grasp_text::{
    push_address, push_locator, push_number, push_objective, push_optional_locator, push_text,
    push_word,
};
use grasp_types::{
    Address, ApiAnswer, ApiRefused, By, FloodRead, FloodReads, Handle, Locators, Objective,
    Outcome, Progress, Reply,
};
use std::alloc::Global;

/// Appends a blank, and whose doing it was.
fn push_by(out: &mut String, by: By) -> Result<(), OutOfMemory>
    ensures text { OnOk result (string_bytes out.new ≡ string_bytes out.old ++ spaced (by_word by ∷ [])) }
    ensures err { OnErr result (Extends (string_bytes out.old) (string_bytes out.new)) }
{
    match by {
        By::Mine => push_word(out, "mine"),
        By::Theirs => push_word(out, "theirs"),
    }
}

/// Appends a word and an objective's words, each behind a blank.
#[tactic(auto, using(crate::proofs::Pushed::pushes))]
fn push_told(
    alloc: Global,
    out: &mut String,
    word: &str,
    objective: &Objective,
) -> Result<(), OutOfMemory>
    ensures text { OnOk result (string_bytes out.new ≡ string_bytes out.old ++ spaced (word.now ∷ objective_words objective.now)) }
    ensures err { OnErr result (Extends (string_bytes out.old) (string_bytes out.new)) }
{
    push_word(out, word)?;
    push_objective(alloc, out, objective)
}

/// Appends a word and a number, each behind a blank. After an `Err` a part of them may have been appended.
#[tactic(auto, using(crate::proofs::Pushed::pushes))]
pub fn push_count(out: &mut String, word: &str, n: u64) -> Result<(), OutOfMemory>
    ensures text { OnOk result (string_bytes out.new ≡ string_bytes out.old ++ spaced (word.now ∷ decimal n ∷ [])) }
    ensures err { OnErr result (Extends (string_bytes out.old) (string_bytes out.new)) }
{
    push_word(out, word)?;
    push_number(out, n)
}

/// Appends how a session ended, each word behind a blank.
#[tactic(auto, using(crate::proofs::Pushed::pushes))]
fn push_outcome(alloc: Global, out: &mut String, outcome: &Outcome) -> Result<(), OutOfMemory>
    ensures text { OnOk result (string_bytes out.new ≡ string_bytes out.old ++ spaced (outcome_words outcome.now)) }
    ensures err { OnErr result (Extends (string_bytes out.old) (string_bytes out.new)) }
{
    match outcome {
        Outcome::Agreed { by, objective } => {
            push_word(out, "agreed")?;
            push_by(out, *by)?;
            push_objective(alloc, out, objective)
        }
        Outcome::Declined { by, reason: None } => {
            push_word(out, "declined")?;
            push_by(out, *by)
        }
        Outcome::Declined {
            by,
            reason: Some(reason),
        } => {
            push_word(out, "declined")?;
            push_by(out, *by)?;
            push_text(out, reason)
        }
        Outcome::Synchronized { objective } => { push_told(alloc, out, "synchronized", objective) }
        Outcome::TimedOut { deadline, now } => {
            push_count(out, "timedout", *deadline)?;
            push_number(out, *now)
        }
        Outcome::Broken => push_word(out, "broken"),
        Outcome::OutOfMemory => push_word(out, "outofmemory"),
        Outcome::Invalid { by } => {
            push_word(out, "invalid")?;
            push_by(out, *by)
        }
    }
}

/// Appends how a session stands, each word behind a blank.
#[tactic(auto, using(crate::proofs::Pushed::pushes))]
fn push_progress(alloc: Global, out: &mut String, progress: &Progress) -> Result<(), OutOfMemory>
    ensures text { OnOk result (string_bytes out.new ≡ string_bytes out.old ++ spaced (progress_words progress.now)) }
    ensures err { OnErr result (Extends (string_bytes out.old) (string_bytes out.new)) }
{
    match progress {
        Progress::NotYet => push_word(out, "notyet"),
        Progress::Turn(objective) => push_told(alloc, out, "turn", objective),
        Progress::Ended(outcome) => {
            push_word(out, "ended")?;
            push_outcome(alloc, out, outcome)
        }
    }
}

/// Appends a refusal's words, each behind a blank. After an `Err` a part of them may have been appended.
#[tactic(auto, using(crate::proofs::Pushed::pushes))]
pub fn push_refusal(out: &mut String, refusal: ApiRefused) -> Result<(), OutOfMemory>
    ensures text { OnOk result (string_bytes out.new ≡ string_bytes out.old ++ spaced (reply_words (reply.Refused refusal))) }
    ensures err { OnErr result (Extends (string_bytes out.old) (string_bytes out.new)) }
{
    push_count(out, "refused", u64::from(refusal.number()))?;
    push_word(out, refusal.name())
}

/// Appends the words of the locators, each behind a blank.
fn push_locators(alloc: Global, out: &mut String, locators: &Locators) -> Result<(), OutOfMemory>
    ensures text { OnOk result (string_bytes out.new ≡ string_bytes out.old ++ spaced (all_locator_words locators.now)) }
    ensures err { OnErr result (Extends (string_bytes out.old) (string_bytes out.new)) }
{
    for i in 0..locators.len() {
        let Some(locator) = locators.at(i) else {
            unreachable!()
        };
        push_locator(alloc, out, locator)?;
    }
    Ok(())
}

/// Appends what a flood told, each word behind a blank.
#[tactic(auto, using(crate::proofs::Pushed::pushes))]
fn push_flood_read(alloc: Global, out: &mut String, read: &FloodRead) -> Result<(), OutOfMemory>
    ensures text { OnOk result (string_bytes out.new ≡ string_bytes out.old ++ spaced (flood_read_words read.now)) }
    ensures err { OnErr result (Extends (string_bytes out.old) (string_bytes out.new)) }
{
    push_address(alloc, out, read.initiator)?;
    push_objective(alloc, out, &read.objective)?;
    push_optional_locator(alloc, out, &read.locator)
}

/// Appends what floods told, each word behind a blank. After an `Err` a part of them may have been appended.
pub fn push_flood_reads(
    alloc: Global,
    out: &mut String,
    reads: &FloodReads,
) -> Result<(), OutOfMemory>
    ensures text { OnOk result (string_bytes out.new ≡ string_bytes out.old ++ spaced (all_flood_read_words reads.now)) }
    ensures err { OnErr result (Extends (string_bytes out.old) (string_bytes out.new)) }
{
    for i in 0..reads.len() {
        let Some(read) = reads.at(i) else {
            unreachable!()
        };
        push_flood_read(alloc, out, read)?;
    }
    Ok(())
}

/// Appends the words of a session that a peer began, each behind a blank.
#[tactic(auto, using(crate::proofs::Pushed::pushes))]
fn push_incoming(
    alloc: Global,
    out: &mut String,
    handle: Handle,
    from: Address,
    objective: &Objective,
) -> Result<(), OutOfMemory>
    ensures text { OnOk result (string_bytes out.new ≡ string_bytes out.old ++ spaced (answer_words (answer.Incoming handle from objective.now))) }
    ensures err { OnErr result (Extends (string_bytes out.old) (string_bytes out.new)) }
{
    push_count(out, "incoming", handle.number)?;
    push_address(alloc, out, from)?;
    push_objective(alloc, out, objective)
}

/// Appends the answer to an agent's call, each word behind a blank. After an `Err` a part of them may have been appended.
#[tactic(auto, using(crate::proofs::Pushed::pushes))]
pub fn push_api_answer(
    alloc: Global,
    out: &mut String,
    answer: &ApiAnswer,
) -> Result<(), OutOfMemory>
    ensures text { OnOk result (string_bytes out.new ≡ string_bytes out.old ++ spaced (answer_words answer.now)) }
    ensures err { OnErr result (Extends (string_bytes out.old) (string_bytes out.new)) }
{
    match answer {
        ApiAnswer::Asa(number) => push_count(out, "asa", u64::from(*number)),
        ApiAnswer::Done => push_word(out, "done"),
        ApiAnswer::Started(handle) => push_count(out, "started", handle.number),
        ApiAnswer::Searching => push_word(out, "searching"),
        ApiAnswer::Found(locators) => {
            push_word(out, "found")?;
            push_locators(alloc, out, locators)
        }
        ApiAnswer::Nothing => push_word(out, "nothing"),
        ApiAnswer::NotYet => push_word(out, "notyet"),
        ApiAnswer::Incoming {
            handle,
            from,
            objective,
        } => push_incoming(alloc, out, *handle, *from, objective),
        ApiAnswer::Polled(progress) => push_progress(alloc, out, progress),
        ApiAnswer::Floods(reads) => {
            push_word(out, "floods")?;
            push_flood_reads(alloc, out, reads)
        }
    }
}

/// Appends the reply of a node, each word behind a blank. After an `Err` a part of them may have been appended.
///
/// Of outputs it tells how many they are.
#[tactic(auto, using(crate::proofs::Pushed::pushes))]
pub fn push_reply(alloc: Global, out: &mut String, reply: &Reply) -> Result<(), OutOfMemory>
    ensures text { OnOk result (string_bytes out.new ≡ string_bytes out.old ++ spaced (reply_words reply.now)) }
    ensures err { OnErr result (Extends (string_bytes out.old) (string_bytes out.new)) }
{
    match reply {
        Reply::Api(answer) => push_api_answer(alloc, out, answer),
        Reply::Refused(refusal) => push_refusal(out, *refusal),
        Reply::Outputs(outputs) => push_count(out, "sent", outputs.len()),
        Reply::Taken => push_word(out, "taken"),
        Reply::Turned => push_word(out, "turned"),
        Reply::OutOfMemory => push_word(out, "outofmemory"),
    }
}
