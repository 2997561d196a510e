//! Writing the answers of nodes, each word behind a blank.
use grasp_cbor::OutOfMemory;
use grasp_text::{
    push_address, push_bytes, push_locator, push_number, push_objective, push_optional_locator,
    push_text, push_word,
};
use grasp_types::{
    ApiAnswer, ApiRefused, By, FloodRead, Locator, Objective, Outcome, Output, Progress, Reply,
};
use std::alloc::Global;

/// Appends the words of a reply.
pub fn answer_text(alloc: Global, out: &mut String, reply: &Reply) -> Result<(), OutOfMemory> {
    match reply {
        Reply::Api(answer) => push_api(alloc, out, answer),
        Reply::Refused(refused) => push_refused(out, *refused),
        Reply::Outputs(outputs) => push_outputs(alloc, out, outputs.slice()),
        Reply::Taken => push_word(out, "taken"),
        Reply::Turned => push_word(out, "turned"),
        Reply::OutOfMemory => push_word(out, "outofmemory"),
    }
}

/// Appends a refusal, by its number and its name.
pub fn push_refused(out: &mut String, refused: ApiRefused) -> Result<(), OutOfMemory> {
    push_word(out, "refused")?;
    push_number(out, u64::from(refused.number()))?;
    push_word(out, refused.name())
}

/// Appends the answer to a call.
fn push_api(alloc: Global, out: &mut String, answer: &ApiAnswer) -> Result<(), OutOfMemory> {
    match answer {
        ApiAnswer::Asa(number) => push_numbered(out, "asa", u64::from(*number)),
        ApiAnswer::Done => push_word(out, "done"),
        ApiAnswer::Started(handle) => push_numbered(out, "started", handle.number),
        ApiAnswer::Searching => push_word(out, "searching"),
        ApiAnswer::Found(locators) => push_found(alloc, out, locators.slice()),
        ApiAnswer::Nothing => push_word(out, "nothing"),
        ApiAnswer::NotYet => push_word(out, "notyet"),
        ApiAnswer::Incoming {
            handle,
            from,
            objective,
        } => {
            push_numbered(out, "incoming", handle.number)?;
            push_address(alloc, out, *from)?;
            push_objective(alloc, out, objective)
        }
        ApiAnswer::Polled(progress) => push_progress(alloc, out, progress),
        ApiAnswer::Floods(reads) => push_floods(alloc, out, reads.slice()),
    }
}

/// Appends a word and a number.
pub fn push_numbered(out: &mut String, word: &str, number: u64) -> Result<(), OutOfMemory> {
    push_word(out, word)?;
    push_number(out, number)
}

/// Appends the locators that were found.
fn push_found(alloc: Global, out: &mut String, locators: &[Locator]) -> Result<(), OutOfMemory> {
    push_word(out, "found")?;
    for locator in locators {
        push_locator(alloc, out, locator)?;
    }
    Ok(())
}

/// Appends what floods told.
pub fn push_floods(
    alloc: Global,
    out: &mut String,
    reads: &[FloodRead],
) -> Result<(), OutOfMemory> {
    push_word(out, "floods")?;
    for read in reads {
        push_address(alloc, out, read.initiator)?;
        push_objective(alloc, out, &read.objective)?;
        push_optional_locator(alloc, out, &read.locator)?;
    }
    Ok(())
}

/// Appends how a session stands.
fn push_progress(alloc: Global, out: &mut String, progress: &Progress) -> Result<(), OutOfMemory> {
    match progress {
        Progress::NotYet => push_word(out, "notyet"),
        Progress::Turn(objective) => push_named(alloc, out, "turn", objective),
        Progress::Ended(outcome) => {
            push_word(out, "ended")?;
            push_outcome(alloc, out, outcome)
        }
    }
}

/// Appends a word and an objective.
fn push_named(
    alloc: Global,
    out: &mut String,
    word: &str,
    objective: &Objective,
) -> Result<(), OutOfMemory> {
    push_word(out, word)?;
    push_objective(alloc, out, objective)
}

/// Appends a word, and whose the end is.
fn push_by(out: &mut String, word: &str, by: By) -> Result<(), OutOfMemory> {
    push_word(out, word)?;
    push_word(
        out,
        match by {
            By::Mine => "mine",
            By::Theirs => "theirs",
        },
    )
}

/// Appends an outcome.
fn push_outcome(alloc: Global, out: &mut String, outcome: &Outcome) -> Result<(), OutOfMemory> {
    match outcome {
        Outcome::Agreed { by, objective } => {
            push_by(out, "agreed", *by)?;
            push_objective(alloc, out, objective)
        }
        Outcome::Declined { by, reason } => {
            push_by(out, "declined", *by)?;
            match reason {
                Some(reason) => push_text(out, reason),
                None => Ok(()),
            }
        }
        Outcome::Synchronized { objective } => push_named(alloc, out, "synchronized", objective),
        Outcome::TimedOut { deadline, now } => {
            push_numbered(out, "timedout", *deadline)?;
            push_number(out, *now)
        }
        Outcome::Broken => push_word(out, "broken"),
        Outcome::OutOfMemory => push_word(out, "outofmemory"),
        Outcome::Invalid { by } => push_by(out, "invalid", *by),
    }
}

/// Appends what a drain gave.
fn push_outputs(alloc: Global, out: &mut String, outputs: &[Output]) -> Result<(), OutOfMemory> {
    if outputs.is_empty() {
        return push_word(out, "none");
    }
    for output in outputs {
        push_output(alloc, out, output)?;
    }
    Ok(())
}

/// Appends an output.
fn push_output(alloc: Global, out: &mut String, output: &Output) -> Result<(), OutOfMemory> {
    match output {
        Output::Datagram { link, to, bytes } => {
            push_numbered(out, "datagram", u64::from(*link))?;
            push_number(out, u64::from(*to))?;
            push_bytes(alloc, out, bytes.bytes())
        }
        Output::Dial { stream, to } => {
            push_numbered(out, "dial", *stream)?;
            push_locator(alloc, out, to)
        }
        Output::Send { stream, bytes } => {
            push_numbered(out, "send", *stream)?;
            push_bytes(alloc, out, bytes.bytes())
        }
        Output::Close { stream } => push_numbered(out, "close", *stream),
    }
}
