//! Writing what visitors are told of events.

ghost use Rattle.std.specs.Prelude.{◌≡◌, ◌++◌, ◌∷◌, [], OnOk, OnErr, codes, decimal, string_bytes};
ghost use Rattle.grasp_cbor.specs.Extends.{Extends};
ghost use Rattle.grasp_text.specs.Line.{prefix_word};
ghost use Rattle.grasp_text.specs.Words.{spaced};
ghost use Rattle.grasp_script.specs.Answers.{by_word};
ghost use Rattle.grasp_control.specs.Orders.{end_words};
ghost use Rattle.grasp_control.specs.Events.{event_line, event_words, outcome_detail, detail_words, want_event_words, read_event_words};

use crate::orders::{push_end, push_lengths};
use grasp_agent::WantEnd;
use grasp_cbor::{Chars, OutOfMemory};
use grasp_script::{push_count, push_flood_reads};
use grasp_text::{push_number, push_prefix, push_text, push_word};
use grasp_types::{ApiAnswer, By, FloodReads, Outcome, Prefix, Progress, Reply};
use std::alloc::Global;

/// What happened at a node, but for the end of a want and what a reader read.
#[derive(Clone, Copy, Debug, PartialEq, Eq)]
pub enum NodeEvent {
    /// This prefix is held.
    Gained(Prefix),
    /// This prefix is reserved: it will be offered.
    Offered(Prefix),
    /// This prefix is the peer's: it accepted the offer.
    Given(Prefix),
    /// This prefix is free again.
    Back(Prefix),
    /// This prefix is in doubt.
    Doubt(Prefix),
    /// This visitor came.
    Came { visitor: u64 },
    /// This visitor registered an agent.
    Registered { visitor: u64, asa: u32 },
    /// This visitor left.
    Left { visitor: u64 },
    /// The node ends.
    Stopping,
}

/// Appends `event` and the reading of the node's clock in milliseconds, which begin each line of an event.
#[tactic(auto, using(crate::proofs::Pushed::begun))]
fn push_begin(out: &mut String, now: u64) -> Result<(), OutOfMemory>
    ensures text { OnOk result (string_bytes out.new ≡ string_bytes out.old ++ event_line now []) }
    ensures err { OnErr result (Extends (string_bytes out.old) (string_bytes out.new)) }
{
    out.push_str("event")?;
    push_number(out, now)
}

/// Appends a word and a prefix, each behind a blank.
#[tactic(auto, using(crate::proofs::Pushed::pushes))]
fn push_of(alloc: Global, out: &mut String, word: &str, prefix: Prefix) -> Result<(), OutOfMemory>
    ensures text { OnOk result (string_bytes out.new ≡ string_bytes out.old ++ spaced (word.now ∷ prefix_word prefix ∷ [])) }
    ensures err { OnErr result (Extends (string_bytes out.old) (string_bytes out.new)) }
{
    push_word(out, word)?;
    push_prefix(alloc, out, prefix)
}

/// Appends the words of an event, each behind a blank.
#[tactic(auto, using(crate::proofs::Pushed::pushes))]
fn push_event_words(alloc: Global, out: &mut String, event: NodeEvent) -> Result<(), OutOfMemory>
    ensures text { OnOk result (string_bytes out.new ≡ string_bytes out.old ++ spaced (event_words event)) }
    ensures err { OnErr result (Extends (string_bytes out.old) (string_bytes out.new)) }
{
    match event {
        NodeEvent::Gained(prefix) => push_of(alloc, out, "gained", prefix),
        NodeEvent::Offered(prefix) => push_of(alloc, out, "offered", prefix),
        NodeEvent::Given(prefix) => push_of(alloc, out, "given", prefix),
        NodeEvent::Back(prefix) => push_of(alloc, out, "back", prefix),
        NodeEvent::Doubt(prefix) => push_of(alloc, out, "doubt", prefix),
        NodeEvent::Came { visitor } => {
            push_count(out, "visitor", visitor)?;
            push_word(out, "came")
        }
        NodeEvent::Registered { visitor, asa } => {
            push_count(out, "visitor", visitor)?;
            push_count(out, "asa", u64::from(asa))
        }
        NodeEvent::Left { visitor } => {
            push_count(out, "visitor", visitor)?;
            push_word(out, "left")
        }
        NodeEvent::Stopping => push_word(out, "stopping"),
    }
}

/// Appends the line of an event at this reading of the node's clock in milliseconds, without a line end. After an `Err` a
/// part of it may have been appended.
#[tactic(auto, using(crate::proofs::Pushed::begun))]
pub fn push_event(
    alloc: Global,
    out: &mut String,
    now: u64,
    event: NodeEvent,
) -> Result<(), OutOfMemory>
    ensures text { OnOk result (string_bytes out.new ≡ string_bytes out.old ++ event_line now (event_words event)) }
    ensures err { OnErr result (Extends (string_bytes out.old) (string_bytes out.new)) }
{
    push_begin(out, now)?;
    push_event_words(alloc, out, event)
}

/// Appends a blank, and whose doing it was.
fn push_by(out: &mut String, by: By) -> Result<(), OutOfMemory>
    ensures text { OnOk result (string_bytes out.new ≡ string_bytes out.old ++ spaced (by_word by ∷ [])) }
    ensures err { OnErr result (Extends (string_bytes out.old) (string_bytes out.new)) }
{
    match by {
        By::Mine => push_word(out, "mine"),
        By::Theirs => push_word(out, "theirs"),
    }
}

/// Appends what an outcome tells behind its own word, each word behind a blank.
#[tactic(auto, using(crate::proofs::Pushed::pushes, crate::proofs::Pushed::no_words))]
fn push_outcome_detail(out: &mut String, outcome: &Outcome) -> Result<(), OutOfMemory>
    ensures text { OnOk result (string_bytes out.new ≡ string_bytes out.old ++ spaced (outcome_detail outcome.now)) }
    ensures err { OnErr result (Extends (string_bytes out.old) (string_bytes out.new)) }
{
    match outcome {
        Outcome::Declined { by, reason: None } => push_by(out, *by),
        Outcome::Declined {
            by,
            reason: Some(reason),
        } => {
            push_by(out, *by)?;
            push_text(out, reason)
        }
        Outcome::TimedOut { deadline, now } => {
            push_number(out, *deadline)?;
            push_number(out, *now)
        }
        Outcome::Invalid { by } => push_by(out, *by),
        _ => Ok(()),
    }
}

/// Appends what a reply tells behind how a want ended by it, each word behind a blank.
#[tactic(auto, using(crate::proofs::Pushed::no_words))]
fn push_detail(out: &mut String, reply: &Reply) -> Result<(), OutOfMemory>
    ensures text { OnOk result (string_bytes out.new ≡ string_bytes out.old ++ spaced (detail_words reply.now)) }
    ensures err { OnErr result (Extends (string_bytes out.old) (string_bytes out.new)) }
{
    match reply {
        Reply::Api(ApiAnswer::Polled(Progress::Ended(outcome))) => {
            push_outcome_detail(out, outcome)
        }
        Reply::Refused(refusal) => push_word(out, refusal.name()),
        _ => Ok(()),
    }
}

/// Appends how a want ended, and what its reply tells besides, each word behind a blank.
#[tactic(auto, using(crate::proofs::Pushed::pushes))]
fn push_ended(
    alloc: Global,
    out: &mut String,
    end: WantEnd,
    reply: &Reply,
) -> Result<(), OutOfMemory>
    ensures text { OnOk result (string_bytes out.new ≡ string_bytes out.old ++ spaced (end_words end ++ detail_words reply.now)) }
    ensures err { OnErr result (Extends (string_bytes out.old) (string_bytes out.new)) }
{
    push_end(alloc, out, end)?;
    push_detail(out, reply)
}

/// Appends the words of a want whose peer was asked, each behind a blank.
#[tactic(auto, using(crate::proofs::Pushed::pushes))]
fn push_want_words(
    alloc: Global,
    out: &mut String,
    number: u64,
    length: u8,
    longest: u8,
    end: WantEnd,
    reply: &Reply,
) -> Result<(), OutOfMemory>
    ensures text { OnOk result
        (string_bytes out.new ≡ string_bytes out.old ++ spaced (want_event_words number length longest end reply.now)) }
    ensures err { OnErr result (Extends (string_bytes out.old) (string_bytes out.new)) }
{
    push_lengths(out, number, length, longest)?;
    push_ended(alloc, out, end, reply)
}

/// Appends the line that the peer of the want of this number was asked, and it ended so by this reply, without a line end.
/// After an `Err` a part of it may have been appended.
#[tactic(auto, using(crate::proofs::Pushed::begun))]
pub fn push_want_event(
    alloc: Global,
    out: &mut String,
    now: u64,
    number: u64,
    length: u8,
    longest: u8,
    end: WantEnd,
    reply: &Reply,
) -> Result<(), OutOfMemory>
    ensures text { OnOk result
        (string_bytes out.new ≡ string_bytes out.old ++ event_line now (want_event_words number length longest end reply.now)) }
    ensures err { OnErr result (Extends (string_bytes out.old) (string_bytes out.new)) }
{
    push_begin(out, now)?;
    push_want_words(alloc, out, number, length, longest, end, reply)
}

/// Appends the words of what a reader reads now, each behind a blank.
#[tactic(auto, using(crate::proofs::Pushed::pushes))]
fn push_read_words(
    alloc: Global,
    out: &mut String,
    name: &Chars,
    reads: &FloodReads,
) -> Result<(), OutOfMemory>
    ensures text { OnOk result (string_bytes out.new ≡ string_bytes out.old ++ spaced (read_event_words name.now reads.now)) }
    ensures err { OnErr result (Extends (string_bytes out.old) (string_bytes out.new)) }
{
    push_word(out, "read")?;
    push_text(out, name)?;
    push_word(out, "=")?;
    push_word(out, "floods")?;
    push_flood_reads(alloc, out, reads)
}

/// Appends the line that the reader of this objective reads these floods now, without a line end. After an `Err` a part of
/// it may have been appended.
#[tactic(auto, using(crate::proofs::Pushed::begun))]
pub fn push_read_event(
    alloc: Global,
    out: &mut String,
    now: u64,
    name: &Chars,
    reads: &FloodReads,
) -> Result<(), OutOfMemory>
    ensures text { OnOk result (string_bytes out.new ≡ string_bytes out.old ++ event_line now (read_event_words name.now reads.now)) }
    ensures err { OnErr result (Extends (string_bytes out.old) (string_bytes out.new)) }
{
    push_begin(out, now)?;
    push_read_words(alloc, out, name, reads)
}
