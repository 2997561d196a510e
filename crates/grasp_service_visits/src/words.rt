//! The words of answers.

ghost use Rattle.std.specs.Prelude.{◌≡◌, ◌++◌, OnOk, IfOk, string_bytes};
ghost use Rattle.grasp_control.specs.Answers.{answer_line};
ghost use Rattle.grasp_script.specs.Answers.{reply_words};
ghost use Rattle.grasp_text.specs.Words.{spaced};
ghost use Rattle.grasp_service_visits.specs.Answers.{held_words};
ghost use Rattle.grasp_service_visits.specs.Parts.{Shows, Answers, IsLineOf};

use crate::answer::Answer;
use crate::house::House;
use grasp_cbor::{Octets, OutOfMemory};
use grasp_control::{Order, Standing, push_echo, push_order, push_plain, push_read, push_version};
use grasp_crew::{Servant, Steward};
use grasp_io::Counters;
use grasp_script::{push_count, push_pool, push_reply};
use grasp_text::push_word;
use grasp_types::{Plain, Reply};
use std::alloc::Global;

/// The line of an answer: the visitor's own line, ` = `, and the words of the answer.
#[tactic(auto, using(crate::proofs::Shown::line_of))]
pub(crate) fn answer_line(
    alloc: Global,
    house: &House,
    now: u64,
    line: &Octets,
    answer: &Answer,
) -> Result<Octets, OutOfMemory>
    ensures { IfOk result (λ text. IsLineOf house.now.crew.items line.now answer.now text) }
{
    let mut out = String::new(alloc);
    push_echo(&mut out, line.bytes())?;
    push_word(&mut out, "=")?;
    push_answer(alloc, &mut out, house, now, answer)?;
    Octets::of(alloc, out.as_bytes())
}

/// The line by which a call that was awaited is answered.
#[tactic(auto, using(crate::proofs::Shown::line_made))]
pub(crate) fn reply_line(alloc: Global, line: &Octets, reply: &Reply) -> Result<Octets, OutOfMemory>
    ensures { IfOk result (λ text. text ≡ answer_line line.now (reply_words reply.now)) }
{
    let mut out = String::new(alloc);
    push_echo(&mut out, line.bytes())?;
    push_word(&mut out, "=")?;
    push_reply(alloc, &mut out, reply)?;
    Octets::of(alloc, out.as_bytes())
}

/// Appends the words of an answer, each behind a blank.
#[tactic(auto, using(crate::proofs::Shown::answering))]
fn push_answer(
    alloc: Global,
    out: &mut String,
    house: &House,
    now: u64,
    answer: &Answer,
) -> Result<(), OutOfMemory>
    ensures { OnOk result (Answers house.now.crew.items answer.now (string_bytes out.old) (string_bytes out.new)) }
{
    match answer {
        Answer::Replied(reply) => push_reply(alloc, out, reply),
        Answer::Plain(plain) => push_plain(out, *plain),
        Answer::State => push_held(alloc, out, &house.crew),
        Answer::Wants => push_wants(alloc, out, &house.crew, now),
        Answer::Reads => push_reads(alloc, out, &house.crew),
        Answer::Counters => push_counters(out, &house.counters),
        Answer::Version => push_version(out),
        Answer::Later => Ok(()),
    }
}

/// Appends the prefixes of the agent that manages them.
fn push_held(alloc: Global, out: &mut String, crew: &[Servant]) -> Result<(), OutOfMemory>
    ensures { OnOk result (string_bytes out.new ≡ string_bytes out.old ++ spaced (held_words crew.now)) }
{
    match crew {
        [Servant::Steward(steward), ..] => push_pool(alloc, out, steward.pool()),
        _ => Ok(()),
    }
}

/// Appends how the wants stand, each as words.
#[tactic(auto, using(crate::proofs::Shown::shows_none))]
fn push_wants(
    alloc: Global,
    out: &mut String,
    crew: &[Servant],
    now: u64,
) -> Result<(), OutOfMemory>
    ensures { OnOk result (Shows (string_bytes out.old) (string_bytes out.new)) }
{
    match crew {
        [Servant::Steward(steward), ..] => push_orders(alloc, out, steward, now),
        _ => Ok(()),
    }
}

/// Appends the wants of this agent.
#[tactic(auto, using(crate::proofs::Shown::shows_none))]
fn push_orders(
    alloc: Global,
    out: &mut String,
    steward: &Steward,
    now: u64,
) -> Result<(), OutOfMemory>
    ensures { OnOk result (Shows (string_bytes out.old) (string_bytes out.new)) }
{
    let count = steward.wants().len().min(steward.tries().len());
    for place in 0..count {
        push_order_at(alloc, out, steward, place, now)?;
    }
    Ok(())
}

/// Appends the want at this place, where it is shown.
#[tactic(auto, using(crate::proofs::Shown::shows_none))]
fn push_order_at(
    alloc: Global,
    out: &mut String,
    steward: &Steward,
    place: usize,
    now: u64,
) -> Result<(), OutOfMemory>
    ensures { OnOk result (Shows (string_bytes out.old) (string_bytes out.new)) }
{
    match order_at(steward, place, now)? {
        Some(order) => push_shown(alloc, out, order),
        None => Ok(()),
    }
}

/// Appends a want.
fn push_shown(alloc: Global, out: &mut String, order: Order) -> Result<(), OutOfMemory>
    ensures { OnOk result (Shows (string_bytes out.old) (string_bytes out.new)) }
{
    let pushed = push_order(alloc, out, &order);
    drop(order);
    pushed
}

/// The want at this place and how it stands, unless it was taken back and isn't asked for.
fn order_at(steward: &Steward, place: usize, now: u64) -> Result<Option<Order>, OutOfMemory> {
    let (Some(want), Some(tried)) = (steward.wants().get(place), steward.tries().get(place)) else {
        return Ok(None);
    };
    let standing = match tried.end {
        _ if steward.is_asked(place as u64) => Standing::Asking,
        _ if tried.dropped => return Ok(None),
        Some(end) if !tried.is_unmet() => Standing::Ended(end),
        _ => Standing::Waiting {
            millis: tried.next.saturating_sub(now),
        },
    };
    Ok(Some(Order {
        number: place as u64 + 1,
        length: want.length,
        longest: want.longest,
        peer: want.peer.copy()?,
        tries: tried.count,
        standing,
    }))
}

/// Appends what the readers have read, each as words.
#[tactic(auto, using(crate::proofs::Shown::shows_none))]
fn push_reads(alloc: Global, out: &mut String, crew: &[Servant]) -> Result<(), OutOfMemory>
    ensures { OnOk result (Shows (string_bytes out.old) (string_bytes out.new)) }
{
    for servant in crew {
        push_reads_of(alloc, out, servant)?;
    }
    Ok(())
}

/// Appends what this agent has read, where it reads.
#[tactic(auto, using(crate::proofs::Shown::shows_none))]
fn push_reads_of(alloc: Global, out: &mut String, servant: &Servant) -> Result<(), OutOfMemory>
    ensures { OnOk result (Shows (string_bytes out.old) (string_bytes out.new)) }
{
    match servant {
        Servant::Listener(listener) => {
            let reader = listener.reader();
            push_read(alloc, out, reader.name(), reader.reads())
        }
        Servant::Steward(_) => Ok(()),
        Servant::Herald(_) => Ok(()),
    }
}

/// Appends the counts, each behind its name.
#[tactic(auto, using(crate::proofs::Shown::shows_none))]
fn push_counters(out: &mut String, counters: &Counters) -> Result<(), OutOfMemory>
    ensures { OnOk result (Shows (string_bytes out.old) (string_bytes out.new)) }
{
    let counts = [
        ("received", counters.received),
        ("sent", counters.sent),
        ("lost", counters.lost),
        ("strangers", counters.strangers),
        ("opened", counters.opened),
        ("dialled", counters.dialled),
        ("faileddials", counters.failed_dials),
        ("notallowed", counters.not_allowed),
        ("toomany", counters.too_many),
        ("silent", counters.silent),
        ("bytesreceived", counters.bytes_received),
        ("bytessent", counters.bytes_sent),
        ("faults", counters.faults),
    ];
    for (name, count) in counts.iter() {
        push_counter(out, name, *count)?;
    }
    Ok(())
}

/// Appends a count behind its name.
fn push_counter(out: &mut String, name: &str, count: u64) -> Result<(), OutOfMemory>
    ensures { OnOk result (Shows (string_bytes out.old) (string_bytes out.new)) }
{
    push_count(out, name, count)
}
