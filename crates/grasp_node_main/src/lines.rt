//! What a node writes at the end.

ghost use Rattle.std.specs.Prelude.{◌≡◌, ◌++◌, ◌∷◌, [], OnOk, IfOk, codes, slice_get, string_bytes};
ghost use Rattle.grasp_text.specs.Words.{spaced};
ghost use Rattle.grasp_node_main.specs.Runs.{workers_of};
ghost use Rattle.grasp_node_main.specs.declared.worker.Worker.TheVariants as workers;
ghost use Rattle.grasp_node_main.specs.Lines.{list_of, prefix_words, pool_words, end_words, end_at, want_words, flood_words, all_flood_words};
ghost use Rattle.grasp_node_main.specs.Lines.{read_words, line_text, wants_text, worker_text, crew_text};

use crate::daemon::Daemon;
use crate::manager::Manager;
use crate::named_reader::NamedReader;
use crate::seated_agent::SeatedAgent;
use crate::want_plan::WantPlan;
use crate::worker::Worker;
use grasp_agent::WantEnd;
use grasp_cbor::OutOfMemory;
use grasp_pool::Pool;
use grasp_text::{
    push_address, push_number, push_objective, push_optional_locator, push_prefix, push_text,
    push_word,
};
use grasp_types::{FloodRead, FloodReads, Prefix};
use std::alloc::Global;

/// A pool has at most so many entries.
const MOST_ENTRIES: u64 = 4096;

/// A list of a pool.
#[derive(Clone, Copy, Debug, PartialEq, Eq)]
pub enum PoolList {
    /// The free prefixes.
    Held,
    /// Those that are reserved.
    Reserved,
    /// Those in doubt.
    Doubt,
}

/// The prefix at this place of a list of the pool.
fn prefix_at(pool: &Pool, list: PoolList, place: u64) -> Option<Prefix>
    ensures { result ≡ slice_get (list_of list pool.now) place }
{
    match list {
        PoolList::Held => pool.free(place),
        PoolList::Reserved => pool.reserved(place),
        PoolList::Doubt => pool.doubtful(place),
    }
}

/// Appends the prefixes of a list of the pool, each behind a blank.
fn push_prefixes(
    alloc: Global,
    out: &mut String,
    pool: &Pool,
    list: PoolList,
) -> Result<(), OutOfMemory>
    ensures { OnOk result (string_bytes out.new ≡ string_bytes out.old ++ spaced (prefix_words (list_of list pool.now))) }
{
    for place in 0..MOST_ENTRIES {
        match prefix_at(pool, list, place) {
            Some(prefix) => push_prefix(alloc, out, prefix)?,
            None => return Ok(()),
        }
    }
    // A pool has no more entries.
    Err(OutOfMemory)
}

/// Appends the name of a list of the pool and its prefixes, each behind a blank.
#[tactic(auto, using(crate::proofs::Pushed::pushes))]
fn push_list(
    alloc: Global,
    out: &mut String,
    name: &str,
    pool: &Pool,
    list: PoolList,
) -> Result<(), OutOfMemory>
    ensures { OnOk result (string_bytes out.new ≡ string_bytes out.old ++ spaced (name.now ∷ prefix_words (list_of list pool.now))) }
{
    push_word(out, name)?;
    push_prefixes(alloc, out, pool, list)
}

/// Appends the words of a pool, each behind a blank.
#[tactic(auto, using(crate::proofs::Lining::lists_pushed))]
fn push_pool(alloc: Global, out: &mut String, pool: &Pool) -> Result<(), OutOfMemory>
    ensures { OnOk result (string_bytes out.new ≡ string_bytes out.old ++ spaced (pool_words pool.now)) }
{
    push_list(alloc, out, "held", pool, PoolList::Held)?;
    push_list(alloc, out, "reserved", pool, PoolList::Reserved)?;
    push_list(alloc, out, "doubt", pool, PoolList::Doubt)?;
    Ok(())
}

/// Appends how a want ended, each word behind a blank.
#[tactic(auto, using(crate::proofs::Pushed::pushes))]
fn push_end(alloc: Global, out: &mut String, end: &Option<WantEnd>) -> Result<(), OutOfMemory>
    ensures { OnOk result (string_bytes out.new ≡ string_bytes out.old ++ spaced (end_words end.now)) }
{
    match end {
        None => push_word(out, "pending"),
        Some(WantEnd::Held(prefix)) => {
            push_word(out, "held")?;
            push_prefix(alloc, out, *prefix)
        }
        Some(WantEnd::Declined) => push_word(out, "declined"),
        Some(WantEnd::TimedOut) => push_word(out, "timedout"),
        Some(WantEnd::Broken) => push_word(out, "broken"),
        Some(WantEnd::OutOfMemory) => push_word(out, "outofmemory"),
        Some(WantEnd::Invalid) => push_word(out, "invalid"),
        Some(WantEnd::Empty) => push_word(out, "empty"),
        Some(WantEnd::Refused(refusal)) => {
            push_word(out, "refused")?;
            push_number(out, u64::from(refusal.number()))
        }
    }
}

/// Appends the words of a flood, each behind a blank.
#[tactic(auto, using(crate::proofs::Pushed::pushes))]
fn push_flood(alloc: Global, out: &mut String, flood: &FloodRead) -> Result<(), OutOfMemory>
    ensures { OnOk result (string_bytes out.new ≡ string_bytes out.old ++ spaced (flood_words flood.now)) }
{
    push_address(alloc, out, flood.initiator)?;
    push_objective(alloc, out, &flood.objective)?;
    push_optional_locator(alloc, out, &flood.locator)
}

/// Appends the words of the floods, each behind a blank.
fn push_floods(alloc: Global, out: &mut String, floods: &FloodReads) -> Result<(), OutOfMemory>
    ensures { OnOk result (string_bytes out.new ≡ string_bytes out.old ++ spaced (all_flood_words floods.now)) }
{
    for flood in floods.slice() {
        push_flood(alloc, out, flood)?;
    }
    Ok(())
}

/// Appends the line of a pool.
#[tactic(auto, using(crate::proofs::Lining::line_pushed))]
fn push_pool_line(alloc: Global, out: &mut String, pool: &Pool) -> Result<(), OutOfMemory>
    ensures { OnOk result (string_bytes out.new ≡ string_bytes out.old ++ line_text (codes "prefixes") (pool_words pool.now)) }
{
    out.push_str("prefixes")?;
    push_pool(alloc, out, pool)?;
    out.push('\n')?;
    Ok(())
}

/// Appends the words of a want, each behind a blank.
#[tactic(auto, using(crate::proofs::Pushed::pushes))]
fn push_want(
    alloc: Global,
    out: &mut String,
    want: &WantPlan,
    end: &Option<WantEnd>,
) -> Result<(), OutOfMemory>
    ensures { OnOk result (string_bytes out.new ≡ string_bytes out.old ++ spaced (want_words want.now end.now)) }
{
    push_number(out, u64::from(want.length))?;
    push_number(out, u64::from(want.longest))?;
    push_word(out, "=")?;
    push_end(alloc, out, end)
}

/// Appends the line of a want.
#[tactic(auto, using(crate::proofs::Lining::line_pushed))]
fn push_want_line(
    alloc: Global,
    out: &mut String,
    want: &WantPlan,
    end: &Option<WantEnd>,
) -> Result<(), OutOfMemory>
    ensures { OnOk result (string_bytes out.new ≡ string_bytes out.old ++ line_text (codes "want") (want_words want.now end.now)) }
{
    out.push_str("want")?;
    push_want(alloc, out, want, end)?;
    out.push('\n')?;
    Ok(())
}

/// What is noted of the want at a place.
fn noted(ends: &[Option<WantEnd>], place: usize) -> Option<Option<WantEnd>>
    ensures { result ≡ slice_get ends.now place }
{
    ends.get(place).copied()
}

/// How the want at a place ended, where that is noted.
fn end_at(ends: &[Option<WantEnd>], place: usize) -> Option<WantEnd>
    ensures { result ≡ end_at ends.now place }
{
    match noted(ends, place) {
        Some(end) => end,
        None => None,
    }
}

/// Appends a line for each want.
fn push_wants(
    alloc: Global,
    out: &mut String,
    wants: &[WantPlan],
    ends: &[Option<WantEnd>],
) -> Result<(), OutOfMemory>
    ensures { OnOk result (string_bytes out.new ≡ string_bytes out.old ++ wants_text wants.now ends.now) }
{
    for (place, want) in wants.iter().enumerate() {
        push_want_line(alloc, out, want, &end_at(ends, place))?;
    }
    Ok(())
}

/// Appends the words of a reader, each behind a blank.
#[tactic(auto, using(crate::proofs::Pushed::pushes))]
fn push_read(alloc: Global, out: &mut String, reader: &NamedReader) -> Result<(), OutOfMemory>
    ensures { OnOk result (string_bytes out.new ≡ string_bytes out.old ++ spaced (read_words reader.now)) }
{
    push_text(out, reader.name())?;
    push_word(out, "=")?;
    push_word(out, "floods")?;
    push_floods(alloc, out, reader.reads())
}

/// Appends the line of a reader.
#[tactic(auto, using(crate::proofs::Lining::line_pushed))]
fn push_read_line(alloc: Global, out: &mut String, reader: &NamedReader) -> Result<(), OutOfMemory>
    ensures { OnOk result (string_bytes out.new ≡ string_bytes out.old ++ line_text (codes "read") (read_words reader.now)) }
{
    out.push_str("read")?;
    push_read(alloc, out, reader)?;
    out.push('\n')?;
    Ok(())
}

/// Appends the lines of the agent that manages prefixes.
#[tactic(auto, using(crate::proofs::Lining::appended))]
fn push_manager(alloc: Global, out: &mut String, manager: &Manager) -> Result<(), OutOfMemory>
    ensures { OnOk result (string_bytes out.new ≡ string_bytes out.old ++ worker_text (workers.Manager manager.now)) }
{
    push_pool_line(alloc, out, manager.pool())?;
    push_wants(alloc, out, manager.wants(), manager.ends())
}

/// Appends the lines of an agent.
fn push_worker(alloc: Global, out: &mut String, worker: &Worker) -> Result<(), OutOfMemory>
    ensures { OnOk result (string_bytes out.new ≡ string_bytes out.old ++ worker_text worker.now) }
{
    match worker {
        Worker::Manager(manager) => push_manager(alloc, out, manager),
        Worker::Beacon(_) => Ok(()),
        Worker::Reader(reader) => push_read_line(alloc, out, reader),
    }
}

/// Appends the lines of agents.
fn push_crew(alloc: Global, out: &mut String, seats: &[SeatedAgent]) -> Result<(), OutOfMemory>
    ensures { OnOk result (string_bytes out.new ≡ string_bytes out.old ++ crew_text (workers_of seats.now)) }
{
    for seat in seats {
        push_worker(alloc, out, &seat.worker)?;
    }
    Ok(())
}

/// What a node writes at the end: a line of the prefixes that it holds, one for each want, and one for each reader.
pub fn text_of(alloc: Global, daemon: &Daemon) -> Result<String, OutOfMemory>
    ensures { IfOk result (λ text. string_bytes text ≡ crew_text (workers_of daemon.now.seats.items)) }
{
    let mut text = String::new(alloc);
    push_crew(alloc, &mut text, &daemon.seats)?;
    Ok(text)
}
