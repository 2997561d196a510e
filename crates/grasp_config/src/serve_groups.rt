//! The keys of the table `serve`, read in groups.

ghost use Rattle.std.specs.Prelude.{◌≡◌, true, IfOk};
ghost use Rattle.toml.specs.Data.{Members};
ghost use Rattle.toml.specs.View.{table_view};
ghost use Rattle.grasp_types.specs.declared.address.Locator.{Locator};
ghost use Rattle.grasp_config.specs.ServeKeys.{is_serve_known};
ghost use Rattle.grasp_config.specs.Serve.{IsServeTable, IsBadServeKey, FirstOf, serve_order};
ghost use Rattle.grasp_config.specs.ServeFaults.{IfBadServe};
ghost use Rattle.grasp_config.specs.ServeGroups.{door_keys, AreDoors, store_keys, stream_keys, AreStreams, pace_keys, ArePaces, shown_keys, AreShown, IsStore};

use crate::level::LogLevel;
use crate::serve::{AllowedRange, ServeTable};
use crate::serve_fault::{ServeFault, ServeKey};
use crate::serve_keys::{read_control, read_forget, read_guests, read_mode, read_store};
use crate::serve_pace::{
    read_every, read_log, read_name, read_retry, read_retry_most, read_tick, read_visitors,
};
use crate::serve_streams::{read_allow, read_locator, read_silence, read_streams};
use crate::table::{Part, has_only};
use grasp_cbor::Chars;
use grasp_types::{List, Locator};
use std::alloc::Global;
use toml::Table;

/// Where the node is spoken to.
#[derive(Drop)]
struct Doors {
    control: Chars,
    guests: Option<Chars>,
    mode: u16,
}

/// What others are told, and which streams may stand open.
#[derive(Drop)]
struct Streams {
    locator: Locator,
    allow: List<AllowedRange>,
    streams: u8,
    silence: u32,
}

/// How often things are done.
#[derive(Drop)]
struct Paces {
    retry: u32,
    retry_most: u32,
    every: Option<u32>,
    tick: u32,
}

/// What is shown.
#[derive(Drop)]
struct Shown {
    visitors: u8,
    log: LogLevel,
    name: Option<Chars>,
}

/// The table `serve` of a node that listens here.
pub(crate) fn serve_table(
    alloc: Global,
    listen: &Locator,
    table: &Table,
) -> Result<ServeTable, ServeFault>
    ensures found { IfOk result (λ serve. IsServeTable listen.now (table_view table.now) serve) }
    ensures first { IfBadServe result (λ key. FirstOf (IsBadServeKey listen.now (table_view table.now)) serve_order key) }
{
    let doors = read_doors(alloc, table)?;
    let store = read_keeping(alloc, table)?;
    let streams = read_stream_keys(alloc, listen, table)?;
    let paces = read_paces(table)?;
    let shown = read_shown(alloc, table)?;
    if has_only(Part::Serve, table) {
        Ok(joined(doors, store, streams, paces, shown))
    } else {
        Err(ServeFault::BadServe {
            key: ServeKey::Unknown,
        })
    }
}

/// The whole of these parts.
fn joined(
    doors: Doors,
    store: Option<Chars>,
    streams: Streams,
    paces: Paces,
    shown: Shown,
) -> ServeTable
    ensures { (listen : Locator) (table : Members) → AreDoors table doors → IsStore table store → AreStreams listen table streams → ArePaces table paces
        → AreShown table shown → is_serve_known table ≡ true → IsServeTable listen table result }
{
    ServeTable {
        control: doors.control,
        guests: doors.guests,
        mode: doors.mode,
        store,
        locator: streams.locator,
        allow: streams.allow,
        streams: streams.streams,
        silence: streams.silence,
        retry: paces.retry,
        retry_most: paces.retry_most,
        every: paces.every,
        tick: paces.tick,
        visitors: shown.visitors,
        log: shown.log,
        name: shown.name,
    }
}

/// Where the node is spoken to, in the order of the keys.
fn read_doors(alloc: Global, table: &Table) -> Result<Doors, ServeFault>
    ensures found { IfOk result (λ doors. AreDoors (table_view table.now) doors) }
    ensures first { (listen : Locator) → IfBadServe result (λ key. FirstOf (IsBadServeKey listen (table_view table.now)) door_keys key) }
{
    let control = read_control(alloc, table)?;
    let guests = read_guests(alloc, table)?;
    let mode = read_mode(table)?;
    Ok(Doors {
        control,
        guests,
        mode,
    })
}

/// The path of the store, or none where the pool is to be forgotten.
fn read_keeping(alloc: Global, table: &Table) -> Result<Option<Chars>, ServeFault>
    ensures found { IfOk result (λ store. IsStore (table_view table.now) store) }
    ensures first { (listen : Locator) → IfBadServe result (λ key. FirstOf (IsBadServeKey listen (table_view table.now)) store_keys key) }
{
    let store = read_store(alloc, table)?;
    let _ = read_forget(table)?;
    Ok(store)
}

/// What others are told and which streams may stand open, in the order of the keys.
fn read_stream_keys(alloc: Global, listen: &Locator, table: &Table) -> Result<Streams, ServeFault>
    ensures found { IfOk result (λ streams. AreStreams listen.now (table_view table.now) streams) }
    ensures first { IfBadServe result (λ key. FirstOf (IsBadServeKey listen.now (table_view table.now)) stream_keys key) }
{
    let locator = read_locator(listen, table)?;
    let allow = read_allow(alloc, table)?;
    let streams = read_streams(table)?;
    let silence = read_silence(table)?;
    Ok(Streams {
        locator,
        allow,
        streams,
        silence,
    })
}

/// How often things are done, in the order of the keys.
fn read_paces(table: &Table) -> Result<Paces, ServeFault>
    ensures found { IfOk result (λ paces. ArePaces (table_view table.now) paces) }
    ensures first { (listen : Locator) → IfBadServe result (λ key. FirstOf (IsBadServeKey listen (table_view table.now)) pace_keys key) }
{
    let retry = read_retry(table)?;
    let retry_most = read_retry_most(table, retry)?;
    let every = read_every(table)?;
    let tick = read_tick(table)?;
    Ok(Paces {
        retry,
        retry_most,
        every,
        tick,
    })
}

/// What is shown, in the order of the keys.
fn read_shown(alloc: Global, table: &Table) -> Result<Shown, ServeFault>
    ensures found { IfOk result (λ shown. AreShown (table_view table.now) shown) }
    ensures first { (listen : Locator) → IfBadServe result (λ key. FirstOf (IsBadServeKey listen (table_view table.now)) shown_keys key) }
{
    let visitors = read_visitors(table)?;
    let log = read_log(table)?;
    let name = read_name(alloc, table)?;
    Ok(Shown {
        visitors,
        log,
        name,
    })
}
