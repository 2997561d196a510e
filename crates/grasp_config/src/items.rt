//! Lists in a configuration, and the elements of them.

ghost use Rattle.std.specs.Prelude.{◌≡◌, Option, IfOk, option_map};
ghost use Rattle.toml.specs.Data.{Data};
ghost use Rattle.toml.specs.View.{view, items_view, table_view};
ghost use Rattle.grasp_config.specs.Table.{each, list_of, at_most};
ghost use Rattle.grasp_config.specs.Keys.{root_value, neighbour_of, neighbours_of, link_of, want_of, value_in, beacon_in, beacon_of, reader_of};

use crate::config::{BeaconConfig, WantConfig};
use crate::table::{Part, number_at, table_of, text_at, value_at};
use crate::words::{endpoint, root};
use grasp_cbor::{Chars, OutOfMemory};
use grasp_pool::RootPrefix;
use grasp_text::{address, value};
use grasp_types::{List, Neighbour, Neighbours, Value as GraspValue};
use std::alloc::Global;
use toml::{Table, Value};

/// How many neighbours a link has at most.
const MOST_NEIGHBOURS: u64 = 16;

/// What stands as an element in a list.
pub(crate) trait Element: Drop {
    ghost read: { Data → Option Self };

    /// The element that a value is, or `None` where it is none.
    fn element(alloc: Global, value: &Value) -> Result<Option<Self>, OutOfMemory>
        ensures { IfOk result (λ o. o ≡ read (view value.now)) };
}

/// The elements of a list, in order, or `None` where one of them is bad, or it is no list.
pub(crate) fn list_of<T: Element>(
    alloc: Global,
    value: &Value,
) -> Result<Option<List<T>>, OutOfMemory>
    ensures { IfOk result (λ o. o ≡ list_of T.read (view value.now)) }
{
    match value.as_array() {
        Some(array) => all_of(alloc, array.as_slice()),
        None => Ok(None),
    }
}

/// The elements that these values are, in order, or `None` where one of them is none.
fn all_of<T: Element>(alloc: Global, values: &[Value]) -> Result<Option<List<T>>, OutOfMemory>
    ensures { IfOk result (λ o. o ≡ each T.read (items_view values.now)) }
{
    let mut list = List::new(alloc);
    for i in 0..values.len() {
        let Some(next) = T::element(alloc, &values[i])? else {
            return Ok(None);
        };
        list.push(next)?;
    }
    Ok(Some(list))
}

impl Element for RootPrefix {
    ghost read = { root_value };

    fn element(_alloc: Global, value: &Value) -> Result<Option<RootPrefix>, OutOfMemory> {
        match value.as_str() {
            Some(text) => Ok(root(text)),
            None => Ok(None),
        }
    }
}

/// The neighbour of a table, or `None`.
#[tactic(auto, unfolding(crate::specs::Keys::neighbour_of))]
fn neighbour(value: &Value) -> Option<Neighbour>
    ensures { result ≡ neighbour_of (view value.now) }
{
    let table = table_of(Part::Neighbour, value)?;
    let host = address(text_at(table, "address")?.as_bytes())?;
    let locator = endpoint(text_at(table, "at")?)?;
    Some(Neighbour {
        address: host,
        locator,
    })
}

impl Element for Neighbour {
    ghost read = { neighbour_of };

    fn element(_alloc: Global, value: &Value) -> Result<Option<Neighbour>, OutOfMemory> {
        Ok(neighbour(value))
    }
}

/// The neighbours of a link, at most 16, or `None`.
fn neighbours(alloc: Global, value: &Value) -> Result<Option<Neighbours>, OutOfMemory>
    ensures { IfOk result (λ o. o ≡ neighbours_of (view value.now)) }
{
    match list_of::<Neighbour>(alloc, value)? {
        Some(neighbours) => Ok(at_most(MOST_NEIGHBOURS, neighbours)),
        None => Ok(None),
    }
}

/// A list that has no more than so many, or `None`.
pub(crate) fn at_most<T: Drop>(most: u64, list: List<T>) -> Option<List<T>>
    ensures { result ≡ at_most most list }
{
    if list.len() <= most { Some(list) } else { None }
}

impl Element for Neighbours {
    ghost read = { link_of };

    #[tactic(auto, unfolding(crate::specs::Keys::link_of))]
    fn element(alloc: Global, value: &Value) -> Result<Option<Neighbours>, OutOfMemory> {
        let Some(table) = table_of(Part::Link, value) else {
            return Ok(None);
        };
        match value_at(table, "neighbour") {
            Some(value) => neighbours(alloc, value),
            None => Ok(None),
        }
    }
}

/// The want of a table, or `None`.
#[tactic(auto, unfolding(crate::specs::Keys::want_of))]
fn want(value: &Value) -> Option<WantConfig>
    ensures { result ≡ want_of (view value.now) }
{
    let table = table_of(Part::Want, value)?;
    let length = number_at(table, "length", 1, 128)?;
    let longest = number_at(table, "longest", length, 128)?;
    let peer = endpoint(text_at(table, "peer")?)?;
    Some(WantConfig {
        length: length as u8,
        longest: longest as u8,
        peer,
    })
}

impl Element for WantConfig {
    ghost read = { want_of };

    fn element(_alloc: Global, value: &Value) -> Result<Option<WantConfig>, OutOfMemory> {
        Ok(want(value))
    }
}

impl Element for BeaconConfig {
    ghost read = { beacon_of };

    fn element(alloc: Global, value: &Value) -> Result<Option<BeaconConfig>, OutOfMemory> {
        match table_of(Part::Beacon, value) {
            Some(table) => beacon(alloc, table),
            None => Ok(None),
        }
    }
}

/// The beacon of a table that has no other keys than its own, or `None`.
#[tactic(auto, unfolding(crate::specs::Keys::beacon_in))]
fn beacon(alloc: Global, table: &Table) -> Result<Option<BeaconConfig>, OutOfMemory>
    ensures { IfOk result (λ o. o ≡ beacon_in (table_view table.now)) }
{
    let Some(name) = text_at(table, "name") else {
        return Ok(None);
    };
    let Some(ttl) = number_at(table, "ttl", 0, 4294967295) else {
        return Ok(None);
    };
    let Some(loops) = number_at(table, "loops", 0, 255) else {
        return Ok(None);
    };
    let Some(value) = value_in(alloc, table)? else {
        return Ok(None);
    };
    Ok(Some(BeaconConfig {
        name: Chars::of(alloc, name)?,
        value,
        ttl: ttl as u32,
        loops: loops as u8,
    }))
}

/// The value of a beacon, or `None`.
fn value_in(alloc: Global, table: &Table) -> Result<Option<GraspValue>, OutOfMemory>
    ensures { IfOk result (λ o. o ≡ value_in (table_view table.now)) }
{
    match text_at(table, "value") {
        Some(word) => value(alloc, word.as_bytes()),
        None => Ok(None),
    }
}

impl Element for Chars {
    ghost read = { reader_of };

    #[tactic(auto, unfolding(crate::specs::Keys::reader_of))]
    fn element(alloc: Global, value: &Value) -> Result<Option<Chars>, OutOfMemory> {
        match reader_name(value) {
            Some(name) => Ok(Some(Chars::of(alloc, name)?)),
            None => Ok(None),
        }
    }
}

/// The name in the table of a reader, or `None`.
#[tactic(auto, unfolding(crate::specs::Keys::reader_of))]
fn reader_name(value: &Value) -> Option<&str>
    ensures { option_map (λ s. s.now) result ≡ reader_of (view value.now) }
{
    let table = table_of(Part::Reader, value)?;
    text_at(table, "name")
}
