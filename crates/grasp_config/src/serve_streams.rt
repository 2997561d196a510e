//! The keys of the table `serve` that say what others are told, and which streams may stand open.

ghost use Rattle.std.specs.Prelude.{◌≡◌, Option, IfOk};
ghost use Rattle.toml.specs.Data.{get_member};
ghost use Rattle.toml.specs.View.{view, table_view};
ghost use Rattle.grasp_config.specs.ServeFaults.{ServeKeyRead};
ghost use Rattle.grasp_config.specs.Table.{or_absent, number_in};
ghost use Rattle.grasp_config.specs.ServeKeys.{is_reachable, reachable, endpoint_value, locator_in, bits_of, one_address, parted_range, allowed_of, allowed_value, some_of, ranges_of, allow_in, streams_in, silence_in};
ghost use Rattle.grasp_config.specs.declared.serve_fault.ServeKey.TheVariants as key;

use crate::items::{Element, list_of};
use crate::serve::AllowedRange;
use crate::serve_fault::{ServeFault, ServeKey};
use crate::table::{number_in, value_at};
use crate::words::{endpoint, parted_at_slash};
use grasp_cbor::OutOfMemory;
use grasp_text::{address, number};
use grasp_types::{Address, List, Locator, Plain};
use std::alloc::Global;
use toml::{Table, Value};

/// The number at a key, which is this one where the key is absent, or `None` where it isn't from `least` to `most`.
pub(crate) fn number_or(table: &Table, key: &str, absent: u64, least: u64, most: u64) -> Option<u64>
    ensures { result ≡ or_absent absent (number_in least most) (get_member key.now (table_view table.now)) }
{
    match value_at(table, key) {
        Some(value) => number_in(value, least, most),
        None => Some(absent),
    }
}

/// Whether others can come to a locator.
fn is_reachable(locator: &Locator) -> bool
    ensures { result ≡ is_reachable locator.now }
{
    match locator {
        Locator::V6 { address, port, .. } => *address != 0 && *port != 0,
        Locator::V4 { address, port, .. } => *address != 0 && *port != 0,
        Locator::Fqdn { .. } => false,
        Locator::Uri { .. } => false,
    }
}

/// A locator, if others can come to it.
fn reachable(locator: Locator) -> Option<Locator>
    ensures { result ≡ reachable locator }
{
    if is_reachable(&locator) {
        Some(locator)
    } else {
        None
    }
}

/// The endpoint of a value, or `None`.
fn endpoint_value(value: &Value) -> Option<Locator>
    ensures { result ≡ endpoint_value (view value.now) }
{
    match value.as_str() {
        Some(word) => endpoint(word),
        None => None,
    }
}

/// The locator at the key, or this one where it is absent, if others can come to it.
fn told(listen: &Locator, table: &Table) -> Result<Option<Locator>, OutOfMemory>
    ensures { IfOk result (λ o. o ≡ locator_in listen.now (table_view table.now)) }
{
    let Some(value) = value_at(table, "locator") else {
        return Ok(reachable(listen.copy()?));
    };
    match endpoint_value(value) {
        Some(locator) => Ok(reachable(locator)),
        None => Ok(None),
    }
}

/// The locator that others are told, of a node that listens here.
pub(crate) fn read_locator(listen: &Locator, table: &Table) -> Result<Locator, ServeFault>
    ensures { ServeKeyRead key.Locator (locator_in listen.now (table_view table.now)) result }
{
    match told(listen, table)? {
        Some(locator) => Ok(locator),
        None => Err(ServeFault::BadServe {
            key: ServeKey::Locator,
        }),
    }
}

/// How many bits an address has.
fn bits_of(address: Address) -> u8
    ensures { result ≡ bits_of address }
{
    match address {
        Address::V4(_) => 32,
        Address::V6(_) => 128,
    }
}

/// The range that is one address, or `None`.
fn one_address(word: &str) -> Option<AllowedRange>
    ensures { result ≡ one_address word.now }
{
    let address = address(word.as_bytes())?;
    Some(AllowedRange {
        address,
        length: bits_of(address),
    })
}

/// The range of an address and a length, or `None`.
#[tactic(auto, unfolding(crate::specs::ServeKeys::parted_range))]
fn parted_range(front: &str, back: &str) -> Option<AllowedRange>
    ensures { result ≡ parted_range (front.now, back.now) }
{
    let address = address(front.as_bytes())?;
    let length = number(back.as_bytes(), u64::from(bits_of(address)))?;
    Some(AllowedRange {
        address,
        length: length as u8,
    })
}

/// The range of `ADDRESS` or `ADDRESS/LENGTH`, or `None`.
#[tactic(auto, unfolding(crate::specs::ServeKeys::allowed_of))]
fn allowed(word: &str) -> Option<AllowedRange>
    ensures { result ≡ allowed_of word.now }
{
    match parted_at_slash(word) {
        Some((front, back)) => parted_range(front, back),
        None => one_address(word),
    }
}

impl Element for AllowedRange {
    ghost read = { allowed_value };

    fn element(_alloc: Global, value: &Value) -> Result<Option<AllowedRange>, OutOfMemory> {
        match value.as_str() {
            Some(word) => Ok(allowed(word)),
            None => Ok(None),
        }
    }
}

/// A list, if it isn't empty.
fn some_of<T: Drop>(list: List<T>) -> Option<List<T>>
    ensures { result ≡ some_of list }
{
    if list.len() == 0 { None } else { Some(list) }
}

/// The ranges of a value, or `None`.
fn ranges_of(alloc: Global, value: &Value) -> Result<Option<List<AllowedRange>>, OutOfMemory>
    ensures { IfOk result (λ o. o ≡ ranges_of (view value.now)) }
{
    match list_of::<AllowedRange>(alloc, value)? {
        Some(ranges) => Ok(some_of(ranges)),
        None => Ok(None),
    }
}

/// Who may open streams.
pub(crate) fn read_allow(alloc: Global, table: &Table) -> Result<List<AllowedRange>, ServeFault>
    ensures { ServeKeyRead key.Allow (allow_in (table_view table.now)) result }
{
    let Some(value) = value_at(table, "allow") else {
        return Ok(List::new(alloc));
    };
    match ranges_of(alloc, value)? {
        Some(ranges) => Ok(ranges),
        None => Err(ServeFault::BadServe {
            key: ServeKey::Allow,
        }),
    }
}

/// The most open streams of one address.
pub(crate) fn read_streams(table: &Table) -> Result<u8, ServeFault>
    ensures { ServeKeyRead key.Streams (streams_in (table_view table.now)) result }
{
    match number_or(table, "streams", 16, 1, 64) {
        Some(n) => Ok(n as u8),
        None => Err(ServeFault::BadServe {
            key: ServeKey::Streams,
        }),
    }
}

/// For how many milliseconds a stream may give nothing.
pub(crate) fn read_silence(table: &Table) -> Result<u32, ServeFault>
    ensures { ServeKeyRead key.Silence (silence_in (table_view table.now)) result }
{
    match number_or(table, "silence", 60000, 1000, 3600000) {
        Some(n) => Ok(n as u32),
        None => Err(ServeFault::BadServe {
            key: ServeKey::Silence,
        }),
    }
}
