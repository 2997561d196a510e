//! The bad places of the node's own part of a configuration.

use crate::basics::{read_address, read_listen, read_size, read_turns, read_wait};
use crate::config::{BeaconConfig, WantConfig};
use crate::fault::{ConfigFault, ConfigKey};
use crate::finding::Found;
use crate::items::{Element, list_of};
use crate::lists::{read_beacons, read_readers};
use crate::place::{Path, Reason};
use crate::serve_fault::ServeKey;
use crate::table::{Part, number_at, text_at, value_at};
use grasp_cbor::{Chars, OutOfMemory};
use grasp_pool::{Pool, PoolFault, RootPrefix};
use grasp_text::value as grasp_value;
use grasp_types::{Neighbour, Neighbours};
use toml::{Table, Value};

/// A key of the node's own part.
fn node(key: ConfigKey) -> ServeKey {
    ServeKey::Node { key }
}

/// Whether a reader refused what it read.
pub(crate) fn is_refused<T>(read: &Result<T, ConfigFault>) -> bool {
    match read {
        Ok(_) => false,
        Err(fault) => *fault != ConfigFault::OutOfMemory,
    }
}

/// The bad places of a configuration, in the order of its keys.
pub(crate) fn tell_node(found: &mut Found<'_>, table: &Table) -> Result<(), OutOfMemory> {
    tell_basics(found, table)?;
    tell_roots(found, table)?;
    tell_links(found, table)?;
    tell_wants(found, table)?;
    tell_beacons(found, table)?;
    tell_readers(found, table)?;
    found.unknown(node(ConfigKey::Unknown), Path::top(""), Part::Top, table)
}

/// The bad ones of the keys that hold one word or number.
fn tell_basics(found: &mut Found<'_>, table: &Table) -> Result<(), OutOfMemory> {
    if is_refused(&read_address(table)) {
        found.address_at(
            node(ConfigKey::Address),
            Path::top("address"),
            table,
            "address",
        )?;
    }
    if is_refused(&read_listen(table)) {
        found.endpoint_at(
            node(ConfigKey::Listen),
            Path::top("listen"),
            table,
            "listen",
        )?;
    }
    if is_refused(&read_turns(table)) {
        found.number(
            node(ConfigKey::Turns),
            Path::top("turns"),
            value_at(table, "turns"),
            1,
            1000000,
        )?;
    }
    if is_refused(&read_wait(table)) {
        found.number(
            node(ConfigKey::Wait),
            Path::top("wait"),
            value_at(table, "wait"),
            0,
            1000,
        )?;
    }
    if is_refused(&read_size(table)) {
        found.number(
            node(ConfigKey::Size),
            Path::top("size"),
            value_at(table, "size"),
            2048,
            65535,
        )?;
    }
    Ok(())
}

/// The bad ones of the prefixes that the pool is opened with.
fn tell_roots(found: &mut Found<'_>, table: &Table) -> Result<(), OutOfMemory> {
    let Some(value) = value_at(table, "roots") else {
        return Ok(());
    };
    let values = found.list(node(ConfigKey::Roots), Path::top("roots"), value)?;
    for i in 0..values.len() {
        if RootPrefix::element(found.alloc, &values[i])?.is_none() {
            let path = Path::element("roots", i as u64);
            found.word(
                node(ConfigKey::Roots),
                path,
                Some(&values[i]),
                "ADDRESS/LENGTH of IPv6",
            )?;
        }
    }
    match list_of::<RootPrefix>(found.alloc, value)? {
        Some(roots) => tell_pool(found, roots.slice()),
        None => Ok(()),
    }
}

/// Why a pool doesn't open with these roots.
fn tell_pool(found: &mut Found<'_>, roots: &[RootPrefix]) -> Result<(), OutOfMemory> {
    let key = node(ConfigKey::Roots);
    match Pool::open(found.alloc, roots) {
        Ok(_) => Ok(()),
        Err(PoolFault::TooMany) => found.push(key, Path::top("roots"), Reason::TooMany(1024)),
        Err(PoolFault::BadRoot { index }) => {
            found.push(key, Path::element("roots", index), Reason::Isnt("a prefix"))
        }
        Err(PoolFault::Overlap { first, second }) => {
            found.push(key, Path::element("roots", second), Reason::Overlaps(first))
        }
        Err(PoolFault::OutOfMemory) => Err(OutOfMemory),
    }
}

/// The bad ones of the links.
fn tell_links(found: &mut Found<'_>, table: &Table) -> Result<(), OutOfMemory> {
    let Some(value) = value_at(table, "link") else {
        return Ok(());
    };
    let values = found.list(node(ConfigKey::Link), Path::top("link"), value)?;
    if values.len() > 16 {
        found.push(
            node(ConfigKey::Link),
            Path::top("link"),
            Reason::TooMany(16),
        )?;
    }
    for i in 0..values.len() {
        if Neighbours::element(found.alloc, &values[i])?.is_none() {
            tell_link(found, Path::element("link", i as u64), &values[i])?;
        }
    }
    Ok(())
}

/// What is wrong with a link.
fn tell_link(found: &mut Found<'_>, path: Path, value: &Value) -> Result<(), OutOfMemory> {
    let key = node(ConfigKey::Link);
    let Some(table) = found.table(key, path, Part::Link, value)? else {
        return Ok(());
    };
    let path = path.inner("neighbour");
    let Some(value) = value_at(table, "neighbour") else {
        return found.push(key, path, Reason::Absent);
    };
    let values = found.list(key, path, value)?;
    if values.len() > 16 {
        found.push(key, path, Reason::TooMany(16))?;
    }
    for i in 0..values.len() {
        if Neighbour::element(found.alloc, &values[i])?.is_none() {
            tell_neighbour(found, path.at(i as u64), &values[i])?;
        }
    }
    Ok(())
}

/// What is wrong with a neighbour.
fn tell_neighbour(found: &mut Found<'_>, path: Path, value: &Value) -> Result<(), OutOfMemory> {
    let key = node(ConfigKey::Link);
    let Some(table) = found.table(key, path, Part::Neighbour, value)? else {
        return Ok(());
    };
    found.address_at(key, path.leaf("address"), table, "address")?;
    found.endpoint_at(key, path.leaf("at"), table, "at")
}

/// The bad ones of the wants.
fn tell_wants(found: &mut Found<'_>, table: &Table) -> Result<(), OutOfMemory> {
    let Some(value) = value_at(table, "want") else {
        return Ok(());
    };
    let values = found.list(node(ConfigKey::Want), Path::top("want"), value)?;
    for i in 0..values.len() {
        if WantConfig::element(found.alloc, &values[i])?.is_none() {
            tell_want(found, Path::element("want", i as u64), &values[i])?;
        }
    }
    Ok(())
}

/// What is wrong with a want.
fn tell_want(found: &mut Found<'_>, path: Path, value: &Value) -> Result<(), OutOfMemory> {
    let key = node(ConfigKey::Want);
    let Some(table) = found.table(key, path, Part::Want, value)? else {
        return Ok(());
    };
    let length = number_at(table, "length", 1, 128);
    if length.is_none() {
        found.number(key, path.inner("length"), value_at(table, "length"), 1, 128)?;
    }
    let least = length.unwrap_or(1);
    if number_at(table, "longest", least, 128).is_none() {
        found.number(
            key,
            path.inner("longest"),
            value_at(table, "longest"),
            least,
            128,
        )?;
    }
    found.endpoint_at(key, path.inner("peer"), table, "peer")
}

/// The bad ones of the beacons.
fn tell_beacons(found: &mut Found<'_>, table: &Table) -> Result<(), OutOfMemory> {
    let Some(value) = value_at(table, "beacon") else {
        return Ok(());
    };
    let values = found.list(node(ConfigKey::Beacon), Path::top("beacon"), value)?;
    for i in 0..values.len() {
        if BeaconConfig::element(found.alloc, &values[i])?.is_none() {
            tell_beacon(found, Path::element("beacon", i as u64), &values[i])?;
        }
    }
    Ok(())
}

/// What is wrong with a beacon.
fn tell_beacon(found: &mut Found<'_>, path: Path, value: &Value) -> Result<(), OutOfMemory> {
    let key = node(ConfigKey::Beacon);
    let Some(table) = found.table(key, path, Part::Beacon, value)? else {
        return Ok(());
    };
    if text_at(table, "name").is_none() {
        found.word(key, path.inner("name"), value_at(table, "name"), "a text")?;
    }
    let is_value = match text_at(table, "value") {
        Some(word) => grasp_value(found.alloc, word.as_bytes())?.is_some(),
        None => false,
    };
    if !is_value {
        found.word(
            key,
            path.inner("value"),
            value_at(table, "value"),
            "x and the digits of a value's encoding",
        )?;
    }
    if number_at(table, "ttl", 0, 4294967295).is_none() {
        found.number(
            key,
            path.inner("ttl"),
            value_at(table, "ttl"),
            0,
            4294967295,
        )?;
    }
    if number_at(table, "loops", 0, 255).is_none() {
        found.number(key, path.inner("loops"), value_at(table, "loops"), 0, 255)?;
    }
    Ok(())
}

/// The bad ones of the readers, or that there are too many.
fn tell_readers(found: &mut Found<'_>, table: &Table) -> Result<(), OutOfMemory> {
    let key = node(ConfigKey::Reader);
    let Some(value) = value_at(table, "reader") else {
        return Ok(());
    };
    let values = found.list(key, Path::top("reader"), value)?;
    let mut good = true;
    for i in 0..values.len() {
        if Chars::element(found.alloc, &values[i])?.is_none() {
            good = false;
            let path = Path::element("reader", i as u64);
            if let Some(table) = found.table(key, path, Part::Reader, &values[i])? {
                if text_at(table, "name").is_none() {
                    found.word(key, path.inner("name"), value_at(table, "name"), "a text")?;
                }
            }
        }
    }
    if !good || !value.is_array() {
        return Ok(());
    }
    match read_beacons(found.alloc, table) {
        Ok(beacons) => {
            if is_refused(&read_readers(found.alloc, table, &beacons)) {
                found.push(
                    key,
                    Path::top("reader"),
                    Reason::Words("more than 7 beacons and readers together"),
                )?;
            }
            Ok(())
        }
        Err(_) => Ok(()),
    }
}
