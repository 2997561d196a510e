//! The bad places of the table `serve`, and of beacons that can't be flooded.

use crate::basics::{read_address, read_listen, read_size};
use crate::config::BeaconConfig;
use crate::finding::Found;
use crate::floodable::{has_room, is_beacon_of, is_taken};
use crate::items::Element;
use crate::lists::read_beacons;
use crate::place::{Path, Reason};
use crate::serve::AllowedRange;
use crate::serve_fault::{ServeFault, ServeKey};
use crate::serve_keys::{read_control, read_forget, read_guests, read_mode, read_store};
use crate::serve_pace::{
    read_every, read_log, read_name, read_retry, read_retry_most, read_tick, read_visitors,
};
use crate::serve_streams::{read_locator, read_silence, read_streams};
use crate::table::{Part, value_at};
use grasp_cbor::{Chars, OutOfMemory};
use toml::{Table, Value};

/// Whether a reader refused what it read.
fn is_refused<T>(read: &Result<T, ServeFault>) -> bool {
    match read {
        Ok(_) => false,
        Err(fault) => *fault != ServeFault::OutOfMemory,
    }
}

/// The beacons that can't be flooded, where each of them is one.
pub(crate) fn tell_floods(found: &mut Found<'_>, table: &Table) -> Result<(), OutOfMemory> {
    let Ok(address) = read_address(table) else {
        return Ok(());
    };
    let Ok(size) = read_size(table) else {
        return Ok(());
    };
    let Ok(beacons) = read_beacons(found.alloc, table) else {
        return Ok(());
    };
    let all = beacons.slice();
    for i in 0..all.len() {
        let path = Path::element("beacon", i as u64);
        tell_name(found, path, &all[i].name, &all[..i])?;
        if !has_room(&address, size, &all[i])? {
            let reason = Reason::Words("`size` has no room for its flood");
            found.push(ServeKey::Floods, path, reason)?;
        }
    }
    Ok(())
}

/// What is wrong with the name of a beacon behind these.
fn tell_name(
    found: &mut Found<'_>,
    path: Path,
    name: &Chars,
    before: &[BeaconConfig],
) -> Result<(), OutOfMemory> {
    let path = path.inner("name");
    if is_taken(name) {
        let reason = Reason::Words("the name of the prefix agent's objective");
        return found.push(ServeKey::Floods, path, reason);
    }
    match before.iter().position(|beacon| is_beacon_of(name, beacon)) {
        Some(first) => found.push(ServeKey::Floods, path, Reason::NamedAs(first as u64)),
        None => Ok(()),
    }
}

/// The bad places of the value at `serve`, beside the node's own part.
pub(crate) fn tell_serve(
    found: &mut Found<'_>,
    part: &Table,
    serve: &Option<Value>,
) -> Result<(), OutOfMemory> {
    let path = Path::top("serve");
    match serve {
        Some(Value::Table(table)) => {
            tell_doors(found, table)?;
            tell_store(found, table)?;
            tell_locator(found, part, table)?;
            tell_allow(found, table)?;
            tell_streams(found, table)?;
            tell_retries(found, table)?;
            tell_paces(found, table)?;
            tell_shown(found, table)?;
            found.unknown(ServeKey::Unknown, path, Part::Serve, table)
        }
        Some(_) => found.push(ServeKey::Serve, path, Reason::Isnt("a table")),
        None => found.push(ServeKey::Serve, path, Reason::Absent),
    }
}

/// The path to a key of the table `serve`.
fn at(key: &'static str) -> Path {
    Path::top("serve").inner(key)
}

/// The bad ones of the sockets' keys.
fn tell_doors(found: &mut Found<'_>, table: &Table) -> Result<(), OutOfMemory> {
    let socket = "a text of 1 to 107 bytes";
    if is_refused(&read_control(found.alloc, table)) {
        found.word(
            ServeKey::Control,
            at("control"),
            value_at(table, "control"),
            socket,
        )?;
    }
    if is_refused(&read_guests(found.alloc, table)) {
        found.word(
            ServeKey::Guests,
            at("guests"),
            value_at(table, "guests"),
            socket,
        )?;
    }
    if is_refused(&read_mode(table)) {
        found.word(
            ServeKey::Mode,
            at("mode"),
            value_at(table, "mode"),
            "a text of three octal digits",
        )?;
    }
    Ok(())
}

/// The bad ones of the keys of the store.
fn tell_store(found: &mut Found<'_>, table: &Table) -> Result<(), OutOfMemory> {
    if is_refused(&read_store(found.alloc, table)) {
        match value_at(table, "store") {
            None => found.push(
                ServeKey::Store,
                at("store"),
                Reason::Words("absent, and `forget` isn't true"),
            )?,
            value => found.word(
                ServeKey::Store,
                at("store"),
                value,
                "a text of 1 to 4095 bytes",
            )?,
        }
    }
    if is_refused(&read_forget(table)) {
        let reason = match value_at(table, "forget") {
            Some(value) if value.is_bool() => Reason::Words("true, though there is a store"),
            _ => Reason::Isnt("true or false"),
        };
        found.push(ServeKey::Forget, at("forget"), reason)?;
    }
    Ok(())
}

/// That the locator can't be told to others.
fn tell_locator(found: &mut Found<'_>, part: &Table, table: &Table) -> Result<(), OutOfMemory> {
    let Ok(listen) = read_listen(part) else {
        return Ok(());
    };
    if !is_refused(&read_locator(&listen, table)) {
        return Ok(());
    }
    match value_at(table, "locator") {
        None => found.push(
            ServeKey::Locator,
            at("locator"),
            Reason::Words("absent, and others can't come to `listen`"),
        ),
        value => found.word(
            ServeKey::Locator,
            at("locator"),
            value,
            "ADDRESS:PORT to which others can come",
        ),
    }
}

/// The bad ones of the ranges that may open streams.
fn tell_allow(found: &mut Found<'_>, table: &Table) -> Result<(), OutOfMemory> {
    let Some(value) = value_at(table, "allow") else {
        return Ok(());
    };
    let values = found.list(ServeKey::Allow, at("allow"), value)?;
    if values.is_empty() && value.is_array() {
        found.push(ServeKey::Allow, at("allow"), Reason::Words("an empty list"))?;
    }
    for i in 0..values.len() {
        if AllowedRange::element(found.alloc, &values[i])?.is_none() {
            found.word(
                ServeKey::Allow,
                at("allow").at(i as u64),
                Some(&values[i]),
                "ADDRESS or ADDRESS/LENGTH",
            )?;
        }
    }
    Ok(())
}

/// The bad ones of the streams' keys.
fn tell_streams(found: &mut Found<'_>, table: &Table) -> Result<(), OutOfMemory> {
    if is_refused(&read_streams(table)) {
        found.number(
            ServeKey::Streams,
            at("streams"),
            value_at(table, "streams"),
            1,
            64,
        )?;
    }
    if is_refused(&read_silence(table)) {
        found.number(
            ServeKey::Silence,
            at("silence"),
            value_at(table, "silence"),
            1000,
            3600000,
        )?;
    }
    Ok(())
}

/// The bad ones of the pauses of wants.
fn tell_retries(found: &mut Found<'_>, table: &Table) -> Result<(), OutOfMemory> {
    match read_retry(table) {
        Ok(retry) => {
            if is_refused(&read_retry_most(table, retry)) {
                let value = value_at(table, "retry_most");
                found.number(
                    ServeKey::RetryMost,
                    at("retry_most"),
                    value,
                    u64::from(retry),
                    86400000,
                )?;
            }
            Ok(())
        }
        Err(_) => found.number(
            ServeKey::Retry,
            at("retry"),
            value_at(table, "retry"),
            100,
            3600000,
        ),
    }
}

/// The bad ones of the other pauses.
fn tell_paces(found: &mut Found<'_>, table: &Table) -> Result<(), OutOfMemory> {
    if is_refused(&read_every(table)) {
        found.number(
            ServeKey::Every,
            at("every"),
            value_at(table, "every"),
            1000,
            86400000,
        )?;
    }
    if is_refused(&read_tick(table)) {
        found.number(
            ServeKey::Tick,
            at("tick"),
            value_at(table, "tick"),
            100,
            1000,
        )?;
    }
    Ok(())
}

/// The bad ones of the keys of what is shown.
fn tell_shown(found: &mut Found<'_>, table: &Table) -> Result<(), OutOfMemory> {
    if is_refused(&read_visitors(table)) {
        found.number(
            ServeKey::Visitors,
            at("visitors"),
            value_at(table, "visitors"),
            1,
            64,
        )?;
    }
    if is_refused(&read_log(table)) {
        found.word(
            ServeKey::Log,
            at("log"),
            value_at(table, "log"),
            "quiet, events or traffic",
        )?;
    }
    if is_refused(&read_name(found.alloc, table)) {
        let wanted = "a text of 1 to 32 printable characters of ASCII";
        found.word(ServeKey::Name, at("name"), value_at(table, "name"), wanted)?;
    }
    Ok(())
}
