//! All bad places of a configuration, for people.

ghost use Rattle.std.specs.Prelude.{IfOk, IsTrue};
ghost use Rattle.grasp_config.specs.Places.{TellsServe, TellsNode, IsLedBy};

use crate::fault::{ConfigFault, ConfigKey};
use crate::finding::Found;
use crate::node_part::take_serve;
use crate::node_places::tell_node;
use crate::place::{BadPlace, Path};
use crate::place_lines::position;
use crate::read::read_config;
use crate::serve_fault::{ServeFault, ServeKey, serve_key_word};
use crate::serve_places::{tell_floods, tell_serve};
use crate::serve_reading::read_serve;
use grasp_cbor::{Chars, OutOfMemory};
use grasp_types::List;
use std::alloc::Global;

/// All bad places of the configuration of a node that serves, in the order in which `read_serve` looks at the keys.
///
/// There is none exactly where the text is a configuration, and the first one's key is the one that `read_serve` answers. Of
/// the others, and of lines, paths and words, nothing is claimed. Where prefixes at the top overlap, one of them is told.
#[tactic(auto, using(crate::proofs::PlacesTold::led_tells_serve))]
pub fn bad_serve_places(alloc: Global, text: &[u8]) -> Result<List<BadPlace>, OutOfMemory>
    ensures { IfOk result (λ places. TellsServe text.now places) }
{
    match read_serve(alloc, text) {
        Ok(_) => Ok(List::new(alloc)),
        Err(ServeFault::BadServe { key }) => led_by(alloc, key, serve_places(alloc, text)?),
        Err(ServeFault::OutOfMemory) => Err(OutOfMemory),
    }
}

/// All bad places of the configuration of a node, in the order in which `read_config` looks at the keys.
///
/// There is none exactly where the text is a configuration, and the first one's key is the one that `read_config` answers.
/// Of the others, and of lines, paths and words, nothing is claimed. Where prefixes at the top overlap, one of them is told.
#[tactic(auto, using(crate::proofs::PlacesTold::led_tells_node))]
pub fn bad_places(alloc: Global, text: &[u8]) -> Result<List<BadPlace>, OutOfMemory>
    ensures { IfOk result (λ places. TellsNode text.now places) }
{
    match read_config(alloc, text) {
        Ok(_) => Ok(List::new(alloc)),
        Err(ConfigFault::BadConfig { key }) => {
            led_by(alloc, ServeKey::Node { key }, node_places(alloc, text)?)
        }
        Err(ConfigFault::OutOfMemory) => Err(OutOfMemory),
    }
}

/// These places, where the first one is this key's. Else the key alone.
fn led_by(
    alloc: Global,
    key: ServeKey,
    places: List<BadPlace>,
) -> Result<List<BadPlace>, OutOfMemory>
    ensures { IfOk result (λ told. IsLedBy key told) }
{
    if is_led_by(key, &places) {
        return Ok(places);
    }
    let mut told = List::new(alloc);
    told.push(BadPlace {
        key,
        line: None,
        column: None,
        path: Chars::of(alloc, serve_key_word(key))?,
        reason: Chars::of(alloc, "bad")?,
    })?;
    Ok(told)
}

/// Whether the first place is this key's.
fn is_led_by(key: ServeKey, places: &List<BadPlace>) -> bool
    ensures { IsTrue result → IsLedBy key places.now }
{
    match places.at(0) {
        Some(first) => first.key == key,
        None => false,
    }
}

/// The bad places of a text, for a node that serves.
fn serve_places(alloc: Global, text: &[u8]) -> Result<List<BadPlace>, OutOfMemory> {
    let mut table = match toml::table_from_slice(alloc, text) {
        Ok(table) => table,
        Err(fault) => return no_toml(alloc, text, &fault),
    };
    let mut found = Found::new(alloc, std::str::from_utf8(text).unwrap_or(""));
    let serve = take_serve(alloc, &mut table)?;
    tell_node(&mut found, &table)?;
    tell_floods(&mut found, &table)?;
    tell_serve(&mut found, &table, &serve)?;
    Ok(found.places)
}

/// The bad places of a text, for a node.
fn node_places(alloc: Global, text: &[u8]) -> Result<List<BadPlace>, OutOfMemory> {
    let table = match toml::table_from_slice(alloc, text) {
        Ok(table) => table,
        Err(fault) => return no_toml(alloc, text, &fault),
    };
    let mut found = Found::new(alloc, std::str::from_utf8(text).unwrap_or(""));
    tell_node(&mut found, &table)?;
    Ok(found.places)
}

/// Where a text is no TOML.
fn no_toml(
    alloc: Global,
    text: &[u8],
    fault: &toml::de::Error,
) -> Result<List<BadPlace>, OutOfMemory> {
    let Some(span) = fault.span() else {
        return Err(OutOfMemory);
    };
    let (line, column) = position(text, span.start);
    let mut places = List::new(alloc);
    places.push(BadPlace {
        key: ServeKey::Node {
            key: ConfigKey::Toml,
        },
        line: Some(line),
        column: Some(column),
        path: Path::top("").text(alloc)?,
        reason: Chars::of(alloc, fault.message())?,
    })?;
    Ok(places)
}
