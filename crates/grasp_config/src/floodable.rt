//! Whether a node that serves can flood its beacons.

ghost use Rattle.std.specs.Prelude.{◌≡◌, IfOk, codes};
ghost use Rattle.std.specs.List.{list_any};
ghost use Rattle.std.specs.Str.{bytes_eq};
ghost use Rattle.grasp_config.specs.Floodable.{flooded, has_room, is_beacon_of, is_free, are_floodable};

use crate::config::BeaconConfig;
use grasp_cbor::{Chars, OutOfMemory};
use grasp_types::{Address, Flags, FloodPart, Objective, Plain};
use grasp_wire::flood_fits;

/// A number of a session that takes the most bytes.
const LONGEST_SESSION: u32 = 4294967295;

/// What a beacon floods.
fn flooded(beacon: &BeaconConfig) -> Result<FloodPart, OutOfMemory>
    ensures { IfOk result (λ part. part ≡ flooded beacon.now) }
{
    Ok(FloodPart {
        objective: Objective {
            name: beacon.name.copy()?,
            flags: Flags::DISC_SYNCH,
            loops: beacon.loops,
            value: Some(beacon.value.copy()?),
        },
        locator: None,
    })
}

/// Whether a message has room for the beacon's flood.
pub(crate) fn has_room(
    address: &Address,
    size: u32,
    beacon: &BeaconConfig,
) -> Result<bool, OutOfMemory>
    ensures { IfOk result (λ b. b ≡ has_room address.now size beacon.now) }
{
    let part = flooded(beacon)?;
    Ok(flood_fits(LONGEST_SESSION, address, beacon.ttl, &part, size))
}

/// Whether a beacon has this name.
pub(crate) fn is_beacon_of(name: &Chars, beacon: &BeaconConfig) -> bool
    ensures { result ≡ is_beacon_of name.now beacon.now }
{
    name.bytes() == beacon.name.bytes()
}

/// Whether one of these beacons has the name.
fn is_among(name: &Chars, beacons: &[BeaconConfig]) -> bool
    ensures { result ≡ list_any (is_beacon_of name.now) beacons.now }
{
    beacons.iter().any(|beacon| is_beacon_of(name, beacon))
}

/// Whether the name is that of the prefix agent's objective.
pub(crate) fn is_taken(name: &Chars) -> bool
    ensures { result ≡ bytes_eq name.now (codes "PrefixManager") }
{
    name.bytes() == b"PrefixManager".as_slice()
}

/// Whether the name is neither that of the prefix agent's objective nor that of one of these.
pub(crate) fn is_free(name: &Chars, others: &[BeaconConfig]) -> bool
    ensures { result ≡ is_free name.now others.now }
{
    !is_taken(name) && !is_among(name, others)
}

/// Whether each beacon has a name of its own, and room for its flood in a message.
#[tactic(auto, unfolding(crate::specs::Floodable::are_floodable))]
pub(crate) fn are_floodable(
    address: &Address,
    size: u32,
    beacons: &[BeaconConfig],
) -> Result<bool, OutOfMemory>
    ensures { IfOk result (λ b. b ≡ are_floodable address.now size beacons.now) }
{
    let [beacon, others @ ..] = beacons else {
        return Ok(true);
    };
    let room = has_room(address, size, beacon)?;
    if is_free(&beacon.name, others) && room {
        are_floodable(address, size, others)
    } else {
        Ok(false)
    }
}
