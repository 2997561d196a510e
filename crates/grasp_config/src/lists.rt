//! The keys of a configuration that hold lists.

ghost use Rattle.std.specs.Prelude.{◌≡◌, ◌+◌, nat_lt, [], Some, IfOk};
ghost use Rattle.toml.specs.Data.{get_member};
ghost use Rattle.toml.specs.View.{view, table_view};
ghost use Rattle.grasp_config.specs.Config.{AreRoots, AreBadRoots};
ghost use Rattle.grasp_config.specs.Answered.{KeyRead, fault_of};
ghost use Rattle.grasp_config.specs.Faults.{IfBadConfig};
ghost use Rattle.grasp_config.specs.Keys.{roots_in, links_of, links_in, wants_in, beacons_in, readers_in};
ghost use Rattle.grasp_config.specs.Table.{or_absent, list_of};
ghost use Rattle.grasp_config.specs.declared.fault.ConfigKey.TheVariants as key;

use crate::config::{BeaconConfig, WantConfig};
use crate::fault::{ConfigFault, ConfigKey};
use crate::items::{Element, at_most, list_of};
use crate::table::value_at;
use grasp_cbor::{Chars, OutOfMemory};
use grasp_pool::{Pool, PoolFault, RootPrefix};
use grasp_types::{LinkLists, List, Neighbours};
use std::alloc::Global;
use toml::{Table, Value};

/// How many links a node has at most.
const MOST_LINKS: u64 = 16;

/// How many beacons and readers a node has at most together.
const MOST_AGENTS: u64 = 7;

/// The elements of the list at a key, which are none where it is absent, or `None` where it is bad.
fn list_at<T: Element>(
    alloc: Global,
    table: &Table,
    key: &str,
) -> Result<Option<List<T>>, OutOfMemory>
    ensures { IfOk result (λ o. o ≡ or_absent [] (list_of T.read) (get_member key.now (table_view table.now))) }
{
    match value_at(table, key) {
        Some(value) => list_of(alloc, value),
        None => Ok(Some(List::new(alloc))),
    }
}

/// The prefixes that the node's pool is opened with.
pub(crate) fn read_roots(alloc: Global, table: &Table) -> Result<List<RootPrefix>, ConfigFault>
    ensures found { IfOk result (λ roots. roots_in (table_view table.now) ≡ Some roots) }
    ensures opens { IfOk result (λ roots. AreRoots roots) }
    ensures bad { IfBadConfig result (λ k. (k ≡ key.Roots) × AreBadRoots (roots_in (table_view table.now))) }
{
    match list_at::<RootPrefix>(alloc, table, "roots")? {
        Some(roots) => {
            open_pool(alloc, roots.slice())?;
            Ok(roots)
        }
        None => Err(ConfigFault::BadConfig {
            key: ConfigKey::Roots,
        }),
    }
}

/// Whether a pool opens with these roots.
fn open_pool(alloc: Global, roots: &[RootPrefix]) -> Result<(), ConfigFault>
    ensures opens { IfOk result (λ _. AreRoots roots.now) }
    ensures bad { IfBadConfig result (λ k. (k ≡ key.Roots) × (¬ AreRoots roots.now)) }
{
    match Pool::open(alloc, roots) {
        Ok(_) => Ok(()),
        Err(fault) => Err(fault_of(fault)),
    }
}

/// The fault where a pool doesn't open.
fn fault_of(fault: PoolFault) -> ConfigFault
    ensures { result ≡ fault_of fault }
{
    match fault {
        PoolFault::OutOfMemory => ConfigFault::OutOfMemory,
        _ => ConfigFault::BadConfig {
            key: ConfigKey::Roots,
        },
    }
}

/// The links of a value, at most 16, or `None`.
fn links_of(alloc: Global, value: &Value) -> Result<Option<LinkLists>, OutOfMemory>
    ensures { IfOk result (λ o. o ≡ links_of (view value.now)) }
{
    match list_of::<Neighbours>(alloc, value)? {
        Some(links) => Ok(at_most(MOST_LINKS, links)),
        None => Ok(None),
    }
}

/// The node's links.
pub(crate) fn read_links(alloc: Global, table: &Table) -> Result<LinkLists, ConfigFault>
    ensures { KeyRead key.Link (links_in (table_view table.now)) result }
{
    let Some(value) = value_at(table, "link") else {
        return Ok(List::new(alloc));
    };
    match links_of(alloc, value)? {
        Some(links) => Ok(links),
        None => Err(ConfigFault::BadConfig {
            key: ConfigKey::Link,
        }),
    }
}

/// The prefixes that the node asks for.
pub(crate) fn read_wants(alloc: Global, table: &Table) -> Result<List<WantConfig>, ConfigFault>
    ensures { KeyRead key.Want (wants_in (table_view table.now)) result }
{
    match list_at::<WantConfig>(alloc, table, "want")? {
        Some(wants) => Ok(wants),
        None => Err(ConfigFault::BadConfig {
            key: ConfigKey::Want,
        }),
    }
}

/// What the node announces.
pub(crate) fn read_beacons(alloc: Global, table: &Table) -> Result<List<BeaconConfig>, ConfigFault>
    ensures { KeyRead key.Beacon (beacons_in (table_view table.now)) result }
{
    match list_at::<BeaconConfig>(alloc, table, "beacon")? {
        Some(beacons) => Ok(beacons),
        None => Err(ConfigFault::BadConfig {
            key: ConfigKey::Beacon,
        }),
    }
}

/// What the node reads, where it announces these.
pub(crate) fn read_readers(
    alloc: Global,
    table: &Table,
    beacons: &List<BeaconConfig>,
) -> Result<List<Chars>, ConfigFault>
    requires { beacons_in (table_view table.now) ≡ Some beacons.now }
    ensures { KeyRead key.Reader (readers_in (table_view table.now)) result }
{
    let bad = ConfigFault::BadConfig {
        key: ConfigKey::Reader,
    };
    let Some(readers) = list_at::<Chars>(alloc, table, "reader")? else {
        return Err(bad);
    };
    if are_too_many(beacons.len(), readers.len()) {
        Err(bad)
    } else {
        Ok(readers)
    }
}

/// Whether a node can't have so many beacons and readers together.
fn are_too_many(beacons: u64, readers: u64) -> bool
    ensures { result ≡ nat_lt 7 (beacons + readers) }
{
    if beacons > MOST_AGENTS || readers > MOST_AGENTS {
        return true;
    }
    beacons + readers > MOST_AGENTS
}
