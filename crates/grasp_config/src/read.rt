//! Reading a configuration.

ghost use Rattle.std.specs.Prelude.{◌≡◌, true, IfOk};
ghost use Rattle.toml.specs.View.{table_view};
ghost use Rattle.grasp_config.specs.Config.{IsConfigOf, FirstBadOf, IsFirstBad, HasConfig, IsBadText};
ghost use Rattle.grasp_config.specs.Groups.{basic_keys, AreBasics, place_keys, ArePlaces, agent_keys, AreAgents};
ghost use Rattle.grasp_config.specs.Keys.{is_known};
ghost use Rattle.toml.specs.Data.{Members};
ghost use Rattle.grasp_config.specs.Faults.{IfBadConfig};
ghost use Rattle.grasp_config.specs.declared.config.NodeConfig.{NodeConfig};

use crate::basics::{read_address, read_listen, read_size, read_turns, read_wait};
use crate::config::{BeaconConfig, NodeConfig, WantConfig};
use crate::fault::{ConfigFault, ConfigKey};
use crate::lists::{read_beacons, read_links, read_readers, read_roots, read_wants};
use crate::table::{Part, has_only};
use grasp_cbor::Chars;
use grasp_pool::RootPrefix;
use grasp_types::{Address, LinkLists, List, Locator};
use std::alloc::Global;
use toml::Table;

/// The configuration that a text has.
///
/// `BadConfig` comes exactly where it has none. Its key is `toml` where the text isn't UTF-8 or no TOML, and else the
/// first bad key in the order address, listen, turns, wait, size, roots, link, want, beacon, reader, and then `unknown`,
/// where another key stands at the top.
pub fn read_config(alloc: Global, text: &[u8]) -> Result<NodeConfig, ConfigFault>
    ensures found { IfOk result (λ config. HasConfig text.now config) }
    ensures only { (config : NodeConfig) → HasConfig text.now config → IfOk result (λ c. c ≡ config) }
    ensures none { IfBadConfig result (λ _. (config : NodeConfig) → ¬ HasConfig text.now config) }
    ensures first { IfBadConfig result (λ key. IsBadText text.now key) }
{
    match toml::table_from_slice(alloc, text) {
        Ok(table) => config_of(alloc, &table),
        Err(fault) => {
            if fault.is_memory() {
                Err(ConfigFault::OutOfMemory)
            } else {
                Err(ConfigFault::BadConfig {
                    key: ConfigKey::Toml,
                })
            }
        }
    }
}

/// The keys that hold one word or number.
#[derive(Drop)]
struct Basics {
    address: Address,
    listen: Locator,
    turns: u32,
    wait: u32,
    size: u32,
}

/// The prefixes and the links.
#[derive(Drop)]
struct Places {
    roots: List<RootPrefix>,
    links: LinkLists,
}

/// What the agents do.
#[derive(Drop)]
struct Agents {
    wants: List<WantConfig>,
    beacons: List<BeaconConfig>,
    readers: List<Chars>,
}

/// The configuration that a table is.
pub(crate) fn config_of(alloc: Global, table: &Table) -> Result<NodeConfig, ConfigFault>
    ensures found { IfOk result (λ config. IsConfigOf (table_view table.now) config) }
    ensures first { IfBadConfig result (λ key. IsFirstBad (table_view table.now) key) }
{
    let basics = read_basics(table)?;
    let places = read_places(alloc, table)?;
    let agents = read_agents(alloc, table)?;
    if has_only(Part::Top, table) {
        Ok(joined(basics, places, agents))
    } else {
        Err(ConfigFault::BadConfig {
            key: ConfigKey::Unknown,
        })
    }
}

/// The whole of these parts.
fn joined(basics: Basics, places: Places, agents: Agents) -> NodeConfig
    ensures { (table : Members) → AreBasics table basics → ArePlaces table places → AreAgents table agents
        → is_known table ≡ true → IsConfigOf table result }
{
    NodeConfig {
        address: basics.address,
        listen: basics.listen,
        turns: basics.turns,
        wait: basics.wait,
        size: basics.size,
        roots: places.roots,
        links: places.links,
        wants: agents.wants,
        beacons: agents.beacons,
        readers: agents.readers,
    }
}

/// The keys that hold one word or number, in their order.
fn read_basics(table: &Table) -> Result<Basics, ConfigFault>
    ensures found { IfOk result (λ basics. AreBasics (table_view table.now) basics) }
    ensures first { IfBadConfig result (λ key. FirstBadOf (table_view table.now) basic_keys key) }
{
    let address = read_address(table)?;
    let listen = read_listen(table)?;
    let turns = read_turns(table)?;
    let wait = read_wait(table)?;
    let size = read_size(table)?;
    Ok(Basics {
        address,
        listen,
        turns,
        wait,
        size,
    })
}

/// The prefixes and the links, in their order.
fn read_places(alloc: Global, table: &Table) -> Result<Places, ConfigFault>
    ensures found { IfOk result (λ places. ArePlaces (table_view table.now) places) }
    ensures first { IfBadConfig result (λ key. FirstBadOf (table_view table.now) place_keys key) }
{
    let roots = read_roots(alloc, table)?;
    let links = read_links(alloc, table)?;
    Ok(Places { roots, links })
}

/// What the agents do, in the order of the keys.
fn read_agents(alloc: Global, table: &Table) -> Result<Agents, ConfigFault>
    ensures found { IfOk result (λ agents. AreAgents (table_view table.now) agents) }
    ensures first { IfBadConfig result (λ key. FirstBadOf (table_view table.now) agent_keys key) }
{
    let wants = read_wants(alloc, table)?;
    let beacons = read_beacons(alloc, table)?;
    let readers = read_readers(alloc, table, &beacons)?;
    Ok(Agents {
        wants,
        beacons,
        readers,
    })
}
