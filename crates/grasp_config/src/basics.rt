//! The keys of a configuration that hold one word or number.

ghost use Rattle.std.specs.Prelude.{◌≡◌};
ghost use Rattle.toml.specs.View.{table_view};
ghost use Rattle.grasp_config.specs.Answered.{KeyRead};
ghost use Rattle.grasp_config.specs.Keys.{address_in, listen_in, turns_in, wait_in, size_in};
ghost use Rattle.grasp_config.specs.declared.fault.ConfigKey.TheVariants as key;

use crate::fault::{ConfigFault, ConfigKey};
use crate::table::{number_at, number_in, text_at, value_at};
use crate::words::endpoint;
use grasp_text::address;
use grasp_types::{Address, Locator};
use toml::Table;

/// How many milliseconds a node waits where `wait` is absent.
const USUAL_WAIT: u32 = 10;

/// The most bytes of a message where `size` is absent.
const USUAL_SIZE: u32 = 2048;

/// The address of the node.
pub(crate) fn read_address(table: &Table) -> Result<Address, ConfigFault>
    ensures { KeyRead key.Address (address_in (table_view table.now)) result }
{
    let bad = ConfigFault::BadConfig {
        key: ConfigKey::Address,
    };
    let word = text_at(table, "address").ok_or(bad)?;
    address(word.as_bytes()).ok_or(bad)
}

/// Where the node listens.
pub(crate) fn read_listen(table: &Table) -> Result<Locator, ConfigFault>
    ensures { KeyRead key.Listen (listen_in (table_view table.now)) result }
{
    let bad = ConfigFault::BadConfig {
        key: ConfigKey::Listen,
    };
    let word = text_at(table, "listen").ok_or(bad)?;
    endpoint(word).ok_or(bad)
}

/// How many turns the node makes.
pub(crate) fn read_turns(table: &Table) -> Result<u32, ConfigFault>
    ensures { KeyRead key.Turns (turns_in (table_view table.now)) result }
{
    match number_at(table, "turns", 1, 1000000) {
        Some(n) => Ok(n as u32),
        None => Err(ConfigFault::BadConfig {
            key: ConfigKey::Turns,
        }),
    }
}

/// For how many milliseconds the node waits in each turn.
pub(crate) fn read_wait(table: &Table) -> Result<u32, ConfigFault>
    ensures { KeyRead key.Wait (wait_in (table_view table.now)) result }
{
    let Some(value) = value_at(table, "wait") else {
        return Ok(USUAL_WAIT);
    };
    match number_in(value, 0, 1000) {
        Some(n) => Ok(n as u32),
        None => Err(ConfigFault::BadConfig {
            key: ConfigKey::Wait,
        }),
    }
}

/// The most bytes of a message.
pub(crate) fn read_size(table: &Table) -> Result<u32, ConfigFault>
    ensures { KeyRead key.Size (size_in (table_view table.now)) result }
{
    let Some(value) = value_at(table, "size") else {
        return Ok(USUAL_SIZE);
    };
    match number_in(value, 2048, 65535) {
        Some(n) => Ok(n as u32),
        None => Err(ConfigFault::BadConfig {
            key: ConfigKey::Size,
        }),
    }
}
