//! The keys of the table `serve` that say how often things are done, and what is shown of them.

ghost use Rattle.std.specs.Prelude.{◌≡◌, Option, Some, option_map};
ghost use Rattle.std.specs.List.{list_all};
ghost use Rattle.toml.specs.View.{view, table_view};
ghost use Rattle.grasp_config.specs.ServeFaults.{ServeKeyRead};
ghost use Rattle.grasp_config.specs.ServeKeys.{retry_in, retry_most_in, every_in, pause_of, tick_in, visitors_in, level_value, log_in, is_printable, printable, name_value, name_in};
ghost use Rattle.grasp_config.specs.declared.serve_fault.ServeKey.TheVariants as key;

use crate::level::LogLevel;
use crate::serve_fault::{ServeFault, ServeKey};
use crate::serve_keys::text_in;
use crate::serve_streams::number_or;
use crate::table::{number_in, value_at};
use grasp_cbor::Chars;
use std::alloc::Global;
use toml::{Table, Value};

/// The most milliseconds between two tries, and between two floods.
const MOST_PAUSE: u64 = 86400000;

/// After how many milliseconds a want is tried again.
pub(crate) fn read_retry(table: &Table) -> Result<u32, ServeFault>
    ensures { ServeKeyRead key.Retry (retry_in (table_view table.now)) result }
{
    match number_or(table, "retry", 1000, 100, 3600000) {
        Some(n) => Ok(n as u32),
        None => Err(ServeFault::BadServe {
            key: ServeKey::Retry,
        }),
    }
}

/// The most of these milliseconds, where they are so many at first.
pub(crate) fn read_retry_most(table: &Table, retry: u32) -> Result<u32, ServeFault>
    requires { retry_in (table_view table.now) ≡ Some retry }
    ensures { ServeKeyRead key.RetryMost (retry_most_in (table_view table.now)) result }
{
    let least = u64::from(retry);
    match number_or(table, "retry_most", least.max(60000), least, MOST_PAUSE) {
        Some(n) => Ok(n as u32),
        None => Err(ServeFault::BadServe {
            key: ServeKey::RetryMost,
        }),
    }
}

/// How many milliseconds are between two floods of a beacon, where they are the same for all.
pub(crate) fn read_every(table: &Table) -> Result<Option<u32>, ServeFault>
    ensures { ServeKeyRead key.Every (every_in (table_view table.now)) result }
{
    let Some(value) = value_at(table, "every") else {
        return Ok(None);
    };
    match number_in(value, 1000, MOST_PAUSE) {
        Some(n) => Ok(Some(n as u32)),
        None => Err(ServeFault::BadServe {
            key: ServeKey::Every,
        }),
    }
}

/// The milliseconds between two floods of a beacon whose value has this lifetime in milliseconds, where 0 never ends.
///
/// They are those of `every`. Where there is none they are half of the lifetime, at least 1000, and 60000 where it never
/// ends.
pub fn flood_pause(every: Option<u32>, ttl: u32) -> u32
    ensures { result ≡ pause_of every ttl }
{
    match every {
        Some(every) => every,
        None => { if ttl == 0 { 60000 } else { (ttl / 2).max(1000) } }
    }
}

/// How many milliseconds are from tick to tick.
pub(crate) fn read_tick(table: &Table) -> Result<u32, ServeFault>
    ensures { ServeKeyRead key.Tick (tick_in (table_view table.now)) result }
{
    match number_or(table, "tick", 1000, 100, 1000) {
        Some(n) => Ok(n as u32),
        None => Err(ServeFault::BadServe {
            key: ServeKey::Tick,
        }),
    }
}

/// The most visitors at once.
pub(crate) fn read_visitors(table: &Table) -> Result<u8, ServeFault>
    ensures { ServeKeyRead key.Visitors (visitors_in (table_view table.now)) result }
{
    match number_or(table, "visitors", 16, 1, 64) {
        Some(n) => Ok(n as u8),
        None => Err(ServeFault::BadServe {
            key: ServeKey::Visitors,
        }),
    }
}

/// The level that a value names, or `None`.
fn level_value(value: &Value) -> Option<LogLevel>
    ensures { result ≡ level_value (view value.now) }
{
    match value.as_str() {
        Some(word) => LogLevel::of(word.as_bytes()),
        None => None,
    }
}

/// How much is logged.
pub(crate) fn read_log(table: &Table) -> Result<LogLevel, ServeFault>
    ensures { ServeKeyRead key.Log (log_in (table_view table.now)) result }
{
    let Some(value) = value_at(table, "log") else {
        return Ok(LogLevel::Events);
    };
    match level_value(value) {
        Some(level) => Ok(level),
        None => Err(ServeFault::BadServe { key: ServeKey::Log }),
    }
}

/// Whether a byte is a printable character of ASCII.
fn is_printable(byte: u8) -> bool
    ensures { result ≡ is_printable byte }
{
    32 <= byte && byte <= 126
}

/// Whether each byte is a printable character of ASCII.
fn are_printable(bytes: &[u8]) -> bool
    ensures { result ≡ list_all is_printable bytes.now }
{
    bytes.iter().all(|byte| is_printable(*byte))
}

/// The name of a value, or `None`.
fn name_value(value: &Value) -> Option<&str>
    ensures { option_map (λ s. s.now) result ≡ name_value (view value.now) }
{
    let name = text_in(value, 32)?;
    if are_printable(name.as_bytes()) {
        Some(name)
    } else {
        None
    }
}

/// The name that stands in the log.
pub(crate) fn read_name(alloc: Global, table: &Table) -> Result<Option<Chars>, ServeFault>
    ensures { ServeKeyRead key.Name (name_in (table_view table.now)) result }
{
    let Some(value) = value_at(table, "name") else {
        return Ok(None);
    };
    match name_value(value) {
        Some(name) => Ok(Some(Chars::of(alloc, name)?)),
        None => Err(ServeFault::BadServe {
            key: ServeKey::Name,
        }),
    }
}
