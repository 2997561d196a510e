//! Values of a TOML table, by their keys.

ghost use Rattle.std.specs.Prelude.{◌≡◌, List, ℕ, option_map, option_copied};
ghost use Rattle.toml.specs.Data.{get_member};
ghost use Rattle.toml.specs.View.{view, table_view};
ghost use Rattle.grasp_config.specs.Table.{whole_in, number_in, number_at, text_at, has_only, table_of};
ghost use Rattle.grasp_config.specs.Parts.{keys_of};
ghost use Rattle.grasp_config.specs.declared.table.Part.TheVariants as Part;
ghost use Rattle.std.specs.List.{list_any};
ghost use Rattle.std.specs.Str.{bytes_eq};

use toml::{Table, Value};

/// The tables of a configuration, by the keys that they have.
#[derive(Clone, Copy, Debug, PartialEq, Eq)]
pub(crate) enum Part {
    /// The whole.
    Top,
    /// A link.
    Link,
    /// A neighbour on a link.
    Neighbour,
    /// A prefix that is asked for.
    Want,
    /// A value that is announced.
    Beacon,
    /// A value that is read.
    Reader,
    /// How a node serves.
    Serve,
}

/// The value at a key, or `None` where the table doesn't have it.
pub(crate) fn value_at<'a>(table: &'a Table, key: &str) -> Option<&'a Value>
    ensures { option_map (λ v. view v.now) result ≡ get_member key.now (table_view table.now) }
{
    table.get(key)
}

/// The text at a key, or `None`.
pub(crate) fn text_at<'a>(table: &'a Table, key: &str) -> Option<&'a str>
    ensures { option_map (λ s. s.now) result ≡ text_at key.now (table_view table.now) }
{
    match value_at(table, key) {
        Some(value) => value.as_str(),
        None => None,
    }
}

/// The integer of a value, if it is one from `least` to `most`.
pub(crate) fn number_in(value: &Value, least: u64, most: u64) -> Option<u64>
    ensures { result ≡ number_in least most (view value.now) }
{
    match value.as_integer() {
        Some(integer) => whole_in(integer, least, most),
        None => None,
    }
}

/// An integer, if it is one from `least` to `most`.
fn whole_in(integer: i64, least: u64, most: u64) -> Option<u64>
    ensures { result ≡ whole_in least most integer }
{
    match u64::try_from(integer) {
        Ok(n) => {
            if least <= n && n <= most {
                Some(n)
            } else {
                None
            }
        }
        Err(_) => None,
    }
}

/// The integer at a key, if it is one from `least` to `most`.
pub(crate) fn number_at(table: &Table, key: &str, least: u64, most: u64) -> Option<u64>
    ensures { result ≡ number_at least most key.now (table_view table.now) }
{
    match value_at(table, key) {
        Some(value) => number_in(value, least, most),
        None => None,
    }
}

/// Whether the key is one of those of this table.
pub(crate) fn is_key(part: Part, key: &str) -> bool
    ensures { result ≡ list_any (bytes_eq key.now) (keys_of part) }
{
    match part {
        Part::Top => is_top_key(key),
        Part::Link => key == "neighbour",
        Part::Neighbour => key == "address" || key == "at",
        Part::Want => key == "length" || key == "longest" || key == "peer",
        Part::Beacon => key == "name" || key == "value" || key == "ttl" || key == "loops",
        Part::Reader => key == "name",
        Part::Serve => is_serve_key(key),
    }
}

/// Whether the key is one of those of the whole configuration.
fn is_top_key(key: &str) -> bool
    ensures { result ≡ list_any (bytes_eq key.now) (keys_of Part.Top) }
{
    let basic = key == "address" || key == "listen" || key == "turns" || key == "wait";
    let sized = key == "size" || key == "roots" || key == "link";
    basic || sized || key == "want" || key == "beacon" || key == "reader"
}

/// Whether the key is one of those of the table `serve`.
fn is_serve_key(key: &str) -> bool
    ensures { result ≡ list_any (bytes_eq key.now) (keys_of Part.Serve) }
{
    let door = key == "control" || key == "guests" || key == "mode" || key == "store";
    let stream = key == "forget" || key == "locator" || key == "allow" || key == "streams";
    let pace = key == "silence" || key == "retry" || key == "retry_most" || key == "every";
    door || stream || pace || key == "tick" || key == "visitors" || key == "log" || key == "name"
}

/// Whether the table has no other keys than its own.
pub(crate) fn has_only(part: Part, table: &Table) -> bool
    ensures { result ≡ has_only (keys_of part) (table_view table.now) }
{
    for (key, _value) in table.iter() {
        if !is_key(part, key.as_str()) {
            return false;
        }
    }
    true
}

/// The table that a value is, or `None` where it is none, or has other keys than its own.
pub(crate) fn table_of(part: Part, value: &Value) -> Option<&Table>
    ensures { option_map (λ t. table_view t.now) result ≡ table_of (keys_of part) (view value.now) }
{
    match value.as_table() {
        Some(table) => {
            if has_only(part, table) {
                Some(table)
            } else {
                None
            }
        }
        None => None,
    }
}
