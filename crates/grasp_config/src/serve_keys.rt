//! The keys of the table `serve` that say where the node is spoken to and what it keeps.

ghost use Rattle.std.specs.Prelude.{◌≡◌, IfOk, codes, option_map};
ghost use Rattle.toml.specs.Data.{get_member};
ghost use Rattle.toml.specs.View.{view, table_view};
ghost use Rattle.grasp_config.specs.ServeFaults.{ServeKeyRead};
ghost use Rattle.grasp_config.specs.ServeKeys.{text_in, sized, if_there, control_in, guests_in, mode_in, mode_value, mode_of, is_octal, is_said, store_in, forget_in};
ghost use Rattle.grasp_config.specs.declared.serve_fault.ServeKey.TheVariants as key;

use crate::serve_fault::{ServeFault, ServeKey};
use crate::table::value_at;
use grasp_cbor::{Chars, OutOfMemory};
use std::alloc::Global;
use toml::{Table, Value};

/// The most bytes of the path of a socket.
const MOST_SOCKET_PATH: u64 = 107;

/// The most bytes of the path of a file.
const MOST_PATH: u64 = 4095;

/// The mode of the sockets where `mode` is absent.
const USUAL_MODE: u16 = 0o600;

/// The text of a value, if it has 1 to so many bytes.
pub(crate) fn text_in(value: &Value, most: u64) -> Option<&str>
    ensures { option_map (λ s. s.now) result ≡ text_in most (view value.now) }
{
    match value.as_str() {
        Some(text) => sized(text, most),
        None => None,
    }
}

/// A text, if it has 1 to so many bytes.
fn sized(text: &str, most: u64) -> Option<&str>
    ensures { option_map (λ s. s.now) result ≡ sized most text.now }
{
    let len = text.len() as u64;
    if 1 <= len && len <= most {
        Some(text)
    } else {
        None
    }
}

/// A copy of the text at a key, which may be absent, or `None` where it hasn't 1 to so many bytes.
fn text_if_there(
    alloc: Global,
    table: &Table,
    key: &str,
    most: u64,
) -> Result<Option<Option<Chars>>, OutOfMemory>
    ensures { IfOk result (λ o. o ≡ if_there (text_in most) (get_member key.now (table_view table.now))) }
{
    let Some(value) = value_at(table, key) else {
        return Ok(Some(None));
    };
    match text_in(value, most) {
        Some(text) => Ok(Some(Some(Chars::of(alloc, text)?))),
        None => Ok(None),
    }
}

/// The path of the socket at which the node is controlled.
pub(crate) fn read_control(alloc: Global, table: &Table) -> Result<Chars, ServeFault>
    ensures { ServeKeyRead key.Control (control_in (table_view table.now)) result }
{
    let bad = ServeFault::BadServe {
        key: ServeKey::Control,
    };
    let Some(value) = value_at(table, "control") else {
        return Err(bad);
    };
    match text_in(value, MOST_SOCKET_PATH) {
        Some(path) => Ok(Chars::of(alloc, path)?),
        None => Err(bad),
    }
}

/// The path of the socket for guests.
pub(crate) fn read_guests(alloc: Global, table: &Table) -> Result<Option<Chars>, ServeFault>
    ensures { ServeKeyRead key.Guests (guests_in (table_view table.now)) result }
{
    match text_if_there(alloc, table, "guests", MOST_SOCKET_PATH)? {
        Some(path) => Ok(path),
        None => Err(ServeFault::BadServe {
            key: ServeKey::Guests,
        }),
    }
}

/// Whether a byte is an octal digit.
fn is_octal(byte: u8) -> bool
    ensures { result ≡ is_octal byte }
{
    48 <= byte && byte <= 55
}

/// The mode that three octal digits are, or `None`.
#[tactic(auto, unfolding(crate::specs::ServeKeys::mode_of))]
fn mode(word: &[u8]) -> Option<u16>
    ensures { result ≡ mode_of word.now }
{
    let [a, b, c] = word else {
        return None;
    };
    if is_octal(*a) && is_octal(*b) && is_octal(*c) {
        Some(64 * (*a as u16 - 48) + 8 * (*b as u16 - 48) + (*c as u16 - 48))
    } else {
        None
    }
}

/// The mode of a value, or `None`.
fn mode_value(value: &Value) -> Option<u16>
    ensures { result ≡ mode_value (view value.now) }
{
    match value.as_str() {
        Some(word) => mode(word.as_bytes()),
        None => None,
    }
}

/// Who may open both sockets.
pub(crate) fn read_mode(table: &Table) -> Result<u16, ServeFault>
    ensures { ServeKeyRead key.Mode (mode_in (table_view table.now)) result }
{
    let Some(value) = value_at(table, "mode") else {
        return Ok(USUAL_MODE);
    };
    match mode_value(value) {
        Some(mode) => Ok(mode),
        None => Err(ServeFault::BadServe {
            key: ServeKey::Mode,
        }),
    }
}

/// Whether the pool is said to be forgotten.
fn is_said(table: &Table) -> bool
    ensures { result ≡ is_said (get_member (codes "forget") (table_view table.now)) }
{
    match value_at(table, "forget") {
        Some(value) => value.as_bool().unwrap_or(false),
        None => false,
    }
}

/// The path of the store, which may be absent where the pool is to be forgotten.
pub(crate) fn read_store(alloc: Global, table: &Table) -> Result<Option<Chars>, ServeFault>
    ensures { ServeKeyRead key.Store (store_in (table_view table.now)) result }
{
    let bad = ServeFault::BadServe {
        key: ServeKey::Store,
    };
    match text_if_there(alloc, table, "store", MOST_PATH)? {
        Some(Some(path)) => Ok(Some(path)),
        Some(None) => { if is_said(table) { Ok(None) } else { Err(bad) } }
        None => Err(bad),
    }
}

/// Whether the pool is to be forgotten.
pub(crate) fn read_forget(table: &Table) -> Result<bool, ServeFault>
    ensures { ServeKeyRead key.Forget (forget_in (table_view table.now)) result }
{
    let bad = ServeFault::BadServe {
        key: ServeKey::Forget,
    };
    let forget = match value_at(table, "forget") {
        Some(value) => value.as_bool().ok_or(bad)?,
        None => false,
    };
    if forget && value_at(table, "store").is_some() {
        Err(bad)
    } else {
        Ok(forget)
    }
}
