//! The bad places of a text, as they are found.

use crate::place::{BadPlace, Path, Reason};
use crate::place_lines::{line_at, line_of_unknown};
use crate::serve_fault::ServeKey;
use crate::table::{Part, is_key, text_at, value_at};
use crate::words::endpoint;
use grasp_cbor::OutOfMemory;
use grasp_text::address;
use grasp_types::List;
use std::alloc::Global;
use toml::{Table, Value};

/// The places of a text that were found to be bad.
#[derive(Drop)]
pub(crate) struct Found<'a> {
    pub(crate) alloc: Global,
    text: &'a str,
    pub(crate) places: List<BadPlace>,
}

impl<'a> Found<'a> {
    /// None, of this text.
    pub(crate) fn new(alloc: Global, text: &'a str) -> Found<'a> {
        Found {
            alloc,
            text,
            places: List::new(alloc),
        }
    }

    /// One more, which is this key's.
    pub(crate) fn push(
        &mut self,
        key: ServeKey,
        path: Path,
        reason: Reason<'_>,
    ) -> Result<(), OutOfMemory> {
        let line = match reason {
            Reason::Unknown(unknown) => line_of_unknown(self.text, path, unknown),
            _ => line_at(self.text, path),
        };
        self.places.push(BadPlace {
            key,
            line,
            column: None,
            path: path.text(self.alloc)?,
            reason: reason.text(self.alloc)?,
        })
    }

    /// A value that isn't good: it is absent, or no text, or not this.
    pub(crate) fn word(
        &mut self,
        key: ServeKey,
        path: Path,
        value: Option<&Value>,
        wanted: &str,
    ) -> Result<(), OutOfMemory> {
        let reason = match value {
            None => Reason::Absent,
            Some(value) if value.is_str() => Reason::Isnt(wanted),
            Some(_) => Reason::Isnt("a text"),
        };
        self.push(key, path, reason)
    }

    /// A value that is no number in this range: it is absent, or not this.
    pub(crate) fn number(
        &mut self,
        key: ServeKey,
        path: Path,
        value: Option<&Value>,
        least: u64,
        most: u64,
    ) -> Result<(), OutOfMemory> {
        let reason = match value {
            None => Reason::Absent,
            Some(_) => Reason::NoInteger(least, most),
        };
        self.push(key, path, reason)
    }

    /// An address at a key, where it isn't one.
    pub(crate) fn address_at(
        &mut self,
        key: ServeKey,
        path: Path,
        table: &Table,
        name: &str,
    ) -> Result<(), OutOfMemory> {
        match text_at(table, name) {
            Some(word) if address(word.as_bytes()).is_some() => Ok(()),
            _ => self.word(
                key,
                path,
                value_at(table, name),
                "an ADDRESS of 8 or 32 digits",
            ),
        }
    }

    /// An endpoint at a key, where it isn't one.
    pub(crate) fn endpoint_at(
        &mut self,
        key: ServeKey,
        path: Path,
        table: &Table,
        name: &str,
    ) -> Result<(), OutOfMemory> {
        match text_at(table, name) {
            Some(word) if endpoint(word).is_some() => Ok(()),
            _ => self.word(key, path, value_at(table, name), "ADDRESS:PORT"),
        }
    }

    /// The keys of a table that it doesn't have.
    pub(crate) fn unknown(
        &mut self,
        key: ServeKey,
        path: Path,
        part: Part,
        table: &Table,
    ) -> Result<(), OutOfMemory> {
        for (name, _value) in table.iter() {
            if !is_key(part, name.as_str()) {
                self.push(key, path, Reason::Unknown(name.as_str()))?;
            }
        }
        Ok(())
    }

    /// The table that a value is, whose unknown keys are told, or `None` where it is none, which is told.
    pub(crate) fn table<'v>(
        &mut self,
        key: ServeKey,
        path: Path,
        part: Part,
        value: &'v Value,
    ) -> Result<Option<&'v Table>, OutOfMemory> {
        match value.as_table() {
            Some(table) => {
                self.unknown(key, path, part, table)?;
                Ok(Some(table))
            }
            None => {
                self.push(key, path, Reason::Isnt("a table"))?;
                Ok(None)
            }
        }
    }

    /// The values of the list that a value is, or none where it is no list, which is told.
    pub(crate) fn list<'v>(
        &mut self,
        key: ServeKey,
        path: Path,
        value: &'v Value,
    ) -> Result<&'v [Value], OutOfMemory> {
        match value.as_array() {
            Some(array) => Ok(array.as_slice()),
            None => {
                self.push(key, path, Reason::Isnt("a list"))?;
                Ok(&[])
            }
        }
    }
}
