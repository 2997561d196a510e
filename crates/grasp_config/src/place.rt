//! Places of a text that are bad, as people are told of them.

use crate::serve_fault::ServeKey;
use grasp_cbor::{Chars, OutOfMemory};
use std::alloc::Global;
use std::fmt::InlineText;

/// A place of a text that is bad.
#[derive(Debug, Drop)]
pub struct BadPlace {
    /// The key that is bad.
    pub key: ServeKey,
    /// The line, counted from 1, where it was found.
    pub line: Option<u64>,
    /// The character of the line, counted from 1, where the text is no TOML.
    pub column: Option<u64>,
    /// The path to it, as `link[1].neighbour[0]`. It is empty where the text is no TOML, and for keys at the top that are
    /// unknown.
    pub path: Chars,
    /// What is wrong with it, in words.
    pub reason: Chars,
}

/// The path to a value: a key at the top or in it, and the number of an element, counted from 0, where it is a list.
#[derive(Clone, Copy)]
pub(crate) struct Path {
    pub(crate) name: &'static str,
    pub(crate) index: Option<u64>,
    pub(crate) inner: &'static str,
    pub(crate) inner_index: Option<u64>,
    pub(crate) leaf: &'static str,
}

impl Path {
    /// A key at the top.
    pub(crate) fn top(name: &'static str) -> Path {
        Path {
            name,
            index: None,
            inner: "",
            inner_index: None,
            leaf: "",
        }
    }

    /// An element of the list at a key at the top.
    pub(crate) fn element(name: &'static str, index: u64) -> Path {
        Path {
            index: Some(index),
            ..Path::top(name)
        }
    }

    /// A key in it.
    pub(crate) fn inner(self, inner: &'static str) -> Path {
        Path { inner, ..self }
    }

    /// An element of the list at the key in it.
    pub(crate) fn at(self, index: u64) -> Path {
        Path {
            inner_index: Some(index),
            ..self
        }
    }

    /// A key in that.
    pub(crate) fn leaf(self, leaf: &'static str) -> Path {
        Path { leaf, ..self }
    }

    /// As text.
    pub(crate) fn text(self, alloc: Global) -> Result<Chars, OutOfMemory> {
        let mut text = Chars::of(alloc, self.name)?;
        push_index(&mut text, self.index)?;
        push_step(&mut text, self.inner)?;
        push_index(&mut text, self.inner_index)?;
        push_step(&mut text, self.leaf)?;
        Ok(text)
    }
}

/// Appends `[N]`, where there is a number.
fn push_index(text: &mut Chars, index: Option<u64>) -> Result<(), OutOfMemory> {
    if let Some(n) = index {
        text.append("[")?;
        push_number(text, n)?;
        text.append("]")?;
    }
    Ok(())
}

/// Appends `.KEY`, where there is a key.
fn push_step(text: &mut Chars, key: &str) -> Result<(), OutOfMemory> {
    if !key.is_empty() {
        text.append(".")?;
        text.append(key)?;
    }
    Ok(())
}

/// Appends the digits of a number.
pub(crate) fn push_number(text: &mut Chars, n: u64) -> Result<(), OutOfMemory> {
    text.append(InlineText::<20>::of(n).as_str())
}

/// What is wrong with a value.
#[derive(Clone, Copy)]
pub(crate) enum Reason<'a> {
    /// It isn't there.
    Absent,
    /// In these words.
    Words(&'a str),
    /// It isn't this.
    Isnt(&'a str),
    /// It is no integer in this range.
    NoInteger(u64, u64),
    /// It has a key that isn't known.
    Unknown(&'a str),
    /// It has more than so many elements.
    TooMany(u64),
    /// It overlaps this root.
    Overlaps(u64),
    /// It has the name of this beacon.
    NamedAs(u64),
}

impl Reason<'_> {
    /// In words.
    pub(crate) fn text(self, alloc: Global) -> Result<Chars, OutOfMemory> {
        let mut text = Chars::new(alloc);
        match self {
            Reason::Absent => text.append("absent")?,
            Reason::Words(words) => text.append(words)?,
            Reason::Isnt(words) => {
                text.append("not ")?;
                text.append(words)?;
            }
            Reason::NoInteger(least, most) => {
                text.append("not an integer from ")?;
                push_number(&mut text, least)?;
                text.append(" to ")?;
                push_number(&mut text, most)?;
            }
            Reason::Unknown(key) => {
                text.append("unknown key \"")?;
                text.append(key)?;
                text.append("\"")?;
            }
            Reason::TooMany(most) => {
                text.append("more than ")?;
                push_number(&mut text, most)?;
            }
            Reason::Overlaps(first) => {
                text.append("overlaps roots[")?;
                push_number(&mut text, first)?;
                text.append("]")?;
            }
            Reason::NamedAs(first) => {
                text.append("has the name of beacon[")?;
                push_number(&mut text, first)?;
                text.append("]")?;
            }
        }
        Ok(text)
    }
}
