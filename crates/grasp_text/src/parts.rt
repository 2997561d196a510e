//! Locators and objectives.

ghost use Rattle.std.specs.Prelude.{◌≡◌};
ghost use Rattle.grasp_text.specs.Grammar.{objective_at, locator_at, located, v6_at, v4_at, fqdn_at, uri_at, host_of, place_of, optional_locator_at};
ghost use Rattle.grasp_text.specs.Reading.{Reads, word_at, number_of, maybe_of, v4_of, v6_of, proto_of};

use crate::fault::WordFault;
use crate::hexes::{v4_address, v6_address};
use crate::names::{Host, locator_host, locator_proto};
use crate::numbers::number;
use crate::words::Words;
use grasp_types::{Locator, Objective, Proto};
use std::alloc::Global;

/// Takes an objective.
#[tactic(auto, unfolding(crate::specs::Grammar::objective_at))]
pub fn read_objective(alloc: Global, words: &mut Words<'_>) -> Result<Objective, WordFault>
    ensures { Reads (λ o. o) result words.new (objective_at words.old) }
{
    words.objective()?;
    let name = words.text(alloc)?;
    let flags = words.flags()?;
    let loops = words.number(255)? as u8;
    let value = words.optional_value(alloc)?;
    Ok(Objective {
        name,
        flags,
        loops,
        value,
    })
}

/// Takes a locator.
#[tactic(auto, unfolding(crate::specs::Grammar::locator_at))]
pub fn read_locator(alloc: Global, words: &mut Words<'_>) -> Result<Locator, WordFault>
    ensures { Reads (λ l. l) result words.new (locator_at words.old) }
{
    let host = read_host(words)?;
    read_located(alloc, words, host)
}

/// Takes a locator's first word.
fn read_host(words: &mut Words<'_>) -> Result<Host, WordFault>
    ensures { Reads (λ h. h) result words.new (word_at host_of words.old) }
{
    let (word, unfit) = words.next()?;
    locator_host(word).ok_or(unfit)
}

/// Takes what stands behind a locator's first word.
pub(crate) fn read_located(
    alloc: Global,
    words: &mut Words<'_>,
    host: Host,
) -> Result<Locator, WordFault>
    ensures { Reads (λ l. l) result words.new (located host words.old) }
{
    match host {
        Host::Ipv6 => read_v6(words),
        Host::Ipv4 => read_v4(words),
        Host::Domain => read_fqdn(alloc, words),
        Host::Resource => read_uri(alloc, words),
    }
}

#[tactic(auto, unfolding(crate::specs::Grammar::v6_at))]
fn read_v6(words: &mut Words<'_>) -> Result<Locator, WordFault>
    ensures { Reads (λ l. l) result words.new (v6_at words.old) }
{
    let address = read_v6_address(words)?;
    let proto = read_proto(words)?;
    let port = read_port(words)?;
    Ok(Locator::V6 {
        address,
        proto,
        port,
    })
}

#[tactic(auto, unfolding(crate::specs::Grammar::v4_at))]
fn read_v4(words: &mut Words<'_>) -> Result<Locator, WordFault>
    ensures { Reads (λ l. l) result words.new (v4_at words.old) }
{
    let address = read_v4_address(words)?;
    let proto = read_proto(words)?;
    let port = read_port(words)?;
    Ok(Locator::V4 {
        address,
        proto,
        port,
    })
}

#[tactic(auto, unfolding(crate::specs::Grammar::fqdn_at))]
fn read_fqdn(alloc: Global, words: &mut Words<'_>) -> Result<Locator, WordFault>
    ensures { Reads (λ l. l) result words.new (fqdn_at words.old) }
{
    let name = words.text(alloc)?;
    let proto = read_proto(words)?;
    let port = read_port(words)?;
    Ok(Locator::Fqdn { name, proto, port })
}

#[tactic(auto, unfolding(crate::specs::Grammar::uri_at))]
fn read_uri(alloc: Global, words: &mut Words<'_>) -> Result<Locator, WordFault>
    ensures { Reads (λ l. l) result words.new (uri_at words.old) }
{
    let text = words.text(alloc)?;
    let proto = read_optional_proto(words)?;
    let port = read_optional_port(words)?;
    Ok(Locator::Uri { text, proto, port })
}

fn read_v6_address(words: &mut Words<'_>) -> Result<u128, WordFault>
    ensures { Reads (λ n. n) result words.new (word_at v6_of words.old) }
{
    let (word, unfit) = words.next()?;
    v6_address(word).ok_or(unfit)
}

fn read_v4_address(words: &mut Words<'_>) -> Result<u32, WordFault>
    ensures { Reads (λ n. n) result words.new (word_at v4_of words.old) }
{
    let (word, unfit) = words.next()?;
    v4_address(word).ok_or(unfit)
}

fn read_proto(words: &mut Words<'_>) -> Result<Proto, WordFault>
    ensures { Reads (λ p. p) result words.new (word_at proto_of words.old) }
{
    let (word, unfit) = words.next()?;
    locator_proto(word).ok_or(unfit)
}

fn read_port(words: &mut Words<'_>) -> Result<u16, WordFault>
    ensures { Reads (λ n. n) result words.new (word_at (number_of 65535) words.old) }
{
    Ok(words.number(65535)? as u16)
}

fn read_optional_proto(words: &mut Words<'_>) -> Result<Option<Proto>, WordFault>
    ensures { Reads (λ p. p) result words.new (word_at (maybe_of proto_of) words.old) }
{
    let (word, unfit) = words.next()?;
    match word {
        b"-" => Ok(None),
        _ => match locator_proto(word) {
            Some(proto) => Ok(Some(proto)),
            None => Err(unfit),
        },
    }
}

fn read_optional_port(words: &mut Words<'_>) -> Result<Option<u16>, WordFault>
    ensures { Reads (λ n. n) result words.new (word_at (maybe_of (number_of 65535)) words.old) }
{
    let (word, unfit) = words.next()?;
    match word {
        b"-" => Ok(None),
        _ => match number(word, 65535) {
            Some(port) => Ok(Some(port as u16)),
            None => Err(unfit),
        },
    }
}

/// Takes a locator, or `none`.
#[tactic(auto, unfolding(crate::specs::Grammar::optional_locator_at))]
pub fn read_optional_locator(
    alloc: Global,
    words: &mut Words<'_>,
) -> Result<Option<Locator>, WordFault>
    ensures { Reads (λ l. l) result words.new (optional_locator_at words.old) }
{
    match read_place(words)? {
        Some(host) => Ok(Some(read_located(alloc, words, host)?)),
        None => Ok(None),
    }
}

/// Takes a locator's first word, or `none`.
fn read_place(words: &mut Words<'_>) -> Result<Option<Host>, WordFault>
    ensures { Reads (λ h. h) result words.new (word_at place_of words.old) }
{
    let (word, unfit) = words.next()?;
    match word {
        b"none" => Ok(None),
        _ => match locator_host(word) {
            Some(host) => Ok(Some(host)),
            None => Err(unfit),
        },
    }
}
