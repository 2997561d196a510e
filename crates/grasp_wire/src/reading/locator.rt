//! Locators (RFC 8990, section 2.9.5).

ghost use Rattle.std.specs.Prelude.{◌≡◌, ◌≤◌, ◌∷◌, [], ◌++◌, length, IfOk, MatchOption, true, false};
ghost use Rattle.std.specs.List.{slice_range};
ghost use Rattle.grasp_cbor.specs.Item.{data_item_of, items_of};
ghost use Rattle.grasp_wire.specs.Reading.{one_or_more};
ghost use Rattle.grasp_wire.specs.ReadParts.{v6_of, v4_of, fqdn_of, uri_of, locator_of_kind, locator_of, locator_in};

use crate::reading::address::{ipv4_at, ipv6_at, port_or_null_at, proto_at, proto_or_null_at};
use crate::reading::scalars::{number_at, parts_of, port_at};
use grasp_cbor::{Item, Items, OutOfMemory};
use grasp_types::{Locator, Locators};
use std::alloc::Global;

#[tactic(auto, unfolding(crate::specs::ReadParts::v6_of))]
fn v6_of(parts: &Items) -> Option<Locator>
    ensures { result ≡ v6_of (items_of parts.now) }
{
    let address = ipv6_at(parts, 1)?;
    let proto = proto_at(parts, 2)?;
    let port = port_at(parts, 3)?;
    Some(Locator::V6 {
        address,
        proto,
        port,
    })
}

#[tactic(auto, unfolding(crate::specs::ReadParts::v4_of))]
fn v4_of(parts: &Items) -> Option<Locator>
    ensures { result ≡ v4_of (items_of parts.now) }
{
    let address = ipv4_at(parts, 1)?;
    let proto = proto_at(parts, 2)?;
    let port = port_at(parts, 3)?;
    Some(Locator::V4 {
        address,
        proto,
        port,
    })
}

#[tactic(auto, unfolding(crate::specs::ReadParts::fqdn_of))]
fn fqdn_of(parts: &Items) -> Result<Option<Locator>, OutOfMemory>
    ensures { IfOk result (λ r. r ≡ fqdn_of (items_of parts.now)) }
{
    let Some(Item::Text(name)) = parts.at(1) else {
        return Ok(None);
    };
    let Some(proto) = proto_at(parts, 2) else {
        return Ok(None);
    };
    let Some(port) = port_at(parts, 3) else {
        return Ok(None);
    };
    let name = name.copy()?;
    Ok(Some(Locator::Fqdn { name, proto, port }))
}

#[tactic(auto, unfolding(crate::specs::ReadParts::uri_of))]
fn uri_of(parts: &Items) -> Result<Option<Locator>, OutOfMemory>
    ensures { IfOk result (λ r. r ≡ uri_of (items_of parts.now)) }
{
    let Some(Item::Text(text)) = parts.at(1) else {
        return Ok(None);
    };
    let Some(proto) = proto_or_null_at(parts, 2) else {
        return Ok(None);
    };
    let Some(port) = port_or_null_at(parts, 3) else {
        return Ok(None);
    };
    let text = text.copy()?;
    Ok(Some(Locator::Uri { text, proto, port }))
}

#[tactic(auto, unfolding(crate::specs::ReadParts::locator_of_kind))]
fn locator_of_kind(kind: u64, parts: &Items) -> Result<Option<Locator>, OutOfMemory>
    ensures { IfOk result (λ r. r ≡ locator_of_kind kind (items_of parts.now)) }
{
    match kind {
        103 => Ok(v6_of(parts)),
        104 => Ok(v4_of(parts)),
        105 => fqdn_of(parts),
        106 => uri_of(parts),
        _ => Ok(None),
    }
}

/// The locator whose array has these parts.
#[tactic(auto, unfolding(crate::specs::ReadParts::locator_of))]
pub(crate) fn locator_of(parts: &Items) -> Result<Option<Locator>, OutOfMemory>
    ensures { IfOk result (λ r. r ≡ locator_of (items_of parts.now)) }
{
    if parts.len() != 4 {
        return Ok(None);
    }
    match number_at(parts, 0) {
        Some(kind) => locator_of_kind(kind, parts),
        None => Ok(None),
    }
}

/// The locator that the item is.
#[tactic(auto, unfolding(crate::specs::ReadParts::locator_in))]
fn locator_in(item: &Item) -> Result<Option<Locator>, OutOfMemory>
    ensures { IfOk result (λ r. r ≡ locator_in (data_item_of item.now)) }
{
    match parts_of(item) {
        Some(parts) => locator_of(parts),
        None => Ok(None),
    }
}

/// The locators at the places from `from` on and before `to`, of which there are one or more.
pub(crate) fn locators_between(
    alloc: Global,
    parts: &Items,
    from: u64,
    to: u64,
) -> Result<Option<Locators>, OutOfMemory>
    requires { to ≤ length (items_of parts.now) }
    ensures { IfOk result (λ r. r ≡ one_or_more locator_in (slice_range (items_of parts.now) from to)) }
{
    if to <= from {
        return Ok(None);
    }
    let Some(first) = parts.at(from) else {
        unreachable!()
    };
    let Some(first) = locator_in(first)? else {
        return Ok(None);
    };
    let mut held = Locators::of(alloc, first)?;
    for item in &parts.slice()[from as usize + 1..to as usize] {
        if !push_locator(&mut held, item)? {
            return Ok(None);
        }
    }
    Ok(Some(held))
}

/// Adds the locator that the item is, and answers whether it is one.
fn push_locator(held: &mut Locators, item: &Item) -> Result<bool, OutOfMemory>
    ensures { IfOk result (λ is_one. MatchOption (locator_in (data_item_of item.now)) (is_one ≡ false)
        (λ x. (is_one ≡ true) × (held.new ≡ held.old ++ x ∷ []))) }
{
    match locator_in(item)? {
        Some(locator) => {
            held.push(locator)?;
            Ok(true)
        }
        None => Ok(false),
    }
}
