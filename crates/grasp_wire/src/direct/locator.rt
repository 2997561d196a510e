//! Locators (RFC 8990, section 2.9.5).

ghost use Rattle.std.specs.Prelude.{◌≤◌, IfSome, length, map};
ghost use Rattle.grasp_cbor.specs.Leading.{Leads};
ghost use Rattle.grasp_types.specs.Address.{locator_item, IsLocator};
ghost use Rattle.grasp_types.specs.Message.{AreLocators};
ghost use Rattle.grasp_wire.specs.Direct.{LeadAll, EndsArray, EndsKind};

use crate::direct::address::{
    read_ipv4, read_ipv6, read_port_or_null, read_proto, read_proto_or_null,
};
use crate::direct::scalars::{read_port, read_text};
use grasp_cbor::{read_array_head, read_unsigned};
use grasp_types::{Locator, Locators};
use std::alloc::Global;

fn read_v6(bytes: &[u8]) -> Option<(Locator, &[u8])>
    ensures ends { IfSome result (λ p. EndsKind 4 103 (locator_item p.0) bytes.now p.1.now) }
    ensures range { IfSome result (λ p. IsLocator p.0) }
{
    let (address, rest) = read_ipv6(bytes)?;
    let (proto, rest) = read_proto(rest)?;
    let (port, rest) = read_port(rest)?;
    let locator = Locator::V6 {
        address,
        proto,
        port,
    };
    Some((locator, rest))
}

fn read_v4(bytes: &[u8]) -> Option<(Locator, &[u8])>
    ensures ends { IfSome result (λ p. EndsKind 4 104 (locator_item p.0) bytes.now p.1.now) }
    ensures range { IfSome result (λ p. IsLocator p.0) }
{
    let (address, rest) = read_ipv4(bytes)?;
    let (proto, rest) = read_proto(rest)?;
    let (port, rest) = read_port(rest)?;
    let locator = Locator::V4 {
        address,
        proto,
        port,
    };
    Some((locator, rest))
}

fn read_fqdn(alloc: Global, bytes: &[u8]) -> Option<(Locator, &[u8])>
    ensures ends { IfSome result (λ p. EndsKind 4 105 (locator_item p.0) bytes.now p.1.now) }
    ensures range { IfSome result (λ p. IsLocator p.0) }
{
    let (name, rest) = read_text(alloc, bytes)?;
    let (proto, rest) = read_proto(rest)?;
    let (port, rest) = read_port(rest)?;
    Some((Locator::Fqdn { name, proto, port }, rest))
}

fn read_uri(alloc: Global, bytes: &[u8]) -> Option<(Locator, &[u8])>
    ensures ends { IfSome result (λ p. EndsKind 4 106 (locator_item p.0) bytes.now p.1.now) }
    ensures range { IfSome result (λ p. IsLocator p.0) }
{
    let (text, rest) = read_text(alloc, bytes)?;
    let (proto, rest) = read_proto_or_null(rest)?;
    let (port, rest) = read_port_or_null(rest)?;
    Some((Locator::Uri { text, proto, port }, rest))
}

fn read_locator_of(alloc: Global, kind: u64, bytes: &[u8]) -> Option<(Locator, &[u8])>
    ensures ends { IfSome result (λ p. EndsKind 4 kind (locator_item p.0) bytes.now p.1.now) }
    ensures range { IfSome result (λ p. IsLocator p.0) }
{
    match kind {
        103 => read_v6(bytes),
        104 => read_v4(bytes),
        105 => read_fqdn(alloc, bytes),
        106 => read_uri(alloc, bytes),
        _ => None,
    }
}

/// A locator behind the head of its array, which has four parts.
pub(crate) fn read_locator_parts(alloc: Global, bytes: &[u8]) -> Option<(Locator, &[u8])>
    ensures ends { IfSome result (λ p. EndsArray 4 (locator_item p.0) bytes.now p.1.now) }
    ensures range { IfSome result (λ p. IsLocator p.0) }
{
    let (kind, rest) = read_unsigned(bytes)?;
    read_locator_of(alloc, kind, rest)
}

/// A locator.
pub(crate) fn read_locator(alloc: Global, bytes: &[u8]) -> Option<(Locator, &[u8])>
    ensures leads { IfSome result (λ p. Leads (locator_item p.0) bytes.now p.1.now) }
    ensures range { IfSome result (λ p. IsLocator p.0) }
{
    let (count, rest) = read_array_head(bytes)?;
    if count != 4 {
        return None;
    }
    read_locator_parts(alloc, rest)
}

/// As many locators as lead the bytes one after another, of which there are one or more, and so many at most.
pub(crate) fn read_locators(alloc: Global, most: u64, bytes: &[u8]) -> Option<(Locators, &[u8])>
    ensures leads { IfSome result (λ p. LeadAll (map locator_item p.0) bytes.now p.1.now) }
    ensures range { IfSome result (λ p. AreLocators p.0) }
    ensures few { IfSome result (λ p. length p.0 ≤ most) }
{
    if most == 0 {
        return None;
    }
    let (first, after) = read_locator(alloc, bytes)?;
    let Ok(mut held) = Locators::of(alloc, first) else {
        return None;
    };
    let mut rest = after;
    for i in 1..most {
        let Some((next, after)) = read_locator(alloc, rest) else {
            return Some((held, rest));
        };
        let Ok(()) = held.push(next) else {
            return None;
        };
        rest = after;
    }
    Some((held, rest))
}
