//! Locators (RFC 8990, section 2.9.5).

ghost use Rattle.std.specs.Prelude.{◌≤◌, IfSome};
ghost use Rattle.grasp_types.specs.Address.{locator_item, IsLocator};
ghost use Rattle.grasp_types.specs.Message.{locator_or_empty};
ghost use Rattle.grasp_text.specs.Line.{locator_words, all_locator_words, locator_or_none};
ghost use Rattle.grasp_quick.specs.Spelled.{Spells, SpellsArray, SpellsKind, SpellsMany};

use crate::places::{spell_ipv4, spell_ipv6, spell_port_or_null, spell_proto, spell_proto_or_null};
use crate::room::Room;
use crate::shown::{below, spell_text};
use grasp_cbor::{read_array_head, read_unsigned};

fn spell_v6<'a>(bytes: &'a [u8], line: &mut Room) -> Option<&'a [u8]>
    ensures { IfSome result (λ rest. SpellsKind 4 103 locator_item IsLocator locator_words bytes.now rest.now line.old line.new) }
{
    line.put(b" v6")?;
    let rest = spell_ipv6(bytes, line)?;
    let rest = spell_proto(rest, line)?;
    below(65535, rest, line)
}

fn spell_v4<'a>(bytes: &'a [u8], line: &mut Room) -> Option<&'a [u8]>
    ensures { IfSome result (λ rest. SpellsKind 4 104 locator_item IsLocator locator_words bytes.now rest.now line.old line.new) }
{
    line.put(b" v4")?;
    let rest = spell_ipv4(bytes, line)?;
    let rest = spell_proto(rest, line)?;
    below(65535, rest, line)
}

fn spell_fqdn<'a>(bytes: &'a [u8], line: &mut Room) -> Option<&'a [u8]>
    ensures { IfSome result (λ rest. SpellsKind 4 105 locator_item IsLocator locator_words bytes.now rest.now line.old line.new) }
{
    line.put(b" fqdn")?;
    let rest = spell_text(bytes, line)?;
    let rest = spell_proto(rest, line)?;
    below(65535, rest, line)
}

fn spell_uri<'a>(bytes: &'a [u8], line: &mut Room) -> Option<&'a [u8]>
    ensures { IfSome result (λ rest. SpellsKind 4 106 locator_item IsLocator locator_words bytes.now rest.now line.old line.new) }
{
    line.put(b" uri")?;
    let rest = spell_text(bytes, line)?;
    let rest = spell_proto_or_null(rest, line)?;
    spell_port_or_null(rest, line)
}

fn spell_locator_of<'a>(kind: u64, bytes: &'a [u8], line: &mut Room) -> Option<&'a [u8]>
    ensures { IfSome result (λ rest. SpellsKind 4 kind locator_item IsLocator locator_words bytes.now rest.now line.old line.new) }
{
    match kind {
        103 => spell_v6(bytes, line),
        104 => spell_v4(bytes, line),
        105 => spell_fqdn(bytes, line),
        106 => spell_uri(bytes, line),
        _ => None,
    }
}

/// A locator behind the head of its array, which has four parts.
fn spell_locator_parts<'a>(bytes: &'a [u8], line: &mut Room) -> Option<&'a [u8]>
    ensures { IfSome result (λ rest. SpellsArray 4 locator_item IsLocator locator_words bytes.now rest.now line.old line.new) }
{
    let (kind, rest) = read_unsigned(bytes)?;
    spell_locator_of(kind, rest, line)
}

/// A locator.
fn spell_locator<'a>(bytes: &'a [u8], line: &mut Room) -> Option<&'a [u8]>
    ensures { IfSome result (λ rest. Spells locator_item IsLocator locator_words bytes.now rest.now line.old line.new) }
{
    let (count, rest) = read_array_head(bytes)?;
    if count != 4 {
        return None;
    }
    spell_locator_parts(rest, line)
}

/// A locator, or the empty array.
pub(crate) fn spell_locator_or_empty<'a>(bytes: &'a [u8], line: &mut Room) -> Option<&'a [u8]>
    ensures { IfSome result (λ rest. Spells locator_or_empty (λ l. IfSome l IsLocator) locator_or_none bytes.now rest.now line.old line.new) }
{
    let (count, rest) = read_array_head(bytes)?;
    if count == 0 {
        line.put(b" none")?;
        return Some(rest);
    }
    if count != 4 {
        return None;
    }
    spell_locator_parts(rest, line)
}

/// Whether an array stands there that begins with a text, as an objective does and no locator.
fn begins_objective(bytes: &[u8]) -> bool {
    match read_array_head(bytes) {
        Some((_, [first, ..])) => *first / 32 == 3,
        _ => false,
    }
}

/// Locators, one or more and so many at most, up to an objective; answers how many there are.
pub(crate) fn spell_locators<'a>(
    most: u64,
    bytes: &'a [u8],
    line: &mut Room,
) -> Option<(u64, &'a [u8])>
    ensures words { IfSome result (λ p. SpellsMany locator_item IsLocator all_locator_words p.0 bytes.now p.1.now line.old line.new) }
    ensures some { IfSome result (λ p. 1 ≤ p.0) }
{
    if most == 0 {
        return None;
    }
    let mut rest = spell_locator(bytes, line)?;
    let mut count = 1;
    while count < most && !begins_objective(rest) {
        rest = spell_locator(rest, line)?;
        count += 1;
    }
    Some((count, rest))
}
