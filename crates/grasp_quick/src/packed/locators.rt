//! Locators of a line (RFC 8990, section 2.9.5).

ghost use Rattle.std.specs.Prelude.{◌≤◌, ◌∷◌, [], IfSome};
ghost use Rattle.grasp_types.specs.Address.{locator_item, IsLocator};
ghost use Rattle.grasp_types.specs.Message.{locator_or_empty};
ghost use Rattle.grasp_text.specs.Line.{locator_words, locator_or_none};
ghost use Rattle.grasp_quick.specs.Packed.{Packs, PacksLocators};

use crate::packed::front::behind;
use crate::packed::places::{
    pack_ipv4, pack_ipv6, pack_port_or_null, pack_proto, pack_proto_or_null,
};
use crate::packed::words::{pack_number, pack_text};
use crate::room::Room;

/// The most locators of one list that are packed so.
const MOST: u8 = 16;

#[inline(always)]
fn pack_v6<'a>(line: &'a [u8], bytes: &mut Room) -> Option<&'a [u8]>
    ensures { IfSome result (λ rest. Packs (λ l. locator_item l ∷ []) IsLocator locator_words line.now rest.now bytes.old bytes.new) }
{
    let rest = behind(b" v6", line)?;
    bytes.put_head(4, 4)?;
    bytes.put_head(0, 103)?;
    let rest = pack_ipv6(rest, bytes)?;
    let rest = pack_proto(rest, bytes)?;
    pack_number(65535, rest, bytes)
}

#[inline(always)]
fn pack_v4<'a>(line: &'a [u8], bytes: &mut Room) -> Option<&'a [u8]>
    ensures { IfSome result (λ rest. Packs (λ l. locator_item l ∷ []) IsLocator locator_words line.now rest.now bytes.old bytes.new) }
{
    let rest = behind(b" v4", line)?;
    bytes.put_head(4, 4)?;
    bytes.put_head(0, 104)?;
    let rest = pack_ipv4(rest, bytes)?;
    let rest = pack_proto(rest, bytes)?;
    pack_number(65535, rest, bytes)
}

#[inline(always)]
fn pack_fqdn<'a>(line: &'a [u8], bytes: &mut Room) -> Option<&'a [u8]>
    ensures { IfSome result (λ rest. Packs (λ l. locator_item l ∷ []) IsLocator locator_words line.now rest.now bytes.old bytes.new) }
{
    let rest = behind(b" fqdn", line)?;
    bytes.put_head(4, 4)?;
    bytes.put_head(0, 105)?;
    let rest = pack_text(rest, bytes)?;
    let rest = pack_proto(rest, bytes)?;
    pack_number(65535, rest, bytes)
}

#[inline(always)]
fn pack_uri<'a>(line: &'a [u8], bytes: &mut Room) -> Option<&'a [u8]>
    ensures { IfSome result (λ rest. Packs (λ l. locator_item l ∷ []) IsLocator locator_words line.now rest.now bytes.old bytes.new) }
{
    let rest = behind(b" uri", line)?;
    bytes.put_head(4, 4)?;
    bytes.put_head(0, 106)?;
    let rest = pack_text(rest, bytes)?;
    let rest = pack_proto_or_null(rest, bytes)?;
    pack_port_or_null(rest, bytes)
}

/// A locator.
pub(crate) fn pack_locator<'a>(line: &'a [u8], bytes: &mut Room) -> Option<&'a [u8]>
    ensures { IfSome result (λ rest. Packs (λ l. locator_item l ∷ []) IsLocator locator_words line.now rest.now bytes.old bytes.new) }
{
    match line {
        [_, _, b'6', ..] => pack_v6(line, bytes),
        [_, _, b'4', ..] => pack_v4(line, bytes),
        [_, b'f', ..] => pack_fqdn(line, bytes),
        _ => pack_uri(line, bytes),
    }
}

/// A locator, or the word for none.
pub(crate) fn pack_locator_or_none<'a>(line: &'a [u8], bytes: &mut Room) -> Option<&'a [u8]>
    ensures { IfSome result (λ rest. Packs (λ l. locator_or_empty l ∷ []) (λ l. IfSome l IsLocator) locator_or_none
        line.now rest.now bytes.old bytes.new) }
{
    if let Some(rest) = behind(b" none", line) {
        bytes.put_head(4, 0)?;
        return Some(rest);
    }
    pack_locator(line, bytes)
}

/// Whether a word stands there that is no objective's.
#[inline(always)]
fn goes_on(line: &[u8]) -> bool {
    match line {
        [b' ', first, ..] => *first != b'o',
        _ => false,
    }
}

/// Locators, one or more, up to an objective or the end of the words; answers how many there are.
pub(crate) fn pack_locators<'a>(line: &'a [u8], bytes: &mut Room) -> Option<(u8, &'a [u8])>
    ensures locators { IfSome result (λ p. PacksLocators p.0 line.now p.1.now bytes.old bytes.new) }
    ensures some { IfSome result (λ p. 1 ≤ p.0) }
    ensures few { IfSome result (λ p. p.0 ≤ 16) }
{
    let mut rest = pack_locator(line, bytes)?;
    let mut count = 1;
    while count < MOST && goes_on(rest) {
        rest = pack_locator(rest, bytes)?;
        count += 1;
    }
    Some((count, rest))
}
