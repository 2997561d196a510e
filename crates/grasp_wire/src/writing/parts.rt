//! Spelling the parts of messages.

ghost use Rattle.std.specs.Prelude.{◌≡◌, ◌<◌, ◌^◌, [], ◌∷◌, ◌++◌, ℕ, Option, Some, option_map, OnOk, IfSome};
ghost use Rattle.std.specs.Str.{IsUtf8};
ghost use Rattle.grasp_cbor.specs.DataItem.{DataItem, unsigned, text_string, array_of};
ghost use Rattle.grasp_cbor.specs.Head.{shortest_head};
ghost use Rattle.grasp_cbor.specs.Shortest.{shortest};
ghost use Rattle.grasp_types.specs.Address.{address_item, proto_item, proto_or_null, port_or_null, locator_item, IsAddress, IsLocator};
ghost use Rattle.grasp_types.specs.Objective.{optional, objective_item, IsObjective, IsValue};
ghost use Rattle.grasp_types.specs.Message.{verdict_item, locator_or_empty, IsVerdict};
ghost use Rattle.grasp_wire.specs.Parts.{shortest_parts};
ghost use Rattle.grasp_wire.specs.Put.{Puts};

use crate::writing::put::{Full, Put};
use grasp_cbor::Chars;
use grasp_types::{Address, Flags, Locator, Objective, Proto, Value, Verdict};

/// Puts an address.
pub(crate) fn put_address<P: Put>(address: &Address, out: &mut P) -> Result<(), Full>
    ensures puts { Puts P.Keeps P.Counts (P.place out.old) (P.place out.new)
        (shortest (address_item address.now)) result }
    ensures range { IsAddress address.now }
{
    match address {
        Address::V4(number) => out.byte_string(&number.to_be_bytes()),
        Address::V6(number) => out.byte_string(&number.to_be_bytes()),
    }
}

fn put_proto<P: Put>(proto: &Proto, out: &mut P) -> Result<(), Full>
    ensures puts { Puts P.Keeps P.Counts (P.place out.old) (P.place out.new)
        (shortest (proto_item proto.now)) result }
{
    match proto {
        Proto::Tcp => out.unsigned(6),
        Proto::Udp => out.unsigned(17),
    }
}

fn put_proto_or_null<P: Put>(proto: &Option<Proto>, out: &mut P) -> Result<(), Full>
    ensures puts { Puts P.Keeps P.Counts (P.place out.old) (P.place out.new)
        (shortest (proto_or_null proto.now)) result }
{
    match proto {
        Some(proto) => put_proto(proto, out),
        None => out.null(),
    }
}

fn put_port_or_null<P: Put>(port: Option<u16>, out: &mut P) -> Result<(), Full>
    ensures puts { Puts P.Keeps P.Counts (P.place out.old) (P.place out.new)
        (shortest (port_or_null port)) result }
    ensures range { IfSome port (λ p. p < 2 ^ 16) }
{
    match port {
        Some(port) => out.unsigned(u64::from(port)),
        None => out.null(),
    }
}

/// Puts the head of a locator and its number.
#[tactic(auto, using(crate::proofs::Putting::putting))]
fn put_locator_start<P: Put>(number: u8, out: &mut P) -> Result<(), Full>
    ensures puts { Puts P.Keeps P.Counts (P.place out.old) (P.place out.new)
        (shortest_head 4 4 ++ shortest (unsigned number)) result }
{
    out.array_head(4)?;
    out.unsigned(u64::from(number))
}

/// Puts the last two parts of a locator.
#[tactic(auto, using(crate::proofs::Putting::putting))]
fn put_locator_end<P: Put>(proto: &Proto, port: u16, out: &mut P) -> Result<(), Full>
    ensures puts { Puts P.Keeps P.Counts (P.place out.old) (P.place out.new)
        (shortest (proto_item proto.now) ++ shortest (unsigned port)) result }
{
    put_proto(proto, out)?;
    out.unsigned(u64::from(port))
}

/// Puts a locator with an address.
#[tactic(auto, using(crate::proofs::Putting::putting))]
fn put_ip_locator<P: Put>(
    number: u8,
    address: &Address,
    proto: &Proto,
    port: u16,
    out: &mut P,
) -> Result<(), Full>
    ensures puts { Puts P.Keeps P.Counts (P.place out.old) (P.place out.new)
        (shortest (array_of (unsigned number ∷ address_item address.now ∷ proto_item proto.now ∷ unsigned port ∷ []))) result }
    ensures address { OnOk result (IsAddress address.now) }
    ensures port { port < 2 ^ 16 }
{
    put_locator_start(number, out)?;
    put_address(address, out)?;
    put_locator_end(proto, port, out)
}

/// Puts a locator.
#[tactic(auto, using(crate::proofs::Putting::putting))]
pub(crate) fn put_locator<P: Put>(locator: &Locator, out: &mut P) -> Result<(), Full>
    ensures puts { Puts P.Keeps P.Counts (P.place out.old) (P.place out.new)
        (shortest (locator_item locator.now)) result }
    ensures range { OnOk result (IsLocator locator.now) }
{
    match locator {
        Locator::V6 {
            address,
            proto,
            port,
        } => put_ip_locator(103, &Address::V6(*address), proto, *port, out),
        Locator::V4 {
            address,
            proto,
            port,
        } => put_ip_locator(104, &Address::V4(*address), proto, *port, out),
        Locator::Fqdn { name, proto, port } => {
            put_locator_start(105, out)?;
            out.text_string(name)?;
            put_locator_end(proto, *port, out)
        }
        Locator::Uri { text, proto, port } => {
            put_locator_start(106, out)?;
            out.text_string(text)?;
            put_proto_or_null(proto, out)?;
            put_port_or_null(*port, out)
        }
    }
}

/// Puts a locator, or the empty list where there is none.
pub(crate) fn put_locator_or_empty<P: Put>(
    locator: &Option<Locator>,
    out: &mut P,
) -> Result<(), Full>
    ensures puts { Puts P.Keeps P.Counts (P.place out.old) (P.place out.new)
        (shortest (locator_or_empty locator.now)) result }
    ensures range { OnOk result (IfSome locator.now IsLocator) }
{
    match locator {
        Some(locator) => put_locator(locator, out),
        None => out.array_head(0),
    }
}

/// Puts the head of an objective and its first three parts.
#[tactic(auto, using(crate::proofs::Putting::putting))]
fn put_objective_start<P: Put>(
    count: u64,
    name: &Chars,
    flags: Flags,
    loops: u8,
    out: &mut P,
) -> Result<(), Full>
    ensures puts { Puts P.Keeps P.Counts (P.place out.old) (P.place out.new)
        (shortest_head 4 count ++ shortest_parts (text_string name.now ∷ unsigned flags ∷ unsigned loops ∷ [])) result }
    ensures range { OnOk result ((value : Option DataItem) → IfSome value IsValue
        → IsObjective (record { name = name.now; flags = flags; loops = loops; value = value })) }
{
    out.array_head(count)?;
    out.text_string(name)?;
    out.unsigned(u64::from(flags.bits()))?;
    out.unsigned(u64::from(loops))
}

/// Puts an objective with a value.
#[tactic(auto, using(crate::proofs::Putting::putting))]
pub(crate) fn put_offer<P: Put>(
    name: &Chars,
    flags: Flags,
    loops: u8,
    value: &Value,
    out: &mut P,
) -> Result<(), Full>
    ensures puts { Puts P.Keeps P.Counts (P.place out.old) (P.place out.new)
        (shortest (objective_item (record { name = name.now; flags = flags; loops = loops; value = Some value.now }))) result }
    ensures range { OnOk result (P.Keeps
        → IsObjective (record { name = name.now; flags = flags; loops = loops; value = Some value.now })) }
{
    put_objective_start(4, name, flags, loops, out)?;
    out.value(value)
}

/// Puts an objective.
#[tactic(auto, using(crate::proofs::Putting::putting))]
pub(crate) fn put_objective<P: Put>(objective: &Objective, out: &mut P) -> Result<(), Full>
    ensures puts { Puts P.Keeps P.Counts (P.place out.old) (P.place out.new)
        (shortest (objective_item objective.now)) result }
    ensures range { OnOk result (P.Keeps → IsObjective objective.now) }
{
    let Objective {
        name,
        flags,
        loops,
        value,
    } = objective;
    match value {
        Some(value) => put_offer(name, *flags, *loops, value, out),
        None => put_objective_start(3, name, *flags, *loops, out),
    }
}

/// Puts an objective, where there is one.
#[tactic(auto, using(crate::proofs::Putting::putting))]
pub(crate) fn put_some_objective<P: Put>(
    objective: &Option<Objective>,
    out: &mut P,
) -> Result<(), Full>
    ensures puts { Puts P.Keeps P.Counts (P.place out.old) (P.place out.new)
        (shortest_parts (optional (option_map objective_item objective.now))) result }
    ensures range { OnOk result (P.Keeps → IfSome objective.now IsObjective) }
{
    match objective {
        Some(objective) => put_objective(objective, out),
        None => Ok(()),
    }
}

/// Puts how a negotiation ends.
#[tactic(auto, using(crate::proofs::Putting::putting))]
pub(crate) fn put_verdict<P: Put>(verdict: &Verdict, out: &mut P) -> Result<(), Full>
    ensures puts { Puts P.Keeps P.Counts (P.place out.old) (P.place out.new)
        (shortest (verdict_item verdict.now)) result }
    ensures range { OnOk result (IsVerdict verdict.now) }
{
    match verdict {
        Verdict::Accept => {
            out.array_head(1)?;
            out.unsigned(101)
        }
        Verdict::Decline(reason) => put_decline(reason, out),
    }
}

/// Puts a decline with its reason, where there is one.
#[tactic(auto, using(crate::proofs::Putting::putting))]
fn put_decline<P: Put>(reason: &Option<Chars>, out: &mut P) -> Result<(), Full>
    ensures puts { Puts P.Keeps P.Counts (P.place out.old) (P.place out.new)
        (shortest (array_of (unsigned 102 ∷ optional (option_map text_string reason.now)))) result }
    ensures range { OnOk result (IfSome reason.now IsUtf8) }
{
    match reason {
        Some(reason) => {
            out.array_head(2)?;
            out.unsigned(102)?;
            out.text_string(reason)
        }
        None => {
            out.array_head(1)?;
            out.unsigned(102)
        }
    }
}
