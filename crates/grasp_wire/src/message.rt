//! Messages of items (RFC 8990, section 2.8).

ghost use Rattle.std.specs.Prelude.{◌≡◌, IfOk, IfSome, IfNone};
ghost use Rattle.grasp_cbor.specs.Encodable.{IsEncodable};
ghost use Rattle.grasp_cbor.specs.Item.{data_item_of, items_of};
ghost use Rattle.grasp_types.specs.Message.{item_of, IsMessage};
ghost use Rattle.grasp_wire.specs.ReadMessages.{message_of_kind, message_of, message_in};
ghost use Rattle.grasp_wire.specs.Stream.{IsNoMessage};

use crate::reading::kinds::{
    discovery_of, end_of, flood_of, invalid_of, negotiate_of, noop_of, req_neg_of, req_syn_of,
    response_of, synch_of, wait_of,
};
use crate::reading::scalars::{number_at, parts_of};
use grasp_cbor::{Item, Items, OutOfMemory};
use grasp_types::Message;
use std::alloc::Global;

/// The message whose item this is, or `None` where it is that of none.
pub(crate) fn message_of_item(alloc: Global, item: &Item) -> Result<Option<Message>, OutOfMemory>
    requires { IsEncodable (data_item_of item.now) }
    ensures ranges { IfOk result (λ found. IfSome found IsMessage) }
    ensures found { IfOk result (λ found. IfSome found (λ m. data_item_of item.now ≡ item_of m)) }
    ensures none { IfOk result (λ found. IfNone found (IsNoMessage (data_item_of item.now))) }
{
    message_in(alloc, item)
}

#[tactic(auto, unfolding(crate::specs::ReadMessages::message_in))]
fn message_in(alloc: Global, item: &Item) -> Result<Option<Message>, OutOfMemory>
    ensures { IfOk result (λ r. r ≡ message_in (data_item_of item.now)) }
{
    match parts_of(item) {
        Some(parts) => message_of(alloc, parts),
        None => Ok(None),
    }
}

#[tactic(auto, unfolding(crate::specs::ReadMessages::message_of))]
fn message_of(alloc: Global, parts: &Items) -> Result<Option<Message>, OutOfMemory>
    ensures { IfOk result (λ r. r ≡ message_of (items_of parts.now)) }
{
    match number_at(parts, 0) {
        Some(kind) => message_of_kind(alloc, kind, parts),
        None => Ok(None),
    }
}

#[tactic(auto, unfolding(crate::specs::ReadMessages::message_of_kind))]
fn message_of_kind(alloc: Global, kind: u64, parts: &Items) -> Result<Option<Message>, OutOfMemory>
    ensures { IfOk result (λ r. r ≡ message_of_kind kind (items_of parts.now)) }
{
    match kind {
        0 => Ok(noop_of(parts)),
        1 => discovery_of(parts),
        2 => response_of(alloc, parts),
        3 => req_neg_of(parts),
        4 => req_syn_of(parts),
        5 => negotiate_of(parts),
        6 => end_of(parts),
        7 => Ok(wait_of(parts)),
        8 => synch_of(parts),
        9 => flood_of(alloc, parts),
        99 => invalid_of(parts),
        _ => Ok(None),
    }
}
