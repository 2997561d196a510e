//! Values of objectives.

ghost use Rattle.std.specs.Prelude.{◌≡◌, ◌≤◌, ◌<◌, IfOk, IfErr};
ghost use Rattle.grasp_cbor.specs.DataItem.{depth_of};
ghost use Rattle.grasp_cbor.specs.Item.{data_item_of};

use crate::Plain;
use grasp_cbor::Item;
use std::alloc::AllocError;
use std::marker::Model;

/// A data item of a depth of at most 13.
#[derive(Debug, Drop)]
pub struct Value {
    item: Item,
}

impl Model for Value {
    ghost use Rattle.std.specs.Prelude.{◌≤◌};
    ghost use Rattle.grasp_cbor.specs.DataItem.{DataItem, depth_of};
    ghost use Rattle.grasp_cbor.specs.DataItemCode.{coded_item};
    ghost use Rattle.grasp_cbor.specs.Item.{data_item_of};

    ghost Value = { DataItem };

    ghost coded = { coded_item };

    ghost view = { λ a. data_item_of a.item };

    ghost invariant = { λ a. depth_of (data_item_of a.item) ≤ 13 };
}

impl Value {
    /// The value, or the item itself where its depth is above 13.
    pub fn of(item: Item) -> Result<Value, Item>
        ensures value { IfOk result (λ v. v ≡ data_item_of item) }
        ensures shallow { IfOk result (λ _. depth_of (data_item_of item) ≤ 13) }
        ensures same { IfErr result (λ i. i ≡ item) }
        ensures deep { IfErr result (λ _. 13 < depth_of (data_item_of item)) }
    {
        if item.depth() <= 13 {
            Ok(Value { item })
        } else {
            Err(item)
        }
    }

    /// The item.
    pub fn item(&self) -> &Item
        ensures value { data_item_of result.now ≡ self.now }
        ensures shallow { depth_of self.now ≤ 13 }
    {
        &self.item
    }
}

impl Clone for Value {
    ghost is_clone = { λ a b. b ≡ a };

    fn clone(&self) -> Result<Value, AllocError> {
        Ok(Value {
            item: self.item.clone()?,
        })
    }
}

impl Plain for Value {
    ghost clones_are_same = { λ a b e. e };
}
