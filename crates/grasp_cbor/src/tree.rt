//! Data items and the lists that they hold (RFC 8949, section 3.1).

ghost use Rattle.std.specs.Prelude.{◌≡◌, ◌≤◌, ◌<◌, ◌^◌, min, [], ◌∷◌, ◌++◌, length, map, slice_get, option_map, OnOk, OnErr, IfOk};
ghost use Rattle.grasp_cbor.specs.DataItem.{depth_of, items_depth, pairs_depth, data_items, data_pairs};
ghost use Rattle.grasp_cbor.specs.Item.{data_item_of, items_of, pairs_of, pair_of};

use crate::{Chars, FloatBits, Octets, OutOfMemory, SimpleValue};
use std::alloc::{AllocError, Global};

/// A data item.
#[cycle(item)]
#[derive(Debug, Drop)]
pub enum Item {
    /// The number n.
    Uint(u64),
    /// The number -1-n.
    Neg(u64),
    /// A byte string.
    Bytes(Octets),
    /// A text string.
    Text(Chars),
    /// An array.
    List(Items),
    /// A map. Its pairs keep their order, and keys may repeat.
    Map(Pairs),
    /// A tag number, and the item that it tags.
    Tag(u64, Box<Item>),
    /// A simple value, such as false, true and null (20, 21 and 22).
    Simple(SimpleValue),
    /// A float.
    Float(FloatBits),
}

/// The items of an array.
#[cycle(item)]
#[derive(Debug, Drop)]
pub struct Items {
    held: Vec<Item>,
}

/// The pairs of a map, each a key and a value.
#[cycle(item)]
#[derive(Debug, Drop)]
pub struct Pairs {
    held: Vec<(Item, Item)>,
}

impl Item {
    /// 0 for an item without parts, 1 plus the greatest depth of its parts otherwise, and 1 for an empty
    /// array or map. Where that passes the greatest `u64` it is the greatest `u64`. It takes no memory.
    #[cycle(depth)]
    #[tactic(auto, using(crate::proofs::Views::views))]
    pub fn depth(&self) -> u64
        ensures { result ≡ min (depth_of (data_item_of self.now)) u64.MAX }
    {
        match self {
            Item::List(items) => items.deepest().saturating_add(1),
            Item::Map(pairs) => pairs.deepest().saturating_add(1),
            Item::Tag(_, item) => item.depth().saturating_add(1),
            _ => 0,
        }
    }

    /// Another of the same item.
    #[cycle(copy)]
    #[tactic(auto, using(crate::proofs::Views::views))]
    pub fn copy(&self) -> Result<Item, OutOfMemory>
        ensures { IfOk result (λ r. data_item_of r ≡ data_item_of self.now) }
    {
        match self {
            Item::Uint(n) => Ok(Item::Uint(*n)),
            Item::Neg(n) => Ok(Item::Neg(*n)),
            Item::Bytes(bytes) => Ok(Item::Bytes(bytes.copy()?)),
            Item::Text(text) => Ok(Item::Text(text.copy()?)),
            Item::List(items) => Ok(Item::List(items.copy()?)),
            Item::Map(pairs) => Ok(Item::Map(pairs.copy()?)),
            Item::Tag(number, item) => {
                let alloc = *Box::allocator(item);
                let copied = item.copy()?;
                Ok(Item::Tag(*number, Box::new(alloc, copied)?))
            }
            Item::Simple(value) => Ok(Item::Simple(*value)),
            Item::Float(bits) => Ok(Item::Float(*bits)),
        }
    }
}

impl Clone for Item {
    ghost use Rattle.grasp_cbor.specs.Item.{data_item_of};

    ghost is_clone = { λ a b. data_item_of b ≡ data_item_of a };

    fn clone(&self) -> Result<Item, AllocError> {
        match self.copy() {
            Ok(item) => Ok(item),
            Err(_) => Err(AllocError),
        }
    }
}

impl Items {
    /// No items.
    pub fn new(alloc: Global) -> Items
        ensures { items_of result ≡ [] }
    {
        Items {
            held: Vec::new(alloc),
        }
    }

    /// How many items there are.
    pub fn len(&self) -> u64
        ensures { result ≡ length (items_of self.now) }
    {
        self.held.len() as u64
    }

    /// Adds an item at the end. After an `Err` the list is as before.
    pub fn push(&mut self, item: Item) -> Result<(), OutOfMemory>
        ensures ok { OnOk result (items_of self.new ≡ items_of self.old ++ data_item_of item ∷ []) }
        ensures err { OnErr result (items_of self.new ≡ items_of self.old) }
    {
        self.held.push(item)?;
        Ok(())
    }

    /// The items.
    pub fn slice(&self) -> &[Item]
        ensures { map data_item_of result.now ≡ items_of self.now }
    {
        &self.held
    }

    /// The item at this place, counted from 0, or `None` past the end.
    pub fn at(&self, i: u64) -> Option<&Item>
        ensures { option_map (λ x. data_item_of x.now) result ≡ slice_get (items_of self.now) i }
    {
        self.held.get(i as usize)
    }

    /// The greatest depth of an item, or 0 where there is none.
    #[cycle(depth)]
    fn deepest(&self) -> u64
        ensures { result ≡ min (items_depth (data_items (items_of self.now))) u64.MAX }
    {
        let mut most: u64 = 0;
        for item in &self.held {
            most = most.max(item.depth());
        }
        most
    }

    /// Another of the same items.
    #[cycle(copy)]
    pub fn copy(&self) -> Result<Items, OutOfMemory>
        ensures { IfOk result (λ r. items_of r ≡ items_of self.now) }
    {
        let alloc = *self.held.allocator();
        let mut held = Vec::new(alloc);
        for item in &self.held {
            held.push(item.copy()?)?;
        }
        Ok(Items { held })
    }
}

impl Pairs {
    /// No pairs.
    pub fn new(alloc: Global) -> Pairs
        ensures { pairs_of result ≡ [] }
    {
        Pairs {
            held: Vec::new(alloc),
        }
    }

    /// How many pairs there are.
    pub fn len(&self) -> u64
        ensures { result ≡ length (pairs_of self.now) }
    {
        self.held.len() as u64
    }

    /// Adds a pair at the end. After an `Err` the list is as before.
    pub fn push(&mut self, pair: (Item, Item)) -> Result<(), OutOfMemory>
        ensures ok { OnOk result (pairs_of self.new ≡ pairs_of self.old ++ pair_of pair ∷ []) }
        ensures err { OnErr result (pairs_of self.new ≡ pairs_of self.old) }
    {
        self.held.push(pair)?;
        Ok(())
    }

    /// The pairs.
    pub fn slice(&self) -> &[(Item, Item)]
        ensures { map pair_of result.now ≡ pairs_of self.now }
    {
        &self.held
    }

    /// The pair at this place, counted from 0, or `None` past the end.
    pub fn at(&self, i: u64) -> Option<&(Item, Item)>
        ensures { option_map (λ p. pair_of p.now) result ≡ slice_get (pairs_of self.now) i }
    {
        self.held.get(i as usize)
    }

    /// The greatest depth of a key or a value, or 0 where there is none.
    #[cycle(depth)]
    fn deepest(&self) -> u64
        ensures { result ≡ min (pairs_depth (data_pairs (pairs_of self.now))) u64.MAX }
    {
        let mut most: u64 = 0;
        for (key, value) in &self.held {
            most = most.max(key.depth().max(value.depth()));
        }
        most
    }

    /// Another of the same pairs.
    #[cycle(copy)]
    pub fn copy(&self) -> Result<Pairs, OutOfMemory>
        ensures { IfOk result (λ r. pairs_of r ≡ pairs_of self.now) }
    {
        let alloc = *self.held.allocator();
        let mut held = Vec::new(alloc);
        for (key, value) in &self.held {
            held.push((key.copy()?, value.copy()?))?;
        }
        Ok(Pairs { held })
    }
}
