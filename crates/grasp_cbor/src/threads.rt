//! What may go to another thread, and be shared by threads.

ghost use denote.Param.Send.{IsSend, IsSync};
ghost use Rattle.grasp_cbor.specs.contracts.strings.Octets as octets;
ghost use Rattle.grasp_cbor.specs.contracts.strings.Chars as chars;
ghost use Rattle.grasp_cbor.specs.contracts.tree.Item as item;
ghost use Rattle.grasp_cbor.specs.contracts.item_reader.ItemReader as reader;

use crate::{Chars, Item, ItemReader, Octets};

/// Values of this type may go to another thread, and threads may share one: the bound says so.
pub fn may_cross<T: Send + Sync>()
    ensures sends { IsSend T.row }
    ensures shares { IsSync T.row }
{}

/// Strings, items and readers of items may go to another thread, and threads may share one.
pub fn items_may_cross()
    ensures octets { IsSend octets.the_row × IsSync octets.the_row }
    ensures chars { IsSend chars.the_row × IsSync chars.the_row }
    ensures items { IsSend item.the_row × IsSync item.the_row }
    ensures readers { IsSend reader.the_row × IsSync reader.the_row }
{
    may_cross::<Octets>();
    may_cross::<Chars>();
    may_cross::<Item>();
    may_cross::<ItemReader>();
}
