//! Reading the one item that begins some bytes.

ghost use Rattle.std.specs.Prelude.{◌≡◌, ◌≢◌, ℕ, ◌<◌, IfOk, IfSome, Some, Err};
ghost use Rattle.grasp_cbor.specs.CanGoOn.{IsItem};
ghost use Rattle.grasp_cbor.specs.Encodes.{Encodes};
ghost use Rattle.grasp_cbor.specs.Item.{data_item_of};
ghost use Rattle.grasp_cbor.specs.Ending.{Ending, IsEnding, IsWhole, faulty};
ghost use Rattle.grasp_cbor.specs.DataItem.{DataItem};
ghost use Rattle.grasp_cbor.specs.declared.read.ItemFault.TheVariants as fault_of;
ghost use Rattle.grasp_cbor.specs.EndsAt.{EndsAt};
ghost use Rattle.grasp_cbor.specs.ReadItem.{ending_of, fault_ending};

use crate::build::build_item;
use crate::heads::BuildError;
use crate::walker::{FaultName, Taken, Walk, WalkFault};
use crate::{Item, OutOfMemory};
use std::alloc::Global;

/// An item at the front of bytes, or the beginning of one.
#[derive(Debug, Drop)]
pub enum ReadItem {
    /// The item, and how many bytes it takes.
    Whole { item: Item, used: u64 },
    /// The bytes are fewer than the limit, and more of them can make an item.
    Partial,
}

/// Why no item was read. A place counts from 0: that of the first byte with which no item begins.
#[derive(Clone, Copy, Debug, PartialEq, Eq)]
pub enum ItemFault {
    /// An initial byte that is reserved (RFC 8949, section 3) or has indefinite length in a major type that has none; a break
    /// where nothing of indefinite length is innermost, or where a key waits for its value; in a string of indefinite
    /// length what is neither a chunk of its kind nor a break (section 3.2); a simple value below 32 in two bytes.
    Malformed { at: u64 },
    /// A byte of a text string, or of a chunk of one, that no UTF-8 of its length has there.
    NotText { at: u64 },
    /// An initial byte of an array, a map or a tag inside 16 of these.
    TooDeep { at: u64 },
    /// As many bytes as the limit allows can still go on to an item.
    TooLong,
    /// There was no memory.
    OutOfMemory,
}

/// Reads the one item that begins the bytes and takes at most `limit` of them (RFC 8949, section 3). Each
/// byte is looked at once, and a whole item is then built of slices. Only a whole item takes memory.
pub fn read_item(alloc: Global, bytes: &[u8], limit: u64) -> Result<ReadItem, ItemFault>
    requires { 0 < limit }
    // What is answered is so.
    ensures found { IfSome (ending_of result) (IsEnding bytes.now limit) }
    // What is so is answered, unless memory runs out.
    ensures only { (ending : Ending) → IsEnding bytes.now limit ending → IfSome (ending_of result) (λ e. e ≡ ending) }
    // Only a whole item takes memory.
    ensures memory { result ≡ Err fault_of.OutOfMemory → (item : DataItem) × (used : ℕ) × IsWhole bytes.now limit item used }
{
    match find_end(bytes, limit) {
        Ok(Some(used)) => match build_whole(alloc, &bytes[..used]) {
            Ok(item) => Ok(ReadItem::Whole {
                item,
                used: used as u64,
            }),
            Err(OutOfMemory) => Err(ItemFault::OutOfMemory),
        },
        Ok(None) => Ok(ReadItem::Partial),
        Err(WalkFault::Bad(name, at)) => Err(item_fault(name, at)),
        Err(WalkFault::TooLong) => Err(ItemFault::TooLong),
    }
}

/// Builds the item that the bytes encode.
pub fn build_whole(alloc: Global, bytes: &[u8]) -> Result<Item, OutOfMemory>
    requires { IsItem 16 bytes.now }
    ensures { IfOk result (λ item. Encodes (data_item_of item) bytes.now) }
{
    match build_item(alloc, bytes, 16) {
        Ok((item, _)) => Ok(item),
        Err(BuildError::Memory) => Err(OutOfMemory),
        Err(BuildError::NotItem) => unreachable!(),
    }
}

/// Where the item ends that begins these bytes.
fn find_end(bytes: &[u8], limit: u64) -> Result<Option<usize>, WalkFault>
    requires { 0 < limit }
    ensures { EndsAt bytes.now limit result }
{
    let mut walk = Walk::new(limit);
    for (i, byte) in bytes.iter().enumerate() {
        match walk.take(*byte) {
            Ok(Taken::More) => {}
            Ok(Taken::Whole) => return Ok(Some(i + 1)),
            Err(fault) => return Err(fault),
        }
    }
    Ok(None)
}

/// The fault of this name at this place.
pub(crate) fn item_fault(name: FaultName, at: u64) -> ItemFault
    ensures ending { fault_ending result ≡ Some (faulty name at) }
    ensures memory { result ≢ fault_of.OutOfMemory }
{
    match name {
        FaultName::Malformed => ItemFault::Malformed { at },
        FaultName::NotText => ItemFault::NotText { at },
        FaultName::TooDeep => ItemFault::TooDeep { at },
    }
}
