//! Reading on behind bytes that were read before.

ghost use Rattle.std.specs.Prelude.{◌≡◌, ◌+◌, ◌<◌, ◌≤◌, ◌^◌, ℕ, List, ◌++◌, length, take, IfOk, IfSome, IfNone};
ghost use Rattle.grasp_cbor.specs.CanGoOn.{IsItem};
ghost use Rattle.grasp_cbor.specs.DataItem.{DataItem};
ghost use Rattle.grasp_cbor.specs.Encodes.{Encodes};
ghost use Rattle.grasp_cbor.specs.ItemReader.{reader_limit};
ghost use Rattle.grasp_types.specs.Message.{item_of, IsMessage};
ghost use Rattle.grasp_wire.specs.Stream.{IsNoMessage};
ghost use Rattle.grasp_wire.specs.Stands.{taken_with};
ghost use Rattle.grasp_wire.specs.ReadOn.{IsOpen, IsAt, AnswersRead, AnswersRest, IsOpenAfter, cut_of, place_in, taken_more, taken_of};

use crate::CutFault;
use crate::message::message_of_item;
use grasp_cbor::{ItemFault, ItemReader, OutOfMemory, Steps, Taken, build_whole};
use grasp_types::Message;
use std::alloc::Global;
use std::sync::ledger::Ledger;

/// Takes more bytes, up to the end of an item or a fault, and answers how many of them end the item. Each byte is a step. It
/// takes no memory.
pub(crate) fn read_on<L: Ledger>(
    reader: &mut ItemReader,
    more: &[u8],
    steps: &mut Steps<L>,
) -> Result<Option<usize>, ItemFault>
    ensures answers { (bytes : List ℕ) → IsOpen reader.old bytes → AnswersRead bytes more.now (reader_limit reader.old) result }
    ensures then { (bytes : List ℕ) → IsOpen reader.old bytes → IsOpenAfter reader.new (bytes ++ more.now) result }
    ensures limit { reader_limit reader.new ≡ reader_limit reader.old }
    ensures steps { (bytes : List ℕ) → IsOpen reader.old bytes
        → steps.new ≡ steps.old + taken_more (length bytes) more.now (reader_limit reader.old) result }
{
    let mut i = 0;
    while i < more.len() {
        let passed = reader.pass(&more[i..], steps);
        i += passed;
        if i == more.len() {
            return Ok(None);
        }
        match reader.take(more[i], steps) {
            Ok(Taken::More) => i += 1,
            Ok(Taken::Whole) => return Ok(Some(i + 1)),
            Err(fault) => return Err(fault),
        }
    }
    Ok(None)
}

/// Reads on in a rest of which so many bytes were read, and answers how many bytes the item has that begins it. Where these are
/// known to be a whole item, none is read.
pub(crate) fn read_rest<L: Ledger>(
    reader: &mut ItemReader,
    rest: &[u8],
    read: usize,
    whole: bool,
    steps: &mut Steps<L>,
) -> Result<Option<usize>, ItemFault>
    requires within { read ≤ length rest.now }
    requires opened { ∥ IsAt whole reader.old (take read rest.now) ∥₁ }
    ensures answers { AnswersRest read rest.now (reader_limit reader.old) result }
    ensures then { ∥ IsOpenAfter reader.new rest.now result ∥₁ }
    ensures limit { reader_limit reader.new ≡ reader_limit reader.old }
    ensures steps { steps.new + read ≡ steps.old + taken_of rest.now (reader_limit reader.old) result }
{
    if whole {
        return Ok(Some(read));
    }
    match read_on(reader, &rest[read..], steps) {
        Ok(Some(used)) => Ok(Some(read + used)),
        Ok(None) => Ok(None),
        Err(fault) => Err(fault),
    }
}

/// The message that the bytes of an item are, or `None` where they are none.
pub(crate) fn message_of_bytes(alloc: Global, bytes: &[u8]) -> Result<Option<Message>, OutOfMemory>
    requires { IsItem 16 bytes.now }
    ensures found { IfOk result (λ found. IfSome found (λ m. IsMessage m × Encodes (item_of m) bytes.now)) }
    ensures none { IfOk result (λ found. IfNone found ((item : DataItem) × Encodes item bytes.now × IsNoMessage item)) }
{
    let item = build_whole(alloc, bytes)?;
    message_of_item(alloc, &item)
}

/// A fault of an item, as a stream has it in which so many bytes stand before.
pub(crate) fn cut_fault(fault: ItemFault, before: u64) -> CutFault
    requires { before + place_in fault < 2 ^ 64 }
    ensures { result ≡ cut_of before fault }
{
    match fault {
        ItemFault::Malformed { at } => CutFault::Malformed { at: before + at },
        ItemFault::NotText { at } => CutFault::NotText { at: before + at },
        ItemFault::TooDeep { at } => CutFault::TooDeep { at: before + at },
        ItemFault::TooLong => CutFault::TooLong { at: before },
        ItemFault::OutOfMemory => CutFault::OutOfMemory,
    }
}

/// How many bytes of a stream were taken where a fault was met, but for an item that is no message.
pub(crate) fn taken_with(fault: CutFault, limit: u32) -> u64
    requires { taken_with limit fault < 2 ^ 64 }
    ensures { result ≡ taken_with limit fault }
{
    match fault {
        CutFault::Malformed { at } | CutFault::NotText { at } | CutFault::TooDeep { at } => at + 1,
        CutFault::TooLong { at } => at + u64::from(limit),
        CutFault::NotMessage { at } => at,
        CutFault::OutOfMemory => 0,
    }
}
