//! Datagrams, each of which is one message (RFC 8990, section 2.8).

ghost use Rattle.std.specs.Prelude.{◌≡◌, ◌<◌, Ok, Err};
ghost use Rattle.grasp_wire.specs.One.{AnswersOne, AnswersFirst};

use crate::read_on::{cut_fault, message_of_bytes, read_rest};
use crate::{CutFault, OneFault};
use grasp_cbor::{ItemReader, OutOfMemory, Steps};
use grasp_types::Message;
use std::alloc::Global;
use std::marker::Brand;
use std::sync::ledger::{Blank, Ledger};

/// The one message that all the bytes are, of which there may be `limit`. It takes memory for a whole item alone.
pub fn decode_one(alloc: Global, bytes: &[u8], limit: u32) -> Result<Message, OneFault>
    requires { 0 < limit }
    ensures { AnswersOne bytes.now limit result }
{
    match first_in::<Brand>(bytes, limit, Blank::new(1)) {
        Ok(used) => match message_of_bytes(alloc, &bytes[..used]) {
            Ok(Some(message)) => {
                if used < bytes.len() {
                    return Err(OneFault::Trailing { at: used as u64 });
                }
                Ok(message)
            }
            Ok(None) => Err(OneFault::Cut(CutFault::NotMessage { at: 0 })),
            Err(OutOfMemory) => Err(OneFault::Cut(CutFault::OutOfMemory)),
        },
        Err(fault) => Err(fault),
    }
}

/// How many bytes the item has that begins these, with steps in a ledger of their own.
fn first_in<L: Ledger>(bytes: &[u8], limit: u32, blank: Blank) -> Result<usize, OneFault>
    requires limit { 0 < limit }
    requires name { blank.name ≡ L.name }
    requires parts { blank.parts ≡ L.parts }
    requires some { 0 < blank.parts }
    ensures { AnswersFirst bytes.now limit result }
{
    first_item(bytes, limit, &mut Steps::<L>::new(blank))
}

/// How many bytes the item has that begins these.
fn first_item<L: Ledger>(bytes: &[u8], limit: u32, steps: &mut Steps<L>) -> Result<usize, OneFault>
    requires { 0 < limit }
    ensures { AnswersFirst bytes.now limit result }
{
    let mut reader = ItemReader::new(limit as u64);
    match read_rest(&mut reader, bytes, 0, false, steps) {
        Ok(Some(used)) => Ok(used),
        Ok(None) => Err(OneFault::Truncated {
            at: bytes.len() as u64,
        }),
        Err(fault) => Err(OneFault::Cut(cut_fault(fault, 0))),
    }
}
