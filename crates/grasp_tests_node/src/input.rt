//! Reading the inputs of nodes.
use crate::calls::read_call;
use crate::fault::LineFault;
use crate::row_node::RowNode;
use grasp_cbor::Octets;
use grasp_text::{Words, bytes};
use grasp_types::Input;
use std::alloc::Global;

/// Takes an input of this node.
pub fn read_input(
    alloc: Global,
    words: &mut Words<'_>,
    seat: &RowNode,
) -> Result<Input, LineFault> {
    let (word, _) = words.next()?;
    match word {
        b"api" => {
            let asa = words.u32()?;
            let call = read_call(alloc, words, seat)?;
            Ok(Input::Api { asa, call })
        }
        b"datagram" => read_datagram(alloc, words),
        b"opened" => {
            let stream = words.number(u64::MAX)?;
            let from = words.address()?;
            Ok(Input::Opened { stream, from })
        }
        b"bytes" => {
            let stream = words.number(u64::MAX)?;
            let bytes = read_bytes(alloc, words)?;
            Ok(Input::Bytes { stream, bytes })
        }
        b"closed" => Ok(Input::Closed {
            stream: words.number(u64::MAX)?,
        }),
        b"drain" => Ok(Input::Drain { max: words.u32()? }),
        _ => Err(LineFault::Bad),
    }
}

/// Takes a datagram.
fn read_datagram(alloc: Global, words: &mut Words<'_>) -> Result<Input, LineFault> {
    let link = words.number(255)? as u8;
    let from = words.number(255)? as u8;
    let bytes = read_bytes(alloc, words)?;
    Ok(Input::Datagram { link, from, bytes })
}

/// Takes bytes.
pub fn read_bytes(alloc: Global, words: &mut Words<'_>) -> Result<Octets, LineFault> {
    let (word, _) = words.next()?;
    match bytes(alloc, word)? {
        Some(bytes) => Ok(Octets::from_vec(bytes)),
        None => Err(LineFault::Bad),
    }
}
