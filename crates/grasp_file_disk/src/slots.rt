//! What shows that blocks of a slot were spoilt.

use crate::pieces::{BLOCK, SLOT};
use grasp_io::Failed;
use std::fs::File;
use std::os::unix::fs::FileExt;

/// So many bytes a gate has in its block: its own and its complement by turns.
const GATE: usize = 8;

/// So many bytes stand at the end of a slot: how many were written behind its gate last, and their sum.
const TAIL: usize = 16;

/// What the sum of no bytes is, and by what it is multiplied for each (FNV-1a, 64 bits).
const NOTHING: u64 = 0xcbf2_9ce4_8422_2325;

const FACTOR: u64 = 0x0100_0000_01b3;

/// A gate's bytes.
fn gate_bytes(gate: u8) -> [u8; GATE] {
    let other = u8::MAX - gate;
    [gate, other, gate, other, gate, other, gate, other]
}

/// Writes a gate to its block. Its bytes lie in one sector.
pub(crate) fn write_gate(file: &File, from: u64, gate: u8) -> Result<(), Failed> {
    match file.write_all_at(&gate_bytes(gate), from) {
        Ok(()) => Ok(()),
        Err(_) => Err(Failed),
    }
}

/// Reads a gate from its block: nothing where its bytes don't agree.
pub(crate) fn read_gate(file: &File, from: u64) -> Result<Option<u8>, Failed> {
    let mut bytes = [0; GATE];
    if file.read_exact_at(&mut bytes, from).is_err() {
        return Err(Failed);
    }
    let gate = bytes[0];
    Ok(if bytes == gate_bytes(gate) {
        Some(gate)
    } else {
        None
    })
}

/// The sum of what had this sum, with these bytes behind it.
fn sum_with(sum: u64, bytes: &[u8]) -> u64 {
    let mut sum = sum;
    for byte in bytes {
        sum = (sum ^ u64::from(*byte)).wrapping_mul(FACTOR);
    }
    sum
}

/// Where the count and the sum stand of the slot whose gate's block is this one.
fn tail_of(gate: u64) -> u64 {
    gate.saturating_add(SLOT * BLOCK - TAIL as u64)
}

/// Writes how many bytes were written behind a gate, and their sum.
pub(crate) fn write_tail(file: &File, gate: u64, bytes: &[u8]) -> Result<(), Failed> {
    let count = bytes.len() as u64;
    let sum = sum_with(NOTHING, bytes);
    let tail = tail_of(gate);
    if file.write_all_at(&count.to_be_bytes(), tail).is_err() {
        return Err(Failed);
    }
    match file.write_all_at(&sum.to_be_bytes(), tail.saturating_add(8)) {
        Ok(()) => Ok(()),
        Err(_) => Err(Failed),
    }
}

/// A number of eight bytes at this place, the most significant first.
fn read_number(file: &File, from: u64) -> Result<u64, Failed> {
    let mut bytes = [0; 8];
    match file.read_exact_at(&mut bytes, from) {
        Ok(()) => Ok(u64::from_be_bytes(bytes)),
        Err(_) => Err(Failed),
    }
}

/// The sum of a slot's blocks behind its gate, so many bytes of them.
fn sum_behind(file: &File, gate: u64, count: u64) -> Result<u64, Failed> {
    let mut sum = NOTHING;
    let mut left = count;
    let mut block = [0; BLOCK as usize];
    for number in 1..SLOT {
        let taken = left.min(BLOCK);
        let from = gate.saturating_add(number * BLOCK);
        let part = &mut block[..taken as usize];
        if file.read_exact_at(part, from).is_err() {
            return Err(Failed);
        }
        sum = sum_with(sum, part);
        left -= taken;
    }
    Ok(sum)
}

/// Whether the slot whose gate's block is this one is as it was written: its gate's bytes agree, and where it is open, what stands
/// behind it has its sum.
pub(crate) fn is_whole(file: &File, gate: u64) -> Result<bool, Failed> {
    match read_gate(file, gate)? {
        Some(1) => {
            let tail = tail_of(gate);
            let count = read_number(file, tail)?;
            let sum = read_number(file, tail.saturating_add(8))?;
            Ok(count < (SLOT - 1) * BLOCK && sum == sum_behind(file, gate, count)?)
        }
        Some(_) => Ok(true),
        None => Ok(false),
    }
}
