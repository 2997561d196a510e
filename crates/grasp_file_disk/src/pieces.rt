//! Where the bytes of a disk stand in its file.

ghost use Rattle.std.specs.Prelude.{◌≤◌};

use crate::slots::{read_gate, write_gate, write_tail};
use grasp_io::Failed;
use std::fs::File;
use std::os::unix::fs::FileExt;

/// A loss of power may spoil all bytes of a block that is being written, and none of another.
pub(crate) const BLOCK: u64 = 4096;

/// A slot has so many blocks: one for its gate, and 18 for what stands behind it.
pub(crate) const SLOT: u64 = 19;

/// So many bytes the file has, for two slots.
pub(crate) const FILE_BYTES: u64 = 2 * SLOT * BLOCK;

/// The blocks of the gates in the file.
pub(crate) const GATES: [u64; 2] = [0, SLOT * BLOCK];

/// Writes zeros to a new file and closes its gates, so that it has all its blocks: a file system that is full stops no later write.
pub(crate) fn fill(file: &File) -> Result<(), Failed> {
    let zeros = [0; BLOCK as usize];
    for block in 0..2 * SLOT {
        if file.write_all_at(&zeros, block * BLOCK).is_err() {
            return Err(Failed);
        }
    }
    write_gate(file, GATES[0], 0)?;
    write_gate(file, GATES[1], 0)
}

/// Whether the gate of a slot stands at this place of the disk.
fn is_gate(at: u64) -> bool {
    at == 0 || at == 70_000
}

/// The block of the gate of the slot to which this place of the disk belongs.
fn gate_of(at: u64) -> u64 {
    if at < 70_000 { GATES[0] } else { GATES[1] }
}

/// Where a byte of the disk stands in the file, and how many bytes from there on lie together. The gates of the two slots, at 0
/// and at 70,000, have blocks of their own, so that a write that is torn spoils no gate.
fn placed(at: u64) -> (u64, u64) {
    if at == 0 {
        (GATES[0], 1)
    } else if at < 70_000 {
        (BLOCK + (at - 1), 70_000 - at)
    } else if at == 70_000 {
        (GATES[1], 1)
    } else {
        (
            (GATES[1] + BLOCK).saturating_add(at - 70_001),
            140_000_u64.saturating_sub(at),
        )
    }
}

/// How many bytes of so many, from this place of the disk on, lie together in the file.
fn together(at: u64, left: usize) -> usize
    requires { 1 ≤ left }
    ensures some { 1 ≤ result }
    ensures most { result ≤ left }
{
    let (_, count) = placed(at);
    if count == 0 || count > left as u64 {
        left
    } else {
        count as usize
    }
}

/// Reads from the disk, in pieces that lie together in the file.
pub(crate) fn read_pieces(file: &File, at: u64, into: &mut [u8]) -> Result<(), Failed> {
    let mut done = 0;
    while done < into.len() {
        let place = at.saturating_add(done as u64);
        let count = together(place, into.len() - done);
        read_piece(file, place, &mut into[done..done + count])?;
        done += count;
    }
    Ok(())
}

/// Reads bytes that lie together in the file.
fn read_piece(file: &File, at: u64, into: &mut [u8]) -> Result<(), Failed> {
    let (from, _) = placed(at);
    if is_gate(at) {
        let Some(gate) = read_gate(file, from)? else {
            return Err(Failed);
        };
        into.fill(gate);
        return Ok(());
    }
    match file.read_exact_at(into, from) {
        Ok(()) => Ok(()),
        Err(_) => Err(Failed),
    }
}

/// Writes to the disk, in pieces that lie together in the file.
pub(crate) fn write_pieces(file: &File, at: u64, bytes: &[u8]) -> Result<(), Failed> {
    let mut done = 0;
    while done < bytes.len() {
        let place = at.saturating_add(done as u64);
        let count = together(place, bytes.len() - done);
        write_piece(file, place, &bytes[done..done + count])?;
        done += count;
    }
    Ok(())
}

/// Writes bytes that lie together in the file, and behind a gate their count and sum.
fn write_piece(file: &File, at: u64, bytes: &[u8]) -> Result<(), Failed> {
    let (from, _) = placed(at);
    match bytes {
        [gate] if is_gate(at) => write_gate(file, from, *gate),
        _ => {
            if file.write_all_at(bytes, from).is_err() {
                return Err(Failed);
            }
            write_tail(file, gate_of(at), bytes)
        }
    }
}
