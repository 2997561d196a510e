//! Reading the configuration's file.
use crate::{OUT_OF_MEMORY, READ_FAULT};
use std::fs;
use std::io::{self, ErrorKind, Read, Write};

/// The most bytes that a configuration may have.
pub(crate) const LIMIT: usize = 65_536;

/// The status where the file has more.
const TOO_LARGE: u8 = 7;

/// Why a file wasn't read.
enum Trouble {
    System(io::Error),
    TooLarge,
    OutOfMemory,
}

/// What the file has, or the status to end with, after the reason was told.
pub(crate) fn read(rt: &HostRuntime, file: &str) -> Result<Vec<u8>, u8> {
    match content(rt, file) {
        Ok(content) => Ok(content),
        Err(Trouble::System(error)) => {
            let _ = writeln!(rt.stderr(), "grasp_node: {file}: {error}");
            Err(READ_FAULT)
        }
        Err(Trouble::TooLarge) => {
            let _ = writeln!(rt.stderr(), "grasp_node: {file}: more than {LIMIT} bytes");
            Err(TOO_LARGE)
        }
        Err(Trouble::OutOfMemory) => {
            let _ = writeln!(rt.stderr(), "grasp_node: out of memory");
            Err(OUT_OF_MEMORY)
        }
    }
}

fn content(rt: &HostRuntime, file: &str) -> Result<Vec<u8>, Trouble> {
    let mut opened = fs::open(rt, file).map_err(Trouble::System)?;
    let mut content = Vec::new(rt.alloc());
    let mut block = [0; 4096];
    for _ in 0..u64::MAX {
        match opened.read(&mut block) {
            Ok(0) => break,
            Ok(taken) => {
                if LIMIT - content.len().min(LIMIT) < taken {
                    return Err(Trouble::TooLarge);
                }
                if content.extend_from_slice(&block[..taken]).is_err() {
                    return Err(Trouble::OutOfMemory);
                }
            }
            Err(error) if error.kind() == ErrorKind::Interrupted => {}
            Err(error) => return Err(Trouble::System(error)),
        }
    }
    Ok(content)
}
