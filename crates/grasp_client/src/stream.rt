//! A stream of the machine as a source. No contract says which bytes it gives.
ghost use Rattle.std.specs.Prelude.{◌≡◌, ◌≤◌, length, None, IfOk};

use grasp_io::{Failed, Source};
use std::io::{ErrorKind, Read};

/// A stream from which bytes come, as a socket does. It tells no content.
#[derive(Drop)]
pub struct StreamSource<R: Drop> {
    stream: R,
    faults: u64,
}

impl<R: Read + Drop> StreamSource<R> {
    /// This stream, with no fault so far.
    pub fn new(stream: R) -> Self
        ensures { ⟦<StreamSource<R> as Source>⟧.faults result ≡ 0 }
    {
        StreamSource { stream, faults: 0 }
    }
}

impl<R: Read + Drop> Source for StreamSource<R> {
    ghost left = { λ _. None };

    ghost faults = { λ s. s.faults };

    fn read(&mut self, into: &mut [u8]) -> Result<usize, Failed> {
        let given = read_some(&mut self.stream, into);
        if given.is_err() {
            self.faults = self.faults.saturating_add(1);
        }
        given
    }
}

// One read. A read that a signal interrupted is made again.
fn read_some<R: Read>(reader: &mut R, into: &mut [u8]) -> Result<usize, Failed>
    ensures { IfOk result (λ n. n ≤ length into.new) }
{
    for _ in 0..u64::MAX {
        match reader.read(into) {
            Ok(given) => return Ok(given),
            Err(error) => {
                if error.kind() != ErrorKind::Interrupted {
                    return Err(Failed);
                }
            }
        }
    }
    Err(Failed)
}
