//! Streams whose calls a signal interrupts.
ghost use Rattle.std.specs.Prelude.{◌≤◌, IfOk};

use grasp_io::{Failed, read_some, write_some};
use std::io;
use std::io::{ErrorKind, Read, Write};

// A stream whose first call a signal interrupts, and whose third fails.
#[derive(Drop)]
struct Unsteady(u8);

impl Unsteady {
    fn turn(&mut self, len: usize) -> io::Result<usize>
        ensures { IfOk result (λ n. n ≤ len) }
    {
        self.0 = self.0.saturating_add(1);
        match self.0 {
            1 => Err(io::Error::from(ErrorKind::Interrupted)),
            3 => Err(io::Error::from(ErrorKind::BrokenPipe)),
            _ => Ok(len),
        }
    }
}

impl Read for Unsteady {
    fn read(&mut self, buf: &mut [u8]) -> io::Result<usize> {
        self.turn(buf.len())
    }
}

impl Write for Unsteady {
    fn write(&mut self, buf: &[u8]) -> io::Result<usize> {
        self.turn(buf.len())
    }

    fn flush(&mut self) -> io::Result<()> {
        Ok(())
    }
}

#[test]
fn an_interrupted_call_is_made_again(rt: HostRuntime) {
    let mut stream = Unsteady(0);
    assert_eq!(rt; read_some(&mut stream, &mut [0; 3]), Ok(3));
    assert_eq!(rt; read_some(&mut stream, &mut [0; 3]), Err(Failed));
    let mut stream = Unsteady(0);
    assert_eq!(rt; write_some(&mut stream, b"abc"), Ok(3));
    assert_eq!(rt; write_some(&mut stream, b"abc"), Err(Failed));
}
