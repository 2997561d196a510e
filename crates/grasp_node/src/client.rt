//! The clients of a node that serves.
use crate::{OUT_OF_MEMORY, READ_FAULT, WRITE_FAULT};
use grasp_client::{Ending, StreamSource, Task, converse};
use grasp_io::{MemSink, MemSource, StdSink, StdSource, write_all};
use std::io::{self, ErrorKind, Read, Write};
use std::os::unix::net::UnixStream;
use std::time::Duration;

/// How many seconds a client waits for an answer that comes at once, and for the end of a node that was told to stop.
const PATIENCE: u64 = 10;

/// Does what the task says at the node with this control socket, and returns the status to end with.
pub(crate) fn talk(rt: &HostRuntime, task: Task, socket: &str) -> u8 {
    let stream = match connect(rt, task, socket) {
        Ok(stream) => stream,
        Err(error) => {
            let _ = writeln!(rt.stderr(), "grasp_node: {socket}: {error}");
            return READ_FAULT;
        }
    };
    if task == Task::Stop {
        return stop(rt, socket, &stream);
    }
    let mut input = StdSource::new(rt.stdin());
    let mut node = StreamSource::new(&stream);
    let mut to_node = StdSink::new(&stream);
    let mut out = StdSink::new(rt.stdout());
    let ended = converse(
        rt.alloc(),
        task,
        &mut input,
        &mut node,
        &mut to_node,
        &mut out,
    );
    match ended {
        Ok(()) => 0,
        Err(ending) => tell(rt, socket, ending),
    }
}

/// Tells the node to stop, and waits until it has, where it doesn't refuse.
fn stop(rt: &HostRuntime, socket: &str, stream: &UnixStream) -> u8 {
    let mut input = MemSource::new(b"stop");
    let mut node = StreamSource::new(stream);
    let mut to_node = StdSink::new(stream);
    let mut said = MemSink::new(rt.alloc());
    let asked = converse(
        rt.alloc(),
        Task::Talk,
        &mut input,
        &mut node,
        &mut to_node,
        &mut said,
    );
    if write_all(&mut StdSink::new(rt.stdout()), said.written()).is_err() {
        return tell(rt, socket, Ending::WriteFault);
    }
    if let Err(ending) = asked {
        return tell(rt, socket, ending);
    }
    if said.written().ends_with(b" = error denied\n") {
        let _ = writeln!(
            rt.stderr(),
            "grasp_node: {socket}: guests can't stop the node"
        );
        return READ_FAULT;
    }
    await_end(rt, socket, stream)
}

/// Waits until the node has closed the stream.
fn await_end(rt: &HostRuntime, socket: &str, mut stream: &UnixStream) -> u8 {
    let mut block = [0; 256];
    for _ in 0..u64::MAX {
        match stream.read(&mut block) {
            Ok(0) => return 0,
            Ok(_) => {}
            Err(error) if error.kind() == ErrorKind::Interrupted => {}
            Err(_) => return tell(rt, socket, Ending::NodeFault),
        }
    }
    0
}

/// Says why a conversation ended early, and returns the status to end with.
fn tell(rt: &HostRuntime, socket: &str, ending: Ending) -> u8 {
    let (why, status) = reason(ending);
    let _ = writeln!(rt.stderr(), "grasp_node: {socket}: {why}");
    status
}

fn connect(rt: &HostRuntime, task: Task, socket: &str) -> io::Result<UnixStream> {
    let stream = UnixStream::connect(rt, socket)?;
    if task == Task::Status || task == Task::Stop {
        stream.set_read_timeout(Some(Duration::from_secs(PATIENCE)))?;
    }
    Ok(stream)
}

/// Why a conversation ended early, and the status for it.
fn reason(ending: Ending) -> (&'static str, u8) {
    match ending {
        Ending::Ended => ("the node ended", READ_FAULT),
        Ending::NodeFault => ("the node doesn't answer", READ_FAULT),
        Ending::InputFault => ("standard input: read fault", READ_FAULT),
        Ending::WriteFault => ("standard output: write fault", WRITE_FAULT),
        Ending::OutOfMemory => ("out of memory", OUT_OF_MEMORY),
    }
}
