//! Conversations with a node in memory.

use grasp_client::{Ending, Task, converse};
use grasp_io::{MemSink, MemSource};
use std::process::Abort;

// Runs a task against a node that says this in pieces of seven bytes, and compares how it ended, what was asked and what was copied.
fn run<R: Abort + AllocGlobal>(
    rt: &R,
    task: Task,
    input: &[u8],
    said: &[u8],
    wanted: (Result<(), Ending>, &[u8], &[u8]),
) {
    let mut input = MemSource::new(input);
    let mut node = MemSource::new(said).in_pieces(7);
    let mut to_node = MemSink::new(rt.alloc());
    let mut out = MemSink::new(rt.alloc());
    let ended = converse(
        rt.alloc(),
        task,
        &mut input,
        &mut node,
        &mut to_node,
        &mut out,
    );
    assert_eq!(rt; ended, wanted.0);
    assert_eq!(rt; to_node.written(), wanted.1);
    assert_eq!(rt; out.written(), wanted.2);
}

#[test]
fn the_state_is_asked(rt: HostRuntime) {
    let asked = b"version\nstate\nwants\nreads\ncounters\n";
    let said =
        b"version = a\nevent 3 stopping\nstate = held\nwants =\nreads =\ncounters = x 1\nlater = no\n";
    let copied = b"version = a\nevent 3 stopping\nstate = held\nwants =\nreads =\ncounters = x 1\n";
    run(&rt, Task::Status, b"", said, (Ok(()), asked, copied));
    let part = b"version = a\nstate = held";
    run(
        &rt,
        Task::Status,
        b"",
        part,
        (Err(Ending::Ended), b"version\nstate\n", b"version = a\n"),
    );
}

#[test]
fn events_are_heard_to_the_end(rt: HostRuntime) {
    let said = b"events = done\nevent 3 stopping\nhalf";
    let copied = b"events = done\nevent 3 stopping\n";
    run(&rt, Task::Events, b"", said, (Ok(()), b"events\n", copied));
    run(
        &rt,
        Task::Stop,
        b"",
        b"stop = done\n",
        (Ok(()), b"stop\n", b"stop = done\n"),
    );
    run(
        &rt,
        Task::Stop,
        b"",
        b"",
        (Err(Ending::Ended), b"stop\n", b""),
    );
}

#[test]
fn lines_are_asked_one_after_the_other(rt: HostRuntime) {
    let said =
        b"asa 'a = asa 1\nevent 5 visitor 1 left\n? = error line 0\n= = error line 0\n = error line 0\n";
    run(
        &rt,
        Task::Talk,
        b"asa 'a\n\x07\n=\n",
        said,
        (Ok(()), b"asa 'a\n\x07\n=\n", &said[..72]),
    );
}
