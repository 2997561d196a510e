//! The tool `grasp_replay`: one call of `grasp_replay_main` over the standard streams.
#![tactic(auto)]

use grasp_io::{StdSink, StdSource};
use grasp_replay_main::{Status, finish, print_text, replay_main, text_for};
use libc::net as c;
use libc::types::pollfd;
use std::env;
use std::io::ErrorKind;
use std::process::ExitCode;
use std::rt::Env;

fn main(rt: HostRuntime) -> ExitCode {
    let status = match words(&rt) {
        Ok(words) => answer(&rt, &words),
        Err(status) => status,
    };
    if status == Status::WriteFault && is_unread() {
        return ExitCode::from(status.number());
    }
    let mut errors = StdSink::new(rt.stderr());
    ExitCode::from(finish(rt.alloc(), &status, &mut errors))
}

/// Whether standard output is a pipe that nobody reads any more.
fn is_unread() -> bool {
    let mut polled = [pollfd {
        fd: 1,
        events: 0,
        revents: 0,
    }];
    c::poll(&mut polled, 0) > 0 && polled[0].revents & c::POLLERR != 0
}

/// Does what the words ask for.
fn answer(rt: &HostRuntime, words: &[String]) -> Status {
    let mut sink = StdSink::new(rt.stdout());
    match text_for(words) {
        Some(text) => print_text(text.text(), &mut sink),
        None => replay_main(
            rt.alloc(),
            words,
            &mut StdSource::new(rt.stdin()),
            &mut sink,
        ),
    }
}

/// The words after the program's name. A word that isn't UTF-8 is no task's.
fn words<R: Env + AllocGlobal>(rt: &R) -> Result<Vec<String>, Status> {
    match env::args(rt) {
        Ok(args) => words_of(rt, args),
        Err(error) if error.kind() == ErrorKind::OutOfMemory => Err(Status::OutOfMemory),
        Err(_) => Err(Status::Usage),
    }
}

fn words_of<R: AllocGlobal>(rt: &R, mut args: env::Args) -> Result<Vec<String>, Status> {
    let mut words = Vec::new(rt.alloc());
    let _ = args.next();
    for word in args {
        if words.push(word).is_err() {
            return Err(Status::OutOfMemory);
        }
    }
    Ok(words)
}
