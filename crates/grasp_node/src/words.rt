//! The words of the command line.
use crate::{OUT_OF_MEMORY, USAGE};
use grasp_client::Task;
use grasp_node_main::{Text, text_for};
use std::env;
use std::io::ErrorKind;
use std::rt::Env;

/// What the words ask for.
pub(crate) enum Asked<'a> {
    /// How the program is called.
    Help,
    /// Its name and version.
    Version,
    /// A node that makes its turns, configured by this file.
    Run(&'a str),
    /// A node that serves, configured by this file.
    Serve(&'a str),
    /// Every fault of this configuration.
    Check(&'a str),
    /// A new store, configured by this file.
    Init(&'a str),
    /// What the store has that this file configures.
    Store(&'a str),
    /// A client of the node with this control socket.
    Client(Task, &'a str),
}

/// What the words ask for, where they are a call of the program.
pub(crate) fn task_of(words: &[String]) -> Option<Asked<'_>> {
    match text_for(words) {
        Some(Text::Help) => return Some(Asked::Help),
        Some(Text::Version) => return Some(Asked::Version),
        None => {}
    }
    match words {
        [word, of] => asked_of(word.as_str(), of.as_str()),
        _ => None,
    }
}

fn asked_of<'a>(word: &str, of: &'a str) -> Option<Asked<'a>> {
    match word {
        "run" => Some(Asked::Run(of)),
        "serve" => Some(Asked::Serve(of)),
        "check" | "--check" => Some(Asked::Check(of)),
        "init" => Some(Asked::Init(of)),
        "store" => Some(Asked::Store(of)),
        "status" => Some(Asked::Client(Task::Status, of)),
        "events" => Some(Asked::Client(Task::Events, of)),
        "talk" => Some(Asked::Client(Task::Talk, of)),
        "stop" => Some(Asked::Client(Task::Stop, of)),
        _ => None,
    }
}

/// The words after the program's name, or the status to end with. A word that isn't UTF-8 is no call's.
pub(crate) fn words<R: Env + AllocGlobal>(rt: &R) -> Result<Vec<String>, u8> {
    match env::args(rt) {
        Ok(args) => words_of(rt, args),
        Err(error) if error.kind() == ErrorKind::OutOfMemory => Err(OUT_OF_MEMORY),
        Err(_) => Err(USAGE),
    }
}

fn words_of<R: AllocGlobal>(rt: &R, mut args: env::Args) -> Result<Vec<String>, u8> {
    let mut words = Vec::new(rt.alloc());
    let _ = args.next();
    for word in args {
        if words.push(word).is_err() {
            return Err(OUT_OF_MEMORY);
        }
    }
    Ok(words)
}
