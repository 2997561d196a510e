//! The store of a node that serves.
use crate::{OUT_OF_MEMORY, WRITE_FAULT, file, place};
use grasp_agent::PrefixAgent;
use grasp_cbor::OutOfMemory;
use grasp_config::{ServeConfig, ServeFault, read_serve};
use grasp_file_disk::{FileFault, FileStore, StoreFault};
use grasp_io::StdSink;
use grasp_node_main::{Status, print_text};
use grasp_pool::Pool;
use grasp_text::{push_prefix, push_word};
use std::alloc::Global;
use std::fs::OpenOptions;
use std::io::Write;

/// The status of a configuration that is bad, or names no store.
const BAD: u8 = 3;

/// The status of a store that isn't opened or made, or that failed.
pub(crate) const STORE_FAULT: u8 = 9;

/// Makes the store that the file names, with the image of its roots, and returns the status to end with.
pub(crate) fn init(rt: &HostRuntime, file: &str) -> u8 {
    let config = match configured(rt, file) {
        Ok(config) => config,
        Err(status) => return status,
    };
    let path = match path_of(rt, file, &config) {
        Ok(path) => path,
        Err(status) => return status,
    };
    match FileStore::create(rt, rt.alloc(), path, config.node.roots.slice()) {
        Ok(_) => 0,
        Err(fault) => tell(rt, path, &fault),
    }
}

/// Writes what the store that the file names has, and returns the status to end with.
pub(crate) fn show(rt: &HostRuntime, file: &str) -> u8 {
    let config = match configured(rt, file) {
        Ok(config) => config,
        Err(status) => return status,
    };
    let path = match path_of(rt, file, &config) {
        Ok(path) => path,
        Err(status) => return status,
    };
    match FileStore::open(rt, rt.alloc(), path) {
        Ok(store) => print(rt, &store.agent),
        Err(fault) => tell(rt, path, &fault),
    }
}

/// Whether the store of a configuration can be used: 0, or the status to end with, after the reason was told.
pub(crate) fn try_out(rt: &HostRuntime, config: &ServeConfig) -> u8 {
    let Some(path) = &config.serve.store else {
        return 0;
    };
    match FileStore::open(rt, rt.alloc(), path.text()) {
        Ok(_) => 0,
        // A node serves from it at this moment.
        Err(StoreFault::File(FileFault::Busy)) => 0,
        Err(fault) => tell(rt, path.text(), &fault),
    }
}

/// What the file configures.
fn configured(rt: &HostRuntime, file: &str) -> Result<ServeConfig, u8> {
    let text = file::read(rt, file)?;
    match read_serve(rt.alloc(), &text) {
        Ok(config) => Ok(config),
        Err(ServeFault::BadServe { .. }) => Err(place::tell_serve(rt, file, &text)),
        Err(ServeFault::OutOfMemory) => Err(starved(rt)),
    }
}

/// The path of its store.
fn path_of<'a>(rt: &HostRuntime, file: &str, config: &'a ServeConfig) -> Result<&'a str, u8> {
    match &config.serve.store {
        Some(path) => Ok(path.text()),
        None => {
            let _ = writeln!(rt.stderr(), "grasp_node: {file}: serve.store: absent");
            Err(BAD)
        }
    }
}

fn starved(rt: &HostRuntime) -> u8 {
    let _ = writeln!(rt.stderr(), "grasp_node: out of memory");
    OUT_OF_MEMORY
}

/// Says why a store isn't used, and returns the status to end with.
fn tell(rt: &HostRuntime, path: &str, fault: &StoreFault) -> u8 {
    if let StoreFault::OutOfMemory = fault {
        return starved(rt);
    }
    let _ = write!(rt.stderr(), "grasp_node: store {path}: {fault}");
    if *fault == StoreFault::File(FileFault::NoStore) {
        tell_missing(rt, path);
    }
    let _ = writeln!(rt.stderr());
    STORE_FAULT
}

/// Says why the file of a store can't be opened, where that is so.
pub(crate) fn tell_missing(rt: &HostRuntime, path: &str) {
    if let Err(error) = OpenOptions::new().read(true).write(true).open(rt, path) {
        let _ = write!(rt.stderr(), ": {error}");
    }
}

/// Writes the prefixes of an agent that begins.
fn print(rt: &HostRuntime, agent: &PrefixAgent) -> u8 {
    let mut out = String::new(rt.alloc());
    if push_image(rt.alloc(), &mut out, agent.pool()).is_err() {
        return starved(rt);
    }
    match print_text(out.as_str(), &mut StdSink::new(rt.stdout())) {
        Status::Ok => 0,
        _ => {
            let _ = writeln!(rt.stderr(), "grasp_node: standard output: write fault");
            WRITE_FAULT
        }
    }
}

/// Appends the line of what is held and what is in doubt.
fn push_image(alloc: Global, out: &mut String, pool: &Pool) -> Result<(), OutOfMemory> {
    out.push_str("held")?;
    for place in 0..4096 {
        if let Some(prefix) = pool.free(place) {
            push_prefix(alloc, out, prefix)?;
        }
    }
    push_word(out, "doubt")?;
    for place in 0..4096 {
        if let Some(prefix) = pool.doubtful(place) {
            push_prefix(alloc, out, prefix)?;
        }
    }
    out.push('\n')?;
    Ok(())
}
