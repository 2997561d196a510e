//! A node that serves.
use crate::{OUT_OF_MEMORY, READ_FAULT, file, place, store};
use grasp_cbor::OutOfMemory;
use grasp_config::{LogLevel, ServeConfig, ServeFault, ServeTable, read_serve};
use grasp_desk::MioDesk;
use grasp_file_disk::{FileFault, StoreFault, StoreFile};
use grasp_io::{
    AddressRange, Guard, Journal, LogSwitch, MemSource, MioLinks, StdClock, random_seed,
};
use grasp_serve_main::{Status, node_serve};
use grasp_shelf::{Shelf, ShelfFault};
use grasp_trace::Traced;
use grasp_types::List;
use std::io::Write;
use std::sync::Wait;

/// The status where the control socket can't be opened.
const DESK_FAULT: u8 = 10;

/// Serves as the file says, until the node is told to stop, and returns the status to end with.
pub(crate) fn serve<R: Wait>(rt: &HostRuntime, waiting: &R, words: &[String], file: &str) -> u8 {
    let text = match file::read(rt, file) {
        Ok(text) => text,
        Err(status) => return status,
    };
    let config = match read_serve(rt.alloc(), &text) {
        Ok(config) => config,
        Err(ServeFault::BadServe { .. }) => return place::tell_serve(rt, file, &text),
        Err(ServeFault::OutOfMemory) => return starved(rt),
    };
    let Some(seed) = random_seed(rt) else {
        let _ = writeln!(rt.stderr(), "grasp_node: the machine gives no random bytes");
        return READ_FAULT;
    };
    let Ok(guard) = guard_of(rt, &config.serve) else {
        return starved(rt);
    };
    serve_guarded(rt, waiting, words, &text, &config, seed, guard)
}

fn starved(rt: &HostRuntime) -> u8 {
    let _ = writeln!(rt.stderr(), "grasp_node: out of memory");
    OUT_OF_MEMORY
}

/// Who may open streams.
fn guard_of(rt: &HostRuntime, table: &ServeTable) -> Result<Guard, OutOfMemory> {
    let mut allow = List::new(rt.alloc());
    for range in table.allow.slice() {
        allow.push(AddressRange {
            address: range.address,
            length: range.length,
        })?;
    }
    Ok(Guard {
        allow,
        streams: table.streams,
        silence: table.silence,
    })
}

/// Serves over guarded sockets, whose traffic is logged where that is wanted.
fn serve_guarded<R: Wait>(
    rt: &HostRuntime,
    waiting: &R,
    words: &[String],
    text: &[u8],
    config: &ServeConfig,
    seed: [u8; 32],
    guard: Guard,
) -> u8 {
    let alloc = rt.alloc();
    let mut desk = match MioDesk::new(rt, alloc) {
        Ok(desk) => desk,
        Err(error) => {
            let _ = writeln!(rt.stderr(), "grasp_node: control socket: {error}");
            return DESK_FAULT;
        }
    };
    let mut links = MioLinks::guarded(rt, alloc, guard);
    links.watch(desk.fd());
    let name = match &config.serve.name {
        Some(name) => name.text(),
        None => "",
    };
    let switch = LogSwitch::new(level_of(config.serve.log));
    let trace = Journal::new(rt.stderr(), rt, name, &switch, grasp_io::LogLevel::Traffic);
    let mut log = Journal::new(rt.stderr(), rt, name, &switch, grasp_io::LogLevel::Events);
    let mut traced = Traced::new(alloc, links, trace);
    let mut source = MemSource::new(text);
    let mut clock = StdClock::new(rt);
    let mut shelf = Shelf::new(StoreFile::new(rt));
    let status = node_serve(
        waiting,
        alloc,
        words,
        &mut source,
        &mut log,
        &switch,
        &mut traced,
        &mut desk,
        &mut clock,
        &mut shelf,
        seed,
    );
    // The control socket closes last: whoever waits for that finds the streams ended.
    let mut links = traced.into_links();
    links.settle();
    tell_end(rt, status, &links, &desk);
    tell_store(rt, status, config, shelf);
    desk.settle();
    status.number()
}

/// How much is logged at first.
fn level_of(level: LogLevel) -> grasp_io::LogLevel {
    match level {
        LogLevel::Quiet => grasp_io::LogLevel::Quiet,
        LogLevel::Events => grasp_io::LogLevel::Events,
        LogLevel::Traffic => grasp_io::LogLevel::Traffic,
    }
}

/// Says why the node ended, where it wasn't told to.
fn tell_end(
    rt: &HostRuntime,
    status: Status,
    links: &MioLinks<&HostRuntime>,
    desk: &MioDesk<&HostRuntime>,
) {
    if let Some(why) = links.why() {
        let _ = writeln!(rt.stderr(), "grasp_node: {why}");
    } else if let Some(why) = desk.why() {
        let _ = writeln!(rt.stderr(), "grasp_node: {why}");
    } else {
        let why = match status {
            Status::OutOfMemory => "out of memory",
            _ => return,
        };
        let _ = writeln!(rt.stderr(), "grasp_node: {why}");
    }
}

/// Says what is wrong with its store, where that ended the node.
fn tell_store(
    rt: &HostRuntime,
    status: Status,
    config: &ServeConfig,
    shelf: Shelf<StoreFile<&HostRuntime>>,
) {
    let Some(path) = &config.serve.store else {
        return;
    };
    let path = path.text();
    if let Status::StoreFault { fault } = status {
        let _ = writeln!(
            rt.stderr(),
            "grasp_node: store {path}: store fault: {fault}"
        );
    } else if status == Status::NoStore {
        tell_unopened(rt, path, shelf);
    }
}

/// Says why its store wasn't opened.
fn tell_unopened(rt: &HostRuntime, path: &str, shelf: Shelf<StoreFile<&HostRuntime>>) {
    let why = shelf.why();
    let fault = match shelf.into_store() {
        Some(store) => store.why(),
        None => None,
    };
    let mut errors = rt.stderr();
    let _ = write!(errors, "grasp_node: store {path}: ");
    let _ = match (why, fault) {
        (Some(ShelfFault::BadImage { slot }), _) => writeln!(errors, "bad store in slot {slot}"),
        (Some(ShelfFault::Empty), _) => writeln!(errors, "{}", StoreFault::Empty),
        (Some(ShelfFault::Unopened), Some(FileFault::NoStore)) => {
            let _ = write!(errors, "{}", FileFault::NoStore);
            store::tell_missing(rt, path);
            writeln!(errors)
        }
        (Some(ShelfFault::Unopened), Some(fault)) => writeln!(errors, "{fault}"),
        _ => writeln!(errors, "{}", FileFault::Failed),
    };
}
