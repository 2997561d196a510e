//! Where a configuration is bad, and why.
use crate::OUT_OF_MEMORY;
use grasp_cbor::OutOfMemory;
use grasp_config::{BadPlace, bad_places, bad_serve_places};
use grasp_types::List;
use std::io::Write;

/// The status of a configuration that is bad.
const BAD: u8 = 3;

/// Tells all that is wrong with the configuration of a node that serves, and returns the status to end with: 0 where it is good.
pub(crate) fn tell_serve(rt: &HostRuntime, file: &str, text: &[u8]) -> u8 {
    tell(rt, file, bad_serve_places(rt.alloc(), text))
}

/// Tells all that is wrong with a configuration: of a node that serves where it has a table `serve`, and else of one that makes
/// its turns.
pub(crate) fn tell_any(rt: &HostRuntime, file: &str, text: &[u8]) -> u8 {
    let serves = match toml::table_from_slice(rt.alloc(), text) {
        Ok(table) => table.contains_key("serve"),
        Err(_) => true,
    };
    if serves {
        tell_serve(rt, file, text)
    } else {
        tell(rt, file, bad_places(rt.alloc(), text))
    }
}

fn tell(rt: &HostRuntime, file: &str, places: Result<List<BadPlace>, OutOfMemory>) -> u8 {
    let Ok(places) = places else {
        let _ = writeln!(rt.stderr(), "grasp_node: out of memory");
        return OUT_OF_MEMORY;
    };
    for place in places.slice() {
        tell_place(rt, file, place);
    }
    if places.slice().is_empty() { 0 } else { BAD }
}

/// Tells a place: the file, the line and the column where they are known, the path to the value, and what is wrong with it.
fn tell_place(rt: &HostRuntime, file: &str, place: &BadPlace) {
    let mut errors = rt.stderr();
    let _ = write!(errors, "grasp_node: {file}:");
    if let Some(line) = place.line {
        let _ = write!(errors, "{line}:");
    }
    if let Some(column) = place.column {
        let _ = write!(errors, "{column}:");
    }
    if !place.path.text().is_empty() {
        let _ = write!(errors, " {}:", place.path.text());
    }
    let _ = writeln!(errors, " {}", place.reason.text());
}
