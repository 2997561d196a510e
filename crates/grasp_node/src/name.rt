//! The name of a node in its trace.
use grasp_config::read_config;
use grasp_io::{FileSource, read_all};
use grasp_text::push_address;

/// A configuration has at most so many bytes.
const LIMIT: u64 = 65_536;

/// The digits of the address of the node that the file configures, or nothing where it configures none.
pub fn of_file(rt: &HostRuntime, file: &str) -> String {
    let mut name = String::new(rt.alloc());
    let mut source = FileSource::open(rt, file);
    let Ok(text) = read_all(rt.alloc(), &mut source, LIMIT) else {
        return name;
    };
    if let Ok(config) = read_config(rt.alloc(), &text) {
        let _ = push_address(rt.alloc(), &mut name, config.address);
    }
    name
}
