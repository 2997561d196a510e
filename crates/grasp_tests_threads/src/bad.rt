//! A configuration for each key that can be bad, and the line of each fault.

use grasp_cbor::OutOfMemory;
use grasp_config::{ConfigFault, ConfigKey, read_config};
use grasp_node_main::{Status, fault_line};
use std::alloc::Global;
use std::test::Fail;

/// The keys that must be there.
const NEEDED: &str = "\
address = \"fd000000000000000000000000000001\"
listen = \"7f000001:7017\"
turns = 3
";

/// A key, a text whose first bad key it is, in two parts, and the line of that fault.
const KEYS: [(ConfigKey, &str, &str, &str); 12] = [
    (
        ConfigKey::Address,
        "",
        "address = \"fd\"\n",
        "bad config: address",
    ),
    (
        ConfigKey::Listen,
        "address = \"fd000000000000000000000000000001\"\n",
        "listen = \"7f000001\"\n",
        "bad config: listen",
    ),
    (
        ConfigKey::Turns,
        "address = \"fd000000000000000000000000000001\"\nlisten = \"7f000001:7017\"\n",
        "turns = 1000001\n",
        "bad config: turns",
    ),
    (ConfigKey::Wait, NEEDED, "wait = 1001\n", "bad config: wait"),
    (ConfigKey::Size, NEEDED, "size = 2047\n", "bad config: size"),
    (
        ConfigKey::Roots,
        NEEDED,
        "roots = [\"20010db8/48\"]\n",
        "bad config: roots",
    ),
    (
        ConfigKey::Link,
        NEEDED,
        "link = [{ neighbour = 1 }]\n",
        "bad config: link",
    ),
    (
        ConfigKey::Want,
        NEEDED,
        "want = [{ length = 56, longest = 55, peer = \"7f000001:7018\" }]\n",
        "bad config: want",
    ),
    (
        ConfigKey::Beacon,
        NEEDED,
        "beacon = [{ name = \"a\", value = \"x07\", ttl = 1000, loops = 256 }]\n",
        "bad config: beacon",
    ),
    (
        ConfigKey::Reader,
        NEEDED,
        "reader = [{ name = 1 }]\n",
        "bad config: reader",
    ),
    (
        ConfigKey::Unknown,
        NEEDED,
        "seed = 1\n",
        "bad config: unknown",
    ),
    (ConfigKey::Toml, NEEDED, "wait =\n", "bad config: toml"),
];

/// How the program ends but for a bad key, and the line of it.
const ENDS: [(Status, &str); 7] = [
    (Status::Ok, ""),
    (Status::Usage, "usage: grasp_node run FILE"),
    (Status::ReadFault, "read fault"),
    (Status::WriteFault, "write fault"),
    (Status::OutOfMemory, "out of memory"),
    (Status::TooLarge, "too large"),
    (Status::LinkFault, "link fault"),
];

/// The key that is bad in the text of these two parts, or `None` where it is a configuration.
fn bad_key(alloc: Global, front: &str, rest: &str) -> Result<Option<ConfigKey>, OutOfMemory> {
    let mut text = String::from_str(alloc, front)?;
    text.push_str(rest)?;
    match read_config(alloc, text.as_bytes()) {
        Ok(_) => Ok(None),
        Err(ConfigFault::BadConfig { key }) => Ok(Some(key)),
        Err(ConfigFault::OutOfMemory) => Err(OutOfMemory),
    }
}

#[test]
fn bad_keys(rt: HostRuntime) -> Result<(), Fail> {
    for (key, front, rest, line) in &KEYS {
        let found = bad_key(rt.alloc(), front, rest)?;
        assert!(rt; found == Some(*key));
        let written = fault_line(rt.alloc(), &Status::BadConfig { key: *key })?;
        assert!(rt; written.text() == *line);
    }
    Ok(())
}

#[test]
fn ends(rt: HostRuntime) -> Result<(), Fail> {
    for (status, line) in &ENDS {
        let written = fault_line(rt.alloc(), status)?;
        assert!(rt; written.text() == *line);
    }
    Ok(())
}
