//! Nodes to which nothing, a flood or a stream comes, one that announces, one that may not announce, one that wants, one whose
//! links can't be opened, and configurations that are none.

use crate::row::{Fault, Incoming, Row, differs};
use grasp_config::ConfigKey;
use grasp_node_main::Status;
use std::marker::Brand;
use std::sync::ledger::Blank;
use std::test::Fail;

/// A node without neighbours that holds one prefix.
const IDLE: &str = "\
address = \"fd000000000000000000000000000001\"
listen = \"7f000001:7017\"
turns = 3
roots = [\"20010db8000000000000000000000000/48\"]
";

const NO_TURNS: &str = "\
address = \"fd000000000000000000000000000001\"
listen = \"7f000001:7017\"
turns = 0
roots = [\"20010db8000000000000000000000000/48\"]
";

const BEACON_ALONE: &str = "\
address = \"fd000000000000000000000000000001\"
listen = \"7f000001:7017\"
turns = 1000
roots = [\"20010db8000000000000000000000000/48\"]
beacon = [{ name = \"a\", value = \"x07\", ttl = 1000, loops = 6 }]
";

/// Node 2, which has node 1 as its neighbour, with a reader.
const READER: &str = "\
address = \"fd000000000000000000000000000002\"
listen = \"7f000001:7017\"
turns = 3
link = [{ neighbour = [{ address = \"fd000000000000000000000000000001\", at = \"7f000001:7018\" }] }]
reader = [{ name = \"a\" }]
";

/// The same in five turns, with a beacon.
pub(crate) const READER_AND_BEACON: &str = "\
address = \"fd000000000000000000000000000002\"
listen = \"7f000001:7017\"
turns = 5
link = [{ neighbour = [{ address = \"fd000000000000000000000000000001\", at = \"7f000001:7018\" }] }]
beacon = [{ name = \"b\", value = \"x08\", ttl = 1000, loops = 6 }]
reader = [{ name = \"a\" }]
";

/// Node 2 with a beacon that would register the objective of the agent that manages prefixes.
const BEACON_COMES_SECOND: &str = "\
address = \"fd000000000000000000000000000002\"
listen = \"7f000001:7017\"
turns = 5
link = [{ neighbour = [{ address = \"fd000000000000000000000000000001\", at = \"7f000001:7018\" }] }]
beacon = [{ name = \"PrefixManager\", value = \"x08\", ttl = 1000, loops = 6 }]
";

/// A node that wants a prefix of a peer that never answers.
const WANTS: &str = "\
address = \"fd000000000000000000000000000002\"
listen = \"7f000001:7017\"
turns = 3
want = [{ length = 56, longest = 64, peer = \"7f000001:7018\" }]
";

/// A key that a configuration doesn't have.
const UNKNOWN_KEY: &str = "\
address = \"fd000000000000000000000000000001\"
listen = \"7f000001:7017\"
turns = 3
size_limit = 2048
";

/// Roots of which one lies in the other.
const ROOTS_OVERLAP: &str = "\
address = \"fd000000000000000000000000000001\"
listen = \"7f000001:7017\"
turns = 3
roots = [\"20010db8000000000000000000000000/48\", \"20010db8000000000000000000000000/56\"]
";

/// The value of the last key is missing.
const NOT_TOML: &str = "\
address = \"fd000000000000000000000000000001\"
listen = \"7f000001:7017\"
turns =
";

const HOLDS: &str = "prefixes held 20010db8000000000000000000000000/48 reserved doubt\n";

/// The reader's calls may all come before the flood.
pub(crate) const HEARD_OR_NOT: [&str; 2] = [
    "prefixes held reserved doubt\nread 'a = floods fd000000000000000000000000000001 obj 'a 5 1 x07 none\n",
    "prefixes held reserved doubt\nread 'a = floods\n",
];

/// The idle node.
pub(crate) const IDLE_NODE: Row<'static> = Row {
    name: "idle_node",
    config: IDLE,
    incoming: Incoming::Nothing,
    readings: &[],
    fault: None,
    place: [1],
    status: Status::Ok,
    texts: &[HOLDS],
    most: usize::MAX,
    asks: 3,
    datagrams: 0,
};

/// A reader's node, to which a flood comes.
pub(crate) const READER_HEARS: Row<'static> = Row {
    name: "reader_hears_flood",
    config: READER,
    incoming: Incoming::Flood,
    texts: &HEARD_OR_NOT,
    ..IDLE_NODE
};

const ROWS: [Row<'static>; 12] = [
    IDLE_NODE,
    READER_HEARS,
    Row {
        name: "no_turns",
        config: NO_TURNS,
        status: Status::BadConfig {
            key: ConfigKey::Turns,
        },
        texts: &[""],
        asks: 0,
        ..IDLE_NODE
    },
    Row {
        name: "unknown_key",
        config: UNKNOWN_KEY,
        status: Status::BadConfig {
            key: ConfigKey::Unknown,
        },
        texts: &[""],
        asks: 0,
        ..IDLE_NODE
    },
    Row {
        name: "roots_overlap",
        config: ROOTS_OVERLAP,
        status: Status::BadConfig {
            key: ConfigKey::Roots,
        },
        texts: &[""],
        asks: 0,
        ..IDLE_NODE
    },
    Row {
        name: "not_toml",
        config: NOT_TOML,
        status: Status::BadConfig {
            key: ConfigKey::Toml,
        },
        texts: &[""],
        asks: 0,
        ..IDLE_NODE
    },
    Row {
        name: "want_unanswered",
        config: WANTS,
        texts: &["prefixes held reserved doubt\nwant 56 64 = pending\n"],
        ..IDLE_NODE
    },
    Row {
        name: "beacon_alone",
        config: BEACON_ALONE,
        asks: 1000,
        ..IDLE_NODE
    },
    Row {
        name: "beacon_comes_second",
        config: BEACON_COMES_SECOND,
        texts: &["prefixes held reserved doubt\n"],
        asks: 5,
        ..IDLE_NODE
    },
    Row {
        name: "stream_that_ends",
        incoming: Incoming::Stream,
        ..IDLE_NODE
    },
    Row {
        name: "closed_links",
        fault: Some(Fault::Open),
        status: Status::LinkFault,
        texts: &[""],
        asks: 0,
        ..IDLE_NODE
    },
    Row {
        name: "reader_and_beacon",
        config: READER_AND_BEACON,
        asks: 5,
        datagrams: 1,
        ..READER_HEARS
    },
];

#[test]
fn rows(rt: HostRuntime) -> Result<(), Fail> {
    for row in &ROWS {
        let name = row.name;
        let difference = differs::<_, Brand>(&rt, rt.alloc(), Blank::new(1), row)?;
        assert_eq!(rt; difference, None, "{name}");
    }
    Ok(())
}
