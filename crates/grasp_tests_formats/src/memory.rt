//! Links in memory, and what reads the machine's clock, files and random source.

use grasp_io::{
    Arrival, Asked, Clock, FileSource, LinkPlan, Links, MemLinks, ReadError, Sent, Source,
    StdClock, random_seed, read_all,
};
use grasp_types::{Address, Input, List, Locator, Output, Proto};
use std::alloc::Global;

fn plan(alloc: Global) -> LinkPlan {
    LinkPlan {
        listen: Locator::V4 {
            address: 0x7f00_0001,
            proto: Proto::Tcp,
            port: 7017,
        },
        links: List::new(alloc),
    }
}

fn opening(stream: u64) -> Input {
    Input::Opened {
        stream,
        from: Address::V4(0x7f00_0001),
    }
}

/// Links as the code above them sees them: an ask, and the stream that its answer names.
fn ask<L: Links>(links: &mut L, wait_ms: u32) -> Option<u64> {
    match links.ask(wait_ms) {
        Asked::Got(Input::Opened { stream, .. } | Input::Closed { stream }) => Some(stream),
        _ => None,
    }
}

#[test]
fn links_in_memory(rt: HostRuntime) {
    let arrivals = [
        Arrival {
            ask: 1,
            input: opening(1),
        },
        Arrival {
            ask: 2,
            input: Input::Closed { stream: 1 },
        },
    ];
    let mut links = MemLinks::new(rt.alloc(), &arrivals)
        .quiet_at(&[2])
        .failing_at(&[1]);
    assert_eq!(rt; links.open(&plan(rt.alloc())), Ok(()));
    for (wait, stream) in [(10, Some(1)), (20, None), (30, Some(1)), (40, None)] {
        assert_eq!(rt; ask(&mut links, wait), stream, "wait {wait}");
    }
    assert_eq!(rt; links.send(&Output::Close { stream: 0 }), Sent::Failed);
    assert_eq!(rt; links.send(&Output::Close { stream: 2 }), Sent::Sent);
    assert_eq!(rt; links.waits(), [10, 20, 30, 40].as_slice());
    assert!(rt; matches!(links.handed(), [Output::Close { stream: 2 }]));
}

#[test]
fn clock_files_and_seeds(rt: HostRuntime) {
    let mut clock = StdClock::new(rt);
    let first = clock.now();
    assert!(rt; first <= clock.now());
    let mut file = FileSource::open(&rt, "/dev/zero");
    let mut block = [1; 4];
    assert_eq!(rt; file.read(&mut block), Ok(4));
    assert_eq!(rt; block, [0; 4]);
    let mut file = FileSource::open(&rt, "/dev/null/none");
    assert_eq!(rt;
        read_all(rt.alloc(), &mut file, 1).err(),
        Some(ReadError::Fault)
    );
    assert!(rt; random_seed(&rt).is_some());
}
