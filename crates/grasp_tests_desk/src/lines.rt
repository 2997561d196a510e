//! Each kind of request, answer and event once.

use grasp_agent::WantEnd;
use grasp_cbor::{Chars, OutOfMemory};
use grasp_control::{
    NodeEvent, Order, PlainAnswer, Request, RequestFault, Standing, goes_on, push_echo, push_event,
    push_order, push_plain, push_read, push_read_event, push_request, push_version,
    push_want_event, read_request,
};
use grasp_types::{
    ApiAnswer, ApiRefused, By, FloodReads, Locator, Outcome, Prefix, Progress, Proto, Reply,
};
use std::alloc::Global;
use std::test::Fail;

/// Each line once.
const LINES: [&str; 40] = [
    "asa 'a",
    "unasa",
    "objective 'ab 3",
    "unobjective 'ab",
    "discover 'ab neg 6 1000",
    "request 'ab x811838 6 60000 wet v4 7f000001 tcp 7017",
    "request 'ab x01 6 60000 dry uri 'x%20y - -",
    "listen 'ab",
    "unlisten 'ab",
    "step 3 x811838",
    "wait 3 1000",
    "accept 3",
    "decline 3",
    "decline 3 'no",
    "invalid 3 -",
    "invalid 3 x01",
    "poll 18446744073709551615",
    "synchronize 'ab 6 1000 v6 fd000000000000000000000000000001 tcp 7017",
    "synchronize 'ab 6 1000 fqdn 'a.b udp 0",
    "offer 'ab x01",
    "unoffer 'ab",
    "flood 'ab x01 1000 255",
    "floods 'ab",
    "expire 'ab fd000000000000000000000000000002",
    "expire 'ab 7f000001",
    "await 100 discover 'ab syn 6 1000",
    "await 0 listen 'ab",
    "await 4294967295 poll 3",
    "state",
    "wants",
    "reads",
    "events",
    "counters",
    "version",
    "want 48 64 v4 7f000001 tcp 7017",
    "unwant 1",
    "log quiet",
    "log events",
    "log traffic",
    "stop",
];

/// The request that a line is, or `None`.
fn request_of(alloc: Global, line: &str) -> Option<Request> {
    match read_request(alloc, line.as_bytes()) {
        Ok(request) => Some(request),
        Err(_) => None,
    }
}

/// The words of a request, each behind a blank.
fn words_of(alloc: Global, request: &Request) -> Result<String, OutOfMemory> {
    let mut out = String::new(alloc);
    push_request(alloc, &mut out, request)?;
    Ok(out)
}

/// The words of the request that a line is, each behind a blank, or nothing where it is none.
fn written(alloc: Global, line: &str) -> Result<String, OutOfMemory> {
    match request_of(alloc, line) {
        Some(request) => words_of(alloc, &request),
        None => Ok(String::new(alloc)),
    }
}

#[test]
fn lines_are_read_back(rt: HostRuntime) -> Result<(), Fail> {
    let alloc = rt.alloc();
    for line in LINES {
        let mut expected = String::from_str(alloc, " ")?;
        expected.push_str(line)?;
        assert_eq!(rt; written(alloc, line)?.as_str(), expected.as_str());
    }
    Ok(())
}

/// A line, and the place where it goes wrong.
const BAD: [(&str, u64); 15] = [
    ("", 0),
    ("statE", 0),
    ("state ", 6),
    ("state  now", 6),
    ("await listen 'ab", 6),
    ("await 4294967296 poll 1", 6),
    ("await 100 unasa", 10),
    ("want 64 48 v4 7f000001 tcp 7017", 8),
    ("want 0 48 v4 7f000001 tcp 7017", 5),
    ("want 48 129 v4 7f000001 tcp 7017", 8),
    ("request 'ab x01 6 1000 wet 2", 27),
    ("expire 'ab 2", 11),
    ("log loud", 4),
    ("poll", 4),
    ("flood 'ab x01 1 256", 16),
];

/// The place where a line goes wrong, or none where it is a request.
fn place(alloc: Global, line: &str) -> Option<u64> {
    match read_request(alloc, line.as_bytes()) {
        Err(RequestFault::BadLine { at }) => Some(at),
        _ => None,
    }
}

#[test]
fn bad_lines_go_wrong_at_their_place(rt: HostRuntime) -> Result<(), Fail> {
    for (line, at) in BAD {
        assert_eq!(rt; place(rt.alloc(), line), Some(at), "{line}");
    }
    Ok(())
}

/// Whether the text is this one, and then is empty.
fn told(out: &mut String, expected: &str) -> bool {
    let same = out.as_str() == expected;
    out.clear();
    same
}

#[test]
fn answers_are_written(rt: HostRuntime) -> Result<(), Fail> {
    let mut out = String::new(rt.alloc());
    push_echo(&mut out, b"stop")?;
    push_plain(&mut out, PlainAnswer::Done)?;
    assert!(rt; told(&mut out, "stop done"));
    push_echo(&mut out, b"st\x7fop")?;
    push_plain(&mut out, PlainAnswer::BadLine { at: 7 })?;
    assert!(rt; told(&mut out, "? error line 7"));
    for (answer, words) in [
        (PlainAnswer::Nothing, " nothing"),
        (PlainAnswer::Taken { number: 3 }, " ok 3"),
        (PlainAnswer::Full, " full"),
        (PlainAnswer::Seated, " error seated"),
        (PlainAnswer::Denied, " error denied"),
    ] {
        push_plain(&mut out, answer)?;
        assert!(rt; told(&mut out, words));
    }
    push_version(&mut out)?;
    assert!(rt; told(&mut out, " grasp_node 0.2.0 control 1"));
    let name = Chars::of(rt.alloc(), "ab")?;
    push_read(rt.alloc(), &mut out, &name, &FloodReads::new(rt.alloc()))?;
    assert!(rt; told(&mut out, " read 'ab 0"));
    assert!(rt; goes_on(&Reply::Api(ApiAnswer::Searching)));
    assert!(rt; !goes_on(&Reply::Api(ApiAnswer::Nothing)));
    Ok(())
}

#[test]
fn wants_are_written(rt: HostRuntime) -> Result<(), Fail> {
    let alloc = rt.alloc();
    let mut out = String::new(alloc);
    for (standing, words) in [
        (
            Standing::Asking,
            " want 1 48 64 v4 7f000001 tcp 7017 2 asking",
        ),
        (
            Standing::Waiting { millis: 9 },
            " want 1 48 64 v4 7f000001 tcp 7017 2 waiting 9",
        ),
        (
            Standing::Ended(WantEnd::Refused(ApiRefused::BadLocator)),
            " want 1 48 64 v4 7f000001 tcp 7017 2 refused 11",
        ),
    ] {
        let order = Order {
            number: 1,
            length: 48,
            longest: 64,
            peer: Locator::V4 {
                address: 0x7f00_0001,
                proto: Proto::Tcp,
                port: 7017,
            },
            tries: 2,
            standing,
        };
        push_order(alloc, &mut out, &order)?;
        assert!(rt; told(&mut out, words));
    }
    Ok(())
}

#[test]
fn events_are_written(rt: HostRuntime) -> Result<(), Fail> {
    let alloc = rt.alloc();
    let mut out = String::new(alloc);
    let Some(prefix) = Prefix::of(0, 3) else {
        return Ok(());
    };
    for (event, words) in [
        (
            NodeEvent::Back(prefix),
            "event 5 back 00000000000000000000000000000000/3",
        ),
        (NodeEvent::Came { visitor: 2 }, "event 5 visitor 2 came"),
        (
            NodeEvent::Registered { visitor: 2, asa: 7 },
            "event 5 visitor 2 asa 7",
        ),
        (NodeEvent::Left { visitor: 2 }, "event 5 visitor 2 left"),
        (NodeEvent::Stopping, "event 5 stopping"),
    ] {
        push_event(alloc, &mut out, 5, event)?;
        assert!(rt; told(&mut out, words));
    }
    let reply = Reply::Api(ApiAnswer::Polled(Progress::Ended(Outcome::Declined {
        by: By::Theirs,
        reason: Some(Chars::of(alloc, "no-prefix")?),
    })));
    push_want_event(alloc, &mut out, 5, 1, 48, 64, WantEnd::Declined, &reply)?;
    assert!(rt; told(&mut out, "event 5 want 1 48 64 declined theirs 'no-prefix"));
    let name = Chars::of(alloc, "ab")?;
    push_read_event(alloc, &mut out, 5, &name, &FloodReads::new(alloc))?;
    assert!(rt; told(&mut out, "event 5 read 'ab = floods"));
    Ok(())
}
