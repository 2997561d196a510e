//! Sources and sinks in memory, whole, in pieces and with faults.

use grasp_io::{
    Failed, LinkPlan, Links, MemLinks, MemSink, MemSource, ReadError, Sink, Source, WriteBuffer,
    read_all, write_all,
};
use grasp_types::{List, Locator, Proto};
use std::test::Fail;

const LINE: &[u8] = b"wait 1 5000\n";

#[test]
fn a_source_is_read_whole(rt: HostRuntime) -> Result<(), Fail> {
    for (content, most, limit) in [
        (b"".as_slice(), 1, 0),
        (LINE, usize::MAX, 12),
        (LINE, 1, 12),
        (LINE, 5, u64::MAX),
    ] {
        let mut source = MemSource::new(content).in_pieces(most);
        let bytes = read_all(rt.alloc(), &mut source, limit)?;
        assert_eq!(rt; bytes.as_slice(), content, "in pieces of {most}");
    }
    Ok(())
}

#[test]
fn a_source_is_not_read_whole(rt: HostRuntime) {
    for (most, failing, limit, why) in [
        (usize::MAX, [1], 12, ReadError::Fault),
        (usize::MAX, [2], 12, ReadError::Fault),
        (1, [7], 12, ReadError::Fault),
        (1, [13], 11, ReadError::TooLarge),
        (usize::MAX, [9], 11, ReadError::TooLarge),
    ] {
        let mut source = MemSource::new(LINE).in_pieces(most).failing_at(&failing);
        let got = read_all(rt.alloc(), &mut source, limit);
        assert_eq!(rt;
            got.err(),
            Some(why),
            "failing at {failing:?}, limit {limit}"
        );
    }
}

#[test]
fn a_sink_takes_all_or_a_front(rt: HostRuntime) {
    for (most, failing, result, written) in [
        (usize::MAX, 2, Ok(()), LINE),
        (5, 4, Ok(()), LINE),
        (usize::MAX, 1, Err(Failed), b"".as_slice()),
        (4, 2, Err(Failed), b"wait".as_slice()),
        (0, 2, Err(Failed), b"".as_slice()),
    ] {
        let failing = [failing];
        let mut sink = MemSink::new(rt.alloc())
            .in_pieces(most)
            .failing_at(&failing);
        assert_eq!(rt; write_all(&mut sink, LINE), result, "in pieces of {most}");
        assert_eq!(rt; sink.written(), written, "in pieces of {most}");
    }
}

#[test]
fn a_buffer_writes_in_blocks(rt: HostRuntime) -> Result<(), Fail> {
    let mut sink = MemSink::new(rt.alloc());
    let mut buffer = WriteBuffer::new();
    buffer.put(&mut sink, b"wait ")?;
    buffer.put(&mut sink, b"1 5000\n")?;
    assert_eq!(rt; sink.written(), b"".as_slice());
    buffer.put(&mut sink, &[b'x'; 4090])?;
    assert_eq!(rt; sink.written(), LINE);
    buffer.put(&mut sink, &[b'y'; 4097])?;
    assert_eq!(rt; sink.written().len(), 12 + 4090 + 4097);
    buffer.put(&mut sink, b"z")?;
    buffer.flush(&mut sink)?;
    assert_eq!(rt; sink.written().len(), 12 + 4090 + 4097 + 1);
    assert_eq!(rt; sink.written().last(), Some(&b'z'));
    Ok(())
}

#[test]
fn calls_in_memory_are_counted(rt: HostRuntime) {
    let mut source = MemSource::new(LINE).in_pieces(5).failing_at(&[2]);
    let mut block = [0; 8];
    assert_eq!(rt; source.read(&mut block), Ok(5));
    assert_eq!(rt; source.read(&mut block), Err(Failed));
    assert_eq!(rt; source.left(), b"1 5000\n".as_slice());
    assert_eq!(rt; (source.calls(), source.faults()), (2, 1));
    let mut sink = MemSink::new(rt.alloc()).in_pieces(0);
    assert_eq!(rt; sink.write(LINE), Ok(0));
    assert_eq!(rt; (sink.calls(), sink.faults()), (1, 1));
    let plan = LinkPlan {
        listen: Locator::V4 {
            address: 0x7f00_0001,
            proto: Proto::Tcp,
            port: 7017,
        },
        links: List::new(rt.alloc()),
    };
    let mut links = MemLinks::new(rt.alloc(), &[]);
    assert_eq!(rt; links.open(&plan), Ok(()));
    assert_eq!(rt; links.plans().len(), 1);
}
