//! Running a row.
use crate::row::Row;
use grasp_io::{MemSink, MemSource};
use grasp_replay_main::{finish, print_text, replay_main, text_for};
use std::alloc::{AllocError, Global};

/// How the streams of a run behave: how many bytes each read gives and each write takes at most, and which reads and which
/// writes fail, counted from 1.
#[derive(Clone, Copy)]
pub struct Streams<'a> {
    pub most: usize,
    pub failing_reads: &'a [u64],
    pub failing_writes: &'a [u64],
}

/// How a run of a row came out.
#[derive(Drop)]
pub struct Ended<'a> {
    pub number: u8,
    pub source: MemSource<'a>,
    pub sink: MemSink<'a>,
    errors: MemSink<'a>,
}

impl Ended<'_> {
    /// The line that was written to standard error, without its line feed.
    pub fn fault(&self) -> &[u8] {
        let bytes = self.errors.written();
        match bytes.strip_suffix(b"\n") {
            Some(line) => line,
            None => bytes,
        }
    }
}

/// What a run of a row must come to.
#[derive(Clone, Copy)]
pub struct Wanted<'a> {
    pub number: u8,
    pub fault: &'a [u8],
    pub output: &'a [u8],
}

impl<'a> Wanted<'a> {
    /// What the row says of its run.
    pub fn of(row: &'a Row) -> Wanted<'a> {
        Wanted {
            number: row.status,
            fault: row.fault.as_bytes(),
            output: &row.output,
        }
    }
}

/// What is other than the row wants, where anything is.
pub fn differs(alloc: Global, row: &Row) -> Result<Option<String>, AllocError> {
    match row.pieces {
        Some(most) => differs_by(alloc, row, most),
        None => match differs_by(alloc, row, usize::MAX)? {
            Some(difference) => Ok(Some(difference)),
            None => differs_by(alloc, row, 1),
        },
    }
}

/// The same, with at most so many bytes for a call of the source and of the sink.
fn differs_by(alloc: Global, row: &Row, most: usize) -> Result<Option<String>, AllocError> {
    let streams = Streams {
        most,
        failing_reads: &row.failing_reads,
        failing_writes: &row.failing_writes,
    };
    difference(alloc, &row.name, &run(alloc, row, streams), Wanted::of(row))
}

/// Runs the row over such streams.
pub fn run<'a>(alloc: Global, row: &'a Row, streams: Streams<'a>) -> Ended<'a> {
    let mut source = MemSource::new(&row.input)
        .in_pieces(streams.most.max(1))
        .failing_at(streams.failing_reads);
    let mut sink = MemSink::new(alloc)
        .in_pieces(streams.most)
        .failing_at(streams.failing_writes);
    let mut errors = MemSink::new(alloc);
    let status = match text_for(&row.words) {
        Some(text) => print_text(text.text(), &mut sink),
        None => replay_main(alloc, &row.words, &mut source, &mut sink),
    };
    let number = finish(alloc, &status, &mut errors);
    Ended {
        number,
        source,
        sink,
        errors,
    }
}

/// What is other than wanted in a run of this name, where anything is.
pub fn difference(
    alloc: Global,
    name: &str,
    ended: &Ended,
    wanted: Wanted,
) -> Result<Option<String>, AllocError> {
    let number = ended.number;
    let other = wanted.number;
    if number != other {
        return Ok(Some(format!(in alloc; "{name}: the status is {number}, wanted is {other}")?));
    }
    let fault = ended.fault();
    if fault != wanted.fault {
        return told(alloc, name, "fault line", fault, wanted.fault);
    }
    let output = ended.sink.written();
    if output != wanted.output {
        return told(alloc, name, "output", output, wanted.output);
    }
    Ok(None)
}

/// What is other than wanted, in hexadecimal digits.
fn told(
    alloc: Global,
    name: &str,
    part: &str,
    is: &[u8],
    wanted: &[u8],
) -> Result<Option<String>, AllocError> {
    let is = hex::encode(alloc, is)?;
    let wanted = hex::encode(alloc, wanted)?;
    Ok(Some(format!(in alloc; "{name}: the {part} is {is}, wanted is {wanted}")?))
}
