//! Running a row while one read or one write fails.
use crate::row::Row;
use crate::run::{Ended, Streams, Wanted, difference, run};
use std::alloc::{AllocError, Global};

/// A run of a row in which one read or one write was to fail.
#[derive(Drop)]
struct Trial {
    /// Whether that call came.
    came: bool,
    /// What is other than wanted, where anything is.
    difference: Option<String>,
}

/// What is other than wanted where one of the first reads or writes of the row fails, each in turn, as many as the row asks
/// for: with the whole streams at once, and with one byte a call.
pub fn differs_failing(alloc: Global, row: &Row) -> Result<Option<String>, AllocError> {
    for most in [usize::MAX, 1] {
        if let Some(difference) = differs_at_reads(alloc, row, most)? {
            return Ok(Some(difference));
        }
        if let Some(difference) = differs_at_writes(alloc, row, most)? {
            return Ok(Some(difference));
        }
    }
    Ok(None)
}

/// The same for each read, until one is too late to come.
fn differs_at_reads(alloc: Global, row: &Row, most: usize) -> Result<Option<String>, AllocError> {
    for number in 1..=row.faults {
        let trial = try_read(alloc, row, most, number)?;
        if trial.difference.is_some() || !trial.came {
            return Ok(trial.difference);
        }
    }
    Ok(None)
}

/// The same for each write.
fn differs_at_writes(alloc: Global, row: &Row, most: usize) -> Result<Option<String>, AllocError> {
    for number in 1..=row.faults {
        let trial = try_write(alloc, row, most, number)?;
        if trial.difference.is_some() || !trial.came {
            return Ok(trial.difference);
        }
    }
    Ok(None)
}

/// The run in which the read of this number fails. Where it comes, that is a read fault and nothing is written; else the row
/// comes to what it comes to.
fn try_read(alloc: Global, row: &Row, most: usize, number: u64) -> Result<Trial, AllocError> {
    let name = format!(in alloc; "{}, read {number} of at most {most} bytes", row.name)?;
    let failing = [number];
    let streams = Streams {
        most,
        failing_reads: &failing,
        failing_writes: &[],
    };
    let ended = run(alloc, row, streams);
    let came = ended.source.calls() >= number;
    let wanted = if came {
        Wanted {
            number: 4,
            fault: b"read fault",
            output: b"",
        }
    } else {
        Wanted::of(row)
    };
    let difference = if most == 1 && came != (number <= reads_of(row)) {
        Some(format!(in alloc; "{name}: it is {came} that it came")?)
    } else {
        difference(alloc, &name, &ended, wanted)?
    };
    Ok(Trial { came, difference })
}

/// How often a run of the row reads, one byte a call: once for each byte, and once for the end.
fn reads_of(row: &Row) -> u64 {
    if row.reads_input() {
        (row.input.len() as u64).saturating_add(1)
    } else {
        0
    }
}

/// The run in which the write of this number fails. Where it comes, that is a write fault and a beginning of the row's output
/// is written; else the row comes to what it comes to. With one byte a call there is a write for each byte of the output.
fn try_write(alloc: Global, row: &Row, most: usize, number: u64) -> Result<Trial, AllocError> {
    let name = format!(in alloc; "{}, write {number} of at most {most} bytes", row.name)?;
    let failing = [number];
    let streams = Streams {
        most,
        failing_reads: &[],
        failing_writes: &failing,
    };
    let ended = run(alloc, row, streams);
    let came = ended.sink.calls() >= number;
    let wanted = if came {
        Wanted {
            number: 5,
            fault: b"write fault",
            output: begun(row, &ended, most, number),
        }
    } else {
        Wanted::of(row)
    };
    let difference = if most == 1 && came != (number <= row.output.len() as u64) {
        Some(format!(in alloc; "{name}: it is {came} that it came")?)
    } else {
        difference(alloc, &name, &ended, wanted)?
    };
    Ok(Trial { came, difference })
}

/// The beginning of the row's output that is to be written before the write of this number: as many bytes as there are writes
/// before it, where each takes one, and else as many as were written, none before the first write.
fn begun<'a>(row: &'a Row, ended: &Ended, most: usize, number: u64) -> &'a [u8] {
    let before = number.saturating_sub(1);
    let count = if most == 1 || before == 0 {
        before
    } else {
        ended.sink.written().len() as u64
    };
    let count = count.min(row.output.len() as u64);
    &row.output[..count as usize]
}
