//! Reading a table.
use crate::fault::TableFault;
use crate::row::{Row, add_line};
use std::alloc::Global;

/// The rows of a table.
pub fn rows_of(alloc: Global, text: &str) -> Result<Vec<Row>, TableFault> {
    let mut rows = Vec::new(alloc);
    let mut line: u64 = 0;
    for words in text.lines() {
        line = line.saturating_add(1);
        if !take_line(alloc, &mut rows, words)? {
            return Err(TableFault::BadLine { line });
        }
    }
    Ok(rows)
}

/// Takes a line of the table. It is false where the line is none.
fn take_line(alloc: Global, rows: &mut Vec<Row>, line: &str) -> Result<bool, TableFault> {
    if line.is_empty() || line.starts_with('#') {
        return Ok(true);
    }
    if let Some(header) = line.strip_prefix("row ") {
        rows.push(Row::of(alloc, header)?)?;
        return Ok(true);
    }
    match rows.last_mut() {
        Some(row) => add(alloc, row, line),
        None => Ok(false),
    }
}

/// Adds a line to the row. It is false where the line is none of a row.
fn add(alloc: Global, row: &mut Row, line: &str) -> Result<bool, TableFault> {
    let (word, rest) = match line.split_once(' ') {
        Some((word, rest)) => (word, rest),
        None => (line, ""),
    };
    match word {
        "<" => add_line(&mut row.input, rest)?,
        ">" => add_line(&mut row.output, rest)?,
        "<-" => row.input.extend_from_slice(rest.as_bytes())?,
        ">-" => row.output.extend_from_slice(rest.as_bytes())?,
        "<x" => return add_bytes(alloc, &mut row.input, 1, rest),
        ">x" => return add_bytes(alloc, &mut row.output, 1, rest),
        "<*" => return add_often(alloc, &mut row.input, rest),
        ">*" => return add_often(alloc, &mut row.output, rest),
        "=" => row.add_report(rest)?,
        "fault" => row.fault.push_str(rest)?,
        _ => return add_number(row, word, rest),
    }
    Ok(true)
}

/// Adds a number to the row.
fn add_number(row: &mut Row, word: &str, rest: &str) -> Result<bool, TableFault> {
    let Ok(number) = rest.parse::<u64>() else {
        return Ok(false);
    };
    match word {
        "status" => row.status = number.min(255) as u8,
        "pieces" => row.pieces = Some(number as usize),
        "read-fails" => row.failing_reads.push(number)?,
        "write-fails" => row.failing_writes.push(number)?,
        "faults" => row.faults = number,
        _ => return Ok(false),
    }
    Ok(true)
}

/// Appends bytes so often: a count, a blank and their digits.
fn add_often(alloc: Global, bytes: &mut Vec<u8>, rest: &str) -> Result<bool, TableFault> {
    let Some((count, digits)) = rest.split_once(' ') else {
        return Ok(false);
    };
    match count.parse::<u64>() {
        Ok(count) => add_bytes(alloc, bytes, count, digits),
        Err(_) => Ok(false),
    }
}

/// Appends the bytes of these digits so often.
fn add_bytes(
    alloc: Global,
    bytes: &mut Vec<u8>,
    count: u64,
    digits: &str,
) -> Result<bool, TableFault> {
    match hex::decode(alloc, digits) {
        Ok(piece) => {
            for _ in 0..count {
                bytes.extend_from_slice(&piece)?;
            }
            Ok(true)
        }
        Err(hex::FromHexError::OutOfMemory) => Err(TableFault::OutOfMemory),
        Err(_) => Ok(false),
    }
}
