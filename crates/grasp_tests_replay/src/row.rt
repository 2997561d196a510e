//! One row of the table.
use std::alloc::{AllocError, Global};

/// A call, and what it must come to.
#[derive(Drop)]
pub struct Row {
    pub name: String,
    pub words: Vec<String>,
    pub input: Vec<u8>,
    pub output: Vec<u8>,
    pub status: u8,
    pub fault: String,
    /// How many bytes each read gives and each write takes, where only that is tried.
    pub pieces: Option<usize>,
    /// The numbers of the reads and of the writes that fail, counted from 1.
    pub failing_reads: Vec<u64>,
    pub failing_writes: Vec<u64>,
    /// How many of the first reads and of the first writes are to fail, each in a run of its own.
    pub faults: u64,
}

impl Row {
    /// A row with this name and these words, which comes to nothing.
    pub fn of(alloc: Global, header: &str) -> Result<Row, AllocError> {
        let (name, words) = match header.split_once(' ') {
            Some((name, words)) => (name, words),
            None => (header, ""),
        };
        let mut row = Row {
            name: String::from_str(alloc, name)?,
            words: Vec::new(alloc),
            input: Vec::new(alloc),
            output: Vec::new(alloc),
            status: 0,
            fault: String::new(alloc),
            pieces: None,
            failing_reads: Vec::new(alloc),
            failing_writes: Vec::new(alloc),
            faults: 0,
        };
        if !words.is_empty() {
            for word in words.split(' ') {
                row.words.push(String::from_str(alloc, word)?)?;
            }
        }
        Ok(row)
    }

    /// Whether a run of it reads its input: `show`, `pack`, `audit` and the words that run a script do, and nothing else.
    pub fn reads_input(&self) -> bool {
        match self.words.as_slice() {
            [word] => matches!(
                word.as_str(),
                "show" | "pack" | "replay" | "keep" | "resolve" | "record" | "audit"
            ),
            _ => false,
        }
    }

    /// A line of a script, and its report.
    pub fn add_report(&mut self, report: &str) -> Result<(), AllocError> {
        let line = match report.split_once(" = ") {
            Some((line, _)) => line,
            None => report,
        };
        add_line(&mut self.input, script_line(line))?;
        add_line(&mut self.output, report)
    }
}

/// The line of a script that has a report with this line: of an agent's it is what stands before the call.
fn script_line(line: &str) -> &str {
    let agents = match line.strip_prefix("hold ") {
        Some(rest) => rest,
        None => line,
    };
    let Some(behind) = agents.strip_prefix("agent ") else {
        return line;
    };
    match behind.split_once(' ') {
        Some((_, call)) => match line.strip_suffix(call) {
            Some(front) => front.trim_ascii_end(),
            None => line,
        },
        None => line,
    }
}

/// Appends a text and a line feed.
pub fn add_line(bytes: &mut Vec<u8>, text: &str) -> Result<(), AllocError> {
    bytes.extend_from_slice(text.as_bytes())?;
    bytes.push(b'\n')?;
    Ok(())
}
