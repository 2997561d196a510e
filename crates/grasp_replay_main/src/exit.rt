//! How the program ends.
ghost use Rattle.std.specs.Prelude.{◌≡◌, IfOk};
ghost use Rattle.grasp_replay_main.specs.Ending.{number_of, fault_line_of, finding_line, cut_line, numbered};

use grasp_cbor::{Chars, OutOfMemory};
use grasp_text::push_number;
use grasp_wire::CutFault;
use std::alloc::Global;

/// What is wrong with an input. Places and lines are as the variants say; a place counts from 0, a line from 1.
#[derive(Clone, Copy, Debug, PartialEq, Eq)]
pub enum Finding {
    /// The stream has this fault. It is never want of memory.
    Cut(CutFault),
    /// The stream, of this length, ends inside an item.
    Truncated { at: u64 },
    /// This line is no message's: the place in it of the first word that doesn't fit.
    BadText { line: u64, at: u64 },
    /// The message of this line is longer than 2048 bytes.
    TooLong { line: u64 },
    /// This line is none of a record, or it tells a reading of its node's clock that is below an earlier one.
    BadRecord { line: u64 },
    /// What this line of a record says came from elsewhere wasn't sent there, or isn't what comes there next.
    NotSent { line: u64 },
    /// The node's own agent makes another call next than this line of a record says.
    NotAgent { line: u64 },
    /// The node, or its own agent, answers otherwise than this line of a record says.
    NotStep { line: u64 },
}

/// How a call of the program ended.
#[derive(Clone, Copy, Debug, PartialEq, Eq)]
pub enum Status {
    /// All was read and written.
    Ok,
    /// The input is wrong at one place. All that comes before it was written, but nothing of a record.
    Finding(Finding),
    /// The words are no call of the program.
    Usage,
    /// The input is no script: the number of the first line with which, after the lines before it, no script begins, or
    /// the number after the last line where a line of the header is missing. Nothing was written.
    BadScript { line: u64 },
    /// A read failed.
    ReadFault,
    /// A write failed.
    WriteFault,
    /// There was no memory for the call.
    OutOfMemory,
    /// The input has more than 16,777,216 bytes, or it is to be run as a script and has more than 200,000 lines: then nothing
    /// was written. Or a script that was run sends more than may be sent: then what it reports before that was written. Or a record
    /// does so: then nothing was written.
    TooLarge,
}

impl Status {
    /// The number that the program exits with.
    pub fn number(self) -> u8
        ensures { result ≡ number_of self }
    {
        match self {
            Status::Ok => 0,
            Status::Finding(_) => 1,
            Status::Usage => 2,
            Status::BadScript { .. } => 3,
            Status::ReadFault => 4,
            Status::WriteFault => 5,
            Status::OutOfMemory => 6,
            Status::TooLarge => 7,
        }
    }
}

/// The line for standard error, without a line end. It is empty for `Ok`.
pub fn fault_line(alloc: Global, status: &Status) -> Result<Chars, OutOfMemory>
    ensures { IfOk result (λ line. line ≡ fault_line_of status.now) }
{
    match status {
        Status::Ok => Ok(Chars::new(alloc)),
        Status::Finding(finding) => finding_line(alloc, finding),
        Status::Usage => Chars::of(
            alloc,
            "usage: grasp_replay show|pack|replay|gen N|draw N|resolve|keep|record|audit",
        ),
        Status::BadScript { line } => numbered(alloc, "bad script in line", *line),
        Status::ReadFault => Chars::of(alloc, "read fault"),
        Status::WriteFault => Chars::of(alloc, "write fault"),
        Status::OutOfMemory => Chars::of(alloc, "out of memory"),
        Status::TooLarge => Chars::of(alloc, "too large"),
    }
}

fn finding_line(alloc: Global, finding: &Finding) -> Result<Chars, OutOfMemory>
    ensures { IfOk result (λ line. line ≡ finding_line finding.now) }
{
    match *finding {
        Finding::Cut(fault) => cut_line(alloc, fault),
        Finding::Truncated { at } => numbered(alloc, "truncated at", at),
        Finding::BadText { line, at } => {
            let mut text = String::from_str(alloc, "bad text in line")?;
            push_number(&mut text, line)?;
            text.push_str(" at")?;
            push_number(&mut text, at)?;
            Chars::of(alloc, text.as_str())
        }
        Finding::TooLong { line } => numbered(alloc, "too long in line", line),
        Finding::BadRecord { line } => numbered(alloc, "not a record in line", line),
        Finding::NotSent { line } => numbered(alloc, "not sent in line", line),
        Finding::NotAgent { line } => numbered(alloc, "not the agent's call in line", line),
        Finding::NotStep { line } => numbered(alloc, "not the step in line", line),
    }
}

fn cut_line(alloc: Global, fault: CutFault) -> Result<Chars, OutOfMemory>
    ensures { IfOk result (λ line. line ≡ cut_line fault) }
{
    match fault {
        CutFault::Malformed { at } => numbered(alloc, "malformed at", at),
        CutFault::NotText { at } => numbered(alloc, "not text at", at),
        CutFault::TooDeep { at } => numbered(alloc, "too deep at", at),
        CutFault::TooLong { at } => numbered(alloc, "too long at", at),
        CutFault::NotMessage { at } => numbered(alloc, "not a message at", at),
        CutFault::OutOfMemory => Chars::of(alloc, "out of memory"),
    }
}

/// The text, and a number behind one blank.
fn numbered(alloc: Global, text: &str, number: u64) -> Result<Chars, OutOfMemory>
    ensures { IfOk result (λ line. line ≡ numbered text.now number) }
{
    let mut line = String::from_str(alloc, text)?;
    push_number(&mut line, number)?;
    Chars::of(alloc, line.as_str())
}
