//! Reading the lines of a script of a network whose nodes crash.

ghost use Rattle.std.specs.Prelude.{◌≡◌, IfOk, IfSome, IfNone};
ghost use Rattle.std.specs.Str.{IsUtf8};
ghost use Rattle.grasp_text.specs.Reading.{Reads, word_at};
ghost use Rattle.grasp_script_kept.specs.Lines.{IsKeptLine, IsNoKeptLine, kept_text};
ghost use Rattle.grasp_script_kept.specs.Reading.{IsCrashOf, crash_at, crash_words_of, left_of};

use crate::line::KeptLine;
use grasp_cbor::{Chars, OutOfMemory};
use grasp_disk::Left;
use grasp_script::{read_line, read_node};
use grasp_text::{WordFault, Words};
use std::alloc::Global;

/// What a line is, in a script of so many nodes, or `None` where no line behind the header reads so.
pub fn read_kept_line(
    alloc: Global,
    line: &[u8],
    nodes: u8,
) -> Result<Option<KeptLine>, OutOfMemory>
    ensures text { IfOk result (λ o. IfSome o (λ x. kept_text x ≡ line.now)) }
    ensures found { IfOk result (λ o. IfSome o (λ x. IsKeptLine nodes x)) }
    ensures none { IfOk result (λ o. IfNone o (IsNoKeptLine nodes line.now)) }
{
    let mut words = Words::of(line);
    match read_crash(&mut words, nodes) {
        Ok(crash) => with_text(alloc, line, crash),
        Err(WordFault::Unfit { .. }) => match read_line(alloc, line, nodes)? {
            Some(line) => Ok(Some(KeptLine::Plain(line))),
            None => Ok(None),
        },
        Err(WordFault::OutOfMemory) => Err(OutOfMemory),
    }
}

/// A node that crashes, after how many calls of its disk, and what is left.
#[derive(Clone, Copy, Debug)]
struct Crash {
    node: u8,
    calls: u64,
    left: Left,
}

/// The line of a crash, or `None` where it is no text.
fn with_text(alloc: Global, line: &[u8], crash: Crash) -> Result<Option<KeptLine>, OutOfMemory>
    ensures text { IfOk result (λ o. IfSome o (λ x. kept_text x ≡ line.now)) }
    ensures crash { IfOk result (λ o. IfSome o (λ x. IsCrashOf crash x)) }
    ensures utf8 { IfOk result (λ o. IfSome o (λ x. IsUtf8 line.now)) }
    ensures none { IfOk result (λ o. IfNone o (¬ IsUtf8 line.now)) }
{
    match Chars::of_bytes(alloc, line)? {
        Some(text) => Ok(Some(KeptLine::Crash {
            text,
            node: crash.node,
            calls: crash.calls,
            left: crash.left,
        })),
        None => Ok(None),
    }
}

/// Takes the line of a crash, to its end.
#[tactic(auto, unfolding(crate::specs::Reading::crash_at))]
fn read_crash(words: &mut Words<'_>, nodes: u8) -> Result<Crash, WordFault>
    ensures { Reads crash_words_of result words.new (crash_at nodes words.old) }
{
    words.exactly(b"crash")?;
    let node = read_node(words, nodes)?;
    let calls = words.number(u64::MAX)?;
    let left = read_left(words)?;
    words.end()?;
    Ok(Crash { node, calls, left })
}

/// Takes what a crash leaves.
fn read_left(words: &mut Words<'_>) -> Result<Left, WordFault>
    ensures { Reads (λ l. l) result words.new (word_at left_of words.old) }
{
    let (word, unfit) = words.next()?;
    left(word).ok_or(unfit)
}

/// What a word says that a crash leaves.
#[tactic(auto, unfolding(crate::specs::Reading::left_of))]
fn left(word: &[u8]) -> Option<Left>
    ensures { result ≡ left_of word.now }
{
    if word == b"old".as_slice() {
        Some(Left::Old)
    } else if word == b"new".as_slice() {
        Some(Left::New)
    } else if word == b"torn".as_slice() {
        Some(Left::Torn)
    } else {
        None
    }
}
