//! Writing what a visitor is answered.

ghost use Rattle.std.specs.Prelude.{◌≡◌, ◌++◌, ◌∷◌, [], true, false, is_some, codes, decimal, length, IfSome, OnOk, OnErr, string_bytes};
ghost use Rattle.grasp_cbor.specs.Extends.{Extends};
ghost use Rattle.grasp_text.specs.Line.{text_word};
ghost use Rattle.grasp_text.specs.Words.{spaced};
ghost use Rattle.grasp_control.specs.Answers.{is_printable, are_printable, echo, goes_on, plain_words, read_words, version_words};

use grasp_cbor::{Chars, OutOfMemory};
use grasp_script::{push_count, push_flood_reads};
use grasp_text::{push_number, push_text, push_word};
use grasp_types::{ApiAnswer, FloodReads, Progress, Reply};
use std::alloc::Global;
use std::str;

/// An answer that is some words and no more.
#[derive(Clone, Copy, Debug, PartialEq, Eq)]
pub enum PlainAnswer {
    /// It is done.
    Done,
    /// There is no such thing.
    Nothing,
    /// It is taken, under this number.
    Taken { number: u64 },
    /// There is no room for one more.
    Full,
    /// The line is no request from this place on.
    BadLine { at: u64 },
    /// The visitor has an agent already.
    Seated,
    /// This visitor may not ask for it.
    Denied,
}

/// Whether a reply has nothing to tell yet, so that a call behind `await` is made again.
pub fn goes_on(reply: &Reply) -> bool
    ensures { result ≡ goes_on reply.now }
{
    matches!(
        reply,
        Reply::Api(ApiAnswer::NotYet | ApiAnswer::Searching | ApiAnswer::Polled(Progress::NotYet))
    )
}

/// Whether a byte is a blank or a visible character of ASCII.
fn is_printable(byte: u8) -> bool
    ensures { result ≡ is_printable byte }
{
    32 <= byte && byte <= 126
}

/// Whether each byte is a blank or a visible character of ASCII.
fn are_printable(line: &[u8]) -> bool
    ensures { result ≡ are_printable line.now }
{
    line.iter().all(|byte| is_printable(*byte))
}

/// The text that a line is, where it is made of blanks and visible characters of ASCII alone.
#[tactic(auto, using(crate::proofs::Printable::printable_text))]
fn printable(line: &[u8]) -> Option<&str>
    ensures text { IfSome result (λ text. text.now ≡ line.now) }
    ensures when { is_some result ≡ are_printable line.now }
{
    if !are_printable(line) {
        return None;
    }
    match str::from_utf8(line) {
        Ok(text) => Some(text),
        Err(_) => unreachable!(),
    }
}

/// Appends a visitor's line, or `?` where it isn't made of blanks and visible characters of ASCII alone.
pub fn push_echo(out: &mut String, line: &[u8]) -> Result<(), OutOfMemory>
    ensures text { OnOk result (string_bytes out.new ≡ string_bytes out.old ++ echo line.now) }
    ensures err { OnErr result (Extends (string_bytes out.old) (string_bytes out.new)) }
{
    match printable(line) {
        Some(text) => out.push_str(text)?,
        None => out.push('?')?,
    }
    Ok(())
}

/// Appends the words of a plain answer, each behind a blank. After an `Err` a part of them may have been appended.
#[tactic(auto, using(crate::proofs::Pushed::pushes))]
pub fn push_plain(out: &mut String, answer: PlainAnswer) -> Result<(), OutOfMemory>
    ensures text { OnOk result (string_bytes out.new ≡ string_bytes out.old ++ spaced (plain_words answer)) }
    ensures err { OnErr result (Extends (string_bytes out.old) (string_bytes out.new)) }
{
    match answer {
        PlainAnswer::Done => push_word(out, "done"),
        PlainAnswer::Nothing => push_word(out, "nothing"),
        PlainAnswer::Taken { number } => push_count(out, "ok", number),
        PlainAnswer::Full => push_word(out, "full"),
        PlainAnswer::BadLine { at } => {
            push_word(out, "error")?;
            push_count(out, "line", at)
        }
        PlainAnswer::Seated => {
            push_word(out, "error")?;
            push_word(out, "seated")
        }
        PlainAnswer::Denied => {
            push_word(out, "error")?;
            push_word(out, "denied")
        }
    }
}

/// Appends what a reader has read, each word behind a blank. After an `Err` a part of them may have been appended.
#[tactic(auto, using(crate::proofs::Pushed::pushes))]
pub fn push_read(
    alloc: Global,
    out: &mut String,
    name: &Chars,
    reads: &FloodReads,
) -> Result<(), OutOfMemory>
    ensures text { OnOk result (string_bytes out.new ≡ string_bytes out.old ++ spaced (read_words name.now reads.now)) }
    ensures err { OnErr result (Extends (string_bytes out.old) (string_bytes out.new)) }
{
    push_word(out, "read")?;
    push_text(out, name)?;
    push_number(out, reads.len())?;
    push_flood_reads(alloc, out, reads)
}

/// Appends which program and which protocol this is, each word behind a blank. After an `Err` a part of them may have been
/// appended.
pub fn push_version(out: &mut String) -> Result<(), OutOfMemory>
    ensures text { OnOk result (string_bytes out.new ≡ string_bytes out.old ++ spaced version_words) }
    ensures err { OnErr result (Extends (string_bytes out.old) (string_bytes out.new)) }
{
    push_word(out, "grasp_node 0.2.0 control 1")
}
