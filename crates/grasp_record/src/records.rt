//! Reading the lines of a record.

ghost use Rattle.std.specs.Prelude.{◌≡◌, List, ℕ, IfOk, IfSome, IfNone};
ghost use Rattle.grasp_text.specs.Reading.{Reads};
ghost use Rattle.grasp_text.specs.Words.{words_of};
ghost use Rattle.grasp_record.specs.Answers.{is_poll};
ghost use Rattle.grasp_record.specs.Dividing.{IsDivided};
ghost use Rattle.grasp_record.specs.Grammar.{answer_at, record_at};
ghost use Rattle.grasp_record.specs.Records.{IsRecordLine, IsNoRecordLine};

use crate::answers::{read_of_call, read_of_return, read_of_want};
use crate::inputs::read_asked;
use crate::line::{RecordAnswer, RecordInput, RecordLine};
use crate::outputs::{read_of_datagram, read_of_drain, read_of_stream};
use grasp_cbor::OutOfMemory;
use grasp_text::{WordFault, Words};
use grasp_types::Call;
use memchr::memmem;
use std::alloc::Global;

/// What a line is, in a record of so many nodes, or `None` where it is no line of one.
pub fn read_record_line(
    alloc: Global,
    line: &[u8],
    nodes: u8,
) -> Result<Option<RecordLine>, OutOfMemory>
    ensures found { IfOk result (λ o. IfSome o (λ x. IsRecordLine nodes line.now x)) }
    ensures none { IfOk result (λ o. IfNone o (IsNoRecordLine nodes line.now)) }
{
    let Some((front, back)) = divided(line) else {
        return Ok(None);
    };
    let mut before = Words::of(front);
    let mut behind = Words::of(back);
    match read_record(alloc, &mut before, &mut behind, nodes) {
        Ok(record) => Ok(Some(record)),
        Err(WordFault::Unfit { .. }) => Ok(None),
        Err(WordFault::OutOfMemory) => Err(OutOfMemory),
    }
}

/// The line before and behind its first ` = `, or `None` where it has none.
fn divided(line: &[u8]) -> Option<(&[u8], &[u8])>
    ensures some { IfSome result (λ p. IsDivided (words_of line.now) (words_of p.0.now) (words_of p.1.now)) }
    ensures none { IfNone result ((front back : List (List ℕ)) → ¬ IsDivided (words_of line.now) front back) }
{
    let at = memmem::find(line, b" = ")?;
    Some((&line[..at], &line[at + 3..]))
}

/// Takes what stands before `=` and what stands behind it, to the end of both.
#[tactic(auto, unfolding(crate::specs::Grammar::record_at))]
fn read_record(
    alloc: Global,
    before: &mut Words<'_>,
    behind: &mut Words<'_>,
    nodes: u8,
) -> Result<RecordLine, WordFault>
    ensures { Reads (λ x. x) result behind.new (record_at nodes before.old behind.old) }
{
    let asked = read_asked(alloc, before, nodes)?;
    let answer = read_answer(alloc, behind, &asked.input)?;
    Ok(RecordLine {
        node: asked.node,
        now: asked.now,
        input: asked.input,
        answer,
    })
}

/// Whether the call asks how a session stands.
fn is_poll(call: &Call) -> bool
    ensures { result ≡ is_poll call.now }
{
    match call {
        Call::Poll { .. } => true,
        _ => false,
    }
}

/// Takes the answer to an input, to the end of the line.
fn read_answer(
    alloc: Global,
    words: &mut Words<'_>,
    input: &RecordInput,
) -> Result<RecordAnswer, WordFault>
    ensures { Reads (λ a. a) result words.new (answer_at input.now words.old) }
{
    match input {
        RecordInput::Api { asa: _, call } => read_of_call(alloc, words, is_poll(call)),
        RecordInput::Agent { call } => read_of_call(alloc, words, is_poll(call)),
        RecordInput::Want { .. } => read_of_want(words),
        RecordInput::Return { .. } => read_of_return(words),
        RecordInput::Datagram { .. } => read_of_datagram(words),
        RecordInput::Opened { .. } => read_of_stream(words),
        RecordInput::Bytes { .. } => read_of_stream(words),
        RecordInput::Closed { .. } => read_of_stream(words),
        RecordInput::Drain { .. } => read_of_drain(alloc, words),
    }
}
