//! Writing the lines of a record.

ghost use Rattle.std.specs.Prelude.{◌≡◌, ◌++◌, ◌∷◌, [], OnOk, OnErr, codes, decimal, string_bytes};
ghost use Rattle.grasp_cbor.specs.Extends.{Extends};
ghost use Rattle.grasp_types.specs.declared.traffic.Output.TheVariants as output;
ghost use Rattle.grasp_text.specs.Line.{bytes_word};
ghost use Rattle.grasp_text.specs.Words.{spaced};
ghost use Rattle.grasp_record.specs.Answers.{output_words, all_output_words, drained_words, told_words};
ghost use Rattle.grasp_record.specs.Inputs.{input_words};
ghost use Rattle.grasp_record.specs.Records.{record_line};
ghost use Rattle.grasp_record.specs.declared.line.RecordInput.TheVariants as input;

use crate::line::{RecordAnswer, RecordInput, RecordLine};
use grasp_cbor::{Octets, OutOfMemory};
use grasp_script::{push_api_answer, push_call, push_count, push_refusal, push_return, push_want};
use grasp_text::{push_address, push_bytes, push_locator, push_number, push_prefix, push_word};
use grasp_types::{Output, Outputs, Prefix};
use itoa::Buffer;
use std::alloc::Global;

/// Appends a line, without a line end. After an `Err` a part of it may have been appended.
pub fn push_record_line(
    alloc: Global,
    out: &mut String,
    line: &RecordLine,
) -> Result<(), OutOfMemory>
    ensures text { OnOk result (string_bytes out.new ≡ string_bytes out.old ++ record_line line.entry.now) }
    ensures err { OnErr result (Extends (string_bytes out.old) (string_bytes out.new)) }
{
    let mut buffer = Buffer::new();
    out.push_str(buffer.format(line.node))?;
    push_behind_node(alloc, out, line.now, &line.input, &line.answer)
}

/// Appends a line behind its first word, each word behind a blank.
#[tactic(auto, using(crate::proofs::Pushed::pushes))]
fn push_behind_node(
    alloc: Global,
    out: &mut String,
    now: u64,
    input: &RecordInput,
    answer: &RecordAnswer,
) -> Result<(), OutOfMemory>
    ensures text { OnOk result
        (string_bytes out.new ≡ string_bytes out.old ++ spaced (decimal now ∷ (input_words input.now ++ codes "=" ∷ told_words answer.now))) }
    ensures err { OnErr result (Extends (string_bytes out.old) (string_bytes out.new)) }
{
    push_number(out, now)?;
    push_input(alloc, out, input)?;
    push_word(out, "=")?;
    push_told(alloc, out, answer)
}

/// Appends a word, a number and raw bytes, each behind a blank.
#[tactic(auto, using(crate::proofs::Pushed::pushes))]
fn push_counted_bytes(
    alloc: Global,
    out: &mut String,
    word: &str,
    n: u64,
    bytes: &Octets,
) -> Result<(), OutOfMemory>
    ensures text { OnOk result (string_bytes out.new ≡ string_bytes out.old ++ spaced (word.now ∷ decimal n ∷ bytes_word bytes.now ∷ [])) }
    ensures err { OnErr result (Extends (string_bytes out.old) (string_bytes out.new)) }
{
    push_count(out, word, n)?;
    push_bytes(alloc, out, bytes.bytes())
}

/// Appends a datagram's words, each behind a blank.
#[tactic(auto, using(crate::proofs::Pushed::pushes))]
fn push_datagram(
    alloc: Global,
    out: &mut String,
    link: u8,
    neighbour: u8,
    bytes: &Octets,
) -> Result<(), OutOfMemory>
    ensures text { OnOk result (string_bytes out.new ≡ string_bytes out.old ++ spaced (output_words (output.Datagram link neighbour bytes.now))) }
    ensures err { OnErr result (Extends (string_bytes out.old) (string_bytes out.new)) }
{
    push_count(out, "datagram", u64::from(link))?;
    push_number(out, u64::from(neighbour))?;
    push_bytes(alloc, out, bytes.bytes())
}

#[tactic(auto, using(crate::proofs::Pushed::pushes))]
fn push_wanted(out: &mut String, length: u8, longest: u8, peer: u8) -> Result<(), OutOfMemory>
    ensures text { OnOk result (string_bytes out.new ≡ string_bytes out.old ++ spaced (input_words (input.Want length longest peer))) }
    ensures err { OnErr result (Extends (string_bytes out.old) (string_bytes out.new)) }
{
    push_count(out, "want", u64::from(length))?;
    push_number(out, u64::from(longest))?;
    push_number(out, u64::from(peer))
}

#[tactic(auto, using(crate::proofs::Pushed::pushes))]
fn push_returned(
    alloc: Global,
    out: &mut String,
    prefix: Prefix,
    peer: u8,
) -> Result<(), OutOfMemory>
    ensures text { OnOk result (string_bytes out.new ≡ string_bytes out.old ++ spaced (input_words (input.Return prefix peer))) }
    ensures err { OnErr result (Extends (string_bytes out.old) (string_bytes out.new)) }
{
    push_word(out, "return")?;
    push_prefix(alloc, out, prefix)?;
    push_number(out, u64::from(peer))
}

/// Appends what a node took, each word behind a blank.
#[tactic(auto, using(crate::proofs::Pushed::pushes))]
fn push_input(alloc: Global, out: &mut String, input: &RecordInput) -> Result<(), OutOfMemory>
    ensures text { OnOk result (string_bytes out.new ≡ string_bytes out.old ++ spaced (input_words input.now)) }
    ensures err { OnErr result (Extends (string_bytes out.old) (string_bytes out.new)) }
{
    match input {
        RecordInput::Api { asa, call } => {
            push_count(out, "api", u64::from(*asa))?;
            push_call(alloc, out, call)
        }
        RecordInput::Agent { call } => {
            push_word(out, "agent")?;
            push_call(alloc, out, call)
        }
        RecordInput::Want {
            length,
            longest,
            peer,
        } => push_wanted(out, *length, *longest, *peer),
        RecordInput::Return { prefix, peer } => push_returned(alloc, out, *prefix, *peer),
        RecordInput::Datagram { link, from, bytes } => {
            push_datagram(alloc, out, *link, *from, bytes)
        }
        RecordInput::Opened { stream, from } => {
            push_count(out, "opened", *stream)?;
            push_address(alloc, out, *from)
        }
        RecordInput::Bytes { stream, bytes } => {
            push_counted_bytes(alloc, out, "bytes", *stream, bytes)
        }
        RecordInput::Closed { stream } => push_count(out, "closed", *stream),
        RecordInput::Drain { max } => push_count(out, "drain", u64::from(*max)),
    }
}

/// Appends an output's words, each behind a blank.
#[tactic(auto, using(crate::proofs::Pushed::pushes))]
fn push_output(alloc: Global, out: &mut String, output: &Output) -> Result<(), OutOfMemory>
    ensures text { OnOk result (string_bytes out.new ≡ string_bytes out.old ++ spaced (output_words output.now)) }
    ensures err { OnErr result (Extends (string_bytes out.old) (string_bytes out.new)) }
{
    match output {
        Output::Datagram { link, to, bytes } => push_datagram(alloc, out, *link, *to, bytes),
        Output::Dial { stream, to } => {
            push_count(out, "dial", *stream)?;
            push_locator(alloc, out, to)
        }
        Output::Send { stream, bytes } => push_counted_bytes(alloc, out, "send", *stream, bytes),
        Output::Close { stream } => push_count(out, "close", *stream),
    }
}

/// Appends the words of outputs, each behind a blank.
fn push_outputs(alloc: Global, out: &mut String, outputs: &Outputs) -> Result<(), OutOfMemory>
    ensures text { OnOk result (string_bytes out.new ≡ string_bytes out.old ++ spaced (all_output_words outputs.now)) }
    ensures err { OnErr result (Extends (string_bytes out.old) (string_bytes out.new)) }
{
    for i in 0..outputs.len() {
        let Some(output) = outputs.at(i) else {
            unreachable!()
        };
        push_output(alloc, out, output)?;
    }
    Ok(())
}

/// Appends the words of a drain's outputs, or `none`, each behind a blank.
fn push_drained(alloc: Global, out: &mut String, outputs: &Outputs) -> Result<(), OutOfMemory>
    ensures text { OnOk result (string_bytes out.new ≡ string_bytes out.old ++ spaced (drained_words outputs.now)) }
    ensures err { OnErr result (Extends (string_bytes out.old) (string_bytes out.new)) }
{
    if outputs.len() == 0 {
        push_word(out, "none")
    } else {
        push_outputs(alloc, out, outputs)
    }
}

/// Appends what a node answered, each word behind a blank.
fn push_told(alloc: Global, out: &mut String, answer: &RecordAnswer) -> Result<(), OutOfMemory>
    ensures text { OnOk result (string_bytes out.new ≡ string_bytes out.old ++ spaced (told_words answer.now)) }
    ensures err { OnErr result (Extends (string_bytes out.old) (string_bytes out.new)) }
{
    match answer {
        RecordAnswer::Api(answer) => push_api_answer(alloc, out, answer),
        RecordAnswer::Refused(refusal) => push_refusal(out, *refusal),
        RecordAnswer::Want(taken) => push_want(out, taken),
        RecordAnswer::Return(taken) => push_return(alloc, out, taken),
        RecordAnswer::Taken => push_word(out, "taken"),
        RecordAnswer::Turned => push_word(out, "turned"),
        RecordAnswer::Outputs(outputs) => push_drained(alloc, out, outputs),
    }
}
