//! Reading what a node took.

ghost use Rattle.std.specs.Prelude.{◌≡◌, IfOk};
ghost use Rattle.grasp_cbor.specs.Bytes.{AllBytes};
ghost use Rattle.grasp_text.specs.Reading.{Reads, word_at};
ghost use Rattle.grasp_record.specs.Grammar.{octets_of, input_of, api_at, agent_at, want_at, return_at, datagram_at, opened_at, bytes_at, closed_at, drain_at, took_at, asked_at};

use crate::line::RecordInput;
use crate::names::{InputName, input_name};
use grasp_cbor::{Octets, OutOfMemory};
use grasp_script::{are_lengths, may_make, read_call, read_node, read_prefix};
use grasp_text::{WordFault, Words, bytes};
use std::alloc::Global;

/// What stands before `=`.
#[derive(Drop)]
pub(crate) struct Asked {
    pub(crate) node: u8,
    pub(crate) now: u64,
    pub(crate) input: RecordInput,
}

/// Takes what stands before `=`, to its end.
#[tactic(auto, unfolding(crate::specs::Grammar::asked_at))]
pub(crate) fn read_asked(
    alloc: Global,
    words: &mut Words<'_>,
    nodes: u8,
) -> Result<Asked, WordFault>
    ensures { Reads (λ a. a) result words.new (asked_at nodes words.old) }
{
    let node = read_node(words, nodes)?;
    let now = words.number(u64::MAX)?;
    let name = read_input_name(words)?;
    let input = read_took(alloc, words, name, nodes)?;
    Ok(Asked { node, now, input })
}

fn read_input_name(words: &mut Words<'_>) -> Result<InputName, WordFault>
    ensures { Reads (λ n. n) result words.new (word_at input_of words.old) }
{
    let (word, unfit) = words.next()?;
    input_name(word).ok_or(unfit)
}

/// Takes what stands behind an input's first word.
fn read_took(
    alloc: Global,
    words: &mut Words<'_>,
    name: InputName,
    nodes: u8,
) -> Result<RecordInput, WordFault>
    ensures { Reads (λ i. i) result words.new (took_at nodes name words.old) }
{
    match name {
        InputName::Api => read_api(alloc, words, nodes),
        InputName::Agent => Ok(RecordInput::Agent {
            call: read_call(alloc, words, nodes)?,
        }),
        InputName::Want => read_want(words, nodes),
        InputName::Return => read_return(words, nodes),
        InputName::Datagram => read_datagram(alloc, words),
        InputName::Opened => read_opened(words),
        InputName::Bytes => read_bytes(alloc, words),
        InputName::Closed => read_closed(words),
        InputName::Drain => read_drain(words),
    }
}

/// What a slice of bytes holds are bytes.
fn are_bytes(bytes: &[u8])
    ensures { AllBytes bytes.now }
{}

/// The bytes of a word, or `None` where no bytes have the word.
fn octets(alloc: Global, word: &[u8]) -> Result<Option<Octets>, OutOfMemory>
    ensures { IfOk result (λ o. o ≡ octets_of word.now) }
{
    match bytes(alloc, word)? {
        Some(bytes) => {
            are_bytes(&bytes);
            Ok(Some(Octets::from_vec(bytes)))
        }
        None => Ok(None),
    }
}

/// Takes raw bytes.
pub(crate) fn read_octets(alloc: Global, words: &mut Words<'_>) -> Result<Octets, WordFault>
    ensures { Reads (λ b. b) result words.new (word_at octets_of words.old) }
{
    let (word, unfit) = words.next()?;
    octets(alloc, word)?.ok_or(unfit)
}

#[tactic(auto, unfolding(crate::specs::Grammar::api_at))]
fn read_api(alloc: Global, words: &mut Words<'_>, nodes: u8) -> Result<RecordInput, WordFault>
    ensures { Reads (λ i. i) result words.new (api_at nodes words.old) }
{
    let asa = words.u32()?;
    let call = read_call(alloc, words, nodes)?;
    if may_make(asa, &call) {
        Ok(RecordInput::Api { asa, call })
    } else {
        Err(WordFault::Unfit { left: 0 })
    }
}

#[tactic(auto, unfolding(crate::specs::Grammar::want_at))]
fn read_want(words: &mut Words<'_>, nodes: u8) -> Result<RecordInput, WordFault>
    ensures { Reads (λ i. i) result words.new (want_at nodes words.old) }
{
    let length = words.number(255)? as u8;
    let longest = words.number(255)? as u8;
    let peer = read_node(words, nodes)?;
    if !are_lengths(length, longest) {
        return Err(WordFault::Unfit { left: 0 });
    }
    words.end()?;
    Ok(RecordInput::Want {
        length,
        longest,
        peer,
    })
}

#[tactic(auto, unfolding(crate::specs::Grammar::return_at))]
fn read_return(words: &mut Words<'_>, nodes: u8) -> Result<RecordInput, WordFault>
    ensures { Reads (λ i. i) result words.new (return_at nodes words.old) }
{
    let prefix = read_prefix(words)?;
    let peer = read_node(words, nodes)?;
    words.end()?;
    Ok(RecordInput::Return { prefix, peer })
}

#[tactic(auto, unfolding(crate::specs::Grammar::datagram_at))]
fn read_datagram(alloc: Global, words: &mut Words<'_>) -> Result<RecordInput, WordFault>
    ensures { Reads (λ i. i) result words.new (datagram_at words.old) }
{
    let link = words.number(255)? as u8;
    let from = words.number(255)? as u8;
    let bytes = read_octets(alloc, words)?;
    words.end()?;
    Ok(RecordInput::Datagram { link, from, bytes })
}

#[tactic(auto, unfolding(crate::specs::Grammar::opened_at))]
fn read_opened(words: &mut Words<'_>) -> Result<RecordInput, WordFault>
    ensures { Reads (λ i. i) result words.new (opened_at words.old) }
{
    let stream = words.number(u64::MAX)?;
    let from = words.address()?;
    words.end()?;
    Ok(RecordInput::Opened { stream, from })
}

#[tactic(auto, unfolding(crate::specs::Grammar::bytes_at))]
fn read_bytes(alloc: Global, words: &mut Words<'_>) -> Result<RecordInput, WordFault>
    ensures { Reads (λ i. i) result words.new (bytes_at words.old) }
{
    let stream = words.number(u64::MAX)?;
    let bytes = read_octets(alloc, words)?;
    words.end()?;
    Ok(RecordInput::Bytes { stream, bytes })
}

#[tactic(auto, unfolding(crate::specs::Grammar::closed_at))]
fn read_closed(words: &mut Words<'_>) -> Result<RecordInput, WordFault>
    ensures { Reads (λ i. i) result words.new (closed_at words.old) }
{
    let stream = words.number(u64::MAX)?;
    words.end()?;
    Ok(RecordInput::Closed { stream })
}

#[tactic(auto, unfolding(crate::specs::Grammar::drain_at))]
fn read_drain(words: &mut Words<'_>) -> Result<RecordInput, WordFault>
    ensures { Reads (λ i. i) result words.new (drain_at words.old) }
{
    let max = words.u32()?;
    words.end()?;
    Ok(RecordInput::Drain { max })
}
