//! Reading the lines of a script behind its header.

ghost use Rattle.std.specs.Prelude.{◌≡◌, IfOk, IfSome, IfNone, true};
ghost use Rattle.std.specs.Str.{IsUtf8};
ghost use Rattle.grasp_text.specs.Reading.{Reads, word_at};
ghost use Rattle.grasp_script.specs.Acts.{IsLine, IsNoLine};
ghost use Rattle.grasp_script.specs.Grammar.{are_lengths, first_of, act_at, named_at, hold_at, held_at, clock_at, want_at, return_at, agent_at};
ghost use Rattle.grasp_script.specs.Grammar.{api_at, datagram_at, arrive_at, bytes_at, cut_at, drain_at, state_at};

use crate::called::{may_make, read_call};
use crate::line::{Line, LineAct};
use crate::names::{FirstWord, first_word};
use crate::places::{read_far, read_node, read_prefix};
use grasp_cbor::{Chars, OutOfMemory};
use grasp_model_network::Event;
use grasp_text::{WordFault, Words};
use std::alloc::Global;

/// What a line is, in a script of so many nodes, or `None` where no line behind the header reads so.
pub fn read_line(alloc: Global, line: &[u8], nodes: u8) -> Result<Option<Line>, OutOfMemory>
    ensures text { IfOk result (λ o. IfSome o (λ x. x.text ≡ line.now)) }
    ensures found { IfOk result (λ o. IfSome o (λ x. IsLine nodes line.now x.act)) }
    ensures none { IfOk result (λ o. IfNone o (IsNoLine nodes line.now)) }
{
    let mut words = Words::of(line);
    match read_act(alloc, &mut words, nodes) {
        Ok(act) => with_text(alloc, line, act),
        Err(WordFault::Unfit { .. }) => Ok(None),
        Err(WordFault::OutOfMemory) => Err(OutOfMemory),
    }
}

/// The line with what it means, or `None` where it is no text.
fn with_text(alloc: Global, line: &[u8], act: LineAct) -> Result<Option<Line>, OutOfMemory>
    ensures text { IfOk result (λ o. IfSome o (λ x. x.text ≡ line.now)) }
    ensures act { IfOk result (λ o. IfSome o (λ x. x.act ≡ act)) }
    ensures utf8 { IfOk result (λ o. IfSome o (λ x. IsUtf8 line.now)) }
    ensures none { IfOk result (λ o. IfNone o (¬ IsUtf8 line.now)) }
{
    match Chars::of_bytes(alloc, line)? {
        Some(text) => Ok(Some(Line { text, act })),
        None => Ok(None),
    }
}

/// Takes a line, to its end.
#[tactic(auto, unfolding(crate::specs::Grammar::act_at))]
fn read_act(alloc: Global, words: &mut Words<'_>, nodes: u8) -> Result<LineAct, WordFault>
    ensures { Reads (λ a. a) result words.new (act_at nodes words.old) }
{
    let first = read_first(words)?;
    read_named(alloc, words, first, nodes)
}

fn read_first(words: &mut Words<'_>) -> Result<FirstWord, WordFault>
    ensures { Reads (λ n. n) result words.new (word_at first_of words.old) }
{
    let (word, unfit) = words.next()?;
    first_word(word).ok_or(unfit)
}

/// Takes what stands behind a line's first word.
fn read_named(
    alloc: Global,
    words: &mut Words<'_>,
    first: FirstWord,
    nodes: u8,
) -> Result<LineAct, WordFault>
    ensures { Reads (λ a. a) result words.new (named_at nodes first words.old) }
{
    match first {
        FirstWord::Agent => Ok(LineAct::Event(read_agent(words, nodes, false)?)),
        FirstWord::Api => Ok(LineAct::Event(read_api(alloc, words, nodes, false)?)),
        FirstWord::Datagram => Ok(LineAct::Event(read_datagram(words, false)?)),
        FirstWord::Arrive => Ok(LineAct::Event(read_arrive(words, false)?)),
        FirstWord::Bytes => Ok(LineAct::Event(read_bytes(words, false)?)),
        FirstWord::Cut => Ok(LineAct::Event(read_cut(words, false)?)),
        FirstWord::Clock => Ok(LineAct::Event(read_clock(words, nodes)?)),
        FirstWord::Want => Ok(LineAct::Event(read_want(words, nodes)?)),
        FirstWord::Return => Ok(LineAct::Event(read_return(words, nodes)?)),
        FirstWord::Drain => Ok(LineAct::Event(read_drain(words, nodes)?)),
        FirstWord::State => read_state(words, nodes),
        FirstWord::Hold => Ok(LineAct::Event(read_hold(alloc, words, nodes)?)),
    }
}

/// Takes what stands behind `hold`.
#[tactic(auto, unfolding(crate::specs::Grammar::hold_at))]
fn read_hold(alloc: Global, words: &mut Words<'_>, nodes: u8) -> Result<Event, WordFault>
    ensures { Reads (λ e. e) result words.new (hold_at nodes words.old) }
{
    let first = read_first(words)?;
    read_held(alloc, words, first, nodes)
}

/// Takes what stands behind `hold` and the word behind it.
fn read_held(
    alloc: Global,
    words: &mut Words<'_>,
    first: FirstWord,
    nodes: u8,
) -> Result<Event, WordFault>
    ensures { Reads (λ e. e) result words.new (held_at nodes true first words.old) }
{
    match first {
        FirstWord::Agent => read_agent(words, nodes, true),
        FirstWord::Api => read_api(alloc, words, nodes, true),
        FirstWord::Datagram => read_datagram(words, true),
        FirstWord::Arrive => read_arrive(words, true),
        FirstWord::Bytes => read_bytes(words, true),
        FirstWord::Cut => read_cut(words, true),
        FirstWord::Clock => Err(WordFault::Unfit { left: 0 }),
        FirstWord::Want => Err(WordFault::Unfit { left: 0 }),
        FirstWord::Return => Err(WordFault::Unfit { left: 0 }),
        FirstWord::Drain => Err(WordFault::Unfit { left: 0 }),
        FirstWord::State => Err(WordFault::Unfit { left: 0 }),
        FirstWord::Hold => Err(WordFault::Unfit { left: 0 }),
    }
}

#[tactic(auto, unfolding(crate::specs::Grammar::clock_at))]
fn read_clock(words: &mut Words<'_>, nodes: u8) -> Result<Event, WordFault>
    ensures { Reads (λ e. e) result words.new (clock_at nodes words.old) }
{
    let node = read_node(words, nodes)?;
    let millis = words.number(u64::MAX)?;
    words.end()?;
    Ok(Event::Clock { node, millis })
}

/// Whether a prefix of this length, or of one up to the longest, can be wanted.
pub fn are_lengths(length: u8, longest: u8) -> bool
    ensures { result ≡ are_lengths length longest }
{
    1 <= length && length <= longest && longest <= 128
}

#[tactic(auto, unfolding(crate::specs::Grammar::want_at))]
fn read_want(words: &mut Words<'_>, nodes: u8) -> Result<Event, WordFault>
    ensures { Reads (λ e. e) result words.new (want_at nodes words.old) }
{
    let node = read_node(words, nodes)?;
    let length = words.number(255)? as u8;
    let longest = words.number(255)? as u8;
    let peer = read_node(words, nodes)?;
    if !are_lengths(length, longest) {
        return Err(WordFault::Unfit { left: 0 });
    }
    words.end()?;
    Ok(Event::Want {
        node,
        length,
        longest,
        peer,
    })
}

#[tactic(auto, unfolding(crate::specs::Grammar::return_at))]
fn read_return(words: &mut Words<'_>, nodes: u8) -> Result<Event, WordFault>
    ensures { Reads (λ e. e) result words.new (return_at nodes words.old) }
{
    let node = read_node(words, nodes)?;
    let prefix = read_prefix(words)?;
    let peer = read_node(words, nodes)?;
    words.end()?;
    Ok(Event::Return { node, prefix, peer })
}

#[tactic(auto, unfolding(crate::specs::Grammar::agent_at))]
fn read_agent(words: &mut Words<'_>, nodes: u8, hold: bool) -> Result<Event, WordFault>
    ensures { Reads (λ e. e) result words.new (agent_at nodes hold words.old) }
{
    let node = read_node(words, nodes)?;
    words.end()?;
    Ok(Event::Agent { node, hold })
}

#[tactic(auto, unfolding(crate::specs::Grammar::api_at))]
fn read_api(alloc: Global, words: &mut Words<'_>, nodes: u8, hold: bool) -> Result<Event, WordFault>
    ensures { Reads (λ e. e) result words.new (api_at nodes hold words.old) }
{
    let node = read_node(words, nodes)?;
    let asa = words.u32()?;
    let call = read_call(alloc, words, nodes)?;
    if may_make(asa, &call) {
        Ok(Event::Api {
            node,
            asa,
            call,
            hold,
        })
    } else {
        Err(WordFault::Unfit { left: 0 })
    }
}

#[tactic(auto, unfolding(crate::specs::Grammar::datagram_at))]
fn read_datagram(words: &mut Words<'_>, hold: bool) -> Result<Event, WordFault>
    ensures { Reads (λ e. e) result words.new (datagram_at hold words.old) }
{
    let index = words.number(u64::MAX)?;
    words.end()?;
    Ok(Event::Datagram { index, hold })
}

#[tactic(auto, unfolding(crate::specs::Grammar::arrive_at))]
fn read_arrive(words: &mut Words<'_>, hold: bool) -> Result<Event, WordFault>
    ensures { Reads (λ e. e) result words.new (arrive_at hold words.old) }
{
    let stream = words.number(u64::MAX)?;
    words.end()?;
    Ok(Event::Arrive { stream, hold })
}

#[tactic(auto, unfolding(crate::specs::Grammar::bytes_at))]
fn read_bytes(words: &mut Words<'_>, hold: bool) -> Result<Event, WordFault>
    ensures { Reads (λ e. e) result words.new (bytes_at hold words.old) }
{
    let stream = words.number(u64::MAX)?;
    let far = read_far(words)?;
    let count = words.number(u64::MAX)?;
    words.end()?;
    Ok(Event::Bytes {
        stream,
        far,
        count,
        hold,
    })
}

#[tactic(auto, unfolding(crate::specs::Grammar::cut_at))]
fn read_cut(words: &mut Words<'_>, hold: bool) -> Result<Event, WordFault>
    ensures { Reads (λ e. e) result words.new (cut_at hold words.old) }
{
    let stream = words.number(u64::MAX)?;
    let far = read_far(words)?;
    words.end()?;
    Ok(Event::Cut { stream, far, hold })
}

#[tactic(auto, unfolding(crate::specs::Grammar::drain_at))]
fn read_drain(words: &mut Words<'_>, nodes: u8) -> Result<Event, WordFault>
    ensures { Reads (λ e. e) result words.new (drain_at nodes words.old) }
{
    let node = read_node(words, nodes)?;
    let max = words.u32()?;
    words.end()?;
    Ok(Event::Drain { node, max })
}

#[tactic(auto, unfolding(crate::specs::Grammar::state_at))]
fn read_state(words: &mut Words<'_>, nodes: u8) -> Result<LineAct, WordFault>
    ensures { Reads (λ a. a) result words.new (state_at nodes words.old) }
{
    let node = read_node(words, nodes)?;
    words.end()?;
    Ok(LineAct::State { node })
}
