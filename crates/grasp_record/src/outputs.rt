//! Reading what a node answered to what came from outside, and to a drain.

ghost use Rattle.std.specs.Prelude.{◌≡◌};
ghost use Rattle.grasp_text.specs.Reading.{Reads, word_at};
ghost use Rattle.grasp_record.specs.Grammar.{taken_of, output_of, of_datagram_at, stream_answer, of_stream_at, sent_datagram_at, dial_at, send_at, close_at, sent_at, output_at, outputs_at, none_at, of_drain_at};

use crate::inputs::read_octets;
use crate::line::RecordAnswer;
use crate::names::{OutputName, output_name, taken};
use grasp_text::{WordFault, Words, read_locator};
use grasp_types::{Output, Outputs};
use std::alloc::Global;

/// Takes the answer to a datagram, to the end of the line.
#[tactic(auto, unfolding(crate::specs::Grammar::of_datagram_at))]
pub(crate) fn read_of_datagram(words: &mut Words<'_>) -> Result<RecordAnswer, WordFault>
    ensures { Reads (λ a. a) result words.new (of_datagram_at words.old) }
{
    words.exactly(b"taken")?;
    words.end()?;
    Ok(RecordAnswer::Taken)
}

fn read_taken(words: &mut Words<'_>) -> Result<bool, WordFault>
    ensures { Reads (λ t. t) result words.new (word_at taken_of words.old) }
{
    let (word, unfit) = words.next()?;
    taken(word).ok_or(unfit)
}

/// The answer to what a stream brings.
fn stream_answer(taken: bool) -> RecordAnswer
    ensures { result ≡ stream_answer taken }
{
    if taken {
        RecordAnswer::Taken
    } else {
        RecordAnswer::Turned
    }
}

/// Takes the answer to what a stream brings, to the end of the line.
#[tactic(auto, unfolding(crate::specs::Grammar::of_stream_at))]
pub(crate) fn read_of_stream(words: &mut Words<'_>) -> Result<RecordAnswer, WordFault>
    ensures { Reads (λ a. a) result words.new (of_stream_at words.old) }
{
    let taken = read_taken(words)?;
    words.end()?;
    Ok(stream_answer(taken))
}

fn read_output_name(words: &mut Words<'_>) -> Result<OutputName, WordFault>
    ensures { Reads (λ n. n) result words.new (word_at output_of words.old) }
{
    let (word, unfit) = words.next()?;
    output_name(word).ok_or(unfit)
}

/// Takes an output.
#[tactic(auto, unfolding(crate::specs::Grammar::output_at))]
fn read_output(alloc: Global, words: &mut Words<'_>) -> Result<Output, WordFault>
    ensures { Reads (λ o. o) result words.new (output_at words.old) }
{
    let name = read_output_name(words)?;
    read_sent(alloc, words, name)
}

/// Takes what stands behind an output's first word.
fn read_sent(alloc: Global, words: &mut Words<'_>, name: OutputName) -> Result<Output, WordFault>
    ensures { Reads (λ o. o) result words.new (sent_at name words.old) }
{
    match name {
        OutputName::Datagram => read_sent_datagram(alloc, words),
        OutputName::Dial => read_dial(alloc, words),
        OutputName::Send => read_send(alloc, words),
        OutputName::Close => read_close(words),
    }
}

#[tactic(auto, unfolding(crate::specs::Grammar::sent_datagram_at))]
fn read_sent_datagram(alloc: Global, words: &mut Words<'_>) -> Result<Output, WordFault>
    ensures { Reads (λ o. o) result words.new (sent_datagram_at words.old) }
{
    let link = words.number(255)? as u8;
    let to = words.number(255)? as u8;
    let bytes = read_octets(alloc, words)?;
    Ok(Output::Datagram { link, to, bytes })
}

#[tactic(auto, unfolding(crate::specs::Grammar::dial_at))]
fn read_dial(alloc: Global, words: &mut Words<'_>) -> Result<Output, WordFault>
    ensures { Reads (λ o. o) result words.new (dial_at words.old) }
{
    let stream = words.number(u64::MAX)?;
    let to = read_locator(alloc, words)?;
    Ok(Output::Dial { stream, to })
}

#[tactic(auto, unfolding(crate::specs::Grammar::send_at))]
fn read_send(alloc: Global, words: &mut Words<'_>) -> Result<Output, WordFault>
    ensures { Reads (λ o. o) result words.new (send_at words.old) }
{
    let stream = words.number(u64::MAX)?;
    let bytes = read_octets(alloc, words)?;
    Ok(Output::Send { stream, bytes })
}

#[tactic(auto, unfolding(crate::specs::Grammar::close_at))]
fn read_close(words: &mut Words<'_>) -> Result<Output, WordFault>
    ensures { Reads (λ o. o) result words.new (close_at words.old) }
{
    let stream = words.number(u64::MAX)?;
    Ok(Output::Close { stream })
}

/// Takes one or more outputs, to the end of the line.
#[tactic(auto, unfolding(crate::specs::Grammar::outputs_at))]
fn read_outputs(alloc: Global, words: &mut Words<'_>) -> Result<RecordAnswer, WordFault>
    ensures { Reads (λ a. a) result words.new (outputs_at words.old) }
{
    let first = read_output(alloc, words)?;
    let mut outputs = Outputs::new(alloc);
    outputs.push(first)?;
    while !words.is_over() {
        let next = read_output(alloc, words)?;
        outputs.push(next)?;
    }
    Ok(RecordAnswer::Outputs(outputs))
}

/// Takes `none`, and nothing more.
#[tactic(auto, unfolding(crate::specs::Grammar::none_at))]
fn read_none(alloc: Global, words: &mut Words<'_>) -> Result<RecordAnswer, WordFault>
    ensures { Reads (λ a. a) result words.new (none_at words.old) }
{
    words.exactly(b"none")?;
    words.end()?;
    Ok(RecordAnswer::Outputs(Outputs::new(alloc)))
}

/// Takes the answer to a drain, to the end of the line.
pub(crate) fn read_of_drain(alloc: Global, words: &mut Words<'_>) -> Result<RecordAnswer, WordFault>
    ensures { Reads (λ a. a) result words.new (of_drain_at words.old) }
{
    if words.is_next(b"none") {
        read_none(alloc, words)
    } else {
        read_outputs(alloc, words)
    }
}
