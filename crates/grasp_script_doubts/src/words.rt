//! Reading the words of a doubter's lines.

ghost use Rattle.std.specs.Prelude.{◌≡◌};
ghost use Rattle.grasp_text.specs.Reading.{Reads, word_at};
ghost use Rattle.grasp_script_doubts.specs.Reading.{ask_at, doubt_word_of, doubter_at, doubts_at, of_doubts_at};

use crate::line::DoubtLineAct;
use grasp_script::{read_node, read_prefix};
use grasp_text::{WordFault, Words};

/// The first word of a doubter's line.
#[derive(Clone, Copy)]
pub(crate) enum DoubtWord {
    Doubter,
    Ask,
}

/// The kind of line that this word begins.
#[tactic(auto, unfolding(crate::specs::Reading::doubt_word_of))]
fn doubt_word(word: &[u8]) -> Option<DoubtWord>
    ensures { result ≡ doubt_word_of word.now }
{
    if word == b"doubter".as_slice() {
        Some(DoubtWord::Doubter)
    } else if word == b"ask".as_slice() {
        Some(DoubtWord::Ask)
    } else {
        None
    }
}

/// Takes a doubter's line, to its end.
#[tactic(auto, unfolding(crate::specs::Reading::doubts_at))]
pub(crate) fn read_doubts(words: &mut Words<'_>, nodes: u8) -> Result<DoubtLineAct, WordFault>
    ensures { Reads (λ a. a) result words.new (doubts_at nodes words.old) }
{
    let first = read_doubt_word(words)?;
    read_of_doubts(words, first, nodes)
}

fn read_doubt_word(words: &mut Words<'_>) -> Result<DoubtWord, WordFault>
    ensures { Reads (λ n. n) result words.new (word_at doubt_word_of words.old) }
{
    let (word, unfit) = words.next()?;
    doubt_word(word).ok_or(unfit)
}

/// Takes what stands behind a line's first word.
fn read_of_doubts(
    words: &mut Words<'_>,
    first: DoubtWord,
    nodes: u8,
) -> Result<DoubtLineAct, WordFault>
    ensures { Reads (λ a. a) result words.new (of_doubts_at nodes first words.old) }
{
    match first {
        DoubtWord::Doubter => read_doubter(words, nodes),
        DoubtWord::Ask => read_ask(words, nodes),
    }
}

#[tactic(auto, unfolding(crate::specs::Reading::doubter_at))]
fn read_doubter(words: &mut Words<'_>, nodes: u8) -> Result<DoubtLineAct, WordFault>
    ensures { Reads (λ a. a) result words.new (doubter_at nodes words.old) }
{
    let node = read_node(words, nodes)?;
    words.end()?;
    Ok(DoubtLineAct::Doubter { node })
}

#[tactic(auto, unfolding(crate::specs::Reading::ask_at))]
fn read_ask(words: &mut Words<'_>, nodes: u8) -> Result<DoubtLineAct, WordFault>
    ensures { Reads (λ a. a) result words.new (ask_at nodes words.old) }
{
    let node = read_node(words, nodes)?;
    let prefix = read_prefix(words)?;
    let peer = read_node(words, nodes)?;
    words.end()?;
    Ok(DoubtLineAct::Ask { node, prefix, peer })
}
