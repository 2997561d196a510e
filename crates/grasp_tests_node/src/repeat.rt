//! Lines that are run several times, and what stands in braces.
use crate::fault::LineFault;
use std::alloc::Global;

/// One turn of a block, counted from 0, and its word.
#[derive(Clone, Copy)]
pub struct Turn<'a> {
    /// Its number, from 0 on.
    pub index: u64,
    /// Its word, or none.
    pub word: &'a str,
}

/// A line of the table, with its number.
#[derive(Drop)]
pub struct Line {
    /// Its number in the table, from 1 on.
    pub number: u64,
    /// What it says.
    pub text: String,
}

/// Lines that are run so often.
#[derive(Drop)]
pub struct Block {
    /// How often they are run.
    pub count: u64,
    /// The words of the turns, in order.
    pub words: Vec<String>,
    /// The lines.
    pub lines: Vec<Line>,
}

impl Block {
    /// A block with this head, and with no lines.
    pub fn of(alloc: Global, head: &str) -> Result<Block, LineFault> {
        let (count, rest) = match head.split_once(' ') {
            Some((count, rest)) => (count, rest),
            None => (head, ""),
        };
        let Ok(count) = count.parse::<u64>() else {
            return Err(LineFault::Bad);
        };
        let mut words = Vec::new(alloc);
        for word in rest.split(' ') {
            words.push(String::from_str(alloc, word)?)?;
        }
        Ok(Block {
            count,
            words,
            lines: Vec::new(alloc),
        })
    }

    /// Adds a line.
    pub fn add(&mut self, alloc: Global, number: u64, line: &str) -> Result<(), LineFault> {
        let text = String::from_str(alloc, line)?;
        self.lines.push(Line { number, text })?;
        Ok(())
    }

    /// The turn of this number.
    pub fn turn(&self, index: u64) -> Turn<'_> {
        let word = match self.words.get(index as usize) {
            Some(word) => word.as_str(),
            None => "",
        };
        Turn { index, word }
    }
}

/// The line as it is in this turn.
pub fn expanded(alloc: Global, line: &str, turn: &Turn<'_>) -> Result<String, LineFault> {
    let mut out = String::new(alloc);
    let mut is_first = true;
    for piece in line.split('{') {
        if is_first {
            out.push_str(piece)?;
        } else {
            push_piece(alloc, &mut out, piece, turn)?;
        }
        is_first = false;
    }
    Ok(out)
}

/// Appends what a name in braces stands for, and what is behind the brace.
fn push_piece(
    alloc: Global,
    out: &mut String,
    piece: &str,
    turn: &Turn<'_>,
) -> Result<(), LineFault> {
    let Some((name, rest)) = piece.split_once('}') else {
        return Err(LineFault::Bad);
    };
    match name {
        "i" => push_decimal(alloc, out, turn.index)?,
        "next" => push_decimal(alloc, out, turn.index.saturating_add(1))?,
        "even" => push_decimal(alloc, out, turn.index.saturating_mul(2))?,
        "odd" => push_decimal(alloc, out, turn.index.saturating_mul(2).saturating_add(1))?,
        "word" => out.push_str(turn.word)?,
        _ => push_often(out, name)?,
    }
    out.push_str(rest)?;
    Ok(())
}

/// Appends a number.
fn push_decimal(alloc: Global, out: &mut String, number: u64) -> Result<(), LineFault> {
    let text = format!(in alloc; "{number}")?;
    out.push_str(text.as_str())?;
    Ok(())
}

/// Appends a word so often: a count, an asterisk and the word.
fn push_often(out: &mut String, name: &str) -> Result<(), LineFault> {
    let Some((count, word)) = name.split_once('*') else {
        return Err(LineFault::Bad);
    };
    let Ok(count) = count.parse::<u64>() else {
        return Err(LineFault::Bad);
    };
    for _ in 0..count {
        out.push_str(word)?;
    }
    Ok(())
}
