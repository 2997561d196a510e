//! One row of the table.
use crate::calls::read_call;
use crate::fault::LineFault;
use crate::format::{ask_item, ask_line, ask_message, ask_stream};
use crate::input::read_input;
use crate::pool::ask_pool;
use crate::row_node::RowNode;
use grasp_pool::Pool;
use grasp_text::{Words, number, push_word};
use std::alloc::Global;

/// The most bytes of a message where a row doesn't say it.
const SIZE: u32 = 2048;

/// A row that is being run: its links, its nodes and its pool.
#[derive(Drop)]
pub struct Row {
    alloc: Global,
    name: String,
    limit: u32,
    links: Vec<Vec<u8>>,
    seats: Vec<RowNode>,
    pool: Option<Pool>,
    /// Something differed.
    pub is_wrong: bool,
}

impl Row {
    /// A row of this name.
    pub fn of(alloc: Global, name: &str) -> Result<Row, LineFault> {
        Ok(Row {
            alloc,
            name: String::from_str(alloc, name)?,
            limit: SIZE,
            links: Vec::new(alloc),
            seats: Vec::new(alloc),
            pool: None,
            is_wrong: false,
        })
    }

    /// Takes a line of the row: what differs, where anything does.
    pub fn take_line(&mut self, number: u64, line: &str) -> Result<Option<String>, LineFault> {
        if let Some(members) = line.strip_prefix("link ") {
            self.add_link(members)?;
            return Ok(None);
        }
        if let Some(limit) = line.strip_prefix("size ") {
            self.set_size(limit)?;
            return Ok(None);
        }
        let Some((question, wanted)) = line.split_once(" = ") else {
            return Err(LineFault::Bad);
        };
        let mut answer = String::new(self.alloc);
        self.ask(&mut answer, question)?;
        let is = answer.as_str().trim_ascii_start();
        if is == wanted {
            return Ok(None);
        }
        self.is_wrong = true;
        let name = self.name.as_str();
        Ok(Some(format!(in self.alloc;
            "{name}, line {number}: {question} = {is}, wanted is {wanted}"
        )?))
    }

    /// Adds a link with these members.
    fn add_link(&mut self, members: &str) -> Result<(), LineFault> {
        if !self.seats.is_empty() {
            return Err(LineFault::Bad);
        }
        let mut link = Vec::new(self.alloc);
        for member in members.split(' ') {
            match member.parse::<u8>() {
                Ok(member) => link.push(member)?,
                Err(_) => return Err(LineFault::Bad),
            }
        }
        self.links.push(link)?;
        Ok(())
    }

    /// Sets the most bytes of a message.
    fn set_size(&mut self, limit: &str) -> Result<(), LineFault> {
        match limit.parse::<u32>() {
            Ok(limit) if self.seats.is_empty() => {
                self.limit = limit;
                Ok(())
            }
            _ => Err(LineFault::Bad),
        }
    }

    /// Appends the words of the answer to what stands before it.
    fn ask(&mut self, out: &mut String, question: &str) -> Result<(), LineFault> {
        match question.split_once(' ') {
            Some(("line", rest)) => ask_line(self.alloc, out, rest),
            Some((kind @ ("pool" | "item" | "message" | "stream"), rest)) => {
                self.ask_alone(out, kind, rest)
            }
            _ => self.ask_node(out, question),
        }
    }

    /// Appends the answer of the row's pool, or what bytes are.
    fn ask_alone(&mut self, out: &mut String, kind: &str, rest: &str) -> Result<(), LineFault> {
        let alloc = self.alloc;
        let mut words = Words::of(rest.as_bytes());
        match kind {
            "pool" => ask_pool(alloc, out, &mut words, &mut self.pool)?,
            "item" => ask_item(alloc, out, &mut words)?,
            "message" => ask_message(alloc, out, &mut words)?,
            _ => ask_stream(alloc, out, &mut words)?,
        }
        words.end()?;
        Ok(())
    }

    /// Appends the answer of a node.
    fn ask_node(&mut self, out: &mut String, question: &str) -> Result<(), LineFault> {
        let alloc = self.alloc;
        let mut words = Words::of(question.as_bytes());
        let node = words.number(255)? as u8;
        if words.is_next(b"opens") {
            words.exactly(b"opens")?;
            words.end()?;
            return self.tell_opens(out, node);
        }
        ask_seat(alloc, out, &mut words, self.seat(node)?)?;
        words.end()?;
        Ok(())
    }

    /// Appends whether the node of this number can be opened.
    fn tell_opens(&self, out: &mut String, node: u8) -> Result<(), LineFault> {
        let opens = RowNode::opens(self.alloc, node, self.links.as_slice(), self.limit)?;
        push_word(out, if opens { "yes" } else { "no" })?;
        Ok(())
    }

    /// The node of this number, to which nothing has happened where it is used first.
    fn seat(&mut self, node: u8) -> Result<&mut RowNode, LineFault> {
        let place = match self.place_of(node) {
            Some(place) => place,
            None => {
                let seat = RowNode::of(self.alloc, node, self.links.as_slice(), self.limit)?;
                self.seats.push(seat)?;
                self.seats.len() - 1
            }
        };
        self.seats.get_mut(place).ok_or(LineFault::Bad)
    }

    /// The place of the node of this number.
    fn place_of(&self, node: u8) -> Option<usize> {
        self.seats.iter().position(|seat| seat.node == node)
    }
}

/// Appends the answer of a node that is there.
fn ask_seat(
    alloc: Global,
    out: &mut String,
    words: &mut Words<'_>,
    seat: &mut RowNode,
) -> Result<(), LineFault> {
    let (word, _) = words.next()?;
    match word {
        b"agent" => seat.open_agent(alloc, out, words),
        b"want" => seat.want(out, words),
        b"return" => seat.hand_back(alloc, out, words),
        b"settle" => seat.settle(out, words),
        b"undone" => seat.tell_undone(alloc, out),
        b"tells" => seat.tell_agent(alloc, out),
        _ => match number(word, u64::MAX) {
            Some(now) => step(alloc, out, words, seat, now),
            None => tell(out, words, seat, word),
        },
    }
}

/// Appends what can be read of a node.
fn tell(
    out: &mut String,
    words: &mut Words<'_>,
    seat: &RowNode,
    what: &[u8],
) -> Result<(), LineFault> {
    match what {
        b"kept" => seat.tell_kept(out),
        b"reading" => seat.tell_reading(out),
        b"stream" => seat.tell_stream(out, words.number(u64::MAX)?),
        b"state" => seat.tell_state(out, words.number(u64::MAX)?),
        _ => Err(LineFault::Bad),
    }
}

/// Runs a step of a node: an input, or the call that its agent makes next.
fn step(
    alloc: Global,
    out: &mut String,
    words: &mut Words<'_>,
    seat: &mut RowNode,
    now: u64,
) -> Result<(), LineFault> {
    if words.is_next(b"next") {
        words.exactly(b"next")?;
        let call = read_call(alloc, words, seat)?;
        return seat.next(alloc, out, now, call);
    }
    let input = read_input(alloc, words, seat)?;
    seat.step(alloc, out, now, input)
}
