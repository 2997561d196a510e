//! The agents of nodes.
use crate::answer::{push_floods, push_numbered, push_refused};
use crate::calls::read_peer;
use crate::fault::LineFault;
use crate::plan::locator_of;
use crate::pool::{push_pool, push_pool_fault, read_image, read_prefix, read_roots};
use grasp_agent::{Agent, Beacon, PrefixAgent, Reader, ReturnFault, WantEnd, WantFault};
use grasp_cbor::OutOfMemory;
use grasp_pool::PoolFault;
use grasp_text::{Words, push_number, push_prefix, push_word};
use grasp_types::{Call, Prefix, Reply};
use std::alloc::Global;

/// The agent of a node.
#[derive(Drop)]
pub enum NodeAgent {
    Prefix(PrefixAgent),
    Beacon(Beacon),
    Reader(Reader),
}

/// Opens the agent that the words tell, where its roots are good.
pub fn open_agent(
    alloc: Global,
    out: &mut String,
    words: &mut Words<'_>,
) -> Result<Option<NodeAgent>, LineFault> {
    let (kind, _) = words.next()?;
    match kind {
        b"prefix" => open_prefix_agent(alloc, out, words),
        b"reopen" => reopen_prefix_agent(alloc, out, words),
        b"beacon" => {
            push_word(out, "open")?;
            Ok(Some(NodeAgent::Beacon(read_beacon(alloc, words)?)))
        }
        b"reader" => {
            push_word(out, "open")?;
            Ok(Some(NodeAgent::Reader(read_reader(alloc, words)?)))
        }
        _ => Err(LineFault::Bad),
    }
}

/// Takes an agent that announces a value.
fn read_beacon(alloc: Global, words: &mut Words<'_>) -> Result<Beacon, LineFault> {
    let number = words.number(255)? as u8;
    let ttl = words.u32()?;
    let loops = words.number(255)? as u8;
    let name = words.text(alloc)?;
    let value = words.value(alloc)?;
    Ok(Beacon::open(alloc, number, name, value, ttl, loops))
}

/// Takes an agent that reads a value.
fn read_reader(alloc: Global, words: &mut Words<'_>) -> Result<Reader, LineFault> {
    let number = words.number(255)? as u8;
    let name = words.text(alloc)?;
    Ok(Reader::open(alloc, number, name))
}

/// Opens an agent that manages prefixes.
fn open_prefix_agent(
    alloc: Global,
    out: &mut String,
    words: &mut Words<'_>,
) -> Result<Option<NodeAgent>, LineFault> {
    let roots = read_roots(alloc, words)?;
    push_opened(out, PrefixAgent::open(alloc, roots.as_slice()))
}

/// Opens an agent that manages prefixes with an image of a pool.
fn reopen_prefix_agent(
    alloc: Global,
    out: &mut String,
    words: &mut Words<'_>,
) -> Result<Option<NodeAgent>, LineFault> {
    let image = read_image(alloc, words)?;
    push_opened(out, PrefixAgent::reopen(alloc, &image))
}

/// Appends whether an agent was opened, and gives it.
fn push_opened(
    out: &mut String,
    opened: Result<PrefixAgent, PoolFault>,
) -> Result<Option<NodeAgent>, LineFault> {
    match opened {
        Ok(agent) => {
            push_word(out, "open")?;
            Ok(Some(NodeAgent::Prefix(agent)))
        }
        Err(fault) => {
            push_pool_fault(out, &fault)?;
            Ok(None)
        }
    }
}

/// The call that an agent makes next, as it prints.
fn next_of<A: Agent>(alloc: Global, agent: &A) -> Result<String, LineFault> {
    let call = agent.next()?;
    Ok(format!(in alloc; "{call:?}")?)
}

/// The number of an agent.
fn number_of<A: Agent>(agent: &A) -> u32 {
    agent.asa()
}

/// Tells an agent the reply to its call.
fn told<A: Agent>(agent: &mut A, reply: &Reply) {
    agent.take(reply);
}

impl NodeAgent {
    /// The call that it makes next, as it prints, where that isn't this one.
    pub fn makes_other(&self, alloc: Global, call: &Call) -> Result<Option<String>, LineFault> {
        let made = match self {
            NodeAgent::Prefix(agent) => next_of(alloc, agent)?,
            NodeAgent::Beacon(agent) => next_of(alloc, agent)?,
            NodeAgent::Reader(agent) => next_of(alloc, agent)?,
        };
        let wanted = format!(in alloc; "{call:?}")?;
        Ok(if made.as_str() == wanted.as_str() {
            None
        } else {
            Some(made)
        })
    }

    /// Its number at the node, or 0.
    pub fn asa(&self) -> u32 {
        match self {
            NodeAgent::Prefix(agent) => number_of(agent),
            NodeAgent::Beacon(agent) => number_of(agent),
            NodeAgent::Reader(agent) => number_of(agent),
        }
    }

    /// Takes the reply to its call.
    pub fn take(&mut self, reply: Reply) {
        match self {
            NodeAgent::Prefix(agent) => told(agent, &reply),
            NodeAgent::Beacon(agent) => told(agent, &reply),
            NodeAgent::Reader(agent) => {
                told(agent, &reply);
                agent.keep(reply);
            }
        }
    }

    /// Wants a prefix, and appends whether the want is taken.
    pub fn want(&mut self, out: &mut String, words: &mut Words<'_>) -> Result<(), LineFault> {
        let NodeAgent::Prefix(agent) = self else {
            return Err(LineFault::Bad);
        };
        let length = words.number(128)? as u8;
        let longest = words.number(128)? as u8;
        let peer = locator_of(words.number(255)? as u8);
        if length == 0 || length > longest {
            return Err(LineFault::Bad);
        }
        Ok(push_want(out, agent.want(length, longest, peer))?)
    }

    /// Gives a prefix back, and appends whether the return is taken.
    pub fn hand_back(
        &mut self,
        alloc: Global,
        out: &mut String,
        words: &mut Words<'_>,
    ) -> Result<(), LineFault> {
        let NodeAgent::Prefix(agent) = self else {
            return Err(LineFault::Bad);
        };
        let prefix = read_prefix(words)?;
        let peer = read_peer(alloc, words)?;
        Ok(push_return(alloc, out, &agent.hand_back(prefix, peer))?)
    }

    /// Settles the prefix that comes next, where it is doubtful.
    pub fn settle(&mut self, out: &mut String, words: &mut Words<'_>) -> Result<(), LineFault> {
        let NodeAgent::Prefix(agent) = self else {
            return Err(LineFault::Bad);
        };
        let prefix = read_prefix(words)?;
        if !agent.pool().is_doubtful(prefix) {
            return Ok(push_word(out, "undoubted")?);
        }
        agent.settle(prefix);
        Ok(push_word(out, "done")?)
    }

    /// Appends what it hasn't done yet.
    pub fn tell_undone(&self, alloc: Global, out: &mut String) -> Result<(), LineFault> {
        let NodeAgent::Prefix(agent) = self else {
            return Err(LineFault::Bad);
        };
        push_undone(alloc, out, "accepting", agent.accepting())?;
        push_undone(alloc, out, "offering", agent.offering())?;
        push_undone(alloc, out, "unsent", agent.unsent())?;
        Ok(())
    }

    /// Appends what can be read of it.
    pub fn tell(&self, alloc: Global, out: &mut String) -> Result<(), OutOfMemory> {
        match self {
            NodeAgent::Prefix(agent) => tell_prefix_agent(alloc, out, agent),
            NodeAgent::Beacon(_) => push_word(out, "beacon"),
            NodeAgent::Reader(agent) => push_floods(alloc, out, agent.reads().slice()),
        }
    }
}

/// Appends whether a want is taken.
fn push_want(out: &mut String, wanted: Result<(), WantFault>) -> Result<(), OutOfMemory> {
    match wanted {
        Ok(()) => push_word(out, "ok"),
        Err(WantFault::Busy { length, longest }) => {
            push_numbered(out, "busy", u64::from(length))?;
            push_number(out, u64::from(longest))
        }
        Err(WantFault::Full) => push_word(out, "full"),
    }
}

/// Appends whether a return is taken.
fn push_return(
    alloc: Global,
    out: &mut String,
    returned: &Result<(), ReturnFault>,
) -> Result<(), OutOfMemory> {
    match returned {
        Ok(()) => push_word(out, "ok"),
        Err(ReturnFault::Busy { prefix }) => {
            push_word(out, "busy")?;
            push_prefix(alloc, out, *prefix)
        }
        Err(ReturnFault::NotFree) => push_word(out, "notfree"),
        Err(ReturnFault::Full) => push_word(out, "full"),
    }
}

/// Appends a word and the prefix, where there is one.
fn push_undone(
    alloc: Global,
    out: &mut String,
    word: &str,
    prefix: Option<Prefix>,
) -> Result<(), OutOfMemory> {
    push_word(out, word)?;
    match prefix {
        Some(prefix) => push_prefix(alloc, out, prefix),
        None => Ok(()),
    }
}

/// Appends whether it wants a prefix, how the last want ended, and its pool.
fn tell_prefix_agent(
    alloc: Global,
    out: &mut String,
    agent: &PrefixAgent,
) -> Result<(), OutOfMemory> {
    push_word(
        out,
        if agent.wanting() {
            "wanting"
        } else {
            "content"
        },
    )?;
    if let Some(end) = agent.last() {
        push_end(alloc, out, end)?;
    }
    push_pool(alloc, out, agent.pool())
}

/// Appends how a want ended.
fn push_end(alloc: Global, out: &mut String, end: WantEnd) -> Result<(), OutOfMemory> {
    match end {
        WantEnd::Held(prefix) => {
            push_word(out, "held")?;
            push_prefix(alloc, out, prefix)
        }
        WantEnd::Refused(refused) => push_refused(out, refused),
        WantEnd::Declined => push_word(out, "declined"),
        WantEnd::TimedOut => push_word(out, "timedout"),
        WantEnd::Broken => push_word(out, "broken"),
        WantEnd::OutOfMemory => push_word(out, "outofmemory"),
        WantEnd::Invalid => push_word(out, "invalid"),
        WantEnd::Empty => push_word(out, "empty"),
    }
}
