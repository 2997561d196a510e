//! A node of a row.
use crate::agent::{NodeAgent, open_agent};
use crate::answer::answer_text;
use crate::fault::LineFault;
use crate::plan::plan_of;
use grasp_core::{NodeCore, PlanFault};
use grasp_text::{Words, push_number, push_word};
use grasp_types::{ApiAnswer, Call, Handle, Input, Reply};
use std::alloc::Global;

/// A node, the handles that it gave, and an agent of it.
#[derive(Drop)]
pub struct RowNode {
    /// Its number.
    pub node: u8,
    core: NodeCore,
    handles: Vec<Handle>,
    agent: Option<NodeAgent>,
}

impl RowNode {
    /// A node to which nothing has happened.
    pub fn of(
        alloc: Global,
        node: u8,
        links: &[Vec<u8>],
        limit: u32,
    ) -> Result<RowNode, LineFault> {
        let plan = plan_of(alloc, node, links, limit)?;
        Ok(RowNode {
            node,
            core: NodeCore::open(alloc, plan)?,
            handles: Vec::new(alloc),
            agent: None,
        })
    }

    /// Whether such a node can be opened.
    pub fn opens(
        alloc: Global,
        node: u8,
        links: &[Vec<u8>],
        limit: u32,
    ) -> Result<bool, LineFault> {
        let plan = plan_of(alloc, node, links, limit)?;
        match NodeCore::open(alloc, plan) {
            Ok(_) => Ok(true),
            Err(PlanFault::BadPlan) => Ok(false),
            Err(PlanFault::OutOfMemory) => Err(LineFault::OutOfMemory),
        }
    }

    /// The handle of this number that the node gave, or one that it didn't give.
    pub fn handle(&self, number: u64) -> Handle {
        for handle in self.handles.as_slice() {
            if handle.number == number {
                return *handle;
            }
        }
        Handle { place: 0, number }
    }

    /// Runs a step, and appends the words of its answer.
    pub fn step(
        &mut self,
        alloc: Global,
        out: &mut String,
        now: u64,
        input: Input,
    ) -> Result<(), LineFault> {
        self.answer(alloc, out, now, input)?;
        Ok(())
    }

    /// Runs a step, appends the words of its answer, and gives it.
    fn answer(
        &mut self,
        alloc: Global,
        out: &mut String,
        now: u64,
        input: Input,
    ) -> Result<Reply, LineFault> {
        let reply = self.core.step(now, input);
        if let Some(handle) = handle_in(&reply) {
            self.handles.push(handle)?;
        }
        answer_text(alloc, out, &reply)?;
        Ok(reply)
    }

    /// Opens the agent that the words tell.
    pub fn open_agent(
        &mut self,
        alloc: Global,
        out: &mut String,
        words: &mut Words<'_>,
    ) -> Result<(), LineFault> {
        self.agent = open_agent(alloc, out, words)?;
        Ok(())
    }

    /// Lets the agent want a prefix, and appends whether the want is taken.
    pub fn want(&mut self, out: &mut String, words: &mut Words<'_>) -> Result<(), LineFault> {
        self.agent()?.want(out, words)
    }

    /// Lets the agent give a prefix back, and appends whether the return is taken.
    pub fn hand_back(
        &mut self,
        alloc: Global,
        out: &mut String,
        words: &mut Words<'_>,
    ) -> Result<(), LineFault> {
        self.agent()?.hand_back(alloc, out, words)
    }

    /// Lets the agent settle a prefix, and appends whether it was doubtful.
    pub fn settle(&mut self, out: &mut String, words: &mut Words<'_>) -> Result<(), LineFault> {
        self.agent()?.settle(out, words)
    }

    /// Appends what the agent hasn't done yet.
    pub fn tell_undone(&mut self, alloc: Global, out: &mut String) -> Result<(), LineFault> {
        self.agent()?.tell_undone(alloc, out)
    }

    /// Appends what can be read of the agent.
    pub fn tell_agent(&mut self, alloc: Global, out: &mut String) -> Result<(), LineFault> {
        self.agent()?.tell(alloc, out)?;
        Ok(())
    }

    /// The agent, where there is one.
    fn agent(&mut self) -> Result<&mut NodeAgent, LineFault> {
        self.agent.as_mut().ok_or(LineFault::Bad)
    }

    /// Makes the agent's next call, which must be this one, and appends the words of its answer.
    pub fn next(
        &mut self,
        alloc: Global,
        out: &mut String,
        now: u64,
        call: Call,
    ) -> Result<(), LineFault> {
        if self.makes(alloc, out, &call)? {
            self.make(alloc, out, now, call)
        } else {
            Ok(())
        }
    }

    /// Whether the agent's next call is this one. Where it is another, that one is appended.
    fn makes(&mut self, alloc: Global, out: &mut String, call: &Call) -> Result<bool, LineFault> {
        match self.agent()?.makes_other(alloc, call)? {
            Some(made) => {
                push_other(out, made.as_str())?;
                Ok(false)
            }
            None => Ok(true),
        }
    }

    /// Makes a call of the agent, and tells it the answer.
    fn make(
        &mut self,
        alloc: Global,
        out: &mut String,
        now: u64,
        call: Call,
    ) -> Result<(), LineFault> {
        let asa = self.agent()?.asa();
        let reply = self.answer(alloc, out, now, Input::Api { asa, call })?;
        self.agent()?.take(reply);
        Ok(())
    }

    /// Appends how many bytes the node keeps.
    pub fn tell_kept(&self, out: &mut String) -> Result<(), LineFault> {
        push_number(out, self.core.kept())?;
        Ok(())
    }

    /// Appends the largest reading.
    pub fn tell_reading(&self, out: &mut String) -> Result<(), LineFault> {
        push_number(out, self.core.now())?;
        Ok(())
    }

    /// Appends the stream of a session.
    pub fn tell_stream(&self, out: &mut String, handle: u64) -> Result<(), LineFault> {
        match self.core.stream(self.handle(handle)) {
            Some(stream) => push_number(out, stream)?,
            None => push_word(out, "none")?,
        }
        Ok(())
    }

    /// Appends how the session on a stream stands.
    pub fn tell_state(&self, out: &mut String, stream: u64) -> Result<(), LineFault> {
        match self.core.state(stream) {
            Some((session, has_outcome)) => {
                push_number(out, u64::from(session))?;
                push_word(out, if has_outcome { "ends" } else { "goes" })?;
            }
            None => push_word(out, "none")?,
        }
        Ok(())
    }
}

/// The handle that a reply gives.
fn handle_in(reply: &Reply) -> Option<Handle> {
    match reply {
        Reply::Api(ApiAnswer::Started(handle)) => Some(*handle),
        Reply::Api(ApiAnswer::Incoming { handle, .. }) => Some(*handle),
        _ => None,
    }
}

/// Appends a call that an agent makes in place of the one that was awaited.
fn push_other(out: &mut String, made: &str) -> Result<(), LineFault> {
    push_word(out, "makes")?;
    push_word(out, made)?;
    Ok(())
}
