//! An agent that reads what floods tell of an objective.

ghost use Rattle.std.specs.Prelude.{◌≡◌, IfOk};
ghost use Rattle.grasp_agent.specs.Announcing.{first_reader, reader_call, registered_reader, after_reader, after_keep, reads_in};
ghost use Rattle.grasp_agent.specs.Replies.{answer_in, asa_in};

use crate::agent::Agent;
use crate::names::numbered;
use crate::replies::number;
use grasp_cbor::{Chars, OutOfMemory};
use grasp_types::{ApiAnswer, Call, FloodReads, Reply};
use std::alloc::Global;
use std::marker::Model;

/// An agent that reads what floods tell of an objective, again and again (RFC 8990, section 2.5.6.1).
#[derive(Drop)]
pub struct Reader {
    alloc: Global,
    number: u8,
    name: Chars,
    asa: u32,
    registered: bool,
    reads: FloodReads,
}

impl Model for Reader {
    ghost use Rattle.std.specs.Coded.{codes};
    ghost use Rattle.grasp_types.specs.contracts.flood.FloodRead as read;
    ghost use Rattle.grasp_agent.specs.Announcing.{ReaderState};

    ghost Value = { ReaderState };

    ghost coded = { Prim.hlevel (codes, read.the_row.coded) };

    ghost view = { λ a. record { number = a.number; name = a.name; asa = a.asa; registered = a.registered; reads = a.reads } };
}

impl Reader {
    /// A reader of this number and objective that has made no call.
    pub fn open(alloc: Global, number: u8, name: Chars) -> Reader
        ensures { result ≡ first_reader number name }
    {
        Reader {
            alloc,
            number,
            name,
            asa: 0,
            registered: false,
            reads: FloodReads::new(alloc),
        }
    }

    /// What floods told in the last reply that was kept.
    pub fn reads(&self) -> &FloodReads
        ensures { result.now ≡ self.now.reads }
    {
        &self.reads
    }

    /// Takes the reply to the call that was next, and keeps what floods told. It takes no memory.
    #[tactic(auto, unfolding(crate::specs::Announcing::after_keep))]
    pub fn keep(&mut self, reply: Reply)
        ensures { self.new ≡ after_keep self.old reply }
    {
        if !self.registered {
            self.register(&reply);
        } else if let Some(reads) = floods(reply) {
            self.reads = reads;
        }
    }

    /// Takes the reply to its registration.
    fn register(&mut self, reply: &Reply)
        ensures { self.new ≡ registered_reader self.old (asa_in (answer_in reply.now)) }
    {
        if let Some(number) = number(reply) {
            self.asa = number;
            self.registered = true;
        }
    }
}

impl Agent for Reader {
    ghost next_call = { reader_call };

    ghost after_reply = { after_reader };

    ghost number = { λ reader. reader.asa };

    #[tactic(auto, unfolding(crate::specs::Announcing::reader_call, crate::specs::Announcing::reader_name))]
    fn next(&self) -> Result<Call, OutOfMemory>
        ensures { IfOk result (λ call. call ≡ reader_call self.now) }
    {
        if self.registered {
            return Ok(Call::GetFlood {
                name: self.name.copy()?,
            });
        }
        Ok(Call::RegisterAsa {
            name: numbered(self.alloc, "reader ", self.number)?,
        })
    }

    #[tactic(auto, unfolding(crate::specs::Announcing::after_reader))]
    fn take(&mut self, reply: &Reply)
        ensures { self.new ≡ after_reader self.old reply.now }
    {
        if !self.registered {
            self.register(reply);
        }
    }

    fn asa(&self) -> u32
        ensures { result ≡ self.now.asa }
    {
        self.asa
    }
}

/// What floods told.
fn floods(reply: Reply) -> Option<FloodReads>
    ensures { result ≡ reads_in (answer_in reply) }
{
    match reply {
        Reply::Api(ApiAnswer::Floods(reads)) => Some(reads),
        _ => None,
    }
}
