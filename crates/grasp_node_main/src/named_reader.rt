//! A reader whose objective can be told.

ghost use Rattle.std.specs.Prelude.{◌≡◌, IfOk};
ghost use Rattle.grasp_agent.specs.Announcing.{first_reader, reader_call, after_keep};
ghost use Rattle.grasp_types.specs.declared.traffic.Input.TheVariants as input;

use grasp_agent::{Agent, Reader};
use grasp_cbor::{Chars, OutOfMemory};
use grasp_types::{FloodReads, Input, Reply};
use std::alloc::Global;
use std::marker::Model;

/// An agent that reads what floods tell of an objective, and the objective's name.
#[derive(Drop)]
pub struct NamedReader {
    name: Chars,
    reader: Reader,
}

impl Model for NamedReader {
    ghost use Rattle.std.specs.Coded.{codes};
    ghost use Rattle.std.specs.Prelude.{◌≡◌};
    ghost use Rattle.grasp_types.specs.contracts.flood.FloodRead as read;
    ghost use Rattle.grasp_agent.specs.Announcing.{ReaderState};

    ghost Value = { ReaderState };

    ghost coded = { Prim.hlevel (codes, read.the_row.coded) };

    ghost view = { λ r. r.reader };

    ghost invariant = { λ r. r.name ≡ r.reader.name };
}

impl NamedReader {
    /// A reader of this number and objective that has made no call.
    pub fn open(alloc: Global, number: u8, name: Chars) -> Result<NamedReader, OutOfMemory>
        ensures { IfOk result (λ r. r ≡ first_reader number name) }
    {
        let kept = name.copy()?;
        Ok(NamedReader {
            name: kept,
            reader: Reader::open(alloc, number, name),
        })
    }

    /// The name of the objective that it reads.
    pub fn name(&self) -> &Chars
        ensures { result.now ≡ self.now.name }
    {
        &self.name
    }

    /// What floods told in the last reply that was kept.
    pub fn reads(&self) -> &FloodReads
        ensures { result.now ≡ self.now.reads }
    {
        self.reader.reads()
    }

    /// The reader's next call.
    pub fn call(&self) -> Result<Input, OutOfMemory>
        ensures { IfOk result (λ i. i ≡ input.Api self.now.asa (reader_call self.now)) }
    {
        Ok(Input::Api {
            asa: self.reader.asa(),
            call: self.reader.next()?,
        })
    }

    /// Takes the reply to that call, and keeps what floods told.
    #[tactic(auto, using(crate::proofs::Reading::name_stays))]
    pub fn keep(&mut self, reply: Reply)
        ensures { self.new ≡ after_keep self.old reply }
    {
        self.reader.keep(reply);
    }
}
