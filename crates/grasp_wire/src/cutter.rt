//! Cutting messages from a stream of bytes (RFC 8990, section 2.8).

ghost use Rattle.std.specs.Prelude.{true, false, ◌≡◌, ◌+◌, ◌-◌, ◌<◌, ◌≤◌, ◌^◌, [], ◌++◌, length, take, drop, vec_len, None, Some, Ok, Err, IsSome};
ghost use Rattle.std.specs.Prelude.{OnOk, OnErr, IfOk, IfSome};
ghost use Rattle.grasp_cbor.specs.DataItem.{DataItem};
ghost use Rattle.grasp_cbor.specs.Ending.{IsWhole};
ghost use Rattle.grasp_wire.specs.ReadOn.{IsReadTo};

use crate::CutFault;
use crate::direct::direct_message;
use crate::read_on::{cut_fault, message_of_bytes, read_rest, taken_with};
use grasp_cbor::{ItemReader, OutOfMemory, Steps};
use grasp_types::Message;
use std::alloc::Global;
use std::marker::Brand;
use std::sync::ledger::{Blank, Ledger};

/// Cuts messages from a stream that comes in pieces. A message whose bytes are all there, in the form that most senders
/// write, is read straight from them. Else the end of an item is found by taking each byte once; the message is then made of
/// the item's bytes.
#[derive(Drop)]
pub struct Cutter {
    alloc: Global,
    limit: u32,
    // How many bytes were fed.
    fed: u64,
    // How many bytes were taken.
    taken: u64,
    // The bytes that were fed last. Those from `start` on belong to no message that was given, and those before `seen`
    // were taken; where `whole` is set, these are an item.
    held: Vec<u8>,
    start: usize,
    seen: usize,
    whole: bool,
    reader: ItemReader,
    fault: Option<CutFault>,
    ghost some: { 0 < limit },
    ghost ordered: { start ≤ seen },
    ghost within: { seen ≤ vec_len held },
    ghost counted: { vec_len held ≤ fed },
    ghost below: { taken ≤ fed },
    ghost so_far: { fault ≡ None → taken + vec_len held ≡ fed + seen },
    ghost let_go: { IsSome fault → vec_len held ≡ 0 },
    ghost read: { ∥ IsReadTo fault whole reader limit (take (seen - start) (drop start held.items)) ∥₁ },
}

impl Cutter {
    ghost use Rattle.grasp_wire.specs.Cutter.{Past, no_past, after_feed, after_next, AnswersNext, Takes, CountsRest};
    ghost use Rattle.grasp_wire.specs.Wire.{IsWireForm};
    ghost use Rattle.grasp_wire.specs.Stands.{Stands, IsSame, AnswersFound, AnswersItem, TakesFound, cut_limit, fed_count, taken_count};
    ghost use Rattle.grasp_wire.specs.Stands.{waiting_count, rest_of, before_of, fault_in};

    /// Before the first byte of a stream whose messages have at most `limit` bytes. It takes no memory.
    pub fn new(alloc: Global, limit: u32) -> Cutter
        requires { 0 < limit }
        ensures stands { Stands result no_past }
        ensures limit { cut_limit result ≡ limit }
        ensures count { fed_count result ≡ 0 }
        ensures taken { taken_count result ≡ 0 }
    {
        Cutter {
            alloc,
            limit,
            fed: 0,
            taken: 0,
            held: Vec::new(alloc),
            start: 0,
            seen: 0,
            whole: false,
            reader: ItemReader::new(limit as u64),
            fault: None,
        }
    }

    /// How many bytes were fed.
    pub fn fed(&self) -> u64
        ensures past { (past : Past) → Stands self.now past → result ≡ length past.fed }
        ensures count { result ≡ fed_count self.now }
    {
        self.fed
    }

    /// How many bytes were taken: never more than were fed.
    pub fn taken(&self) -> u64
        ensures count { result ≡ taken_count self.now }
        ensures below { result ≤ fed_count self.now }
    {
        self.taken
    }

    /// Takes the next piece of the stream. After an `Err` the cutter stands as before. After a fault that lasts it
    /// only counts.
    pub fn feed(&mut self, piece: &[u8]) -> Result<(), OutOfMemory>
        requires { fed_count self.old + length piece.now < 2 ^ 64 }
        ensures ok { (past : Past) → Stands self.old past → OnOk result (Stands self.new (after_feed past piece.now)) }
        ensures err { (past : Past) → Stands self.old past → OnErr result (Stands self.new past) }
        ensures counts { (past : Past) → Stands self.old past → IsSome past.fault → result ≡ Ok tt }
        ensures count { OnOk result (fed_count self.new ≡ fed_count self.old + length piece.now) }
        ensures same_count { OnErr result (fed_count self.new ≡ fed_count self.old) }
        ensures limit { cut_limit self.new ≡ cut_limit self.old }
        ensures taken { taken_count self.new ≡ taken_count self.old }
    {
        if self.fault.is_some() {
            self.fed += piece.len() as u64;
            return Ok(());
        }
        self.compact();
        self.append(piece)
    }

    /// The next message of the stream, or `None` while it waits for more bytes. It answers want of memory for a whole
    /// item alone, and after `OutOfMemory` it can be asked again. Every other fault lasts, and lets go of the bytes.
    pub fn next(&mut self) -> Result<Option<Message>, CutFault>
        ensures answers { (past : Past) → Stands self.old past → AnswersNext (cut_limit self.old) past past.fault result }
        ensures then { (past : Past) → Stands self.old past → Stands self.new (after_next past result) }
        ensures less { IfOk result (λ found. IfSome found (λ message. waiting_count self.new < waiting_count self.old)) }
        ensures short { result ≡ Ok None → waiting_count self.new < cut_limit self.new }
        ensures taken { (past : Past) → Stands self.old past
            → Takes (cut_limit self.old) past past.fault result (taken_count self.old) (taken_count self.new) }
        ensures rises { taken_count self.old ≤ taken_count self.new }
        ensures count { fed_count self.new ≡ fed_count self.old }
        ensures limit { cut_limit self.new ≡ cut_limit self.old }
    {
        self.next_in::<Brand>(Blank::new(1))
    }

    /// As `next`, in as many steps as bytes are taken.
    pub fn next_counted<L: Ledger>(
        &mut self,
        steps: &mut Steps<L>,
    ) -> Result<Option<Message>, CutFault>
        ensures answers { (past : Past) → Stands self.old past → AnswersNext (cut_limit self.old) past past.fault result }
        ensures then { (past : Past) → Stands self.old past → Stands self.new (after_next past result) }
        ensures less { IfOk result (λ found. IfSome found (λ message. waiting_count self.new < waiting_count self.old)) }
        ensures short { result ≡ Ok None → waiting_count self.new < cut_limit self.new }
        ensures taken { (past : Past) → Stands self.old past
            → Takes (cut_limit self.old) past past.fault result (taken_count self.old) (taken_count self.new) }
        ensures rises { taken_count self.old ≤ taken_count self.new }
        ensures count { fed_count self.new ≡ fed_count self.old }
        ensures limit { cut_limit self.new ≡ cut_limit self.old }
        ensures steps { steps.new + taken_count self.old ≡ steps.old + taken_count self.new }
    {
        if let Some(fault) = self.fault {
            return Err(fault);
        }
        if let Some((message, used)) = self.direct() {
            self.take_direct(used, steps);
            return Ok(Some(message));
        }
        match self.find(steps) {
            Ok(Some(used)) => match self.take_message(used) {
                Ok(message) => Ok(Some(message)),
                Err(fault) => Err(fault),
            },
            Ok(None) => Ok(None),
            Err(fault) => Err(fault),
        }
    }

    /// As `next`, with steps in a ledger of their own.
    fn next_in<L: Ledger>(&mut self, blank: Blank) -> Result<Option<Message>, CutFault>
        requires name { blank.name ≡ L.name }
        requires parts { blank.parts ≡ L.parts }
        requires some { 0 < blank.parts }
        ensures answers { (past : Past) → Stands self.old past → AnswersNext (cut_limit self.old) past past.fault result }
        ensures then { (past : Past) → Stands self.old past → Stands self.new (after_next past result) }
        ensures less { IfOk result (λ found. IfSome found (λ message. waiting_count self.new < waiting_count self.old)) }
        ensures short { result ≡ Ok None → waiting_count self.new < cut_limit self.new }
        ensures taken { (past : Past) → Stands self.old past
            → Takes (cut_limit self.old) past past.fault result (taken_count self.old) (taken_count self.new) }
        ensures rises { taken_count self.old ≤ taken_count self.new }
        ensures count { fed_count self.new ≡ fed_count self.old }
        ensures limit { cut_limit self.new ≡ cut_limit self.old }
    {
        let mut steps = Steps::<L>::new(blank);
        self.next_counted(&mut steps)
    }

    /// How many bytes were fed behind the last message that was given; none after a fault that lasts.
    pub fn waiting(&self) -> u64
        ensures counts { (past : Past) → Stands self.now past → CountsRest (cut_limit self.now) past past.fault result }
        ensures count { result ≡ waiting_count self.now }
    {
        (self.held.len() - self.start) as u64
    }

    /// How many bytes stand before those that are kept.
    fn before(&self) -> u64
        ensures is { result ≡ before_of self.now }
        ensures fits { result + length (rest_of self.now) < 2 ^ 64 }
    {
        self.fed - self.waiting()
    }

    /// Moves the bytes that are kept to the front, where at least as many others stand before them.
    fn compact(&mut self)
        ensures same { IsSame self.old self.new }
        ensures fault { self.new.fault ≡ self.old.fault }
        ensures taken { taken_count self.new ≡ taken_count self.old }
    {
        let kept = self.held.len() - self.start;
        if kept <= self.start {
            self.held.copy_within(self.start.., 0);
            self.held.truncate(kept);
            self.seen -= self.start;
            self.start = 0;
        }
    }

    /// Keeps more bytes, which are counted as fed. After an `Err` all is as before.
    fn append(&mut self, piece: &[u8]) -> Result<(), OutOfMemory>
        requires open { self.old.fault ≡ None }
        requires room { fed_count self.old + length piece.now < 2 ^ 64 }
        ensures ok { OnOk result (rest_of self.new ≡ rest_of self.old ++ piece.now) }
        ensures count { OnOk result (fed_count self.new ≡ fed_count self.old + length piece.now) }
        ensures err { OnErr result (IsSame self.old self.new) }
        ensures limit { cut_limit self.new ≡ cut_limit self.old }
        ensures fault { self.new.fault ≡ self.old.fault }
        ensures taken { taken_count self.new ≡ taken_count self.old }
    {
        self.held.extend_from_slice(piece)?;
        self.fed += piece.len() as u64;
        Ok(())
    }

    /// Where the bytes end that are kept and that a message may have.
    fn end_within(&self) -> usize
        ensures above { self.now.start ≤ result }
        ensures within { result ≤ vec_len self.now.held }
        ensures few { result ≤ self.now.start + self.now.limit }
    {
        let limit = self.limit as usize;
        if self.held.len() - self.start <= limit {
            return self.held.len();
        }
        self.start + limit
    }

    /// A message that is read straight from the bytes that are kept, and how many of them it has; or `None`, also where an
    /// item has begun of which bytes were taken.
    fn direct(&self) -> Option<(Message, usize)>
        ensures form { IfSome result (λ p. IsWireForm p.0 (take p.1 (rest_of self.now)) (cut_limit self.now)) }
        ensures inside { IfSome result (λ p. p.1 ≤ length (rest_of self.now)) }
        ensures fresh { IfSome result (λ p. self.now.seen ≡ self.now.start) }
        ensures begun { IfSome result (λ p. self.now.whole ≡ false) }
    {
        if self.whole || self.seen != self.start {
            return None;
        }
        let end = self.end_within();
        direct_message(self.alloc, &self.held[self.start..end])
    }

    /// Takes the message that the first so many bytes are, of which none was taken. Each byte is a step.
    fn take_direct<L: Ledger>(&mut self, used: usize, steps: &mut Steps<L>)
        requires open { self.old.fault ≡ None }
        requires fresh { self.old.seen ≡ self.old.start }
        requires begun { self.old.whole ≡ false }
        requires inside { used ≤ length (rest_of self.old) }
        ensures rest { rest_of self.new ≡ drop used (rest_of self.old) }
        ensures count { fed_count self.new ≡ fed_count self.old }
        ensures limit { cut_limit self.new ≡ cut_limit self.old }
        ensures fault { self.new.fault ≡ None }
        ensures taken { taken_count self.new ≡ before_of self.old + used }
        ensures rises { taken_count self.old ≤ taken_count self.new }
        ensures steps { steps.new + taken_count self.old ≡ steps.old + taken_count self.new }
    {
        self.start += used;
        self.seen = self.start;
        self.taken += used as u64;
        steps.add(used as u64);
    }

    /// Reads on in the bytes that are kept, and answers how many of them the item has that begins them.
    fn find<L: Ledger>(&mut self, steps: &mut Steps<L>) -> Result<Option<usize>, CutFault>
        requires { self.old.fault ≡ None }
        ensures answers { AnswersFound (rest_of self.old) (cut_limit self.old) (before_of self.old) result }
        ensures same { IfOk result (λ found. IsSame self.old self.new) }
        ensures count { fed_count self.new ≡ fed_count self.old }
        ensures limit { cut_limit self.new ≡ cut_limit self.old }
        ensures fault { self.new.fault ≡ fault_in result }
        ensures whole { IfOk result (λ found. IfSome found (λ used. self.new.whole ≡ true)) }
        ensures seen { IfOk result (λ found. IfSome found (λ used. self.new.seen ≡ self.new.start + used)) }
        ensures taken { TakesFound (cut_limit self.old) (before_of self.old) (fed_count self.old) result (taken_count self.new) }
        ensures rises { taken_count self.old ≤ taken_count self.new }
        ensures steps { steps.new + taken_count self.old ≡ steps.old + taken_count self.new }
    {
        let before = self.before();
        let read = self.seen - self.start;
        match read_rest(
            &mut self.reader,
            &self.held[self.start..],
            read,
            self.whole,
            steps,
        ) {
            Ok(Some(used)) => {
                self.seen = self.start + used;
                self.taken = before + used as u64;
                self.whole = true;
                Ok(Some(used))
            }
            Ok(None) => {
                self.seen = self.held.len();
                self.taken = self.fed;
                self.whole = false;
                Ok(None)
            }
            Err(fault) => {
                let cut = cut_fault(fault, before);
                self.taken = taken_with(cut, self.limit);
                self.fault = Some(cut);
                self.held = Vec::new(self.alloc);
                self.start = 0;
                self.seen = 0;
                Err(cut)
            }
        }
    }

    /// Takes the message that the first so many bytes are, which were taken.
    fn take_message(&mut self, used: usize) -> Result<Message, CutFault>
        requires open { self.old.fault ≡ None }
        requires whole { self.old.whole ≡ true }
        requires seen { self.old.seen ≡ self.old.start + used }
        requires item { (item : DataItem) × IsWhole (rest_of self.old) (cut_limit self.old) item used }
        ensures answers { AnswersItem (rest_of self.old) (cut_limit self.old) (before_of self.old) used result }
        ensures rest { OnOk result (rest_of self.new ≡ drop used (rest_of self.old)) }
        ensures err { result ≡ Err CutFault.OutOfMemory → rest_of self.new ≡ rest_of self.old }
        ensures count { fed_count self.new ≡ fed_count self.old }
        ensures limit { cut_limit self.new ≡ cut_limit self.old }
        ensures fault { self.new.fault ≡ fault_in result }
        ensures taken { taken_count self.new ≡ taken_count self.old }
    {
        let end = self.start + used;
        match message_of_bytes(self.alloc, &self.held[self.start..end]) {
            Ok(Some(message)) => {
                self.start = end;
                self.seen = end;
                self.whole = false;
                Ok(message)
            }
            Ok(None) => {
                let fault = CutFault::NotMessage { at: self.before() };
                self.fault = Some(fault);
                self.held = Vec::new(self.alloc);
                self.start = 0;
                self.seen = 0;
                Err(fault)
            }
            Err(OutOfMemory) => Err(CutFault::OutOfMemory),
        }
    }
}
