//! The streams of a node: those that have a record, each with what came on it until it begins closing.

ghost use Rattle.std.specs.Prelude.{◌≡◌, ◌≤◌, ◌<◌, ◌^◌, ◌==◌, nat_le, Some, None, [], ◌∷◌, ◌++◌, false, length, position, IfOk, OnOk, OnErr};
ghost use Rattle.std.specs.List.{fold, position_or_len};
ghost use Rattle.grasp_wire.specs.Cutter.{no_past};
ghost use Rattle.grasp_model_node.specs.Streams.{StreamsState, no_streams, has_record, past_of, opener_of, with_past, closing, without, with_opened};
ghost use Rattle.grasp_model_node.specs.Streams.{with_dialled, is_full, is_dialled_out, next_stream, closing_numbers, put_number};
ghost use Rattle.grasp_core.specs.Stands.{StreamsStand, CutsAs, CutsOpen, Putting, after_take};

use crate::limit::MessageLimit;
use grasp_cbor::OutOfMemory;
use grasp_types::Address;
use grasp_wire::Cutter;
use std::alloc::Global;

/// How many streams have a record at most.
const MOST_STREAMS: usize = 64;

/// How many streams a node dials at most.
const MOST_DIALLED: u64 = 1 << 62;

/// A stream that has a record: its number, the address that was told at its opening where a peer opened it, and its
/// cutter until it begins closing.
#[derive(Drop)]
pub(crate) struct Stream {
    pub(crate) number: u64,
    pub(crate) from: Option<Address>,
    pub(crate) cutter: Option<Cutter>,
}

/// The records in the order in which they were made, how many streams the node dialled, and how long a message may be.
#[derive(Drop)]
pub(crate) struct Streams {
    pub(crate) alloc: Global,
    pub(crate) limit: MessageLimit,
    pub(crate) held: Vec<Stream>,
    pub(crate) dialled: u64,
}

impl Streams {
    /// No streams, with the memory for 64 records.
    pub(crate) fn new(alloc: Global, limit: MessageLimit) -> Result<Streams, OutOfMemory>
        ensures stands { IfOk result (λ streams. StreamsStand streams no_streams) }
        ensures limit { IfOk result (λ streams. streams.limit ≡ limit) }
    {
        Ok(Streams {
            alloc,
            limit,
            held: Vec::with_capacity(alloc, MOST_STREAMS)?,
            dialled: 0,
        })
    }

    /// Whether there is a record of this number.
    pub(crate) fn has(&self, stream: u64) -> bool
        ensures { (s : StreamsState) → StreamsStand self.now s → result ≡ has_record s stream }
    {
        self.place(stream).is_some()
    }

    /// Whether as many streams have a record as may.
    pub(crate) fn is_full(&self) -> bool
        ensures { (s : StreamsState) → StreamsStand self.now s → result ≡ is_full s }
    {
        self.held.len() >= MOST_STREAMS
    }

    /// Whether no further stream can be dialled.
    pub(crate) fn is_dialled_out(&self) -> bool
        ensures answer { (s : StreamsState) → StreamsStand self.now s → result ≡ is_dialled_out s }
        ensures dialled { result ≡ false → self.now.dialled < 2 ^ 62 }
    {
        self.is_full() || self.dialled >= MOST_DIALLED
    }

    /// The number of the next stream that is dialled.
    pub(crate) fn next(&self) -> u64
        requires { self.now.dialled < 2 ^ 62 }
        ensures { (s : StreamsState) → StreamsStand self.now s → result ≡ next_stream s }
    {
        2 * self.dialled
    }

    /// The address that was told at the opening of this stream, where a peer opened it.
    pub(crate) fn opener(&self, stream: u64) -> Option<Address>
        ensures { (s : StreamsState) → StreamsStand self.now s → result ≡ opener_of s stream }
    {
        match self.place(stream) {
            Some(i) => self.held[i].from,
            None => None,
        }
    }

    /// Takes the cutter of an open stream out, which counts as closing then.
    pub(crate) fn take(&mut self, stream: u64) -> Option<Cutter>
        ensures cutter { (s : StreamsState) → StreamsStand self.old s → CutsAs self.old.limit result (past_of s stream) }
        ensures rest { (s : StreamsState) → StreamsStand self.old s → StreamsStand self.new (after_take s stream (past_of s stream)) }
        ensures limit { self.new.limit ≡ self.old.limit }
    {
        match self.place(stream) {
            Some(i) => take_cutter(&mut self.held[i]),
            None => None,
        }
    }

    /// Puts a cutter back: the stream is open.
    pub(crate) fn put(&mut self, stream: u64, cutter: Cutter)
        ensures puts { (x : Putting) → StreamsStand self.old x.streams → CutsOpen self.old.limit cutter x.past
            → StreamsStand self.new (with_past x.streams stream (Some x.past)) }
        ensures limit { self.new.limit ≡ self.old.limit }
    {
        match self.place(stream) {
            Some(i) => put_cutter(&mut self.held[i], cutter),
            None => {}
        }
    }

    /// The stream of this number begins closing.
    pub(crate) fn close(&mut self, stream: u64)
        ensures closes { (s : StreamsState) → StreamsStand self.old s → StreamsStand self.new (closing s stream) }
        ensures limit { self.new.limit ≡ self.old.limit }
    {
        match self.place(stream) {
            Some(i) => shut(&mut self.held[i]),
            None => {}
        }
    }

    /// Removes the record of this number.
    pub(crate) fn remove(&mut self, stream: u64)
        ensures removes { (s : StreamsState) → StreamsStand self.old s → StreamsStand self.new (without s stream) }
        ensures limit { self.new.limit ≡ self.old.limit }
    {
        match self.place(stream) {
            Some(i) => {
                let _stream = self.held.remove(i);
            }
            None => {}
        }
    }

    /// Removes the records of these numbers.
    pub(crate) fn remove_all(&mut self, numbers: &[u64])
        ensures removes { (s : StreamsState) → StreamsStand self.old s → StreamsStand self.new (fold without s numbers.now) }
        ensures limit { self.new.limit ≡ self.old.limit }
    {
        for number in numbers {
            self.remove(*number);
        }
    }

    /// A peer opened a stream. After an `Err` all is as before.
    pub(crate) fn open(&mut self, stream: u64, from: Address) -> Result<(), OutOfMemory>
        ensures ok { OnOk result ((s : StreamsState) → StreamsStand self.old s → StreamsStand self.new (with_opened s stream from)) }
        ensures err { OnErr result ((s : StreamsState) → StreamsStand self.old s → StreamsStand self.new s) }
        ensures limit { self.new.limit ≡ self.old.limit }
    {
        let cutter = Cutter::new(self.alloc, self.limit.bytes());
        self.push(Stream {
            number: stream,
            from: Some(from),
            cutter: Some(cutter),
        })
    }

    /// The node dials the next stream, which is open. After an `Err` all is as before.
    pub(crate) fn dial(&mut self) -> Result<(), OutOfMemory>
        requires { self.old.dialled < 2 ^ 62 }
        ensures ok { OnOk result ((s : StreamsState) → StreamsStand self.old s → StreamsStand self.new (with_dialled s (Some no_past))) }
        ensures err { OnErr result ((s : StreamsState) → StreamsStand self.old s → StreamsStand self.new s) }
        ensures limit { self.new.limit ≡ self.old.limit }
    {
        let cutter = Cutter::new(self.alloc, self.limit.bytes());
        let number = 2 * self.dialled;
        self.push(Stream {
            number,
            from: None,
            cutter: Some(cutter),
        })?;
        self.dialled += 1;
        Ok(())
    }

    /// The numbers of the streams that are closing, in rising order. It takes no memory for none.
    pub(crate) fn closing_numbers(&self) -> Result<Vec<u64>, OutOfMemory>
        ensures are { IfOk result (λ numbers. (s : StreamsState) → StreamsStand self.now s → numbers.items ≡ closing_numbers s) }
        ensures wanted { OnErr result ((s : StreamsState) → StreamsStand self.now s → 1 ≤ length (closing_numbers s)) }
    {
        let mut numbers = Vec::new(self.alloc);
        let mut left = self.held.len();
        while left > 0 {
            left -= 1;
            let stream = &self.held[left];
            if stream.cutter.is_none() {
                put_number(&mut numbers, stream.number)?;
            }
        }
        Ok(numbers)
    }

    /// How long a message may be.
    pub(crate) fn limit(&self) -> u32
        ensures is { result ≡ self.now.limit }
        ensures positive { 0 < result }
    {
        self.limit.bytes()
    }

    /// Adds a record.
    fn push(&mut self, next: Stream) -> Result<(), OutOfMemory>
        ensures ok { OnOk result (self.new.held.items ≡ self.old.held.items ++ next ∷ []) }
        ensures err { OnErr result (self.new.held.items ≡ self.old.held.items) }
        ensures dialled { self.new.dialled ≡ self.old.dialled }
        ensures limit { self.new.limit ≡ self.old.limit }
    {
        self.held.push(next)?;
        Ok(())
    }

    /// The place of the record of this number.
    fn place(&self, stream: u64) -> Option<usize>
        ensures { result ≡ position (λ s. s.number == stream) self.now.held.items }
    {
        self.held.iter().position(|s| s.number == stream)
    }
}

/// Takes the cutter out.
fn take_cutter(stream: &mut Stream) -> Option<Cutter>
    ensures cutter { result ≡ stream.old.cutter }
    ensures rest { stream.new ≡ record stream.old { cutter = None } }
{
    let cutter = &mut stream.cutter;
    cutter.take()
}

/// Puts a cutter back.
fn put_cutter(stream: &mut Stream, cutter: Cutter)
    ensures { stream.new ≡ record stream.old { cutter = Some cutter } }
{
    stream.cutter = Some(cutter);
}

/// Lets the cutter go.
fn shut(stream: &mut Stream)
    ensures { stream.new ≡ record stream.old { cutter = None } }
{
    stream.cutter = None;
}

/// Puts a number into its place among numbers in rising order.
fn put_number(numbers: &mut Vec<u64>, number: u64) -> Result<(), OutOfMemory>
    ensures { OnOk result (numbers.new.items ≡ put_number number numbers.old.items) }
{
    let place = place_in(numbers, number);
    numbers.insert(place, number)?;
    Ok(())
}

/// How many of these numbers come before the first that isn't less than this one.
fn place_in(numbers: &[u64], number: u64) -> usize
    ensures is { result ≡ position_or_len (λ n. nat_le number n) numbers.now }
    ensures within { result ≤ length numbers.now }
{
    match first_from(numbers, number) {
        Some(place) => place,
        None => numbers.len(),
    }
}

/// The place of the first of these numbers that isn't less than this one.
fn first_from(numbers: &[u64], number: u64) -> Option<usize>
    ensures { result ≡ position (λ n. nat_le number n) numbers.now }
{
    numbers.iter().position(|n| number <= *n)
}
