//! Links whose traffic is written to a sink.

ghost use Rattle.std.specs.Prelude.{◌≡◌, ◌≤◌, ℕ, Bool, None};
ghost use Rattle.grasp_io.specs.Counted.{StaysAt, CountsOne};
ghost use Rattle.grasp_io.specs.Told.{Stays};
ghost use Rattle.grasp_io.specs.Links.{IsNext, Gives, Waits, IsAnswer, Hands};
ghost use Rattle.grasp_trace.specs.Trace.{links_of, sink_of, left_out_of, watched_of, trace_of};
ghost use Rattle.grasp_trace.specs.Traffic.{TellsAsked, TellsOutput, WatchesAsked, WatchesOutput};

use crate::writer::Writer;
use grasp_io::{Asked, Counted, Counters, Failed, LinkFault, LinkPlan, Links, Sent, Sink};
use grasp_types::Output;
use std::alloc::Global;
use std::net::SocketAddr;

/// Links that are watched: each input that they give and each output that they are handed is written as a line, each message as
/// `show` writes it, and handed on as it is. Where there is no memory for a line, or it can't be written, it is left out. Over a
/// `Journal` each line has its time and the node's name, a line that the system wouldn't take at once is left out too, and the
/// level of its switch says whether lines are written just now.
#[derive(Drop)]
pub struct Traced<L: Links + Drop, K: Sink + Drop> {
    links: L,
    writer: Writer<K>,
}

impl<L: Links + Drop, K: Sink + Drop> Traced<L, K> {
    /// These links, watched: the lines go to this sink.
    pub fn new(alloc: Global, links: L, sink: K) -> Self
        ensures links { links_of result ≡ links }
        ensures sink { sink_of result ≡ sink }
        ensures none { left_out_of result ≡ 0 }
        ensures unwatched { (received : Bool) (stream : ℕ) → watched_of result received stream ≡ None }
    {
        Traced {
            links,
            writer: Writer::new(alloc, sink),
        }
    }

    /// How many lines were left out for want of memory, or 2^64 - 1.
    pub fn left_out(&self) -> u64
        ensures { result ≡ left_out_of self.now }
    {
        self.writer.page.left_out
    }

    /// The sink that the lines go to.
    pub fn sink(&self) -> &K
        ensures { result.now ≡ sink_of self.now }
    {
        &self.writer.page.sink
    }

    /// The links, which aren't watched any more.
    pub fn into_links(self) -> L
        ensures { result ≡ links_of self }
    {
        self.links
    }
}

/// What the links behind it count.
impl<L: Links + Counted + Drop, K: Sink + Drop> Counted for Traced<L, K> {
    fn counters(&self) -> Counters {
        self.links.counters()
    }

    fn last_fault(&self) -> Option<LinkFault> {
        self.links.last_fault()
    }

    fn last_stranger(&self) -> Option<SocketAddr> {
        self.links.last_stranger()
    }
}

impl<L: Links + Drop, K: Sink + Drop> Links for Traced<L, K> {
    ghost is_open = { λ s. L.is_open (links_of s) };

    ghost plans = { λ s. L.plans (links_of s) };

    ghost asks = { λ s. L.asks (links_of s) };

    ghost waits = { λ s. L.waits (links_of s) };

    ghost given = { λ s. L.given (links_of s) };

    ghost handed = { λ s. L.handed (links_of s) };

    ghost opened = { λ s. L.opened (links_of s) };

    ghost faults = { λ s. L.faults (links_of s) };

    fn open(&mut self, plan: &LinkPlan) -> Result<(), Failed> {
        self.links.open(plan)
    }

    // What was given is told.
    fn ask(&mut self, wait_ms: u32) -> Asked
        ensures stays_open { L.is_open (links_of self.new) ≡ L.is_open (links_of self.old) }
        ensures told { Stays (L.plans (links_of self.old)) (L.plans (links_of self.new)) }
        ensures asked { CountsOne (L.asks (links_of self.old)) (L.asks (links_of self.new)) }
        ensures waited { Waits (L.waits (links_of self.old)) (L.waits (links_of self.new)) result wait_ms }
        ensures gave { Gives (L.given (links_of self.old)) (L.given (links_of self.new)) result }
        ensures took { Stays (L.handed (links_of self.old)) (L.handed (links_of self.new)) }
        ensures next { IsNext (L.opened (links_of self.old)) (L.opened (links_of self.new)) result }
        ensures never_falls { L.faults (links_of self.old) ≤ L.faults (links_of self.new) }
        ensures written { TellsAsked result (trace_of K.written K.faults self.old) (trace_of K.written K.faults self.new) }
        ensures watched { WatchesAsked result (trace_of K.written K.faults self.old) (trace_of K.written K.faults self.new) }
    {
        let asked = self.links.ask(wait_ms);
        if let Asked::Got(input) = &asked {
            self.writer.received(input);
        }
        asked
    }

    // What was handed over is told, and what became of it.
    fn send(&mut self, output: &Output) -> Sent
        ensures stays_open { L.is_open (links_of self.new) ≡ L.is_open (links_of self.old) }
        ensures told { Stays (L.plans (links_of self.old)) (L.plans (links_of self.new)) }
        ensures not_asked { StaysAt (L.asks (links_of self.old)) (L.asks (links_of self.new)) }
        ensures waited { Stays (L.waits (links_of self.old)) (L.waits (links_of self.new)) }
        ensures gave { Stays (L.given (links_of self.old)) (L.given (links_of self.new)) }
        ensures took { Hands (L.handed (links_of self.old)) (L.handed (links_of self.new)) result output.now }
        ensures none_opened { L.opened (links_of self.new) ≡ L.opened (links_of self.old) }
        ensures answer { IsAnswer output.now result (L.faults (links_of self.old)) (L.faults (links_of self.new)) }
        ensures never_falls { L.faults (links_of self.old) ≤ L.faults (links_of self.new) }
        ensures written { TellsOutput output.now result (trace_of K.written K.faults self.old) (trace_of K.written K.faults self.new) }
        ensures watched { WatchesOutput output.now (trace_of K.written K.faults self.old) (trace_of K.written K.faults self.new) }
    {
        let sent = self.links.send(output);
        self.writer.handed_over(output, sent);
        sent
    }
}
