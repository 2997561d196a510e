//! What joins a node to others: datagrams to and from its neighbours, and streams.
ghost use Rattle.std.specs.Prelude.{◌≡◌, ◌≤◌, List, ℕ, Bool, true, Option, None, IsTrue, OnOk, OnErr};
ghost use Rattle.grasp_io.specs.Faults.{Rose};
ghost use Rattle.grasp_io.specs.Counted.{StaysAt, CountsOne};
ghost use Rattle.grasp_io.specs.Told.{Stays, Grows};
ghost use Rattle.grasp_io.specs.Links.{IsNext, Gives, Waits, IsAnswer, Hands};
ghost use Rattle.grasp_io.specs.declared.links.LinkPlan.{LinkPlan};
ghost use Rattle.grasp_types.specs.declared.traffic.Input.{Input};
ghost use Rattle.grasp_types.specs.declared.traffic.Output.{Output};

use crate::Failed;
use grasp_types::{Input, LinkLists, Locator, Output, Plain};

/// Where a node listens, for datagrams and for streams, and the neighbours on each of its links. Their addresses are to be of one
/// family, IPv4 or IPv6: datagrams from one to the other are lost.
#[derive(Clone, Debug, Drop)]
pub struct LinkPlan {
    pub listen: Locator,
    pub links: LinkLists,
}

impl Plain for LinkPlan {
    ghost use Rattle.std.proofs.Common.{rules};

    ghost clones_are_same = { Prim.search rules };
}

/// What came of asking the links.
#[derive(Debug, Drop)]
pub enum Asked {
    /// A datagram, an opening, bytes or a closing.
    Got(Input),
    /// Nothing came. This may be answered before the wait is over.
    Nothing,
    /// A datagram may be lost by it. Anything else is given by a later call.
    OutOfMemory,
}

/// What became of an output.
#[derive(Clone, Copy, Debug, PartialEq, Eq)]
pub enum Sent {
    /// It is on its way. So is what goes to a stream that has ended: it is dropped.
    Sent,
    /// It was a datagram, and it is lost.
    Lost,
    /// It was for a stream, which ends. A later `ask` gives its `Closed`, where the node didn't close it itself.
    Failed,
}

/// The links of a node. They give inputs, one at a time, and take outputs.
pub trait Links {
    /// Whether they are open. Where it isn't told, they count as open from the start.
    ghost is_open: { Self → Bool } = { λ _. true };

    /// The plans that they were opened with so far, where they are told.
    ghost plans: { Self → Option (List LinkPlan) } = { λ _. None };

    /// How often they were asked, or 2^64 - 1, where it is told.
    ghost asks: { Self → Option ℕ } = { λ _. None };

    /// The waits of the asks so far, in milliseconds, where they are told.
    ghost waits: { Self → Option (List ℕ) };

    /// The inputs given so far, where they are told.
    ghost given: { Self → Option (List Input) };

    /// The outputs handed over so far, where they are told.
    ghost handed: { Self → Option (List Output) };

    /// How many streams peers have opened.
    ghost opened: { Self → ℕ };

    /// How often something failed. It never falls.
    ghost faults: { Self → ℕ };

    /// Opens the links of this plan.
    fn open(&mut self, plan: &LinkPlan) -> Result<(), Failed>
        ensures opens { OnOk result (IsTrue (is_open self.new)) }
        ensures told { OnOk result (Grows (plans self.old) (plans self.new) plan.now) }
        ensures told_nothing { OnErr result (Stays (plans self.old) (plans self.new)) }
        ensures not_asked { StaysAt (asks self.old) (asks self.new) }
        ensures waited { Stays (waits self.old) (waits self.new) }
        ensures gave { Stays (given self.old) (given self.new) }
        ensures took { Stays (handed self.old) (handed self.new) }
        ensures none_opened { opened self.new ≡ opened self.old }
        ensures fault { OnErr result (Rose (faults self.old) (faults self.new)) }
        ensures never_falls { faults self.old ≤ faults self.new };

    /// The next input, for which it waits at most so many milliseconds. No call and no drain comes, datagrams come from
    /// neighbours alone, and a stream that a peer opened has an odd number that no earlier one had.
    fn ask(&mut self, wait_ms: u32) -> Asked
        ensures stays_open { is_open self.new ≡ is_open self.old }
        ensures told { Stays (plans self.old) (plans self.new) }
        ensures asked { CountsOne (asks self.old) (asks self.new) }
        ensures waited { Waits (waits self.old) (waits self.new) result wait_ms }
        ensures gave { Gives (given self.old) (given self.new) result }
        ensures took { Stays (handed self.old) (handed self.new) }
        ensures next { IsNext (opened self.old) (opened self.new) result }
        ensures never_falls { faults self.old ≤ faults self.new };

    /// Hands over an output.
    fn send(&mut self, output: &Output) -> Sent
        ensures stays_open { is_open self.new ≡ is_open self.old }
        ensures told { Stays (plans self.old) (plans self.new) }
        ensures not_asked { StaysAt (asks self.old) (asks self.new) }
        ensures waited { Stays (waits self.old) (waits self.new) }
        ensures gave { Stays (given self.old) (given self.new) }
        ensures took { Hands (handed self.old) (handed self.new) result output.now }
        ensures none_opened { opened self.new ≡ opened self.old }
        ensures answer { IsAnswer output.now result (faults self.old) (faults self.new) }
        ensures never_falls { faults self.old ≤ faults self.new };
}
