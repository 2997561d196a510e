//! What a node has to do with visitors: they come, write lines, are told lines, and leave.
ghost use Rattle.std.specs.Prelude.{◌≡◌, ◌≤◌, List, ℕ, Bool, true, Option, None, IsTrue, OnOk, OnErr};
ghost use Rattle.grasp_io.specs.Faults.{Rose};
ghost use Rattle.grasp_io.specs.Memory.{one_more};
ghost use Rattle.grasp_io.specs.Told.{Stays, Grows};
ghost use Rattle.grasp_desk.specs.Desk.{IsNext, Gives, Tells};
ghost use Rattle.grasp_desk.specs.declared.desk.DeskPlan.{DeskPlan};
ghost use Rattle.grasp_desk.specs.declared.desk.Told.{Told};
ghost use Rattle.grasp_desk.specs.declared.desk.Visiting.{Visiting};

use grasp_cbor::{Chars, Octets};
use grasp_io::Failed;
use grasp_types::Plain;

/// Where visitors come in.
#[derive(Clone, Debug, Drop)]
pub struct DeskPlan {
    /// The path of the control socket, 1 to 107 bytes.
    pub control: Chars,
    /// The path of the socket for guests, 1 to 107 bytes, where there is one.
    pub guests: Option<Chars>,
    /// Who may open the sockets: the nine bits of a file's mode, 0 to 0o777.
    pub mode: u16,
    /// The most visitors at once. Further ones are sent away.
    pub visitors: u8,
}

impl Plain for DeskPlan {
    ghost use Rattle.std.proofs.Common.{rules};

    ghost clones_are_same = { Prim.search rules };
}

/// What came of asking the desk.
#[derive(Clone, Debug, Drop)]
pub enum Visiting {
    /// A visitor came, to the door for guests or to the other. Visitors are numbered from 1, in the order in which they come.
    Came { visitor: u64, guest: bool },
    /// A visitor's next line, without its line end.
    Line { visitor: u64, line: Octets },
    /// A visitor left, or was sent away. Nothing more comes of it.
    Left { visitor: u64 },
    /// Nothing came.
    Nothing,
    /// What came is given by a later call.
    OutOfMemory,
}

impl Plain for Visiting {
    ghost use Rattle.std.proofs.Common.{rules};

    ghost clones_are_same = { Prim.search rules };
}

/// A line for a visitor, without its line end.
#[derive(Clone, Debug, Drop)]
pub struct Told {
    pub visitor: u64,
    pub line: Octets,
}

/// The desk of a node. It waits for nothing.
pub trait Desk {
    /// Whether it is open. Where it isn't told, it counts as open from the start.
    ghost is_open: { Self → Bool } = { λ _. true };

    /// The plans that it was opened with so far, where they are told.
    ghost plans: { Self → Option (List DeskPlan) } = { λ _. None };

    /// How often it was asked, or 2^64 - 1.
    ghost asks: { Self → ℕ };

    /// What came so far, where it is told.
    ghost given: { Self → Option (List Visiting) };

    /// The lines told so far, where they are known.
    ghost told: { Self → Option (List Told) };

    /// How many visitors came.
    ghost came: { Self → ℕ };

    /// How often something failed. It never falls.
    ghost faults: { Self → ℕ };

    /// Opens the doors of this plan.
    fn open(&mut self, plan: &DeskPlan) -> Result<(), Failed>
        ensures opens { OnOk result (IsTrue (is_open self.new)) }
        ensures planned { OnOk result (Grows (plans self.old) (plans self.new) plan.now) }
        ensures planned_nothing { OnErr result (Stays (plans self.old) (plans self.new)) }
        ensures not_asked { asks self.new ≡ asks self.old }
        ensures gave { Stays (given self.old) (given self.new) }
        ensures told { Stays (told self.old) (told self.new) }
        ensures none_came { came self.new ≡ came self.old }
        ensures fault { OnErr result (Rose (faults self.old) (faults self.new)) }
        ensures never_falls { faults self.old ≤ faults self.new };

    /// What came next.
    fn visiting(&mut self) -> Visiting
        ensures stays_open { is_open self.new ≡ is_open self.old }
        ensures planned { Stays (plans self.old) (plans self.new) }
        ensures asked { asks self.new ≡ one_more (asks self.old) }
        ensures gave { Gives (given self.old) (given self.new) result }
        ensures told { Stays (told self.old) (told self.new) }
        ensures next { IsNext (came self.old) (came self.new) result }
        ensures never_falls { faults self.old ≤ faults self.new };

    /// Tells a visitor a line, and its line end. To one that has left nothing is told, and one that doesn't read is sent away.
    fn tell(&mut self, visitor: u64, line: &[u8])
        ensures stays_open { is_open self.new ≡ is_open self.old }
        ensures planned { Stays (plans self.old) (plans self.new) }
        ensures not_asked { asks self.new ≡ asks self.old }
        ensures gave { Stays (given self.old) (given self.new) }
        ensures told { Tells (told self.old) (told self.new) (record {
          visitor = visitor;
          line = line.now;
        }) (faults self.old) (faults self.new) }
        ensures none_came { came self.new ≡ came self.old }
        ensures never_falls { faults self.old ≤ faults self.new };
}
