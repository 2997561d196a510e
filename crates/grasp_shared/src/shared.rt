//! The registry, its passes, and how they begin and end.

ghost use Rattle.std.specs.Prelude.{◌≡◌, ◌≢◌, ◌+◌, ◌-◌, ◌<◌, Some, IfOk, IfErr};
ghost use mathlib.Core.List.{IsPrefix};
ghost use Rattle.grasp_shared.specs.Calls.{LedTo};
ghost use Rattle.grasp_shared.specs.Names.{IsIdle};
ghost use Rattle.grasp_shared.specs.Passes.{HasJust, NoOther, first, left, right, both};

use crate::plays::{Cut, Glue, Law, Meet};
use crate::view::View;
use atomic_table::{Refused, Seat, Table};
use grasp_core::NodeCore;
use grasp_types::Input;
use std::alloc::Global;
use std::snapshot::Snapshot;

pub(crate) type Place = Seat<NodeCore, View>;

/// A core that threads share.
#[derive(Drop)]
pub struct Shared {
    pub(crate) table: Table<NodeCore, View, Snapshot<NodeCore>, Law, Global>,
    ghost sized: { (table.shared.table_id.words ≡ 1) × (table.shared.table_id.slots ≡ 1) },
}

/// A right to call, for one thread at a time. It has no bytes.
#[derive(Drop)]
pub struct Pass {
    pub(crate) seat: Place,
    ghost idle: { IsIdle seat.me },
}

/// The first pass, from which the others are split and to which they are joined.
#[derive(Drop)]
pub struct Root {
    pub(crate) seat: Place,
    out: u64,
    ghost idle: { IsIdle seat.me },
    ghost is_root: { (seat.me.0.number ≡ 0) × (seat.me.0.out ≡ out) },
}

/// Another pass was in its turn, or had come first.
#[derive(Drop)]
pub struct Busy {
    /// The word that the call looked for.
    pub expected: u64,
    /// The word that it found.
    pub found: u64,
    /// The call's input.
    pub input: Input,
    pub ghost differ: { expected ≢ found },
}

/// There was no memory.
#[derive(Drop)]
pub struct Unshared {
    /// The core.
    pub core: NodeCore,
}

impl Root {
    ghost use Rattle.grasp_shared.specs.Handles.{out_of};

    /// How many passes were split from it and not joined.
    pub fn out(&self) -> u64
        ensures { result ≡ out_of self.now }
    {
        self.out
    }
}

impl Shared {
    ghost use Rattle.grasp_shared.specs.Handles.{IsPassOf, IsRootOf, view_of, root_view, out_of};

    /// A registry with this core, and its root, which has seen nothing. An `Err` comes for want of memory alone.
    pub fn open(alloc: Global, core: NodeCore) -> Result<(Shared, Root), Unshared>
        ensures ok { IfOk result (λ r. IsRootOf r.0 r.1 × (root_view r.1 ≡ first (Some core)) × (out_of r.1 ≡ 0)) }
        ensures err { IfErr result (λ u. u.core ≡ core) }
    {
        let key = Snapshot::of(&core);
        let Ok(mut slots) = Vec::with_capacity(alloc, 1) else {
            return Err(Unshared { core });
        };
        slots.push_reserved(core);
        match Table::new(alloc, &[0], slots, &key) {
            Ok((table, seat)) => Ok((Shared { table }, Root { seat, out: 0 })),
            Err(Refused { mut slots }) => {
                let Some(core) = slots.pop() else {
                    unreachable!()
                };
                Err(Unshared { core })
            }
        }
    }

    /// A pass of a new number, which has seen what the root has seen, and has no calls. It takes no memory.
    pub fn split(&self, root: &mut Root) -> Pass
        requires own { IsRootOf self.now root.old }
        requires few { out_of root.old < 4294967294 }
        ensures own { IsRootOf self.now root.new × IsPassOf self.now result }
        ensures root { (root_view root.new ≡ left (root_view root.old)) × (out_of root.new ≡ out_of root.old + 1) }
        ensures pass { view_of result ≡ right (root_view root.old) }
    {
        let seat = self.table.shared.split_seat::<Cut>(&mut root.seat);
        root.out += 1;
        Pass { seat }
    }

    /// Takes a pass back: the root then sees the longer of the two histories, and keeps the pass's number and calls.
    pub fn join(&self, root: &mut Root, pass: Pass)
        requires own { IsRootOf self.now root.old × IsPassOf self.now pass }
        ensures own { IsRootOf self.now root.new × (out_of root.new ≡ out_of root.old - 1) }
        ensures root { root_view root.new ≡ both (root_view root.old) (view_of pass) }
        ensures met { let seen = (root_view root.new).seen in IsPrefix (root_view root.old).seen seen
            × IsPrefix (view_of pass).seen seen × HasJust (root_view root.new) }
    {
        let Pass { seat } = pass;
        self.table.shared.join_seat::<Glue>(&mut root.seat, seat);
        root.out = root.out.saturating_sub(1);
        self.table.shared.load::<Meet>(&mut root.seat, 0);
    }

    /// The core, at the end of a legal history that begins with all that the root had seen and has just the calls of the
    /// root and of the passes that were joined, each once.
    pub fn close(self, root: Root) -> NodeCore
        requires own { IsRootOf self root }
        requires none { out_of root ≡ 0 }
        ensures { let v = root_view root in LedTo v.opened v.seen result × HasJust v × NoOther v }
    {
        let Shared { table } = self;
        let Root { seat, out: _ } = root;
        let mut closed = table.close_with(seat);
        let core = closed.take(0);
        closed.free();
        core
    }
}
