//! One turn of a pass: it takes the core, steps it, and gives it back.

ghost use Rattle.std.specs.Prelude.{◌≡◌, ◌≢◌, IsOk, MatchResult};
ghost use Rattle.grasp_shared.specs.Calls.{answered, GoesOn};
ghost use Rattle.grasp_shared.specs.Names.{IsIdle, Began, Holds, WentOn, MayEnd, Ended};
ghost use Rattle.grasp_shared.specs.Passes.{IsAlone, Served};

use crate::bytes::note_bytes;
use crate::calling::Calling;
use crate::plays::{End, Look, Win};
use crate::shared::{Busy, Place, Shared};
use grasp_core::NodeCore;
use grasp_types::{Input, Reply};
use std::marker::Brand;
use std::snapshot::Snapshot;

/// One step of the core, at a reading in milliseconds: whoever makes it, it is the next call of the core's history.
#[tactic(auto, using(crate::proofs::Adding::step_goes))]
pub fn step_core(core: &mut NodeCore, now: u64, input: Input) -> Reply
    ensures { GoesOn core.old (answered now input result) core.new }
{
    note_bytes(&input);
    core.step(now, input)
}

impl Shared {
    /// Takes the core where no other pass is in its turn, or gives the word that it looked for and the one that it found.
    fn begin(&self, seat: &mut Place) -> Result<(), (u64, u64)>
        requires own { seat.old.table_id ≡ self.now.table.shared.table_id }
        requires idle { IsIdle seat.old.me }
        ensures own { seat.new.table_id ≡ seat.old.table_id }
        ensures begun { MatchResult result (λ _. Began seat.old.me seat.new.me) (λ w. (seat.new.me ≡ seat.old.me) × (w.0 ≢ w.1)) }
        ensures alone { IsAlone seat.old.me.0 → IsOk result }
    {
        let shared = &self.table.shared;
        let seen = shared.load::<Look>(seat, 0);
        let expected = seen - seen % 2;
        let found = shared.compare_exchange::<Win>(seat, 0, expected, expected + 1);
        if found != expected {
            return Err((expected, found));
        }
        Ok(())
    }

    /// Steps the core where it lies.
    fn step(&self, seat: &mut Place, now: u64, input: Input) -> Reply
        requires own { seat.old.table_id ≡ self.now.table.shared.table_id }
        requires held { Holds seat.old.me }
        ensures own { seat.new.table_id ≡ seat.old.table_id }
        ensures stepped { WentOn seat.old.me seat.new.me (answered now input result) }
    {
        let core = seat.slot_mut(&self.table.shared, 0);
        step_core(core, now, input)
    }

    /// Gives the core back, and adds the call J.call to the history.
    fn finish<J: Calling>(&self, seat: &mut Place, now: u64, asked: &Snapshot<Input>, reply: &Reply)
        requires own { seat.old.table_id ≡ self.now.table.shared.table_id }
        requires named { J.call ≡ answered now asked.now.value reply.now }
        requires turn { MayEnd seat.old.me J.call }
        ensures own { seat.new.table_id ≡ seat.old.table_id }
        ensures call { Ended seat.old.me seat.new.me J.call }
    {
        self.table.shared.fetch_add::<End<J>>(seat, 0, 1);
    }

    /// One turn. It waits for nobody.
    pub(crate) fn turn(&self, seat: &mut Place, now: u64, input: Input) -> Result<Reply, Busy>
        requires own { seat.old.table_id ≡ self.now.table.shared.table_id }
        requires idle { IsIdle seat.old.me }
        ensures own { seat.new.table_id ≡ seat.old.table_id }
        ensures idle { IsIdle seat.new.me }
        ensures turn { MatchResult result (λ reply. Served seat.old.me.0 seat.new.me.0 (answered now input reply))
            (λ busy. (seat.new.me ≡ seat.old.me) × (busy.expected ≢ busy.found) × (busy.input ≡ input)) }
        ensures alone { IsAlone seat.old.me.0 → IsOk result }
    {
        match self.begin(seat) {
            Ok(()) => {
                let asked = Snapshot::of(&input);
                let reply = self.step(seat, now, input);
                self.finish::<Brand>(seat, now, &asked, &reply);
                Ok(reply)
            }
            Err((expected, found)) => Err(Busy {
                expected,
                found,
                input,
            }),
        }
    }
}
