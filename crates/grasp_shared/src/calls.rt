//! The calls of passes and of the root.

ghost use Rattle.std.specs.Prelude.{◌≡◌, ◌≢◌, IsOk, MatchResult};
ghost use Rattle.grasp_shared.specs.Calls.{answered};
ghost use Rattle.grasp_shared.specs.Passes.{Served};

use crate::shared::{Busy, Pass, Root, Shared};
use grasp_types::{Input, Reply};
use std::sync::Wait;
use std::thread;

impl Shared {
    ghost use Rattle.grasp_shared.specs.Handles.{IsPassOf, IsRootOf, view_of, root_view, out_of};

    /// One call of the core, at a reading in milliseconds. It waits for nobody: where another pass is in its turn, or comes
    /// first, the input is handed back, and nothing has changed.
    pub fn try_call(&self, pass: &mut Pass, now: u64, input: Input) -> Result<Reply, Busy>
        requires own { IsPassOf self.now pass.old }
        ensures own { IsPassOf self.now pass.new }
        ensures call { MatchResult result (λ reply. Served (view_of pass.old) (view_of pass.new) (answered now input reply))
            (λ busy. (view_of pass.new ≡ view_of pass.old) × (busy.expected ≢ busy.found) × (busy.input ≡ input)) }
    {
        self.turn(&mut pass.seat, now, input)
    }

    /// The same for the root. It is never busy while no pass is out.
    pub fn root_try_call(&self, root: &mut Root, now: u64, input: Input) -> Result<Reply, Busy>
        requires own { IsRootOf self.now root.old }
        ensures own { IsRootOf self.now root.new × (out_of root.new ≡ out_of root.old) }
        ensures call { MatchResult result (λ reply. Served (root_view root.old) (root_view root.new) (answered now input reply))
            (λ busy. (root_view root.new ≡ root_view root.old) × (busy.expected ≢ busy.found) × (busy.input ≡ input)) }
        ensures alone { out_of root.old ≡ 0 → IsOk result }
    {
        self.turn(&mut root.seat, now, input)
    }

    /// One call of the core, at a reading in milliseconds. It may wait for other callers.
    pub fn call<R: Wait>(&self, rt: &R, pass: &mut Pass, now: u64, input: Input) -> Reply
        requires own { IsPassOf self.now pass.old }
        ensures own { IsPassOf self.now pass.new }
        ensures call { Served (view_of pass.old) (view_of pass.new) (answered now input result) }
    {
        let mut input = input;
        for _ in rt.forever() {
            match self.try_call(pass, now, input) {
                Ok(reply) => return reply,
                Err(busy) => input = busy.input,
            }
            thread::yield_now();
        }
        unreachable!()
    }

    /// The same for the root.
    pub fn root_call<R: Wait>(&self, rt: &R, root: &mut Root, now: u64, input: Input) -> Reply
        requires own { IsRootOf self.now root.old }
        ensures own { IsRootOf self.now root.new × (out_of root.new ≡ out_of root.old) }
        ensures call { Served (root_view root.old) (root_view root.new) (answered now input result) }
    {
        let mut input = input;
        for _ in rt.forever() {
            match self.root_try_call(root, now, input) {
                Ok(reply) => return reply,
                Err(busy) => input = busy.input,
            }
            thread::yield_now();
        }
        unreachable!()
    }
}
