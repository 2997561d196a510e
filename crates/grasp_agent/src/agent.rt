//! What every agent does: it makes one call after the other, and decides by the replies alone.

ghost use Rattle.std.specs.Prelude.{◌≡◌, ℕ, IfOk};
ghost use Rattle.grasp_types.specs.declared.call.Call.{Call};
ghost use Rattle.grasp_types.specs.declared.reply.Reply.{Reply};

use grasp_cbor::OutOfMemory;
use grasp_types::{Call, Reply};

/// An agent of a node (RFC 8991).
pub trait Agent {
    /// The call that is next.
    ghost next_call: { Self → Call };

    /// The agent after the reply to that call.
    ghost after_reply: { Self → Reply → Self };

    /// Its number at its node, or 0 before it is registered.
    ghost number: { Self → ℕ };

    /// The call that is next.
    fn next(&self) -> Result<Call, OutOfMemory>
        ensures { IfOk result (λ call. call ≡ next_call self.now) };

    /// Takes the reply to the call that was next. It takes no memory.
    fn take(&mut self, reply: &Reply)
        ensures { self.new ≡ after_reply self.old reply.now };

    /// Its number at its node, or 0 before it is registered.
    fn asa(&self) -> u32
        ensures { result ≡ number self.now };
}
