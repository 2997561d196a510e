//! Writing requests.

ghost use Rattle.std.specs.Prelude.{◌≡◌, ◌++◌, OnOk, OnErr, string_bytes};
ghost use Rattle.grasp_cbor.specs.Extends.{Extends};
ghost use Rattle.grasp_text.specs.Words.{spaced};
ghost use Rattle.grasp_control.specs.Requests.{request_words};

use crate::calls::push_control_call;
use crate::request::Request;
use grasp_cbor::OutOfMemory;
use grasp_script::push_count;
use grasp_text::{push_locator, push_number, push_word};
use std::alloc::Global;

/// Appends the words of a request, each behind a blank. After an `Err` a part of them may have been appended.
#[tactic(auto, using(crate::proofs::Pushed::pushes))]
pub fn push_request(alloc: Global, out: &mut String, request: &Request) -> Result<(), OutOfMemory>
    ensures text { OnOk result (string_bytes out.new ≡ string_bytes out.old ++ spaced (request_words request.now)) }
    ensures err { OnErr result (Extends (string_bytes out.old) (string_bytes out.new)) }
{
    match request {
        Request::Call(call) => push_control_call(alloc, out, call),
        Request::Await { millis, call } => {
            push_count(out, "await", u64::from(*millis))?;
            push_control_call(alloc, out, call)
        }
        Request::State => push_word(out, "state"),
        Request::Wants => push_word(out, "wants"),
        Request::Reads => push_word(out, "reads"),
        Request::Events => push_word(out, "events"),
        Request::Counters => push_word(out, "counters"),
        Request::Version => push_word(out, "version"),
        Request::Want {
            length,
            longest,
            peer,
        } => {
            push_count(out, "want", u64::from(*length))?;
            push_number(out, u64::from(*longest))?;
            push_locator(alloc, out, peer)
        }
        Request::Unwant { number } => push_count(out, "unwant", *number),
        Request::Log { level } => {
            push_word(out, "log")?;
            push_word(out, level.word())
        }
        Request::Stop => push_word(out, "stop"),
    }
}
