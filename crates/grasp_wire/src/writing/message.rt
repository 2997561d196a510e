//! Spelling messages.

ghost use Rattle.std.specs.Prelude.{◌≡◌, ◌<◌, ◌≤◌, ◌^◌, [], ◌∷◌, ◌++◌, Some, option_map, length, OnOk, IfSome};
ghost use Rattle.grasp_cbor.specs.DataItem.{unsigned, array_of};
ghost use Rattle.grasp_cbor.specs.Head.{shortest_head};
ghost use Rattle.grasp_cbor.specs.Shortest.{shortest};
ghost use Rattle.grasp_types.specs.Address.{address_item, IsAddress};
ghost use Rattle.grasp_types.specs.Objective.{optional, objective_item, IsObjective};
ghost use Rattle.grasp_types.specs.Message.{answer_items, item_of, IsAnswer, IsMessage};
ghost use Rattle.grasp_wire.specs.Parts.{shortest_parts};
ghost use Rattle.grasp_wire.specs.Put.{Puts};

use crate::writing::lists::{count_of_answer, put_answer, put_flood_part, put_flood_parts};
use crate::writing::parts::{
    put_address, put_objective, put_offer, put_some_objective, put_verdict,
};
use crate::writing::put::{Full, Put};
use grasp_cbor::Chars;
use grasp_types::{
    Address, Answer, Flags, FloodPart, FloodParts, Message, Objective, Value, Verdict,
};

/// Puts a message.
pub(crate) fn put_message<P: Put>(message: &Message, out: &mut P) -> Result<(), Full>
    ensures puts { Puts P.Keeps P.Counts (P.place out.old) (P.place out.new)
        (shortest (item_of message.now)) result }
    ensures range { OnOk result (P.Keeps → IsMessage message.now) }
{
    match message {
        Message::Noop => put_noop(out),
        Message::Discovery {
            session,
            initiator,
            objective,
        } => put_discovery(*session, initiator, objective, out),
        Message::Response {
            session,
            initiator,
            ttl,
            answer,
            objective,
        } => put_response(*session, initiator, *ttl, answer, objective, out),
        Message::ReqNeg { session, objective } => put_about(3, *session, objective, out),
        Message::ReqSyn { session, objective } => put_about(4, *session, objective, out),
        Message::Negotiate { session, objective } => put_about(5, *session, objective, out),
        Message::End { session, verdict } => put_end(*session, verdict, out),
        Message::Wait { session, millis } => put_wait(*session, *millis, out),
        Message::Synch { session, objective } => put_about(8, *session, objective, out),
        Message::Flood {
            session,
            initiator,
            ttl,
            parts,
        } => put_flood(*session, initiator, *ttl, parts, out),
        Message::Invalid { session, detail } => put_invalid(*session, detail, out),
    }
}

/// Puts the head of a message of so many parts, its number and its session.
#[tactic(auto, using(crate::proofs::Putting::putting))]
fn put_start<P: Put>(count: u64, number: u8, session: u32, out: &mut P) -> Result<(), Full>
    ensures puts { Puts P.Keeps P.Counts (P.place out.old) (P.place out.new)
        (shortest_head 4 count ++ shortest_parts (unsigned number ∷ unsigned session ∷ [])) result }
    ensures range { session < 2 ^ 32 }
{
    out.array_head(count)?;
    out.unsigned(u64::from(number))?;
    out.unsigned(u64::from(session))
}

/// Puts the head of a message of so many parts, and its first four.
#[tactic(auto, using(crate::proofs::Putting::putting))]
fn put_timed_start<P: Put>(
    count: u64,
    number: u8,
    session: u32,
    initiator: &Address,
    ttl: u32,
    out: &mut P,
) -> Result<(), Full>
    ensures puts { Puts P.Keeps P.Counts (P.place out.old) (P.place out.new)
        (shortest_head 4 count ++ shortest_parts (unsigned number ∷ unsigned session ∷ address_item initiator.now ∷ unsigned ttl ∷ [])) result }
    ensures session { session < 2 ^ 32 }
    ensures initiator { OnOk result (IsAddress initiator.now) }
    ensures ttl { ttl < 2 ^ 32 }
{
    put_start(count, number, session, out)?;
    put_address(initiator, out)?;
    out.unsigned(u64::from(ttl))
}

#[tactic(auto, using(crate::proofs::Putting::putting))]
fn put_noop<P: Put>(out: &mut P) -> Result<(), Full>
    ensures puts { Puts P.Keeps P.Counts (P.place out.old) (P.place out.new)
        (shortest (item_of Message.Noop)) result }
{
    out.array_head(1)?;
    out.unsigned(0)
}

#[tactic(auto, using(crate::proofs::Putting::putting))]
fn put_discovery<P: Put>(
    session: u32,
    initiator: &Address,
    objective: &Objective,
    out: &mut P,
) -> Result<(), Full>
    ensures puts { Puts P.Keeps P.Counts (P.place out.old) (P.place out.new)
        (shortest (item_of (Message.Discovery session initiator.now objective.now))) result }
    ensures range { OnOk result (P.Keeps → IsMessage (Message.Discovery session initiator.now objective.now)) }
{
    put_start(4, 1, session, out)?;
    put_address(initiator, out)?;
    put_objective(objective, out)
}

/// Puts the message of this number, which has a session and an objective.
#[tactic(auto, using(crate::proofs::Putting::putting))]
fn put_about<P: Put>(
    number: u8,
    session: u32,
    objective: &Objective,
    out: &mut P,
) -> Result<(), Full>
    ensures puts { Puts P.Keeps P.Counts (P.place out.old) (P.place out.new)
        (shortest (array_of (unsigned number ∷ unsigned session ∷ objective_item objective.now ∷ []))) result }
    ensures session { session < 2 ^ 32 }
    ensures objective { OnOk result (P.Keeps → IsObjective objective.now) }
{
    put_start(3, number, session, out)?;
    put_objective(objective, out)
}

/// Puts a step of a negotiation, whose objective has these parts.
#[tactic(auto, using(crate::proofs::Putting::putting))]
pub(crate) fn put_step<P: Put>(
    session: u32,
    name: &Chars,
    flags: Flags,
    loops: u8,
    value: &Value,
    out: &mut P,
) -> Result<(), Full>
    ensures puts { Puts P.Keeps P.Counts (P.place out.old) (P.place out.new)
        (shortest (item_of (Message.Negotiate session (record { name = name.now; flags = flags; loops = loops; value = Some value.now })))) result }
{
    put_start(3, 5, session, out)?;
    put_offer(name, flags, loops, value, out)
}

#[tactic(auto, using(crate::proofs::Putting::putting))]
fn put_response<P: Put>(
    session: u32,
    initiator: &Address,
    ttl: u32,
    answer: &Answer,
    objective: &Option<Objective>,
    out: &mut P,
) -> Result<(), Full>
    ensures puts { Puts P.Keeps P.Counts (P.place out.old) (P.place out.new)
        (shortest (item_of (Message.Response session initiator.now ttl answer.now objective.now))) result }
    ensures range { OnOk result (P.Keeps → IsMessage (Message.Response session initiator.now ttl answer.now objective.now)) }
{
    let count = 4 + count_of_response(answer, objective);
    put_timed_start(count, 2, session, initiator, ttl, out)?;
    put_response_end(answer, objective, out)
}

/// How many parts of a response follow its first four.
#[tactic(auto, using(crate::proofs::Putting::putting))]
pub(crate) fn count_of_response(answer: &Answer, objective: &Option<Objective>) -> u64
    ensures value { result ≡ length (answer_items answer.now ++ optional (option_map objective_item objective.now)) }
    ensures few { result ≤ 2 ^ 63 }
{
    match objective {
        Some(_) => count_of_answer(answer) + 1,
        None => count_of_answer(answer),
    }
}

/// Puts the parts of a response behind its first four.
#[tactic(auto, using(crate::proofs::Putting::putting))]
fn put_response_end<P: Put>(
    answer: &Answer,
    objective: &Option<Objective>,
    out: &mut P,
) -> Result<(), Full>
    ensures puts { Puts P.Keeps P.Counts (P.place out.old) (P.place out.new)
        (shortest_parts (answer_items answer.now ++ optional (option_map objective_item objective.now))) result }
    ensures answer { OnOk result (IsAnswer answer.now) }
    ensures objective { OnOk result (P.Keeps → IfSome objective.now IsObjective) }
{
    put_answer(answer, out)?;
    put_some_objective(objective, out)
}

#[tactic(auto, using(crate::proofs::Putting::putting))]
pub(crate) fn put_end<P: Put>(session: u32, verdict: &Verdict, out: &mut P) -> Result<(), Full>
    ensures puts { Puts P.Keeps P.Counts (P.place out.old) (P.place out.new)
        (shortest (item_of (Message.End session verdict.now))) result }
    ensures range { OnOk result (IsMessage (Message.End session verdict.now)) }
{
    put_start(3, 6, session, out)?;
    put_verdict(verdict, out)
}

#[tactic(auto, using(crate::proofs::Putting::putting))]
fn put_wait<P: Put>(session: u32, millis: u32, out: &mut P) -> Result<(), Full>
    ensures puts { Puts P.Keeps P.Counts (P.place out.old) (P.place out.new)
        (shortest (item_of (Message.Wait session millis))) result }
    ensures range { IsMessage (Message.Wait session millis) }
{
    put_start(3, 7, session, out)?;
    out.unsigned(u64::from(millis))
}

#[tactic(auto, using(crate::proofs::Putting::putting))]
pub(crate) fn put_flood<P: Put>(
    session: u32,
    initiator: &Address,
    ttl: u32,
    parts: &FloodParts,
    out: &mut P,
) -> Result<(), Full>
    ensures puts { Puts P.Keeps P.Counts (P.place out.old) (P.place out.new)
        (shortest (item_of (Message.Flood session initiator.now ttl parts.now))) result }
    ensures range { OnOk result (P.Keeps → IsMessage (Message.Flood session initiator.now ttl parts.now)) }
{
    put_timed_start(4 + parts.len(), 9, session, initiator, ttl, out)?;
    put_flood_parts(parts, out)
}

/// Puts a flood of one part.
#[tactic(auto, using(crate::proofs::Putting::putting))]
pub(crate) fn put_flood_of_one<P: Put>(
    session: u32,
    initiator: &Address,
    ttl: u32,
    part: &FloodPart,
    out: &mut P,
) -> Result<(), Full>
    ensures puts { Puts P.Keeps P.Counts (P.place out.old) (P.place out.new)
        (shortest (item_of (Message.Flood session initiator.now ttl (part.now ∷ [])))) result }
{
    put_timed_start(5, 9, session, initiator, ttl, out)?;
    put_flood_part(part, out)
}

#[tactic(auto, using(crate::proofs::Putting::putting))]
pub(crate) fn put_invalid<P: Put>(
    session: u32,
    detail: &Option<Value>,
    out: &mut P,
) -> Result<(), Full>
    ensures puts { Puts P.Keeps P.Counts (P.place out.old) (P.place out.new)
        (shortest (item_of (Message.Invalid session detail.now))) result }
    ensures range { OnOk result (P.Keeps → IsMessage (Message.Invalid session detail.now)) }
{
    match detail {
        Some(detail) => {
            put_start(3, 99, session, out)?;
            out.value(detail)
        }
        None => put_start(2, 99, session, out),
    }
}
