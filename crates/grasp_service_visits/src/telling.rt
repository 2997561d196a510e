//! What visitors are told.

ghost use Rattle.std.specs.Prelude.{◌≡◌, ◌++◌, ◌∷◌, [], OnOk};
ghost use Rattle.grasp_control.specs.Answers.{answer_line};
ghost use Rattle.grasp_crew.specs.Seats.{without_await};
ghost use Rattle.grasp_script.specs.Answers.{reply_words};
ghost use Rattle.grasp_service_visits.specs.Answers.{told_to};
ghost use Rattle.grasp_service_visits.specs.Desks.{desk_told, TellsOnly};
ghost use Rattle.grasp_service_visits.specs.Visits.{ended_told};
ghost use Rattle.grasp_service_visits.specs.Parts.{TellsAnswer};

use crate::answer::Answer;
use crate::house::House;
use crate::words::{answer_line, reply_line};
use grasp_cbor::{Octets, OutOfMemory};
use grasp_crew::Seat;
use grasp_desk::{Desk, Told};
use grasp_types::{List, Reply};
use std::alloc::Global;

/// Tells visitors these lines, in order.
pub fn tell_all<D: Desk>(desk: &mut D, lines: &[Told])
    ensures { TellsOnly (desk_told D.Desk desk.old) lines.now
        (desk_told D.Desk desk.new) }
{
    for line in lines {
        desk.tell(line.visitor, line.line.bytes());
    }
}

/// Adds the line of an answer to what is to be told, where the answer is there.
pub(crate) fn add_answer(
    alloc: Global,
    house: &House,
    out: &mut List<Told>,
    now: u64,
    visitor: u64,
    line: &Octets,
    answer: &Answer,
) -> Result<(), OutOfMemory>
    ensures { OnOk result (TellsAnswer house.now.crew.items visitor line.now answer.now out.old out.new) }
{
    if answer.is_later() {
        return Ok(());
    }
    let line = answer_line(alloc, house, now, line, answer)?;
    out.push(Told { visitor, line })
}

/// Adds the line by which a call that was awaited is answered.
pub(crate) fn tell_reply(
    alloc: Global,
    out: &mut List<Told>,
    visitor: u64,
    line: &Octets,
    reply: &Reply,
) -> Result<(), OutOfMemory>
    ensures { OnOk result (out.new ≡ out.old ++ told_to visitor (answer_line line.now (reply_words reply.now)) ∷ []) }
{
    let line = reply_line(alloc, line, reply)?;
    out.push(Told { visitor, line })
}

/// Ends what a seat waits for: its visitor is to be told the last reply.
pub(crate) fn end_wait(
    alloc: Global,
    seat: &mut Seat,
    out: &mut List<Told>,
) -> Result<(), OutOfMemory>
    ensures told { OnOk result (out.new ≡ out.old ++ ended_told seat.old) }
    ensures seat { seat.new ≡ without_await seat.old }
{
    let visitor = seat.visitor();
    match seat.end_wait() {
        Some(waited) => {
            let told = tell_reply(alloc, out, visitor, &waited.line, &waited.last);
            drop(waited);
            told
        }
        None => Ok(()),
    }
}
