//! The program's one call.
ghost use Rattle.std.specs.Prelude.{◌≡◌, ◌≢◌, ◌≤◌, ◌⊎◌, ℕ, [], Some, None, map, length, string_bytes, IfOk, IfErr, IfSome, IsSome, IsErrOf};
ghost use Rattle.grasp_io.specs.Faults.{Rose};
ghost use Rattle.grasp_replay_main.specs.Ending.{IsAfterInput};
ghost use Rattle.grasp_replay_main.specs.Laws.{EndsSo, IsBadWithin, IsWholeInput};
ghost use Rattle.grasp_replay_main.specs.Limits.{input_limit, message_limit};
ghost use Rattle.grasp_replay_main.specs.Made.{IsMade};
ghost use Rattle.grasp_replay_main.specs.Task.{task_of, ReadsInput, input_of, Makes, MayBegin, Tells, BeginsToTell, IsReadToEnd, IsDone, IsOfInput, HasTooManyLines, IsTooLarge, IsUnfinished, SomeInput};
ghost use Rattle.grasp_runner.specs.Written as ran;
ghost use Rattle.grasp_replay_main.specs.Written.{Writes};
ghost use Rattle.grasp_replay_main.specs.declared.task.Task.{Task};

use crate::audit::audit;
use crate::drawn::{draw, generate};
use crate::exit::Status;
use crate::keep::keep;
use crate::pack::pack;
use crate::record::record;
use crate::replay::replay;
use crate::resolve::resolve;
use crate::show::show;
use crate::task::{Task, task_of};
use crate::unfinished::Unfinished;
use grasp_io::{ReadError, Sink, Source, read_all};
use grasp_laws_audit::audits_agree;
use std::alloc::Global;

/// The most bytes that the input may have.
const INPUT_LIMIT: u64 = 16_777_216;

/// The most bytes that a message may have.
const MESSAGE_LIMIT: u32 = 2048;

/// Does what the words ask for, and says how it ended.
///
/// `show` reads the source to its end and writes a line for each message of the stream that it gives. `pack` reads lines
/// and writes the shortest encoding of the message of each. Where the input is wrong at some place, the status is the
/// finding, and all that comes before that place was written. `replay` reads a script of a network, runs it, and writes
/// the report of each of its lines while it goes. Where the input is no script, the status is `BadScript`, and nothing was
/// written. `keep` does so with a script of a network whose nodes keep their pools on disks, and may crash, and `resolve`
/// with one of a network whose nodes ask each other about doubtful prefixes. `record` does so with a script as `replay`, and
/// writes the record of its run in place of reports. `audit` reads such a record and writes one line that tells how many nodes and
/// lines it has, where it is the record of a run, all of whose networks are safe. Else the status is the finding of the first line that
/// fails, and nothing was written. `gen` reads nothing: it runs the script that is drawn from its number, and then writes one line that
/// tells what the run came to; `draw` writes that script. Where a run sends more than may be sent, the status is `TooLarge`, and of
/// `replay`, `keep` and `resolve` all reports before that were written, of `record` the record of the lines before, and of `audit` and
/// `gen` nothing. `OutOfMemory` may come wherever memory is wanted: a beginning of the output may be written then, but not of that of
/// `audit` and `gen`.
pub fn replay_main<S: Source, K: Sink>(
    alloc: Global,
    words: &[String],
    source: &mut S,
    sink: &mut K,
) -> Status
    // The words come first: where they are no task, nothing is touched. `gen` and `draw` touch no input.
    ensures usage { task_of (map string_bytes words.now) ≡ None → result ≡ Status.Usage }
    ensures no_usage { IsSome (task_of (map string_bytes words.now)) → result ≢ Status.Usage }
    ensures unread { result ≡ Status.Usage → source.new ≡ source.old }
    ensures unread_without_input { (task : Task) → task_of (map string_bytes words.now) ≡ Some task → ¬ ReadsInput task → source.new ≡ source.old }
    ensures unfailed_without_input { (task : Task) → task_of (map string_bytes words.now) ≡ Some task → ¬ ReadsInput task → result ≢ Status.ReadFault }

    // Then the input is read to its end, at most 16,777,216 bytes. Then its lines are counted: for `replay`, `keep`, `resolve` and
    // `record` they are at most 200,000.
    ensures read_fault { result ≡ Status.ReadFault → Rose (S.faults source.old) (S.faults source.new) }
    ensures small { (task : Task) → task_of (map string_bytes words.now) ≡ Some task → IsAfterInput result
        → SomeInput (input_of task (S.left source.old)) (λ input. ¬ IsTooLarge task input) }
    ensures read_to_end { (task : Task) → task_of (map string_bytes words.now) ≡ Some task → ReadsInput task → IsAfterInput result
        → IsReadToEnd (S.left source.old) (S.left source.new) }
    ensures read_all_lines { (task : Task) → task_of (map string_bytes words.now) ≡ Some task → ReadsInput task → result ≡ Status.TooLarge
        → IfSome (S.left source.old) (λ input. length input ≤ input_limit → S.left source.new ≡ Some []) }

    // Then a script is read: where the input is none, its bad line is told.
    ensures bad_script { (task : Task) (line : ℕ) → task_of (map string_bytes words.now) ≡ Some task → result ≡ Status.BadScript line
        → SomeInput (input_of task (S.left source.old)) (IsBadWithin task line) }

    // Then what the task makes of the input is written: all of it, up to the finding.
    ensures done { (task : Task) → task_of (map string_bytes words.now) ≡ Some task → IsDone result
        → Tells task message_limit (S.left source.old) (K.written sink.old) (K.written sink.new) result }
    // The input was too large, and nothing was written; or a run sent too much, and what it reports before that was written.
    ensures too_large { (task : Task) → task_of (map string_bytes words.now) ≡ Some task → result ≡ Status.TooLarge
        → ((sink.new ≡ sink.old) × SomeInput (input_of task (S.left source.old)) (IsTooLarge task))
        ⊎ Tells task message_limit (S.left source.old) (K.written sink.old) (K.written sink.new) Status.TooLarge }
    ensures of_input { IsOfInput result }
    ensures write_fault { result ≡ Status.WriteFault → Rose (K.faults sink.old) (K.faults sink.new) }
    ensures begun { (task : Task) → task_of (map string_bytes words.now) ≡ Some task → result ≡ Status.WriteFault
        → BeginsToTell task message_limit (S.left source.old) (K.written sink.old) (K.written sink.new) }
    ensures begun_for_memory { (task : Task) → task_of (map string_bytes words.now) ≡ Some task → result ≡ Status.OutOfMemory
        → (sink.new ≡ sink.old) ⊎ BeginsToTell task message_limit (S.left source.old) (K.written sink.old) (K.written sink.new) }
    ensures unwritten { ¬ IsDone result → result ≢ Status.WriteFault → result ≢ Status.OutOfMemory → result ≢ Status.TooLarge → sink.new ≡ sink.old }
    ensures unwritten_without_input { (task : Task) → task_of (map string_bytes words.now) ≡ Some task → ¬ ReadsInput task
        → result ≢ Status.Ok → result ≢ Status.WriteFault → sink.new ≡ sink.old }

    // Where nothing outside fails, the input alone decides, unless memory is wanted.
    ensures complete { (task : Task) → task_of (map string_bytes words.now) ≡ Some task
        → ¬ Rose (S.faults source.old) (S.faults source.new) → ¬ Rose (K.faults sink.old) (K.faults sink.new)
        → SomeInput (input_of task (S.left source.old)) (EndsSo task message_limit result) }
{
    audits_agree();
    match task_of(words) {
        Some(task) => run(alloc, task, source, sink),
        None => Status::Usage,
    }
}

/// Carries the task out.
fn run<S: Source, K: Sink>(alloc: Global, task: Task, source: &mut S, sink: &mut K) -> Status
    ensures no_usage { result ≢ Status.Usage }
    ensures unread_without_input { ¬ ReadsInput task → source.new ≡ source.old }
    ensures unfailed_without_input { ¬ ReadsInput task → result ≢ Status.ReadFault }
    ensures read_fault { result ≡ Status.ReadFault → Rose (S.faults source.old) (S.faults source.new) }
    ensures small { IsAfterInput result → SomeInput (input_of task (S.left source.old)) (λ input. ¬ IsTooLarge task input) }
    ensures read_to_end { ReadsInput task → IsAfterInput result → IsReadToEnd (S.left source.old) (S.left source.new) }
    ensures read_all_lines { ReadsInput task → result ≡ Status.TooLarge
        → IfSome (S.left source.old) (λ input. length input ≤ input_limit → S.left source.new ≡ Some []) }
    ensures bad_script { (line : ℕ) → result ≡ Status.BadScript line → SomeInput (input_of task (S.left source.old)) (IsBadWithin task line) }
    ensures done { IsDone result → Tells task message_limit (S.left source.old) (K.written sink.old) (K.written sink.new) result }
    ensures too_large { result ≡ Status.TooLarge
        → ((sink.new ≡ sink.old) × SomeInput (input_of task (S.left source.old)) (IsTooLarge task))
        ⊎ Tells task message_limit (S.left source.old) (K.written sink.old) (K.written sink.new) Status.TooLarge }
    ensures of_input { IsOfInput result }
    ensures write_fault { result ≡ Status.WriteFault → Rose (K.faults sink.old) (K.faults sink.new) }
    ensures begun { result ≡ Status.WriteFault → BeginsToTell task message_limit (S.left source.old) (K.written sink.old) (K.written sink.new) }
    ensures begun_for_memory { result ≡ Status.OutOfMemory
        → (sink.new ≡ sink.old) ⊎ BeginsToTell task message_limit (S.left source.old) (K.written sink.old) (K.written sink.new) }
    ensures unwritten { ¬ IsDone result → result ≢ Status.WriteFault → result ≢ Status.OutOfMemory → result ≢ Status.TooLarge → sink.new ≡ sink.old }
    ensures unwritten_without_input { ¬ ReadsInput task → result ≢ Status.Ok → result ≢ Status.WriteFault → sink.new ≡ sink.old }
    ensures made { IsDone result → SomeInput (input_of task (S.left source.old)) (IsMade task message_limit result) }
{
    match task {
        Task::Gen { number } => generate(alloc, number, sink),
        Task::Draw { number } => draw(alloc, number, sink),
        Task::Show => read_and_write(alloc, task, source, sink),
        Task::Pack => read_and_write(alloc, task, source, sink),
        Task::Replay => read_and_write(alloc, task, source, sink),
        Task::Keep => read_and_write(alloc, task, source, sink),
        Task::Resolve => read_and_write(alloc, task, source, sink),
        Task::Record => read_and_write(alloc, task, source, sink),
        Task::Audit => read_and_write(alloc, task, source, sink),
    }
}

/// Reads the source to its end, and writes what the task makes of it.
fn read_and_write<S: Source, K: Sink>(
    alloc: Global,
    task: Task,
    source: &mut S,
    sink: &mut K,
) -> Status
    requires reads { ReadsInput task }
    ensures no_usage { result ≢ Status.Usage }
    ensures read_fault { result ≡ Status.ReadFault → Rose (S.faults source.old) (S.faults source.new) }
    ensures small { IsAfterInput result → SomeInput (S.left source.old) (λ input. ¬ IsTooLarge task input) }
    ensures read_to_end { IsAfterInput result → IsReadToEnd (S.left source.old) (S.left source.new) }
    ensures read_all_lines { result ≡ Status.TooLarge
        → IfSome (S.left source.old) (λ input. length input ≤ input_limit → S.left source.new ≡ Some []) }
    ensures bad_script { (line : ℕ) → result ≡ Status.BadScript line → SomeInput (S.left source.old) (IsBadWithin task line) }
    ensures done { IsDone result → Tells task message_limit (S.left source.old) (K.written sink.old) (K.written sink.new) result }
    ensures too_large { result ≡ Status.TooLarge
        → ((sink.new ≡ sink.old) × SomeInput (S.left source.old) (IsTooLarge task))
        ⊎ Tells task message_limit (S.left source.old) (K.written sink.old) (K.written sink.new) Status.TooLarge }
    ensures of_input { IsOfInput result }
    ensures write_fault { result ≡ Status.WriteFault → Rose (K.faults sink.old) (K.faults sink.new) }
    ensures begun { result ≡ Status.WriteFault → BeginsToTell task message_limit (S.left source.old) (K.written sink.old) (K.written sink.new) }
    ensures begun_for_memory { result ≡ Status.OutOfMemory
        → (sink.new ≡ sink.old) ⊎ BeginsToTell task message_limit (S.left source.old) (K.written sink.old) (K.written sink.new) }
    ensures unwritten { ¬ IsDone result → result ≢ Status.WriteFault → result ≢ Status.OutOfMemory → result ≢ Status.TooLarge → sink.new ≡ sink.old }
    ensures made { IsDone result → SomeInput (S.left source.old) (IsMade task message_limit result) }
{
    let input = match read_all(alloc, source, INPUT_LIMIT) {
        Ok(input) => input,
        Err(ReadError::Fault) => return Status::ReadFault,
        Err(ReadError::TooLarge) => return Status::TooLarge,
        Err(ReadError::OutOfMemory) => return Status::OutOfMemory,
    };
    match write_made(alloc, task, &input, sink) {
        Ok(status) => status,
        Err(Unfinished::TooLarge) => Status::TooLarge,
        Err(Unfinished::TooMuch) => Status::TooLarge,
        Err(Unfinished::BadScript { line }) => Status::BadScript { line },
        Err(Unfinished::OutOfMemory) => Status::OutOfMemory,
        Err(Unfinished::WriteFault) => Status::WriteFault,
    }
}

/// Writes what the task makes of the input.
fn write_made<K: Sink>(
    alloc: Global,
    task: Task,
    input: &[u8],
    sink: &mut K,
) -> Result<Status, Unfinished>
    requires reads { ReadsInput task }
    ensures done { IfOk result (λ ended. Writes (Makes task message_limit input.now) (K.written sink.old) (K.written sink.new) ended) }
    ensures ended { IfOk result IsDone }
    ensures of_input { IfOk result IsOfInput }
    ensures whole { IfOk result (λ ended. IsWholeInput task message_limit input.now → ended ≡ Status.Ok) }
    ensures few { IfOk result (λ _. ¬ HasTooManyLines task input.now) }
    ensures stopped { IsErrOf result Unfinished.TooMuch
        → Writes (Makes task message_limit input.now) (K.written sink.old) (K.written sink.new) Status.TooLarge }
    ensures begun { IsErrOf result Unfinished.WriteFault
        → ran.Begins (MayBegin task message_limit input.now) (K.written sink.old) (K.written sink.new) }
    ensures begun_for_memory { IsErrOf result Unfinished.OutOfMemory
        → (sink.new ≡ sink.old) ⊎ ran.Begins (MayBegin task message_limit input.now) (K.written sink.old) (K.written sink.new) }
    ensures unwritten { IfErr result (λ unfinished. unfinished ≢ Unfinished.WriteFault → unfinished ≢ Unfinished.OutOfMemory
        → unfinished ≢ Unfinished.TooMuch → sink.new ≡ sink.old) }
    ensures unfinished { IfErr result (λ unfinished. IsUnfinished task input.now unfinished) }
    ensures fault { IsErrOf result Unfinished.WriteFault → Rose (K.faults sink.old) (K.faults sink.new) }
{
    audits_agree();
    match task {
        Task::Show => show(alloc, input, MESSAGE_LIMIT, sink),
        Task::Pack => pack(alloc, input, MESSAGE_LIMIT, sink),
        Task::Replay => replay(alloc, input, sink),
        Task::Keep => keep(alloc, input, sink),
        Task::Resolve => resolve(alloc, input, sink),
        Task::Record => record(alloc, input, sink),
        Task::Audit => audit(alloc, input, sink),
        Task::Gen { .. } | Task::Draw { .. } => unreachable!(),
    }
}
