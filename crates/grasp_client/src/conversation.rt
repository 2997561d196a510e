//! A whole conversation with a node.
ghost use Rattle.std.specs.Prelude.{◌≡◌, ◌≤◌, ◌⊎◌, map, IsErrOf, OnOk, IfOk};
ghost use Rattle.grasp_io.specs.Faults.{Rose};
ghost use Rattle.grasp_client.specs.Asking.{Conversed, Dialogue, Follows, CopiesAll, Talks, question_words};
ghost use Rattle.grasp_client.specs.Lines.{RunsOut};
ghost use Rattle.grasp_client.specs.Reading.{Got};
ghost use Rattle.grasp_client.specs.declared.ending.Ending.{Ending};

use crate::asking::ask;
use crate::lines::{Read, Trouble, copy_line, read_line};
use crate::{Ending, Question, Task};
use grasp_io::{Sink, Source};
use std::alloc::Global;

/// What tells the whole state of a node.
const STATUS: [Question; 5] = [
    Question::Version,
    Question::State,
    Question::Wants,
    Question::Reads,
    Question::Counters,
];

/// Asks the node all that the task asks, and copies each line that the node says.
///
/// `node` gives what the node says, and `to_node` takes what it is asked. `input` is read for `Talk` alone; a last line without an
/// end is asked too. After an `Err` a part was asked, and a front of what the node said was copied, perhaps with a part of a line
/// where writing failed.
pub fn converse<S: Source, N: Source, W: Sink, K: Sink>(
    alloc: Global,
    task: Task,
    input: &mut S,
    node: &mut N,
    to_node: &mut W,
    out: &mut K,
) -> Result<(), Ending>
    ensures conversed { OnOk result (Conversed task (S.left input.old) (W.written to_node.old) (W.written to_node.new)
        (N.left node.old) (N.left node.new) (K.written out.old) (K.written out.new)) }
    ensures ended { IsErrOf result Ending.Ended → RunsOut (N.left node.old) (N.left node.new) }
    ensures node_fault { IsErrOf result Ending.NodeFault
        → Rose (N.faults node.old) (N.faults node.new) ⊎ Rose (W.faults to_node.old) (W.faults to_node.new) }
    ensures input_fault { IsErrOf result Ending.InputFault → Rose (S.faults input.old) (S.faults input.new) }
    ensures write_fault { IsErrOf result Ending.WriteFault → Rose (K.faults out.old) (K.faults out.new) }
{
    match task {
        Task::Status => ask_all(alloc, &STATUS, node, to_node, out),
        Task::Events => watch(alloc, Question::Events, node, to_node, out),
        Task::Talk => talk(alloc, input, node, to_node, out),
        Task::Stop => watch(alloc, Question::Stop, node, to_node, out),
    }
}

/// Asks these questions.
fn ask_all<N: Source, W: Sink, K: Sink>(
    alloc: Global,
    questions: &[Question],
    node: &mut N,
    to_node: &mut W,
    out: &mut K,
) -> Result<(), Ending>
    ensures dialogue { OnOk result (Dialogue (map question_words questions.now) (W.written to_node.old) (W.written to_node.new)
        (N.left node.old) (N.left node.new) (K.written out.old) (K.written out.new)) }
    ensures ended { IsErrOf result Ending.Ended → RunsOut (N.left node.old) (N.left node.new) }
    ensures node_fault { IsErrOf result Ending.NodeFault
        → Rose (N.faults node.old) (N.faults node.new) ⊎ Rose (W.faults to_node.old) (W.faults to_node.new) }
    ensures no_input { IsErrOf result Ending.InputFault → ⊥ }
    ensures write_fault { IsErrOf result Ending.WriteFault → Rose (K.faults out.old) (K.faults out.new) }
{
    for question in questions {
        ask(alloc, question.words(), node, to_node, out)?;
    }
    Ok(())
}

/// Asks this question, and then copies what the node says until it ends.
fn watch<N: Source, W: Sink, K: Sink>(
    alloc: Global,
    question: Question,
    node: &mut N,
    to_node: &mut W,
    out: &mut K,
) -> Result<(), Ending>
    ensures follows { OnOk result (Follows (question_words question) (W.written to_node.old) (W.written to_node.new)
        (N.left node.old) (N.left node.new) (K.written out.old) (K.written out.new)) }
    ensures ended { IsErrOf result Ending.Ended → RunsOut (N.left node.old) (N.left node.new) }
    ensures node_fault { IsErrOf result Ending.NodeFault
        → Rose (N.faults node.old) (N.faults node.new) ⊎ Rose (W.faults to_node.old) (W.faults to_node.new) }
    ensures no_input { IsErrOf result Ending.InputFault → ⊥ }
    ensures write_fault { IsErrOf result Ending.WriteFault → Rose (K.faults out.old) (K.faults out.new) }
{
    ask(alloc, question.words(), node, to_node, out)?;
    follow(alloc, node, out)
}

/// Copies what the node says until it ends.
fn follow<N: Source, K: Sink>(alloc: Global, node: &mut N, out: &mut K) -> Result<(), Ending>
    ensures copied { OnOk result (CopiesAll (N.left node.old) (N.left node.new) (K.written out.old) (K.written out.new)) }
    ensures ended { IsErrOf result Ending.Ended → ⊥ }
    ensures node_fault { IsErrOf result Ending.NodeFault → Rose (N.faults node.old) (N.faults node.new) }
    ensures no_input { IsErrOf result Ending.InputFault → ⊥ }
    ensures write_fault { IsErrOf result Ending.WriteFault → Rose (K.faults out.old) (K.faults out.new) }
    ensures node_faults { N.faults node.old ≤ N.faults node.new }
    ensures out_faults { K.faults out.old ≤ K.faults out.new }
{
    for _ in 0..u64::MAX {
        match copy_line(alloc, node, out) {
            Ok(_) => {}
            Err(Ending::Ended) => return Ok(()),
            Err(ending) => return Err(ending),
        }
    }
    Err(Ending::OutOfMemory)
}

/// Asks the lines of the input.
fn talk<S: Source, N: Source, W: Sink, K: Sink>(
    alloc: Global,
    input: &mut S,
    node: &mut N,
    to_node: &mut W,
    out: &mut K,
) -> Result<(), Ending>
    ensures talked { OnOk result (Talks (S.left input.old) (W.written to_node.old) (W.written to_node.new)
        (N.left node.old) (N.left node.new) (K.written out.old) (K.written out.new)) }
    ensures ended { IsErrOf result Ending.Ended → RunsOut (N.left node.old) (N.left node.new) }
    ensures node_fault { IsErrOf result Ending.NodeFault
        → Rose (N.faults node.old) (N.faults node.new) ⊎ Rose (W.faults to_node.old) (W.faults to_node.new) }
    ensures input_fault { IsErrOf result Ending.InputFault → Rose (S.faults input.old) (S.faults input.new) }
    ensures write_fault { IsErrOf result Ending.WriteFault → Rose (K.faults out.old) (K.faults out.new) }
{
    for _ in 0..u64::MAX {
        match next_line(alloc, input)? {
            Read::Line(line) => ask(alloc, &line, node, to_node, out)?,
            Read::Rest(rest) => {
                if rest.is_empty() {
                    return Ok(());
                }
                return ask(alloc, &rest, node, to_node, out);
            }
        }
    }
    Err(Ending::OutOfMemory)
}

/// The next line of the input.
fn next_line<S: Source>(alloc: Global, input: &mut S) -> Result<Read, Ending>
    ensures given { IfOk result (Got (S.left input.old) (S.left input.new)) }
    ensures input_fault { IsErrOf result Ending.InputFault → Rose (S.faults input.old) (S.faults input.new) }
    ensures no_end { IsErrOf result Ending.Ended → ⊥ }
    ensures no_node_fault { IsErrOf result Ending.NodeFault → ⊥ }
    ensures no_write_fault { IsErrOf result Ending.WriteFault → ⊥ }
    ensures never_falls { S.faults input.old ≤ S.faults input.new }
{
    match read_line(alloc, input) {
        Ok(read) => Ok(read),
        Err(Trouble::Fault) => Err(Ending::InputFault),
        Err(Trouble::OutOfMemory) => Err(Ending::OutOfMemory),
    }
}
