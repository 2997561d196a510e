//! The summary of the run of a script that is drawn from a number.

ghost use Rattle.std.specs.Prelude.{◌≡◌, ◌≢◌, ◌≤◌, ◌++◌, ◌∷◌, [], OnOk, IfOk, IfErr, IsErrOf, decimal, string_bytes};
ghost use Rattle.grasp_script_draws.specs.Generator.{script_of};
ghost use Rattle.grasp_io.specs.Faults.{Rose};
ghost use Rattle.grasp_model_script.specs.Stops.{SendsTooMuch, TextSendsTooMuch};
ghost use Rattle.grasp_model_script.specs.Summary.{IsSummary, counts_line, counts_words};
ghost use Rattle.grasp_text.specs.Words.{spaced};
ghost use Rattle.grasp_runner.specs.Passing.{IsReady};
ghost use Rattle.grasp_runner.specs.Scripts.{IsRead};
ghost use Rattle.grasp_runner.specs.Tallies.{counted_of, tally_words, HasNodes, TellsCounts, IsCounted, IsSummaryLine};
ghost use Rattle.grasp_runner.specs.Written.{Writes, Begins};

use crate::counting::count_lines;
use crate::drawn::drawn_script;
use crate::fault::RunFault;
use crate::holdings::{count_doubt, count_held};
use crate::tally::Tally;
use grasp_cbor::OutOfMemory;
use grasp_io::{Sink, write_all};
use grasp_model_script::{each_run_is_safe, scripts_restart_nobody};
use grasp_script::Script;
use grasp_simulator::World;
use grasp_text::{push_number, push_word};
use std::alloc::Global;

/// What the summary of a run tells.
#[derive(Clone, Copy)]
pub(crate) struct Counts {
    pub(crate) nodes: u8,
    pub(crate) tally: Tally,
    pub(crate) held: u64,
    pub(crate) doubt: u64,
}

/// Runs the script that is drawn from a number, and writes one line that tells what its run came to, ended by LF.
///
/// Nothing is written before the script has run.
pub fn write_summary<K: Sink>(alloc: Global, number: u64, sink: &mut K) -> Result<(), RunFault>
    ensures done { OnOk result (Writes (IsSummary (script_of number) number) (K.written sink.old) (K.written sink.new)) }
    ensures begun { IsErrOf result RunFault.WriteFault → Begins (IsSummary (script_of number) number) (K.written sink.old) (K.written sink.new) }
    ensures unwritten { IfErr result (λ fault. fault ≢ RunFault.WriteFault → sink.new ≡ sink.old) }
    ensures too_much { IsErrOf result RunFault.TooMuch → TextSendsTooMuch (script_of number) }
    ensures fault { IsErrOf result RunFault.WriteFault → Rose (K.faults sink.old) (K.faults sink.new) }
    ensures never_falls { K.faults sink.old ≤ K.faults sink.new }
{
    let script = drawn_script(alloc, number)?;
    let line = summary_line(alloc, number, &script)?;
    write_all(sink, line.as_bytes())?;
    Ok(())
}

/// The line that tells what the run of the script came to, ended by LF.
fn summary_line(alloc: Global, number: u64, script: &Script) -> Result<String, RunFault>
    requires { IsRead script.now }
    ensures line { IfOk result (λ line. IsSummaryLine number script.now.plan script.now.lines (string_bytes line)) }
    ensures too_much { IsErrOf result RunFault.TooMuch → SendsTooMuch script.now.plan script.now.lines }
    ensures no_write { IfErr result (λ fault. fault ≢ RunFault.WriteFault) }
{
    let counts = count_run(alloc, script)?;
    Ok(counts_line(alloc, number, &counts)?)
}

/// Runs the script, and counts what its summary tells.
fn count_run(alloc: Global, script: &Script) -> Result<Counts, RunFault>
    requires { IsRead script.now }
    ensures counts { IfOk result (λ counts. IsCounted script.now.plan script.now.lines counts) }
    ensures too_much { IsErrOf result RunFault.TooMuch → SendsTooMuch script.now.plan script.now.lines }
    ensures no_write { IfErr result (λ fault. fault ≢ RunFault.WriteFault) }
{
    let plan = script.plan().copy(alloc)?;
    let mut world = World::open(alloc, plan)?;
    count_in(&mut world, script)
}

/// Runs the script in this network, and counts what its summary tells.
fn count_in(world: &mut World, script: &Script) -> Result<Counts, RunFault>
    requires { IsReady world.old script.now }
    ensures counts { IfOk result (λ counts. IsCounted script.now.plan script.now.lines counts) }
    ensures too_much { IsErrOf result RunFault.TooMuch → SendsTooMuch script.now.plan script.now.lines }
    ensures no_write { IfErr result (λ fault. fault ≢ RunFault.WriteFault) }
{
    each_run_is_safe();
    scripts_restart_nobody();
    match count_lines(world, script) {
        Ok(tally) => Ok(tell_counts(world, script.plan().nodes, tally)),
        Err(RunFault::TooMuch) => Err(RunFault::TooMuch),
        Err(RunFault::OutOfMemory) => Err(RunFault::OutOfMemory),
        Err(RunFault::WriteFault) => unreachable!(),
    }
}

/// What the summary tells after the run.
fn tell_counts(world: &World, nodes: u8, tally: Tally) -> Counts
    requires { HasNodes world.now nodes }
    ensures { TellsCounts world.now nodes tally result }
{
    Counts {
        nodes,
        tally,
        held: count_held(world, nodes),
        doubt: count_doubt(world, nodes),
    }
}

/// The line of these counts, ended by LF.
#[tactic(auto, using(crate::proofs::Counted::pushes), unfolding(grasp_model_script::specs::Summary::counts_line))]
fn counts_line(alloc: Global, number: u64, counts: &Counts) -> Result<String, OutOfMemory>
    ensures { IfOk result (λ line. string_bytes line ≡ counts_line number (counted_of counts.now) ++ 10 ∷ []) }
{
    let mut out = String::from_str(alloc, "gen")?;
    push_number(&mut out, number)?;
    push_counts(&mut out, counts)?;
    out.push_str("\n")?;
    Ok(out)
}

/// Appends the counts, each behind its word.
#[tactic(auto, using(crate::proofs::Counted::pushes))]
fn push_counts(out: &mut String, counts: &Counts) -> Result<(), OutOfMemory>
    ensures { OnOk result (string_bytes out.new ≡ string_bytes out.old ++ spaced (counts_words (counted_of counts.now))) }
{
    push_count(out, "nodes", u64::from(counts.nodes))?;
    push_tally(out, counts.tally)?;
    push_count(out, "held", counts.held)?;
    push_count(out, "doubt", counts.doubt)
}

/// Appends what was counted of reports, each number behind its word.
#[tactic(auto, using(crate::proofs::Counted::pushes))]
fn push_tally(out: &mut String, tally: Tally) -> Result<(), OutOfMemory>
    ensures { OnOk result (string_bytes out.new ≡ string_bytes out.old ++ spaced (tally_words tally)) }
{
    push_count(out, "events", tally.events)?;
    push_count(out, "agreed", tally.agreed)?;
    push_count(out, "declined", tally.declined)?;
    push_count(out, "broken", tally.broken)
}

/// Appends a word and a number, each behind a blank.
#[tactic(auto, using(crate::proofs::Counted::pushes))]
fn push_count(out: &mut String, word: &str, n: u64) -> Result<(), OutOfMemory>
    ensures { OnOk result (string_bytes out.new ≡ string_bytes out.old ++ spaced (word.now ∷ decimal n ∷ [])) }
{
    push_word(out, word)?;
    push_number(out, n)
}
