//! The program's one call.

ghost use Rattle.std.specs.Prelude.{◌≡◌, ◌≢◌, ◌<◌, ◌⊎◌, true, false, [], length, map, string_bytes, None, Some, IfSome};
ghost use Rattle.std.specs.Io.KnownBytes.{Appends};
ghost use Rattle.grasp_config.specs.Laws.{IsInRange};
ghost use Rattle.grasp_config.specs.declared.fault.ConfigKey.{ConfigKey};
ghost use Rattle.grasp_io.specs.Faults.{Rose};
ghost use Rattle.grasp_io.specs.Known.{AppendsFront, IsEndOf};
ghost use Rattle.grasp_io.specs.Told.{Stays};
ghost use Rattle.grasp_node_main.specs.Lines.{crew_text};
ghost use Rattle.grasp_node_main.specs.Program.{is_run, SomeInput, IsSmall, IsLarge, IsBadWithin, IsConfiguredWithin, IsBeforeLinks, IsAfterConfig};
ghost use Rattle.grasp_node_main.specs.Program.{IsAfterInput, IsOfConfig, IsOfTurns, NothingPassed, RunsPlan, RunsConfig, RunsInput, BeginsPlan};
ghost use Rattle.grasp_node_main.specs.Program.{BeginsConfig, BeginsInput, NoTurn, TurnsOfConfig, NoneOrAllTurns, EndsSo, EndsBadly, EndsLarge};
ghost use Rattle.grasp_node_main.specs.Runs.{Ran, workers_of};
ghost use Rattle.grasp_node_main.specs.Tells.{links_told, told};

use crate::daemon::Daemon;
use crate::exit::Status;
use crate::gate::{Gate, OpenGate};
use crate::lines::text_of;
use crate::plan::DaemonPlan;
use crate::planning::{daemon_plan, link_plan};
use crate::run::run_node;
use grasp_cbor::OutOfMemory;
use grasp_config::{
    ConfigFault, NodeConfig, configs_are_in_range, configs_have_no_bad_key, read_config,
    texts_have_one_bad_key,
};
use grasp_io::{Clock, Links, ReadError, Sink, Source, read_all, write_all};
use std::alloc::Global;
use std::sync::Wait;
use std::thread::Threads;

/// The most bytes that a configuration may have.
const CONFIG_LIMIT: u64 = 65_536;

/// Runs the node that the source configures, and says how it ended.
///
/// The words are to be `run` and one more, which names what the source reads. The source is read to its end, and the
/// links are opened with the plan of the configuration. Then the agent that manages prefixes makes its opening calls, and
/// the node makes its turns. At the end it writes a line of the prefixes that it holds, one for each want and one for each
/// reader. `OutOfMemory` may come wherever memory is wanted: before the first turn, or after the last one, where agents may
/// have stopped. Nothing was written then.
pub fn node_main<R: Threads + Wait + Sync, S: Source, K: Sink, L: Links, C: Clock>(
    rt: &R,
    alloc: Global,
    words: &[String],
    source: &mut S,
    sink: &mut K,
    links: &mut L,
    clock: &mut C,
    seed: [u8; 32],
) -> Status
    // The words come first: where they are no call, nothing is touched.
    ensures usage { is_run (map string_bytes words.now) ≡ false → result ≡ Status.Usage }
    ensures no_usage { is_run (map string_bytes words.now) ≡ true → result ≢ Status.Usage }
    ensures unread { result ≡ Status.Usage → source.new ≡ source.old }

    // Then the configuration is read to its end, at most 65,536 bytes. What is so of it is so of some input; where the source tells
    // what it has left to read, it is that one.
    ensures read_fault { result ≡ Status.ReadFault → Rose (S.faults source.old) (S.faults source.new) }
    ensures too_large { result ≡ Status.TooLarge → SomeInput (S.left source.old) IsLarge }
    ensures small { IsAfterInput result → SomeInput (S.left source.old) IsSmall }
    ensures read_to_end { IsAfterInput result → IfSome (S.left source.old) (λ _. S.left source.new ≡ Some []) }
    ensures rest { IsEndOf (S.left source.old) (S.left source.new) }
    ensures bad_config { (key : ConfigKey) → result ≡ Status.BadConfig key → SomeInput (S.left source.old) (IsBadWithin key) }
    ensures configured { IsAfterConfig result → SomeInput (S.left source.old) IsConfiguredWithin }
    ensures untouched { IsBeforeLinks result → links.new ≡ links.old }
    ensures clock_untouched { IsBeforeLinks result → clock.new ≡ clock.old }

    // Then the links are opened once, with the plan of the configuration. After a fault of that no plan is told.
    ensures link_fault { result ≡ Status.LinkFault → Rose (L.faults links.old) (L.faults links.new) }
    ensures nothing_passed { result ≡ Status.LinkFault → NothingPassed (links_told L.Links links.old) (links_told L.Links links.new) }
    ensures unopened { result ≡ Status.LinkFault → Stays (L.plans links.old) (L.plans links.new) }
    ensures clock_unread { result ≡ Status.LinkFault → clock.new ≡ clock.old }

    // Then the node is opened and makes its turns, and its lines are written. After a fault of writing a front of them is; where memory is
    // wanted, no turn was made, whether the links were opened or not, or all were.
    ensures done { result ≡ Status.Ok → RunsInput (S.left source.old) seed (told (C.readings clock.old) (links_told L.Links links.old))
        (told (C.readings clock.new) (links_told L.Links links.new)) (K.written sink.old) (K.written sink.new) }
    ensures write_fault { result ≡ Status.WriteFault → Rose (K.faults sink.old) (K.faults sink.new) }
    ensures begun { result ≡ Status.WriteFault → BeginsInput (S.left source.old) seed (told (C.readings clock.old) (links_told L.Links links.old))
        (told (C.readings clock.new) (links_told L.Links links.new)) (K.written sink.old) (K.written sink.new) }
    ensures unwritten { result ≢ Status.Ok → result ≢ Status.WriteFault → sink.new ≡ sink.old }
    ensures memory { result ≡ Status.OutOfMemory → NoneOrAllTurns (links.new ≡ links.old) (clock.new ≡ clock.old) (S.left source.old) seed
        (told (C.readings clock.old) (links_told L.Links links.old)) (told (C.readings clock.new) (links_told L.Links links.new)) }

    // Where nothing outside fails, the input alone decides, unless memory is wanted.
    ensures complete { is_run (map string_bytes words.now) ≡ true → ¬ Rose (S.faults source.old) (S.faults source.new)
        → ¬ Rose (L.faults links.old) (L.faults links.new) → ¬ Rose (K.faults sink.old) (K.faults sink.new)
        → SomeInput (S.left source.old) (EndsSo result) }
    ensures complete_bad { is_run (map string_bytes words.now) ≡ true → ¬ Rose (S.faults source.old) (S.faults source.new)
        → SomeInput (S.left source.old) (EndsBadly result) }
    ensures complete_large { is_run (map string_bytes words.now) ≡ true → ¬ Rose (S.faults source.old) (S.faults source.new)
        → SomeInput (S.left source.old) (EndsLarge result) }
{
    node_run(
        rt, alloc, words, source, sink, links, clock, seed, &OpenGate,
    )
}

/// The same with a gate, which is asked before each call that an agent makes in a turn.
pub fn node_run<R: Threads + Wait + Sync, S: Source, K: Sink, L: Links, C: Clock, G: Gate + Sync>(
    rt: &R,
    alloc: Global,
    words: &[String],
    source: &mut S,
    sink: &mut K,
    links: &mut L,
    clock: &mut C,
    seed: [u8; 32],
    gate: &G,
) -> Status
    // The words come first: where they are no call, nothing is touched.
    ensures usage { is_run (map string_bytes words.now) ≡ false → result ≡ Status.Usage }
    ensures no_usage { is_run (map string_bytes words.now) ≡ true → result ≢ Status.Usage }
    ensures unread { result ≡ Status.Usage → source.new ≡ source.old }

    // Then the configuration is read to its end, at most 65,536 bytes. What is so of it is so of some input; where the source tells
    // what it has left to read, it is that one.
    ensures read_fault { result ≡ Status.ReadFault → Rose (S.faults source.old) (S.faults source.new) }
    ensures too_large { result ≡ Status.TooLarge → SomeInput (S.left source.old) IsLarge }
    ensures small { IsAfterInput result → SomeInput (S.left source.old) IsSmall }
    ensures read_to_end { IsAfterInput result → IfSome (S.left source.old) (λ _. S.left source.new ≡ Some []) }
    ensures rest { IsEndOf (S.left source.old) (S.left source.new) }
    ensures bad_config { (key : ConfigKey) → result ≡ Status.BadConfig key → SomeInput (S.left source.old) (IsBadWithin key) }
    ensures configured { IsAfterConfig result → SomeInput (S.left source.old) IsConfiguredWithin }
    ensures untouched { IsBeforeLinks result → links.new ≡ links.old }
    ensures clock_untouched { IsBeforeLinks result → clock.new ≡ clock.old }

    // Then the links are opened once, with the plan of the configuration. After a fault of that no plan is told.
    ensures link_fault { result ≡ Status.LinkFault → Rose (L.faults links.old) (L.faults links.new) }
    ensures nothing_passed { result ≡ Status.LinkFault → NothingPassed (links_told L.Links links.old) (links_told L.Links links.new) }
    ensures unopened { result ≡ Status.LinkFault → Stays (L.plans links.old) (L.plans links.new) }
    ensures clock_unread { result ≡ Status.LinkFault → clock.new ≡ clock.old }

    // Then the node is opened and makes its turns, and its lines are written. After a fault of writing a front of them is; where memory is
    // wanted, no turn was made, whether the links were opened or not, or all were.
    ensures done { result ≡ Status.Ok → RunsInput (S.left source.old) seed (told (C.readings clock.old) (links_told L.Links links.old))
        (told (C.readings clock.new) (links_told L.Links links.new)) (K.written sink.old) (K.written sink.new) }
    ensures write_fault { result ≡ Status.WriteFault → Rose (K.faults sink.old) (K.faults sink.new) }
    ensures begun { result ≡ Status.WriteFault → BeginsInput (S.left source.old) seed (told (C.readings clock.old) (links_told L.Links links.old))
        (told (C.readings clock.new) (links_told L.Links links.new)) (K.written sink.old) (K.written sink.new) }
    ensures unwritten { result ≢ Status.Ok → result ≢ Status.WriteFault → sink.new ≡ sink.old }
    ensures memory { result ≡ Status.OutOfMemory → NoneOrAllTurns (links.new ≡ links.old) (clock.new ≡ clock.old) (S.left source.old) seed
        (told (C.readings clock.old) (links_told L.Links links.old)) (told (C.readings clock.new) (links_told L.Links links.new)) }

    // Where nothing outside fails, the input alone decides, unless memory is wanted.
    ensures complete { is_run (map string_bytes words.now) ≡ true → ¬ Rose (S.faults source.old) (S.faults source.new)
        → ¬ Rose (L.faults links.old) (L.faults links.new) → ¬ Rose (K.faults sink.old) (K.faults sink.new)
        → SomeInput (S.left source.old) (EndsSo result) }
    ensures complete_bad { is_run (map string_bytes words.now) ≡ true → ¬ Rose (S.faults source.old) (S.faults source.new)
        → SomeInput (S.left source.old) (EndsBadly result) }
    ensures complete_large { is_run (map string_bytes words.now) ≡ true → ¬ Rose (S.faults source.old) (S.faults source.new)
        → SomeInput (S.left source.old) (EndsLarge result) }
{
    if is_run(words) {
        configs_have_no_bad_key();
        texts_have_one_bad_key();
        run_input(rt, alloc, source, sink, links, clock, seed, gate)
    } else {
        Status::Usage
    }
}

/// Whether the words are `run` and one more.
fn is_run(words: &[String]) -> bool
    ensures { result ≡ is_run (map string_bytes words.now) }
{
    match words {
        [word, _file] => word.as_str() == "run",
        _ => false,
    }
}

/// Reads the configuration, and runs its node.
#[tactic(auto, using(crate::proofs::MainRuns::runs_input, crate::proofs::MainRuns::begins_input, crate::proofs::MainRuns::stops_at_input, crate::proofs::MainRuns::stops_at_config, crate::proofs::MainRuns::in_range, crate::proofs::MainRuns::configured, crate::proofs::MainRuns::bad_input, crate::proofs::MainRuns::small_input))]
fn run_input<R: Threads + Wait + Sync, S: Source, K: Sink, L: Links, C: Clock, G: Gate + Sync>(
    rt: &R,
    alloc: Global,
    source: &mut S,
    sink: &mut K,
    links: &mut L,
    clock: &mut C,
    seed: [u8; 32],
    gate: &G,
) -> Status
    ensures no_usage { result ≢ Status.Usage }
    ensures read_fault { result ≡ Status.ReadFault → Rose (S.faults source.old) (S.faults source.new) }
    ensures too_large { result ≡ Status.TooLarge → SomeInput (S.left source.old) IsLarge }
    ensures small { IsAfterInput result → SomeInput (S.left source.old) IsSmall }
    ensures read_to_end { IsAfterInput result → IfSome (S.left source.old) (λ _. S.left source.new ≡ Some []) }
    ensures rest { IsEndOf (S.left source.old) (S.left source.new) }
    ensures bad_config { (key : ConfigKey) → result ≡ Status.BadConfig key → SomeInput (S.left source.old) (IsBadWithin key) }
    ensures configured { IsAfterConfig result → SomeInput (S.left source.old) IsConfiguredWithin }
    ensures untouched { IsBeforeLinks result → links.new ≡ links.old }
    ensures clock_untouched { IsBeforeLinks result → clock.new ≡ clock.old }
    ensures link_fault { result ≡ Status.LinkFault → Rose (L.faults links.old) (L.faults links.new) }
    ensures nothing_passed { result ≡ Status.LinkFault → NothingPassed (links_told L.Links links.old) (links_told L.Links links.new) }
    ensures unopened { result ≡ Status.LinkFault → Stays (L.plans links.old) (L.plans links.new) }
    ensures clock_unread { result ≡ Status.LinkFault → clock.new ≡ clock.old }
    ensures done { result ≡ Status.Ok → RunsInput (S.left source.old) seed (told (C.readings clock.old) (links_told L.Links links.old))
        (told (C.readings clock.new) (links_told L.Links links.new)) (K.written sink.old) (K.written sink.new) }
    ensures write_fault { result ≡ Status.WriteFault → Rose (K.faults sink.old) (K.faults sink.new) }
    ensures begun { result ≡ Status.WriteFault → BeginsInput (S.left source.old) seed (told (C.readings clock.old) (links_told L.Links links.old))
        (told (C.readings clock.new) (links_told L.Links links.new)) (K.written sink.old) (K.written sink.new) }
    ensures unwritten { result ≢ Status.Ok → result ≢ Status.WriteFault → sink.new ≡ sink.old }
    ensures memory { result ≡ Status.OutOfMemory → NoneOrAllTurns (links.new ≡ links.old) (clock.new ≡ clock.old) (S.left source.old) seed
        (told (C.readings clock.old) (links_told L.Links links.old)) (told (C.readings clock.new) (links_told L.Links links.new)) }
{
    let input = match read_all(alloc, source, CONFIG_LIMIT) {
        Ok(input) => input,
        Err(ReadError::Fault) => return Status::ReadFault,
        Err(ReadError::TooLarge) => return Status::TooLarge,
        Err(ReadError::OutOfMemory) => return Status::OutOfMemory,
    };
    configs_are_in_range();
    match read_config(alloc, &input) {
        Ok(config) => run_config(rt, alloc, config, sink, links, clock, seed, gate),
        Err(ConfigFault::BadConfig { key }) => Status::BadConfig { key },
        Err(ConfigFault::OutOfMemory) => Status::OutOfMemory,
    }
}

/// Opens the links of the configuration, and runs its node.
#[tactic(auto, using(crate::proofs::MainRuns::opens_links, crate::proofs::MainRuns::runs_config, crate::proofs::MainRuns::begins_config, crate::proofs::MainRuns::stops_at_plans, crate::proofs::MainRuns::stops_at_turns, crate::proofs::Configured::few_beacons, crate::proofs::Configured::few_readers))]
fn run_config<R: Threads + Wait + Sync, K: Sink, L: Links, C: Clock, G: Gate + Sync>(
    rt: &R,
    alloc: Global,
    config: NodeConfig,
    sink: &mut K,
    links: &mut L,
    clock: &mut C,
    seed: [u8; 32],
    gate: &G,
) -> Status
    requires { IsInRange config }
    ensures ends { IsOfConfig result }
    ensures link_fault { result ≡ Status.LinkFault → Rose (L.faults links.old) (L.faults links.new) }
    ensures nothing_passed { result ≡ Status.LinkFault → NothingPassed (links_told L.Links links.old) (links_told L.Links links.new) }
    ensures unopened { result ≡ Status.LinkFault → Stays (L.plans links.old) (L.plans links.new) }
    ensures clock_unread { result ≡ Status.LinkFault → clock.new ≡ clock.old }
    ensures done { result ≡ Status.Ok → RunsConfig config seed (told (C.readings clock.old) (links_told L.Links links.old))
        (told (C.readings clock.new) (links_told L.Links links.new)) (K.written sink.old) (K.written sink.new) }
    ensures write_fault { result ≡ Status.WriteFault → Rose (K.faults sink.old) (K.faults sink.new) }
    ensures begun { result ≡ Status.WriteFault → BeginsConfig config seed (told (C.readings clock.old) (links_told L.Links links.old))
        (told (C.readings clock.new) (links_told L.Links links.new)) (K.written sink.old) (K.written sink.new) }
    ensures unwritten { result ≢ Status.Ok → result ≢ Status.WriteFault → sink.new ≡ sink.old }
    ensures memory { result ≡ Status.OutOfMemory → NoTurn (links.new ≡ links.old) (clock.new ≡ clock.old) config (links_told L.Links links.old)
        (links_told L.Links links.new) ⊎ TurnsOfConfig config seed (told (C.readings clock.old) (links_told L.Links links.old))
        (told (C.readings clock.new) (links_told L.Links links.new)) }
{
    let Ok(joining) = link_plan(&config) else {
        return Status::OutOfMemory;
    };
    let Ok(plan) = daemon_plan(alloc, config, seed) else {
        return Status::OutOfMemory;
    };
    match links.open(&joining) {
        Ok(()) => run_plan(rt, alloc, plan, sink, links, clock, gate),
        Err(_) => Status::LinkFault,
    }
}

/// Runs the node of the plan over links that are open, and writes its lines.
#[tactic(auto, using(crate::proofs::MainRuns::runs_plan, crate::proofs::MainRuns::begins_plan, crate::proofs::MainRuns::stops_at_lines))]
fn run_plan<R: Threads + Wait + Sync, K: Sink, L: Links, C: Clock, G: Gate + Sync>(
    rt: &R,
    alloc: Global,
    plan: DaemonPlan,
    sink: &mut K,
    links: &mut L,
    clock: &mut C,
    gate: &G,
) -> Status
    requires beacons { length plan.beacons < 255 }
    requires readers { length plan.readers < 255 }
    ensures ends { IsOfTurns result }
    ensures done { result ≡ Status.Ok → RunsPlan plan (told (C.readings clock.old) (links_told L.Links links.old))
        (told (C.readings clock.new) (links_told L.Links links.new)) (K.written sink.old) (K.written sink.new) }
    ensures write_fault { result ≡ Status.WriteFault → Rose (K.faults sink.old) (K.faults sink.new) }
    ensures begun { result ≡ Status.WriteFault → BeginsPlan plan (told (C.readings clock.old) (links_told L.Links links.old))
        (told (C.readings clock.new) (links_told L.Links links.new)) (K.written sink.old) (K.written sink.new) }
    ensures unwritten { result ≡ Status.OutOfMemory → sink.new ≡ sink.old }
    ensures memory { result ≡ Status.OutOfMemory → ((links.new ≡ links.old) × (clock.new ≡ clock.old))
        ⊎ Ran plan (told (C.readings clock.old) (links_told L.Links links.old)) (told (C.readings clock.new) (links_told L.Links links.new)) None }
{
    match run_node(rt, alloc, plan, links, clock, gate) {
        Ok(daemon) => write_lines(alloc, &daemon, sink),
        Err(OutOfMemory) => Status::OutOfMemory,
    }
}

/// Writes the lines of the node's agents.
fn write_lines<K: Sink>(alloc: Global, daemon: &Daemon, sink: &mut K) -> Status
    ensures ends { IsOfTurns result }
    ensures written { result ≡ Status.Ok → Appends (K.written sink.old) (K.written sink.new) (crew_text (workers_of daemon.now.seats.items)) }
    ensures write_fault { result ≡ Status.WriteFault → Rose (K.faults sink.old) (K.faults sink.new) }
    ensures begun { result ≡ Status.WriteFault
        → AppendsFront (K.written sink.old) (K.written sink.new) (crew_text (workers_of daemon.now.seats.items)) }
    ensures unwritten { result ≡ Status.OutOfMemory → sink.new ≡ sink.old }
{
    let Ok(text) = text_of(alloc, daemon) else {
        return Status::OutOfMemory;
    };
    match write_all(sink, text.as_bytes()) {
        Ok(()) => Status::Ok,
        Err(_) => Status::WriteFault,
    }
}
