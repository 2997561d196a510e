//! `gen`: the summary of the run of a script that is drawn from a number. `draw`: that script itself.
ghost use Rattle.std.specs.Prelude.{◌≡◌, ◌≢◌};
ghost use Rattle.grasp_io.specs.Faults.{Rose};
ghost use Rattle.grasp_replay_main.specs.Gen.{Summarizes, Overruns, IsGenEnd, IsDrawEnd};
ghost use Rattle.grasp_runner.specs.Written as ran;
ghost use Rattle.grasp_script_draws.specs.Generator.{script_of};

use crate::exit::Status;
use grasp_io::{Sink, write_all};
use grasp_runner::{RunFault, write_summary};
use grasp_script_draws::script_of;
use std::alloc::Global;

/// Runs the script that is drawn from the number, and then writes what it came to, in one line.
pub fn generate<K: Sink>(alloc: Global, number: u64, sink: &mut K) -> Status
    ensures ended { IsGenEnd result }
    ensures done { result ≡ Status.Ok → ran.Writes (Summarizes number) (K.written sink.old) (K.written sink.new) }
    ensures too_large { result ≡ Status.TooLarge → Overruns number }
    ensures begun { result ≡ Status.WriteFault → ran.Begins (Summarizes number) (K.written sink.old) (K.written sink.new) }
    ensures unwritten { result ≢ Status.Ok → result ≢ Status.WriteFault → sink.new ≡ sink.old }
    ensures fault { result ≡ Status.WriteFault → Rose (K.faults sink.old) (K.faults sink.new) }
{
    match write_summary(alloc, number, sink) {
        Ok(()) => Status::Ok,
        Err(RunFault::TooMuch) => Status::TooLarge,
        Err(RunFault::OutOfMemory) => Status::OutOfMemory,
        Err(RunFault::WriteFault) => Status::WriteFault,
    }
}

/// Writes the script that is drawn from the number.
pub fn draw<K: Sink>(alloc: Global, number: u64, sink: &mut K) -> Status
    ensures ended { IsDrawEnd result }
    ensures done { result ≡ Status.Ok → ran.Writes (λ output. output ≡ script_of number) (K.written sink.old) (K.written sink.new) }
    ensures begun { result ≡ Status.WriteFault → ran.Begins (λ output. output ≡ script_of number) (K.written sink.old) (K.written sink.new) }
    ensures unwritten { result ≢ Status.Ok → result ≢ Status.WriteFault → sink.new ≡ sink.old }
    ensures fault { result ≡ Status.WriteFault → Rose (K.faults sink.old) (K.faults sink.new) }
{
    let Ok(text) = script_of(alloc, number) else {
        return Status::OutOfMemory;
    };
    match write_all(sink, text.bytes()) {
        Ok(()) => Status::Ok,
        Err(_) => Status::WriteFault,
    }
}
