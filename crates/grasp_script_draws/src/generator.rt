//! Scripts that are drawn from a number.

ghost use Rattle.std.specs.Prelude.{◌≡◌, IfOk};
ghost use Rattle.grasp_script_draws.specs.Generator.{script_of};

use crate::draws::Numbers;
use crate::header::push_header;
use crate::rounds::push_round;
use grasp_cbor::{Octets, OutOfMemory};
use std::alloc::Global;

/// How many rounds a script has.
const ROUNDS: u64 = 800;

/// The script that is drawn from a number: a ring of 16 nodes, of which four hold prefixes and the others want some, in
/// 20,000 events.
#[tactic(auto, unfolding(crate::specs::Generator::script_of))]
pub fn script_of(alloc: Global, number: u64) -> Result<Octets, OutOfMemory>
    ensures { IfOk result (λ text. text ≡ script_of number) }
{
    let mut numbers = Numbers { last: number };
    let mut out = String::new(alloc);
    push_header(alloc, &mut out)?;
    for i in 0..ROUNDS {
        let draws = numbers.round();
        push_round(&mut out, i + 1, &draws)?;
    }
    Octets::of(alloc, out.as_bytes())
}
