//! What readings of a clock and refusals are. These functions say nothing at run time.

ghost use Rattle.grasp_laws_tables.specs.Refusals.{ReadingsAreSums, RefusalsDiffer};

/// The reading after some milliseconds is the sum, or the greatest `u64` where that is less.
#[tactic(auto, using(crate::proofs::RefusalLaws::sums))]
pub fn readings_are_sums()
    ensures { ReadingsAreSums }
{}

/// Two refusals differ in their numbers, which are 1 to 21, and in their printed names.
#[tactic(auto, using(crate::proofs::RefusalLaws::differ))]
pub fn refusals_differ()
    ensures { RefusalsDiffer }
{}
