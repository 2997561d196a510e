//! Writing the state of a node.

ghost use Rattle.std.specs.Prelude.{◌≡◌, ◌++◌, ◌∷◌, [], OnOk, OnErr, IfOk, codes, string_bytes};
ghost use Rattle.grasp_cbor.specs.Extends.{Extends};
ghost use Rattle.grasp_text.specs.Words.{spaced};
ghost use Rattle.grasp_script.specs.Answers.{prefix_words};
ghost use Rattle.grasp_script.specs.Reports.{state_words, told_state};

use grasp_agent::PrefixAgent;
use grasp_cbor::{Chars, OutOfMemory};
use grasp_pool::Pool;
use grasp_text::{push_prefix, push_word};
use std::alloc::Global;

/// A pool has at most so many prefixes.
const MOST_ENTRIES: u64 = 4096;

/// The report of a node's state: the line, ` = ` and the prefixes that its agent holds, those that it has reserved and those
/// in doubt, as words with one blank between two.
pub fn told_state(alloc: Global, line: &Chars, agent: &PrefixAgent) -> Result<Chars, OutOfMemory>
    ensures { IfOk result (λ text. text ≡ told_state line.now agent.now.pool) }
{
    let mut out = String::from_str(alloc, line.text())?;
    push_told(alloc, &mut out, agent.pool())?;
    Chars::of(alloc, out.as_str())
}

/// Appends the part of the report behind the line.
#[tactic(auto, using(crate::proofs::Pushed::pushes))]
fn push_told(alloc: Global, out: &mut String, pool: &Pool) -> Result<(), OutOfMemory>
    ensures text { OnOk result (string_bytes out.new ≡ string_bytes out.old ++ spaced (codes "=" ∷ state_words pool.now)) }
    ensures err { OnErr result (Extends (string_bytes out.old) (string_bytes out.new)) }
{
    push_word(out, "=")?;
    push_pool(alloc, out, pool)
}

/// Appends the prefixes of a pool, each word behind a blank. After an `Err` a part of them may have been appended.
pub fn push_pool(alloc: Global, out: &mut String, pool: &Pool) -> Result<(), OutOfMemory>
    ensures text { OnOk result (string_bytes out.new ≡ string_bytes out.old ++ spaced (state_words pool.now)) }
    ensures err { OnErr result (Extends (string_bytes out.old) (string_bytes out.new)) }
{
    push_held(alloc, out, pool)?;
    push_kept(alloc, out, pool)?;
    push_doubt(alloc, out, pool)
}

/// Appends `held` and the prefixes that are held, each behind a blank.
#[tactic(auto, using(crate::proofs::Pushed::pushes))]
fn push_held(alloc: Global, out: &mut String, pool: &Pool) -> Result<(), OutOfMemory>
    ensures text { OnOk result (string_bytes out.new ≡ string_bytes out.old ++ spaced (codes "held" ∷ prefix_words pool.now.free)) }
    ensures err { OnErr result (Extends (string_bytes out.old) (string_bytes out.new)) }
{
    push_word(out, "held")?;
    push_free(alloc, out, pool)
}

/// Appends `reserved` and the prefixes that are reserved, each behind a blank.
#[tactic(auto, using(crate::proofs::Pushed::pushes))]
fn push_kept(alloc: Global, out: &mut String, pool: &Pool) -> Result<(), OutOfMemory>
    ensures text { OnOk result (string_bytes out.new ≡ string_bytes out.old ++ spaced (codes "reserved" ∷ prefix_words pool.now.reserved)) }
    ensures err { OnErr result (Extends (string_bytes out.old) (string_bytes out.new)) }
{
    push_word(out, "reserved")?;
    push_reserved(alloc, out, pool)
}

/// Appends `doubt` and the prefixes in doubt, each behind a blank.
#[tactic(auto, using(crate::proofs::Pushed::pushes))]
fn push_doubt(alloc: Global, out: &mut String, pool: &Pool) -> Result<(), OutOfMemory>
    ensures text { OnOk result (string_bytes out.new ≡ string_bytes out.old ++ spaced (codes "doubt" ∷ prefix_words pool.now.doubtful)) }
    ensures err { OnErr result (Extends (string_bytes out.old) (string_bytes out.new)) }
{
    push_word(out, "doubt")?;
    push_doubtful(alloc, out, pool)
}

/// Appends the prefixes that are held, each behind a blank.
fn push_free(alloc: Global, out: &mut String, pool: &Pool) -> Result<(), OutOfMemory>
    ensures text { OnOk result (string_bytes out.new ≡ string_bytes out.old ++ spaced (prefix_words pool.now.free)) }
    ensures err { OnErr result (Extends (string_bytes out.old) (string_bytes out.new)) }
{
    // What is read of a pool tells that it is one.
    let _room = pool.room();
    for i in 0..MOST_ENTRIES {
        match pool.free(i) {
            Some(prefix) => push_prefix(alloc, out, prefix)?,
            None => return Ok(()),
        }
    }
    Ok(())
}

/// Appends the prefixes that are reserved, each behind a blank.
fn push_reserved(alloc: Global, out: &mut String, pool: &Pool) -> Result<(), OutOfMemory>
    ensures text { OnOk result (string_bytes out.new ≡ string_bytes out.old ++ spaced (prefix_words pool.now.reserved)) }
    ensures err { OnErr result (Extends (string_bytes out.old) (string_bytes out.new)) }
{
    // What is read of a pool tells that it is one.
    let _room = pool.room();
    for i in 0..MOST_ENTRIES {
        match pool.reserved(i) {
            Some(prefix) => push_prefix(alloc, out, prefix)?,
            None => return Ok(()),
        }
    }
    Ok(())
}

/// Appends the prefixes in doubt, each behind a blank.
fn push_doubtful(alloc: Global, out: &mut String, pool: &Pool) -> Result<(), OutOfMemory>
    ensures text { OnOk result (string_bytes out.new ≡ string_bytes out.old ++ spaced (prefix_words pool.now.doubtful)) }
    ensures err { OnErr result (Extends (string_bytes out.old) (string_bytes out.new)) }
{
    // What is read of a pool tells that it is one.
    let _room = pool.room();
    for i in 0..MOST_ENTRIES {
        match pool.doubtful(i) {
            Some(prefix) => push_prefix(alloc, out, prefix)?,
            None => return Ok(()),
        }
    }
    Ok(())
}
