//! Reading how a session ended.

ghost use Rattle.std.specs.Prelude.{◌≡◌};
ghost use Rattle.grasp_text.specs.Reading.{Reads, word_at};
ghost use Rattle.grasp_record.specs.Grammar.{by_of, outcome_of, agreed_at, declined_at, synchronized_at, timed_out_at, invalid_at, outcome_at, ended_at};

use crate::names::{OutcomeName, by, outcome_name};
use grasp_script::read_reason;
use grasp_text::{WordFault, Words, read_objective};
use grasp_types::{ApiAnswer, By, Outcome, Progress};
use std::alloc::Global;

/// Takes how a session ended, behind `ended`.
#[tactic(auto, unfolding(crate::specs::Grammar::ended_at))]
pub(crate) fn read_ended(alloc: Global, words: &mut Words<'_>) -> Result<ApiAnswer, WordFault>
    ensures { Reads (λ a. a) result words.new (ended_at words.old) }
{
    let name = read_outcome_name(words)?;
    let outcome = read_outcome(alloc, words, name)?;
    Ok(ApiAnswer::Polled(Progress::Ended(outcome)))
}

fn read_outcome_name(words: &mut Words<'_>) -> Result<OutcomeName, WordFault>
    ensures { Reads (λ n. n) result words.new (word_at outcome_of words.old) }
{
    let (word, unfit) = words.next()?;
    outcome_name(word).ok_or(unfit)
}

fn read_outcome(
    alloc: Global,
    words: &mut Words<'_>,
    name: OutcomeName,
) -> Result<Outcome, WordFault>
    ensures { Reads (λ o. o) result words.new (outcome_at name words.old) }
{
    match name {
        OutcomeName::Agreed => read_agreed(alloc, words),
        OutcomeName::Declined => read_declined(alloc, words),
        OutcomeName::Synchronized => read_synchronized(alloc, words),
        OutcomeName::TimedOut => read_timed_out(words),
        OutcomeName::Broken => {
            words.end()?;
            Ok(Outcome::Broken)
        }
        OutcomeName::Invalid => read_invalid(words),
    }
}

/// Takes whose doing it was.
fn read_by(words: &mut Words<'_>) -> Result<By, WordFault>
    ensures { Reads (λ b. b) result words.new (word_at by_of words.old) }
{
    let (word, unfit) = words.next()?;
    by(word).ok_or(unfit)
}

#[tactic(auto, unfolding(crate::specs::Grammar::agreed_at))]
fn read_agreed(alloc: Global, words: &mut Words<'_>) -> Result<Outcome, WordFault>
    ensures { Reads (λ o. o) result words.new (agreed_at words.old) }
{
    let by = read_by(words)?;
    let objective = read_objective(alloc, words)?;
    words.end()?;
    Ok(Outcome::Agreed { by, objective })
}

#[tactic(auto, unfolding(crate::specs::Grammar::declined_at))]
fn read_declined(alloc: Global, words: &mut Words<'_>) -> Result<Outcome, WordFault>
    ensures { Reads (λ o. o) result words.new (declined_at words.old) }
{
    let by = read_by(words)?;
    let reason = read_reason(alloc, words)?;
    Ok(Outcome::Declined { by, reason })
}

#[tactic(auto, unfolding(crate::specs::Grammar::synchronized_at))]
fn read_synchronized(alloc: Global, words: &mut Words<'_>) -> Result<Outcome, WordFault>
    ensures { Reads (λ o. o) result words.new (synchronized_at words.old) }
{
    let objective = read_objective(alloc, words)?;
    words.end()?;
    Ok(Outcome::Synchronized { objective })
}

#[tactic(auto, unfolding(crate::specs::Grammar::timed_out_at))]
fn read_timed_out(words: &mut Words<'_>) -> Result<Outcome, WordFault>
    ensures { Reads (λ o. o) result words.new (timed_out_at words.old) }
{
    let deadline = words.number(u64::MAX)?;
    let now = words.number(u64::MAX)?;
    words.end()?;
    Ok(Outcome::TimedOut { deadline, now })
}

#[tactic(auto, unfolding(crate::specs::Grammar::invalid_at))]
fn read_invalid(words: &mut Words<'_>) -> Result<Outcome, WordFault>
    ensures { Reads (λ o. o) result words.new (invalid_at words.old) }
{
    let by = read_by(words)?;
    words.end()?;
    Ok(Outcome::Invalid { by })
}
