//! Counting what is reported of events.

ghost use Rattle.std.specs.Prelude.{◌≡◌, ◌+◌, ◌<◌, ◌^◌, ◌++◌, ◌∷◌, ◌-◌, [], List, if◌then◌else◌, option_copied};
ghost use Rattle.grasp_agent.specs.Replies.{answer_in, progress_in};
ghost use Rattle.grasp_model_network.specs.declared.report.Report.{Report};
ghost use Rattle.grasp_model_script.specs.Summary.{end_in, told_end, has_end, is_agreed, is_declined, is_broken};
ghost use Rattle.grasp_runner.specs.Tallies.{IsTally, CanCount};

use grasp_model_network::Report;
use grasp_types::{ApiAnswer, By, Outcome, Progress, Reply};

/// How many events were reported, and how many ends of negotiations of each kind.
#[derive(Clone, Copy)]
pub(crate) struct Tally {
    pub(crate) events: u64,
    pub(crate) agreed: u64,
    pub(crate) declined: u64,
    pub(crate) broken: u64,
}

impl Tally {
    /// Nothing was reported.
    pub(crate) fn new() -> Tally
        ensures { IsTally result [] }
    {
        Tally {
            events: 0,
            agreed: 0,
            declined: 0,
            broken: 0,
        }
    }

    /// One more event was reported.
    pub(crate) fn with(self, report: &Report) -> Tally
        requires { CanCount self }
        ensures { (reports : List Report) → IsTally self reports → IsTally result (reports ++ report.now ∷ []) }
    {
        Tally {
            events: self.events + 1,
            agreed: counted(self.agreed, tells_agreed(report)),
            declined: counted(self.declined, tells_declined(report)),
            broken: counted(self.broken, tells_broken(report)),
        }
    }
}

/// One more where it is counted.
fn counted(count: u64, one: bool) -> u64
    requires { count < 2 ^ 64 - 1 }
    ensures { result ≡ count + (if one then 1 else 0) }
{
    if one { count + 1 } else { count }
}

/// The end that is told to the agent that makes its next call.
fn told_end(report: &Report) -> Option<&Outcome>
    ensures { option_copied result ≡ told_end report.now }
{
    match report {
        Report::Agent { call: _, reply } => end_in(reply),
        _ => None,
    }
}

/// The end that the reply to a poll tells.
fn end_in(reply: &Reply) -> Option<&Outcome>
    ensures { option_copied result ≡ end_in (progress_in (answer_in reply.now)) }
{
    match reply {
        Reply::Api(ApiAnswer::Polled(progress)) => ended(progress),
        _ => None,
    }
}

/// The end of a session that is over.
fn ended(progress: &Progress) -> Option<&Outcome>
    ensures { option_copied result ≡ end_in (Some progress.now) }
{
    match progress {
        Progress::Ended(outcome) => Some(outcome),
        _ => None,
    }
}

/// Whether the agent is told that it accepted.
fn tells_agreed(report: &Report) -> bool
    ensures { result ≡ has_end is_agreed (told_end report.now) }
{
    match told_end(report) {
        Some(outcome) => is_agreed(outcome),
        None => false,
    }
}

/// Whether the agent is told that one of the two declined.
fn tells_declined(report: &Report) -> bool
    ensures { result ≡ has_end is_declined (told_end report.now) }
{
    match told_end(report) {
        Some(outcome) => is_declined(outcome),
        None => false,
    }
}

/// Whether the agent is told that the stream broke.
fn tells_broken(report: &Report) -> bool
    ensures { result ≡ has_end is_broken (told_end report.now) }
{
    match told_end(report) {
        Some(outcome) => is_broken(outcome),
        None => false,
    }
}

/// Whether this node accepted.
fn is_agreed(outcome: &Outcome) -> bool
    ensures { result ≡ is_agreed outcome.now }
{
    match outcome {
        Outcome::Agreed { by, .. } => *by == By::Mine,
        _ => false,
    }
}

/// Whether one of the two nodes declined.
fn is_declined(outcome: &Outcome) -> bool
    ensures { result ≡ is_declined outcome.now }
{
    matches!(outcome, Outcome::Declined { .. })
}

/// Whether the stream broke.
fn is_broken(outcome: &Outcome) -> bool
    ensures { result ≡ is_broken outcome.now }
{
    matches!(outcome, Outcome::Broken)
}
