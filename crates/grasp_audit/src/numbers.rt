//! The numbers of answers and calls are within the ranges of their types. Nothing is computed here.

ghost use Rattle.std.specs.List.{AllByRecursion};
ghost use Rattle.grasp_audit.specs.Numbers.{ApiFits, CallFits, FloodReadFits, IsNumber, LocatorFits, ObjectiveFits};
ghost use Rattle.grasp_audit.specs.Numbers.{OutcomeFits, OutputFits, ProgressFits, ReplyFits, ReportFits, ReturnFits, WantFits};

use grasp_agent::{ReturnFault, WantFault};
use grasp_model_network::Report;
use grasp_types::{
    ApiAnswer, Call, FloodRead, FloodReads, Locator, Locators, Objective, Outcome, Output, Outputs,
    Progress, Reply,
};

/// A number of 64 bits.
fn number_fits(number: u64)
    ensures { IsNumber number }
{}

/// A locator's port.
fn locator_fits(locator: &Locator)
    ensures { LocatorFits locator.now }
{
    match locator {
        Locator::V6 { port, .. } => {
            let _port = *port;
        }
        Locator::V4 { port, .. } => {
            let _port = *port;
        }
        Locator::Fqdn { port, .. } => {
            let _port = *port;
        }
        Locator::Uri { port, .. } => {
            if let Some(port) = port {
                let _port = *port;
            }
        }
    }
}

/// Those of locators.
fn locators_fit(locators: &Locators)
    ensures { AllByRecursion LocatorFits locators.now }
{
    for locator in locators.slice() {
        locator_fits(locator);
    }
}

/// An objective's flags and loop count.
fn objective_fits(objective: &Objective)
    ensures { ObjectiveFits objective.now }
{
    let _flags = objective.flags.bits();
    let _loops = objective.loops;
}

/// How a session ended.
fn outcome_fits(outcome: &Outcome)
    ensures { OutcomeFits outcome.now }
{
    match outcome {
        Outcome::Agreed { objective, .. } => objective_fits(objective),
        Outcome::Synchronized { objective } => objective_fits(objective),
        Outcome::TimedOut { deadline, now } => {
            let _deadline = *deadline;
            let _now = *now;
        }
        _ => {}
    }
}

/// How a session stands.
fn progress_fits(progress: &Progress)
    ensures { ProgressFits progress.now }
{
    match progress {
        Progress::NotYet => {}
        Progress::Turn(objective) => objective_fits(objective),
        Progress::Ended(outcome) => outcome_fits(outcome),
    }
}

/// What a flood told.
fn flood_read_fits(read: &FloodRead)
    ensures { FloodReadFits read.now }
{
    objective_fits(&read.objective);
    if let Some(locator) = &read.locator {
        locator_fits(locator);
    }
}

/// What floods told.
fn flood_reads_fit(reads: &FloodReads)
    ensures { AllByRecursion FloodReadFits reads.now }
{
    for read in reads.slice() {
        flood_read_fits(read);
    }
}

/// The answer to a call.
fn answer_fits(answer: &ApiAnswer)
    ensures { ApiFits answer.now }
{
    match answer {
        ApiAnswer::Asa(number) => {
            let _number = *number;
        }
        ApiAnswer::Started(handle) => {
            number_fits(handle.number);
        }
        ApiAnswer::Found(locators) => locators_fit(locators),
        ApiAnswer::Incoming {
            handle,
            objective,
            ..
        } => {
            number_fits(handle.number);
            objective_fits(objective);
        }
        ApiAnswer::Polled(progress) => progress_fits(progress),
        ApiAnswer::Floods(reads) => flood_reads_fit(reads),
        _ => {}
    }
}

/// The reply of a node.
fn reply_fits(reply: &Reply)
    ensures { ReplyFits reply.now }
{
    match reply {
        Reply::Api(answer) => answer_fits(answer),
        Reply::Outputs(outputs) => {
            let _count = outputs.len();
        }
        _ => {}
    }
}

/// Whether an agent took a want.
fn want_fits(taken: &Result<(), WantFault>)
    ensures { WantFits taken.now }
{
    match taken {
        Ok(()) => {}
        Err(WantFault::Busy { length, longest }) => {
            let _length = *length;
            let _longest = *longest;
        }
        Err(WantFault::Full) => {}
    }
}

/// Whether an agent took a return.
fn return_fits(taken: &Result<(), ReturnFault>)
    ensures { ReturnFits taken.now }
{
    match taken {
        Ok(()) => {}
        Err(ReturnFault::Busy { prefix }) => {
            let _length = prefix.length();
        }
        Err(ReturnFault::NotFree) => {}
        Err(ReturnFault::Full) => {}
    }
}

/// What an event came to.
pub(crate) fn report_fits(report: &Report)
    ensures { ReportFits report.now }
{
    match report {
        Report::Reply(reply) => reply_fits(reply),
        Report::Agent { call: _, reply } => reply_fits(reply),
        Report::Nothing => {}
        Report::Reading(millis) => {
            let _millis = *millis;
        }
        Report::Want(taken) => want_fits(taken),
        Report::Return(taken) => return_fits(taken),
        Report::Sent(outputs) => {
            let _outputs = *outputs;
        }
    }
}

/// What a node sends.
fn output_fits(output: &Output)
    ensures { OutputFits output.now }
{
    match output {
        Output::Datagram { link, to, .. } => {
            let _link = *link;
            let _to = *to;
        }
        Output::Dial { stream, to } => {
            let _stream = *stream;
            locator_fits(to);
        }
        Output::Send { stream, .. } => {
            let _stream = *stream;
        }
        Output::Close { stream } => {
            let _stream = *stream;
        }
    }
}

/// What a drain gives.
pub(crate) fn outputs_fit(outputs: &Outputs)
    ensures { AllByRecursion OutputFits outputs.now }
{
    for output in outputs.slice() {
        output_fits(output);
    }
}

/// A call.
pub(crate) fn call_fits(call: &Call)
    ensures { CallFits call.now }
{
    match call {
        Call::RegisterObjective { flags, .. } => {
            let _flags = flags.bits();
        }
        Call::Discover { loops, timeout, .. } => {
            let _loops = *loops;
            let _timeout = *timeout;
        }
        Call::RequestNegotiate { loops, timeout, .. } => {
            let _loops = *loops;
            let _timeout = *timeout;
        }
        Call::NegotiateStep { handle, .. } => {
            number_fits(handle.number);
        }
        Call::NegotiateWait { handle, millis } => {
            number_fits(handle.number);
            let _millis = *millis;
        }
        Call::EndNegotiate { handle, .. } => {
            number_fits(handle.number);
        }
        Call::SendInvalid { handle, .. } => {
            number_fits(handle.number);
        }
        Call::Poll { handle } => {
            number_fits(handle.number);
        }
        Call::Synchronize { loops, timeout, .. } => {
            let _loops = *loops;
            let _timeout = *timeout;
        }
        Call::Flood { ttl, loops, .. } => {
            let _ttl = *ttl;
            let _loops = *loops;
        }
        _ => {}
    }
}
