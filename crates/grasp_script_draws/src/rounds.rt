//! Writing the lines of a round.

ghost use Rattle.std.specs.Prelude.{◌≡◌, ◌++◌, ◌∷◌, ◌*◌, ◌≤◌, ◌<◌, ◌^◌, [], OnOk, map, decimal, string_bytes};
ghost use Rattle.grasp_script_draws.specs.Drawing.{drawn_of};
ghost use Rattle.grasp_script_draws.specs.Generator.{line, lines_text, agent_lines, bytes_line, last_line, cut_line, request_lines, bargain_lines};
ghost use Rattle.grasp_script_draws.specs.Generator.{ending_lines, round_lines};

use crate::draws::RoundDraws;
use crate::lines::push_line;
use grasp_cbor::OutOfMemory;
use grasp_text::{push_number, push_word};

/// Appends so many lines of a node's agent.
fn push_agents(out: &mut String, times: u64, node: u64) -> Result<(), OutOfMemory>
    ensures { OnOk result (string_bytes out.new ≡ string_bytes out.old ++ lines_text (agent_lines times node)) }
{
    for _time in 0..times {
        push_line(out, "agent", &[node])?;
    }
    Ok(())
}

/// Appends the line of all bytes that are left to a side of a stream.
fn push_bytes(out: &mut String, stream: u64, side: &str) -> Result<(), OutOfMemory>
    ensures { OnOk result (string_bytes out.new ≡ string_bytes out.old ++ lines_text (bytes_line stream side.now ∷ [])) }
{
    out.push_str("bytes")?;
    push_number(out, stream)?;
    push_word(out, side)?;
    push_number(out, 9999)?;
    out.push_str("\n")?;
    Ok(())
}

/// Appends the line of a stream that is cut at its far side.
fn push_cut(out: &mut String, stream: u64) -> Result<(), OutOfMemory>
    ensures { OnOk result (string_bytes out.new ≡ string_bytes out.old ++ lines_text (cut_line stream ∷ [])) }
{
    out.push_str("cut")?;
    push_number(out, stream)?;
    push_word(out, "far")?;
    out.push_str("\n")?;
    Ok(())
}

/// Appends the line of what comes last to the far side.
fn push_last(out: &mut String, stream: u64, chance: u64) -> Result<(), OutOfMemory>
    ensures { OnOk result (string_bytes out.new ≡ string_bytes out.old ++ lines_text (last_line stream chance ∷ [])) }
{
    if chance == 0 {
        push_cut(out, stream)
    } else {
        push_bytes(out, stream, "far")
    }
}

/// Appends the lines with which a request comes to the node that is asked.
fn push_request(out: &mut String, round: u64, draws: &RoundDraws) -> Result<(), OutOfMemory>
    ensures { OnOk result (string_bytes out.new ≡ string_bytes out.old ++ lines_text (request_lines round (drawn_of draws.now))) }
{
    push_line(out, "want", &[draws.asking, draws.length, 64, draws.asked])?;
    push_line(out, "agent", &[draws.asking])?;
    push_line(out, "arrive", &[round])?;
    push_bytes(out, round, "far")
}

/// Appends the lines in which the nodes bargain.
fn push_bargain(out: &mut String, round: u64, draws: &RoundDraws) -> Result<(), OutOfMemory>
    ensures { OnOk result (string_bytes out.new ≡ string_bytes out.old ++ lines_text (bargain_lines round (drawn_of draws.now))) }
{
    push_agents(out, 3, draws.asked)?;
    push_bytes(out, round, "near")?;
    push_agents(out, 3, draws.asking)?;
    push_bytes(out, round, "far")?;
    push_agents(out, 3, draws.asked)?;
    push_bytes(out, round, "near")
}

/// Appends the lines with which a round ends.
fn push_ending(out: &mut String, round: u64, draws: &RoundDraws) -> Result<(), OutOfMemory>
    requires { round ≤ 800 }
    ensures { OnOk result (string_bytes out.new ≡ string_bytes out.old ++ lines_text (ending_lines round (drawn_of draws.now))) }
{
    push_agents(out, 5, draws.asking)?;
    push_last(out, round, draws.chance)?;
    push_agents(out, 2, draws.asked)?;
    push_line(out, "clock", &[draws.asked, 100 * round])
}

/// Appends the lines of a round.
#[tactic(auto, unfolding(crate::specs::Generator::round_lines))]
pub(crate) fn push_round(
    out: &mut String,
    round: u64,
    draws: &RoundDraws,
) -> Result<(), OutOfMemory>
    requires { round ≤ 800 }
    ensures { OnOk result (string_bytes out.new ≡ string_bytes out.old ++ lines_text (round_lines round (drawn_of draws.now))) }
{
    push_request(out, round, draws)?;
    push_bargain(out, round, draws)?;
    push_ending(out, round, draws)
}
