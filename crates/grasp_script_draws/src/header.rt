//! Writing the header of a script that is drawn from a number.

ghost use Rattle.std.specs.Prelude.{◌≡◌, ◌≤◌, ◌++◌, ◌∷◌, [], OnOk, string_bytes};
ghost use Rattle.grasp_script_draws.specs.Generator.{lines_text, root_line, root_lines, chain_lines, header_lines, root_of};

use crate::lines::push_line;
use grasp_cbor::OutOfMemory;
use grasp_text::{push_number, push_prefix};
use grasp_types::Prefix;
use std::alloc::Global;

/// The root of the node of this number.
#[tactic(auto, unfolding(crate::specs::Generator::root_of))]
fn root_of(node: u64) -> Prefix
    requires { node ≤ 4 }
    ensures { result ≡ root_of node }
{
    match Prefix::of((137_456_629_760 + u128::from(node)) << 88, 40) {
        Some(prefix) => prefix,
        None => unreachable!(),
    }
}

/// Appends the line of a node's root.
fn push_root(alloc: Global, out: &mut String, node: u64) -> Result<(), OutOfMemory>
    requires { node ≤ 4 }
    ensures { OnOk result (string_bytes out.new ≡ string_bytes out.old ++ lines_text (root_line node ∷ [])) }
{
    out.push_str("root")?;
    push_number(out, node)?;
    push_prefix(alloc, out, root_of(node))?;
    out.push_str("\n")?;
    Ok(())
}

/// Appends the lines of the roots.
fn push_roots(alloc: Global, out: &mut String) -> Result<(), OutOfMemory>
    ensures { OnOk result (string_bytes out.new ≡ string_bytes out.old ++ lines_text (root_lines 4)) }
{
    for node in 0..4u64 {
        push_root(alloc, out, node + 1)?;
    }
    Ok(())
}

/// Appends the lines of the links from each node to the next.
fn push_chain(out: &mut String) -> Result<(), OutOfMemory>
    ensures { OnOk result (string_bytes out.new ≡ string_bytes out.old ++ lines_text (chain_lines 15)) }
{
    for node in 0..15u64 {
        push_line(out, "link", &[node + 1, node + 2])?;
    }
    Ok(())
}

/// Appends the lines before the first round.
pub(crate) fn push_header(alloc: Global, out: &mut String) -> Result<(), OutOfMemory>
    ensures { OnOk result (string_bytes out.new ≡ string_bytes out.old ++ lines_text header_lines) }
{
    push_line(out, "nodes", &[16])?;
    push_roots(alloc, out)?;
    push_chain(out)?;
    push_line(out, "link", &[16, 1])?;
    push_line(out, "start", &[])
}
