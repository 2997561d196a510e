//! The node's own part of the table of a node that serves.

ghost use Rattle.std.specs.Prelude.{◌≡◌, pos, codes, OnOk, IfOk, option_map};
ghost use Rattle.toml.specs.Data.{get_member, integer};
ghost use Rattle.toml.specs.View.{view, table_view};
ghost use Rattle.grasp_config.specs.NodePart.{node_part, without, with_member, with_turns};

use crate::table::value_at;
use grasp_cbor::OutOfMemory;
use std::alloc::Global;
use toml::{Table, Value};

/// Takes the value at `serve` out of the table, and puts `turns = 1` where they are absent: what is left is the node's own
/// part.
#[tactic(auto, unfolding(crate::specs::NodePart::node_part))]
pub(crate) fn take_serve(alloc: Global, table: &mut Table) -> Result<Option<Value>, OutOfMemory>
    ensures left { OnOk result (table_view table.new ≡ node_part (table_view table.old)) }
    ensures taken { IfOk result (λ serve. option_map view serve ≡ get_member (codes "serve") (table_view table.old)) }
{
    let serve = taken(table);
    put_turns(alloc, table)?;
    Ok(serve)
}

/// Takes the value at `serve` out of the table.
fn taken(table: &mut Table) -> Option<Value>
    ensures left { table_view table.new ≡ without (codes "serve") (table_view table.old) }
    ensures taken { option_map view result ≡ get_member (codes "serve") (table_view table.old) }
{
    table.remove("serve")
}

/// Puts `turns = 1` where they are absent.
fn put_turns(alloc: Global, table: &mut Table) -> Result<(), OutOfMemory>
    ensures { OnOk result (table_view table.new ≡ with_turns (get_member (codes "turns") (table_view table.old)) (table_view table.old)) }
{
    match value_at(table, "turns") {
        Some(_) => Ok(()),
        None => put_one_turn(alloc, table),
    }
}

/// Puts `turns = 1`.
fn put_one_turn(alloc: Global, table: &mut Table) -> Result<(), OutOfMemory>
    ensures { OnOk result (table_view table.new ≡ with_member (codes "turns") (integer (pos 1)) (table_view table.old)) }
{
    let turns = String::from_str(alloc, "turns")?;
    let _ = table.insert(turns, Value::Integer(1))?;
    Ok(())
}
