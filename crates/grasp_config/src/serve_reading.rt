//! Reading the configuration of a node that serves.

ghost use Rattle.std.specs.Prelude.{◌≡◌, IfOk, option_map};
ghost use Rattle.toml.specs.View.{view, table_view};
ghost use Rattle.grasp_config.specs.NodePart.{table_in};
ghost use Rattle.grasp_config.specs.Serve.{HasServe, IsBadServe, IsServeOf, IsFirstBadServe};
ghost use Rattle.grasp_config.specs.ServeFaults.{IfBadServe};
ghost use Rattle.grasp_config.specs.declared.serve.ServeConfig.{ServeConfig};

use crate::fault::ConfigKey;
use crate::floodable::are_floodable;
use crate::node_part::take_serve;
use crate::read::config_of;
use crate::serve::ServeConfig;
use crate::serve_fault::{ServeFault, ServeKey, serve_fault_of};
use crate::serve_groups::serve_table;
use std::alloc::Global;
use toml::{Table, Value};

/// The configuration of a node that serves, which a text has.
///
/// `BadServe` comes exactly where it has none. Its key is `toml` where the text isn't UTF-8 or no TOML, and else the first
/// bad key: those of the node's own part in the order of `read_config`, then that its beacons can't be flooded, that the
/// table `serve` is absent, and then those of that table in the order of its fields, the unknown ones last. The node's own
/// part is the table without `serve`, with `turns = 1` where they are absent.
pub fn read_serve(alloc: Global, text: &[u8]) -> Result<ServeConfig, ServeFault>
    ensures found { IfOk result (λ config. HasServe text.now config) }
    ensures only { (config : ServeConfig) → HasServe text.now config → IfOk result (λ c. c ≡ config) }
    ensures none { IfBadServe result (λ _. (config : ServeConfig) → ¬ HasServe text.now config) }
    ensures first { IfBadServe result (λ key. IsBadServe text.now key) }
{
    match toml::table_from_slice(alloc, text) {
        Ok(table) => serve_of(alloc, table),
        Err(fault) => {
            if fault.is_memory() {
                Err(ServeFault::OutOfMemory)
            } else {
                Err(ServeFault::BadServe {
                    key: ServeKey::Node {
                        key: ConfigKey::Toml,
                    },
                })
            }
        }
    }
}

/// The configuration of a node that serves, which a table is.
fn serve_of(alloc: Global, table: Table) -> Result<ServeConfig, ServeFault>
    ensures found { IfOk result (λ config. IsServeOf (table_view table) config) }
    ensures first { IfBadServe result (λ key. IsFirstBadServe (table_view table) key) }
{
    let mut table = table;
    let serve = take_serve(alloc, &mut table)?;
    let node = match config_of(alloc, &table) {
        Ok(node) => node,
        Err(fault) => return Err(serve_fault_of(fault)),
    };
    if !are_floodable(&node.address, node.size, node.beacons.slice())? {
        return Err(ServeFault::BadServe {
            key: ServeKey::Floods,
        });
    }
    let Some(serve) = table_in(&serve) else {
        return Err(ServeFault::BadServe {
            key: ServeKey::Serve,
        });
    };
    let serve = serve_table(alloc, &node.listen, serve)?;
    Ok(ServeConfig { node, serve })
}

/// The table that a value is, or `None` where it is none, or there is none.
fn table_in(value: &Option<Value>) -> Option<&Table>
    ensures { option_map (λ t. table_view t.now) result ≡ table_in (option_map view value.now) }
{
    match value {
        Some(value) => value.as_table(),
        None => None,
    }
}
