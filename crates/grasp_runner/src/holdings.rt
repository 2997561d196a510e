//! Counting the prefixes of all nodes.

ghost use Rattle.std.specs.Prelude.{◌≡◌, ◌≤◌, length};
ghost use Rattle.grasp_runner.specs.Tallies.{HasNodes, TellsHeld, TellsDoubt};

use grasp_pool::Pool;
use grasp_simulator::World;

/// A pool has at most so many prefixes.
const MOST_ENTRIES: u64 = 4096;

/// How many prefixes the nodes of a network hold.
pub(crate) fn count_held(world: &World, nodes: u8) -> u64
    requires { HasNodes world.now nodes }
    ensures { TellsHeld world.now result }
{
    let mut held = 0;
    for before in 0..nodes {
        held += count_free(world.agent(before + 1).pool());
    }
    held
}

/// How many prefixes of the nodes of a network are in doubt.
pub(crate) fn count_doubt(world: &World, nodes: u8) -> u64
    requires { HasNodes world.now nodes }
    ensures { TellsDoubt world.now result }
{
    let mut doubt = 0;
    for before in 0..nodes {
        doubt += count_doubtful(world.agent(before + 1).pool());
    }
    doubt
}

/// How many prefixes a pool holds.
fn count_free(pool: &Pool) -> u64
    ensures count { result ≡ length pool.now.free }
    ensures most { result ≤ 4096 }
{
    // What is read of a pool tells that it is one.
    let _room = pool.room();
    for i in 0..MOST_ENTRIES {
        match pool.free(i) {
            Some(_) => {}
            None => return i,
        }
    }
    MOST_ENTRIES
}

/// How many prefixes of a pool are in doubt.
fn count_doubtful(pool: &Pool) -> u64
    ensures count { result ≡ length pool.now.doubtful }
    ensures most { result ≤ 4096 }
{
    // What is read of a pool tells that it is one.
    let _room = pool.room();
    for i in 0..MOST_ENTRIES {
        match pool.doubtful(i) {
            Some(_) => {}
            None => return i,
        }
    }
    MOST_ENTRIES
}
