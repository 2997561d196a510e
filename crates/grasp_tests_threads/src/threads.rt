//! Two threads that register eight agents each at one node, whichever comes first: the next one is the seventeenth.

ghost use Rattle.std.specs.Prelude.{◌≡◌};
ghost use Rattle.grasp_shared.specs.Handles.{IsPassOf, IsRootOf, out_of};

use crate::registrations::{number, plan, registration};
use grasp_core::NodeCore;
use grasp_shared::{Pass, Root, Shared};
use std::alloc::Global;
use std::process::Abort;
use std::sync::Wait;
use std::test::Fail;
use std::thread::{Threads, join};

/// The names of the agents of the one thread, and of the other.
const LEFT: [&str; 8] = ["a", "b", "c", "d", "e", "f", "g", "h"];

const RIGHT: [&str; 8] = ["i", "j", "k", "l", "m", "n", "o", "p"];

/// Registers an agent of this name. The call waits for its turn.
fn register<R: Wait>(rt: &R, alloc: Global, shared: &Shared, mut pass: Pass, name: &str) -> Pass
    requires { IsPassOf shared.now pass }
    ensures { IsPassOf shared.now result }
{
    let Ok(input) = registration(alloc, name) else {
        return pass;
    };
    let _reply = shared.call(rt, &mut pass, 0, input);
    pass
}

/// Registers agents of these names, one after the other.
fn register_all<R: Wait>(
    rt: &R,
    alloc: Global,
    shared: &Shared,
    mut pass: Pass,
    names: &[&str; 8],
) -> Pass
    requires { IsPassOf shared.now pass }
    ensures { IsPassOf shared.now result }
{
    for i in 0..8usize {
        pass = register(rt, alloc, shared, pass, names[i]);
    }
    pass
}

/// Both threads register their agents, each through its pass.
fn register_beside<R: Threads + Wait + Sync>(
    rt: &R,
    alloc: Global,
    shared: &Shared,
    left: Pass,
    right: Pass,
) -> (Pass, Pass)
    requires { IsPassOf shared.now left × IsPassOf shared.now right }
    ensures { IsPassOf shared.now result.0 × IsPassOf shared.now result.1 }
{
    join(
        rt,
        move || -> Pass
            requires { IsPassOf shared.now left }
            ensures { IsPassOf shared.entry.now result }
        { register_all(rt, alloc, shared, left, &LEFT) },
        move || -> Pass
            requires { IsPassOf shared.now right }
            ensures { IsPassOf shared.entry.now result }
        { register_all(rt, alloc, shared, right, &RIGHT) },
    )
}

/// A node that threads may share.
fn open<R: Abort>(rt: &R, alloc: Global) -> (Shared, Root)
    ensures { IsRootOf result.0 result.1 × (out_of result.1 ≡ 0) }
{
    let Ok(core) = NodeCore::open(alloc, plan(alloc)) else {
        panic!(rt; "no memory")
    };
    match Shared::open(alloc, core) {
        Ok(opened) => opened,
        Err(_) => panic!(rt; "no memory"),
    }
}

#[test]
fn two_threads_register(rt: HostRuntime) -> Result<(), Fail> {
    let alloc = rt.alloc();
    let (shared, mut root) = open(&rt, alloc);
    let left = shared.split(&mut root);
    let right = shared.split(&mut root);
    let (left, right) = register_beside(&rt, alloc, &shared, left, right);
    shared.join(&mut root, left);
    shared.join(&mut root, right);
    let next = registration(alloc, "q").expect(&rt, "memory");
    let reply = shared.root_call(&rt, &mut root, 0, next);
    assert!(rt; number(&reply) == Some(17));
    let core = shared.close(root);
    assert!(rt; core.now() == 0);
    Ok(())
}
