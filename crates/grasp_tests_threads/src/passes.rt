//! Passes that register agents, on one thread.

use crate::registrations::{is_duplicate, number, plan, registration};
use grasp_core::NodeCore;
use grasp_shared::{Busy, Shared};
use grasp_types::Reply;
use std::test::Fail;

/// The number that an agent was given, where its call was served.
fn served(answer: &Result<Reply, Busy>) -> Option<u32> {
    match answer {
        Ok(reply) => number(reply),
        Err(_) => None,
    }
}

/// Whether a call was served, and refused since an agent has the name.
fn refused(answer: &Result<Reply, Busy>) -> bool {
    match answer {
        Ok(reply) => is_duplicate(reply),
        Err(_) => false,
    }
}

#[test]
fn two_passes(rt: HostRuntime) -> Result<(), Fail> {
    let alloc = rt.alloc();
    let Ok(core) = NodeCore::open(alloc, plan(alloc)) else {
        panic!(rt; "no memory")
    };
    let Ok((shared, mut root)) = Shared::open(alloc, core) else {
        panic!(rt; "no memory")
    };
    let first = registration(alloc, "a").expect(&rt, "memory");
    let second = registration(alloc, "b").expect(&rt, "memory");
    let third = registration(alloc, "b").expect(&rt, "memory");
    let fourth = registration(alloc, "b").expect(&rt, "memory");
    assert!(rt; served(&shared.root_try_call(&mut root, 0, first)) == Some(1));
    let mut pass = shared.split(&mut root);
    assert!(rt; root.out() == 1);
    assert!(rt; served(&shared.try_call(&mut pass, 0, second)) == Some(2));
    assert!(rt; refused(&shared.root_try_call(&mut root, 0, third)));
    shared.join(&mut root, pass);
    assert!(rt; root.out() == 0);
    assert!(rt; refused(&shared.root_try_call(&mut root, 0, fourth)));
    let core = shared.close(root);
    assert!(rt; core.now() == 0);
    Ok(())
}
