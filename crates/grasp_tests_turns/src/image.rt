//! Images of the pools of nodes.

use grasp_cbor::OutOfMemory;
use grasp_pool::{Pool, PoolImage, PrefixList};
use grasp_types::{List, Prefix};
use std::alloc::Global;

/// A pool has at most so many prefixes.
const MOST_PREFIXES: u64 = 4096;

/// An image without a prefix.
pub fn bare(alloc: Global) -> PoolImage {
    PoolImage {
        free: List::new(alloc),
        doubtful: List::new(alloc),
    }
}

/// An image of the pool as it is: what is reserved is in doubt.
pub fn image_of(alloc: Global, pool: &Pool) -> Result<PoolImage, OutOfMemory> {
    let mut image = bare(alloc);
    for i in 0..MOST_PREFIXES {
        add(&mut image.free, pool.free(i))?;
        add(&mut image.doubtful, pool.reserved(i))?;
        add(&mut image.doubtful, pool.doubtful(i))?;
    }
    Ok(image)
}

/// An image in which this prefix alone is free.
pub fn image_with(alloc: Global, prefix: Prefix) -> Result<PoolImage, OutOfMemory> {
    let mut image = bare(alloc);
    image.free.push(prefix)?;
    Ok(image)
}

/// A prefix follows, where there is one.
fn add(list: &mut PrefixList, prefix: Option<Prefix>) -> Result<(), OutOfMemory> {
    if let Some(prefix) = prefix {
        list.push(prefix)?;
    }
    Ok(())
}
