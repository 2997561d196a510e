//! Where a node that serves keeps its pool: in a store that is opened by its path, with a keeper that is asked around each call of
//! the agent of prefixes; or nowhere.
#![tactic(auto)]

mod fault;
mod mem_store;
mod shelf;
mod store;

pub use fault::ShelfFault;
pub use mem_store::MemStore;
pub use shelf::Shelf;
pub use store::Store;
