//! A disk over a file of the machine, and a store in such a file: the image of an agent's pool, kept through restarts. What stands
//! in the file isn't told to contracts.
#![tactic(auto)]

mod disk;
mod pieces;
mod slots;
mod store;
mod store_file;

pub use disk::{FileDisk, FileFault};
pub use store::{FileStore, StoreFault};
pub use store_file::StoreFile;
