//! Calls of shelves over stores in memory and in files, each with ample memory. The crates tested have no tests of their own, so that
//! each is proved once.
#![tactic(auto)]

#[cfg(test)]
mod files;
#[cfg(test)]
mod memory;
#[cfg(test)]
mod pools;
