//! Calls of disks in memory and over files, and of a keeper, each with ample memory. The crates tested have no tests of their own, so
//! that each is proved once.
#![tactic(auto)]

#[cfg(test)]
mod disks;
#[cfg(test)]
mod files;
#[cfg(test)]
mod keepers;
