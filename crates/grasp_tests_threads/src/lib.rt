//! Passes of one node on one thread and on two, and nodes that run over links, a clock, a source and a sink in memory, with ample
//! memory: rows of what must come of a configuration, each key of one that can be bad, each place at which something fails, and a
//! meeting of the network loop and the agents. And two whole nodes over the loopback of the machine. The crates tested have no tests of their own, so that each is proved once.
#![tactic(auto)]

#[cfg(test)]
mod bad;
#[cfg(test)]
mod faults;
#[cfg(test)]
mod meeting;
#[cfg(test)]
mod pair;
#[cfg(test)]
mod passes;
#[cfg(test)]
mod registrations;
#[cfg(test)]
mod row;
#[cfg(test)]
mod rows;
#[cfg(test)]
mod threads;
