//! Calls of items, of the types of messages, of links, watched or not, of sources and sinks, and of clocks, each with ample memory,
//! that no worked row makes. The crates tested have no tests of their own, so that each is proved once.
#![tactic(auto)]

#[cfg(test)]
mod interrupted;
#[cfg(test)]
mod items;
#[cfg(test)]
mod memory;
#[cfg(test)]
mod sockets;
#[cfg(test)]
mod sources;
#[cfg(test)]
mod traced;
#[cfg(test)]
mod types;
