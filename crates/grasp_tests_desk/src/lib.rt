//! Calls of desks in memory and over sockets, of the client, and of the lines of control, each with ample memory. The crates tested
//! have no tests of their own, so that each is proved once.
#![tactic(auto)]

#[cfg(test)]
mod clients;
#[cfg(test)]
mod desks;
#[cfg(test)]
mod lines;
